//! The header of a packet on its way to IPv4 (RFC 7915 section 5.1).
ghost use Rattle.siit_model.specs.Bytes.{flag_bit};
ghost use Rattle.siit_model.specs.Fragments.{fields_in};
ghost use Rattle.siit_model.specs.Ipv4.{ipv4_bytes};
ghost use Rattle.siit_model.specs.Ipv6.{ipv6_fields, payload_length_in};
ghost use Rattle.siit_upper.specs.Walks.{fragment_in, walked};
ghost use Rattle.siit_v6to4.specs.Heads.{headed_packet4};
ghost use Rattle.siit_v6to4.specs.To4.{df_for, identification, protocol_of, walk_in};
ghost use Rattle.siit_views.specs.Headers.{HasLength6};
ghost use Rattle.siit_views.specs.Writers.{packet_in4};
ghost use Rattle.std.specs.Prelude.{◌≡◌, ◌<◌, ◌≤◌, ◌+◌, [], length, drop, Ok, IfOk, IfSome};
ghost use Rattle.std.specs.Result.{IsOk};

use crate::fields::Head64;
use siit_upper::{FragInfo, ICMP, ICMPV6, Walk, walk_ext};
use siit_views::{Fields4, Ipv6Header, PacketBuf, ipv4_header, replace_front};

/// The longest IPv4 packet in bytes that may be cut on its way (RFC 7915 section 5.1).
const MAY_BE_CUT: u16 = 1260;

/// The fragment that a packet without Fragment header is.
const WHOLE: FragInfo = FragInfo {
    offset: 0,
    more: false,
    id: 0,
};

/// Puts an IPv4 header in place of the IPv6 header and its extension headers, in the same buffer. The upper part stays
/// where it lies. A Fragment header gives the identification, the offset and More.
///
/// The buffer holds one IPv6 packet and no bytes of the link behind it, whose extension headers `walk_ext` accepts,
/// which has a hop limit of at least 1, and whose IPv4 form has at most 65,535 bytes.
pub fn head64(buf: &mut PacketBuf, to: &Head64)
    requires packet { HasLength6 buf.old.bytes }
    requires no_padding { length buf.old.bytes ≡ 40 + payload_length_in buf.old.bytes }
    requires alive { 1 ≤ (ipv6_fields buf.old.bytes).hop }
    requires accepted { IsOk (walk_in buf.old.bytes) }
    requires fits { IfOk (walk_in buf.old.bytes) (λ walk. 20 + length (drop walk.at (ipv6_fields buf.old.bytes).body) ≤ 65535) }
    ensures bytes { IfOk (walk_in buf.old.bytes) (λ walk.
        buf.new.bytes ≡ ipv4_bytes (headed_packet4 to.now walk (ipv6_fields buf.old.bytes))) }
    ensures front { buf.new.front + length buf.new.bytes ≡ buf.old.front + length buf.old.bytes }
{
    let walk = accepted_walk(&Ipv6Header::new(buf.bytes()));
    head64_by(buf, to, &walk);
}

/// The walk over the extension headers of a packet that has one.
fn accepted_walk(header: &Ipv6Header<'_>) -> Walk
    requires packet { HasLength6 header.now }
    requires accepted { IsOk (walk_in header.now) }
    ensures walk { walk_in header.now ≡ Ok (walked result) }
    ensures within { result.at ≤ payload_length_in header.now }
    ensures offset { IfSome result.frag (λ frag. frag.offset < 8192) }
{
    walk_ext(header.payload(), header.next()).unwrap()
}

/// The same as `head64`, for the walk over the packet's extension headers.
pub fn head64_by(buf: &mut PacketBuf, to: &Head64, walk: &Walk)
    requires no_padding { length buf.old.bytes ≡ 40 + payload_length_in buf.old.bytes }
    requires alive { 1 ≤ (ipv6_fields buf.old.bytes).hop }
    requires within { walk.now.at ≤ payload_length_in buf.old.bytes }
    requires offset { IfSome walk.now.frag (λ frag. frag.offset < 8192) }
    requires fits { 20 + length (drop walk.now.at (ipv6_fields buf.old.bytes).body) ≤ 65535 }
    ensures bytes { buf.new.bytes ≡ ipv4_bytes (headed_packet4 to.now (walked walk.now) (ipv6_fields buf.old.bytes)) }
    ensures front { buf.new.front + length buf.new.bytes ≡ buf.old.front + length buf.old.bytes }
{
    let header = Ipv6Header::new(buf.bytes());
    let total = 20 + (header.length() - walk.at);
    let fields = fields64(&header, to, walk, total);
    replace_front(buf, 40 + usize::from(walk.at), &ipv4_header(&fields, total));
}

/// The fields of the IPv4 header, by the total length.
fn fields64(header: &Ipv6Header<'_>, to: &Head64, walk: &Walk, total: u16) -> Fields4
    requires alive { 1 ≤ (ipv6_fields header.now).hop }
    requires offset { IfSome walk.now.frag (λ frag. frag.offset < 8192) }
    requires total { total ≡ 20 + length (drop walk.now.at (ipv6_fields header.now).body) }
    ensures fields { packet_in4 result ≡ record (headed_packet4 to.now (walked walk.now) (ipv6_fields header.now)) { payload = [] } }
    ensures offset { result.offset < 8192 }
{
    let frag = walk.frag.unwrap_or(WHOLE);
    Fields4 {
        tos: to.tos,
        id: identification(walk.frag, to.ident),
        df: is_unbroken(walk.frag, total),
        more: frag.more,
        offset: frag.offset,
        ttl: header.hop() - 1,
        protocol: protocol(walk.upper),
        src: to.src,
        dst: to.dst,
    }
}

/// The identification: the low bits of that of a Fragment header, or the number that was handed in.
fn identification(frag: Option<FragInfo>, number: u16) -> u16
    ensures { result ≡ identification (fragment_in frag) number }
{
    match frag {
        Some(frag) => (frag.id % 0x1_0000) as u16,
        None => number,
    }
}

/// The flag Don't Fragment, by the total length.
fn is_unbroken(frag: Option<FragInfo>, total: u16) -> bool
    ensures { flag_bit result ≡ df_for (fragment_in frag) total }
{
    frag.is_none() && total > MAY_BE_CUT
}

/// The protocol of an upper part: ICMPv6 becomes ICMP.
fn protocol(upper: u8) -> u8
    ensures { result ≡ protocol_of upper }
{
    match upper {
        ICMPV6 => ICMP,
        _ => upper,
    }
}
