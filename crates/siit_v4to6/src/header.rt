//! The header of a packet on its way to IPv6 (RFC 7915 section 4.1).
ghost use Rattle.siit_model.specs.Fragments.{fragment4, is_whole};
ghost use Rattle.siit_model.specs.Ipv4.{ipv4_fields, total_length_in};
ghost use Rattle.siit_model.specs.Ipv6.{ipv6_bytes};
ghost use Rattle.siit_v4to6.specs.Heads.{head6_for, header_packet6, headed_packet6};
ghost use Rattle.siit_v4to6.specs.To6.{fragment_part, header_to_6, next_header_of};
ghost use Rattle.siit_views.specs.Headers.{HasLengths4};
ghost use Rattle.siit_views.specs.Writers.{packet_in6};
ghost use Rattle.std.specs.Prelude.{◌≡◌, ◌≤◌, ◌+◌, ◌++◌, [], length, drop, not, unwrap_or};

use crate::fields::Head46;
use siit_upper::{FRAGMENT, ICMP, ICMPV6};
use siit_views::{Fields6, Ipv4Header, PacketBuf, fragment_header, ipv6_header, replace_front};

/// Puts an IPv6 header in place of the IPv4 header, in the same buffer, and a Fragment header behind it where the
/// packet is a fragment or `to.fragment` asks for one. The payload stays where it lies, and options are gone.
///
/// The buffer holds one IPv4 packet, whole or not, and no bytes of the link behind it, whose TTL is at least 1. At
/// least 28 bytes lie free before it.
pub fn head46(buf: &mut PacketBuf, to: &Head46)
    requires packet { HasLengths4 buf.old.bytes }
    requires no_padding { length buf.old.bytes ≡ total_length_in buf.old.bytes }
    requires alive { 1 ≤ (ipv4_fields buf.old.bytes).ttl }
    requires room { 28 ≤ buf.old.front }
    ensures bytes { buf.new.bytes ≡ ipv6_bytes (headed_packet6 to.now (ipv4_fields buf.old.bytes)) }
    ensures front { buf.new.front + length buf.new.bytes ≡ buf.old.front + length buf.old.bytes }
{
    let header = Ipv4Header::new(buf.bytes());
    let header_len = header.header_len();
    let headers = new_headers(&header, to);
    put_fragment(buf, header_len, headers.fragment);
    replace_front(buf, 0, &ipv6_header(&headers.fields, headers.len));
}

/// The headers of a packet on its way to IPv6.
#[derive(Clone, Copy)]
struct Headers46 {
    /// The IPv6 header's fields.
    fields: Fields6,
    /// The payload length.
    len: u16,
    /// The Fragment header, if there is to be one.
    fragment: Option<[u8; 8]>,
}

/// The headers that come in place of an IPv4 header.
fn new_headers(header: &Ipv4Header<'_>, to: &Head46) -> Headers46
    requires packet { HasLengths4 header.now }
    requires alive { 1 ≤ (ipv4_fields header.now).ttl }
    ensures fields { packet_in6 result.fields ≡ record (headed_packet6 to.now (ipv4_fields header.now)) { body = [] } }
    ensures len { result.len ≡ length (headed_packet6 to.now (ipv4_fields header.now)).body }
    ensures fragment { let f = fragment4 (ipv4_fields header.now)
        in unwrap_or result.fragment [] ≡ fragment_part to.now.fragment (header_to_6 (head6_for to.now f) f) }
{
    let upper = next_header(header.protocol());
    let payload_len = header.total() - header.header_len() as u16;
    if !to.fragment && !is_fragment(header) {
        return Headers46 {
            fields: fields46(header, to, upper),
            len: payload_len,
            fragment: None,
        };
    }
    let id = u32::from(header.id());
    Headers46 {
        fields: fields46(header, to, FRAGMENT),
        len: 8 + payload_len,
        fragment: Some(fragment_header(upper, header.offset(), header.mf(), id)),
    }
}

/// The fields of the IPv6 header, by the next header.
fn fields46(header: &Ipv4Header<'_>, to: &Head46, next: u8) -> Fields6
    requires { 1 ≤ (ipv4_fields header.now).ttl }
    ensures { packet_in6 result ≡ header_packet6 (head6_for to.now (fragment4 (ipv4_fields header.now))) next }
{
    Fields6 {
        class: to.class,
        hop: header.ttl() - 1,
        next,
        src: to.src,
        dst: to.dst,
    }
}

/// Whether an IPv4 packet is a fragment.
fn is_fragment(header: &Ipv4Header<'_>) -> bool
    ensures { result ≡ not (is_whole (fragment4 (ipv4_fields header.now))) }
{
    header.offset() != 0 || header.mf()
}

/// The next header of a protocol: ICMP becomes ICMPv6.
fn next_header(protocol: u8) -> u8
    ensures { result ≡ next_header_of protocol }
{
    match protocol {
        ICMP => ICMPV6,
        _ => protocol,
    }
}

/// Puts a Fragment header in place of the first n bytes, or takes them off.
fn put_fragment(buf: &mut PacketBuf, n: usize, fragment: Option<[u8; 8]>)
    requires inside { n ≤ length buf.old.bytes }
    requires room { 8 ≤ buf.old.front + n }
    requires fits { 8 + length buf.old.bytes ≤ 65575 + n }
    ensures bytes { buf.new.bytes ≡ unwrap_or fragment [] ++ drop n buf.old.bytes }
    ensures front { buf.new.front + length (unwrap_or fragment []) ≡ buf.old.front + n }
{
    match fragment {
        Some(header) => replace_front(buf, n, &header),
        None => buf.shrink_front(n),
    }
}
