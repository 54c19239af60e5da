//! The errors, made where the packet lies.
ghost use Rattle.siit_errors.specs.Errors.{error4, error6, message_packet4, message_packet6, right_message};
ghost use Rattle.siit_model.specs.Ipv4.{ipv4_bytes};
ghost use Rattle.siit_model.specs.Ipv6.{ipv6_bytes};
ghost use Rattle.siit_views.specs.Headers.{HasLength6, HasLengths4};
ghost use Rattle.std.specs.Prelude.{◌≡◌, ◌≤◌, ◌<◌, ◌+◌, length, slice_index};

use siit_addr::{Addr4, Addr6};
use siit_checksum::{pseudo_sum6, sum_of};
use siit_upper::{ICMP, ICMPV6};
use siit_views::{
    Fields4, Fields6, Ipv4Header, Ipv6Header, PacketBuf, ipv4_header, ipv6_header, replace_front,
};
use siit_word::{put16, put32};

/// The hop limit of an error.
const HOPS: u8 = 64;

/// How much of a packet an ICMPv4 error quotes at most, so that it has 576 bytes (RFC 1812 section 4.3.2.3).
const MOST_QUOTED4: usize = 548;

/// How much of a packet an ICMPv6 error quotes at most, so that it has 1,280 bytes (RFC 4443 section 2.4).
const MOST_QUOTED6: usize = 1232;

/// Makes the ICMPv4 error of this type and code that goes from `source` to the packet's source and quotes the packet's
/// first bytes (RFC 792). `rest` are the message's bytes 4 to 7. The quote stays where it lies, its headers come before
/// it, and bytes of the link are cut off. At least 28 bytes lie free before the packet, whose lengths are those of a
/// packet.
pub fn make_error4(buf: &mut PacketBuf, source: Addr4, kind: u8, code: u8, rest: u32)
    requires packet { HasLengths4 buf.old.bytes }
    requires room { 28 ≤ buf.old.front }
    ensures bytes { buf.new.bytes ≡ error4 source.0 kind code rest buf.old.bytes }
    ensures front { buf.new.front + 28 ≡ buf.old.front }
    ensures most { length buf.new.bytes ≤ 576 }
{
    let header = Ipv4Header::new(buf.bytes());
    let quoted = usize::from(header.total()).min(MOST_QUOTED4);
    let destination = header.src();
    buf.cut_end(quoted);
    put_message(buf, 0, [kind, code], rest);
    put_header4(buf, source, destination);
}

/// Makes the ICMPv6 error of this type and code that goes from `source` to the packet's source and quotes the packet's
/// first bytes (RFC 4443 section 3). `rest` are the message's bytes 4 to 7. The quote stays where it lies, its headers
/// come before it, and bytes of the link are cut off. At least 48 bytes lie free before the packet, whose length is
/// that of a packet.
pub fn make_error6(buf: &mut PacketBuf, source: Addr6, kind: u8, code: u8, rest: u32)
    requires packet { HasLength6 buf.old.bytes }
    requires room { 48 ≤ buf.old.front }
    ensures bytes { buf.new.bytes ≡ error6 source.0 kind code rest buf.old.bytes }
    ensures front { buf.new.front + 48 ≡ buf.old.front }
    ensures most { length buf.new.bytes ≤ 1280 }
{
    let header = Ipv6Header::new(buf.bytes());
    let quoted = (40 + usize::from(header.length())).min(MOST_QUOTED6);
    let destination = header.src();
    buf.cut_end(quoted);
    let pseudo = pseudo_sum6(source.0, destination.0, ICMPV6, 8 + quoted as u32);
    put_message(buf, pseudo, [kind, code], rest);
    put_header6(buf, source, destination);
}

/// Puts the first 8 bytes of an ICMP message before its quote: type and code, the checksum, which counts a
/// pseudo-header of this residue, and bytes 4 to 7.
fn put_message(buf: &mut PacketBuf, pseudo: u16, kind: [u8; 2], rest: u32)
    requires room { 8 ≤ buf.old.front }
    requires fits { 8 + length buf.old.bytes ≤ 65575 }
    ensures bytes { buf.new.bytes ≡ right_message pseudo (slice_index kind 0) (slice_index kind 1) rest buf.old.bytes }
    ensures front { buf.new.front + 8 ≡ buf.old.front }
{
    let mut head = [kind[0], kind[1], 0, 0, 0, 0, 0, 0];
    put32(&mut head, 4, rest);
    let sum = u32::from(pseudo) + u32::from(sum_of(&head)) + u32::from(sum_of(buf.bytes()));
    put16(&mut head, 2, ((65535 - sum % 65535) % 65535) as u16);
    replace_front(buf, 0, &head);
}

/// Puts an IPv4 header before an ICMPv4 message.
fn put_header4(buf: &mut PacketBuf, source: Addr4, destination: Addr4)
    requires room { 20 ≤ buf.old.front }
    requires fits { 20 + length buf.old.bytes ≤ 65535 }
    ensures bytes { buf.new.bytes ≡ ipv4_bytes (message_packet4 source.0 destination.0 buf.old.bytes) }
    ensures front { buf.new.front + 20 ≡ buf.old.front }
{
    let total = 20 + buf.bytes().len() as u16;
    let fields = Fields4 {
        tos: 0,
        id: 0,
        df: false,
        more: false,
        offset: 0,
        ttl: HOPS,
        protocol: ICMP,
        src: source,
        dst: destination,
    };
    replace_front(buf, 0, &ipv4_header(&fields, total));
}

/// Puts an IPv6 header before an ICMPv6 message.
fn put_header6(buf: &mut PacketBuf, source: Addr6, destination: Addr6)
    requires room { 40 ≤ buf.old.front }
    requires fits { length buf.old.bytes ≤ 65535 }
    ensures bytes { buf.new.bytes ≡ ipv6_bytes (message_packet6 source.0 destination.0 buf.old.bytes) }
    ensures front { buf.new.front + 40 ≡ buf.old.front }
{
    let len = buf.bytes().len() as u16;
    let fields = Fields6 {
        class: 0,
        hop: HOPS,
        next: ICMPV6,
        src: source,
        dst: destination,
    };
    replace_front(buf, 0, &ipv6_header(&fields, len));
}
