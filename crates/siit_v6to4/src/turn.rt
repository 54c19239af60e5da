//! A packet that is turned: it gets other addresses and leaves on the IPv6 side, where it came from (RFC 7757 section
//! 4.2.2).
ghost use Rattle.siit_model.specs.Bytes.{AreBytes, bytes128};
ghost use Rattle.siit_model.specs.Checksum.{pseudo6};
ghost use Rattle.siit_model.specs.Fragments.{fields_in};
ghost use Rattle.siit_model.specs.Ipv6.{ipv6_bytes, ipv6_fields, payload_length_in};
ghost use Rattle.siit_upper.specs.Walks.{fragment_in, walked};
ghost use Rattle.siit_v6to4.specs.Turns.{turned_packet, turned_part, turned_upper};
ghost use Rattle.siit_views.specs.Headers.{refusal6};
ghost use Rattle.std.specs.Prelude.{◌≡◌, ◌≤◌, ◌+◌, ◌-◌, ◌==◌, ◌++◌, length, take, drop, None};

use byteorder::{BigEndian, ByteOrder};
use siit_addr::Addresses6;
use siit_checksum::pseudo_sum6;
use siit_upper::{FragInfo, ICMPV6, TCP, UDP, Walk, move_icmp, move_tcp, move_udp};
use siit_views::Ipv6Header;

/// Gives an IPv6 packet these addresses and moves its transport checksum by them, in whole packets and first fragments.
/// The hop limit and all else stay, extension headers too.
///
/// The bytes are one IPv6 packet and none of the link behind it, and `walk` is the walk over its extension headers.
pub fn turn_addresses(bytes: &mut [u8], walk: &Walk, new: Addresses6)
    requires packet { refusal6 bytes.old ≡ None }
    requires no_padding { length bytes.old ≡ 40 + payload_length_in bytes.old }
    requires within { walk.now.at ≤ payload_length_in bytes.old }
    ensures { let packet = ipv6_fields bytes.old
        in bytes.new ≡ ipv6_bytes (turned_packet new.src.0 new.dst.0 (length (drop walk.now.at packet.body)) (walked walk.now) packet) }
{
    let header = Ipv6Header::new(bytes);
    let old = Addresses6 {
        src: header.src(),
        dst: header.dst(),
    };
    let whole_len = header.length() - walk.at;
    are_bytes(bytes);
    turn_part(bytes, walk, old, new, whole_len);
    write_addresses(bytes, new);
}

/// What is known of a slice of bytes: each is below 256.
fn are_bytes(bytes: &[u8])
    ensures { AreBytes bytes.now }
{}

/// Moves the checksum of what stands behind the extension headers.
fn turn_part(bytes: &mut [u8], walk: &Walk, old: Addresses6, new: Addresses6, whole_len: u16)
    requires { 40 + walk.now.at ≤ length bytes.old }
    ensures { let old_pseudo = pseudo6 old.src.0 old.dst.0 walk.now.upper whole_len
        in let new_pseudo = pseudo6 new.src.0 new.dst.0 walk.now.upper whole_len
        in bytes.new ≡ take (40 + walk.now.at) bytes.old ++ turned_part old_pseudo new_pseudo (walked walk.now) (drop (40 + walk.now.at) bytes.old) }
{
    if !is_first(walk.frag) {
        return;
    }
    let at = 40 + usize::from(walk.at);
    turn_upper(walk.upper, &mut bytes[at..], old, new, whole_len);
}

/// Moves the checksum of an upper part of this protocol, a part that may be cut, from its old addresses to its new
/// ones. `whole_len` is its length in bytes as sent. A checksum field that isn't whole in the part stays, and so do a
/// UDP checksum of 0 and other protocols.
pub fn turn_upper(protocol: u8, part: &mut [u8], old: Addresses6, new: Addresses6, whole_len: u16)
    ensures { part.new
        ≡ turned_upper protocol (pseudo6 old.src.0 old.dst.0 protocol whole_len) (pseudo6 new.src.0 new.dst.0 protocol whole_len) part.old }
{
    let len = u32::from(whole_len);
    let old_sum = pseudo_sum6(old.src.0, old.dst.0, protocol, len);
    let new_sum = pseudo_sum6(new.src.0, new.dst.0, protocol, len);
    turn_by_sums(protocol, part, old_sum, new_sum);
}

/// The same by the residues of both pseudo-headers.
fn turn_by_sums(protocol: u8, part: &mut [u8], old_sum: u16, new_sum: u16)
    ensures { part.new ≡ turned_upper protocol old_sum new_sum part.old }
{
    match protocol {
        TCP => move_tcp(part, old_sum, new_sum),
        UDP => move_udp(part, old_sum, new_sum),
        ICMPV6 => move_icmp(part, old_sum, new_sum),
        _ => {}
    }
}

/// Whether the upper part begins in this packet: it is whole, or a first fragment.
fn is_first(frag: Option<FragInfo>) -> bool
    ensures { result ≡ ((fields_in (fragment_in frag)).offset == 0) }
{
    match frag {
        Some(frag) => frag.offset == 0,
        None => true,
    }
}

/// Writes the addresses of an IPv6 header.
fn write_addresses(bytes: &mut [u8], new: Addresses6)
    requires { 40 ≤ length bytes.old }
    ensures { bytes.new ≡ take 8 bytes.old ++ bytes128 new.src.0 ++ bytes128 new.dst.0 ++ drop 40 bytes.old }
{
    BigEndian::write_u128(&mut bytes[8..24], new.src.0);
    BigEndian::write_u128(&mut bytes[24..40], new.dst.0);
}
