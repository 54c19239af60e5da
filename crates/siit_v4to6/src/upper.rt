//! The upper part of a packet on its way to IPv6: transport checksums and ICMP echo (RFC 7915 sections 4.5 and 4.2).
ghost use Rattle.siit_v4to6.specs.To6.{echo_to_6, ends_4_to_6, udp_checksum6, upper_to_6};
ghost use Rattle.std.specs.Prelude.{◌≡◌, ◌<◌, ◌≤◌, ◌++◌, length, take, drop};

use siit_addr::{Addr6, Addresses4, Addresses6};
use siit_checksum::{pseudo_sum4, pseudo_sum6, sum_of};
use siit_icmp::echo46;
use siit_upper::{ICMP, ICMPV6, TCP, UDP, move_echo, move_tcp, move_udp};

/// Translates the upper part of a packet of this protocol, a part that may be cut, from its old addresses to its new
/// ones. `whole_len` is the upper part's length in bytes as sent. A checksum field that isn't whole in the part stays,
/// and so does a UDP checksum of 0. ICMP other than echo and all other protocols stay.
pub fn upper46(protocol: u8, part: &mut [u8], old: Addresses4, new: Addresses6, whole_len: u16)
    ensures { part.new ≡ upper_to_6 protocol (ends_4_to_6 old new) whole_len part.old }
{
    match protocol {
        TCP => move_tcp(
            part,
            pseudo_sum4(old.src.0, old.dst.0, TCP, whole_len),
            pseudo_sum6(new.src.0, new.dst.0, TCP, u32::from(whole_len)),
        ),
        UDP => move_udp(
            part,
            pseudo_sum4(old.src.0, old.dst.0, UDP, whole_len),
            pseudo_sum6(new.src.0, new.dst.0, UDP, u32::from(whole_len)),
        ),
        ICMP => move_echo46(
            part,
            pseudo_sum6(new.src.0, new.dst.0, ICMPV6, u32::from(whole_len)),
        ),
        _ => {}
    }
}

/// The same of the upper part that stands behind the first `at` bytes of a packet, its headers, which stay.
pub fn upper46_behind(
    bytes: &mut [u8],
    at: usize,
    protocol: u8,
    old: Addresses4,
    new: Addresses6,
    whole_len: u16,
)
    requires { at ≤ length bytes.old }
    ensures { bytes.new ≡ take at bytes.old ++ upper_to_6 protocol (ends_4_to_6 old new) whole_len (drop at bytes.old) }
{
    upper46(protocol, &mut bytes[at..], old, new, whole_len);
}

/// The UDP checksum over IPv6 of a whole datagram of 8 to 65,535 bytes, computed from nothing (RFC 8200 section 8.1,
/// RFC 768): its own two bytes count as zero, and it is in 1 to 65535.
pub fn udp_sum6(part: &[u8], src: Addr6, dst: Addr6) -> u16
    requires header { 8 ≤ length part.now }
    requires fits { length part.now ≤ 65535 }
    ensures value { result ≡ udp_checksum6 src.0 dst.0 part.now }
    ensures above { 0 < result }
{
    let pseudo = pseudo_sum6(src.0, dst.0, UDP, part.len() as u32);
    let sum = u32::from(pseudo) + u32::from(sum_of(&part[..6])) + u32::from(sum_of(&part[8..]));
    (65535 - sum % 65535) as u16
}

/// Translates an ICMP echo message, a part that may be cut (RFC 7915 section 4.2). Its checksum counts the
/// pseudo-header of residue `pseudo`, which ICMPv4 hasn't. Other ICMP messages stay.
fn move_echo46(part: &mut [u8], pseudo: u16)
    ensures { part.new ≡ echo_to_6 pseudo part.old }
{
    let Some(kind) = part.first().copied() else {
        return;
    };
    if let Some(new_kind) = echo46(kind) {
        move_echo(part, new_kind, 0, pseudo);
    }
}
