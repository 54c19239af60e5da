//! The upper part of a packet on its way to IPv4: transport checksums and ICMP echo (RFC 7915 sections 5.5 and 5.2).
ghost use Rattle.siit_v6to4.specs.To4.{echo_to_4, ends_6_to_4, upper_to_4};
ghost use Rattle.std.specs.Prelude.{◌≡◌, ◌≤◌, ◌++◌, length, take, drop};

use siit_addr::{Addresses4, Addresses6};
use siit_checksum::{pseudo_sum4, pseudo_sum6};
use siit_icmp::echo64;
use siit_upper::{ICMPV6, TCP, UDP, move_echo, move_tcp, move_udp};

/// Translates the upper part of a packet of this protocol, a part that may be cut, from its old addresses to its new
/// ones. `whole_len` is the upper part's length in bytes as sent. A checksum field that isn't whole in the part stays,
/// and so does a UDP checksum of 0. ICMPv6 other than echo and all other protocols stay.
pub fn upper64(protocol: u8, part: &mut [u8], old: Addresses6, new: Addresses4, whole_len: u16)
    ensures { part.new ≡ upper_to_4 protocol (ends_6_to_4 old new) whole_len part.old }
{
    match protocol {
        TCP => move_tcp(
            part,
            pseudo_sum6(old.src.0, old.dst.0, TCP, u32::from(whole_len)),
            pseudo_sum4(new.src.0, new.dst.0, TCP, whole_len),
        ),
        UDP => move_udp(
            part,
            pseudo_sum6(old.src.0, old.dst.0, UDP, u32::from(whole_len)),
            pseudo_sum4(new.src.0, new.dst.0, UDP, whole_len),
        ),
        ICMPV6 => move_echo64(
            part,
            pseudo_sum6(old.src.0, old.dst.0, ICMPV6, u32::from(whole_len)),
        ),
        _ => {}
    }
}

/// The same of the upper part that stands behind the first `at` bytes of a packet, its header, which stay.
pub fn upper64_behind(
    bytes: &mut [u8],
    at: usize,
    protocol: u8,
    old: Addresses6,
    new: Addresses4,
    whole_len: u16,
)
    requires { at ≤ length bytes.old }
    ensures { bytes.new ≡ take at bytes.old ++ upper_to_4 protocol (ends_6_to_4 old new) whole_len (drop at bytes.old) }
{
    upper64(protocol, &mut bytes[at..], old, new, whole_len);
}

/// Translates an ICMPv6 echo message, a part that may be cut (RFC 7915 section 5.2). Its checksum counts no longer the
/// pseudo-header of residue `pseudo`, which ICMPv4 hasn't. Other ICMPv6 messages stay.
fn move_echo64(part: &mut [u8], pseudo: u16)
    ensures { part.new ≡ echo_to_4 pseudo part.old }
{
    let Some(kind) = part.first().copied() else {
        return;
    };
    if let Some(new_kind) = echo64(kind) {
        move_echo(part, new_kind, pseudo, 0);
    }
}
