//! TCP segments and UDP datagrams that come out of a pair (RFC 7915 sections 4.5 and 5.5).
ghost use Rattle.siit_pair.specs.Same.{has_right_checksum, have_header, is_same_computed, is_same_tcp, is_same_udp};
ghost use Rattle.std.specs.Prelude.{◌≡◌, ◌≤◌, length};

use crate::equal::{is_same_moved, is_same_unsummed};
use siit_addr::Addresses4;
use siit_checksum::{pseudo_sum4, sum_of};
use siit_roles::Settings;
use siit_upper::UDP;
use siit_word::get16;

/// The length of a TCP header without options, in bytes (RFC 793).
const TCP_HEADER: usize = 20;

/// The place of the checksum in it.
const TCP_CHECKSUM: usize = 16;

/// The length of a UDP header in bytes (RFC 768).
const UDP_HEADER: usize = 8;

/// The place of the length in it.
const UDP_LENGTH: usize = 4;

/// The place of the checksum in it.
const UDP_CHECKSUM: usize = 6;

/// Whether both payloads have a header of at least so many bytes.
pub(crate) fn have_header(least: usize, old: &[u8], new: &[u8]) -> bool
    ensures { result ≡ have_header least old.now new.now }
{
    old.len() >= least && new.len() >= least
}

/// Whether a TCP segment came out as it went in.
pub(crate) fn is_same_tcp(old: &[u8], new: &[u8]) -> bool
    ensures { result ≡ is_same_tcp old.now new.now }
{
    have_header(TCP_HEADER, old, new) && is_same_moved(TCP_CHECKSUM, old, new)
}

/// Whether a UDP datagram between these addresses came out as it went in, with a right checksum where it had none.
pub(crate) fn is_same_udp(first: &Settings, ends: Addresses4, old: &[u8], new: &[u8]) -> bool
    requires { length new.now ≤ 65535 }
    ensures { result ≡ is_same_udp first.now ends.src.0 ends.dst.0 old.now new.now }
{
    if !have_header(UDP_HEADER, old, new) {
        return false;
    }
    if get16(old, UDP_CHECKSUM) == 0 {
        is_same_computed(first, ends, old, new)
    } else {
        is_same_moved(UDP_CHECKSUM, old, new)
    }
}

/// The same of a datagram that had no checksum.
fn is_same_computed(first: &Settings, ends: Addresses4, old: &[u8], new: &[u8]) -> bool
    requires old { 8 ≤ length old.now }
    requires new { 8 ≤ length new.now }
    requires most { length new.now ≤ 65535 }
    ensures { result ≡ is_same_computed first.now ends.src.0 ends.dst.0 old.now new.now }
{
    first.udp_compute
        && usize::from(get16(old, UDP_LENGTH)) == old.len()
        && is_same_unsummed(UDP_CHECKSUM, old, new)
        && has_right_checksum(ends, new)
}

/// Whether a datagram between these addresses has a checksum, and a right one (RFC 768).
fn has_right_checksum(ends: Addresses4, datagram: &[u8]) -> bool
    requires header { 8 ≤ length datagram.now }
    requires most { length datagram.now ≤ 65535 }
    ensures { result ≡ has_right_checksum ends.src.0 ends.dst.0 datagram.now }
{
    let pseudo = pseudo_sum4(ends.src.0, ends.dst.0, UDP, datagram.len() as u16);
    let sum = u32::from(pseudo) + u32::from(sum_of(datagram));
    get16(datagram, UDP_CHECKSUM) != 0 && sum % 65535 == 0
}
