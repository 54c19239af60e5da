//! The upper part of a packet that is no ICMP error (RFC 7915 sections 4.2 and 4.5).
ghost use Rattle.siit_departure6.specs.Parts.{is_bare, upper_by};
ghost use Rattle.siit_model.specs.Bytes.{with_field16};
ghost use Rattle.siit_v4to6.specs.To6.{udp_checksum6};
ghost use Rattle.std.specs.Prelude.{◌≡◌, ◌≤◌, ◌+◌, ◌++◌, length, take, drop, true};

use siit_addr::Addresses6;
use siit_arrival4::{Arrived4, Upper4};
use siit_v4to6::{udp_sum6, upper46_behind};
use siit_word::put16;

/// Translates the upper part that stands behind the first `at` bytes of a packet, its headers, where it begins there.
/// The bytes of a later fragment stay.
pub(crate) fn translate_upper(bytes: &mut [u8], at: usize, first: bool, arrived: &Arrived4)
    requires inside { at ≤ length bytes.old }
    requires fits { length bytes.old ≤ at + 65535 }
    requires datagram { is_bare arrived.now.upper ≡ true → at + 8 ≤ length bytes.old }
    ensures { bytes.new ≡ take at bytes.old ++ upper_by arrived.now.upper arrived.now first (drop at bytes.old) }
{
    if is_bare(arrived.upper) {
        put_checksum(&mut bytes[at..], arrived.new);
        return;
    }
    if !first {
        return;
    }
    let len = (bytes.len() - at) as u16;
    upper46_behind(bytes, at, arrived.protocol, arrived.old, arrived.new, len);
}

/// Whether an upper part is a whole UDP datagram without checksum.
fn is_bare(upper: Upper4) -> bool
    ensures { result ≡ is_bare upper }
{
    matches!(upper, Upper4::Bare)
}

/// Computes the checksum of a whole UDP datagram (RFC 7915 section 4.5).
fn put_checksum(datagram: &mut [u8], new: Addresses6)
    requires header { 8 ≤ length datagram.old }
    requires fits { length datagram.old ≤ 65535 }
    ensures { datagram.new ≡ with_field16 datagram.old 6 (udp_checksum6 new.src.0 new.dst.0 datagram.old) }
{
    let sum = udp_sum6(datagram, new.src, new.dst);
    put16(datagram, 6, sum);
}
