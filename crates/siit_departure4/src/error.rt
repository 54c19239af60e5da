//! An ICMPv6 error as an ICMPv4 error, where it lies (RFC 7915 section 5.3).
ghost use Rattle.siit_arrival6.specs.Arrived.{HasError6};
ghost use Rattle.siit_departure4.specs.Parts.{common_between, head_written};
ghost use Rattle.siit_device.specs.Backward.{error_by4};
ghost use Rattle.siit_model.specs.Bytes.{part};
ghost use Rattle.siit_roles.specs.Limits.{IsWithinLimits};
ghost use Rattle.std.specs.Prelude.{◌≡◌, ◌≤◌, ◌+◌, ◌++◌, length, take, drop, Ok};

use crate::body::{HEADER, read_body, sum_both};
use crate::rest::new_rest;
use siit_addr::Addresses6;
use siit_arrival6::Error6;
use siit_checksum::{pseudo_sum6, shift, sum_of};
use siit_icmp::NewKind;
use siit_quoted::{Sums, quote64_by};
use siit_roles::Settings;
use siit_upper::ICMPV6;
use siit_views::PacketBuf;
use siit_word::{get16, put16};

/// Makes the ICMPv6 error that stands from `at` on, in a packet between these addresses, the ICMPv4 error. What stands
/// before it moves. Its checksum is moved by what differs, so that a wrong one stays wrong by as much (RFC 1624).
pub fn new_error(
    settings: &Settings,
    buf: &mut PacketBuf,
    at: usize,
    old: Addresses6,
    error: &Error6,
)
    requires limits { IsWithinLimits settings.now }
    requires inside { at ≤ length buf.old.bytes }
    requires header { 40 ≤ at }
    requires message { HasError6 settings.now (drop at buf.old.bytes) error.now }
    ensures bytes { buf.new.bytes ≡ take at buf.old.bytes ++ error_by4 settings.now (common_between old) (drop at buf.old.bytes) (Ok error.now.new) }
    ensures shorter { length buf.new.bytes ≤ length buf.old.bytes }
    ensures front { buf.old.front ≤ buf.new.front }
{
    let message = &buf.bytes()[at..];
    let pseudo = pseudo_sum6(old.src.0, old.dst.0, ICMPV6, message.len() as u32);
    let body = read_body(message, error, settings.tos_zero);
    buf.cut_end(at + HEADER + body.len);
    let octet = quote64_by(
        buf,
        at + HEADER,
        body.ext,
        &body.walk,
        error.quote,
        settings.tos_zero,
    );
    let sums = Sums {
        gone: sum_both(pseudo, body.sums.gone),
        come: body.sums.come,
    };
    write_head_at(settings, buf.bytes_mut(), at, error.new, octet, sums);
}

/// Writes the header of the new message over that of the old one, which stands from `at` on.
fn write_head_at(
    settings: &Settings,
    bytes: &mut [u8],
    at: usize,
    new: NewKind,
    octet: u8,
    sums: Sums,
)
    requires mtu6 { 1280 ≤ settings.now.mtu6 }
    requires inside { at + 8 ≤ length bytes.old }
    ensures { bytes.new ≡ take at bytes.old ++ head_written settings.now new octet sums (part bytes.old at 8) ++ drop (at + 8) bytes.old }
{
    write_head(settings, &mut bytes[at..at + HEADER], new, octet, sums);
}

/// Makes the header of an ICMPv6 error that of the ICMPv4 error with this length octet, for the residues of what else
/// goes and comes.
fn write_head(settings: &Settings, head: &mut [u8], new: NewKind, octet: u8, sums: Sums)
    requires mtu6 { 1280 ≤ settings.now.mtu6 }
    requires header { length head.old ≡ 8 }
    ensures { head.new ≡ head_written settings.now new octet sums head.old }
{
    let [a, b, c, d] = new_rest(settings, new.rest, octet, head);
    let checksum = get16(head, 2);
    put16(head, 2, 0);
    let before = sum_both(sums.gone, sum_of(head));
    head.copy_from_slice(&[new.kind, new.code, 0, 0, a, b, c, d]);
    let after = sum_both(sums.come, sum_of(head));
    put16(head, 2, shift(checksum, before, after));
}
