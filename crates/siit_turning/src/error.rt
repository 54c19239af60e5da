//! The ICMPv6 error that is turned with its quote (RFC 7757 section 4.2.2, RFC 4884).
ghost use Rattle.siit_device.specs.Arrival6.{quoted_part6};
ghost use Rattle.siit_model.specs.Checksum.{pseudo6};
ghost use Rattle.siit_turning.specs.Back.{IsAcceptedError, IsPlanned, error_between, extension_in, head_turned, kept_in};
ghost use Rattle.std.specs.Prelude.{◌≡◌, ◌<◌, ◌≤◌, ◌+◌, ◌-◌, ◌%◌, ◌++◌, length, take, drop};

use crate::header::are_bytes;
use siit_addr::Addresses6;
use siit_checksum::{pseudo_sum6, shift, sum_of};
use siit_quoted::{Sums, accepted_walk, extension, quote_part, quote_sums_turned, quote_turn_by};
use siit_rules::Family;
use siit_upper::{ICMPV6, Walk};
use siit_views::PacketBuf;
use siit_word::{get16, put16};

/// How many bytes of an ICMPv6 message stand before its body.
const HEADER: usize = 8;

/// What is known of an error's body before it is turned.
#[derive(Clone, Copy, Debug, PartialEq, Eq)]
pub(crate) struct Plan {
    /// The walk over the quote's extension headers.
    pub(crate) walk: Walk,
    /// The place in the body of the extension, if there is one.
    pub(crate) ext: Option<u16>,
    /// How many bytes of the body are quote or extension. Those behind them are cut off.
    pub(crate) kept: usize,
    /// What goes and comes in the body.
    pub(crate) sums: Sums,
}

/// Makes the ICMPv6 error that stands from `at` on the one between the addresses `new`, with a quote between the
/// addresses `quote`, where it lies. What stands before it moves to the right, if it moves.
///
/// The quote is one that is accepted.
pub(crate) fn turn_error(
    buf: &mut PacketBuf,
    at: usize,
    old: Addresses6,
    new: Addresses6,
    quote: Addresses6,
)
    requires inside { at ≤ length buf.old.bytes }
    requires header { 40 ≤ at }
    requires accepted { IsAcceptedError (drop at buf.old.bytes) }
    ensures bytes { buf.new.bytes ≡ take at buf.old.bytes ++ error_between old new quote (drop at buf.old.bytes) }
    ensures front { buf.old.front ≤ buf.new.front }
{
    let old_sum = pseudo(old, buf.bytes().len() - at);
    let plan = planned(&buf.bytes()[at..], quote);
    let body = at + HEADER;
    buf.cut_end(body + plan.kept);
    let octet = quote_turn_by(buf, body, plan.ext, &plan.walk, quote);
    let new_sum = pseudo(new, buf.bytes().len() - at);
    let gone = sum_both(old_sum, plan.sums.gone);
    let come = sum_both(new_sum, plan.sums.come);
    write_head_at(buf.bytes_mut(), at, octet, gone, come);
}

/// What is known of the body of this error, whose quote is to have these addresses.
fn planned(message: &[u8], quote: Addresses6) -> Plan
    requires most { length message.now ≤ 65535 }
    requires accepted { IsAcceptedError message.now }
    ensures { IsPlanned quote message.now result }
{
    are_bytes(message);
    let part = quote_part(message, Family::Six);
    let walk = accepted_walk(part);
    let ext = body_extension(message);
    let end = HEADER + kept_len(message, part, ext);
    let body = quote_sums_turned(&message[HEADER..end], ext, &walk, quote);
    Plan {
        walk,
        ext,
        kept: end - HEADER,
        sums: Sums {
            gone: sum_both(body.gone, sum_of(&message[end..])),
            come: body.come,
        },
    }
}

/// The place in the body of a message's extension, None where it has none.
fn body_extension(message: &[u8]) -> Option<u16>
    requires header { 8 ≤ length message.now }
    requires most { length message.now ≤ 65535 }
    ensures { result ≡ extension_in message.now }
{
    match extension(message, Family::Six) {
        Some(place) => Some(place - HEADER as u16),
        None => None,
    }
}

/// How many bytes of a message's body are quote or extension. Without an extension they are the part that holds the
/// quote, which may end before the message does.
fn kept_len(message: &[u8], part: &[u8], ext: Option<u16>) -> usize
    requires header { 8 ≤ length message.now }
    requires part { part.now ≡ quoted_part6 message.now }
    requires extension { ext ≡ extension_in message.now }
    ensures kept { result ≡ kept_in message.now }
    ensures inside { result ≤ length message.now - 8 }
{
    match ext {
        Some(_) => message.len() - HEADER,
        None => part.len(),
    }
}

/// The residue of the pseudo-header of an ICMPv6 message of this length.
fn pseudo(addresses: Addresses6, len: usize) -> u16
    requires { len ≤ 65575 }
    ensures value { result ≡ pseudo6 addresses.src.0 addresses.dst.0 58 len }
    ensures below { result < 65535 }
{
    pseudo_sum6(addresses.src.0, addresses.dst.0, ICMPV6, len as u32)
}

/// The residue of two residues.
fn sum_both(one: u16, other: u16) -> u16
    ensures value { result ≡ (one + other) % 65535 }
    ensures below { result < 65535 }
{
    ((u32::from(one) + u32::from(other)) % 65535) as u16
}

/// Writes the head of the message that stands from `at` on.
fn write_head_at(bytes: &mut [u8], at: usize, octet: u8, gone: u16, come: u16)
    requires { at + 8 ≤ length bytes.old }
    ensures { bytes.new ≡ take at bytes.old ++ head_turned octet gone come (drop at bytes.old) ++ drop (at + 8) bytes.old }
{
    write_head(&mut bytes[at..], octet, gone, come);
}

/// Writes the length octet of a message whose type has one, and moves its checksum by that and by residues of what went
/// and came in the pseudo-header and in the body.
fn write_head(message: &mut [u8], octet: u8, gone: u16, come: u16)
    requires { 8 ≤ length message.old }
    ensures { message.new ≡ head_turned octet gone come message.old ++ drop 8 message.old }
{
    let old_word = get16(message, 4);
    if matches!(message[0], 1 | 3) {
        message[4] = octet;
    }
    let new_word = get16(message, 4);
    let sum = shift(
        get16(message, 2),
        sum_both(gone, old_word),
        sum_both(come, new_word),
    );
    put16(message, 2, sum);
}
