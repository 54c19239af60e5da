//! The body of an ICMPv6 error before it is rewritten: its quote, its extension, and what goes and comes in it (RFC
//! 4884, RFC 1624).
ghost use Rattle.siit_model.specs.Bytes.{field8};
ghost use Rattle.siit_icmp.specs.Icmp.{icmp_to_4};
ghost use Rattle.siit_device.specs.Arrival6.{quoted_part6};
ghost use Rattle.siit_departure4.specs.Parts.{extension_in};
ghost use Rattle.siit_quoted.specs.Errors.{body_to_4};
ghost use Rattle.siit_quoted.specs.Quoted.{HasQuote6};
ghost use Rattle.siit_quoted.specs.Refusals.{quote_refusal6};
ghost use Rattle.siit_quoted.specs.Rewriting.{IsCarried, part_before, walked_body_to_4};
ghost use Rattle.siit_quoted.specs.Sums.{IsDifference};
ghost use Rattle.siit_upper.specs.Walks.{walked};
ghost use Rattle.std.specs.Prelude.{◌≡◌, ◌≤◌, ◌<◌, ◌+◌, ◌%◌, length, take, drop, if◌then◌else◌, is_some, None, Ok, IfSome};

use siit_arrival6::Error6;
use siit_checksum::sum_of;
use siit_quoted::{Sums, accepted_walk, extension, quote_part, quote_sums64};
use siit_rules::Family;
use siit_upper::Walk;

/// How many bytes of an ICMP message stand before its body.
pub(crate) const HEADER: usize = 8;

/// What is known of the body of an ICMPv6 error.
#[derive(Clone, Copy)]
pub(crate) struct ErrorBody {
    /// The walk over the extension headers of the quote.
    pub walk: Walk,
    /// The place of the extension in the body.
    pub ext: Option<u16>,
    /// How many bytes of the body hold the quote, and the extension where there is one. What follows them goes.
    pub len: usize,
    /// What goes and comes where the body is translated.
    pub sums: Sums,
}

/// Reads the body of an ICMPv6 error whose quote is accepted.
pub(crate) fn read_body(message: &[u8], error: &Error6, tos_zero: bool) -> ErrorBody
    requires header { 8 ≤ length message.now }
    requires most { length message.now ≤ 65535 }
    requires kind { icmp_to_4 (field8 message.now 0) (field8 message.now 1) ≡ Ok error.now.new }
    requires accepted { quote_refusal6 (quoted_part6 message.now) ≡ None }
    ensures inside { result.len ≤ length (drop 8 message.now) }
    ensures extension { IfSome result.ext (λ place. IsCarried place (take result.len (drop 8 message.now))) }
    ensures quote { HasQuote6 (walked result.walk) (part_before result.ext (take result.len (drop 8 message.now))) }
    ensures offset { IfSome result.walk.frag (λ f. f.offset < 8192) }
    ensures body { let new = error.now.quote
        in walked_body_to_4 new.src.0 new.dst.0 tos_zero (walked result.walk) result.ext (take result.len (drop 8 message.now))
        ≡ body_to_4 new.src.0 new.dst.0 tos_zero error.now.new.kind message.now }
    ensures shorter { let new = error.now.quote
        in length (body_to_4 new.src.0 new.dst.0 tos_zero error.now.new.kind message.now).bytes ≤ length (drop 8 message.now) }
    ensures sums { let new = error.now.quote
        in IsDifference (drop 8 message.now) (body_to_4 new.src.0 new.dst.0 tos_zero error.now.new.kind message.now).bytes result.sums.gone result.sums.come }
{
    let part = quote_part(message, Family::Six);
    let walk = accepted_walk(part);
    let ext = extension_in_body(message);
    let body = &message[HEADER..];
    let len = kept_len(body, part, ext);
    let (kept, rest) = body.split_at(len);
    let sums = quote_sums64(kept, ext, &walk, error.quote, tos_zero);
    ErrorBody {
        walk,
        ext,
        len,
        sums: Sums {
            gone: sum_both(sums.gone, sum_of(rest)),
            come: sums.come,
        },
    }
}

/// The place of the extension in the body of an ICMPv6 error.
fn extension_in_body(message: &[u8]) -> Option<u16>
    requires header { 8 ≤ length message.now }
    requires most { length message.now ≤ 65535 }
    ensures { result ≡ extension_in message.now }
{
    let place = extension(message, Family::Six)?;
    Some(place - HEADER as u16)
}

/// How many bytes of a body are translated: all of them where an extension follows the quote, and else those of its
/// part.
fn kept_len(body: &[u8], part: &[u8], ext: Option<u16>) -> usize
    ensures { result ≡ (if is_some ext then length body.now else length part.now) }
{
    match ext {
        Some(_) => body.len(),
        None => part.len(),
    }
}

/// The residue of two residues.
pub(crate) fn sum_both(one: u16, other: u16) -> u16
    ensures { result ≡ (one + other) % 65535 }
{
    ((u32::from(one) + u32::from(other)) % 65535) as u16
}
