//! A quote that is turned with its message, where it lies (RFC 7757 section 4.2.2): its addresses change, and it stays
//! IPv6.
ghost use Rattle.siit_model.specs.Bytes.{AreBytes, bytes128, part};
ghost use Rattle.siit_model.specs.Ipv6.{payload_length_in};
ghost use Rattle.siit_quoted.specs.Quoted.{HasQuote6, quoted6_fields};
ghost use Rattle.siit_quoted.specs.Quotes.{quote_turned};
ghost use Rattle.siit_quoted.specs.Refusals.{quote_refusal6};
ghost use Rattle.siit_quoted.specs.Rewriting.{IsCarriedTurned, extended_turned, new_body_turned, part_before, quoted_upper_turned, walked_body_turned};
ghost use Rattle.siit_upper.specs.Walks.{walked};
ghost use Rattle.std.specs.Prelude.{◌≡◌, ◌<◌, ◌≤◌, ◌+◌, ◌-◌, ◌*◌, ◌%◌, ◌++◌, length, min, take, drop, None, IfSome};

use crate::body::pad_quote;
use crate::part::{accepted_walk, quote_in};
use crate::to_ipv4::is_later;
use byteorder::{BigEndian, ByteOrder};
use siit_addr::Addresses6;
use siit_upper::Walk;
use siit_v6to4::turn_upper;
use siit_views::{Ipv6Header, PacketBuf, remove_within};

/// Makes the body of an ICMPv6 error that stands from `at` on the body of the turned error, where it lies: the quote
/// with its new addresses, and behind it, with zeros between, the extension that stands `ext` bytes behind `at`.
/// Answers the length octet, 0 without an extension. What stands before the body moves to the right, if it moves.
///
/// The quote that ends before the extension is one that `quote_addresses6` accepts. A carried extension stands behind
/// whole units of 8 bytes, 128 bytes at least and 2,040 at most, and isn't empty.
pub fn quote_turn(buf: &mut PacketBuf, at: usize, ext: Option<u16>, new: Addresses6) -> u8
    requires inside { at ≤ length buf.old.bytes }
    requires extension { IfSome ext (λ place. IsCarriedTurned place (drop at buf.old.bytes)) }
    requires accepted { quote_refusal6 (part_before ext (drop at buf.old.bytes)) ≡ None }
    ensures bytes { buf.new.bytes ≡ take at buf.old.bytes ++ (new_body_turned new.src.0 new.dst.0 ext (drop at buf.old.bytes)).bytes }
    ensures octet { result ≡ (new_body_turned new.src.0 new.dst.0 ext (drop at buf.old.bytes)).octet }
    ensures front { buf.old.front ≤ buf.new.front }
{
    let walk = accepted_walk(quote_in(buf.bytes(), at, ext));
    quote_turn_by(buf, at, ext, &walk, new)
}

/// The same as `quote_turn`, for the walk over the quote's extension headers.
pub fn quote_turn_by(
    buf: &mut PacketBuf,
    at: usize,
    ext: Option<u16>,
    walk: &Walk,
    new: Addresses6,
) -> u8
    requires inside { at ≤ length buf.old.bytes }
    requires extension { IfSome ext (λ place. IsCarriedTurned place (drop at buf.old.bytes)) }
    requires quote { HasQuote6 (walked walk.now) (part_before ext (drop at buf.old.bytes)) }
    ensures bytes { buf.new.bytes ≡ take at buf.old.bytes ++ (walked_body_turned new.src.0 new.dst.0 (walked walk.now) ext (drop at buf.old.bytes)).bytes }
    ensures octet { result ≡ (walked_body_turned new.src.0 new.dst.0 (walked walk.now) ext (drop at buf.old.bytes)).octet }
    ensures front { buf.old.front ≤ buf.new.front }
{
    let end = buf.bytes().len();
    match ext {
        Some(place) => turn_extended(buf, at, usize::from(place), *walk, new),
        None => {
            rewrite_turned(buf, at, end, *walk, new);
            0
        }
    }
}

/// Turns the quote that stands from `at` on, before an extension that stands `place` bytes behind `at`, with zeros
/// between them. Answers the length octet.
fn turn_extended(buf: &mut PacketBuf, at: usize, place: usize, walk: Walk, new: Addresses6) -> u8
    requires inside { at + place < length buf.old.bytes }
    requires most { length buf.old.bytes ≤ 65575 }
    requires least { 128 ≤ place }
    requires units { place % 8 ≡ 0 }
    requires told { place ≤ 255 * 8 }
    requires quote { HasQuote6 (walked walk) (take place (drop at buf.old.bytes)) }
    ensures bytes { let part = take place (drop at buf.old.bytes)
        in buf.new.bytes ≡ take at buf.old.bytes ++ (extended_turned new.src.0 new.dst.0 (walked walk) part (drop (at + place) buf.old.bytes)).bytes }
    ensures octet { let part = take place (drop at buf.old.bytes)
        in result ≡ (extended_turned new.src.0 new.dst.0 (walked walk) part (drop (at + place) buf.old.bytes)).octet }
    ensures front { buf.old.front ≤ buf.new.front }
{
    let len = rewrite_turned(buf, at, at + place, walk, new);
    pad_quote(buf, at, len, 8)
}

/// Makes the quote that stands from `at` on and before `end` the turned quote, and answers its length. Bytes behind the
/// quoted packet's own length are gone; for them what stands before the quote moves, and what follows `end` stays where
/// it lies.
fn rewrite_turned(buf: &mut PacketBuf, at: usize, end: usize, walk: Walk, new: Addresses6) -> usize
    requires ordered { at ≤ end }
    requires inside { end ≤ length buf.old.bytes }
    requires quote { HasQuote6 (walked walk) (part buf.old.bytes at (end - at)) }
    ensures bytes { buf.new.bytes
        ≡ take at buf.old.bytes
        ++ quote_turned new.src.0 new.dst.0 (quoted6_fields (walked walk) (part buf.old.bytes at (end - at)))
        ++ drop end buf.old.bytes }
    ensures len { result ≡ length (quote_turned new.src.0 new.dst.0 (quoted6_fields (walked walk) (part buf.old.bytes at (end - at)))) }
    ensures most { result ≤ end - at }
    ensures front { buf.old.front ≤ buf.new.front }
    ensures moved { end < length buf.old.bytes → buf.new.front + result ≡ buf.old.front + (end - at) }
{
    let len = quote_len(&buf.bytes()[at..end]);
    turn_at(buf.bytes_mut(), at, end, walk, new);
    let behind = at + len;
    remove_within(buf, behind, end - behind);
    len
}

/// How many bytes of a part are the quoted packet.
pub(crate) fn quote_len(quote: &[u8]) -> usize
    requires { 40 ≤ length quote.now }
    ensures { result ≡ min (length quote.now) (40 + payload_length_in quote.now) }
{
    let header = Ipv6Header::new(quote);
    quote.len().min(40 + usize::from(header.length()))
}

/// Turns the quote that stands from `at` on and before `end`. Bytes behind it stay.
fn turn_at(bytes: &mut [u8], at: usize, end: usize, walk: Walk, new: Addresses6)
    requires ordered { at ≤ end }
    requires inside { end ≤ length bytes.old }
    requires quote { HasQuote6 (walked walk) (part bytes.old at (end - at)) }
    ensures { let quote = part bytes.old at (end - at) in
        bytes.new
        ≡ take at bytes.old
        ++ (quote_turned new.src.0 new.dst.0 (quoted6_fields (walked walk) quote) ++ drop (40 + payload_length_in quote) quote)
        ++ drop end bytes.old }
{
    turn_in(&mut bytes[at..end], walk, new);
}

/// Turns the quote in these bytes. Bytes behind it stay.
fn turn_in(quote: &mut [u8], walk: Walk, new: Addresses6)
    requires { HasQuote6 (walked walk) quote.old }
    ensures { quote.new
        ≡ quote_turned new.src.0 new.dst.0 (quoted6_fields (walked walk) quote.old) ++ drop (40 + payload_length_in quote.old) quote.old }
{
    are_bytes(quote);
    upper_in(quote, walk, new);
    write_addresses(quote, new);
}

/// What is known of a slice of bytes: each is below 256.
pub(crate) fn are_bytes(bytes: &[u8])
    ensures { AreBytes bytes.now }
{}

/// Moves the checksum of the upper part of the quote in these bytes, and nothing of a later fragment.
fn upper_in(quote: &mut [u8], walk: Walk, new: Addresses6)
    requires { HasQuote6 (walked walk) quote.old }
    ensures { quote.new
        ≡ take (40 + walk.at) quote.old
        ++ quoted_upper_turned new.src.0 new.dst.0 (quoted6_fields (walked walk) quote.old)
        ++ drop (40 + payload_length_in quote.old) quote.old }
{
    if is_later(walk) {
        return;
    }
    let header = Ipv6Header::new(quote);
    let old = Addresses6 {
        src: header.src(),
        dst: header.dst(),
    };
    let payload_len = header.length();
    let header_len = 40 + usize::from(walk.at);
    let len = quote.len().min(40 + usize::from(payload_len));
    turn_upper(
        walk.upper,
        &mut quote[header_len..len],
        old,
        new,
        payload_len - walk.at,
    );
}

/// Writes the addresses of an IPv6 header.
pub(crate) fn write_addresses(bytes: &mut [u8], new: Addresses6)
    requires { 40 ≤ length bytes.old }
    ensures { bytes.new ≡ take 8 bytes.old ++ bytes128 new.src.0 ++ bytes128 new.dst.0 ++ drop 40 bytes.old }
{
    BigEndian::write_u128(&mut bytes[8..24], new.src.0);
    BigEndian::write_u128(&mut bytes[24..40], new.dst.0);
}
