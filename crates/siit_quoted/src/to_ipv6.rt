//! A quote on its way to IPv6, where it lies (RFC 7915 section 4.3).
ghost use Rattle.siit_model.specs.Bytes.{part};
ghost use Rattle.siit_model.specs.Ipv4.{header_length_in, ipv4_fields, total_length_in};
ghost use Rattle.siit_quoted.specs.Refusals.{quote_refusal4};
ghost use Rattle.siit_quoted.specs.Quoted.{HasQuote4, quoted4_fields};
ghost use Rattle.siit_quoted.specs.Rewriting.{IsCarriedTo6, cut_to_6, extended_to_6, fragment_to_6, new_body_to_6, part_before, quote_head_to_6, quoted_upper_to_6};
ghost use Rattle.std.specs.Prelude.{◌≡◌, ◌<◌, ◌≤◌, ◌+◌, ◌-◌, ◌++◌, length, min, take, drop, Some, None, IfSome};

use crate::body::pad_quote;
use crate::head6::{quote_headers6, write_headers};
use siit_addr::{Addresses4, Addresses6};
use siit_v4to6::upper46;
use siit_views::{Ipv4Header, PacketBuf, remove_within, replace_within};

/// The most bytes of a quote in an ICMPv6 error without an extension (RFC 4443 section 2.4): the error has 1280 bytes
/// then.
pub(crate) const MOST: usize = 1232;

/// Makes the body of an ICMPv4 error that stands from `at` on the body of the ICMPv6 error, where it lies (RFC 7915
/// section 4.3, RFC 4884): the quote translated, its end cut so that the error has at most 1280 bytes, and behind it,
/// with zeros between, the extension that stands `ext` bytes behind `at`. Answers the length octet, 0 without an
/// extension. What stands before the body moves.
///
/// The quote that ends before the extension is one that `quote_addresses4` accepts. A carried extension stands behind
/// at least 128 bytes, isn't empty and has at most 1104 bytes. At least 40 bytes lie free before the packet, which has
/// at most 65,575 bytes afterwards.
pub fn quote46(
    buf: &mut PacketBuf,
    at: usize,
    ext: Option<u16>,
    new: Addresses6,
    tos_zero: bool,
) -> u8
    requires inside { at ≤ length buf.old.bytes }
    requires extension { IfSome ext (λ place. IsCarriedTo6 place (drop at buf.old.bytes)) }
    requires accepted { quote_refusal4 (part_before ext (drop at buf.old.bytes)) ≡ None }
    requires room { 40 ≤ buf.old.front }
    requires fits { at + length (new_body_to_6 new.src.0 new.dst.0 tos_zero ext (drop at buf.old.bytes)).bytes ≤ 65575 }
    ensures bytes { buf.new.bytes ≡ take at buf.old.bytes ++ (new_body_to_6 new.src.0 new.dst.0 tos_zero ext (drop at buf.old.bytes)).bytes }
    ensures octet { result ≡ (new_body_to_6 new.src.0 new.dst.0 tos_zero ext (drop at buf.old.bytes)).octet }
    ensures front { buf.old.front ≤ buf.new.front + 40 }
{
    match ext {
        None => {
            quote_alone(buf, at, new, tos_zero);
            0
        }
        Some(place) => quote_extended(buf, at, usize::from(place), new, tos_zero),
    }
}

/// Makes the quote that stands from `at` on, to the end, the translated quote. What stands before it moves.
fn quote_alone(buf: &mut PacketBuf, at: usize, new: Addresses6, tos_zero: bool)
    requires inside { at ≤ length buf.old.bytes }
    requires accepted { quote_refusal4 (drop at buf.old.bytes) ≡ None }
    requires room { 28 ≤ buf.old.front }
    requires fits { at + length (cut_to_6 new.src.0 new.dst.0 tos_zero 1232 (drop at buf.old.bytes)) ≤ 65575 }
    ensures bytes { buf.new.bytes
        ≡ take at buf.old.bytes ++ cut_to_6 new.src.0 new.dst.0 tos_zero 1232 (drop at buf.old.bytes) }
    ensures front { buf.old.front ≤ buf.new.front + 28 }
{
    let end = buf.bytes().len();
    rewrite46(buf, at, end, MOST, new, tos_zero);
}

/// The same before an extension that stands `place` bytes behind `at`, with zeros between them. Answers the length
/// octet.
fn quote_extended(
    buf: &mut PacketBuf,
    at: usize,
    place: usize,
    new: Addresses6,
    tos_zero: bool,
) -> u8
    requires inside { at + place ≤ length buf.old.bytes }
    requires least { 128 ≤ place }
    requires some { at + place < length buf.old.bytes }
    requires few { length buf.old.bytes ≤ at + place + 1104 }
    requires accepted { quote_refusal4 (take place (drop at buf.old.bytes)) ≡ None }
    requires room { 40 ≤ buf.old.front }
    requires fits { let extension = drop (at + place) buf.old.bytes
        in at + length (extended_to_6 new.src.0 new.dst.0 tos_zero (take place (drop at buf.old.bytes)) extension).bytes ≤ 65575 }
    ensures bytes { let extension = drop (at + place) buf.old.bytes
        in buf.new.bytes ≡ take at buf.old.bytes ++ (extended_to_6 new.src.0 new.dst.0 tos_zero (take place (drop at buf.old.bytes)) extension).bytes }
    ensures octet { let extension = drop (at + place) buf.old.bytes
        in result ≡ (extended_to_6 new.src.0 new.dst.0 tos_zero (take place (drop at buf.old.bytes)) extension).octet }
    ensures front { buf.old.front ≤ buf.new.front + 40 }
{
    let whole = buf.bytes().len();
    let end = at + place;
    let limit = (MOST - (whole - end)) / 8 * 8;
    let len = rewrite46(buf, at, end, limit, new, tos_zero);
    pad_quote(buf, at, len, 8)
}

/// What becomes of a quote.
#[derive(Clone, Copy, Debug, PartialEq, Eq)]
pub(crate) struct Plan46 {
    /// The length of the old header.
    pub header_len: usize,
    /// How many bytes of the upper part are kept.
    pub kept: usize,
    /// The length of the new headers.
    pub new_len: usize,
    /// The new headers, and what is behind them.
    pub written: [u8; 48],
}

/// The plan for the quote in these bytes, of which at most `limit` bytes are kept.
pub(crate) fn planned(quote: &[u8], limit: usize, new: Addresses6, tos_zero: bool) -> Plan46
    requires quote { HasQuote4 quote.now }
    requires limit { 48 ≤ limit }
    ensures header_len { result.header_len ≡ header_length_in quote.now }
    ensures new_len { result.new_len ≡ 40 + length (fragment_to_6 (ipv4_fields quote.now)) }
    ensures most { result.new_len ≤ 48 }
    ensures kept { result.kept ≡ min (min (length quote.now) (total_length_in quote.now) - header_length_in quote.now) (limit - result.new_len) }
    ensures written { take result.new_len result.written ≡ quote_head_to_6 new.src.0 new.dst.0 tos_zero (quoted4_fields quote.now) }
{
    let header = Ipv4Header::new(quote);
    let header_len = header.header_len();
    let len = quote.len().min(usize::from(header.total()));
    let new_headers = write_headers(&quote_headers6(&header, new, tos_zero));
    let written = new_headers.bytes;
    Plan46 {
        header_len,
        kept: (len - header_len).min(limit - new_headers.len),
        new_len: new_headers.len,
        written,
    }
}

/// Makes the quote that stands from `at` on and before `end` the translated quote, of which at most `limit` bytes are
/// kept, and answers its length. What stands before the quote moves, and what follows `end` stays where it lies.
pub(crate) fn rewrite46(
    buf: &mut PacketBuf,
    at: usize,
    end: usize,
    limit: usize,
    new: Addresses6,
    tos_zero: bool,
) -> usize
    requires ordered { at ≤ end }
    requires inside { end ≤ length buf.old.bytes }
    requires quote { HasQuote4 (part buf.old.bytes at (end - at)) }
    requires limit { 48 ≤ limit }
    requires room { 28 ≤ buf.old.front }
    requires fits { at + length (cut_to_6 new.src.0 new.dst.0 tos_zero limit (part buf.old.bytes at (end - at)))
        + (length buf.old.bytes - end) ≤ 65575 }
    ensures bytes { buf.new.bytes
        ≡ take at buf.old.bytes
        ++ cut_to_6 new.src.0 new.dst.0 tos_zero limit (part buf.old.bytes at (end - at))
        ++ drop end buf.old.bytes }
    ensures len { result ≡ length (cut_to_6 new.src.0 new.dst.0 tos_zero limit (part buf.old.bytes at (end - at))) }
    ensures most { result ≤ end - at + 28 }
    ensures front { buf.old.front ≤ buf.new.front + 28 }
    ensures moved { end < length buf.old.bytes → buf.new.front + result ≡ buf.old.front + (end - at) }
{
    let plan = planned(&buf.bytes()[at..end], limit, new, tos_zero);
    upper_at(buf.bytes_mut(), at, end, new);
    let behind = at + plan.header_len + plan.kept;
    remove_within(buf, behind, end - behind);
    replace_within(buf, at, plan.header_len, &plan.written[..plan.new_len]);
    plan.new_len + plan.kept
}

/// Translates the upper part of the quote that stands from `at` on and before `end`.
fn upper_at(bytes: &mut [u8], at: usize, end: usize, new: Addresses6)
    requires ordered { at ≤ end }
    requires inside { end ≤ length bytes.old }
    requires quote { HasQuote4 (part bytes.old at (end - at)) }
    ensures { let quote = part bytes.old at (end - at) in
        bytes.new
        ≡ take at bytes.old
        ++ (take (header_length_in quote) quote ++ quoted_upper_to_6 new.src.0 new.dst.0 (quoted4_fields quote) ++ drop (total_length_in quote) quote)
        ++ drop end bytes.old }
{
    upper_in(&mut bytes[at..end], new);
}

/// Translates the upper part of the quote in these bytes, and nothing of a later fragment.
fn upper_in(quote: &mut [u8], new: Addresses6)
    requires { HasQuote4 quote.old }
    ensures { quote.new
        ≡ take (header_length_in quote.old) quote.old
        ++ quoted_upper_to_6 new.src.0 new.dst.0 (quoted4_fields quote.old)
        ++ drop (total_length_in quote.old) quote.old }
{
    let header = Ipv4Header::new(quote);
    if header.offset() != 0 {
        return;
    }
    let header_len = header.header_len();
    let total = header.total();
    let protocol = header.protocol();
    let old = Addresses4 {
        src: header.src(),
        dst: header.dst(),
    };
    let len = quote.len().min(usize::from(total));
    upper46(
        protocol,
        &mut quote[header_len..len],
        old,
        new,
        total - header_len as u16,
    );
}
