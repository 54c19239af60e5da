//! A quote on its way to IPv4, where it lies (RFC 7915 section 5.3).
ghost use Rattle.siit_model.specs.Bytes.{part};
ghost use Rattle.siit_model.specs.Ipv6.{payload_length_in};
ghost use Rattle.siit_quoted.specs.Quoted.{HasQuote6, quoted6_fields};
ghost use Rattle.siit_quoted.specs.Refusals.{quote_refusal6};
ghost use Rattle.siit_quoted.specs.Rewriting.{IsCarried, cut_to_4, extended_to_4, new_body_to_4, part_before, quote_head_to_4, quoted_upper_to_4, walked_body_to_4};
ghost use Rattle.siit_upper.specs.Walks.{fragment_in, walked};
ghost use Rattle.siit_model.specs.Fragments.{fields_in};
ghost use Rattle.std.specs.Prelude.{◌≡◌, ◌<◌, ◌≤◌, ◌+◌, ◌-◌, ◌++◌, length, min, take, drop, not, ◌==◌, None, Ok, IfSome};

use crate::body::pad_quote;
use crate::head4::quote_fields4;
use crate::part::{accepted_walk, quote_in};
use siit_addr::{Addresses4, Addresses6};
use siit_upper::Walk;
use siit_v6to4::upper64;
use siit_views::{Ipv6Header, PacketBuf, ipv4_header, remove_within, replace_within};

/// The most bytes of a quote before an extension in an ICMPv4 error (RFC 4884): 255 units of 4 bytes.
pub(crate) const MOST: usize = 1020;

/// More bytes than a quote in an ICMPv4 error has.
pub(crate) const ALL: usize = 65_575;

/// Makes the body of an ICMPv6 error that stands from `at` on the body of the ICMPv4 error, where it lies (RFC 7915
/// section 5.3, RFC 4884): the quote translated, and behind it, with zeros between, the extension that stands `ext`
/// bytes behind `at`. Answers the length octet, 0 without an extension. What stands before the body moves.
///
/// The quote that ends before the extension is one that `quote_addresses6` accepts. A carried extension stands behind
/// at least 128 bytes and isn't empty.
pub fn quote64(
    buf: &mut PacketBuf,
    at: usize,
    ext: Option<u16>,
    new: Addresses4,
    tos_zero: bool,
) -> u8
    requires inside { at ≤ length buf.old.bytes }
    requires extension { IfSome ext (λ place. IsCarried place (drop at buf.old.bytes)) }
    requires accepted { quote_refusal6 (part_before ext (drop at buf.old.bytes)) ≡ None }
    ensures bytes { buf.new.bytes ≡ take at buf.old.bytes ++ (new_body_to_4 new.src.0 new.dst.0 tos_zero ext (drop at buf.old.bytes)).bytes }
    ensures octet { result ≡ (new_body_to_4 new.src.0 new.dst.0 tos_zero ext (drop at buf.old.bytes)).octet }
    ensures front { buf.old.front ≤ buf.new.front }
{
    let walk = accepted_walk(quote_in(buf.bytes(), at, ext));
    quote64_by(buf, at, ext, &walk, new, tos_zero)
}

/// The same as `quote64`, for the walk over the quote's extension headers.
pub fn quote64_by(
    buf: &mut PacketBuf,
    at: usize,
    ext: Option<u16>,
    walk: &Walk,
    new: Addresses4,
    tos_zero: bool,
) -> u8
    requires inside { at ≤ length buf.old.bytes }
    requires extension { IfSome ext (λ place. IsCarried place (drop at buf.old.bytes)) }
    requires quote { HasQuote6 (walked walk.now) (part_before ext (drop at buf.old.bytes)) }
    requires offset { IfSome walk.now.frag (λ f. f.offset < 8192) }
    ensures bytes { buf.new.bytes ≡ take at buf.old.bytes ++ (walked_body_to_4 new.src.0 new.dst.0 tos_zero (walked walk.now) ext (drop at buf.old.bytes)).bytes }
    ensures octet { result ≡ (walked_body_to_4 new.src.0 new.dst.0 tos_zero (walked walk.now) ext (drop at buf.old.bytes)).octet }
    ensures front { buf.old.front ≤ buf.new.front }
{
    let end = buf.bytes().len();
    match ext {
        Some(place) => quote_extended(buf, at, usize::from(place), *walk, new, tos_zero),
        None => {
            rewrite64(buf, at, end, ALL, *walk, new, tos_zero);
            0
        }
    }
}

/// Makes the quote that stands from `at` on the translated quote, before an extension that stands `place` bytes behind
/// `at`, with zeros between them. Answers the length octet.
fn quote_extended(
    buf: &mut PacketBuf,
    at: usize,
    place: usize,
    walk: Walk,
    new: Addresses4,
    tos_zero: bool,
) -> u8
    requires inside { at + place < length buf.old.bytes }
    requires most { length buf.old.bytes ≤ 65575 }
    requires least { 128 ≤ place }
    requires quote { HasQuote6 (walked walk) (take place (drop at buf.old.bytes)) }
    requires offset { IfSome walk.frag (λ f. f.offset < 8192) }
    ensures bytes { let part = take place (drop at buf.old.bytes)
        in buf.new.bytes ≡ take at buf.old.bytes ++ (extended_to_4 new.src.0 new.dst.0 tos_zero (walked walk) part (drop (at + place) buf.old.bytes)).bytes }
    ensures octet { let part = take place (drop at buf.old.bytes)
        in result ≡ (extended_to_4 new.src.0 new.dst.0 tos_zero (walked walk) part (drop (at + place) buf.old.bytes)).octet }
    ensures front { buf.old.front ≤ buf.new.front }
{
    let len = rewrite64(buf, at, at + place, MOST, walk, new, tos_zero);
    pad_quote(buf, at, len, 4)
}

/// What becomes of a quote.
#[derive(Clone, Copy, Debug, PartialEq, Eq)]
pub(crate) struct Plan64 {
    /// The length of the old header and its extension headers.
    pub header_len: usize,
    /// How many bytes of the upper part are kept.
    pub kept: usize,
    /// The new header.
    pub written: [u8; 20],
}

/// The plan for the quote in these bytes, of which at most `limit` bytes are kept.
pub(crate) fn planned(
    quote: &[u8],
    walk: Walk,
    limit: usize,
    new: Addresses4,
    tos_zero: bool,
) -> Plan64
    requires quote { HasQuote6 (walked walk) quote.now }
    requires offset { IfSome walk.frag (λ f. f.offset < 8192) }
    requires limit { 20 ≤ limit }
    ensures header_len { result.header_len ≡ 40 + walk.at }
    ensures kept { result.kept ≡ min (min (length quote.now) (40 + payload_length_in quote.now) - (40 + walk.at)) (limit - 20) }
    ensures written { result.written ≡ quote_head_to_4 new.src.0 new.dst.0 tos_zero (quoted6_fields (walked walk) quote.now) }
{
    let header = Ipv6Header::new(quote);
    let header_len = 40 + usize::from(walk.at);
    let len = quote.len().min(40 + usize::from(header.length()));
    let total = 20 + (header.length() - walk.at);
    let fields = quote_fields4(&header, walk, total, new, tos_zero);
    let written = ipv4_header(&fields, total);
    Plan64 {
        header_len,
        kept: (len - header_len).min(limit - 20),
        written,
    }
}

/// Makes the quote that stands from `at` on and before `end` the translated quote, of which at most `limit` bytes are
/// kept, and answers its length. What stands before the quote moves, and what follows `end` stays where it lies.
pub(crate) fn rewrite64(
    buf: &mut PacketBuf,
    at: usize,
    end: usize,
    limit: usize,
    walk: Walk,
    new: Addresses4,
    tos_zero: bool,
) -> usize
    requires ordered { at ≤ end }
    requires inside { end ≤ length buf.old.bytes }
    requires quote { HasQuote6 (walked walk) (part buf.old.bytes at (end - at)) }
    requires offset { IfSome walk.frag (λ f. f.offset < 8192) }
    requires limit { 20 ≤ limit }
    ensures bytes { buf.new.bytes
        ≡ take at buf.old.bytes
        ++ cut_to_4 new.src.0 new.dst.0 tos_zero limit (walked walk) (part buf.old.bytes at (end - at))
        ++ drop end buf.old.bytes }
    ensures len { result ≡ length (cut_to_4 new.src.0 new.dst.0 tos_zero limit (walked walk) (part buf.old.bytes at (end - at))) }
    ensures most { result + 20 ≤ end - at }
    ensures front { buf.old.front ≤ buf.new.front }
    ensures moved { end < length buf.old.bytes → buf.new.front + result ≡ buf.old.front + (end - at) }
{
    let plan = planned(&buf.bytes()[at..end], walk, limit, new, tos_zero);
    upper_at(buf.bytes_mut(), at, end, walk, new);
    let behind = at + plan.header_len + plan.kept;
    remove_within(buf, behind, end - behind);
    replace_within(buf, at, plan.header_len, &plan.written);
    20 + plan.kept
}

/// Translates the upper part of the quote that stands from `at` on and before `end`.
fn upper_at(bytes: &mut [u8], at: usize, end: usize, walk: Walk, new: Addresses4)
    requires ordered { at ≤ end }
    requires inside { end ≤ length bytes.old }
    requires quote { HasQuote6 (walked walk) (part bytes.old at (end - at)) }
    ensures { let quote = part bytes.old at (end - at) in
        bytes.new
        ≡ take at bytes.old
        ++ (take (40 + walk.at) quote ++ quoted_upper_to_4 new.src.0 new.dst.0 (quoted6_fields (walked walk) quote) ++ drop (40 + payload_length_in quote) quote)
        ++ drop end bytes.old }
{
    upper_in(&mut bytes[at..end], walk, new);
}

/// Translates the upper part of the quote in these bytes, and nothing of a later fragment.
fn upper_in(quote: &mut [u8], walk: Walk, new: Addresses4)
    requires { HasQuote6 (walked walk) quote.old }
    ensures { quote.new
        ≡ take (40 + walk.at) quote.old
        ++ quoted_upper_to_4 new.src.0 new.dst.0 (quoted6_fields (walked walk) quote.old)
        ++ drop (40 + payload_length_in quote.old) quote.old }
{
    if is_later(walk) {
        return;
    }
    let header = Ipv6Header::new(quote);
    let old = Addresses6 {
        src: header.src(),
        dst: header.dst(),
    };
    let payload_len = header.length();
    let header_len = 40 + usize::from(walk.at);
    let len = quote.len().min(40 + usize::from(payload_len));
    upper64(
        walk.upper,
        &mut quote[header_len..len],
        old,
        new,
        payload_len - walk.at,
    );
}

/// Whether a packet is a later fragment, which has no checksum.
pub(crate) fn is_later(walk: Walk) -> bool
    ensures { result ≡ not ((fields_in (fragment_in walk.frag)).offset == 0) }
{
    match walk.frag {
        Some(frag) => frag.offset != 0,
        None => false,
    }
}
