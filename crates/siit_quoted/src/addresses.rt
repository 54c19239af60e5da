//! The addresses of a quote, and the rules by which a quote is refused (RFC 7915 sections 4.2 to 4.4 and 5.2 to 5.4).
ghost use Rattle.siit_icmp.specs.Icmp.{is_echo_kind4, is_echo_kind6};
ghost use Rattle.siit_model.specs.Fragments.{fields_in, fragment4};
ghost use Rattle.siit_model.specs.Ipv4.{ipv4_fields};
ghost use Rattle.siit_model.specs.Ipv6.{ipv6_fields, payload_length_in, version6_in};
ghost use Rattle.siit_quoted.specs.Quoted.{HasQuote4, HasQuote6, quoted6_fields, quoted_fragment6};
ghost use Rattle.siit_quoted.specs.Refusals.{is_bad_quote4, is_bad_quote6, is_nested4, is_nested6, is_short_quote4, is_untranslated4, is_untranslated6, quote_refusal4, quote_refusal6, walked_refusal6};
ghost use Rattle.siit_rules.specs.declared.rule.Rule.TheVariants.{QuoteBad6, QuoteShort6, ShortExt6};
ghost use Rattle.siit_upper.specs.Walks.{fragment_in, walked};
ghost use Rattle.siit_v6to4.specs.To4.{walk_in};
ghost use Rattle.std.specs.Prelude.{◌≡◌, ◌<◌, ◌≤◌, ◌==◌, ◌&&◌, length, not, Some, None, Ok, IfOk, IfErr, IfSome, OnOk};

use crate::to_ipv4::is_later;
use siit_addr::{Addresses4, Addresses6};
use siit_rules::Rule;
use siit_upper::{ICMP, ICMPV6, Walk, walk_ext};
use siit_views::{Ipv4Header, Ipv6Header};

/// The addresses of the IPv4 packet that is quoted in the part of a body: `QuoteShort4`, `QuoteBad4`, `NestedTwice4`
/// and `QuoteType4` where the quote is refused, the first that holds. Its header checksum isn't looked at.
pub fn quote_addresses4(part: &[u8]) -> Result<Addresses4, Rule>
    ensures refused { IfErr result (λ rule. quote_refusal4 part.now ≡ Some rule) }
    ensures accepted { OnOk result (quote_refusal4 part.now ≡ None) }
    ensures source { IfOk result (λ addresses. addresses.src.0 ≡ (ipv4_fields part.now).source) }
    ensures destination { IfOk result (λ addresses. addresses.dst.0 ≡ (ipv4_fields part.now).destination) }
{
    if is_short4(part) {
        return Err(Rule::QuoteShort4);
    }
    let header = Ipv4Header::new(part);
    if is_bad4(&header) {
        return Err(Rule::QuoteBad4);
    }
    let payload = payload4(part);
    if is_error4(&header, payload) {
        return Err(Rule::NestedTwice4);
    }
    if is_untranslated4(&header, payload) {
        return Err(Rule::QuoteType4);
    }
    Ok(Addresses4 {
        src: header.src(),
        dst: header.dst(),
    })
}

/// The addresses of the IPv6 packet that is quoted in the part of a body: `QuoteShort6`, `QuoteBad6`, `NestedTwice6`
/// and `QuoteType6` where the quote is refused, the first that holds.
pub fn quote_addresses6(part: &[u8]) -> Result<Addresses6, Rule>
    ensures refused { IfErr result (λ rule. quote_refusal6 part.now ≡ Some rule) }
    ensures accepted { OnOk result (quote_refusal6 part.now ≡ None) }
    ensures source { IfOk result (λ addresses. addresses.src.0 ≡ (ipv6_fields part.now).source) }
    ensures destination { IfOk result (λ addresses. addresses.dst.0 ≡ (ipv6_fields part.now).destination) }
{
    match accepted_quote6(part) {
        Ok(quote) => Ok(quote.addresses),
        Err(rule) => Err(rule),
    }
}

/// A quote that is accepted.
#[derive(Clone, Copy, Debug, PartialEq, Eq)]
pub struct Quote6 {
    /// The walk over its extension headers.
    pub walk: Walk,
    /// Its addresses.
    pub addresses: Addresses6,
}

/// The same as `quote_addresses6`, with the walk over the quote's extension headers.
pub fn accepted_quote6(part: &[u8]) -> Result<Quote6, Rule>
    ensures refused { IfErr result (λ rule. quote_refusal6 part.now ≡ Some rule) }
    ensures accepted { OnOk result (quote_refusal6 part.now ≡ None) }
    ensures walk { IfOk result (λ quote. walk_in part.now ≡ Ok (walked quote.walk)) }
    ensures quote { IfOk result (λ quote. HasQuote6 (walked quote.walk) part.now) }
    ensures offset { IfOk result (λ quote. IfSome quote.walk.frag (λ frag. frag.offset < 8192)) }
    ensures source { IfOk result (λ quote. quote.addresses.src.0 ≡ (ipv6_fields part.now).source) }
    ensures destination { IfOk result (λ quote. quote.addresses.dst.0 ≡ (ipv6_fields part.now).destination) }
{
    if part.len() < 40 {
        return Err(Rule::QuoteShort6);
    }
    let header = Ipv6Header::new(part);
    if header.version() != 6 {
        return Err(Rule::QuoteBad6);
    }
    let addresses = Addresses6 {
        src: header.src(),
        dst: header.dst(),
    };
    let walk = match walk_quote(part) {
        Ok(walk) => walk,
        Err(rule) => return Err(rule),
    };
    match walked_refusal(part, walk) {
        None => Ok(Quote6 { walk, addresses }),
        Some(rule) => Err(rule),
    }
}

/// Whether a quote has fewer bytes than a header, or than a good first byte says.
fn is_short4(part: &[u8]) -> bool
    ensures { result ≡ is_short_quote4 part.now }
{
    if part.len() < 20 {
        return true;
    }
    let header = Ipv4Header::new(part);
    header.version() == 4 && header.header_len() >= 20 && part.len() < header.header_len()
}

/// Whether a quote has a header that no IPv4 packet has.
fn is_bad4(header: &Ipv4Header<'_>) -> bool
    ensures { result ≡ is_bad_quote4 header.now }
{
    header.version() != 4
        || header.header_len() < 20
        || usize::from(header.total()) < header.header_len()
}

/// The payload of a quoted packet, as far as it is there.
fn payload4(part: &[u8]) -> &[u8]
    requires { HasQuote4 part.now }
    ensures { result.now ≡ (ipv4_fields part.now).payload }
{
    let header = Ipv4Header::new(part);
    let len = part.len().min(usize::from(header.total()));
    &part[header.header_len()..len]
}

/// Whether a quoted packet is an ICMP error itself.
fn is_error4(header: &Ipv4Header<'_>, payload: &[u8]) -> bool
    requires { payload.now ≡ (ipv4_fields header.now).payload }
    ensures { result ≡ is_nested4 (fragment4 (ipv4_fields header.now)) }
{
    header.protocol() == ICMP
        && header.offset() == 0
        && !payload.is_empty()
        && matches!(payload[0], 3 | 4 | 5 | 11 | 12)
}

/// Whether a quoted packet is of a protocol or an ICMP type that has no translation.
fn is_untranslated4(header: &Ipv4Header<'_>, payload: &[u8]) -> bool
    requires { payload.now ≡ (ipv4_fields header.now).payload }
    ensures { result ≡ is_untranslated4 (fragment4 (ipv4_fields header.now)) }
{
    match header.protocol() {
        0 | 2 | 43 | 44 | 58 | 60 => true,
        ICMP => header.offset() != 0 || header.mf() || payload.len() < 8 || !is_echo4(payload[0]),
        _ => false,
    }
}

/// The types of ICMPv4 echo messages (RFC 792).
fn is_echo4(kind: u8) -> bool
    ensures { result ≡ is_echo_kind4 kind }
{
    kind == 8 || kind == 0
}

/// The walk over the extension headers of a quote: `QuoteShort6` where one runs past the end, and `QuoteBad6` where
/// they are out of order.
fn walk_quote(part: &[u8]) -> Result<Walk, Rule>
    requires header { 40 ≤ length part.now }
    requires version { version6_in part.now ≡ 6 }
    ensures refused { IfErr result (λ rule. quote_refusal6 part.now ≡ Some rule) }
    ensures walk { IfOk result (λ walk. walk_in part.now ≡ Ok (walked walk)) }
    ensures within { IfOk result (λ walk. walk.at ≤ length (ipv6_fields part.now).body) }
    ensures offset { IfOk result (λ walk. IfSome walk.frag (λ frag. frag.offset < 8192)) }
{
    let header = Ipv6Header::new(part);
    match walk_ext(body6(part), header.next()) {
        Ok(walk) => Ok(walk),
        Err(rule) => Err(quote_rule(rule)),
    }
}

/// The rule by which a quote is refused whose walk is refused by this one.
fn quote_rule(rule: Rule) -> Rule
    ensures short { rule ≡ ShortExt6 → result ≡ QuoteShort6 }
    ensures other { (rule ≡ ShortExt6 → ⊥) → result ≡ QuoteBad6 }
{
    match rule {
        Rule::ShortExt6 => Rule::QuoteShort6,
        _ => Rule::QuoteBad6,
    }
}

/// What follows the IPv6 header of a quote, as far as it is there.
fn body6(part: &[u8]) -> &[u8]
    requires { 40 ≤ length part.now }
    ensures value { result.now ≡ (ipv6_fields part.now).body }
    ensures most { length result.now ≤ 65535 }
{
    let header = Ipv6Header::new(part);
    let end = part.len().min(40 + usize::from(header.length()));
    &part[40..end]
}

/// The rule by which a quote whose walk is accepted is refused.
fn walked_refusal(part: &[u8], walk: Walk) -> Option<Rule>
    requires header { 40 ≤ length part.now }
    requires within { walk.at ≤ length (ipv6_fields part.now).body }
    ensures { result ≡ walked_refusal6 (quoted6_fields (walked walk) part.now) }
{
    let header = Ipv6Header::new(part);
    if is_bad6(&header, walk) {
        return Some(Rule::QuoteBad6);
    }
    if is_error6(part, walk) {
        return Some(Rule::NestedTwice6);
    }
    if is_untranslated6(part, walk) {
        return Some(Rule::QuoteType6);
    }
    None
}

/// Whether a quote has segments left, or is too long for IPv4.
fn is_bad6(header: &Ipv6Header<'_>, walk: Walk) -> bool
    requires { walk.at ≤ payload_length_in header.now }
    ensures { result ≡ is_bad_quote6 (quoted6_fields (walked walk) header.now) }
{
    walk.segments.is_some() || 20 + u32::from(header.length() - walk.at) > 65535
}

/// The upper part of a quoted packet, as far as it is there.
fn upper6(part: &[u8], walk: Walk) -> &[u8]
    requires header { 40 ≤ length part.now }
    requires within { walk.at ≤ length (ipv6_fields part.now).body }
    ensures { result.now ≡ (quoted_fragment6 (quoted6_fields (walked walk) part.now)).bytes }
{
    let body = body6(part);
    &body[usize::from(walk.at)..]
}

/// Whether a quoted packet is an ICMPv6 error itself.
fn is_error6(part: &[u8], walk: Walk) -> bool
    requires header { 40 ≤ length part.now }
    requires within { walk.at ≤ length (ipv6_fields part.now).body }
    ensures { result ≡ is_nested6 (quoted_fragment6 (quoted6_fields (walked walk) part.now)) }
{
    let upper = upper6(part, walk);
    walk.upper == ICMPV6 && !is_later(walk) && !upper.is_empty() && upper[0] < 128
}

/// Whether a quoted packet is of a protocol or an ICMPv6 type that has no translation.
fn is_untranslated6(part: &[u8], walk: Walk) -> bool
    requires header { 40 ≤ length part.now }
    requires within { walk.at ≤ length (ipv6_fields part.now).body }
    ensures { result ≡ is_untranslated6 (quoted_fragment6 (quoted6_fields (walked walk) part.now)) }
{
    let upper = upper6(part, walk);
    match walk.upper {
        ICMP => true,
        ICMPV6 => is_fragment(walk) || upper.len() < 8 || !is_echo6(upper[0]),
        _ => false,
    }
}

/// The types of ICMPv6 echo messages (RFC 4443 section 4).
fn is_echo6(kind: u8) -> bool
    ensures { result ≡ is_echo_kind6 kind }
{
    kind == 128 || kind == 129
}

/// Whether a packet is a fragment.
fn is_fragment(walk: Walk) -> bool
    ensures { result ≡ not (((fields_in (fragment_in walk.frag)).offset == 0) && not (fields_in (fragment_in walk.frag)).more) }
{
    match walk.frag {
        Some(frag) => frag.offset != 0 || frag.more,
        None => false,
    }
}
