//! The rule on packets that may not be cut (RFC 7915 section 5), and how long a packet is on the IPv4 side.
ghost use Rattle.siit_arrival6.specs.Kinds.{HasErrorKind6};
ghost use Rattle.siit_arrival6.specs.Parts.{found_in};
ghost use Rattle.siit_arrival6.specs.Sizes.{body_size, quote_size};
ghost use Rattle.siit_device.specs.Arrival6.{arrived_fragment, arrived_part, is_error6, is_pair, quoted_part6, turn_for};
ghost use Rattle.siit_device.specs.Backward.{sent4};
ghost use Rattle.siit_device.specs.Rows.{first_of};
ghost use Rattle.siit_device.specs.Rules6.{size_rows6};
ghost use Rattle.siit_model.specs.Ipv6.{payload_length_in};
ghost use Rattle.siit_quoted.specs.Bodies.{length_octet6};
ghost use Rattle.siit_quoted.specs.Quoted.{HasQuote6};
ghost use Rattle.siit_rules.specs.declared.rule.Rule.TheVariants.{TooBig6};
ghost use Rattle.siit_upper.specs.Walks.{walked};
ghost use Rattle.siit_v6to4.specs.To4.{walk_in};
ghost use Rattle.siit_views.specs.Headers.{HasLength6};
ghost use Rattle.std.specs.Prelude.{◌≡◌, ◌≤◌, ◌+◌, ◌-◌, ◌&&◌, nat_lt, length, drop, true, false, if◌then◌else◌, None, Some, Ok};

use crate::shape::upper_part;
use siit_icmp::NewKind;
use siit_quoted::{extension, quote_part};
use siit_roles::Settings;
use siit_rules::{Family, Rule};
use siit_upper::Walk;
use siit_views::Ipv6Header;

/// The longest packet that every IPv6 link carries, in bytes (RFC 8200 section 5).
const LEAST_MTU: u32 = 1280;

/// The rule where a packet that isn't turned is one that IPv6 links needn't carry and is too long for the IPv4 side,
/// where it has this length.
pub(crate) fn size_rule(
    settings: &Settings,
    header: &Ipv6Header<'_>,
    walk: Walk,
    form: u32,
) -> Option<Rule>
    requires lengths { HasLength6 header.now }
    requires turn { is_pair (turn_for settings.now (found_in header.now walk)) ≡ false }
    requires form { form ≡ 20 + length (sent4 settings.now (found_in header.now walk) 0).bytes }
    requires most { form ≤ 20 + (payload_length_in header.now - walk.at) }
    ensures rule { result ≡ first_of (size_rows6 settings.now) (found_in header.now walk) }
    ensures fits { result ≡ None → form ≤ 65535 }
{
    rule_if(is_too_big(settings, header, form))
}

/// The rule of a packet that is too big.
fn rule_if(big: bool) -> Option<Rule>
    ensures rule { result ≡ (if big then Some TooBig6 else None) }
    ensures none { result ≡ None → big ≡ false }
{
    if big { Some(Rule::TooBig6) } else { None }
}

/// Whether a packet is longer than every IPv6 link carries, and with this length too long for the IPv4 side.
fn is_too_big(settings: &Settings, header: &Ipv6Header<'_>, form: u32) -> bool
    requires { form ≤ 20 + payload_length_in header.now }
    ensures big { result ≡ (nat_lt 1280 (40 + payload_length_in header.now) && nat_lt settings.now.mtu4 form) }
    ensures fits { result ≡ false → form ≤ 65535 }
{
    40 + u32::from(header.length()) > LEAST_MTU && form > u32::from(settings.mtu4)
}

/// How long a packet is on the IPv4 side that is no ICMPv6 error.
#[tactic(auto, using(crate::proofs::Lengths::sent_plain))]
pub(crate) fn plain_form(settings: &Settings, header: &Ipv6Header<'_>, walk: Walk) -> u32
    requires lengths { HasLength6 header.now }
    requires within { walk.at ≤ payload_length_in header.now }
    requires error { is_error6 (arrived_fragment (found_in header.now walk)) ≡ false }
    ensures form { result ≡ 20 + length (sent4 settings.now (found_in header.now walk) 0).bytes }
    ensures same { result ≡ 20 + (payload_length_in header.now - walk.at) }
{
    20 + upper_part(header, walk).len() as u32
}

/// How long an ICMPv6 error is there, with its quote translated, which has this walk.
#[tactic(auto, using(crate::proofs::Lengths::sent_error))]
pub(crate) fn error_form(
    settings: &Settings,
    header: &Ipv6Header<'_>,
    walk: Walk,
    new: NewKind,
    quote: Walk,
) -> u32
    requires lengths { HasLength6 header.now }
    requires within { walk.at ≤ payload_length_in header.now }
    requires kind { HasErrorKind6 (found_in header.now walk) new }
    requires walk { walk_in (arrived_part (found_in header.now walk)) ≡ Ok (walked quote) }
    requires has { HasQuote6 (walked quote) (arrived_part (found_in header.now walk)) }
    ensures form { result ≡ 20 + length (sent4 settings.now (found_in header.now walk) 0).bytes }
    ensures most { result ≤ 20 + (payload_length_in header.now - walk.at) }
{
    28 + body_len(upper_part(header, walk), new.kind, quote) as u32
}

/// How long the new body of an ICMPv6 error is, which has this type on the IPv4 side.
fn body_len(message: &[u8], kind: u8, quote: Walk) -> usize
    requires long { 8 ≤ length message.now }
    requires short { length message.now ≤ 65535 }
    requires has { HasQuote6 (walked quote) (quoted_part6 message.now) }
    ensures size { result ≡ body_size kind (length_octet6 message.now) (quote_size (walked quote) (quoted_part6 message.now)) (drop 8 message.now) }
    ensures most { result + 8 ≤ length message.now }
{
    let len = quote_len(quote_part(message, Family::Six), quote);
    match extension(message, Family::Six) {
        Some(place) if kind == 3 || kind == 11 => {
            let cut = (len.min(1020) + 3) / 4 * 4;
            cut.max(128) + (message.len() - usize::from(place))
        }
        _ => len,
    }
}

/// How long a quote is on the IPv4 side.
fn quote_len(part: &[u8], quote: Walk) -> usize
    requires { HasQuote6 (walked quote) part.now }
    ensures size { result ≡ quote_size (walked quote) part.now }
    ensures most { result + 20 ≤ length part.now }
{
    let end = part
        .len()
        .min(40 + usize::from(Ipv6Header::new(part).length()));
    20 + (end - (40 + usize::from(quote.at)))
}
