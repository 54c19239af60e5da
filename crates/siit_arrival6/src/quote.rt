//! The rules on the quote of an ICMPv6 error (RFC 7915 section 5.3), and the addresses that the device gives the
//! quote's.
ghost use Rattle.siit_arrival6.specs.Arrived.{AreMapped4};
ghost use Rattle.siit_arrival6.specs.Parts.{found_in};
ghost use Rattle.siit_device.specs.Arrival6 as model;
ghost use Rattle.siit_device.specs.Arrival6.{arrived_fragment, arrived_part, is_error6, is_pair, quote_turn_for, turn_for};
ghost use Rattle.siit_device.specs.Rows.{first_of};
ghost use Rattle.siit_device.specs.Rules6.{quote_rows6};
ghost use Rattle.siit_hairpin.specs.declared.hairpin.TurnAnswer.TheVariants.{Pair};
ghost use Rattle.siit_model.specs.Ipv6.{ipv6_fields, payload_length_in};
ghost use Rattle.siit_quoted.specs.Quoted.{HasQuote6};
ghost use Rattle.siit_quoted.specs.Refusals.{quote_refusal6};
ghost use Rattle.siit_upper.specs.Walks.{walked};
ghost use Rattle.siit_v6to4.specs.To4.{walk_in};
ghost use Rattle.siit_views.specs.Headers.{HasLength6};
ghost use Rattle.std.specs.Prelude.{◌≡◌, ◌≤◌, ◌+◌, length, true, false, None, Some, Ok, IfErr, IfOk, OnOk};

use crate::shape::upper_part;
use siit_addr::{Addresses4, Addresses6};
use siit_eamt::Steps;
use siit_hairpin::{TurnAnswer, turn};
use siit_quoted::{Quote6, accepted_quote6, quote_part};
use siit_roles::Settings;
use siit_rules::{Family, Rule};
use siit_upper::Walk;
use siit_views::Ipv6Header;
use std::sync::ledger::Ledger;

/// A quote on its way to the IPv4 side.
#[derive(Clone, Copy)]
pub(crate) struct QuoteOn {
    /// The walk over its extension headers.
    pub walk: Walk,
    /// The IPv4 addresses that the device gives it.
    pub new: Addresses4,
}

/// The IPv4 addresses that the device gives those of the quote of an ICMPv6 error that isn't turned, or the first of
/// these rules that holds. Each node or entry of the table that is read counts as one step.
#[tactic(auto, unfolding(siit_device::specs::Rules6::quote_rows6))]
pub(crate) fn quote_on<L: Ledger>(
    settings: &Settings,
    header: &Ipv6Header<'_>,
    walk: Walk,
    steps: &mut Steps<L>,
) -> Result<QuoteOn, Rule>
    requires lengths { HasLength6 header.now }
    requires within { walk.at ≤ payload_length_in header.now }
    requires error { is_error6 (arrived_fragment (found_in header.now walk)) ≡ true }
    requires long { 8 ≤ length (arrived_fragment (found_in header.now walk)).bytes }
    requires turn { is_pair (turn_for settings.now (found_in header.now walk)) ≡ false }
    ensures refused { IfErr result (λ rule. first_of (quote_rows6 settings.now) (found_in header.now walk) ≡ Some rule) }
    ensures accepted { OnOk result (first_of (quote_rows6 settings.now) (found_in header.now walk) ≡ None) }
    ensures quote { OnOk result (quote_refusal6 (arrived_part (found_in header.now walk)) ≡ None) }
    ensures walk { IfOk result (λ q. walk_in (arrived_part (found_in header.now walk)) ≡ Ok (walked q.walk)) }
    ensures has { IfOk result (λ q. HasQuote6 (walked q.walk) (arrived_part (found_in header.now walk))) }
    ensures mapped { IfOk result (λ q. AreMapped4 settings.now (ipv6_fields (arrived_part (found_in header.now walk))).source (ipv6_fields (arrived_part (found_in header.now walk))).destination q.new) }
    ensures cost { steps.new ≤ steps.old + 260 }
    ensures counted { steps.old ≤ steps.new }
{
    let quote = match accepted_quote6(quote_part(upper_part(header, walk), Family::Six)) {
        Ok(quote) => quote,
        Err(rule) => return Err(rule),
    };
    let Ok((src, _)) = settings.mapping.to4(quote.addresses.src, steps) else {
        return Err(Rule::QuoteAddress6);
    };
    let Ok((dst, _)) = settings.mapping.to4(quote.addresses.dst, steps) else {
        return Err(Rule::QuoteAddress6);
    };
    Ok(QuoteOn {
        walk: quote.walk,
        new: Addresses4 { src, dst },
    })
}

/// The addresses between which the quote of an ICMPv6 error that is turned is turned too, or the first of these rules
/// that holds: its source is looked at as a destination, and its destination as a source. Each node or entry of the
/// table that is read counts as one step.
#[tactic(auto, unfolding(siit_device::specs::Rules6::quote_rows6))]
pub(crate) fn quote_back<L: Ledger>(
    settings: &Settings,
    header: &Ipv6Header<'_>,
    walk: Walk,
    steps: &mut Steps<L>,
) -> Result<Addresses6, Rule>
    requires lengths { HasLength6 header.now }
    requires within { walk.at ≤ payload_length_in header.now }
    requires error { is_error6 (arrived_fragment (found_in header.now walk)) ≡ true }
    requires long { 8 ≤ length (arrived_fragment (found_in header.now walk)).bytes }
    requires turn { is_pair (turn_for settings.now (found_in header.now walk)) ≡ true }
    ensures refused { IfErr result (λ rule. first_of (quote_rows6 settings.now) (found_in header.now walk) ≡ Some rule) }
    ensures accepted { OnOk result (first_of (quote_rows6 settings.now) (found_in header.now walk) ≡ None) }
    ensures quote { OnOk result (quote_refusal6 (arrived_part (found_in header.now walk)) ≡ None) }
    ensures pair { IfOk result (λ new. quote_turn_for settings.now (arrived_part (found_in header.now walk)) ≡ Pair new) }
    ensures cost { steps.new ≤ steps.old + 424 }
    ensures counted { steps.old ≤ steps.new }
{
    let quote = match accepted_quote6(quote_part(upper_part(header, walk), Family::Six)) {
        Ok(quote) => quote,
        Err(rule) => return Err(rule),
    };
    let old = quote.addresses;
    let Ok(_) = settings.mapping.to4(old.src, steps) else {
        return Err(Rule::QuoteAddress6);
    };
    let Ok((dst, _)) = settings.mapping.to4(old.dst, steps) else {
        return Err(Rule::QuoteAddress6);
    };
    match turn(&settings.mapping, dst, old.src, steps) {
        TurnAnswer::Pair(new) => Ok(new),
        _ => Err(Rule::QuoteAddress6),
    }
}
