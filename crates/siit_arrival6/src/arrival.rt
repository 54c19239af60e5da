//! All rules on IPv6 arrival in their order.
ghost use Rattle.siit_device.specs.Answered.{is_answered};
ghost use Rattle.siit_arrival6.specs.Arrived.{HasArrived6, HasMessage6, HasSource4, HasTurnedMessage6, HasWalk};
ghost use Rattle.siit_arrival6.specs.Kinds.{HasKind6};
ghost use Rattle.siit_arrival6.specs.Parts.{found_in};
ghost use Rattle.siit_device.specs.Addresses as addresses;
ghost use Rattle.siit_device.specs.Arrival6.{arrived_fragment, is_error6, is_pair, turn_for};
ghost use Rattle.siit_device.specs.Backward.{sent4};
ghost use Rattle.siit_device.specs.Rows.{first_of, or_rule};
ghost use Rattle.siit_device.specs.Rules6.{arrived_rule6, first_rule6, quote_rows6, size_rows6};
ghost use Rattle.siit_hairpin.specs.declared.hairpin.TurnAnswer.TheVariants.{Pair};
ghost use Rattle.siit_map.specs.Mapping.{ipv4_for};
ghost use Rattle.siit_model.specs.Ipv6.{ipv6_fields, payload_length_in};
ghost use Rattle.siit_upper.specs.Walks.{walk_by_rule, walked};
ghost use Rattle.siit_v6to4.specs.To4.{walk_in};
ghost use Rattle.siit_views.specs.Headers.{HasLength6};
ghost use Rattle.std.specs.Prelude.{◌≡◌, ◌<◌, ◌≤◌, ◌+◌, ◌-◌, length, true, false, None, Some, Ok, Err, IsOk, IsSome, IfErr, IfOk, IfSome, OnOk};

use crate::addresses::{Found6, new_addresses};
use crate::arrived::{Arrived6, Error6, Refused6, Way6};
use crate::header::{header_rule, walk_rule};
use crate::quote::{quote_back, quote_on};
use crate::size::{error_form, plain_form, size_rule};
use crate::upper::upper_kind;
use siit_addr::Addresses6;
use siit_eamt::Steps;
use siit_hairpin::TurnAnswer;
use siit_icmp::NewKind;
use siit_roles::Settings;
use siit_rules::Rule;
use siit_upper::{Walk, walk_ext};
use siit_views::{Ipv6Header, read6};
use std::sync::ledger::Ledger;

/// What is known of an IPv6 packet that no rule drops, or the first rule that holds for it. Bytes of the link may
/// follow the packet. Each node or entry of the table that is read counts as one step: at most six addresses are looked
/// up in 130 steps each, and two in 34.
pub fn arrive6<L: Ledger>(
    settings: &Settings,
    bytes: &[u8],
    steps: &mut Steps<L>,
) -> Result<Arrived6, Refused6>
    ensures refused { IfErr result (λ refused. first_rule6 settings.now bytes.now ≡ Some refused.rule) }
    ensures accepted { OnOk result (first_rule6 settings.now bytes.now ≡ None) }
    ensures arrived { IfOk result (λ arrived. HasArrived6 settings.now bytes.now arrived) }
    ensures walked { IfErr result (λ refused. IfSome refused.walk (HasWalk bytes.now)) }
    ensures answerable { IfErr result (λ refused. is_answered refused.rule ≡ true → IsSome refused.walk) }
    ensures cost { steps.new ≤ steps.old + 848 }
    ensures counted { steps.old ≤ steps.new }
{
    let header = match read6(bytes) {
        Ok(header) => header,
        Err(rule) => return Err(unwalked(rule)),
    };
    if let Some(rule) = header_rule(&header) {
        return Err(unwalked(rule));
    }
    let walk = match walk_over(&header) {
        Ok(walk) => walk,
        Err(rule) => return Err(unwalked(rule)),
    };
    match arrived_by(settings, &header, walk, steps) {
        Ok(arrived) => Ok(arrived),
        Err(rule) => Err(Refused6 {
            rule,
            walk: Some(walk),
        }),
    }
}

/// The walk over the extension headers of a packet, or the rule by which it isn't accepted (RFC 8200 section 4).
fn walk_over(header: &Ipv6Header<'_>) -> Result<Walk, Rule>
    requires lengths { HasLength6 header.now }
    ensures walk { IfOk result (λ walk. walk_in header.now ≡ Ok (walked walk)) }
    ensures within { IfOk result (λ walk. walk.at ≤ payload_length_in header.now) }
    ensures offset { IfOk result (λ walk. IfSome walk.frag (λ frag. frag.offset < 8192)) }
    ensures refused { IfErr result (λ rule. walk_by_rule (walk_in header.now) ≡ Err rule) }
{
    walk_ext(header.payload(), header.next())
}

/// A packet whose walk isn't accepted, or isn't made.
fn unwalked(rule: Rule) -> Refused6
    ensures rule { result.rule ≡ rule }
    ensures walk { result.walk ≡ None }
{
    Refused6 { rule, walk: None }
}

/// The same for a packet whose walk over the extension headers is accepted.
fn arrived_by<L: Ledger>(
    settings: &Settings,
    header: &Ipv6Header<'_>,
    walk: Walk,
    steps: &mut Steps<L>,
) -> Result<Arrived6, Rule>
    requires lengths { HasLength6 header.now }
    requires walk { walk_in header.now ≡ Ok (walked walk) }
    requires within { walk.at ≤ payload_length_in header.now }
    requires offset { IfSome walk.frag (λ frag. frag.offset < 8192) }
    ensures refused { IfErr result (λ rule. arrived_rule6 settings.now (found_in header.now walk) ≡ Some rule) }
    ensures accepted { OnOk result (arrived_rule6 settings.now (found_in header.now walk) ≡ None) }
    ensures arrived { IfOk result (λ arrived. HasArrived6 settings.now header.now arrived) }
    ensures cost { steps.new ≤ steps.old + 848 }
    ensures counted { steps.old ≤ steps.new }
{
    if let Some(rule) = walk_rule(header, walk) {
        return Err(rule);
    }
    let kind = match upper_kind(header, walk) {
        Ok(kind) => kind,
        Err(rule) => return Err(rule),
    };
    let found = match new_addresses(settings, header, walk, kind.is_some(), steps) {
        Ok(found) => found,
        Err(rule) => return Err(rule),
    };
    match sent_on(settings, header, walk, kind, found, steps) {
        Ok(arrived) => Ok(arrived),
        Err(rule) => Err(rule),
    }
}

/// A packet with these addresses, or the first of the rules on quotes and on sizes that holds for it.
fn sent_on<L: Ledger>(
    settings: &Settings,
    header: &Ipv6Header<'_>,
    walk: Walk,
    kind: Option<NewKind>,
    found: Found6,
    steps: &mut Steps<L>,
) -> Result<Arrived6, Rule>
    requires lengths { HasLength6 header.now }
    requires walk { walk_in header.now ≡ Ok (walked walk) }
    requires within { walk.at ≤ payload_length_in header.now }
    requires offset { IfSome walk.frag (λ frag. frag.offset < 8192) }
    requires alive { 2 ≤ (ipv6_fields header.now).hop }
    requires kind { HasKind6 (found_in header.now walk) kind }
    requires turn { found.turn ≡ turn_for settings.now (found_in header.now walk) }
    requires source { HasSource4 settings.now (ipv6_fields header.now).source found.src }
    requires sourceless { found.src ≡ None → is_error6 (arrived_fragment (found_in header.now walk)) ≡ true }
    requires destination_ok { IsOk (ipv4_for settings.now.mapping (ipv6_fields header.now).destination) }
    requires destination { addresses.to4 settings.now (ipv6_fields header.now).destination ≡ found.dst.0 }
    ensures refused { IfErr result (λ rule. or_rule (first_of (quote_rows6 settings.now) (found_in header.now walk)) (first_of (size_rows6 settings.now) (found_in header.now walk)) ≡ Some rule) }
    ensures accepted { OnOk result (or_rule (first_of (quote_rows6 settings.now) (found_in header.now walk)) (first_of (size_rows6 settings.now) (found_in header.now walk)) ≡ None) }
    ensures arrived { IfOk result (λ arrived. HasArrived6 settings.now header.now arrived) }
    ensures cost { steps.new ≤ steps.old + 424 }
    ensures counted { steps.old ≤ steps.new }
{
    match found.turn {
        TurnAnswer::Pair(new) => goes_back(settings, header, walk, kind, new, steps),
        _ => goes_on(settings, header, walk, kind, found, steps),
    }
}

/// A packet that isn't turned, or the first of the rules on quotes and on sizes that holds for it.
fn goes_on<L: Ledger>(
    settings: &Settings,
    header: &Ipv6Header<'_>,
    walk: Walk,
    kind: Option<NewKind>,
    found: Found6,
    steps: &mut Steps<L>,
) -> Result<Arrived6, Rule>
    requires lengths { HasLength6 header.now }
    requires walk { walk_in header.now ≡ Ok (walked walk) }
    requires within { walk.at ≤ payload_length_in header.now }
    requires offset { IfSome walk.frag (λ frag. frag.offset < 8192) }
    requires alive { 2 ≤ (ipv6_fields header.now).hop }
    requires kind { HasKind6 (found_in header.now walk) kind }
    requires turn { is_pair (turn_for settings.now (found_in header.now walk)) ≡ false }
    requires source { HasSource4 settings.now (ipv6_fields header.now).source found.src }
    requires sourceless { found.src ≡ None → is_error6 (arrived_fragment (found_in header.now walk)) ≡ true }
    requires destination_ok { IsOk (ipv4_for settings.now.mapping (ipv6_fields header.now).destination) }
    requires destination { addresses.to4 settings.now (ipv6_fields header.now).destination ≡ found.dst.0 }
    ensures refused { IfErr result (λ rule. or_rule (first_of (quote_rows6 settings.now) (found_in header.now walk)) (first_of (size_rows6 settings.now) (found_in header.now walk)) ≡ Some rule) }
    ensures accepted { OnOk result (or_rule (first_of (quote_rows6 settings.now) (found_in header.now walk)) (first_of (size_rows6 settings.now) (found_in header.now walk)) ≡ None) }
    ensures arrived { IfOk result (λ arrived. HasArrived6 settings.now header.now arrived) }
    ensures cost { steps.new ≤ steps.old + 260 }
    ensures counted { steps.old ≤ steps.new }
{
    let message = match message_on(settings, header, walk, kind, steps) {
        Ok(message) => message,
        Err(rule) => return Err(rule),
    };
    if let Some(rule) = size_rule(settings, header, walk, message.form) {
        return Err(rule);
    }
    Ok(arrived(
        header,
        walk,
        Way6::On {
            src: found.src,
            dst: found.dst,
            error: message.error,
        },
    ))
}

/// The message of a packet on its way to the IPv4 side.
#[derive(Clone, Copy)]
struct MessageOn {
    /// An ICMPv6 error, none of another upper part.
    error: Option<Error6>,
    /// How long the packet is on the other side.
    form: u32,
}

/// The message of a packet that isn't turned, or the first rule on quotes that holds for it.
fn message_on<L: Ledger>(
    settings: &Settings,
    header: &Ipv6Header<'_>,
    walk: Walk,
    kind: Option<NewKind>,
    steps: &mut Steps<L>,
) -> Result<MessageOn, Rule>
    requires lengths { HasLength6 header.now }
    requires within { walk.at ≤ payload_length_in header.now }
    requires kind { HasKind6 (found_in header.now walk) kind }
    requires turn { is_pair (turn_for settings.now (found_in header.now walk)) ≡ false }
    ensures refused { IfErr result (λ rule. first_of (quote_rows6 settings.now) (found_in header.now walk) ≡ Some rule) }
    ensures accepted { OnOk result (first_of (quote_rows6 settings.now) (found_in header.now walk) ≡ None) }
    ensures message { IfOk result (λ message. HasMessage6 settings.now (found_in header.now walk) message.error) }
    ensures form { IfOk result (λ message. message.form ≡ 20 + length (sent4 settings.now (found_in header.now walk) 0).bytes) }
    ensures most { IfOk result (λ message. message.form ≤ 20 + (payload_length_in header.now - walk.at)) }
    ensures plain { IfOk result (λ message. is_error6 (arrived_fragment (found_in header.now walk)) ≡ false → message.form ≡ 20 + (payload_length_in header.now - walk.at)) }
    ensures cost { steps.new ≤ steps.old + 260 }
    ensures counted { steps.old ≤ steps.new }
{
    match kind {
        None => Ok(MessageOn {
            error: None,
            form: plain_form(settings, header, walk),
        }),
        Some(new) => match quote_on(settings, header, walk, steps) {
            Ok(quote) => Ok(MessageOn {
                error: Some(Error6 {
                    new,
                    quote: quote.new,
                }),
                form: error_form(settings, header, walk, new, quote.walk),
            }),
            Err(rule) => Err(rule),
        },
    }
}

/// A packet that is turned, or the first of the rules on quotes and on sizes that holds for it.
fn goes_back<L: Ledger>(
    settings: &Settings,
    header: &Ipv6Header<'_>,
    walk: Walk,
    kind: Option<NewKind>,
    new: Addresses6,
    steps: &mut Steps<L>,
) -> Result<Arrived6, Rule>
    requires lengths { HasLength6 header.now }
    requires walk { walk_in header.now ≡ Ok (walked walk) }
    requires within { walk.at ≤ payload_length_in header.now }
    requires offset { IfSome walk.frag (λ frag. frag.offset < 8192) }
    requires alive { 2 ≤ (ipv6_fields header.now).hop }
    requires kind { HasKind6 (found_in header.now walk) kind }
    requires turn { turn_for settings.now (found_in header.now walk) ≡ Pair new }
    ensures refused { IfErr result (λ rule. or_rule (first_of (quote_rows6 settings.now) (found_in header.now walk)) (first_of (size_rows6 settings.now) (found_in header.now walk)) ≡ Some rule) }
    ensures accepted { OnOk result (or_rule (first_of (quote_rows6 settings.now) (found_in header.now walk)) (first_of (size_rows6 settings.now) (found_in header.now walk)) ≡ None) }
    ensures arrived { IfOk result (λ arrived. HasArrived6 settings.now header.now arrived) }
    ensures cost { steps.new ≤ steps.old + 424 }
    ensures counted { steps.old ≤ steps.new }
{
    let quote = match message_back(settings, header, walk, kind, steps) {
        Ok(quote) => quote,
        Err(rule) => return Err(rule),
    };
    Ok(arrived(header, walk, Way6::Back { new, quote }))
}

/// The addresses of the quote of a packet that is turned, none where it is no ICMPv6 error, or the first rule on quotes
/// that holds for it.
fn message_back<L: Ledger>(
    settings: &Settings,
    header: &Ipv6Header<'_>,
    walk: Walk,
    kind: Option<NewKind>,
    steps: &mut Steps<L>,
) -> Result<Option<Addresses6>, Rule>
    requires lengths { HasLength6 header.now }
    requires within { walk.at ≤ payload_length_in header.now }
    requires kind { HasKind6 (found_in header.now walk) kind }
    requires turn { is_pair (turn_for settings.now (found_in header.now walk)) ≡ true }
    ensures refused { IfErr result (λ rule. first_of (quote_rows6 settings.now) (found_in header.now walk) ≡ Some rule) }
    ensures accepted { OnOk result (first_of (quote_rows6 settings.now) (found_in header.now walk) ≡ None) }
    ensures message { IfOk result (λ quote. HasTurnedMessage6 settings.now (found_in header.now walk) quote) }
    ensures cost { steps.new ≤ steps.old + 424 }
    ensures counted { steps.old ≤ steps.new }
{
    match kind {
        None => Ok(None),
        Some(_) => match quote_back(settings, header, walk, steps) {
            Ok(quote) => Ok(Some(quote)),
            Err(rule) => Err(rule),
        },
    }
}

/// A packet that goes this way.
fn arrived(header: &Ipv6Header<'_>, walk: Walk, way: Way6) -> Arrived6
    ensures walk { result.walk ≡ walk }
    ensures len { result.len ≡ payload_length_in header.now }
    ensures source { result.old.src.0 ≡ (ipv6_fields header.now).source }
    ensures destination { result.old.dst.0 ≡ (ipv6_fields header.now).destination }
    ensures way { result.way ≡ way }
{
    Arrived6 {
        walk,
        len: header.length(),
        old: Addresses6 {
            src: header.src(),
            dst: header.dst(),
        },
        way,
    }
}
