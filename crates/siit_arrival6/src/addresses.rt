//! The rules on addresses (RFC 7757 section 3.3, RFC 6052, RFC 6791), the addresses that a device gives, and the turn
//! back to the IPv6 side.
ghost use Rattle.siit_arrival6.specs.Arrived.{HasSource4};
ghost use Rattle.siit_arrival6.specs.Parts.{address_found, found_in, means_found};
ghost use Rattle.siit_device.specs.Addresses as addresses;
ghost use Rattle.siit_device.specs.Arrival6 as model;
ghost use Rattle.siit_device.specs.Arrival6.{arrived_fragment, is_error6, turn_for};
ghost use Rattle.siit_device.specs.Rows.{first_of};
ghost use Rattle.siit_device.specs.Rules6.{address_rows6};
ghost use Rattle.siit_map.specs.Mapping.{ipv4_for};
ghost use Rattle.siit_model.specs.Ipv6.{ipv6_fields};
ghost use Rattle.std.specs.Prelude.{◌≡◌, ◌≤◌, ◌+◌, ◌&&◌, true, None, Some, IsOk, IfErr, IfOk, OnOk};

use siit_addr::Addr4;
use siit_eamt::Steps;
use siit_hairpin::{TurnAnswer, turn};
use siit_map::{MapRefusal, Means};
use siit_roles::{Role, Settings, role_refuses6};
use siit_rules::Rule;
use siit_upper::Walk;
use siit_views::Ipv6Header;
use std::sync::ledger::Ledger;

/// What the device makes of a packet's addresses.
#[derive(Clone, Copy)]
pub(crate) struct Found6 {
    /// The IPv4 address of the source; an ICMPv6 error may come from an address that has none.
    pub src: Option<Addr4>,
    /// That of the destination.
    pub dst: Addr4,
    /// Whether the packet goes back to the IPv6 side.
    pub turn: TurnAnswer,
}

/// The IPv4 addresses that the device gives a packet's, or the first of these rules that holds. Each node or entry of
/// the table that is read counts as one step.
#[tactic(auto, unfolding(siit_device::specs::Rules6::address_rows6))]
pub(crate) fn new_addresses<L: Ledger>(
    settings: &Settings,
    header: &Ipv6Header<'_>,
    walk: Walk,
    is_error: bool,
    steps: &mut Steps<L>,
) -> Result<Found6, Rule>
    requires error { is_error ≡ is_error6 (arrived_fragment (found_in header.now walk)) }
    ensures refused { IfErr result (λ rule. first_of (address_rows6 settings.now) (found_in header.now walk) ≡ Some rule) }
    ensures accepted { OnOk result (first_of (address_rows6 settings.now) (found_in header.now walk) ≡ None) }
    ensures source { IfOk result (λ found. HasSource4 settings.now (ipv6_fields header.now).source found.src) }
    ensures sourceless { IfOk result (λ found. found.src ≡ None → is_error ≡ true) }
    ensures destination_ok { OnOk result (IsOk (ipv4_for settings.now.mapping (ipv6_fields header.now).destination)) }
    ensures destination { IfOk result (λ found. addresses.to4 settings.now (ipv6_fields header.now).destination ≡ found.dst.0) }
    ensures turn { IfOk result (λ found. found.turn ≡ turn_for settings.now (found_in header.now walk)) }
    ensures cost { steps.new ≤ steps.old + 424 }
    ensures counted { steps.old ≤ steps.new }
{
    let src = settings.mapping.to4(header.src(), steps);
    let dst = settings.mapping.to4(header.dst(), steps);
    if let Some(rule) = role_refuses6(settings.role, means_in(src), means_in(dst)) {
        return Err(rule);
    }
    let src = address_in(src);
    if !is_error && src.is_none() {
        return Err(Rule::SourceMap6);
    }
    let Ok((dst, _)) = dst else {
        return Err(Rule::DestinationMap6);
    };
    let turn = turn_answer(settings, header, walk, src, steps);
    if is_refused(turn) {
        return Err(Rule::HairpinSource6);
    }
    Ok(Found6 { src, dst, turn })
}

/// How an address was found.
fn means_in(found: Result<(Addr4, Means), MapRefusal>) -> Option<Means>
    ensures { result ≡ means_found found }
{
    match found {
        Ok((_, means)) => Some(means),
        Err(_) => None,
    }
}

/// The address that was found.
fn address_in(found: Result<(Addr4, Means), MapRefusal>) -> Option<Addr4>
    ensures { result ≡ address_found found }
{
    match found {
        Ok((address, _)) => Some(address),
        Err(_) => None,
    }
}

/// What becomes of a packet at a device that may turn it back, with the IPv4 address of its source, or none.
#[tactic(auto, using(crate::proofs::Turns::turn_not, crate::proofs::Turns::turn_is))]
fn turn_answer<L: Ledger>(
    settings: &Settings,
    header: &Ipv6Header<'_>,
    walk: Walk,
    src: Option<Addr4>,
    steps: &mut Steps<L>,
) -> TurnAnswer
    requires { HasSource4 settings.now (ipv6_fields header.now).source src }
    ensures answer { result ≡ turn_for settings.now (found_in header.now walk) }
    ensures cost { steps.new ≤ steps.old + 164 }
    ensures counted { steps.old ≤ steps.new }
{
    if !turns_back(settings) {
        return TurnAnswer::Not;
    }
    let standing = standing_address(settings, header, walk, src);
    turn(&settings.mapping, standing, header.dst(), steps)
}

/// The IPv4 address that stands for the source of a packet: that of an ICMPv6 error whose source has none is the
/// device's own.
#[tactic(auto, using(crate::proofs::Turns::standing_mapped, crate::proofs::Turns::standing_own))]
fn standing_address(
    settings: &Settings,
    header: &Ipv6Header<'_>,
    walk: Walk,
    src: Option<Addr4>,
) -> Addr4
    requires { HasSource4 settings.now (ipv6_fields header.now).source src }
    ensures { result.0 ≡ model.source_standing settings.now (found_in header.now walk) }
{
    match src {
        Some(address) => address,
        None => settings.address4,
    }
}

/// Whether a device hairpins.
fn turns_back(settings: &Settings) -> bool
    ensures { result ≡ (settings.now.hairpin && model.turns_back settings.now.role) }
{
    settings.hairpin && matches!(settings.role, Role::Plain | Role::Border)
}

/// Whether a packet would go back and can't.
fn is_refused(turn: TurnAnswer) -> bool
    ensures { result ≡ model.is_refused turn }
{
    matches!(turn, TurnAnswer::Refused)
}
