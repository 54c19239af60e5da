//! The rules on addresses (RFC 7757 section 3.3, RFC 6052), and the addresses that a device gives.
ghost use Rattle.siit_arrival4.specs.Arrived.{IsMapped4};
ghost use Rattle.siit_arrival4.specs.Parts.{means_found};
ghost use Rattle.siit_device.specs.Rows.{first_of};
ghost use Rattle.siit_device.specs.Rules4.{address_rows4};
ghost use Rattle.siit_model.specs.Ipv4.{ipv4_fields};
ghost use Rattle.std.specs.Prelude.{◌≡◌, ◌≤◌, ◌+◌, None, Some, IfErr, IfOk, OnOk};

use siit_addr::{Addr6, Addresses6};
use siit_eamt::Steps;
use siit_map::{MapRefusal, Means};
use siit_roles::{Settings, role_refuses4};
use siit_rules::Rule;
use siit_views::Ipv4Header;
use std::sync::ledger::Ledger;

/// The IPv6 addresses that the device gives a packet's, or the first of these rules that holds. Each node or entry of
/// the table that is read counts as one step.
#[tactic(auto, unfolding(siit_device::specs::Rules4::address_rows4))]
pub(crate) fn new_addresses<L: Ledger>(
    settings: &Settings,
    header: &Ipv4Header<'_>,
    steps: &mut Steps<L>,
) -> Result<Addresses6, Rule>
    ensures refused { IfErr result (λ rule. first_of (address_rows4 settings.now) (ipv4_fields header.now) ≡ Some rule) }
    ensures accepted { OnOk result (first_of (address_rows4 settings.now) (ipv4_fields header.now) ≡ None) }
    ensures mapped { IfOk result (λ new. IsMapped4 settings.now (ipv4_fields header.now) new) }
    ensures cost { steps.new ≤ steps.old + 68 }
    ensures counted { steps.old ≤ steps.new }
{
    let src = settings.mapping.to6(header.src(), steps);
    let dst = settings.mapping.to6(header.dst(), steps);
    if let Some(rule) = role_refuses4(settings.role, means_in(src), means_in(dst)) {
        return Err(rule);
    }
    let Ok((src, _)) = src else {
        return Err(Rule::SourceMap4);
    };
    let Ok((dst, _)) = dst else {
        return Err(Rule::DestinationMap4);
    };
    Ok(Addresses6 { src, dst })
}

/// How an address was found.
fn means_in(found: Result<(Addr6, Means), MapRefusal>) -> Option<Means>
    ensures { result ≡ means_found found }
{
    match found {
        Ok((_, means)) => Some(means),
        Err(_) => None,
    }
}
