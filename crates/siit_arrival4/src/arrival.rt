//! All rules on IPv4 arrival in their order.
ghost use Rattle.siit_arrival4.specs.Arrived.{HasArrived4, HasUpper4};
ghost use Rattle.siit_arrival4.specs.Kinds.{HasKind4};
ghost use Rattle.siit_device.specs.Answered.{is_answered};
ghost use Rattle.siit_device.specs.Rows.{first_of};
ghost use Rattle.siit_device.specs.Rules4.{first_rule4, quote_rows4};
ghost use Rattle.siit_model.specs.Ipv4.{ipv4_fields};
ghost use Rattle.siit_roles.specs.Limits.{IsWithinLimits};
ghost use Rattle.siit_views.specs.Headers.{HasLengths4};
ghost use Rattle.std.specs.Prelude.{◌≡◌, ◌≤◌, ◌+◌, true, None, Some, IfErr, IfOk, OnOk};

use crate::addresses::new_addresses;
use crate::arrived::{Arrived4, Error4, Upper4};
use crate::header::header_rule;
use crate::kinds::Kind4;
use crate::quote::quote_addresses;
use crate::size::size_rule;
use crate::upper::upper_kind;
use siit_addr::Addresses4;
use siit_eamt::Steps;
use siit_roles::Settings;
use siit_rules::Rule;
use siit_views::{Ipv4Header, read4};
use std::sync::ledger::Ledger;

/// What is known of an IPv4 packet that no rule drops, or the first rule that holds for it. Bytes of the link may
/// follow the packet. Each node or entry of the table that is read counts as one step: at most four addresses are
/// looked up, in 34 steps each.
pub fn arrive4<L: Ledger>(
    settings: &Settings,
    bytes: &[u8],
    steps: &mut Steps<L>,
) -> Result<Arrived4, Rule>
    ensures refused { IfErr result (λ rule. first_rule4 settings.now bytes.now ≡ Some rule) }
    ensures accepted { OnOk result (first_rule4 settings.now bytes.now ≡ None) }
    ensures arrived { IfOk result (λ arrived. HasArrived4 settings.now bytes.now arrived) }
    ensures answerable { IfErr result (λ rule. is_answered rule ≡ true → HasLengths4 bytes.now) }
    ensures cost { steps.new ≤ steps.old + 136 }
    ensures counted { steps.old ≤ steps.new }
{
    let header = match read4(bytes) {
        Ok(header) => header,
        Err(rule) => return Err(rule),
    };
    if let Some(rule) = header_rule(&header) {
        return Err(rule);
    }
    let kind = upper_kind(settings, &header)?;
    let new = new_addresses(settings, &header, steps)?;
    let upper = new_upper(settings, &header, kind, steps)?;
    if let Some(rule) = size_rule(settings, &header, &upper) {
        return Err(rule);
    }
    Ok(Arrived4 {
        header_len: header.header_len() as u16,
        total: header.total(),
        old: Addresses4 {
            src: header.src(),
            dst: header.dst(),
        },
        new,
        protocol: header.protocol(),
        upper,
    })
}

/// What becomes of an upper part of this kind, or the first rule on quotes that holds for it.
fn new_upper<L: Ledger>(
    settings: &Settings,
    header: &Ipv4Header<'_>,
    kind: Kind4,
    steps: &mut Steps<L>,
) -> Result<Upper4, Rule>
    requires lengths { HasLengths4 header.now }
    requires kind { HasKind4 (ipv4_fields header.now) kind }
    ensures refused { IfErr result (λ rule. first_of (quote_rows4 settings.now) (ipv4_fields header.now) ≡ Some rule) }
    ensures accepted { OnOk result (first_of (quote_rows4 settings.now) (ipv4_fields header.now) ≡ None) }
    ensures upper { IfOk result (λ upper. HasUpper4 settings.now (ipv4_fields header.now) upper) }
    ensures cost { steps.new ≤ steps.old + 68 }
    ensures counted { steps.old ≤ steps.new }
{
    match kind {
        Kind4::Moved => Ok(Upper4::Moved),
        Kind4::Bare => Ok(Upper4::Bare),
        Kind4::Error(new) => match quote_addresses(settings, header, steps) {
            Ok(quote) => Ok(Upper4::Error(Error4 { new, quote })),
            Err(rule) => Err(rule),
        },
    }
}
