//! The rules on the quote of an ICMP error (RFC 7915 section 4.3), and the addresses that the device gives the quote's.
ghost use Rattle.siit_arrival4.specs.Arrived.{IsQuoteMapped4};
ghost use Rattle.siit_device.specs.Arrival4 as model;
ghost use Rattle.siit_device.specs.Arrival4.{is_error4};
ghost use Rattle.siit_device.specs.Rows.{first_of};
ghost use Rattle.siit_device.specs.Rules4.{quote_rows4};
ghost use Rattle.siit_model.specs.Ipv4.{Ipv4Packet, ipv4_fields};
ghost use Rattle.siit_quoted.specs.Bodies.{length_octet4};
ghost use Rattle.siit_quoted.specs.Refusals.{quote_refusal4};
ghost use Rattle.siit_views.specs.Headers.{HasLengths4};
ghost use Rattle.std.specs.Prelude.{◌≡◌, ◌≤◌, ◌+◌, length, true, None, Some, IfErr, IfOk, OnOk};

use siit_addr::Addresses6;
use siit_eamt::Steps;
use siit_quoted::quote_addresses4;
use siit_roles::Settings;
use siit_rules::Rule;
use siit_views::Ipv4Header;
use std::sync::ledger::Ledger;

/// The IPv6 addresses that the device gives those of an ICMP error's quote, or the first of these rules that holds.
/// Each node or entry of the table that is read counts as one step.
#[tactic(auto, unfolding(siit_device::specs::Rules4::quote_rows4))]
pub(crate) fn quote_addresses<L: Ledger>(
    settings: &Settings,
    header: &Ipv4Header<'_>,
    steps: &mut Steps<L>,
) -> Result<Addresses6, Rule>
    requires lengths { HasLengths4 header.now }
    requires error { is_error4 (ipv4_fields header.now) ≡ true }
    requires long { 8 ≤ length (ipv4_fields header.now).payload }
    ensures refused { IfErr result (λ rule. first_of (quote_rows4 settings.now) (ipv4_fields header.now) ≡ Some rule) }
    ensures accepted { OnOk result (first_of (quote_rows4 settings.now) (ipv4_fields header.now) ≡ None) }
    ensures quote { OnOk result (quote_refusal4 (model.quoted_part4 (ipv4_fields header.now).payload) ≡ None) }
    ensures mapped { IfOk result (λ new. IsQuoteMapped4 settings.now (ipv4_fields header.now).payload new) }
    ensures cost { steps.new ≤ steps.old + 68 }
    ensures counted { steps.old ≤ steps.new }
{
    let old = match quote_addresses4(quoted_part(header.payload())) {
        Ok(old) => old,
        Err(rule) => return Err(rule),
    };
    let Ok((src, _)) = settings.mapping.to6(old.src, steps) else {
        return Err(Rule::QuoteAddress4);
    };
    let Ok((dst, _)) = settings.mapping.to6(old.dst, steps) else {
        return Err(Rule::QuoteAddress4);
    };
    Ok(Addresses6 { src, dst })
}

/// The part of an ICMP error that holds its quote: as many units of 4 bytes as its length octet tells, and all where it
/// tells none (RFC 4884 section 4).
fn quoted_part(message: &[u8]) -> &[u8]
    requires { 8 ≤ length message.now }
    ensures { result.now ≡ model.quoted_part4 message.now }
{
    let body = &message[8..];
    let end = 4 * usize::from(length_octet(message));
    if end == 0 || end >= body.len() {
        body
    } else {
        &body[..end]
    }
}

/// The length octet of an ICMP error; types without one have 0.
fn length_octet(message: &[u8]) -> u8
    requires { 8 ≤ length message.now }
    ensures { result ≡ length_octet4 message.now }
{
    match message[0] {
        3 | 11 | 12 => message[5],
        _ => 0,
    }
}
