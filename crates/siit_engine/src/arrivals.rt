//! What a device makes of a packet, by the family of the link that it arrives from.
ghost use Rattle.siit_arrival6.specs.Arrived.{HasArrived6};
ghost use Rattle.siit_chain.specs.Verdicts.{Means};
ghost use Rattle.siit_device.specs.Outcome.{outcome4, outcome6};
ghost use Rattle.siit_device.specs.Rules6.{first_rule6};
ghost use Rattle.siit_engine.specs.Verdicts.{IsSilent, verdict_of};
ghost use Rattle.siit_roles.specs.Limits.{IsWithinLimits};
ghost use Rattle.std.specs.Prelude.{◌≡◌, ◌≤◌, ◌+◌, None};

use crate::refusals::{refuse4, refuse6};
use siit_arrival4::arrive4;
use siit_arrival6::{Arrived6, Way6, arrive6};
use siit_chain::Verdict;
use siit_departure4::depart4;
use siit_departure6::depart6;
use siit_eamt::Steps;
use siit_fragments::CutPlan;
use siit_roles::Settings;
use siit_turning::turn_back;
use siit_views::PacketBuf;
use std::sync::ledger::Ledger;

/// A packet from the IPv4 side (RFC 7915 section 4).
pub(crate) fn from_ipv4<L: Ledger>(
    settings: &Settings,
    buf: &mut PacketBuf,
    steps: &mut Steps<L>,
) -> Verdict
    requires limits { IsWithinLimits settings.now }
    requires room { 96 ≤ buf.old.front }
    ensures outcome { Means result buf.new.bytes (outcome4 settings.now buf.old.bytes) }
    ensures kept { IsSilent result → buf.new ≡ buf.old }
    ensures front { buf.old.front ≤ buf.new.front + 96 }
    ensures cost { steps.new ≤ steps.old + 136 }
    ensures counted { steps.old ≤ steps.new }
{
    match arrive4(settings, buf.bytes(), steps) {
        Ok(arrived) => sent(depart6(settings, buf, &arrived), false),
        Err(rule) => refuse4(settings, buf, rule),
    }
}

/// A packet from the IPv6 side (RFC 7915 section 5), with the identification that it has on the IPv4 side where no
/// Fragment header brings one.
pub(crate) fn from_ipv6<L: Ledger>(
    settings: &Settings,
    buf: &mut PacketBuf,
    ident: u16,
    steps: &mut Steps<L>,
) -> Verdict
    requires limits { IsWithinLimits settings.now }
    requires room { 96 ≤ buf.old.front }
    ensures outcome { Means result buf.new.bytes (outcome6 settings.now buf.old.bytes ident) }
    ensures kept { IsSilent result → buf.new ≡ buf.old }
    ensures front { buf.old.front ≤ buf.new.front + 96 }
    ensures cost { steps.new ≤ steps.old + 1040 }
    ensures counted { steps.old ≤ steps.new }
{
    match arrive6(settings, buf.bytes(), steps) {
        Ok(arrived) => send6(settings, buf, &arrived, ident),
        Err(refused) => refuse6(settings, buf, refused),
    }
}

/// An IPv6 packet that no rule drops: on to the IPv4 side, or back (RFC 7757 section 4.2).
fn send6(settings: &Settings, buf: &mut PacketBuf, arrived: &Arrived6, ident: u16) -> Verdict
    requires accepted { first_rule6 settings.now buf.old.bytes ≡ None }
    requires arrived { HasArrived6 settings.now buf.old.bytes arrived.now }
    requires limits { IsWithinLimits settings.now }
    requires room { 96 ≤ buf.old.front }
    ensures outcome { Means result buf.new.bytes (outcome6 settings.now buf.old.bytes ident) }
    ensures sent { ¬ IsSilent result }
    ensures front { buf.old.front ≤ buf.new.front + 96 }
{
    match arrived.way {
        Way6::On { src, dst, error } => {
            let on = depart4(settings, buf, arrived, src, dst, error, ident);
            sent(on.plan, on.used)
        }
        Way6::Back { new, quote } => {
            turn_back(settings, buf, arrived, new, quote);
            Verdict::Turned
        }
    }
}

/// The verdict on a packet that goes on, whole or in pieces.
fn sent(plan: Option<CutPlan>, used: bool) -> Verdict
    ensures { result ≡ verdict_of plan used }
{
    match plan {
        Some(plan) => Verdict::Pieces { plan, used },
        None => Verdict::Through { used },
    }
}
