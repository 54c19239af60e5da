//! A device, and its place in a chain.
ghost use Rattle.siit_chain.specs.Verdicts.{Means};
ghost use Rattle.siit_device.specs.Outcome.{outcome_of};
ghost use Rattle.siit_engine.specs.Placed.{DevicesAct, family_on, other_family};
ghost use Rattle.siit_engine.specs.Verdicts.{IsSilent};
ghost use Rattle.siit_roles.specs.Limits.{IsWithinLimits};
ghost use Rattle.std.specs.Prelude.{◌≡◌, ◌≤◌, ◌+◌};

use crate::arrivals::{from_ipv4, from_ipv6};
use siit_chain::{End, Verdict};
use siit_eamt::Steps;
use siit_roles::Settings;
use siit_rules::Family;
use siit_views::PacketBuf;
use std::marker::Model;
use std::sync::ledger::Ledger;

/// A translator with its settings (RFC 7915), and the family of the link at its left.
#[derive(Drop)]
pub struct Engine {
    settings: Settings,
    left: Family,
}

impl Model for Engine {
    ghost use Rattle.siit_engine.specs.Placed.{Placed};
    ghost use Rattle.siit_roles.specs.Limits.{IsWithinLimits};

    ghost Value = { Placed };

    ghost view = { λ e. record { settings = e.settings; left = e.left } };

    ghost invariant = { λ e. IsWithinLimits e.settings };
}

impl Engine {
    /// The device of these settings, whose left link is of this family. It takes no memory.
    pub fn new(settings: Settings, left: Family) -> Engine
        requires { IsWithinLimits settings }
        ensures settings { result.settings ≡ settings }
        ensures left { result.left ≡ left }
    {
        Engine { settings, left }
    }

    /// Makes of the packet in the buffer, which arrives from a link of this family, what the device makes of it: the
    /// packet that goes on or back, the one that is cut into the pieces that go on, or the answer to a packet that a
    /// rule drops. Without an answer the buffer stays. `ident` is the identification of an IPv4 packet where no
    /// Fragment header brings one; `used` says that it is.
    ///
    /// At least 96 bytes lie free before the packet. Each node or entry of the table that is read counts as one step:
    /// at most eight addresses are looked up, in 130 steps each.
    pub fn translate<L: Ledger>(
        &self,
        side: Family,
        buf: &mut PacketBuf,
        ident: u16,
        steps: &mut Steps<L>,
    ) -> Verdict
        requires room { 96 ≤ buf.old.front }
        ensures outcome { Means result buf.new.bytes (outcome_of self.now.settings side buf.old.bytes ident) }
        ensures kept { IsSilent result → buf.new ≡ buf.old }
        ensures front { buf.old.front ≤ buf.new.front + 96 }
        ensures cost { steps.new ≤ steps.old + 1040 }
        ensures counted { steps.old ≤ steps.new }
    {
        match side {
            Family::Four => from_ipv4(&self.settings, buf, steps),
            Family::Six => from_ipv6(&self.settings, buf, ident, steps),
        }
    }

    /// The family of the link on a side. The settings are within their limits.
    pub(crate) fn family_on(&self, side: End) -> Family
        ensures family { result ≡ family_on self.now side }
        ensures limits { IsWithinLimits self.now.settings }
    {
        match side {
            End::Left => self.left,
            End::Right => other_family(self.left),
        }
    }
}

/// The other family.
fn other_family(family: Family) -> Family
    ensures { result ≡ other_family family }
{
    match family {
        Family::Four => Family::Six,
        Family::Six => Family::Four,
    }
}

/// What comes of a packet at a device of a chain is what one device makes of it. There is nothing to run.
pub fn devices_act()
    ensures { DevicesAct }
{}
