//! One device of a chain: what it makes of one packet.
ghost use Rattle.std.specs.Prelude.{◌≤◌, ℕ, List};

use crate::origin::End;
use siit_fragments::CutPlan;
use siit_rules::Rule;
use siit_views::PacketBuf;

/// What a device makes of a packet. The packet that goes on, or back, is in the buffer.
#[derive(Clone, Copy, Debug, PartialEq, Eq)]
pub enum Verdict {
    /// It goes on, on the other side. `used` says whether the identification that the device was given is in it.
    Through { used: bool },
    /// It goes back, on the side of arrival.
    Turned,
    /// It goes on in the pieces that the plan cuts it into.
    Pieces { plan: CutPlan, used: bool },
    /// A rule refuses it. Where it is answered, the answer is in the buffer and goes back.
    Dropped { rule: Rule, answered: bool },
}

/// A device of a chain. Kinds of devices differ in this alone.
pub trait Device {
    ghost use Rattle.siit_chain.specs.Outcome.{Falls, Outcome};
    ghost use Rattle.siit_chain.specs.Verdicts.{Means};
    ghost use Rattle.siit_chain.specs.declared.origin.End.{End};

    /// What it makes of a packet that arrives on a side, where it is given this identification.
    ghost outcome: { Self → End → List ℕ → ℕ → Outcome };

    /// How long a packet may live: no fewer events than can come of it one after another.
    ghost measure: { List ℕ → ℕ };

    /// Makes of the packet in the buffer what the device makes of it. `side` is the side of arrival.
    fn translate(&self, side: End, buf: &mut PacketBuf, ident: u16) -> Verdict
        requires room { 96 ≤ buf.old.front }
        ensures outcome { Means result buf.new.bytes (outcome self.now side buf.old.bytes ident) };

    /// Whatever comes of a packet may live less long.
    ghost falls: { (device : Self) (side : End) (packet : List ℕ) (ident : ℕ) → Falls measure packet (outcome device side packet ident) };
}
