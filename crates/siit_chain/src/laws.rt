//! Laws of what is carried through a chain, each the contract of a function with no body.
ghost use Rattle.siit_chain.specs.Laws.{EnoughTurns, OnChains, OneStep, WrittenStaysInFront};

use crate::device::Device;

/// A packet is carried to its end in as many turns as it may live, and one.
pub fn enough_turns<D: Device>()
    ensures { OnChains D.outcome D.measure EnoughTurns }
{}

/// What comes of a packet is carried in order, each to its end before the next.
pub fn one_step<D: Device>()
    ensures { OnChains D.outcome D.measure OneStep }
{}

/// What was written before stays in front.
pub fn written_stays_in_front<D: Device>()
    ensures { OnChains D.outcome D.measure WrittenStaysInFront }
{}
