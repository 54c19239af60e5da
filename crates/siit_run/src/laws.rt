//! Laws of runs, each the contract of a function with no body.
ghost use Rattle.siit_chain.specs.Laws.{OnChains};
ghost use Rattle.siit_run.specs.Laws.{EndedIsWhole, RunEnds, TurnsOnlyAdd};

use siit_chain::Device;

/// A run comes to its end: behind both captures, or at a fault.
pub fn run_ends<D: Device>()
    ensures { OnChains D.outcome D.measure RunEnds }
{}

/// A run that has ended stays as it is.
pub fn ended_is_whole<D: Device>()
    ensures { OnChains D.outcome D.measure EndedIsWhole }
{}

/// No turn takes back what was written.
pub fn turns_only_add<D: Device>()
    ensures { OnChains D.outcome D.measure TurnsOnlyAdd }
{}
