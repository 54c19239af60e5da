//! Runs that compute, each the contract of a function with no body.
ghost use Rattle.siit_crossing.specs.Examples.{PairExamples, ToyExamples};

/// The entries of records that chains of toys have carried.
pub fn toy_examples()
    ensures { ToyExamples }
{}

/// A segment that crosses a border and an edge, one that comes back, and a datagram that is dropped.
pub fn pair_examples()
    ensures { PairExamples }
{}
