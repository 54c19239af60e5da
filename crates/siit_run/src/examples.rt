//! Runs that compute, the contract of a function with no body.
ghost use Rattle.siit_run.specs.Examples.{RunExamples};

/// Short captures, ties and faults.
pub fn run_examples()
    ensures { RunExamples }
{}
