//! Generated captures that compute, each the contract of a function with no body.
ghost use Rattle.siit_making.specs.Examples.{CaptureExamples, PartExamples, ThroughExamples};

/// Whole files of generated captures.
#[tactic(auto, unfolding(siit_capture::specs::Captures::records_from, crate::specs::Captures::generated_capture))]
pub fn captures_compute()
    ensures { CaptureExamples }
{}

/// A capture part by part.
pub fn parts_compute()
    ensures { PartExamples }
{}

/// What is seen of files with a capture in place of one of them.
pub fn sights_compute()
    ensures { ThroughExamples }
{}
