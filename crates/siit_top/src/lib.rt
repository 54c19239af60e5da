//! The top call of the program.
#![tactic(auto)]

mod commands;
mod lines;
mod map_lines;
mod prefix_lines;
mod status;
mod top;

ghost use Rattle.siit_top.specs.DiscoverExamples.{DiscoverExamples};
ghost use Rattle.siit_top.specs.Examples.{MapWordExamples, RunWordExamples, WordExamples};
ghost use Rattle.siit_top.specs.MapExamples.{MapExamples};
ghost use Rattle.siit_top.specs.WellKnownExamples.{WellKnownExamples};

pub use lines::status_line;
pub use status::Status;
pub use top::siit_main;

/// Words that are the command `wkp`, and words that are none.
pub fn word_examples()
    ensures { WordExamples }
{}

/// Words that are the command `run`, and words that are none.
pub fn run_word_examples()
    ensures { RunWordExamples }
{}

/// The configuration of `wkp`.
pub fn well_known_examples()
    ensures { WellKnownExamples }
{}

/// Words that are the command `map`, and words that are none.
pub fn map_word_examples()
    ensures { MapWordExamples }
{}

/// Lines that `map` prints.
pub fn map_examples()
    ensures { MapExamples }
{}

/// Words that are the command `discover`, words that are none, and lines that it prints.
pub fn discover_examples()
    ensures { DiscoverExamples }
{}
