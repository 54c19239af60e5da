//! Generated captures: written to a file, and carried through a network without that file being read.
#![tactic(auto)]

mod capture;
mod carrying;
mod examples;
mod laws;
mod texts;
mod through;
mod writing;

pub use capture::{GeneratedCapture, MOST_GENERATED};
pub use carrying::carry_generated;
pub use examples::{captures_compute, parts_compute, sights_compute};
pub use laws::{generated_captures_are_read, generated_captures_are_short};
pub use writing::write_generated;
