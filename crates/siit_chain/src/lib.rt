//! What a chain of devices makes of a captured packet: definitions, their laws, and the trait of a device.
#![tactic(auto)]

mod device;
mod examples;
mod laws;
mod origin;
mod texts;

pub use device::{Device, Verdict};
pub use examples::{carried_examples, text_examples};
pub use laws::{enough_turns, one_step, written_stays_in_front};
pub use origin::{Counts, End, Origin, Output, Outs};
pub use texts::{end_line, report_line};
