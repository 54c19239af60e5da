//! A run over two captures: definitions and their laws.
#![tactic(auto)]

mod examples;
mod laws;
mod looking;

pub use examples::run_examples;
pub use laws::{ended_is_whole, run_ends, turns_only_add};
pub use looking::{MOST_CAPTURE, Stop, look};
