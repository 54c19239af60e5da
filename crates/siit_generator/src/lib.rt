//! Captures that are made from a seed, packet by packet.
#![tactic(auto)]

mod examples;
mod generator;

pub use examples::generated_examples;
pub use generator::{Generator, Time};
