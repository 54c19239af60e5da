//! One device: what it makes of one packet (RFC 7915).
#![tactic(auto)]

mod arrivals;
mod device;
mod engine;
mod refusals;

pub use engine::{Engine, devices_act};

#[cfg(test)]
mod tests;
