//! Prefixes found in an answer about ipv4only.arpa (RFC 7050).
#![tactic(auto)]

mod candidate;
mod counting;
mod examples;
mod found;

pub use found::prefixes;
