//! Cutting and translating commute: what a device makes of the fragments of a datagram are fragments of what it makes
//! of the datagram (RFC 7915 sections 4 and 5). Nothing runs: the laws are contracts of functions with no body.
#![tactic(auto)]

mod laws;

pub use laws::{cutting_commutes_to_4, cutting_commutes_to_6};
