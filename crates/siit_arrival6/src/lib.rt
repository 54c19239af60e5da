//! The rules on IPv6 arrival: the first that holds for a packet, or what is known of a packet that no rule drops (RFC
//! 7915 section 5).
#![tactic(auto)]

mod addresses;
mod arrival;
mod arrived;
mod header;
mod laws;
mod quote;
mod shape;
mod size;
mod upper;

pub use arrival::arrive6;
pub use arrived::{Arrived6, Error6, Refused6, Way6};
pub use laws::rules_leave6;
