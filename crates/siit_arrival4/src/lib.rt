//! The rules on IPv4 arrival: the first that holds for a packet, or what is known of a packet that no rule drops (RFC
//! 7915 section 4).
#![tactic(auto)]

mod addresses;
mod arrival;
mod arrived;
mod header;
mod icmp;
mod kinds;
mod laws;
mod options;
mod quote;
mod shape;
mod size;
mod udp;
mod upper;

pub use arrival::arrive4;
pub use arrived::{Arrived4, Error4, Upper4};
pub use laws::rules_leave4;
