//! The packet that a device makes of an IPv4 packet which no rule drops, where it lies in the packet buffer (RFC 7915
//! section 4).
#![tactic(auto)]

mod cut;
mod departure;
mod error;
mod header;
mod kept;
mod message;
mod rest;
mod upper;

pub use departure::depart6;
pub use message::translate_message;
