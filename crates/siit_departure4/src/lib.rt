//! From IPv6 to IPv4: the packet that a device makes of an IPv6 packet which no rule drops, where it lies (RFC 7915
//! section 5).
#![tactic(auto)]

mod body;
mod cut;
mod departure;
mod error;
mod rest;
mod source;
mod upper;

pub use departure::{Sent4, depart4};
pub use error::new_error;
