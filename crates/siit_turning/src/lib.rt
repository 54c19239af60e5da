//! The packet that a device sends back to its IPv6 side, in place of the one that arrived (RFC 7757 section 4.2).
#![tactic(auto)]

mod error;
mod header;
mod turning;

pub use turning::turn_back;
