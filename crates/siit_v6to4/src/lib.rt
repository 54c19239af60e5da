//! From IPv6 to IPv4 (RFC 7915 sections 5.1, 5.2 and 5.5).
#![tactic(auto)]

mod examples;
mod fields;
mod header;
mod laws;
mod turn;
mod upper;

pub use examples::{
    echo_examples, fragment_examples, header_examples, ones_examples, tcp_examples,
};
pub use fields::Head64;
pub use header::{head64, head64_by};
pub use laws::{
    fragment_is_read4, made_is_good4, residue_stays_to_4, residue_stays_turned,
    translated_is_good4, written_as_is_read4, written_is_read4,
};
pub use turn::{turn_addresses, turn_upper};
pub use upper::{upper64, upper64_behind};
