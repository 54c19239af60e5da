//! From IPv4 to IPv6 (RFC 7915 sections 4.1, 4.2 and 4.5).
#![tactic(auto)]

mod examples;
mod fields;
mod header;
mod laws;
mod upper;

pub use examples::{
    echo_examples, fragment_examples, ones_examples, tcp_examples, udp_sum_examples,
};
pub use fields::Head46;
pub use header::head46;
pub use laws::{
    made_is_good6, residue_stays_to_6, translated_is_good6, written_as_is_read6, written_is_read6,
};
pub use upper::{udp_sum6, upper46, upper46_behind};
