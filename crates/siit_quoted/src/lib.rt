//! Quotes of ICMP errors on their way between IPv4 and IPv6 (RFC 7915 sections 4.3 and 5.3), and extensions (RFC 4884).
#![tactic(auto)]

mod addresses;
mod body;
mod examples;
mod head4;
mod head6;
mod laws;
mod multipart;
mod part;
mod sums;
mod sums46;
mod sums64;
mod sums_turned;
mod to_ipv4;
mod to_ipv6;
mod turned;

pub use addresses::{Quote6, accepted_quote6, quote_addresses4, quote_addresses6};
pub use examples::{extension_examples, quote_examples, refusal_examples};
pub use laws::{
    bodies_come_back, body6_has_room, extension_comes_back, extensions_come_back,
    fragment_quote_comes_back, upper_comes_back, whole_quote_comes_back,
};
pub use multipart::{extension, quote_part};
pub use part::accepted_walk;
pub use sums::{
    Sums, cut_last_difference, cut_quote_difference, cut_sums, moved_by_body_difference,
    upper_behind_stays,
};
pub use sums_turned::quote_sums_turned;
pub use sums46::quote_sums46;
pub use sums64::quote_sums64;
pub use to_ipv4::{quote64, quote64_by};
pub use to_ipv6::quote46;
pub use turned::{quote_turn, quote_turn_by};
