//! IPv4 and IPv6 addresses and prefixes, and their texts.
#![tactic(auto)]

mod addr;
mod digits;
mod examples;
mod ipv4;
mod ipv6;
mod laws;
mod split;
mod text;
mod write_digits;
mod write_groups;

pub use addr::{Addr4, Addr6, Addresses4, Addresses6, Prefix4, Prefix6, is_non_global};
pub use examples::text_examples;
pub use laws::{
    ipv4_texts_are_read_again, ipv6_texts_are_read_again, prefix6_texts_are_read_again,
};
pub use text::{
    read_addr4, read_addr6, read_prefix4, read_prefix6, write_addr4, write_addr6, write_prefix6,
};
