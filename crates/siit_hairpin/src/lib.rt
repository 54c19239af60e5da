//! Packets that go back to the IPv6 side (hairpinning, RFC 7757 section 4): the addresses with which they go.
#![tactic(auto)]

mod hairpin;
mod laws;

pub use hairpin::{TurnAnswer, turn};
pub use laws::{
    hairpin_examples, replies_come_from_the_first_destination, translated_packets_pass,
};

#[cfg(test)]
mod tests;
