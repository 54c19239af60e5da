//! A captured packet is carried through a chain of devices, and with it all that comes of it.
#![tactic(auto)]

mod chain;
#[cfg(test)]
mod chain_tests;
mod follow;
mod meet;
mod place;
mod spares;
#[cfg(test)]
mod toy;
mod write;

pub use chain::{Chain, ChainFault};
pub use write::write as write_text;
