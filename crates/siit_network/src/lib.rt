//! The network that a configuration describes: its devices in a row, over two captures and into files.
#![tactic(auto)]

mod crossing;
mod devices;
mod outputs;

pub use crossing::carry_captures;
pub use devices::chain_of;
pub use outputs::create_outputs;

#[cfg(test)]
mod tests;
