//! The configuration of a chain of translators, read from TOML.
#![tactic(auto)]

mod arrays;
mod chain;
mod device;
mod device_keys;
mod examples;
mod fault;
mod keys;
mod laws;
mod names;
mod pool;
mod table;
mod unknown;

pub use chain::read_config;
pub use examples::configuration_examples;
pub use fault::ConfigFault;
pub use laws::{
    accepted_chains_are_good, symmetric_addresses_come_back, symmetric_tables_are_disjoint,
};
pub use names::embedding_of;

#[cfg(test)]
mod tests;
