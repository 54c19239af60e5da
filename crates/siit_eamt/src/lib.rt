//! The table of explicit address mappings (RFC 7757).
#![tactic(auto)]

mod apart;
mod buckets;
mod cutting;
mod entry;
mod interval;
mod intervals;
mod sorted;
mod spacing;
mod starts;
mod steps;
mod table;
mod trie;
mod tries;

pub use entry::{Eam, EamFault, Hit4, Hit6};
pub use steps::Steps;
pub use table::Eamt;

#[cfg(test)]
mod tests;
