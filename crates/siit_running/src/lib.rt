//! A run: the records of two captures are carried through a chain, in the order of their times, and what comes of them
//! is written to three files.
#![tactic(auto)]

mod captures;
mod fault;
mod inputs;
mod next;
mod running;
#[cfg(test)]
mod running_tests;
mod source;
#[cfg(test)]
mod toy;

pub use captures::Readers;
pub use fault::RunFault;
pub use inputs::Inputs;
pub use running::{RunCounts, run};
