//! Answers with AAAA records made from A records (RFC 6147).
#![tactic(auto)]

mod aaaa;
mod answered;
mod body;
mod examples;
mod fault;
mod judged;
mod synthesis;
mod written;

pub use answered::Answered;
pub use fault::Dns64Fault;
pub use synthesis::synthesize;

#[cfg(test)]
mod tests;
