//! ICMP errors that a device makes for packets which it drops (RFC 792, RFC 4443).
#![tactic(auto)]

mod answer;
mod answers;
mod examples;
mod laws;
mod make;

pub use answer::{answer4, answer6};
pub use answers::{may_answer4, may_answer4_by, may_answer6, may_answer6_by};
pub use examples::error_examples;
pub use laws::{errors_are_good, errors_are_not_answered, errors_are_right, errors_have_hops};
pub use make::{make_error4, make_error6};

#[cfg(test)]
mod tests;
