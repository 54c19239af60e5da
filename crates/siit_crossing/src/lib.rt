//! What a finished run writes of records whose packets cross two devices between IPv4 links without a drop. Nothing
//! runs: the laws are contracts of functions with no body.
#![tactic(auto)]

mod examples;
mod laws;

pub use examples::{pair_examples, toy_examples};
pub use laws::{
    devices_send_to_4, devices_send_to_6, each_record_is_carried, finished_runs_carry_all,
    none_turns_in_pairs, numbers_are_coming, packets_cross_both, pairs_alone_turn,
    records_cross_both,
};
