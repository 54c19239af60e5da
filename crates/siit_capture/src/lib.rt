//! Captures of packets: read as they come, in pieces, and written.
#![tactic(auto)]

mod fields;
mod form;
mod head;
mod laws;
mod link;
mod queue;
mod reader;
#[cfg(test)]
mod reading_tests;
mod record;
mod write;

pub use form::{CaptureFault, LinkType};
pub use head::Head;
pub use laws::{
    ends_are_read, ethernet_captures_are_read, faults_are_read, forms_are_read,
    given_records_are_all, given_records_are_the_first, packets_are_found,
    written_captures_are_read_again,
};
pub use reader::CaptureReader;
pub use write::{capture_head, record_head};
