//! DNS messages (RFC 1035): one question and resource records, read where they lie.
#![tactic(auto)]

mod examples;
mod fault;
pub mod kinds;
mod messages;
mod name;
mod rdata;
mod record;
mod records;
mod sections;

pub use fault::DnsFault;
pub use messages::Message;
pub use name::{Name, same_name};
pub use rdata::Written;
pub use record::{QuestionView, RecordView};
pub use records::Records;
