//! Messages, names and RDATA as worked by hand, each table the contract of a function with no body.
#![tactic(auto, unfolding(crate::specs::Messages::message_of, crate::specs::Messages::question_at, crate::specs::Messages::records_from, crate::specs::Messages::record_at))]

ghost use Rattle.siit_dns.specs.Examples.{CutExamples, FaultExamples, MessageExamples, NameExamples, RdataExamples};

/// A query and a response.
pub fn message_examples()
    ensures { MessageExamples }
{}

/// A response that is cut after each byte.
pub fn cut_examples()
    ensures { CutExamples }
{}

/// Messages that are at fault.
pub fn fault_examples()
    ensures { FaultExamples }
{}

/// Names with pointers, and long ones.
pub fn name_examples()
    ensures { NameExamples }
{}

/// RDATA with names.
pub fn rdata_examples()
    ensures { RdataExamples }
{}
