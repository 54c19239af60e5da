//! Answers about a.example as worked by hand, each table the contract of a function with no body.
#![tactic(auto, unfolding(crate::specs::Dns64::dns64, siit_dns::specs::Messages::message_of, siit_dns::specs::Messages::question_at, siit_dns::specs::Messages::records_from, siit_dns::specs::Messages::record_at))]

ghost use Rattle.siit_dns64.specs.Examples.{AnswerExamples, RefusalExamples};

/// Answers that are made, and answers that are passed on.
pub fn answer_examples()
    ensures { AnswerExamples }
{}

/// Messages that are refused.
pub fn refusal_examples()
    ensures { RefusalExamples }
{}
