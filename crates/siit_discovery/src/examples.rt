//! Prefixes found as worked by hand, the contract of a function with no body.
#![tactic(auto, unfolding(crate::specs::Discovery::found, siit_dns::specs::Messages::message_of, siit_dns::specs::Messages::question_at, siit_dns::specs::Messages::records_from, siit_dns::specs::Messages::record_at))]

ghost use Rattle.siit_discovery.specs.Examples.{DiscoveryExamples};

/// Answers, and addresses of answers.
pub fn discovery_examples()
    ensures { DiscoveryExamples }
{}
