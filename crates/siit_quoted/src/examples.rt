//! Quotes translated as worked by hand, each table the contract of a function with no body.
ghost use Rattle.siit_quoted.specs.Examples.{ExtensionExamples, QuoteExamples, RefusalExamples};

/// Quotes without an extension.
#[tactic(auto, unfolding(crate::specs::Quotes::quote_to_6, crate::specs::Quotes::quote_to_4, crate::specs::Quotes::quote_turned))]
pub fn quote_examples()
    ensures { QuoteExamples }
{}

/// Bodies with an extension.
#[tactic(auto, unfolding(crate::specs::Quotes::quote_to_6, crate::specs::Quotes::quote_to_4, crate::specs::Quotes::quote_turned))]
pub fn extension_examples()
    ensures { ExtensionExamples }
{}

/// Quotes that are refused.
pub fn refusal_examples()
    ensures { RefusalExamples }
{}
