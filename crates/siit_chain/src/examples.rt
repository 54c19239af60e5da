//! Texts and ways that compute, each the contract of a function with no body.
ghost use Rattle.siit_chain.specs.Examples.{CarriedExamples, TextExamples};

/// Records, report lines and end lines.
pub fn text_examples()
    ensures { TextExamples }
{}

/// Packets that are carried through chains of toys.
pub fn carried_examples()
    ensures { CarriedExamples }
{}
