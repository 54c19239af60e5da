//! A generated capture that computes, the contract of a function with no body.
ghost use Rattle.siit_generator.specs.Examples.{GeneratedExamples};

/// The first packets of a seed.
pub fn generated_examples()
    ensures { GeneratedExamples }
{}
