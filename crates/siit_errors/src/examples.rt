//! Errors as worked by hand.
ghost use Rattle.siit_errors.specs.Examples.{AnsweredExamples, ErrorExamples4, ErrorExamples6};

/// The definitions give the worked examples. There is nothing to run.
pub fn error_examples()
    ensures four { ErrorExamples4 }
    ensures six { ErrorExamples6 }
    ensures answered { AnsweredExamples }
{}
