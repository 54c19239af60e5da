//! Laws of errors, each the contract of a function with no body.
ghost use Rattle.siit_errors.specs.Laws.{ErrorsAreGood4, ErrorsAreGood6, ErrorsAreNotAnswered4, ErrorsAreNotAnswered6, ErrorsAreRight4, ErrorsAreRight6, ErrorsHaveHops4, ErrorsHaveHops6};

/// An error is answered by no error. There is nothing to run.
pub fn errors_are_not_answered()
    ensures four { ErrorsAreNotAnswered4 }
    ensures six { ErrorsAreNotAnswered6 }
{}

/// An error may pass 64 devices. There is nothing to run.
pub fn errors_have_hops()
    ensures four { ErrorsHaveHops4 }
    ensures six { ErrorsHaveHops6 }
{}

/// The checksum of an error is right. There is nothing to run.
pub fn errors_are_right()
    ensures four { ErrorsAreRight4 }
    ensures six { ErrorsAreRight6 }
{}

/// An error has a written form. There is nothing to run.
pub fn errors_are_good()
    ensures four { ErrorsAreGood4 }
    ensures six { ErrorsAreGood6 }
{}
