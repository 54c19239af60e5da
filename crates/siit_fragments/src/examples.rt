//! Pieces and plans as worked by hand, the contract of a function with no body.
ghost use Rattle.siit_fragments.specs.Examples.{PieceExamples};

/// Long packets cut for an MTU.
pub fn piece_examples()
    ensures { PieceExamples }
{}
