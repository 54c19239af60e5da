//! Laws of generated captures, each the contract of a function with no body.
ghost use Rattle.siit_making.specs.Laws.{GeneratedIsRead, GeneratedIsShort};

/// A generated capture is read as the packets that were generated, without fault.
pub fn generated_captures_are_read()
    ensures { GeneratedIsRead }
{}

/// A generated capture has at most 1,516 bytes for each packet, and its head.
pub fn generated_captures_are_short()
    ensures { GeneratedIsShort }
{}
