//! Laws of what comes of a packet, each the contract of a function with no body.
ghost use Rattle.siit_device.specs.Laws.{LivesAreBounded, WhatComesLivesLess};

/// Whatever comes of a packet at a device may live less long than it: fewer hops are left, and an error that answers it
/// is answered by none. There is nothing to run.
pub fn what_comes_lives_less()
    ensures { WhatComesLivesLess }
{}

/// A packet meets at most 319 devices, with all that comes of it. There is nothing to run.
pub fn lives_are_bounded()
    ensures { LivesAreBounded }
{}
