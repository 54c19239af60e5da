//! Laws of packets that are read, each the contract of a function with no body.
ghost use Rattle.siit_views.specs.Laws.{ReadIsGood4, ReadIsGood6};

/// An IPv4 packet that is read is good.
pub fn read_is_good4()
    ensures { ReadIsGood4 }
{}

/// An IPv6 packet that is read is good.
pub fn read_is_good6()
    ensures { ReadIsGood6 }
{}
