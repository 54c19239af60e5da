//! The laws, each the contract of a function with no body.
ghost use Rattle.siit_cutting.specs.Laws.{CuttingCommutesTo4, CuttingCommutesTo6};

/// What a device gives to IPv6 for the fragments of a datagram covers the translated datagram. There is nothing to run.
pub fn cutting_commutes_to_6()
    ensures { CuttingCommutesTo6 }
{}

/// What a device gives to IPv4 for the fragments of a datagram covers the translated datagram. There is nothing to run.
pub fn cutting_commutes_to_4()
    ensures { CuttingCommutesTo4 }
{}
