//! The laws, each the contract of a function with no body.
ghost use Rattle.siit_chain.specs.Laws.{OnChains};
ghost use Rattle.siit_crossing.specs.Laws.{EachRecordIsCarried, FinishedRunsCarryAll, NoneTurnsInPairs, NumbersAreComing, PacketsCrossBoth, UnnamedRecordsCrossBoth};
ghost use Rattle.siit_crossing.specs.Sent.{DevicesSendTo4, DevicesSendTo6, PairsAloneTurn};

use siit_arrival4::rules_leave4;
use siit_arrival6::rules_leave6;
use siit_chain::Device;

/// All that a finished run writes of a record is what carrying the record writes. There is nothing to run.
pub fn each_record_is_carried<D: Device>()
    ensures { OnChains D.outcome D.measure EachRecordIsCarried }
{}

/// A finished run has carried every record of both captures, each capture in its order. There is nothing to run.
pub fn finished_runs_carry_all<D: Device>()
    ensures { OnChains D.outcome D.measure FinishedRunsCarryAll }
{}

/// The numbers that devices are handed in a run are those that were to come at first, in their order. There is nothing
/// to run.
pub fn numbers_are_coming<D: Device>()
    ensures { OnChains D.outcome D.measure NumbersAreComing }
{}

/// A device sends to IPv6 what the translation gives, of a packet which no rule drops. There is nothing to run.
pub fn devices_send_to_6()
    ensures { DevicesSendTo6 }
{}

/// A device sends to IPv4 what the translation gives, of a packet which no rule drops and which has no pair to go back
/// by. There is nothing to run.
pub fn devices_send_to_4()
    ensures { DevicesSendTo4 }
{}

/// A device sends back only IPv6 packets for whose addresses its table has a pair. There is nothing to run.
pub fn pairs_alone_turn()
    ensures { PairsAloneTurn }
{}

/// A packet that enters a chain of two devices between IPv4 links, and of which no drop is written, leaves at the far
/// end as what the second device gives for the packets that the first gives for it. There is nothing to run.
pub fn packets_cross_both()
    ensures { PacketsCrossBoth }
{
    rules_leave4();
    rules_leave6();
}

/// Records of one capture that no drop of a finished run names: what is written of them leaves at the far end, and is
/// what both devices make of their packets. There is nothing to run.
pub fn records_cross_both()
    ensures { UnnamedRecordsCrossBoth }
{
    rules_leave4();
    rules_leave6();
}

/// Of two devices with one table, the second turns none of the packets that the first makes of a packet whose
/// destination maps back. There is nothing to run.
pub fn none_turns_in_pairs()
    ensures { NoneTurnsInPairs }
{}
