//! Laws of captures and worked examples, each the contract of a function with no body.
ghost use Rattle.siit_capture.specs.Examples.{EndExamples, EthernetExamples, FaultExamples};
ghost use Rattle.siit_capture.specs.Examples.{FormExamples, PacketExamples};
ghost use Rattle.siit_capture.specs.Histories.{GivenAreAll, GivenAreFirst};
ghost use Rattle.siit_capture.specs.Laws.{WrittenIsReadAgain};

/// After any pieces, the records given are the first ones of all bytes fed, whatever follows them.
pub fn given_records_are_the_first()
    ensures { GivenAreFirst }
{}

/// After any pieces, a reader that waits for bytes has given all records that are whole in the bytes fed.
pub fn given_records_are_all()
    ensures { GivenAreAll }
{}

/// What is written of any list of records is read again as that list, without fault.
pub fn written_captures_are_read_again()
    ensures { WrittenIsReadAgain }
{}

/// An Ethernet capture as tcpdump writes it: an ARP frame, a frame with a VLAN tag, a padded one and one of IPv6.
#[tactic(auto, unfolding(crate::specs::Captures::records_from))]
pub fn ethernet_captures_are_read()
    ensures { EthernetExamples }
{}

/// Packets of records: tags, frames that end early, records without link header.
pub fn packets_are_found()
    ensures { PacketExamples }
{}

/// Either byte order and resolution.
#[tactic(auto, unfolding(crate::specs::Captures::records_from))]
pub fn forms_are_read()
    ensures { FormExamples }
{}

/// Captures that end early, or hold nothing.
#[tactic(auto, unfolding(crate::specs::Captures::records_from))]
pub fn ends_are_read()
    ensures { EndExamples }
{}

/// Each fault at its place.
#[tactic(auto, unfolding(crate::specs::Captures::records_from))]
pub fn faults_are_read()
    ensures { FaultExamples }
{}
