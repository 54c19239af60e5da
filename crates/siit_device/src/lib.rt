//! What one device does with one packet, as definitions: the rules in their order, the packet that is sent, the answer
//! to a packet that is dropped. They run nowhere: contracts of the crates above cite them. The worked examples are the
//! contracts of functions with no body.
#![tactic(auto)]

mod laws;

ghost use Rattle.siit_device.specs.Examples.{BareUdpExamples, ErrorExamples, RuleExamples, SizeExamples, TcpExamples};
ghost use Rattle.siit_device.specs.HairpinExamples.{HairpinExamples};

/// The worked packets: TCP through a border and an edge, with a right and with a wrong checksum; UDP without checksum,
/// under both settings and in fragments; a packet that is cut, and one that is too big; ICMP errors with their quotes
/// and an extension, and refused ones; source routes, a Routing header, a protocol that clashes, a private source;
/// three packets between two hosts behind one border.
#[tactic(auto, unfolding(crate::specs::Outcome::outcome4, crate::specs::Outcome::outcome6, crate::specs::Rules4::first_rule4, crate::specs::Rules4::packet_rule4, crate::specs::Rules4::bytes_rows4, crate::specs::Rules4::header_rows4, crate::specs::Rules4::upper_rows4, crate::specs::Rules4::address_rows4, crate::specs::Rules4::quote_rows4, crate::specs::Rules4::size_rows4, crate::specs::Rules6::first_rule6, crate::specs::Rules6::bytes_rows6, crate::specs::Rules6::header_rows6, crate::specs::Rules6::walk_rows6, crate::specs::Rules6::upper_rows6, crate::specs::Rules6::address_rows6, crate::specs::Rules6::quote_rows6, crate::specs::Rules6::size_rows6, crate::specs::Rules6::arrived_rule6, crate::specs::Forward::error_to_6, crate::specs::Backward::error_to_4, crate::specs::Turned::error_turned, siit_quoted::specs::Quotes::quote_to_6, siit_quoted::specs::Quotes::quote_to_4, siit_quoted::specs::Quotes::quote_turned))]
pub fn worked_packets()
    ensures tcp { TcpExamples }
    ensures bare_udp { BareUdpExamples }
    ensures sizes { SizeExamples }
    ensures errors { ErrorExamples }
    ensures rules { RuleExamples }
    ensures hairpin { HairpinExamples }
{}
