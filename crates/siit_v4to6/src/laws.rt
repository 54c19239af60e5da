//! Laws of packets on their way to IPv6, each the contract of a function with no body.
ghost use Rattle.siit_v4to6.specs.Laws.{MadeIsGood6, ResidueStaysTo6, TranslatedIsGood6, WrittenAsIsRead6, WrittenIsRead6};

/// The written form of an IPv6 packet with a payload length that is told is read as that packet (RFC 8200 section 3).
pub fn written_as_is_read6()
    ensures { WrittenAsIsRead6 }
{}

/// The written form of a good IPv6 packet is read as that packet.
pub fn written_is_read6()
    ensures { WrittenIsRead6 }
{}

/// The IPv6 packet of a fragment whose fields have room is good, with a Fragment header or without one.
pub fn made_is_good6()
    ensures { MadeIsGood6 }
{}

/// The translated packet of a good IPv4 packet is a good IPv6 packet.
pub fn translated_is_good6()
    ensures { TranslatedIsGood6 }
{}

/// The residue of pseudo-header and upper part is the same before and after.
pub fn residue_stays_to_6()
    ensures { ResidueStaysTo6 }
{}
