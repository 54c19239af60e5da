//! Laws of packets on their way to IPv4, each the contract of a function with no body.
ghost use Rattle.siit_v6to4.specs.Laws.{FragmentIsRead4, MadeIsGood4, ResidueStaysTo4, ResidueStaysTurned, TranslatedIsGood4, WrittenAsIsRead4, WrittenIsRead4};

/// The written form of an IPv4 packet with a total length that is told is read as that packet (RFC 791 section 3.1).
pub fn written_as_is_read4()
    ensures { WrittenAsIsRead4 }
{}

/// The written form of a good IPv4 packet is read as that packet.
pub fn written_is_read4()
    ensures { WrittenIsRead4 }
{}

/// A fragment is read in the IPv4 packet that is made of it.
pub fn fragment_is_read4()
    ensures { FragmentIsRead4 }
{}

/// The IPv4 packet of a fragment whose fields have room is good.
pub fn made_is_good4()
    ensures { MadeIsGood4 }
{}

/// The translated packet of a good IPv6 packet, whose IPv4 form has at most 65,535 bytes, is a good IPv4 packet.
pub fn translated_is_good4()
    ensures { TranslatedIsGood4 }
{}

/// The residue of pseudo-header and upper part is the same before and after.
pub fn residue_stays_to_4()
    ensures { ResidueStaysTo4 }
{}

/// The same of a packet that is turned.
pub fn residue_stays_turned()
    ensures { ResidueStaysTurned }
{}
