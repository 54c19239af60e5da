//! Laws of the walk over extension headers and of moved checksums, each the contract of a function with no body.
ghost use Rattle.siit_upper.specs.Laws.{EchoIsMovedBetween, FragmentHeaderIsRead, FragmentIsRead6, IcmpIsMovedBetween, PlainIsRead6, TcpIsMovedBetween, UdpIsMovedBetween, WalksHaveRoom};

/// A Fragment header that is written is read as its fields (RFC 8200 section 4.5).
pub fn fragment_header_is_read()
    ensures { FragmentHeaderIsRead }
{}

/// A fragment is read in the IPv6 packet that is made of it.
pub fn fragment_is_read6()
    ensures { FragmentIsRead6 }
{}

/// A packet without extension headers is read as the whole packet that it is.
pub fn plain_is_read6()
    ensures { PlainIsRead6 }
{}

/// What a walk over bytes finds has room in the fields of a header.
pub fn walks_have_room()
    ensures { WalksHaveRoom }
{}

/// The checksum of a TCP segment is moved by the one rule for moved checksums (RFC 1624).
pub fn tcp_is_moved_between()
    ensures { TcpIsMovedBetween }
{}

/// The checksum of a UDP datagram likewise.
pub fn udp_is_moved_between()
    ensures { UdpIsMovedBetween }
{}

/// The checksum of an ICMPv6 message whose type stays likewise.
pub fn icmp_is_moved_between()
    ensures { IcmpIsMovedBetween }
{}

/// The checksum of an ICMP echo message that gets another type likewise.
pub fn echo_is_moved_between()
    ensures { EchoIsMovedBetween }
{}
