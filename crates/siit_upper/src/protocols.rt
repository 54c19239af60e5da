//! The protocols of upper parts and the Fragment header, by the number that an IP header has for them.

/// ICMP in IPv4 (RFC 792).
pub const ICMP: u8 = 1;

/// TCP (RFC 793).
pub const TCP: u8 = 6;

/// UDP (RFC 768).
pub const UDP: u8 = 17;

/// ICMPv6 (RFC 4443).
pub const ICMPV6: u8 = 58;

/// The Fragment header of IPv6 (RFC 8200 section 4.5).
pub const FRAGMENT: u8 = 44;
