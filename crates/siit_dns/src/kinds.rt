//! The types of resource records by their numbers, and the class of the Internet.

/// An IPv4 address (RFC 1035 section 3.4.1).
pub const A: u16 = 1;

/// A name server (RFC 1035 section 3.3.11).
pub const NS: u16 = 2;

/// A canonical name (RFC 1035 section 3.3.1).
pub const CNAME: u16 = 5;

/// The start of a zone of authority (RFC 1035 section 3.3.13).
pub const SOA: u16 = 6;

/// A pointer to another name (RFC 1035 section 3.3.12).
pub const PTR: u16 = 12;

/// A mail exchange (RFC 1035 section 3.3.9).
pub const MX: u16 = 15;

/// An IPv6 address (RFC 3596 section 2.1).
pub const AAAA: u16 = 28;

/// The class of the Internet (RFC 1035 section 3.2.4).
pub const IN: u16 = 1;
