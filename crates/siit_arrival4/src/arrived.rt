//! What is known of an IPv4 packet that no rule drops, for those who translate it.
use siit_addr::{Addresses4, Addresses6};
use siit_icmp::NewKind;

/// An IPv4 packet that no rule drops.
#[derive(Clone, Copy, Debug, PartialEq, Eq)]
pub struct Arrived4 {
    /// The length of its header in bytes, 20 to 60.
    pub header_len: u16,
    /// Its total length in bytes, of at least the header's.
    pub total: u16,
    /// Its addresses.
    pub old: Addresses4,
    /// The IPv6 addresses that the device gives them.
    pub new: Addresses6,
    /// Its protocol.
    pub protocol: u8,
    /// What becomes of its upper part.
    pub upper: Upper4,
}

/// What becomes of an upper part.
#[derive(Clone, Copy, Debug, PartialEq, Eq)]
pub enum Upper4 {
    /// Its checksum is moved, or it stays.
    Moved,
    /// It is a whole UDP datagram without checksum, which is computed.
    Bare,
    /// It is an ICMP error, which is translated with its quote.
    Error(Error4),
}

/// An ICMP error whose quote is accepted.
#[derive(Clone, Copy, Debug, PartialEq, Eq)]
pub struct Error4 {
    /// Its type and code on the other side, and what bytes 4 to 7 say there.
    pub new: NewKind,
    /// The IPv6 addresses that the device gives those of the quote.
    pub quote: Addresses6,
}
