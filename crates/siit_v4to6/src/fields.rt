//! The fields of a header that the old header doesn't give.
use siit_addr::Addr6;

/// What an IPv6 header says that the IPv4 header doesn't.
#[derive(Clone, Copy, Debug, PartialEq, Eq)]
pub struct Head46 {
    /// The source address.
    pub src: Addr6,
    /// The destination address.
    pub dst: Addr6,
    /// The traffic class.
    pub class: u8,
    /// Whether a packet that is no fragment gets a Fragment header too, as one that is cut afterwards.
    pub fragment: bool,
}
