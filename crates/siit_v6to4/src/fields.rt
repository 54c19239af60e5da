//! The fields of a header that the old header doesn't give.
use siit_addr::Addr4;

/// What an IPv4 header says that the IPv6 header doesn't.
#[derive(Clone, Copy, Debug, PartialEq, Eq)]
pub struct Head64 {
    /// The source address.
    pub src: Addr4,
    /// The destination address.
    pub dst: Addr4,
    /// The type of service.
    pub tos: u8,
    /// The identification, where the packet has no Fragment header.
    pub ident: u16,
}
