//! What is known of an IPv6 packet that no rule drops, for those who translate it or turn it back.
use siit_addr::{Addr4, Addresses4, Addresses6};
use siit_icmp::NewKind;
use siit_rules::Rule;
use siit_upper::Walk;

/// An IPv6 packet that no rule drops.
#[derive(Clone, Copy, Debug, PartialEq, Eq)]
pub struct Arrived6 {
    /// The walk over its extension headers.
    pub walk: Walk,
    /// Its payload length in bytes, extension headers among it.
    pub len: u16,
    /// Its addresses.
    pub old: Addresses6,
    /// Where it goes.
    pub way: Way6,
}

/// Where a packet goes.
#[derive(Clone, Copy, Debug, PartialEq, Eq)]
pub enum Way6 {
    /// To the IPv4 side, to this address. The source is none where an ICMPv6 error comes from an address without one,
    /// and the pool gives it.
    On {
        src: Option<Addr4>,
        dst: Addr4,
        error: Option<Error6>,
    },
    /// Back to the IPv6 side, between these addresses; those of an ICMPv6 error's quote are between the others.
    Back {
        new: Addresses6,
        quote: Option<Addresses6>,
    },
}

/// An ICMPv6 error whose quote is accepted, on its way to the IPv4 side.
#[derive(Clone, Copy, Debug, PartialEq, Eq)]
pub struct Error6 {
    /// Its type and code on the other side, and what bytes 4 to 7 say there.
    pub new: NewKind,
    /// The IPv4 addresses that the device gives those of the quote.
    pub quote: Addresses4,
}

/// The first rule that holds for an IPv6 packet.
#[derive(Clone, Copy, Debug, PartialEq, Eq)]
pub struct Refused6 {
    pub rule: Rule,
    /// The walk over its extension headers, none where it isn't accepted or isn't made.
    pub walk: Option<Walk>,
}
