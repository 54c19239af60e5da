//! What becomes of an upper part, as far as it is known before a quote is looked at.
use siit_icmp::NewKind;

/// What becomes of an upper part, a quote not being looked at.
#[derive(Clone, Copy, Debug, PartialEq, Eq)]
pub(crate) enum Kind4 {
    /// Its checksum is moved, or it stays.
    Moved,
    /// It is a whole UDP datagram without checksum.
    Bare,
    /// It is an ICMP error with this type and code on the other side.
    Error(NewKind),
}
