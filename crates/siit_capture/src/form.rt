//! The forms of classic captures, and their faults.

/// Why bytes are no capture.
#[derive(Clone, Copy, Debug, PartialEq, Eq)]
pub enum CaptureFault {
    /// The first four bytes are no magic number.
    BadMagic,
    /// The version isn't 2.4.
    BadVersion,
    /// The link type isn't one that is read.
    BadLinkType,
    /// A record has more than 262,144 captured bytes.
    RecordTooLong,
    /// The fraction of a time is a second or more.
    BadTime,
    /// The bytes end within the head or within a record.
    CutRecord,
}

/// What the packets of a capture begin with, by the registry of link types.
#[derive(Clone, Copy, Debug, PartialEq, Eq)]
pub enum LinkType {
    /// 1: Ethernet frames.
    Ethernet,
    /// 101: IP packets of either version.
    Raw,
    /// 228: IPv4 packets.
    Ipv4,
    /// 229: IPv6 packets.
    Ipv6,
}

/// The order of the bytes of a number.
#[derive(Clone, Copy)]
pub(crate) enum Endian {
    Big,
    Little,
}

/// The unit in which fractions of a second are counted.
#[derive(Clone, Copy)]
pub(crate) enum Resolution {
    Microseconds,
    Nanoseconds,
}

/// What the magic number tells.
#[derive(Clone, Copy)]
pub(crate) struct Magic {
    pub endian: Endian,
    pub resolution: Resolution,
}

/// What the head of a capture tells of its records.
#[derive(Clone, Copy)]
pub(crate) struct Form {
    pub magic: Magic,
    pub link: LinkType,
}
