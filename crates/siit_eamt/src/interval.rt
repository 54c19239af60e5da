//! Addresses that have the same entry.

/// An interval of addresses, which ends where the next one begins.
#[derive(Clone, Copy)]
pub(crate) struct Interval {
    /// Its first address.
    pub(crate) first: u128,
    /// The place of the entry that its addresses have.
    pub(crate) place: Option<u32>,
}
