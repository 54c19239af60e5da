//! An entry of the table (RFC 7757 section 3), and what a look-up answers.
ghost use Rattle.std.specs.Prelude.{◌≡◌, ◌+◌, ◌-◌, true};

use siit_addr::{Addr4, Addr6, Prefix4, Prefix6};
use std::alloc::AllocError;

/// An explicit mapping between the addresses of two prefixes (RFC 7757 section 3.2).
#[derive(Clone, Copy, Debug, PartialEq, Eq)]
pub struct Eam {
    /// The IPv4 prefix.
    pub p4: Prefix4,
    /// The IPv6 prefix, behind which the bits past the IPv4 prefix follow.
    pub p6: Prefix6,
}

impl Eam {
    ghost use Rattle.siit_eamt.specs.Entries.{down, holds4, holds6, is_good, up};

    /// The IPv6 address of an IPv4 address that the entry holds (RFC 7757 section 3.3.1).
    pub(crate) fn up(&self, a: Addr4) -> Addr6
        requires good { is_good self.now ≡ true }
        requires held { holds4 a.0 self.now ≡ true }
        ensures { result.0 ≡ up self.now a.0 }
    {
        let Addr6(first) = self.p6.addr;
        let suffix = u128::from(a.0 - self.p4.addr.0);
        if suffix == 0 {
            return Addr6(first);
        }
        Addr6(first + (suffix << self.bits_behind()))
    }

    /// The IPv4 address of an IPv6 address that the entry holds (RFC 7757 section 3.3.2).
    pub(crate) fn down(&self, x: Addr6) -> Addr4
        requires good { is_good self.now ≡ true }
        requires held { holds6 x.0 self.now ≡ true }
        ensures { result.0 ≡ down self.now x.0 }
    {
        let Addr4(first) = self.p4.addr;
        let behind = self.bits_behind();
        if behind == 128 {
            return Addr4(first);
        }
        let suffix = (x.0 - self.p6.addr.0) >> behind;
        Addr4(first + suffix as u32)
    }

    /// How many bits of the IPv6 address stand behind the IPv4 suffix.
    fn bits_behind(&self) -> u32
        requires { is_good self.now ≡ true }
        ensures { result ≡ 96 + self.now.p4.len - self.now.p6.len }
    {
        u32::from(96 + self.p4.len - self.p6.len)
    }
}

/// Why entries are no table. Entries are named by their places, from 0.
#[derive(Clone, Copy, Debug, PartialEq, Eq)]
pub enum EamFault {
    /// There are more than 65,536 entries.
    TooMany,
    /// A prefix of this entry has a bit past its length.
    HostBits(u32),
    /// This entry's IPv4 suffix doesn't fit behind its IPv6 prefix.
    SuffixTooLong(u32),
    /// The first entry has the IPv4 prefix of the second, which is the least such place.
    Twice4(u32, u32),
    /// The first entry has the IPv6 prefix of the second, which is the least such place.
    Twice6(u32, u32),
    /// Memory was refused.
    NoMemory,
}

impl From<AllocError> for EamFault {
    ghost use Rattle.siit_eamt.specs.declared.entry.EamFault.TheVariants.{NoMemory};

    ghost from_gives = { λ _ e. e ≡ NoMemory };

    fn from(_error: AllocError) -> EamFault {
        EamFault::NoMemory
    }
}

/// The entry of an IPv4 address, by its place, and the IPv6 address.
#[derive(Clone, Copy, Debug, PartialEq, Eq)]
pub struct Hit6 {
    /// The entry's place, from 0.
    pub entry: u32,
    /// The address that the entry gives.
    pub address: Addr6,
}

/// The entry of an IPv6 address, by its place, and the IPv4 address.
#[derive(Clone, Copy, Debug, PartialEq, Eq)]
pub struct Hit4 {
    /// The entry's place, from 0.
    pub entry: u32,
    /// The address that the entry gives.
    pub address: Addr4,
}
