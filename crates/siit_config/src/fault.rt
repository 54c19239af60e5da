//! The faults of a configuration.
ghost use Rattle.std.specs.Prelude.{◌≡◌};

use arrayvec::ArrayString;
use siit_eamt::EamFault;
use std::alloc::{AllocError, AllocFailed};

/// Why a text is no configuration. Devices are counted from 1; 0 is the top level.
#[derive(Clone, Copy, Debug, PartialEq, Eq)]
pub enum ConfigFault {
    /// The bytes are no TOML document.
    NotToml,
    /// A key that must be there isn't.
    Missing { device: u8, key: ArrayString<64> },
    /// The key's value is of another TOML type.
    WrongKind { device: u8, key: ArrayString<64> },
    /// The key's value isn't accepted.
    BadValue { device: u8, key: ArrayString<64> },
    /// There is no such key. Of a longer key the first 64 bytes are kept, cut at a character.
    Unknown { device: u8, key: ArrayString<64> },
    /// There are no devices, or more than 8.
    ChainLength,
    /// `lowest_mtu6` is above `mtu6`.
    MtuOrder { device: u8 },
    /// A text of this entry of `eam`, counted from 0, is no prefix.
    BadEam { device: u8, entry: u32 },
    /// The entries of `eam` are no table. The fault is never `NoMemory`.
    Eam { device: u8, fault: EamFault },
    /// A symmetric configuration whose prefixes overlap.
    NotSymmetric { device: u8 },
    /// Memory was refused.
    NoMemory,
}

impl From<AllocError> for ConfigFault {
    ghost use Rattle.siit_config.specs.declared.fault.ConfigFault.TheVariants.{NoMemory};

    ghost from_gives = { λ _ e. e ≡ NoMemory };

    fn from(_error: AllocError) -> ConfigFault {
        ConfigFault::NoMemory
    }
}

impl<T: Drop> From<AllocFailed<T>> for ConfigFault {
    ghost use Rattle.siit_config.specs.declared.fault.ConfigFault.TheVariants.{NoMemory};

    ghost from_gives = { λ _ e. e ≡ NoMemory };

    fn from(_error: AllocFailed<T>) -> ConfigFault {
        ConfigFault::NoMemory
    }
}
