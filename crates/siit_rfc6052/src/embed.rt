//! A prefix under which addresses are embedded (RFC 6052 section 2.2).
ghost use Rattle.std.specs.Prelude.{◌≡◌, IfOk, IsTrue, option_map};
ghost use Rattle.std.specs.Result.{result_err};
ghost use Rattle.siit_rfc6052.specs.Embedding.{embedded, extracted, is_embedding_prefix, is_well_known, well_known};

use siit_addr::{Addr4, Addr6, Prefix6};
use std::marker::Model;
use thiserror::Error;

/// Why a prefix isn't accepted (RFC 6052 section 2.2).
#[derive(Clone, Copy, Debug, PartialEq, Eq, Error)]
pub enum EmbedFault {
    /// The length isn't 32, 40, 48, 56, 64 or 96.
    #[error("a length other than 32, 40, 48, 56, 64 and 96")]
    BadLength,
    /// A bit past the length is set.
    #[error("a bit past the length is set")]
    HostBits,
    /// Byte 8 (bits 64 to 71) isn't zero.
    #[error("bits 64 to 71 are not zero")]
    NonZeroU,
}

/// The address of the well-known prefix 64:ff9b::/96 (RFC 6052 section 2.1).
const WELL_KNOWN: u128 = 0x64ff9b << 96;

/// A prefix under which IPv4 addresses are embedded.
#[derive(Clone, Copy, Debug)]
pub struct Embed {
    prefix: Prefix6,
}

impl Model for Embed {
    ghost use Rattle.std.specs.Prelude.{IsTrue};
    ghost use Rattle.siit_addr.specs.declared.addr.Prefix6.{Prefix6};
    ghost use Rattle.siit_rfc6052.specs.Embedding.{is_embedding_prefix};

    ghost Value = { Prefix6 };

    ghost view = { λ e. e.prefix };

    ghost invariant = { λ e. IsTrue (is_embedding_prefix e.prefix.len e.prefix.addr.0) };

    ghost inverse = { λ p. record { prefix = p } };
}

impl Embed {
    ghost use Rattle.siit_rfc6052.specs.Faults.{embed_fault};

    /// Accepts a prefix, or says why it isn't one of RFC 6052 section 2.2: the first fault in the order of
    /// [`EmbedFault`].
    pub fn new(prefix: Prefix6) -> Result<Embed, EmbedFault>
        ensures accepted { IfOk result (λ e. e ≡ prefix) }
        ensures refused { result_err result ≡ embed_fault prefix.len prefix.addr.0 }
    {
        if !matches!(prefix.len, 32 | 40 | 48 | 56 | 64 | 96) {
            return Err(EmbedFault::BadLength);
        }
        if !prefix.is_clean() {
            return Err(EmbedFault::HostBits);
        }
        if (prefix.addr.0 >> 56) % 256 != 0 {
            return Err(EmbedFault::NonZeroU);
        }
        Ok(Embed { prefix })
    }

    /// The well-known prefix 64:ff9b::/96 (RFC 6052 section 2.1).
    pub fn well_known() -> Embed
        ensures length { result.len ≡ 96 }
        ensures address { result.addr.0 ≡ well_known }
    {
        Embed {
            prefix: Prefix6 {
                addr: Addr6(WELL_KNOWN),
                len: 96,
            },
        }
    }

    /// The prefix that was accepted.
    pub fn prefix(&self) -> Prefix6
        ensures value { result ≡ self.now }
        ensures accepted { IsTrue (is_embedding_prefix result.len result.addr.0) }
    {
        self.prefix
    }

    /// Whether it is the well-known prefix 64:ff9b::/96 (RFC 6052 section 2.1).
    pub fn is_well_known(&self) -> bool
        ensures { result ≡ is_well_known self.now }
    {
        self.prefix.len == 96 && self.prefix.addr.0 == WELL_KNOWN
    }

    /// The IPv6 address that holds this IPv4 address: its octets follow the prefix, byte 8 (bits 64 to 71) holds none,
    /// and all other bits past the prefix are zero (RFC 6052 section 2.2).
    pub fn embed(&self, a: Addr4) -> Addr6
        ensures { result.0 ≡ embedded self.now.len self.now.addr.0 a.0 }
    {
        let a = u128::from(a.0);
        // Octets before byte 8, and those behind it.
        let octets = match self.prefix.len {
            32 => a << 64,
            40 => ((a >> 8) << 64) + (a % (1 << 8) << 48),
            48 => ((a >> 16) << 64) + (a % (1 << 16) << 40),
            56 => ((a >> 24) << 64) + (a % (1 << 24) << 32),
            64 => a << 24,
            _ => a,
        };
        Addr6(self.prefix.addr.0 + octets)
    }

    /// The IPv4 address inside an IPv6 address, or `None` where the prefix doesn't hold it (RFC 6052 section 2.2).
    /// Bytes that hold neither the prefix nor an octet aren't read.
    pub fn extract(&self, x: Addr6) -> Option<Addr4>
        ensures { option_map (λ a. a.0) result ≡ extracted self.now.len self.now.addr.0 x.0 }
    {
        if !self.prefix.holds(x) {
            return None;
        }
        // Bits before byte 8, and those behind it.
        let before = (x.0 >> 64) % (1 << 32);
        let behind = x.0 % (1 << 56);
        let a = match self.prefix.len {
            32 => before,
            40 => (before % (1 << 24) << 8) + (behind >> 48),
            48 => (before % (1 << 16) << 16) + (behind >> 40),
            56 => (before % (1 << 8) << 24) + (behind >> 32),
            64 => behind >> 24,
            _ => x.0 % (1 << 32),
        };
        Some(Addr4(a as u32))
    }
}

#[cfg(test)]
mod tests {
    use super::*;

    fn prefix(addr: u128, len: u8) -> Prefix6 {
        Prefix6 {
            addr: Addr6(addr),
            len: len.min(128),
        }
    }

    #[test]
    fn refuses_prefixes(rt: HostRuntime) {
        let rows = [
            (
                0x2001_0db8_0000_0000_0000_0000_0000_0000,
                44,
                EmbedFault::BadLength,
            ),
            (
                0x2001_0db8_0000_0000_0000_0000_0000_0001,
                96,
                EmbedFault::HostBits,
            ),
            (
                0x2001_0db8_0000_0000_0100_0000_0000_0000,
                96,
                EmbedFault::NonZeroU,
            ),
        ];
        for (addr, len, fault) in rows {
            assert!(rt; matches!(Embed::new(prefix(addr, len)), Err(found) if found == fault));
        }
    }

    #[test]
    fn embeds_and_extracts(rt: HostRuntime) {
        let rows = [
            (
                0x2001_0db8_0000_0000_0000_0000_0000_0000,
                32,
                0x2001_0db8_c000_0221_0000_0000_0000_0000,
            ),
            (
                0x2001_0db8_0100_0000_0000_0000_0000_0000,
                40,
                0x2001_0db8_01c0_0002_0021_0000_0000_0000,
            ),
            (
                0x2001_0db8_0122_0000_0000_0000_0000_0000,
                48,
                0x2001_0db8_0122_c000_0002_2100_0000_0000,
            ),
            (
                0x2001_0db8_0122_0300_0000_0000_0000_0000,
                56,
                0x2001_0db8_0122_03c0_0000_0221_0000_0000,
            ),
            (
                0x2001_0db8_0122_0344_0000_0000_0000_0000,
                64,
                0x2001_0db8_0122_0344_00c0_0002_2100_0000,
            ),
            (
                0x2001_0db8_0122_0344_0000_0000_0000_0000,
                96,
                0x2001_0db8_0122_0344_0000_0000_c000_0221,
            ),
        ];
        let a = Addr4(0xc000_0221);
        for (addr, len, x) in rows {
            let embed = Embed::new(prefix(addr, len)).expect(&rt, "an accepted prefix");
            assert_eq!(rt; embed.embed(a), Addr6(x));
            assert_eq!(rt; embed.extract(Addr6(x)), Some(a));
            assert!(rt; embed.extract(Addr6(x ^ (1 << 127))).is_none());
            assert!(rt; !embed.is_well_known());
        }
        let well_known = Embed::new(prefix(0x64ff9b << 96, 96)).expect(
            &rt,
            "the well-known prefix",
        );
        assert!(rt; well_known.is_well_known());
        assert_eq!(rt; Embed::well_known().prefix(), well_known.prefix());
    }
}
