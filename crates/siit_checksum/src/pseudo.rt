//! Residues of the pseudo-headers that TCP, UDP and ICMPv6 checksums count.
ghost use Rattle.std.specs.Prelude.{◌≡◌, ◌<◌};
ghost use Rattle.siit_model.specs.Checksum.{pseudo4, pseudo6};

/// The residue of the pseudo-header of IPv4 (RFC 793 section 3.1): addresses, protocol, and the length of the upper
/// part in bytes. It is below 65535.
pub fn pseudo_sum4(src: u32, dst: u32, protocol: u8, len: u16) -> u16
    ensures value { result ≡ pseudo4 src dst protocol len }
    ensures below { result < 65535 }
{
    let sum = u64::from(src) + u64::from(dst) + u64::from(protocol) + u64::from(len);
    (sum % 65535) as u16
}

/// The residue of the pseudo-header of IPv6 (RFC 8200 section 8.1): addresses, next header, and the length of the upper
/// part in bytes. It is below 65535.
pub fn pseudo_sum6(src: u128, dst: u128, protocol: u8, len: u32) -> u16
    ensures value { result ≡ pseudo6 src dst protocol len }
    ensures below { result < 65535 }
{
    // 65536 counts as 1, so that an address counts as its remainder.
    let sum = src % 65535 + dst % 65535 + u128::from(protocol) + u128::from(len);
    (sum % 65535) as u16
}
