//! Residues of bytes (RFC 1071), checksums that are moved by a difference (RFC 1624), and the laws of both.
#![tactic(auto)]

ghost use Rattle.std.specs.Prelude.{◌≡◌, ◌<◌};
ghost use Rattle.siit_model.specs.Checksum.{moved, moved_udp, residue};

mod laws;
mod pseudo;

pub use laws::{
    changed_part_residue, changed_word_residue, cut_residue, joined_residue, moved_and_back,
    moved_between_keeps_residue, moved_by_difference, moved_in_turn, moved_udp_and_back,
    moved_udp_between_keeps_residue, only_differences_count,
};
pub use pseudo::{pseudo_sum4, pseudo_sum6};

/// The sum from which on `sum_of` takes its remainder: so high that packets don't come to it, and a word fits above it.
const FULL: u64 = 0xffff_ffff_ffff;

/// The residue of bytes: the sum of their 16-bit words modulo 65535, an odd last byte being padded with zero (RFC 1071
/// section 1). It is below 65535.
pub fn sum_of(bytes: &[u8]) -> u16
    ensures value { result ≡ residue bytes.now }
    ensures below { result < 65535 }
{
    let mut sum = 0u64;
    let mut rest = bytes;
    while let [high, low, tail @ ..] = rest {
        sum += u64::from(*high) * 256 + u64::from(*low);
        if sum > FULL {
            sum %= 65535;
        }
        rest = tail;
    }
    if let [last] = rest {
        sum += u64::from(*last) * 256;
    }
    (sum % 65535) as u16
}

/// The checksum `old` after its data changed from residue `out_sum` to residue `in_sum` (RFC 1624), as TCP and ICMP
/// write it: the number below 65535 with the residue of `old + out_sum - in_sum`. A checksum that was wrong stays
/// wrong.
pub fn shift(old: u16, out_sum: u16, in_sum: u16) -> u16
    ensures value { result ≡ moved old out_sum in_sum }
    ensures below { result < 65535 }
{
    ((u32::from(old) + u32::from(out_sum) + (65535 - u32::from(in_sum))) % 65535) as u16
}

/// The checksum `old` moved likewise, as UDP writes it (RFC 768): 65535 in place of 0, so that it is in 1 to 65535.
pub fn shift_udp(old: u16, out_sum: u16, in_sum: u16) -> u16
    ensures value { result ≡ moved_udp old out_sum in_sum }
    ensures above { 0 < result }
{
    match shift(old, out_sum, in_sum) {
        0 => u16::MAX,
        checksum => checksum,
    }
}

#[cfg(test)]
mod tests {
    use super::*;

    #[test]
    fn a_right_header_has_no_residue(rt: HostRuntime) {
        let header = [
            0x45, 0, 0, 0x28, 0, 1, 0, 0, 0x40, 6, 0x68, 0xbe, 8, 8, 8, 8, 1, 1, 1, 1,
        ];
        assert_eq!(rt; sum_of(&header), 0);
    }

    #[test]
    fn all_ones_become_zero_but_for_udp(rt: HostRuntime) {
        assert_eq!(rt; shift(0xffff, 7, 7), 0);
        assert_eq!(rt; shift_udp(0xffff, 7, 7), 0xffff);
    }
}
