//! Transport checksums that are moved with the pseudo-header that they count (RFC 1624).
ghost use Rattle.siit_upper.specs.Moves.{echo_moved, icmp_moved, tcp_moved, udp_moved};
ghost use Rattle.std.specs.Prelude.{◌≡◌, ◌≤◌, length};

use siit_checksum::{shift, shift_udp};
use siit_word::{get16, put16};

/// Moves the checksum of a TCP segment (RFC 793 section 3.1) from the residue `out_sum` of its old pseudo-header to the
/// residue `in_sum` of its new one. The segment may be cut: one that hasn't the whole checksum stays.
pub fn move_tcp(part: &mut [u8], out_sum: u16, in_sum: u16)
    ensures { part.new ≡ tcp_moved out_sum in_sum part.old }
{
    if part.len() < 18 {
        return;
    }
    let checksum = get16(part, 16);
    put16(part, 16, shift(checksum, out_sum, in_sum));
}

/// Moves the checksum of a UDP datagram (RFC 768) likewise. A checksum of 0, which says that there is none, stays.
pub fn move_udp(part: &mut [u8], out_sum: u16, in_sum: u16)
    ensures { part.new ≡ udp_moved out_sum in_sum part.old }
{
    if part.len() < 8 {
        return;
    }
    let checksum = get16(part, 6);
    if checksum == 0 {
        return;
    }
    put16(part, 6, shift_udp(checksum, out_sum, in_sum));
}

/// Gives an ICMP echo message (RFC 792, RFC 4443 section 4) another type, and moves its checksum likewise, by the type
/// too. At least the type is in the part. ICMPv4 has no pseudo-header: its residue is 0.
pub fn move_echo(part: &mut [u8], kind: u8, out_sum: u16, in_sum: u16)
    requires { 1 ≤ length part.old }
    ensures { part.new ≡ echo_moved kind out_sum in_sum part.old }
{
    if part.len() < 4 {
        part[0] = kind;
        return;
    }
    let checksum = get16(part, 2);
    let old_kind = get16(part, 0);
    part[0] = kind;
    let new_kind = get16(part, 0);
    let turned = shift(checksum, old_kind, new_kind);
    put16(part, 2, shift(turned, out_sum, in_sum));
}

/// Moves the checksum of an ICMPv6 message whose type stays (RFC 4443 section 2.3) likewise.
pub fn move_icmp(part: &mut [u8], out_sum: u16, in_sum: u16)
    ensures { part.new ≡ icmp_moved out_sum in_sum part.old }
{
    if part.len() < 4 {
        return;
    }
    let checksum = get16(part, 2);
    put16(part, 2, shift(checksum, out_sum, in_sum));
}

#[cfg(test)]
mod tests {
    use super::*;

    #[test]
    fn a_checksum_of_all_ones_stays_for_udp_alone(rt: HostRuntime) {
        let mut segment = [0u8; 20];
        put16(&mut segment, 16, 0xffff);
        move_tcp(&mut segment, 7, 7);
        assert_eq!(rt; get16(&segment, 16), 0);
        let mut datagram = [0, 0, 0, 0, 0, 8, 0xff, 0xff];
        move_udp(&mut datagram, 7, 7);
        assert_eq!(rt; datagram, [0, 0, 0, 0, 0, 8, 0xff, 0xff]);
    }
}
