//! The parts of TCP segments, UDP datagrams and ICMP messages, lent to be written where they lie.
ghost use Rattle.std.specs.Prelude.{◌≡◌, ◌↔◌, ◌<◌, length, take, drop, IsNone, IfSome};
ghost use Rattle.std.specs.Borrow.{sem};
ghost use Rattle.siit_model.specs.Checksum as model;
ghost use Rattle.siit_upper.specs.Parts.{LendsIcmp, LendsTcp, LendsUdp};

use crate::protocols::{ICMP, ICMPV6, TCP, UDP};

/// The parts of a TCP segment, to be written where they lie (RFC 793 section 3.1).
#[derive(Drop)]
pub struct TcpView<'a> {
    /// The first 20 bytes.
    pub head: &'a mut [u8],
    /// The options and the data.
    pub rest: &'a mut [u8],
}

/// The parts of a TCP segment, None exactly below 20 bytes. What is written through them is in `part` afterwards.
pub fn tcp_view(part: &mut [u8]) -> Option<TcpView<'_>>
    ensures* writes_back { sem 𝓛 (LendsTcp part.entry result) }
    ensures none { IsNone result ↔ (length part.old < 20) }
    ensures head { IfSome result (λ view. view.head.now ≡ take 20 part.old) }
    ensures rest { IfSome result (λ view. view.rest.now ≡ drop 20 part.old) }
{
    if part.len() < 20 {
        return None;
    }
    let (head, rest) = part.split_at_mut(20);
    Some(TcpView { head, rest })
}

/// The parts of a UDP datagram, to be written where they lie (RFC 768).
#[derive(Drop)]
pub struct UdpView<'a> {
    /// The first 8 bytes.
    pub head: &'a mut [u8],
    /// The data.
    pub rest: &'a mut [u8],
}

/// The parts of a UDP datagram, None exactly below 8 bytes. What is written through them is in `part` afterwards.
pub fn udp_view(part: &mut [u8]) -> Option<UdpView<'_>>
    ensures* writes_back { sem 𝓛 (LendsUdp part.entry result) }
    ensures none { IsNone result ↔ (length part.old < 8) }
    ensures head { IfSome result (λ view. view.head.now ≡ take 8 part.old) }
    ensures rest { IfSome result (λ view. view.rest.now ≡ drop 8 part.old) }
{
    if part.len() < 8 {
        return None;
    }
    let (head, rest) = part.split_at_mut(8);
    Some(UdpView { head, rest })
}

/// The parts of an ICMP message, to be written where they lie (RFC 792, RFC 4443).
#[derive(Drop)]
pub struct IcmpView<'a> {
    /// The first 8 bytes.
    pub head: &'a mut [u8],
    /// What follows the first 8 bytes: the quote of an error, the data of an echo.
    pub rest: &'a mut [u8],
}

/// The parts of an ICMP message, None exactly below 8 bytes. What is written through them is in `part` afterwards.
pub fn icmp_view(part: &mut [u8]) -> Option<IcmpView<'_>>
    ensures* writes_back { sem 𝓛 (LendsIcmp part.entry result) }
    ensures none { IsNone result ↔ (length part.old < 8) }
    ensures head { IfSome result (λ view. view.head.now ≡ take 8 part.old) }
    ensures rest { IfSome result (λ view. view.rest.now ≡ drop 8 part.old) }
{
    if part.len() < 8 {
        return None;
    }
    let (head, rest) = part.split_at_mut(8);
    Some(IcmpView { head, rest })
}

/// Where the checksum stands in an upper part of this protocol: ICMP and ICMPv6 2, TCP 16, UDP 6. None for all others.
pub fn checksum_place(protocol: u8) -> Option<usize>
    ensures { result ≡ model.checksum_place protocol }
{
    match protocol {
        ICMP | ICMPV6 => Some(2),
        TCP => Some(16),
        UDP => Some(6),
        _ => None,
    }
}

#[cfg(test)]
mod tests {
    use super::*;

    #[test]
    fn what_is_written_through_the_parts_is_in_the_whole(rt: HostRuntime) {
        let mut part = [0u8; 21];
        if let Some(view) = tcp_view(&mut part) {
            view.head[19] = 7;
            view.rest[0] = 9;
        }
        assert_eq!(rt; [part[18], part[19], part[20]], [0, 7, 9]);
        let mut short = [0u8; 7];
        assert!(rt; udp_view(&mut short).is_none());
        assert!(rt; icmp_view(&mut short).is_none());
    }
}
