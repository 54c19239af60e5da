//! The IP packet of a record, by its link type.
ghost use Rattle.std.specs.Prelude.{◌≡◌, MatchOption, drop};
ghost use Rattle.siit_capture.specs.LinkPackets.{ethernet_packet, is_tagged, packet_as, packet_of, raw_packet};
ghost use Rattle.siit_capture.specs.LinkPackets.{typed_packet, untagged};

use crate::form::LinkType;
use siit_rules::Family;
use siit_word::get16;

/// Where the ethertype of a frame stands, or its first tag: behind two addresses.
const ETHERTYPE: usize = 12;

/// The ethertype of IPv4 (RFC 894).
const IPV4: u16 = 0x0800;

/// The ethertype of IPv6 (RFC 2464).
const IPV6: u16 = 0x86dd;

/// The IP packet of a record of this link type.
pub(crate) fn packet_of(link: LinkType, bytes: &[u8]) -> Option<(Family, &[u8])>
    ensures { MatchOption result
        (packet_of link bytes.now ≡ None)
        (λ found. packet_of link bytes.now ≡ packet_as found.0 found.1.now) }
{
    match link {
        LinkType::Ethernet => ethernet_packet(bytes),
        LinkType::Raw => raw_packet(bytes),
        LinkType::Ipv4 if !bytes.is_empty() => Some((Family::Four, bytes)),
        LinkType::Ipv6 if !bytes.is_empty() => Some((Family::Six, bytes)),
        LinkType::Ipv4 | LinkType::Ipv6 => None,
    }
}

// The packet of an Ethernet frame.
fn ethernet_packet(frame: &[u8]) -> Option<(Family, &[u8])>
    ensures { MatchOption result
        (ethernet_packet frame.now ≡ None)
        (λ found. ethernet_packet frame.now ≡ packet_as found.0 found.1.now) }
{
    typed_packet(untagged(untagged(behind(frame, ETHERTYPE))))
}

// The packet behind an ethertype.
fn typed_packet(bytes: &[u8]) -> Option<(Family, &[u8])>
    ensures { MatchOption result
        (typed_packet bytes.now ≡ None)
        (λ found. typed_packet bytes.now ≡ packet_as found.0 found.1.now) }
{
    if bytes.len() < 2 {
        return None;
    }
    match get16(bytes, 0) {
        IPV4 => Some((Family::Four, &bytes[2..])),
        IPV6 => Some((Family::Six, &bytes[2..])),
        _ => None,
    }
}

// What stands behind a tag of four bytes, if one stands in front.
fn untagged(bytes: &[u8]) -> &[u8]
    ensures { result.now ≡ untagged bytes.now }
{
    if is_tagged(bytes) {
        behind(bytes, 4)
    } else {
        bytes
    }
}

// Whether a VLAN tag stands in front (IEEE 802.1Q, 802.1ad).
fn is_tagged(bytes: &[u8]) -> bool
    ensures { result ≡ is_tagged bytes.now }
{
    bytes.len() >= 2 && matches!(get16(bytes, 0), 0x8100 | 0x88a8)
}

// The packet of a record without link header, by its version.
fn raw_packet(bytes: &[u8]) -> Option<(Family, &[u8])>
    ensures { MatchOption result
        (raw_packet bytes.now ≡ None)
        (λ found. raw_packet bytes.now ≡ packet_as found.0 found.1.now) }
{
    match bytes.first()? / 16 {
        4 => Some((Family::Four, bytes)),
        6 => Some((Family::Six, bytes)),
        _ => None,
    }
}

// The bytes behind the first n, none where there are no more.
fn behind(bytes: &[u8], n: usize) -> &[u8]
    ensures { result.now ≡ drop n bytes.now }
{
    bytes.get(n..).unwrap_or(&[])
}
