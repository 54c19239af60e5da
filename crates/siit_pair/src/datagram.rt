//! Whether a datagram came out of a pair as it went in.
ghost use Rattle.siit_model.specs.Ipv4.{ipv4_fields, total_length_in};
ghost use Rattle.siit_pair.specs.Same.{IsSame, has_same_payload, is_same_from, is_whole_packet, tos_behind};
ghost use Rattle.siit_roles.specs.Limits.{IsWithinLimits};
ghost use Rattle.siit_views.specs.Headers.{HasLengths4};
ghost use Rattle.std.specs.Prelude.{◌≡◌, ◌↔◌, ◌≤◌, All, IsTrue, IfSome, OnSome, is_some};

use crate::message::is_same_icmp;
use crate::pair::is_pair;
use crate::transport::{is_same_tcp, is_same_udp};
use siit_addr::Addresses4;
use siit_roles::{ChainSettings, Settings};
use siit_upper::{ICMP, TCP, UDP};
use siit_views::{Ipv4Header, PacketBuf, read4};

/// Whether these settings are a pair, and one whole IPv4 datagram is the other as it comes out of the pair's far end,
/// from either end: changed in no more than what the translation to IPv6 and back changes (RFC 7915). That is the TTL
/// by 2, the identification, Don't Fragment, the options, the lengths and the header checksum; the TOS octet where a
/// device writes 0; the spelling of a transport checksum, and that of UDP where there was none; and an ICMP error's
/// type, code, bytes 4 to 7, quote and extension.
///
/// Bytes that are no whole IPv4 packet are the same as nothing. Quotes are built in `work`, which may hold anything,
/// and nothing is said of what it holds afterwards.
pub fn same(settings: &ChainSettings, before: &[u8], after: &[u8], work: &mut PacketBuf) -> bool
    requires { All IsWithinLimits settings.now.devices }
    ensures { IsTrue result ↔ IsSame settings.now before.now after.now }
{
    if !is_pair(settings) {
        return false;
    }
    let [left, right] = settings.devices() else {
        return false;
    };
    let (Some(before), Some(after)) = (whole_packet(before), whole_packet(after)) else {
        return false;
    };
    is_same_from(left, right, &before, &after, work)
        || is_same_from(right, left, &before, &after, work)
}

/// The whole IPv4 packet in some bytes, and none where they are no packet or a fragment.
fn whole_packet(bytes: &[u8]) -> Option<Ipv4Header<'_>>
    ensures whole { is_some result ≡ is_whole_packet bytes.now }
    ensures bytes { IfSome result (λ header. header ≡ bytes.now) }
    ensures lengths { OnSome result (HasLengths4 bytes.now) }
    ensures most { OnSome result (total_length_in bytes.now ≤ 65535) }
{
    match read4(bytes) {
        Ok(header) if header.offset() == 0 && !header.mf() => Some(header),
        _ => None,
    }
}

/// Whether a datagram came out of the second device as it went into the first.
fn is_same_from(
    first: &Settings,
    second: &Settings,
    before: &Ipv4Header<'_>,
    after: &Ipv4Header<'_>,
    work: &mut PacketBuf,
) -> bool
    requires first { IsWithinLimits first.now }
    requires second { IsWithinLimits second.now }
    requires before { HasLengths4 before.now }
    requires after { HasLengths4 after.now }
    requires before_most { total_length_in before.now ≤ 65535 }
    requires after_most { total_length_in after.now ≤ 65535 }
    ensures { result ≡ is_same_from first.now second.now (ipv4_fields before.now) (ipv4_fields after.now) }
{
    after.options().is_empty()
        && u16::from(after.ttl()) + 2 == u16::from(before.ttl())
        && after.protocol() == before.protocol()
        && after.src() == before.src()
        && after.dst() == before.dst()
        && after.tos() == tos_behind(first, second, before.tos())
        && has_same_payload(first, second, before, after, work)
}

/// The TOS octet behind both devices.
fn tos_behind(first: &Settings, second: &Settings, tos: u8) -> u8
    ensures { result ≡ tos_behind first.now second.now tos }
{
    if first.tos_zero || second.tos_zero {
        0
    } else {
        tos
    }
}

/// Whether the payload came out as it went in.
fn has_same_payload(
    first: &Settings,
    second: &Settings,
    before: &Ipv4Header<'_>,
    after: &Ipv4Header<'_>,
    work: &mut PacketBuf,
) -> bool
    requires first { IsWithinLimits first.now }
    requires second { IsWithinLimits second.now }
    requires before { HasLengths4 before.now }
    requires after { HasLengths4 after.now }
    requires before_most { total_length_in before.now ≤ 65535 }
    requires after_most { total_length_in after.now ≤ 65535 }
    ensures { result ≡ has_same_payload first.now second.now (ipv4_fields before.now) (ipv4_fields after.now) }
{
    let old = before.payload();
    let new = after.payload();
    match before.protocol() {
        TCP => is_same_tcp(old, new),
        UDP => {
            let ends = Addresses4 {
                src: before.src(),
                dst: before.dst(),
            };
            is_same_udp(first, ends, old, new)
        }
        ICMP => is_same_icmp(first, second, old, new, work),
        _ => old == new,
    }
}
