//! The header that a quote gets on its way to IPv4 (RFC 7915 sections 5.1 and 5.3).
ghost use Rattle.siit_model.specs.Bytes.{flag_bit};
ghost use Rattle.siit_model.specs.Ipv6.{ipv6_fields, payload_length_in};
ghost use Rattle.siit_quoted.specs.Quoted.{quoted6_fields};
ghost use Rattle.siit_quoted.specs.Quotes.{quoted_packet_to_4, written_class};
ghost use Rattle.siit_upper.specs.Walks.{fragment_in, walked};
ghost use Rattle.siit_v6to4.specs.To4.{df_for, identification, protocol_of};
ghost use Rattle.siit_views.specs.Writers.{packet_in4};
ghost use Rattle.std.specs.Prelude.{◌≡◌, ◌<◌, ◌≤◌, ◌+◌, ◌-◌, [], IfSome};

use siit_addr::Addresses4;
use siit_upper::{FragInfo, ICMP, ICMPV6, Walk};
use siit_views::{Fields4, Ipv6Header};

/// The longest IPv4 packet in bytes that may be cut on its way (RFC 7915 section 5.1).
const MAY_BE_CUT: u16 = 1260;

/// The fragment that a packet without Fragment header is.
const WHOLE: FragInfo = FragInfo {
    offset: 0,
    more: false,
    id: 0,
};

/// The fields of the header that a quoted packet gets, by its total length as sent. The TTL is the hop limit.
pub(crate) fn quote_fields4(
    quote: &Ipv6Header<'_>,
    walk: Walk,
    total: u16,
    new: Addresses4,
    tos_zero: bool,
) -> Fields4
    requires offset { IfSome walk.frag (λ frag. frag.offset < 8192) }
    requires total { total ≡ 20 + (payload_length_in quote.now - walk.at) }
    ensures fields { packet_in4 result ≡ record (quoted_packet_to_4 new.src.0 new.dst.0 tos_zero (quoted6_fields (walked walk) quote.now)) { payload = [] } }
    ensures offset { result.offset < 8192 }
{
    let frag = walk.frag.unwrap_or(WHOLE);
    Fields4 {
        tos: written_tos(quote, tos_zero),
        id: quoted_id(walk.frag),
        df: is_unbroken(walk.frag, total),
        more: frag.more,
        offset: frag.offset,
        ttl: quote.hop(),
        protocol: protocol(walk.upper),
        src: new.src,
        dst: new.dst,
    }
}

/// The TOS octet that is written for a traffic class.
fn written_tos(quote: &Ipv6Header<'_>, tos_zero: bool) -> u8
    ensures { result ≡ written_class tos_zero (ipv6_fields quote.now).class }
{
    if tos_zero { 0 } else { quote.class() }
}

/// The identification of a fragment, and 0 without a Fragment header.
fn quoted_id(frag: Option<FragInfo>) -> u16
    ensures { result ≡ identification (fragment_in frag) 0 }
{
    match frag {
        Some(frag) => (frag.id % 0x1_0000) as u16,
        None => 0,
    }
}

/// The flag Don't Fragment, by the total length as sent.
fn is_unbroken(frag: Option<FragInfo>, total: u16) -> bool
    ensures { flag_bit result ≡ df_for (fragment_in frag) total }
{
    frag.is_none() && total > MAY_BE_CUT
}

/// The protocol of an upper part: ICMPv6 becomes ICMP.
fn protocol(upper: u8) -> u8
    ensures { result ≡ protocol_of upper }
{
    match upper {
        ICMPV6 => ICMP,
        _ => upper,
    }
}
