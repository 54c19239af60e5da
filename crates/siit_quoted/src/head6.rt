//! The headers that a quote gets on its way to IPv6 (RFC 7915 sections 4.1 and 4.3).
ghost use Rattle.siit_model.specs.Fragments.{is_whole};
ghost use Rattle.siit_model.specs.Ipv4.{header_length_in, ipv4_fields, total_length_in};
ghost use Rattle.siit_model.specs.Ipv6 as six;
ghost use Rattle.siit_quoted.specs.Quoted.{quoted4_fields};
ghost use Rattle.siit_quoted.specs.Quotes.{quoted_packet_to_6, sent_to_6, written_class};
ghost use Rattle.siit_quoted.specs.Rewriting.{fragment_to_6};
ghost use Rattle.siit_v4to6.specs.To6.{next_header_of};
ghost use Rattle.siit_views.specs.Writers.{packet_in6};
ghost use Rattle.std.specs.Prelude.{◌≡◌, ◌≤◌, ◌+◌, ◌++◌, [], length, take, unwrap_or};

use siit_addr::Addresses6;
use siit_upper::{FRAGMENT, ICMP, ICMPV6};
use siit_views::{Fields6, Ipv4Header, fragment_header, ipv6_header};

/// The headers of a quote on its way to IPv6.
#[derive(Clone, Copy)]
pub(crate) struct Headers6 {
    /// The IPv6 header's fields.
    pub fields: Fields6,
    /// The payload length as sent.
    pub len: u16,
    /// The Fragment header of a fragment.
    pub fragment: Option<[u8; 8]>,
}

/// The headers that a quoted packet gets. The hop limit is the TTL, and the length that of the packet as sent.
pub(crate) fn quote_headers6(quote: &Ipv4Header<'_>, new: Addresses6, tos_zero: bool) -> Headers6
    requires ordered { header_length_in quote.now ≤ total_length_in quote.now }
    requires least { 20 ≤ header_length_in quote.now }
    ensures fields { packet_in6 result.fields ≡ record (quoted_packet_to_6 new.src.0 new.dst.0 tos_zero (quoted4_fields quote.now)) { body = [] } }
    ensures len { result.len ≡ sent_to_6 new.src.0 new.dst.0 tos_zero (quoted4_fields quote.now) }
    ensures fragment { unwrap_or result.fragment [] ≡ fragment_to_6 (ipv4_fields quote.now) }
{
    let upper = next_header(quote.protocol());
    let sent = quote.total() - quote.header_len() as u16;
    if quote.offset() == 0 && !quote.mf() {
        return Headers6 {
            fields: header_fields6(quote, new, tos_zero, upper),
            len: sent,
            fragment: None,
        };
    }
    let id = u32::from(quote.id());
    Headers6 {
        fields: header_fields6(quote, new, tos_zero, FRAGMENT),
        len: 8 + sent,
        fragment: Some(fragment_header(upper, quote.offset(), quote.mf(), id)),
    }
}

/// The fields of the IPv6 header, by the next header.
fn header_fields6(quote: &Ipv4Header<'_>, new: Addresses6, tos_zero: bool, next: u8) -> Fields6
    ensures class { result.class ≡ written_class tos_zero (ipv4_fields quote.now).tos }
    ensures hop { result.hop ≡ (ipv4_fields quote.now).ttl }
    ensures next { result.next ≡ next }
    ensures src { result.src ≡ new.src }
    ensures dst { result.dst ≡ new.dst }
{
    Fields6 {
        class: if tos_zero { 0 } else { quote.tos() },
        hop: quote.ttl(),
        next,
        src: new.src,
        dst: new.dst,
    }
}

/// The next header of a protocol: ICMP becomes ICMPv6.
fn next_header(protocol: u8) -> u8
    ensures { result ≡ next_header_of protocol }
{
    match protocol {
        ICMP => ICMPV6,
        _ => protocol,
    }
}

/// Headers as they are written.
#[derive(Clone, Copy)]
pub(crate) struct Written6 {
    /// The headers, and what is behind them.
    pub bytes: [u8; 48],
    /// Their length, 40 or 48.
    pub len: usize,
}

/// The bytes of the headers, one behind the other.
pub(crate) fn write_headers(headers: &Headers6) -> Written6
    ensures bytes { take result.len result.bytes ≡ six.ipv6_header headers.now.len (packet_in6 headers.now.fields) ++ unwrap_or headers.now.fragment [] }
    ensures len { result.len ≡ 40 + length (unwrap_or headers.now.fragment []) }
    ensures most { result.len ≤ 48 }
{
    let header = ipv6_header(&headers.fields, headers.len);
    match headers.fragment {
        Some(fragment) => Written6 {
            bytes: join_headers(&header, &fragment),
            len: 48,
        },
        None => Written6 {
            bytes: join_headers(&header, &[0; 8]),
            len: 40,
        },
    }
}

/// An IPv6 header and a Fragment header behind it.
fn join_headers(header: &[u8; 40], fragment: &[u8; 8]) -> [u8; 48]
    ensures value { result ≡ header.now ++ fragment.now }
    ensures len { length result ≡ 48 }
{
    let mut bytes = [0u8; 48];
    let (front, rest) = bytes.split_at_mut(40);
    front.copy_from_slice(header);
    rest.copy_from_slice(fragment);
    bytes
}
