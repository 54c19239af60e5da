//! The header of a packet that is no ICMP error (RFC 7915 section 4.1).
ghost use Rattle.siit_departure6.specs.Parts.{headed6};
ghost use Rattle.siit_device.specs.Arrival4.{is_error4};
ghost use Rattle.siit_device.specs.Forward.{is_cut6};
ghost use Rattle.siit_model.specs.Fragments.{fragment4};
ghost use Rattle.siit_model.specs.Fragments as fragments;
ghost use Rattle.siit_model.specs.Ipv4.{ipv4_fields, total_length_in};
ghost use Rattle.siit_model.specs.Ipv6.{ipv6_bytes};
ghost use Rattle.siit_quoted.specs.Quotes.{written_class};
ghost use Rattle.siit_v4to6.specs.To6.{has_fragment_header};
ghost use Rattle.siit_views.specs.Headers.{HasLengths4};
ghost use Rattle.std.specs.Prelude.{◌≡◌, ◌≤◌, ◌+◌, ◌==◌, length, not, false, if◌then◌else◌};

use siit_addr::Addresses6;
use siit_roles::Settings;
use siit_v4to6::{Head46, head46};
use siit_views::{Ipv4Header, PacketBuf};

/// The length of an IPv6 header in bytes (RFC 8200 section 3).
const HEADER: usize = 40;

/// The length of an IPv6 header and a Fragment header.
const FRAGMENT_HEADERS: usize = 48;

/// What stands before a payload on its way to IPv6.
#[derive(Clone, Copy)]
pub(crate) struct Headers {
    /// Whether the packet is cut.
    pub cut: bool,
    /// Whether an upper part begins in the payload.
    pub first: bool,
    /// The length of the headers in bytes.
    pub len: usize,
}

/// Puts the IPv6 header between these addresses in place of the IPv4 header, and a Fragment header behind it where the
/// packet is a fragment or is cut. Answers what stands before the payload then.
pub(crate) fn put_header(settings: &Settings, buf: &mut PacketBuf, new: Addresses6) -> Headers
    requires lengths { HasLengths4 buf.old.bytes }
    requires no_padding { length buf.old.bytes ≡ total_length_in buf.old.bytes }
    requires no_error { is_error4 (ipv4_fields buf.old.bytes) ≡ false }
    requires alive { 1 ≤ (ipv4_fields buf.old.bytes).ttl }
    requires room { 28 ≤ buf.old.front }
    ensures bytes { buf.new.bytes ≡ ipv6_bytes (headed6 settings.now new result.cut (ipv4_fields buf.old.bytes)) }
    ensures front { buf.new.front + length buf.new.bytes ≡ buf.old.front + length buf.old.bytes }
    ensures cut { result.cut ≡ is_cut6 settings.now (ipv4_fields buf.old.bytes) }
    ensures first { result.first ≡ ((ipv4_fields buf.old.bytes).offset == 0) }
    ensures len { result.len ≡ (if has_fragment_header result.cut (fragment4 (ipv4_fields buf.old.bytes)) then 48 else 40) }
{
    let header = Ipv4Header::new(buf.bytes());
    let headers = headers_for(settings, &header);
    let to = Head46 {
        src: new.src,
        dst: new.dst,
        class: class_for(settings, header.tos()),
        fragment: headers.cut,
    };
    head46(buf, &to);
    headers
}

/// What stands before the payload of this packet on the IPv6 side. It is cut where its sender lets it be and it is too
/// long to be sent whole (RFC 7915 section 4).
fn headers_for(settings: &Settings, header: &Ipv4Header<'_>) -> Headers
    requires lengths { HasLengths4 header.now }
    requires no_error { is_error4 (ipv4_fields header.now) ≡ false }
    ensures cut { result.cut ≡ is_cut6 settings.now (ipv4_fields header.now) }
    ensures first { result.first ≡ ((ipv4_fields header.now).offset == 0) }
    ensures len { result.len ≡ (if has_fragment_header result.cut (fragment4 (ipv4_fields header.now)) then 48 else 40) }
{
    let plain = if is_fragment(header) {
        FRAGMENT_HEADERS
    } else {
        HEADER
    };
    let cut = !header.df() && plain + header.payload().len() > usize::from(settings.lowest);
    Headers {
        cut,
        first: header.offset() == 0,
        len: if cut { FRAGMENT_HEADERS } else { plain },
    }
}

/// Whether an IPv4 packet is a fragment.
fn is_fragment(header: &Ipv4Header<'_>) -> bool
    ensures { result ≡ not (fragments.is_whole (fragment4 (ipv4_fields header.now))) }
{
    header.offset() != 0 || header.mf()
}

/// The traffic class for a TOS octet: the same or 0, by the settings.
pub(crate) fn class_for(settings: &Settings, tos: u8) -> u8
    ensures { result ≡ written_class settings.now.tos_zero tos }
{
    if settings.tos_zero { 0 } else { tos }
}
