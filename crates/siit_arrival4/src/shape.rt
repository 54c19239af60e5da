//! What the rules ask of a packet's fragment and of its upper part (RFC 791 section 3.2).
ghost use Rattle.siit_device.specs.Arrival4 as model;
ghost use Rattle.siit_model.specs.Fragments as fragments;
ghost use Rattle.siit_model.specs.Fragments.{fragment4};
ghost use Rattle.siit_model.specs.Ipv4.{ipv4_fields, is_whole4};
ghost use Rattle.siit_views.specs.Headers.{HasLengths4};
ghost use Rattle.std.specs.Prelude.{◌≡◌};

use siit_upper::{ICMP, TCP, UDP};
use siit_views::Ipv4Header;

/// The longest payload of a datagram that fragments can tell of, in bytes.
const LONGEST: usize = 65535;

/// Whether a packet is no fragment.
pub(crate) fn is_whole(header: &Ipv4Header<'_>) -> bool
    ensures packet { result ≡ is_whole4 (ipv4_fields header.now) }
    ensures fragment { result ≡ fragments.is_whole (fragment4 (ipv4_fields header.now)) }
{
    header.offset() == 0 && !header.mf()
}

/// Whether a fragment has no payload, has more behind it and doesn't end at a multiple of 8 bytes, or ends behind the
/// longest datagram.
pub(crate) fn is_misshapen(header: &Ipv4Header<'_>) -> bool
    requires { HasLengths4 header.now }
    ensures { result ≡ model.is_misshapen4 (ipv4_fields header.now) }
{
    let length = header.payload().len();
    let ends_behind = 8 * usize::from(header.offset()) + length > LONGEST;
    !is_whole(header) && (length == 0 || (header.mf() && length % 8 != 0) || ends_behind)
}

/// Whether the upper part begins here and its header isn't whole.
pub(crate) fn is_upper_short(header: &Ipv4Header<'_>) -> bool
    requires { HasLengths4 header.now }
    ensures { result ≡ model.is_upper_short4 (ipv4_fields header.now) }
{
    let least = match header.protocol() {
        TCP => 20,
        UDP | ICMP => 8,
        _ => 0,
    };
    header.offset() == 0 && header.payload().len() < least
}
