//! What the rules ask of a packet's fragment and of its upper part (RFC 8200 section 4.5).
ghost use Rattle.siit_arrival6.specs.Parts.{found_in};
ghost use Rattle.siit_device.specs.Arrival6 as model;
ghost use Rattle.siit_device.specs.Arrival6.{arrived_fragment};
ghost use Rattle.siit_model.specs.Fragments as fragments;
ghost use Rattle.siit_model.specs.Fragments.{fields_in};
ghost use Rattle.siit_model.specs.Ipv6.{ipv6_fields, payload_length_in};
ghost use Rattle.siit_upper.specs.Walks.{fragment_in};
ghost use Rattle.siit_views.specs.Headers.{HasLength6};
ghost use Rattle.std.specs.Prelude.{◌≡◌, ◌≤◌, ◌==◌, ◌-◌, ◌&&◌, not, length};

use siit_upper::{ICMPV6, TCP, UDP, Walk};
use siit_views::Ipv6Header;

/// The longest payload of a datagram that fragments can tell of, in bytes.
const LONGEST: usize = 65535;

/// The upper part of a packet, or what a fragment holds of it.
pub(crate) fn upper_part<'a>(header: &Ipv6Header<'a>, walk: Walk) -> &'a [u8]
    requires lengths { HasLength6 header.now }
    requires within { walk.at ≤ payload_length_in header.now }
    ensures value { result.now ≡ (arrived_fragment (found_in header.now walk)).bytes }
    ensures len { length result.now ≡ payload_length_in header.now - walk.at }
    ensures most { length result.now ≤ 65535 }
{
    &body_of(header)[usize::from(walk.at)..]
}

/// What follows the header of a packet.
#[tactic(auto, using(crate::proofs::Bodies::body_is6))]
fn body_of<'a>(header: &Ipv6Header<'a>) -> &'a [u8]
    requires { HasLength6 header.now }
    ensures value { result.now ≡ (ipv6_fields header.now).body }
    ensures len { length result.now ≡ payload_length_in header.now }
    ensures most { length result.now ≤ 65535 }
{
    header.payload()
}

/// Whether a packet is no fragment.
pub(crate) fn is_whole(walk: Walk) -> bool
    ensures { result ≡ (((fields_in (fragment_in walk.frag)).offset == 0) && not (fields_in (fragment_in walk.frag)).more) }
{
    match walk.frag {
        Some(frag) => frag.offset == 0 && !frag.more,
        None => true,
    }
}

/// Whether the upper part begins in a packet.
pub(crate) fn is_first(walk: Walk) -> bool
    ensures { result ≡ ((fields_in (fragment_in walk.frag)).offset == 0) }
{
    match walk.frag {
        Some(frag) => frag.offset == 0,
        None => true,
    }
}

/// Whether a fragment has no payload, has more behind it and doesn't end at a multiple of 8 bytes, or ends behind the
/// longest datagram.
pub(crate) fn is_misshapen(header: &Ipv6Header<'_>, walk: Walk) -> bool
    requires lengths { HasLength6 header.now }
    requires within { walk.at ≤ payload_length_in header.now }
    ensures { result ≡ model.is_misshapen6 (found_in header.now walk) }
{
    let length = upper_part(header, walk).len();
    match walk.frag {
        Some(frag) => {
            let ends_behind = 8 * usize::from(frag.offset) + length > LONGEST;
            !is_whole(walk) && (length == 0 || (frag.more && length % 8 != 0) || ends_behind)
        }
        None => false,
    }
}

/// Whether the upper part begins here and its header isn't whole.
pub(crate) fn is_upper_short(header: &Ipv6Header<'_>, walk: Walk) -> bool
    requires lengths { HasLength6 header.now }
    requires within { walk.at ≤ payload_length_in header.now }
    ensures { result ≡ model.is_upper_short6 (found_in header.now walk) }
{
    let least = match walk.upper {
        TCP => 20,
        UDP | ICMPV6 => 8,
        _ => 0,
    };
    is_first(walk) && upper_part(header, walk).len() < least
}
