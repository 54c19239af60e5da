//! Bytes 4 to 7 of a translated ICMP error (RFC 7915 section 4.2, RFC 4884 section 4).
ghost use Rattle.siit_device.specs.Forward.{rest_to_6};
ghost use Rattle.siit_icmp.specs.Icmp.{mtu_to_6, pointer_to_6};
ghost use Rattle.siit_icmp.specs.declared.kinds.Rest.TheVariants.{Length, Pointer};
ghost use Rattle.siit_model.specs.Bytes.{bytes32, field8, field16};
ghost use Rattle.siit_model.specs.Ipv4.{total_length_in};
ghost use Rattle.siit_quoted.specs.Quoted.{HasQuote4};
ghost use Rattle.siit_device.specs.Arrival4.{quoted_part4};
ghost use Rattle.std.specs.Prelude.{◌≡◌, ◌≤◌, [], ◌∷◌, length, IsSome};

use siit_icmp::{Rest, mtu46, pointer46};
use siit_quoted::quote_part;
use siit_roles::Settings;
use siit_rules::Family;
use siit_views::Ipv4Header;
use siit_word::get16;

/// The place of the pointer in an IPv6 header that stands for the protocol of IPv4: the next header.
const NEXT_HEADER: u32 = 6;

/// What bytes 4 to 7 of the translated error say, but that a length octet is 0: it is known once the quote is
/// translated.
pub(crate) fn rest_for(settings: &Settings, rest: Rest, message: &[u8]) -> [u8; 4]
    requires header { 8 ≤ length message.now }
    requires quote { HasQuote4 (quoted_part4 message.now) }
    requires pointer { rest ≡ Pointer → IsSome (pointer_to_6 (field8 message.now 4)) }
    requires mtu { 1280 ≤ settings.now.mtu6 }
    ensures { result ≡ rest_to_6 settings.now rest 0 message.now }
{
    match rest {
        Rest::Same => [message[4], message[5], message[6], message[7]],
        Rest::Zero | Rest::Length => [0; 4],
        Rest::Mtu => word(mtu_for(settings, message)),
        Rest::Pointer => word(pointer46(message[4]).unwrap()),
        Rest::PointerSix => word(NEXT_HEADER),
    }
}

/// The same with the length octet, where there is to be one.
pub(crate) fn with_octet(rest: Rest, bytes: [u8; 4], octet: u8) -> [u8; 4]
    ensures told { rest ≡ Length → result ≡ octet ∷ 0 ∷ 0 ∷ 0 ∷ [] }
    ensures other { (rest ≡ Length → ⊥) → result ≡ bytes }
{
    match rest {
        Rest::Length => [octet, 0, 0, 0],
        _ => bytes,
    }
}

/// The MTU that a Packet Too Big tells.
fn mtu_for(settings: &Settings, message: &[u8]) -> u32
    requires header { 8 ≤ length message.now }
    requires quote { HasQuote4 (quoted_part4 message.now) }
    requires mtu { 1280 ≤ settings.now.mtu6 }
    ensures { result ≡ mtu_to_6 (field16 message.now 6) (total_length_in (quoted_part4 message.now)) settings.now.mtu4 settings.now.mtu6 }
{
    let told = get16(message, 6);
    let quoted = Ipv4Header::new(quote_part(message, Family::Four));
    mtu46(told, quoted.total(), settings.mtu4, settings.mtu6)
}

/// A number as four bytes, the highest first.
fn word(value: u32) -> [u8; 4]
    ensures { result ≡ bytes32 value }
{
    value.to_be_bytes()
}
