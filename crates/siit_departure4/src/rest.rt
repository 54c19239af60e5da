//! Bytes 4 to 7 of an ICMPv4 error: an MTU, a pointer or the length octet (RFC 7915 section 5.2, RFC 4884 section 4).
ghost use Rattle.siit_device.specs.Backward.{rest_to_4};
ghost use Rattle.std.specs.Prelude.{◌≡◌, ◌≤◌, length};

use siit_icmp::{Rest, mtu64, pointer64};
use siit_roles::Settings;
use siit_word::get32;

/// Bytes 4 to 7 of the new message, whose length octet is `octet`, by the header of the old one.
pub(crate) fn new_rest(settings: &Settings, rest: Rest, octet: u8, head: &[u8]) -> [u8; 4]
    requires mtu6 { 1280 ≤ settings.now.mtu6 }
    requires header { 8 ≤ length head.now }
    ensures { result ≡ rest_to_4 settings.now rest octet head.now }
{
    match rest {
        Rest::Same => [head[4], head[5], head[6], head[7]],
        Rest::Zero | Rest::PointerSix => [0; 4],
        Rest::Length => [0, octet, 0, 0],
        Rest::Mtu => {
            let [high, low] = mtu64(get32(head, 4), settings.mtu4, settings.mtu6).to_be_bytes();
            [0, 0, high, low]
        }
        Rest::Pointer => [pointer64(get32(head, 4)).unwrap_or(0), 0, 0, 0],
    }
}
