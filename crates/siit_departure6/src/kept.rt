//! What is kept of an ICMPv4 error's message (RFC 7915 section 4.3, RFC 4884).
ghost use Rattle.siit_departure6.specs.Kept.{IsKept, carried_place};
ghost use Rattle.std.specs.Prelude.{◌≡◌, ◌≤◌, length};

use siit_quoted::{extension, quote_part};
use siit_rules::Family;

/// How many bytes of an ICMP message stand before its body.
const HEADER: u16 = 8;

/// The longest extension that an ICMPv6 error carries, in bytes: at least 128 bytes of its body stand before it.
const MOST: usize = 1104;

/// What is kept of a message.
#[derive(Clone, Copy)]
pub(crate) struct Kept {
    /// How many of its bytes.
    pub len: usize,
    /// The place in its body of an extension that is carried.
    pub ext: Option<u16>,
}

/// What is kept of the message of an ICMPv4 error that becomes an ICMPv6 error of this type: the quote, and the
/// extension behind it where the type carries it.
pub(crate) fn kept_of(message: &[u8], kind: u8) -> Kept
    requires header { 8 ≤ length message.now }
    requires most { length message.now ≤ 65535 }
    ensures { IsKept kind message.now result }
{
    match carried_place(message, kind) {
        Some(place) => Kept {
            len: message.len(),
            ext: Some(place),
        },
        None => Kept {
            len: usize::from(HEADER) + quote_part(message, Family::Four).len(),
            ext: None,
        },
    }
}

/// The place in its body of the extension that an error of this type carries: types 1 and 3 do, and the extension isn't
/// too long (RFC 4884 section 4).
fn carried_place(message: &[u8], kind: u8) -> Option<u16>
    requires header { 8 ≤ length message.now }
    requires most { length message.now ≤ 65535 }
    ensures { result ≡ carried_place kind message.now }
{
    let place = extension(message, Family::Four)?;
    if matches!(kind, 1 | 3) && message.len() - usize::from(place) <= MOST {
        Some(place - HEADER)
    } else {
        None
    }
}
