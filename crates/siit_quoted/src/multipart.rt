//! The parts of an ICMP error's body: the part that holds the quote, and the extension behind it (RFC 4884).
ghost use Rattle.siit_quoted.specs.Bodies.{extension_place, is_extension_at, length_octet4, length_octet6, part_of, place_behind, quote_part};
ghost use Rattle.std.specs.Prelude.{◌≡◌, ◌⊎◌, ◌≤◌, length};

use siit_rules::Family;

/// How many bytes of an ICMP message stand before its body.
const HEADER: usize = 8;

/// The least number of bytes before an extension.
const LEAST: usize = 128;

/// The unit in which the length octet of ICMPv4 counts, in bytes.
const UNIT4: usize = 4;

/// The unit of ICMPv6.
const UNIT6: usize = 8;

/// The place of the extension in an ICMP error, None where it has none: behind the part that holds the quote, which the
/// length octet tells, at least 128 bytes of body; of whole words of 4 bytes, one at least, and of version 2 (RFC 4884
/// section 7).
pub fn extension(message: &[u8], family: Family) -> Option<u16>
    requires header { 8 ≤ length message.now }
    requires most { length message.now ≤ 65535 }
    ensures { result ≡ extension_place family message.now }
{
    match family {
        Family::Four => extension_behind(message, UNIT4, length_octet4(message)),
        Family::Six => extension_behind(message, UNIT6, length_octet6(message)),
    }
}

/// The part of an ICMP error's body that holds the quote: as many units as the length octet tells, or all of the body
/// where it tells none or has fewer.
pub fn quote_part(message: &[u8], family: Family) -> &[u8]
    requires { 8 ≤ length message.now }
    ensures { result.now ≡ quote_part family message.now }
{
    let body = &message[HEADER..];
    match family {
        Family::Four => first_units(body, UNIT4, length_octet4(message)),
        Family::Six => first_units(body, UNIT6, length_octet6(message)),
    }
}

/// The length octet of an ICMPv4 error, 0 where its type has none.
fn length_octet4(message: &[u8]) -> u8
    requires { 8 ≤ length message.now }
    ensures { result ≡ length_octet4 message.now }
{
    match message[0] {
        3 | 11 | 12 => message[5],
        _ => 0,
    }
}

/// The length octet of an ICMPv6 error, 0 where its type has none.
fn length_octet6(message: &[u8]) -> u8
    requires { 8 ≤ length message.now }
    ensures { result ≡ length_octet6 message.now }
{
    match message[0] {
        1 | 3 => message[4],
        _ => 0,
    }
}

/// The place of the extension behind as many units of a message's body.
fn extension_behind(message: &[u8], unit: usize, units: u8) -> Option<u16>
    requires header { 8 ≤ length message.now }
    requires unit { (unit ≡ 4) ⊎ (unit ≡ 8) }
    ensures { result ≡ place_behind unit units message.now }
{
    let body = &message[HEADER..];
    let place = usize::from(units) * unit;
    if is_extension_at(body, place) {
        Some((HEADER + place) as u16)
    } else {
        None
    }
}

/// Whether an extension stands at this place of a body.
fn is_extension_at(body: &[u8], place: usize) -> bool
    requires { place ≤ 2040 }
    ensures { result ≡ is_extension_at place body.now }
{
    place >= LEAST
        && body.len() >= place + 4
        && (body.len() - place) % 4 == 0
        && body[place] / 16 == 2
}

/// As many units of a body, or all of it where that is no unit or more than there are.
fn first_units(body: &[u8], unit: usize, units: u8) -> &[u8]
    requires { (unit ≡ 4) ⊎ (unit ≡ 8) }
    ensures { result.now ≡ part_of unit units body.now }
{
    if units == 0 {
        return body;
    }
    let len = usize::from(units) * unit;
    &body[..len.min(body.len())]
}
