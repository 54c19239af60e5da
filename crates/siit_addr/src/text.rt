//! The texts of addresses and prefixes, read and written.
ghost use Rattle.std.specs.Prelude.{◌≡◌};
ghost use Rattle.siit_addr.specs.Prefixes.{addr4_of_text, addr6_of_text, prefix4_of_text, prefix6_of_text};
ghost use Rattle.siit_addr.specs.Canonical.{ipv4_text, ipv6_text, prefix6_text};

use crate::addr::{Addr4, Addr6, Prefix4, Prefix6};
use crate::digits::read_decimal_up_to;
use crate::ipv4::read_ipv4;
use crate::ipv6::read_ipv6;
use crate::split::in_two;
use crate::write_digits::push_decimal;
use crate::write_groups::{groups_of, longest_zero_run, push_groups};
use arrayvec::ArrayString;

/// Reads an IPv4 address: four decimal numbers 0 to 255 without leading zeros, joined by points (RFC 3986 section
/// 3.2.2, IPv4address). `None` for any other text.
pub fn read_addr4(text: &str) -> Option<Addr4>
    ensures { result ≡ addr4_of_text text.now }
{
    read_ipv4(text.as_bytes())
}

/// Reads an IPv4 address, a slash and a length in bits, 0 to 32 without leading zeros (RFC 4632 section 3.1). `None`
/// for any other text. Bits behind the length may be set: see [`Prefix4::is_clean`].
pub fn read_prefix4(text: &str) -> Option<Prefix4>
    ensures { result ≡ prefix4_of_text text.now }
{
    let (address, len) = in_two(text.as_bytes())?;
    Some(Prefix4 {
        addr: read_ipv4(address)?,
        len: read_decimal_up_to(len, 32)?,
    })
}

/// The text of an IPv4 address: four decimal numbers without leading zeros, joined by points.
pub fn write_addr4(a: Addr4) -> ArrayString<15>
    ensures { result.bytes ≡ ipv4_text a.0 }
{
    let [first, second, third, fourth] = a.0.to_be_bytes();
    let mut text = ArrayString::new();
    push_decimal(&mut text, first);
    text.push('.');
    push_decimal(&mut text, second);
    text.push('.');
    push_decimal(&mut text, third);
    text.push('.');
    push_decimal(&mut text, fourth);
    text
}

/// Reads an IPv6 address: eight groups of one to four hexadecimal digits joined by colons, the last two also as an IPv4
/// text; once "::" may stand for one or more zero groups (RFC 4291 section 2.2). `None` for any other text.
pub fn read_addr6(text: &str) -> Option<Addr6>
    ensures { result ≡ addr6_of_text text.now }
{
    read_ipv6(text.as_bytes())
}

/// Reads an IPv6 address, a slash and a length in bits, 0 to 128 without leading zeros (RFC 4291 section 2.3). `None`
/// for any other text. Bits behind the length may be set: see [`Prefix6::is_clean`].
pub fn read_prefix6(text: &str) -> Option<Prefix6>
    ensures { result ≡ prefix6_of_text text.now }
{
    let (address, len) = in_two(text.as_bytes())?;
    Some(Prefix6 {
        addr: read_ipv6(address)?,
        len: read_decimal_up_to(len, 128)?,
    })
}

// How many zero groups "::" stands for at least (RFC 5952 section 4.2.2).
const SHORTEST_GAP: usize = 2;

/// The canonical text of an IPv6 address (RFC 5952 section 4), without an IPv4 text at its end.
pub fn write_addr6(a: Addr6) -> ArrayString<39>
    ensures { result.bytes ≡ ipv6_text a.0 }
{
    let groups = groups_of(a);
    let (place, len) = longest_zero_run(&groups);
    let mut text = ArrayString::new();
    if len < SHORTEST_GAP {
        push_groups(&mut text, &groups);
        return text;
    }
    push_groups(&mut text, &groups[..place]);
    text.push_str("::");
    push_groups(&mut text, &groups[place + len..]);
    text
}

/// The canonical text of an IPv6 prefix: its address as [`write_addr6`] writes it, a slash and the length in bits (RFC
/// 4291 section 2.3). Bits behind the length are written too.
pub fn write_prefix6(p: Prefix6) -> ArrayString<43>
    ensures { result.bytes ≡ prefix6_text p.addr.0 p.len }
{
    let mut text = ArrayString::new();
    text.push_str(write_addr6(p.addr).as_str());
    text.push('/');
    push_decimal(&mut text, p.len);
    text
}

#[cfg(test)]
mod tests {
    use super::*;

    // The texts of RFC 4291 section 2.2 and RFC 5952, each with the canonical text of its address.
    #[test]
    fn ipv6_texts(rt: HostRuntime) {
        let table = [
            ("2001:DB8:0:0:8:800:200C:417A", "2001:db8::8:800:200c:417a"),
            ("FF01::101", "ff01::101"),
            ("0:0:0:0:0:0:0:1", "::1"),
            ("::", "::"),
            ("::13.1.68.3", "::d01:4403"),
            ("::FFFF:129.144.52.38", "::ffff:8190:3426"),
            ("2001:db8:0:0:1:0:0:1", "2001:db8::1:0:0:1"),
            ("2001:0:0:1:0:0:0:1", "2001:0:0:1::1"),
            ("2001:db8::1:1:1:1:1", "2001:db8:0:1:1:1:1:1"),
        ];
        for (text, canonical) in table {
            let address = read_addr6(text).expect(&rt, "an address");
            assert_eq!(rt; write_addr6(address).as_str(), canonical);
        }
        assert!(rt; read_addr6("2001:db8::1::1").is_none());
    }

    #[test]
    fn ipv4_texts_and_prefixes(rt: HostRuntime) {
        let address = read_addr4("192.0.2.33").expect(&rt, "an address");
        assert_eq!(rt; address, Addr4(0xc000_0221));
        assert_eq!(rt; write_addr4(address).as_str(), "192.0.2.33");
        let prefix4 = read_prefix4("198.51.100.0/24").expect(&rt, "a prefix");
        assert!(rt;
            prefix4.is_clean() && prefix4.holds(Addr4(0xc633_6401)) && !prefix4.holds(address)
        );
        let prefix6 = read_prefix6("64:FF9B::/96").expect(&rt, "a prefix");
        assert!(rt;
            prefix6.is_clean()
                && prefix6.holds(Addr6((0x64_ff9b << 96) + 7))
                && !prefix6.holds(Addr6(7))
        );
        assert_eq!(rt; write_prefix6(prefix6).as_str(), "64:ff9b::/96");
        assert!(rt;
            read_prefix4("198.51.100.0/33").is_none() && read_addr4("198.51.100.256").is_none()
        );
    }
}
