//! Pointers of Parameter Problems (RFC 7915 sections 4.2 and 5.2).
ghost use Rattle.std.specs.Prelude.{◌≡◌};
ghost use Rattle.siit_icmp.specs.Icmp.{pointer_to_4, pointer_to_6};

use siit_rules::cases;

/// The pointer of an ICMPv6 Parameter Problem for that of an ICMPv4 one (RFC 7915 section 4.2, figure 3). None where
/// the field that it points to has no counterpart.
pub fn pointer46(p: u8) -> Option<u32>
    ensures { result ≡ pointer_to_6 p }
{
    let pointers = cases! {
        0 => 0;
        1 => 1;
        2, 3 => 4;
        8 => 7;
        9 => 6;
        12, 13, 14, 15 => 8;
        16, 17, 18, 19 => 24;
    };
    let pointer = pointers.find(u16::from(p))?;
    Some(u32::from(pointer))
}

/// The pointer of an ICMPv4 Parameter Problem for that of an ICMPv6 one (RFC 7915 section 5.2, figure 6). None
/// likewise.
pub fn pointer64(p: u32) -> Option<u8>
    ensures { result ≡ pointer_to_4 p }
{
    let pointer = place4(u16::try_from(p).ok()?)?;
    Some(pointer as u8)
}

/// The place in an IPv4 header for one in an IPv6 header.
fn place4(p: u16) -> Option<u16>
    ensures { result ≡ pointer_to_4 p }
{
    let pointers = cases! {
        0 => 0;
        1 => 1;
        4, 5 => 2;
        6 => 9;
        7 => 8;
        8, 9, 10, 11, 12, 13, 14, 15, 16, 17, 18, 19, 20, 21, 22, 23 => 12;
        24, 25, 26, 27, 28, 29, 30, 31, 32, 33, 34, 35, 36, 37, 38, 39 => 16;
    };
    pointers.find(p)
}
