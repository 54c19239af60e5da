//! MTUs of ICMP errors (RFC 7915 sections 4.2 and 5.2).
ghost use Rattle.std.specs.Prelude.{◌≡◌, ◌≤◌};
ghost use Rattle.siit_icmp.specs.Icmp.{mtu_to_4, mtu_to_6, plateau_below};

/// The least MTU of a link of IPv6 (RFC 8200 section 5).
const LEAST_MTU6: u16 = 1280;

/// The MTUs that links have, the greatest first (RFC 1191 section 7.1).
const PLATEAUS: [u16; 11] = [
    65535, 32000, 17914, 8166, 4352, 2002, 1492, 1006, 508, 296, 68,
];

/// The MTU of an ICMPv6 Packet Too Big for the MTU `m` of an ICMPv4 error that quotes a packet of `quoted_total` bytes,
/// where the links of the translator carry `mtu4` and `mtu6` bytes, `mtu6` at least 1,280 (RFC 7915 section 4.2). Where
/// a router gave no MTU, the plateau below the quoted packet, of at least 1,280, stands in its place, and without such
/// a plateau the result is 1,280.
pub fn mtu46(m: u16, quoted_total: u16, mtu4: u16, mtu6: u16) -> u32
    requires { 1280 ≤ mtu6 }
    ensures value { result ≡ mtu_to_6 m quoted_total mtu4 mtu6 }
    ensures least { 1280 ≤ result }
    ensures most { result ≤ mtu6 }
{
    let told = if m == 0 {
        // Without a plateau the least MTU comes out.
        plateau(quoted_total).unwrap_or(0)
    } else {
        m
    };
    (u32::from(told) + 20)
        .min(u32::from(mtu6))
        .min(u32::from(mtu4) + 20)
        .max(u32::from(LEAST_MTU6))
}

/// The MTU of an ICMPv4 error for the MTU `m` of an ICMPv6 Packet Too Big, where the links of the translator carry
/// `mtu4` and `mtu6` bytes, `mtu6` at least 1,280 (RFC 7915 section 5.2): at least 68 where the links carry as much,
/// the least that IPv4 has (RFC 791 section 3.2).
pub fn mtu64(m: u32, mtu4: u16, mtu6: u16) -> u16
    requires { 1280 ≤ mtu6 }
    ensures { result ≡ mtu_to_4 m mtu4 mtu6 }
{
    (m.max(88) - 20)
        .min(u32::from(mtu4))
        .min(u32::from(mtu6 - 20)) as u16
}

/// The greatest MTU in use below a packet's length (RFC 1191 section 7.1), where IPv6 can have it.
fn plateau(length: u16) -> Option<u16>
    ensures { result ≡ plateau_below length }
{
    let mut rest = &PLATEAUS[..];
    while let [plateau, lower @ ..] = rest {
        if *plateau < length && *plateau >= LEAST_MTU6 {
            return Some(*plateau);
        }
        rest = lower;
    }
    None
}
