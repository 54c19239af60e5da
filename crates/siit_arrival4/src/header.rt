//! The rules that the IPv4 header decides (RFC 791, RFC 1812 section 5.3, RFC 7915 section 4).
ghost use Rattle.siit_device.specs.Addresses as addresses;
ghost use Rattle.siit_device.specs.Arrival4 as model;
ghost use Rattle.siit_device.specs.Rows.{first_of};
ghost use Rattle.siit_device.specs.Rules4.{header_rows4};
ghost use Rattle.siit_model.specs.Ipv4.{ipv4_fields};
ghost use Rattle.siit_views.specs.Headers.{HasLengths4};
ghost use Rattle.std.specs.Prelude.{◌≡◌, ◌≤◌, ◌==◌, false, None};

use crate::options::has_route;
use crate::shape::is_misshapen;
use siit_addr::Addr4;
use siit_rules::Rule;
use siit_views::Ipv4Header;

/// The Internet Group Management Protocol (RFC 1112).
const IGMP: u8 = 2;

/// The first of these rules that holds. A packet for which none holds has a TTL of at least 2 and isn't misshapen.
#[tactic(auto, unfolding(siit_device::specs::Rules4::header_rows4))]
pub(crate) fn header_rule(header: &Ipv4Header<'_>) -> Option<Rule>
    requires { HasLengths4 header.now }
    ensures rule { result ≡ first_of header_rows4 (ipv4_fields header.now) }
    ensures alive { result ≡ None → 2 ≤ (ipv4_fields header.now).ttl }
    ensures shape { result ≡ None → model.is_misshapen4 (ipv4_fields header.now) ≡ false }
{
    if is_no_host(header.src()) {
        return Some(Rule::BadSource4);
    }
    if is_no_host(header.dst()) {
        return Some(Rule::BadDestination4);
    }
    if is_misshapen(header) {
        return Some(Rule::FragmentShape4);
    }
    if header.ttl() < 2 {
        return Some(Rule::Expired4);
    }
    if has_route(header.options()) {
        return Some(Rule::SourceRoute4);
    }
    if header.protocol() == IGMP {
        return Some(Rule::Igmp4);
    }
    if has_clash(header) {
        return Some(Rule::ProtocolClash4);
    }
    None
}

/// Whether no packet comes from the address or goes to it: 0.0.0.0, 255.255.255.255, loopback and multicast (RFC 1122
/// section 3.2.1.3).
fn is_no_host(a: Addr4) -> bool
    ensures { result ≡ addresses.is_no_host4 a.0 }
{
    a.0 == 0 || a.0 == 0xffff_ffff || a.0 >> 24 == 127 || a.0 >> 28 == 0xe
}

/// Whether IPv6 has the protocol's number for an extension header, or for ICMPv6.
fn has_clash(header: &Ipv4Header<'_>) -> bool
    ensures { result ≡ model.has_clash4 (ipv4_fields header.now) }
{
    matches!(header.protocol(), 0 | 43 | 44 | 58 | 60)
}
