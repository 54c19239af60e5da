//! The rules that the IPv6 header and the walk over the extension headers decide (RFC 4291, RFC 8200 sections 3 and 4,
//! RFC 7915 section 5).
ghost use Rattle.siit_arrival6.specs.Parts.{found_in};
ghost use Rattle.siit_device.specs.Addresses as addresses;
ghost use Rattle.siit_device.specs.Rows.{first_of};
ghost use Rattle.siit_device.specs.Rules6.{header_rows6, walk_rows6};
ghost use Rattle.siit_model.specs.Ipv6.{ipv6_fields, payload_length_in};
ghost use Rattle.siit_views.specs.Headers.{HasLength6};
ghost use Rattle.std.specs.Prelude.{◌≡◌, ◌≤◌, None};

use crate::shape::is_misshapen;
use siit_addr::Addr6;
use siit_rules::Rule;
use siit_upper::{ICMP, Walk};
use siit_views::Ipv6Header;

/// The first of the rules on addresses that no packet has.
#[tactic(auto, unfolding(siit_device::specs::Rules6::header_rows6))]
pub(crate) fn header_rule(header: &Ipv6Header<'_>) -> Option<Rule>
    ensures { result ≡ first_of header_rows6 (ipv6_fields header.now) }
{
    if is_no_host(header.src()) {
        return Some(Rule::BadSource6);
    }
    if is_no_host(header.dst()) {
        return Some(Rule::BadDestination6);
    }
    None
}

/// Whether no packet comes from the address or goes to it: ::, ::1, multicast and link-local (RFC 4291 section 2.4).
fn is_no_host(x: Addr6) -> bool
    ensures { result ≡ addresses.is_no_host6 x.0 }
{
    x.0 == 0 || x.0 == 1 || x.0 >> 120 == 0xff || x.0 >> 118 == 0x3fa
}

/// The first of the rules behind an accepted walk that holds. A packet for which none holds has a hop limit of at least
/// 2.
#[tactic(auto, unfolding(siit_device::specs::Rules6::walk_rows6))]
pub(crate) fn walk_rule(header: &Ipv6Header<'_>, walk: Walk) -> Option<Rule>
    requires lengths { HasLength6 header.now }
    requires within { walk.at ≤ payload_length_in header.now }
    ensures rule { result ≡ first_of walk_rows6 (found_in header.now walk) }
    ensures alive { result ≡ None → 2 ≤ (ipv6_fields header.now).hop }
{
    if is_misshapen(header, walk) {
        return Some(Rule::FragmentShape6);
    }
    if header.hop() < 2 {
        return Some(Rule::Expired6);
    }
    if walk.segments.is_some() {
        return Some(Rule::SegmentsLeft6);
    }
    if walk.upper == ICMP {
        return Some(Rule::ProtocolClash6);
    }
    None
}
