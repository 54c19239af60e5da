//! The rule on packets that may not be cut (RFC 7915 section 4).
ghost use Rattle.siit_arrival4.specs.Arrived.{HasUpper4};
ghost use Rattle.siit_device.specs.Arrival4 as model;
ghost use Rattle.siit_device.specs.Rows.{first_of};
ghost use Rattle.siit_device.specs.Rules4.{size_rows4};
ghost use Rattle.siit_model.specs.Ipv4.{ipv4_fields, total_length4};
ghost use Rattle.siit_views.specs.Headers.{HasLengths4};
ghost use Rattle.std.specs.Prelude.{◌≡◌, ◌+◌};

use crate::arrived::Upper4;
use crate::shape::is_whole;
use siit_roles::Settings;
use siit_rules::Rule;
use siit_views::Ipv4Header;

/// The rule where a packet, which may be an ICMP error, may not be cut and is too long for the IPv6 side. ICMP errors
/// never are.
#[tactic(auto, unfolding(siit_device::specs::Rules4::size_rows4))]
pub(crate) fn size_rule(
    settings: &Settings,
    header: &Ipv4Header<'_>,
    upper: &Upper4,
) -> Option<Rule>
    requires lengths { HasLengths4 header.now }
    requires upper { HasUpper4 settings.now (ipv4_fields header.now) upper.now }
    ensures { result ≡ first_of (size_rows4 settings.now) (ipv4_fields header.now) }
{
    let is_error = matches!(upper, Upper4::Error(_));
    if header.df() && !is_error && form6(header) > u32::from(settings.mtu6) {
        return Some(Rule::TooBig4);
    }
    None
}

/// How long the packet would be on the IPv6 side, options counted.
fn form6(header: &Ipv4Header<'_>) -> u32
    requires { HasLengths4 header.now }
    ensures { result ≡ total_length4 (ipv4_fields header.now) + model.growth4 (ipv4_fields header.now) }
{
    let growth = if is_whole(header) { 20 } else { 28 };
    u32::from(header.total()) + growth
}
