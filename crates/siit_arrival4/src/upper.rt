//! The rules that the upper part decides (RFC 7915 sections 4.2, 4.3 and 4.5), and what becomes of it.
ghost use Rattle.siit_arrival4.specs.Kinds.{HasKind4};
ghost use Rattle.siit_device.specs.Rows.{first_of};
ghost use Rattle.siit_device.specs.Rules4.{upper_rows4};
ghost use Rattle.siit_model.specs.Ipv4.{ipv4_fields};
ghost use Rattle.siit_views.specs.Headers.{HasLengths4};
ghost use Rattle.std.specs.Prelude.{◌≡◌, None, Some, IfErr, IfOk, OnOk};

use crate::icmp::icmp_kind;
use crate::kinds::Kind4;
use crate::shape::{is_upper_short, is_whole};
use crate::udp::{lacks_checksum, udp_kind};
use siit_roles::Settings;
use siit_rules::Rule;
use siit_upper::ICMP;
use siit_views::Ipv4Header;

/// What becomes of the upper part, or the first of these rules that holds.
#[tactic(auto, unfolding(siit_device::specs::Rules4::upper_rows4, crate::specs::Parts::udp_rows4, crate::specs::Parts::icmp_rows4))]
pub(crate) fn upper_kind(settings: &Settings, header: &Ipv4Header<'_>) -> Result<Kind4, Rule>
    requires { HasLengths4 header.now }
    ensures refused { IfErr result (λ rule. first_of (upper_rows4 settings.now) (ipv4_fields header.now) ≡ Some rule) }
    ensures accepted { OnOk result (first_of (upper_rows4 settings.now) (ipv4_fields header.now) ≡ None) }
    ensures kind { IfOk result (λ kind. HasKind4 (ipv4_fields header.now) kind) }
{
    if is_upper_short(header) {
        return Err(Rule::UpperShort4);
    }
    if header.protocol() == ICMP {
        if !is_whole(header) {
            return Err(Rule::IcmpFragment4);
        }
        return icmp_kind(header);
    }
    if lacks_checksum(header) {
        return udp_kind(settings, header);
    }
    Ok(Kind4::Moved)
}
