//! The rules on UDP without checksum (RFC 768, RFC 7915 section 4.5).
ghost use Rattle.siit_arrival4.specs.Kinds.{HasKind4};
ghost use Rattle.siit_arrival4.specs.Parts.{udp_rows4};
ghost use Rattle.siit_device.specs.Arrival4 as model;
ghost use Rattle.siit_device.specs.Rows.{first_of};
ghost use Rattle.siit_model.specs.Ipv4.{ipv4_fields};
ghost use Rattle.siit_views.specs.Headers.{HasLengths4};
ghost use Rattle.std.specs.Prelude.{◌≡◌, ◌≤◌, length, true, false, None, Some, IfErr, IfOk, OnOk};

use crate::kinds::Kind4;
use crate::shape::is_whole;
use siit_roles::Settings;
use siit_rules::Rule;
use siit_upper::UDP;
use siit_views::Ipv4Header;
use siit_word::get16;

/// Whether UDP begins here and has no checksum. Its header is whole then.
pub(crate) fn lacks_checksum(header: &Ipv4Header<'_>) -> bool
    requires lengths { HasLengths4 header.now }
    requires long { model.is_upper_short4 (ipv4_fields header.now) ≡ false }
    ensures lacks { result ≡ model.lacks_checksum4 (ipv4_fields header.now) }
    ensures long { result ≡ true → 8 ≤ length (ipv4_fields header.now).payload }
{
    header.protocol() == UDP && header.offset() == 0 && get16(header.payload(), 6) == 0
}

/// What becomes of UDP without checksum, or the first of these rules that holds: a fragment, a setting, and another
/// length than the packet's.
#[tactic(auto, unfolding(crate::specs::Parts::udp_rows4))]
pub(crate) fn udp_kind(settings: &Settings, header: &Ipv4Header<'_>) -> Result<Kind4, Rule>
    requires lengths { HasLengths4 header.now }
    requires lacks { model.lacks_checksum4 (ipv4_fields header.now) ≡ true }
    requires long { 8 ≤ length (ipv4_fields header.now).payload }
    ensures refused { IfErr result (λ rule. first_of (udp_rows4 settings.now) (ipv4_fields header.now) ≡ Some rule) }
    ensures accepted { OnOk result (first_of (udp_rows4 settings.now) (ipv4_fields header.now) ≡ None) }
    ensures kind { IfOk result (λ kind. HasKind4 (ipv4_fields header.now) kind) }
{
    if !is_whole(header) {
        return Err(Rule::UdpZeroFragment4);
    }
    if !settings.udp_compute {
        return Err(Rule::UdpZero4);
    }
    let payload = header.payload();
    if usize::from(get16(payload, 4)) != payload.len() {
        return Err(Rule::UdpLength4);
    }
    Ok(Kind4::Bare)
}
