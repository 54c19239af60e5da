//! The rules that the upper part decides, and those on types, codes and pointers of ICMPv6 (RFC 4443, RFC 7915 section
//! 5.2).
ghost use Rattle.siit_arrival6.specs.Kinds.{HasKind6};
ghost use Rattle.siit_arrival6.specs.Parts.{found_in, icmp_rows6};
ghost use Rattle.siit_device.specs.Arrival6.{arrived_fragment};
ghost use Rattle.siit_device.specs.Rows.{first_of};
ghost use Rattle.siit_device.specs.Rules6.{upper_rows6};
ghost use Rattle.siit_icmp.specs.Icmp.{pointer_to_4};
ghost use Rattle.siit_model.specs.Bytes.{field8, field32};
ghost use Rattle.siit_model.specs.Fragments as fragments;
ghost use Rattle.siit_model.specs.Ipv6.{payload_length_in};
ghost use Rattle.siit_views.specs.Headers.{HasLength6};
ghost use Rattle.std.specs.Prelude.{◌≡◌, ◌≤◌, ◌==◌, ◌&&◌, is_none, length, true, None, Some, IfErr, IfOk, OnOk};

use crate::shape::{is_upper_short, is_whole, upper_part};
use siit_icmp::{NewKind, is_error_kind6, pointer64, type64};
use siit_rules::Rule;
use siit_upper::{ICMPV6, Walk};
use siit_views::Ipv6Header;
use siit_word::get32;

/// The new type and code of an ICMPv6 error, none of another upper part, or the first of these rules that holds.
#[tactic(auto, unfolding(siit_device::specs::Rules6::upper_rows6, crate::specs::Parts::icmp_rows6))]
pub(crate) fn upper_kind(header: &Ipv6Header<'_>, walk: Walk) -> Result<Option<NewKind>, Rule>
    requires lengths { HasLength6 header.now }
    requires within { walk.at ≤ payload_length_in header.now }
    ensures refused { IfErr result (λ rule. first_of upper_rows6 (found_in header.now walk) ≡ Some rule) }
    ensures accepted { OnOk result (first_of upper_rows6 (found_in header.now walk) ≡ None) }
    ensures kind { IfOk result (λ kind. HasKind6 (found_in header.now walk) kind) }
{
    if is_upper_short(header, walk) {
        return Err(Rule::UpperShort6);
    }
    if walk.upper != ICMPV6 {
        return Ok(None);
    }
    if !is_whole(walk) {
        return Err(Rule::IcmpFragment6);
    }
    icmp_kind(header, walk)
}

/// The same for a whole ICMPv6 message.
#[tactic(auto, unfolding(crate::specs::Parts::icmp_rows6))]
fn icmp_kind(header: &Ipv6Header<'_>, walk: Walk) -> Result<Option<NewKind>, Rule>
    requires lengths { HasLength6 header.now }
    requires within { walk.at ≤ payload_length_in header.now }
    requires icmp { walk.upper ≡ 58 }
    requires whole { fragments.is_whole (arrived_fragment (found_in header.now walk)) ≡ true }
    requires long { 8 ≤ length (arrived_fragment (found_in header.now walk)).bytes }
    ensures refused { IfErr result (λ rule. first_of icmp_rows6 (found_in header.now walk) ≡ Some rule) }
    ensures accepted { OnOk result (first_of icmp_rows6 (found_in header.now walk) ≡ None) }
    ensures kind { IfOk result (λ kind. HasKind6 (found_in header.now walk) kind) }
{
    let message = upper_part(header, walk);
    let new = match type64(message[0], message[1]) {
        Ok(new) => new,
        Err(rule) => return Err(rule),
    };
    if has_bad_pointer(message) {
        return Err(Rule::IcmpPointer6);
    }
    if is_error_kind6(message[0]) {
        Ok(Some(new))
    } else {
        Ok(None)
    }
}

/// Whether a message is a Parameter Problem about a field that IPv4 doesn't have.
fn has_bad_pointer(message: &[u8]) -> bool
    requires { 8 ≤ length message.now }
    ensures { result ≡ ((field8 message.now 0 == 4) && (field8 message.now 1 == 0) && is_none (pointer_to_4 (field32 message.now 4))) }
{
    message[0] == 4 && message[1] == 0 && pointer64(get32(message, 4)).is_none()
}
