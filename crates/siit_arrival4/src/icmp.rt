//! The rules on types, codes and pointers of ICMP (RFC 792, RFC 7915 section 4.2).
ghost use Rattle.siit_arrival4.specs.Kinds.{HasKind4};
ghost use Rattle.siit_arrival4.specs.Parts.{icmp_rows4};
ghost use Rattle.siit_device.specs.Rows.{first_of};
ghost use Rattle.siit_model.specs.Ipv4.{ipv4_fields, is_whole4};
ghost use Rattle.siit_views.specs.Headers.{HasLengths4};
ghost use Rattle.std.specs.Prelude.{◌≡◌, ◌≤◌, length, true, None, Some, IfErr, IfOk, OnOk};

use crate::kinds::Kind4;
use siit_icmp::{is_error_kind4, pointer46, type46};
use siit_rules::Rule;
use siit_views::Ipv4Header;

/// The type of a Parameter Problem.
const PARAMETER_PROBLEM: u8 = 12;

/// What becomes of a whole ICMP message, or the first of these rules that holds.
#[tactic(auto, unfolding(crate::specs::Parts::icmp_rows4))]
pub(crate) fn icmp_kind(header: &Ipv4Header<'_>) -> Result<Kind4, Rule>
    requires lengths { HasLengths4 header.now }
    requires icmp { (ipv4_fields header.now).protocol ≡ 1 }
    requires whole { is_whole4 (ipv4_fields header.now) ≡ true }
    requires long { 8 ≤ length (ipv4_fields header.now).payload }
    ensures refused { IfErr result (λ rule. first_of icmp_rows4 (ipv4_fields header.now) ≡ Some rule) }
    ensures accepted { OnOk result (first_of icmp_rows4 (ipv4_fields header.now) ≡ None) }
    ensures kind { IfOk result (λ kind. HasKind4 (ipv4_fields header.now) kind) }
{
    let message = header.payload();
    let kind = message[0];
    let new = match type46(kind, message[1]) {
        Ok(new) => new,
        Err(rule) => return Err(rule),
    };
    if kind == PARAMETER_PROBLEM && pointer46(message[4]).is_none() {
        return Err(Rule::IcmpPointer4);
    }
    if is_error_kind4(kind) {
        Ok(Kind4::Error(new))
    } else {
        Ok(Kind4::Moved)
    }
}
