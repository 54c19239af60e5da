//! The plan by which a packet is cut (RFC 7915 section 4, RFC 8200 section 4.5).
ghost use Rattle.siit_departure6.specs.Parts.{IsPlanned};
ghost use Rattle.std.specs.Prelude.{◌≡◌, ◌<◌, ◌≤◌, true, false, IfSome, IfNone};

use siit_fragments::{CutPlan, plan};

/// The length of an IPv6 header and a Fragment header, which stand before each piece.
const HEADERS: u16 = 48;

/// The plan for a packet of `len` bytes, headers among them, that is cut for an MTU, and none for one that isn't cut.
pub(crate) fn plan_if(cut: bool, len: usize, mtu: u16) -> Option<CutPlan>
    requires room { 1280 ≤ mtu }
    requires most { len ≤ 65575 }
    requires long { cut ≡ true → mtu < len }
    ensures whole { IfNone result (cut ≡ false) }
    ensures cut { IfSome result (λ plan. (cut ≡ true) × IsPlanned len mtu plan) }
{
    if cut {
        Some(plan(len as u32, HEADERS, u32::from(mtu)))
    } else {
        None
    }
}
