//! Whether a packet is cut, and how (RFC 7915 section 5).
ghost use Rattle.siit_fragments.specs.Plans.{IsPlanFor, plan_of};
ghost use Rattle.siit_roles.specs.Limits.{IsWithinLimits};
ghost use Rattle.std.specs.Prelude.{◌≡◌, ◌≤◌, ◌+◌, ◌&&◌, nat_le, nat_lt, is_some, IfSome};

use siit_fragments::{CutPlan, plan};
use siit_roles::Settings;

/// The longest packet that every IPv6 link carries, in bytes (RFC 8200 section 5).
const LEAST_MTU6: u32 = 1280;

/// The length of an IPv4 header without options, in bytes.
const HEADER: u16 = 20;

/// The plan for a packet that every IPv6 link carries, whose IPv4 form of `total` bytes the IPv4 side can't carry. None
/// for every other packet. `len` is the payload length in bytes that it arrived with.
pub(crate) fn cut_plan(settings: &Settings, len: u16, total: usize) -> Option<CutPlan>
    requires limits { IsWithinLimits settings.now }
    requires total { total ≤ 65535 }
    ensures cut { is_some result ≡ (nat_le (40 + len) 1280 && nat_lt settings.now.mtu4 total) }
    ensures plan { IfSome result (λ plan. plan ≡ plan_of total 20 settings.now.mtu4) }
    ensures planned { IfSome result (λ plan. IsPlanFor total plan) }
{
    if 40 + u32::from(len) > LEAST_MTU6 || total <= usize::from(settings.mtu4) {
        return None;
    }
    Some(plan(total as u32, HEADER, u32::from(settings.mtu4)))
}
