//! An IPv6 packet on its way to the IPv4 side.
ghost use Rattle.siit_arrival6.specs.Arrived.{HasArrived6, arrival_of};
ghost use Rattle.siit_arrival6.specs.declared.arrived.Way6.TheVariants.{On};
ghost use Rattle.siit_departure4.specs.Departed.{IsSent4};
ghost use Rattle.siit_device.specs.Backward.{is_number_used};
ghost use Rattle.siit_device.specs.Rules6.{first_rule6};
ghost use Rattle.siit_roles.specs.Limits.{IsWithinLimits};
ghost use Rattle.std.specs.Prelude.{◌≡◌, ◌≤◌, None};

use crate::cut::cut_plan;
use crate::source::{is_number_used, new_head};
use crate::upper::new_upper;
use siit_addr::Addr4;
use siit_arrival6::{Arrived6, Error6};
use siit_fragments::CutPlan;
use siit_roles::Settings;
use siit_v6to4::head64_by;
use siit_views::PacketBuf;

/// How a packet is sent.
#[derive(Clone, Copy, Debug, PartialEq, Eq)]
pub struct Sent4 {
    /// The plan by which it is cut, None where it is sent in one piece.
    pub plan: Option<CutPlan>,
    /// Whether the number that was handed in is its identification, since no Fragment header brings one.
    pub used: bool,
}

/// Makes the IPv6 packet in the buffer the IPv4 packet that goes on to this address, where it lies (RFC 7915 section
/// 5). Its source is this one, or that of the pool by the identification, which is `ident` where no Fragment header
/// brings one. An ICMPv6 error is translated with its quote. Bytes of the link behind the packet are cut off.
pub fn depart4(
    settings: &Settings,
    buf: &mut PacketBuf,
    arrived: &Arrived6,
    src: Option<Addr4>,
    dst: Addr4,
    error: Option<Error6>,
    ident: u16,
) -> Sent4
    requires unruled { first_rule6 settings.now buf.old.bytes ≡ None }
    requires arrived { HasArrived6 settings.now buf.old.bytes arrived.now }
    requires way { arrived.now.way ≡ On src dst error }
    requires limits { IsWithinLimits settings.now }
    ensures sent { IsSent4 settings.now buf.old.bytes arrived.now ident result.plan buf.new.bytes }
    ensures used { result.used ≡ is_number_used (arrival_of buf.old.bytes arrived.now).walked.fragment }
    ensures front { buf.old.front ≤ buf.new.front }
{
    let to = new_head(settings, buf.bytes(), arrived, src, dst, ident);
    buf.cut_end(40 + usize::from(arrived.len));
    new_upper(settings, buf, arrived, &to, error);
    head64_by(buf, &to, &arrived.walk);
    Sent4 {
        plan: cut_plan(settings, arrived.len, buf.bytes().len()),
        used: is_number_used(arrived.walk.frag),
    }
}
