//! The packet for the IPv6 side, whole or to be cut.
ghost use Rattle.siit_arrival4.specs.Arrived.{HasArrived4};
ghost use Rattle.siit_departure6.specs.Departed.{IsSent6};
ghost use Rattle.siit_device.specs.Arrival4.{is_error4};
ghost use Rattle.siit_model.specs.Ipv4.{ipv4_fields, total_length_in};
ghost use Rattle.siit_roles.specs.Limits.{IsWithinLimits};
ghost use Rattle.std.specs.Prelude.{◌≡◌, ◌≤◌, ◌+◌, length, false};

use crate::cut::plan_if;
use crate::error::put_error;
use crate::header::put_header;
use crate::upper::translate_upper;
use siit_arrival4::{Arrived4, Upper4};
use siit_fragments::CutPlan;
use siit_roles::Settings;
use siit_views::PacketBuf;

/// Makes of an IPv4 packet, of which `arrived` tells what its rules have found, the IPv6 packet that is sent, where it
/// lies (RFC 7915 section 4). A plan says that this packet is sent in the pieces that it cuts it into: the sender lets
/// it be cut, and it is longer than `settings.lowest` bytes. Bytes of the link behind the packet are gone. At least 96
/// bytes lie free before it, of which 60 may be used.
pub fn depart6(settings: &Settings, buf: &mut PacketBuf, arrived: &Arrived4) -> Option<CutPlan>
    requires arrived { HasArrived4 settings.now buf.old.bytes arrived.now }
    requires limits { IsWithinLimits settings.now }
    requires room { 96 ≤ buf.old.front }
    ensures sent { IsSent6 settings.now buf.old.bytes result buf.new.bytes }
    ensures front { buf.old.front ≤ buf.new.front + 60 }
{
    buf.cut_end(usize::from(arrived.total));
    depart_alone(settings, buf, arrived)
}

/// The same of a packet with no bytes of the link behind it.
fn depart_alone(settings: &Settings, buf: &mut PacketBuf, arrived: &Arrived4) -> Option<CutPlan>
    requires arrived { HasArrived4 settings.now buf.old.bytes arrived.now }
    requires no_padding { length buf.old.bytes ≡ total_length_in buf.old.bytes }
    requires short { length buf.old.bytes ≤ 65535 }
    requires limits { IsWithinLimits settings.now }
    requires room { 60 ≤ buf.old.front }
    ensures sent { IsSent6 settings.now buf.old.bytes result buf.new.bytes }
    ensures front { buf.old.front ≤ buf.new.front + 60 }
{
    match arrived.upper {
        Upper4::Error(error) => {
            put_error(settings, buf, arrived, &error);
            None
        }
        _ => depart_plain(settings, buf, arrived),
    }
}

/// The same of a packet that is no ICMP error.
fn depart_plain(settings: &Settings, buf: &mut PacketBuf, arrived: &Arrived4) -> Option<CutPlan>
    requires arrived { HasArrived4 settings.now buf.old.bytes arrived.now }
    requires no_error { is_error4 (ipv4_fields buf.old.bytes) ≡ false }
    requires no_padding { length buf.old.bytes ≡ total_length_in buf.old.bytes }
    requires short { length buf.old.bytes ≤ 65535 }
    requires limits { IsWithinLimits settings.now }
    requires room { 28 ≤ buf.old.front }
    ensures sent { IsSent6 settings.now buf.old.bytes result buf.new.bytes }
    ensures front { buf.old.front ≤ buf.new.front + 28 }
{
    let headers = put_header(settings, buf, arrived.new);
    translate_upper(buf.bytes_mut(), headers.len, headers.first, arrived);
    plan_if(headers.cut, buf.bytes().len(), settings.lowest)
}
