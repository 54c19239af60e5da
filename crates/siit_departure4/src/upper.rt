//! The upper part on the IPv4 side, before the header (RFC 7915 sections 5.2, 5.3 and 5.5).
ghost use Rattle.siit_arrival6.specs.Arrived.{HasError6, HasErrorOrNone6, arrival_of};
ghost use Rattle.siit_departure4.specs.Parts.{HasUpper, IsAlone6, head_by};
ghost use Rattle.siit_device.specs.Arrival6.{arrived_fragment};
ghost use Rattle.siit_device.specs.Backward.{error_to_4, upper_backward};
ghost use Rattle.siit_model.specs.Fragments.{fields_in};
ghost use Rattle.siit_roles.specs.Limits.{IsWithinLimits};
ghost use Rattle.siit_upper.specs.Walks.{fragment_in};
ghost use Rattle.siit_v6to4.specs.To4.{bytes_to_4, ends_to_4};
ghost use Rattle.std.specs.Prelude.{◌≡◌, ◌≤◌, ◌==◌, length, not};

use crate::error::new_error;
use siit_addr::Addresses4;
use siit_arrival6::{Arrived6, Error6};
use siit_roles::Settings;
use siit_upper::Walk;
use siit_v6to4::{Head64, upper64_behind};
use siit_views::PacketBuf;
use siit_word::put16;

/// Gives the packet in the buffer the upper part that it has on the IPv4 side, behind its own headers. They stay, but
/// that the payload length is that of the new upper part.
pub(crate) fn new_upper(
    settings: &Settings,
    buf: &mut PacketBuf,
    arrived: &Arrived6,
    to: &Head64,
    error: Option<Error6>,
)
    requires limits { IsWithinLimits settings.now }
    requires packet { IsAlone6 buf.old.bytes arrived.now }
    requires message { HasErrorOrNone6 settings.now buf.old.bytes arrived.now error }
    ensures packet { let arrival = arrival_of buf.old.bytes arrived.now
        in HasUpper arrival (upper_backward settings.now (head_by to.now arrival) (arrived_fragment arrival)) buf.new.bytes }
    ensures shorter { length buf.new.bytes ≤ length buf.old.bytes }
    ensures front { buf.old.front ≤ buf.new.front }
{
    match error {
        Some(error) => error_upper(settings, buf, arrived, &error),
        None => moved_upper(buf.bytes_mut(), arrived, to),
    }
}

/// Translates an upper part that is no ICMPv6 error. Its length stays, and so does a later fragment.
fn moved_upper(bytes: &mut [u8], arrived: &Arrived6, to: &Head64)
    requires { IsAlone6 bytes.old arrived.now }
    ensures { let arrival = arrival_of bytes.old arrived.now in let f = arrived_fragment arrival
        in HasUpper arrival (bytes_to_4 (ends_to_4 (head_by to.now arrival) f.common) (length f.bytes) f) bytes.new }
{
    if is_later(&arrived.walk) {
        return;
    }
    let new = Addresses4 {
        src: to.src,
        dst: to.dst,
    };
    let at = arrived.walk.at;
    upper64_behind(
        bytes,
        40 + usize::from(at),
        arrived.walk.upper,
        arrived.old,
        new,
        arrived.len - at,
    );
}

/// Translates an upper part that is an ICMPv6 error, and writes the payload length that the packet has then.
fn error_upper(settings: &Settings, buf: &mut PacketBuf, arrived: &Arrived6, error: &Error6)
    requires limits { IsWithinLimits settings.now }
    requires packet { IsAlone6 buf.old.bytes arrived.now }
    requires upper { arrived.now.walk.upper ≡ 58 }
    requires message { HasError6 settings.now (arrived_fragment (arrival_of buf.old.bytes arrived.now)).bytes error.now }
    ensures packet { let arrival = arrival_of buf.old.bytes arrived.now in let f = arrived_fragment arrival
        in HasUpper arrival (error_to_4 settings.now f.common f.bytes) buf.new.bytes }
    ensures shorter { length buf.new.bytes ≤ length buf.old.bytes }
    ensures front { buf.old.front ≤ buf.new.front }
{
    let at = 40 + usize::from(arrived.walk.at);
    new_error(settings, buf, at, arrived.old, error);
    let len = buf.bytes().len() - 40;
    put16(buf.bytes_mut(), 4, len as u16);
}

/// Whether a packet is a later fragment, which has no checksum.
fn is_later(walk: &Walk) -> bool
    ensures { result ≡ not ((fields_in (fragment_in walk.now.frag)).offset == 0) }
{
    match walk.frag {
        Some(frag) => frag.offset != 0,
        None => false,
    }
}
