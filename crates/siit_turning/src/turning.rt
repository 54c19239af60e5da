//! The packet that goes back to the IPv6 side, where it came from.
ghost use Rattle.siit_arrival6.specs.Arrived.{HasArrived6, arrival_of};
ghost use Rattle.siit_arrival6.specs.declared.arrived.Way6.TheVariants.{Back};
ghost use Rattle.siit_device.specs.Turned.{packet_turned};
ghost use Rattle.siit_model.specs.Fragments.{fields_in};
ghost use Rattle.siit_model.specs.Ipv6.{ipv6_bytes, version6_in};
ghost use Rattle.siit_turning.specs.Back.{IsAcceptedError, exchanged, part_between, upper_between};
ghost use Rattle.siit_upper.specs.Walks.{fragment_in};
ghost use Rattle.std.specs.Prelude.{◌≡◌, ◌≤◌, ◌+◌, ◌++◌, ◌==◌, length, take, drop, not, IfSome};

use crate::error::turn_error;
use crate::header::{are_bytes, write_header};
use siit_addr::Addresses6;
use siit_arrival6::Arrived6;
use siit_roles::Settings;
use siit_upper::FragInfo;
use siit_v6to4::turn_upper;
use siit_views::PacketBuf;

/// The length of an IPv6 header in bytes.
const HEADER: usize = 40;

/// Makes the IPv6 packet in the buffer the one that goes back to the IPv6 side: it gets the addresses `new` and a hop
/// limit one less, and its checksum moves by them. The quote of an ICMPv6 error goes the other way: it gets the source
/// of `quote` as its destination. All else stays, extension headers too. Bytes of the link behind the packet are cut
/// off.
///
/// The settings are those by which the packet has arrived; what they say of it is in `arrived`.
pub fn turn_back(
    settings: &Settings,
    buf: &mut PacketBuf,
    arrived: &Arrived6,
    new: Addresses6,
    quote: Option<Addresses6>,
)
    requires version { version6_in buf.old.bytes ≡ 6 }
    requires arrived { HasArrived6 settings.now buf.old.bytes arrived.now }
    requires way { arrived.now.way ≡ Back new quote }
    ensures bytes { buf.new.bytes ≡ ipv6_bytes (packet_turned settings.now new (arrival_of buf.old.bytes arrived.now)) }
    ensures front { buf.old.front ≤ buf.new.front }
{
    buf.cut_end(HEADER + usize::from(arrived.len));
    are_bytes(buf.bytes());
    turn_behind(buf, arrived, new, quote);
    let len = buf.bytes().len() - HEADER;
    write_header(buf.bytes_mut(), len as u16, new);
}

/// Turns what stands behind the header and the extension headers, to the end of the bytes.
fn turn_behind(buf: &mut PacketBuf, arrived: &Arrived6, new: Addresses6, quote: Option<Addresses6>)
    requires inside { 40 + arrived.now.walk.at ≤ length buf.old.bytes }
    requires most { length buf.old.bytes ≤ 65575 }
    requires accepted { IfSome quote (λ addresses. IsAcceptedError (drop (40 + arrived.now.walk.at) buf.old.bytes)) }
    ensures bytes { let at = 40 + arrived.now.walk.at
        in buf.new.bytes ≡ take at buf.old.bytes ++ upper_between arrived.now new quote (drop at buf.old.bytes) }
    ensures front { buf.old.front ≤ buf.new.front }
{
    let at = HEADER + usize::from(arrived.walk.at);
    match quote {
        Some(quote) => turn_error(buf, at, arrived.old, new, exchanged(quote)),
        None => turn_part(buf.bytes_mut(), at, arrived, new),
    }
}

/// The addresses of the other way.
fn exchanged(addresses: Addresses6) -> Addresses6
    ensures { result ≡ exchanged addresses }
{
    Addresses6 {
        src: addresses.dst,
        dst: addresses.src,
    }
}

/// Moves the checksum of what stands from `at` on, which is no ICMPv6 error. The bytes of a later fragment stay.
fn turn_part(bytes: &mut [u8], at: usize, arrived: &Arrived6, new: Addresses6)
    requires inside { at ≤ length bytes.old }
    requires most { length bytes.old ≤ 65575 }
    requires header { 40 ≤ at }
    ensures { bytes.new ≡ take at bytes.old ++ part_between arrived.now new (drop at bytes.old) }
{
    if is_later(arrived.walk.frag) {
        return;
    }
    let len = bytes.len() - at;
    let part = &mut bytes[at..];
    turn_upper(arrived.walk.upper, part, arrived.old, new, len as u16);
}

/// Whether a packet is a later fragment, in which no upper part begins.
fn is_later(frag: Option<FragInfo>) -> bool
    ensures { result ≡ not ((fields_in (fragment_in frag)).offset == 0) }
{
    match frag {
        Some(frag) => frag.offset != 0,
        None => false,
    }
}
