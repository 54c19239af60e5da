//! An ICMP error: its message, and its header (RFC 7915 sections 4.1 to 4.3).
ghost use Rattle.siit_arrival4.specs.Arrived.{HasArrived4};
ghost use Rattle.siit_arrival4.specs.declared.arrived.Upper4.TheVariants.{Error};
ghost use Rattle.siit_departure6.specs.Parts.{header_for};
ghost use Rattle.siit_device.specs.Forward.{whole6};
ghost use Rattle.siit_model.specs.Ipv4.{ipv4_fields, total_length_in};
ghost use Rattle.siit_model.specs.Ipv6.{ipv6_bytes};
ghost use Rattle.siit_views.specs.Writers.{packet_in6};
ghost use Rattle.std.specs.Prelude.{◌≡◌, ◌≤◌, ◌+◌, length};

use crate::header::class_for;
use crate::message::translate_message;
use siit_addr::Addresses6;
use siit_arrival4::{Arrived4, Error4};
use siit_roles::Settings;
use siit_upper::ICMPV6;
use siit_views::{Fields6, Ipv4Header, PacketBuf, ipv6_header, replace_front};

/// Makes the packet of an ICMPv4 error the packet of the ICMPv6 error, which has at most 1,280 bytes and is never cut.
pub(crate) fn put_error(
    settings: &Settings,
    buf: &mut PacketBuf,
    arrived: &Arrived4,
    error: &Error4,
)
    requires arrived { HasArrived4 settings.now buf.old.bytes arrived.now }
    requires error { arrived.now.upper ≡ Error error.now }
    requires no_padding { length buf.old.bytes ≡ total_length_in buf.old.bytes }
    requires short { length buf.old.bytes ≤ 65535 }
    requires mtu { 1280 ≤ settings.now.mtu6 }
    requires room { 60 ≤ buf.old.front }
    ensures bytes { buf.new.bytes ≡ ipv6_bytes (whole6 settings.now (ipv4_fields buf.old.bytes)) }
    ensures front { buf.old.front ≤ buf.new.front + 60 }
{
    let fields = fields_for(settings, &Ipv4Header::new(buf.bytes()), arrived.new);
    translate_message(
        settings,
        buf,
        usize::from(arrived.header_len),
        arrived.new,
        error,
    );
    let len = buf.bytes().len() as u16;
    replace_front(buf, 0, &ipv6_header(&fields, len));
}

/// The fields of the IPv6 header of an ICMPv6 message, one hop on.
fn fields_for(settings: &Settings, header: &Ipv4Header<'_>, new: Addresses6) -> Fields6
    requires { 1 ≤ (ipv4_fields header.now).ttl }
    ensures { packet_in6 result ≡ header_for settings.now new (ipv4_fields header.now) }
{
    Fields6 {
        class: class_for(settings, header.tos()),
        hop: header.ttl() - 1,
        next: ICMPV6,
        src: new.src,
        dst: new.dst,
    }
}
