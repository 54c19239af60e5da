//! ICMP messages that come out of a pair (RFC 7915 sections 4.2, 4.3, 5.2 and 5.3).
ghost use Rattle.siit_pair.specs.Same.{error_backward, error_forward, is_same_error, is_same_icmp, unsummed};
ghost use Rattle.siit_roles.specs.Limits.{IsWithinLimits};
ghost use Rattle.std.specs.Prelude.{◌≡◌, ◌≤◌, ◌+◌, length, true, false, Some, None};

use crate::accepted::{accepted_error4, accepted_error6};
use crate::equal::{is_same_moved, is_same_unsummed};
use crate::transport::have_header;
use siit_addr::{Addr6, Addresses6};
use siit_checksum::sum_of;
use siit_departure4::new_error;
use siit_departure6::translate_message;
use siit_icmp::is_error_kind4;
use siit_roles::Settings;
use siit_views::PacketBuf;

/// The length of the header of an ICMP message in bytes (RFC 792).
const HEADER: usize = 8;

/// The place of the checksum in it.
const CHECKSUM: usize = 2;

/// The length of an IPv6 header in bytes (RFC 8200 section 3).
const IPV6_HEADER: usize = 40;

/// The unspecified address (RFC 4291 section 2.5.2) for both ends of a packet whose checksum nobody looks at.
const UNSPECIFIED: Addresses6 = Addresses6 {
    src: Addr6(0),
    dst: Addr6(0),
};

/// Whether an ICMP message came out as it went in: an echo message but for the spelling of its checksum, and an error
/// as both devices translate it, which is done in `work`. Others don't come out.
pub(crate) fn is_same_icmp(
    first: &Settings,
    second: &Settings,
    old: &[u8],
    new: &[u8],
    work: &mut PacketBuf,
) -> bool
    requires first { IsWithinLimits first.now }
    requires second { IsWithinLimits second.now }
    requires most { length old.now ≤ 65535 }
    ensures { result ≡ is_same_icmp first.now second.now old.now new.now }
{
    if !have_header(HEADER, old, new) {
        return false;
    }
    match old[0] {
        8 | 0 => is_same_moved(CHECKSUM, old, new),
        kind => is_error_kind4(kind) && is_same_error(first, second, old, new, work),
    }
}

/// The same of an ICMP error.
fn is_same_error(
    first: &Settings,
    second: &Settings,
    old: &[u8],
    new: &[u8],
    work: &mut PacketBuf,
) -> bool
    requires first { IsWithinLimits first.now }
    requires second { IsWithinLimits second.now }
    requires most { length old.now ≤ 65535 }
    requires old { 8 ≤ length old.now }
    requires new { 8 ≤ length new.now }
    ensures { result ≡ is_same_error first.now second.now old.now new.now }
{
    if sum_of(new) != sum_of(old) {
        return false;
    }
    work.load(old);
    if !go_forward(first, work) {
        return false;
    }
    if !go_backward(second, work) {
        return false;
    }
    is_same_unsummed(CHECKSUM, work.bytes(), new)
}

/// Makes of the ICMPv4 error in the buffer the ICMPv6 error that a device makes of it, with some checksum, and answers
/// whether it makes one.
fn go_forward(settings: &Settings, work: &mut PacketBuf) -> bool
    requires limits { IsWithinLimits settings.now }
    requires header { 8 ≤ length work.old.bytes }
    requires most { length work.old.bytes ≤ 65535 }
    requires front { work.old.front ≡ 256 }
    ensures none { result ≡ false → error_forward settings.now work.old.bytes ≡ None }
    ensures made { result ≡ true → error_forward settings.now work.old.bytes ≡ Some (unsummed 2 work.new.bytes) }
    ensures header { result ≡ true → 8 ≤ length work.new.bytes }
    ensures short { result ≡ true → length work.new.bytes ≤ 1240 }
    ensures front { result ≡ true → 216 ≤ work.new.front }
{
    match accepted_error4(settings, work.bytes()) {
        Some(error) => {
            translate_message(settings, work, 0, UNSPECIFIED, &error);
            true
        }
        None => false,
    }
}

/// Makes of the ICMPv6 error in the buffer the ICMPv4 error that a device makes of it, with some checksum, and answers
/// whether it makes one.
fn go_backward(settings: &Settings, work: &mut PacketBuf) -> bool
    requires limits { IsWithinLimits settings.now }
    requires header { 8 ≤ length work.old.bytes }
    requires short { length work.old.bytes ≤ 1240 }
    requires front { 40 ≤ work.old.front }
    ensures none { result ≡ false → error_backward settings.now work.old.bytes ≡ None }
    ensures made { result ≡ true → error_backward settings.now work.old.bytes ≡ Some (unsummed 2 work.new.bytes) }
    ensures header { result ≡ true → 8 ≤ length work.new.bytes }
{
    match accepted_error6(settings, work.bytes()) {
        Some(error) => {
            work.grow_front(IPV6_HEADER);
            new_error(settings, work, IPV6_HEADER, UNSPECIFIED, &error);
            work.shrink_front(IPV6_HEADER);
            true
        }
        None => false,
    }
}
