//! Which packets are answered by an error.
ghost use Rattle.siit_errors.specs.Answers as model;
ghost use Rattle.siit_errors.specs.Answers.{is_answerable, is_perhaps_error};
ghost use Rattle.siit_icmp.specs.Errors as icmp;
ghost use Rattle.siit_model.specs.Extensions.{walk_of};
ghost use Rattle.siit_model.specs.Fragments.{fields_in, fragment_by};
ghost use Rattle.siit_model.specs.Ipv6.{ipv6_fields};
ghost use Rattle.siit_upper.specs.Walks.{fragment_in, walked};
ghost use Rattle.siit_views.specs.Headers.{HasLength6, HasLengths4};
ghost use Rattle.std.specs.Prelude.{◌≡◌, ◌≤◌, ◌==◌, Ok, length, not};

use siit_icmp::{is_error_kind4, is_error_kind6};
use siit_upper::{ICMP, ICMPV6, Walk, walk_ext};
use siit_views::{Ipv4Header, Ipv6Header};

/// Whether an IPv4 packet may be answered by an error: it is no later fragment, and no ICMP error or ICMP message
/// without a type (RFC 1122 section 3.2.2). Its lengths are those of a packet; bytes of the link behind it don't count.
pub fn may_answer4(bytes: &[u8]) -> bool
    requires { HasLengths4 bytes.now }
    ensures { result ≡ model.may_answer4 bytes.now }
{
    may_answer4_by(&Ipv4Header::new(bytes))
}

/// The same for a packet whose header is looked at already.
pub fn may_answer4_by(header: &Ipv4Header<'_>) -> bool
    requires { HasLengths4 header.now }
    ensures { result ≡ model.may_answer4 header.now }
{
    header.offset() == 0 && !(header.protocol() == ICMP && is_perhaps_error4(header.payload()))
}

/// Whether an IPv6 packet may be answered by an error: its extension headers are accepted, it is no later fragment, and
/// no ICMPv6 error or ICMPv6 message without a type (RFC 4443 section 2.4). Its length is that of a packet; bytes of
/// the link behind it don't count.
pub fn may_answer6(bytes: &[u8]) -> bool
    requires { HasLength6 bytes.now }
    ensures { result ≡ model.may_answer6 bytes.now }
{
    let header = Ipv6Header::new(bytes);
    match walk_ext(header.payload(), header.next()) {
        Ok(walk) => may_answer6_by(&header, &walk),
        Err(_) => false,
    }
}

/// The same for a packet whose header is looked at already, by the walk over its extension headers.
pub fn may_answer6_by(header: &Ipv6Header<'_>, walk: &Walk) -> bool
    requires packet { HasLength6 header.now }
    requires walk { walk_of (ipv6_fields header.now).next (ipv6_fields header.now).body ≡ Ok (walked walk.now) }
    requires within { walk.now.at ≤ length (ipv6_fields header.now).body }
    ensures { result ≡ model.may_answer6 header.now }
{
    is_answerable6(header, walk)
}

/// Whether the packet by this walk is no later fragment, and no ICMPv6 error or ICMPv6 message without a type.
fn is_answerable6(header: &Ipv6Header<'_>, walk: &Walk) -> bool
    requires packet { HasLength6 header.now }
    requires within { walk.now.at ≤ length (ipv6_fields header.now).body }
    ensures { result ≡ is_answerable 58 icmp.is_error_kind6 (fragment_by (ipv6_fields header.now) (walked walk.now)) }
{
    let part = &header.payload()[usize::from(walk.at)..];
    !is_later_fragment(walk) && !(walk.upper == ICMPV6 && is_perhaps_error6(part))
}

/// Whether a walk came by a Fragment header of another offset than 0.
fn is_later_fragment(walk: &Walk) -> bool
    ensures { result ≡ not ((fields_in (fragment_in walk.now.frag)).offset == 0) }
{
    matches!(walk.frag, Some(frag) if frag.offset != 0)
}

/// Whether an ICMPv4 message is an error, or has no type.
fn is_perhaps_error4(part: &[u8]) -> bool
    ensures { result ≡ is_perhaps_error icmp.is_error_kind4 part.now }
{
    match part.first() {
        Some(kind) => is_error_kind4(*kind),
        None => true,
    }
}

/// Whether an ICMPv6 message is an error, or has no type.
fn is_perhaps_error6(part: &[u8]) -> bool
    ensures { result ≡ is_perhaps_error icmp.is_error_kind6 part.now }
{
    match part.first() {
        Some(kind) => is_error_kind6(*kind),
        None => true,
    }
}
