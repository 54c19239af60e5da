//! What is sent back for a packet that is dropped.
ghost use Rattle.siit_errors.specs.Errors.{error_for4, error_for6};
ghost use Rattle.siit_model.specs.Extensions.{walk_of};
ghost use Rattle.siit_model.specs.Ipv6.{ipv6_fields};
ghost use Rattle.siit_upper.specs.Walks.{walked};
ghost use Rattle.siit_views.specs.Headers.{HasLength6, HasLengths4};
ghost use Rattle.std.specs.Prelude.{◌≡◌, ◌≤◌, ◌+◌, Ok, length, false, true, is_some, unwrap_or};

use crate::answers::{may_answer4, may_answer6_by};
use crate::make::{make_error4, make_error6};
use siit_addr::{Addr4, Addr6};
use siit_rules::{Answer, Rule};
use siit_upper::Walk;
use siit_views::{Ipv6Header, PacketBuf};

/// Makes the error that a device of the address `source` sends back for the IPv4 packet in the buffer, which it drops
/// by a rule, and tells whether there is one: none where the rule is silent or the packet may not be answered, and then
/// the buffer stays. `rest` are bytes 4 to 7 of the message. At least 28 bytes lie free before the packet, whose
/// lengths are those of a packet.
pub fn answer4(buf: &mut PacketBuf, rule: Rule, source: Addr4, rest: u32) -> bool
    requires packet { HasLengths4 buf.old.bytes }
    requires room { 28 ≤ buf.old.front }
    ensures answered { result ≡ is_some (error_for4 rule source.0 rest buf.old.bytes) }
    ensures bytes { buf.new.bytes ≡ unwrap_or (error_for4 rule source.0 rest buf.old.bytes) buf.old.bytes }
    ensures stays { result ≡ false → buf.new ≡ buf.old }
    ensures front { result ≡ true → buf.new.front + 28 ≡ buf.old.front }
{
    let Answer::Icmp4 { kind, code } = rule.answer() else {
        return false;
    };
    if !may_answer4(buf.bytes()) {
        return false;
    }
    make_error4(buf, source, kind, code, rest);
    true
}

/// The same for an IPv6 packet, by the walk over its extension headers. At least 48 bytes lie free before it.
pub fn answer6(buf: &mut PacketBuf, walk: &Walk, rule: Rule, source: Addr6, rest: u32) -> bool
    requires packet { HasLength6 buf.old.bytes }
    requires walk { walk_of (ipv6_fields buf.old.bytes).next (ipv6_fields buf.old.bytes).body ≡ Ok (walked walk.now) }
    requires within { walk.now.at ≤ length (ipv6_fields buf.old.bytes).body }
    requires room { 48 ≤ buf.old.front }
    ensures answered { result ≡ is_some (error_for6 rule source.0 rest buf.old.bytes) }
    ensures bytes { buf.new.bytes ≡ unwrap_or (error_for6 rule source.0 rest buf.old.bytes) buf.old.bytes }
    ensures stays { result ≡ false → buf.new ≡ buf.old }
    ensures front { result ≡ true → buf.new.front + 48 ≡ buf.old.front }
{
    let Answer::Icmp6 { kind, code } = rule.answer() else {
        return false;
    };
    if !may_answer6_by(&Ipv6Header::new(buf.bytes()), walk) {
        return false;
    }
    make_error6(buf, source, kind, code, rest);
    true
}
