//! Whether a device translates an ICMP error (RFC 7915 sections 4.2, 4.3, 5.2 and 5.3), as far as its message tells.
ghost use Rattle.siit_arrival4.specs.Arrived.{AreMapped6, HasError4};
ghost use Rattle.siit_arrival6.specs.Arrived.{AreMapped4, HasError6};
ghost use Rattle.siit_icmp.specs.Icmp.{pointer_to_4, pointer_to_6};
ghost use Rattle.siit_icmp.specs.declared.kinds.Rest.TheVariants.{Pointer};
ghost use Rattle.siit_map.specs.Mapping.{ipv4_for, ipv6_for};
ghost use Rattle.siit_model.specs.Bytes.{field8, field32};
ghost use Rattle.siit_pair.specs.Same.{error_backward, error_forward, has_pointer4, has_pointer6};
ghost use Rattle.std.specs.Prelude.{◌≡◌, ◌≤◌, ◌<◌, ◌&&◌, length, false, is_ok, None, IfSome, IfNone};

use siit_addr::{Addresses4, Addresses6};
use siit_arrival4::Error4;
use siit_arrival6::Error6;
use siit_eamt::Steps;
use siit_icmp::{Rest, pointer46, pointer64, type46, type64};
use siit_quoted::{quote_addresses4, quote_addresses6, quote_part};
use siit_roles::Settings;
use siit_rules::Family;
use siit_word::get32;
use std::marker::Brand;
use std::sync::ledger::{Blank, Ledger};

/// What a device makes of an ICMPv4 error: its new type, and the new addresses of its quote. None where the device has
/// no translation of it.
pub(crate) fn accepted_error4(settings: &Settings, message: &[u8]) -> Option<Error4>
    requires header { 8 ≤ length message.now }
    ensures error { IfSome result (λ error. HasError4 settings.now message.now error) }
    ensures none { IfNone result (error_forward settings.now message.now ≡ None) }
{
    let Ok(new) = type46(message[0], message[1]) else {
        return None;
    };
    if !has_pointer6(new.rest, message) {
        return None;
    }
    let Ok(old) = quote_addresses4(quote_part(message, Family::Four)) else {
        return None;
    };
    let Some(quote) = mapped6(settings, old) else {
        return None;
    };
    Some(Error4 { new, quote })
}

/// Whether IPv6 has the field that the pointer of a Parameter Problem stands at.
fn has_pointer6(rest: Rest, message: &[u8]) -> bool
    requires { 8 ≤ length message.now }
    ensures { result ≡ has_pointer6 rest message.now }
{
    match rest {
        Rest::Pointer => pointer46(message[4]).is_some(),
        _ => true,
    }
}

/// The IPv6 addresses that a device gives these, and none where it has none for one of them.
fn mapped6(settings: &Settings, old: Addresses4) -> Option<Addresses6>
    ensures mapped { IfSome result (λ new. AreMapped6 settings.now old.src.0 old.dst.0 new) }
    ensures none { IfNone result ((is_ok (ipv6_for settings.now.mapping old.src.0) && is_ok (ipv6_for settings.now.mapping old.dst.0)) ≡ false) }
{
    mapped6_by::<Brand>(settings, old, Blank::new(1))
}

/// The same, with its steps counted by this ledger.
fn mapped6_by<L: Ledger>(settings: &Settings, old: Addresses4, blank: Blank) -> Option<Addresses6>
    requires name { blank.name ≡ L.name }
    requires parts { blank.parts ≡ L.parts }
    requires some { 0 < blank.parts }
    ensures mapped { IfSome result (λ new. AreMapped6 settings.now old.src.0 old.dst.0 new) }
    ensures none { IfNone result ((is_ok (ipv6_for settings.now.mapping old.src.0) && is_ok (ipv6_for settings.now.mapping old.dst.0)) ≡ false) }
{
    let mut steps = Steps::<L>::new(blank);
    let Ok((src, _)) = settings.mapping.to6(old.src, &mut steps) else {
        return None;
    };
    let Ok((dst, _)) = settings.mapping.to6(old.dst, &mut steps) else {
        return None;
    };
    Some(Addresses6 { src, dst })
}

/// What a device makes of an ICMPv6 error: its new type, and the new addresses of its quote. None where the device has
/// no translation of it.
pub(crate) fn accepted_error6(settings: &Settings, message: &[u8]) -> Option<Error6>
    requires header { 8 ≤ length message.now }
    ensures error { IfSome result (λ error. HasError6 settings.now message.now error) }
    ensures none { IfNone result (error_backward settings.now message.now ≡ None) }
{
    let Ok(new) = type64(message[0], message[1]) else {
        return None;
    };
    if !has_pointer4(new.rest, message) {
        return None;
    }
    let Ok(old) = quote_addresses6(quote_part(message, Family::Six)) else {
        return None;
    };
    let Some(quote) = mapped4(settings, old) else {
        return None;
    };
    Some(Error6 { new, quote })
}

/// Whether IPv4 has the field that the pointer of a Parameter Problem stands at.
fn has_pointer4(rest: Rest, message: &[u8]) -> bool
    requires { 8 ≤ length message.now }
    ensures { result ≡ has_pointer4 rest message.now }
{
    match rest {
        Rest::Pointer => pointer64(get32(message, 4)).is_some(),
        _ => true,
    }
}

/// The IPv4 addresses that a device gives these, and none where it has none for one of them.
fn mapped4(settings: &Settings, old: Addresses6) -> Option<Addresses4>
    ensures mapped { IfSome result (λ new. AreMapped4 settings.now old.src.0 old.dst.0 new) }
    ensures none { IfNone result ((is_ok (ipv4_for settings.now.mapping old.src.0) && is_ok (ipv4_for settings.now.mapping old.dst.0)) ≡ false) }
{
    mapped4_by::<Brand>(settings, old, Blank::new(1))
}

/// The same, with its steps counted by this ledger.
fn mapped4_by<L: Ledger>(settings: &Settings, old: Addresses6, blank: Blank) -> Option<Addresses4>
    requires name { blank.name ≡ L.name }
    requires parts { blank.parts ≡ L.parts }
    requires some { 0 < blank.parts }
    ensures mapped { IfSome result (λ new. AreMapped4 settings.now old.src.0 old.dst.0 new) }
    ensures none { IfNone result ((is_ok (ipv4_for settings.now.mapping old.src.0) && is_ok (ipv4_for settings.now.mapping old.dst.0)) ≡ false) }
{
    let mut steps = Steps::<L>::new(blank);
    let Ok((src, _)) = settings.mapping.to4(old.src, &mut steps) else {
        return None;
    };
    let Ok((dst, _)) = settings.mapping.to4(old.dst, &mut steps) else {
        return None;
    };
    Some(Addresses4 { src, dst })
}
