//! IPv6 texts.
ghost use Rattle.std.specs.Prelude.{◌≡◌, ◌+◌, ◌*◌, ◌<◌, None, Some, length, option_map, IfSome, MatchOption};
ghost use Rattle.siit_addr.specs.Texts.{groups_of, last_groups_of, with_gap, ipv6_of_groups, ipv6_of_text};

use crate::addr::Addr6;
use crate::digits::read_group;
use crate::ipv4::read_ipv4;
use crate::split::{split_at_first, split_at_gap};
use arrayvec::ArrayVec;

/// The address that an IPv6 text writes.
pub(crate) fn read_ipv6(text: &[u8]) -> Option<Addr6>
    ensures { option_map (λ a. a.0) result ≡ ipv6_of_text text.now }
{
    let groups = read_all_groups(text)?;
    address_of(groups.as_slice())
}

// The groups of a whole text, those that "::" stands for among them.
#[tactic(auto, using(crate::proofs::GroupLists::by_sides))]
fn read_all_groups(text: &[u8]) -> Option<ArrayVec<u16, 8>>
    ensures { MatchOption result
        (ipv6_of_text text.now ≡ None)
        (λ groups. ipv6_of_text text.now ≡ ipv6_of_groups groups.items) }
{
    match split_at_gap(text) {
        None => read_groups(text, true),
        Some((left, right)) => {
            let left = read_groups(left, false)?;
            let right = read_groups(right, true)?;
            fill_gap(left, right.as_slice())
        }
    }
}

// The address of exactly eight groups.
fn address_of(groups: &[u16]) -> Option<Addr6>
    ensures { option_map (λ a. a.0) result ≡ ipv6_of_groups groups.now }
{
    let [a, b, c, d, e, f, g, h] = *groups else {
        return None;
    };
    let high = u128::from(joined(a, b, c, d));
    let low = u128::from(joined(e, f, g, h));
    Some(Addr6(high * (1 << 64) + low))
}

fn joined(a: u16, b: u16, c: u16, d: u16) -> u64
    ensures { result ≡ ((a * 65536 + b) * 65536 + c) * 65536 + d }
{
    ((u64::from(a) * 65536 + u64::from(b)) * 65536 + u64::from(c)) * 65536 + u64::from(d)
}

// Zero groups between the groups on both sides of a "::", so that there are eight. None where there is no place for
// one.
#[tactic(auto, using(crate::proofs::GroupLists::by_gap))]
fn fill_gap(mut groups: ArrayVec<u16, 8>, right: &[u16]) -> Option<ArrayVec<u16, 8>>
    ensures { MatchOption result
        (7 < length groups.items + length right.now)
        (λ filled. filled.items ≡ with_gap groups.items right.now) }
{
    if groups.len() + right.len() > 7 {
        return None;
    }
    while groups.len() + right.len() < 8 {
        groups.push(0);
    }
    groups.try_extend_from_slice(right).ok()?;
    Some(groups)
}

// The groups between the colons of a text, none for an empty text. None also where there are more than eight.
#[tactic(auto, using(crate::proofs::GroupLists::by_parts))]
fn read_groups(text: &[u8], at_end: bool) -> Option<ArrayVec<u16, 8>>
    ensures { MatchOption result
        (IfSome (groups_of at_end text.now) (λ groups. 8 < length groups))
        (λ groups. groups_of at_end text.now ≡ Some groups.items) }
{
    let mut groups = ArrayVec::new();
    if text.is_empty() {
        return Some(groups);
    }
    let mut rest = text;
    while let Some((part, behind)) = split_at_first(rest, b':') {
        let group = read_group(part)?;
        if groups.is_full() {
            return None;
        }
        groups.push(group);
        rest = behind;
    }
    let last = read_last(rest, at_end)?;
    if groups.len() + last.len() > 8 {
        return None;
    }
    groups.try_extend_from_slice(last.as_slice()).ok()?;
    Some(groups)
}

// The groups that a part behind the last colon writes: one, or two as an IPv4 text where the address ends there.
fn read_last(part: &[u8], at_end: bool) -> Option<ArrayVec<u16, 2>>
    ensures { option_map (λ groups. groups.items) result ≡ last_groups_of at_end part.now }
{
    let mut groups = ArrayVec::new();
    if let Some(group) = read_group(part) {
        groups.push(group);
        return Some(groups);
    }
    if !at_end {
        return None;
    }
    let address = read_ipv4(part)?;
    groups.push((address.0 / 65536) as u16);
    groups.push((address.0 % 65536) as u16);
    Some(groups)
}
