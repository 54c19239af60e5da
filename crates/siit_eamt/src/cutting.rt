//! A table's addresses, cut where a prefix begins or ends.
ghost use Rattle.std.specs.Prelude.{◌≡◌, ◌^◌, ◌<◌, ◌≤◌, [], All, IfOk, None, length, map};
ghost use Rattle.siit_eamt.specs.Cutting.{interval_from};
ghost use Rattle.siit_eamt.specs.Faults.{first_fault};
ghost use Rattle.siit_eamt.specs.Intervals.{AnswerAs, place4, place6};
ghost use Rattle.siit_eamt.specs.Standing.{IsTrieOf, has_bits4, has_bits6};
ghost use Rattle.siit_eamt.specs.Trie.{IsTrie};

use crate::entry::Eam;
use crate::interval::Interval;
use crate::intervals::Intervals;
use crate::starts::{blocks4, blocks6, starts_of};
use crate::trie::{Bits, Trie};
use std::alloc::{AllocError, Global};

/// The intervals of the IPv4 addresses, by the trie of the IPv4 prefixes.
pub(crate) fn intervals4(
    alloc: Global,
    entries: &[Eam],
    trie4: &Trie,
) -> Result<Intervals, AllocError>
    requires few { length entries.now ≤ 65536 }
    requires faultless { first_fault [] entries.now ≡ None }
    requires trie { IsTrieOf has_bits4 32 entries.now trie4.now.nodes.items }
    ensures { IfOk result (λ intervals. AnswerAs (place4 entries.now) (2 ^ 32) intervals) }
{
    let blocks = blocks4(alloc, entries)?;
    let starts = starts_of(alloc, &blocks, u128::from(u32::MAX))?;
    let intervals = intervals_from(alloc, &starts, trie4, 32)?;
    Intervals::new(alloc, intervals)
}

/// The intervals of the IPv6 addresses, by the trie of the IPv6 prefixes.
pub(crate) fn intervals6(
    alloc: Global,
    entries: &[Eam],
    trie6: &Trie,
) -> Result<Intervals, AllocError>
    requires few { length entries.now ≤ 65536 }
    requires faultless { first_fault [] entries.now ≡ None }
    requires trie { IsTrieOf has_bits6 128 entries.now trie6.now.nodes.items }
    ensures { IfOk result (λ intervals. AnswerAs (place6 entries.now) (2 ^ 128) intervals) }
{
    let blocks = blocks6(alloc, entries)?;
    let starts = starts_of(alloc, &blocks, u128::MAX)?;
    let intervals = intervals_from(alloc, &starts, trie6, 128)?;
    Intervals::new(alloc, intervals)
}

/// The intervals from these addresses on, each with the place at the longest prefix of its first address.
fn intervals_from(
    alloc: Global,
    starts: &[u128],
    trie: &Trie,
    width: u8,
) -> Result<Vec<Interval>, AllocError>
    requires shape { IsTrie trie.now.nodes.items }
    requires width { width ≤ 128 }
    requires within { All (λ start. start < 2 ^ width) starts.now }
    ensures { IfOk result (λ intervals. intervals.items ≡ map (interval_from trie.now.nodes.items width) starts.now) }
{
    let mut intervals = Vec::new(alloc);
    for first in starts {
        let place = trie.longest(Bits::new(*first, width));
        intervals.push(Interval {
            first: *first,
            place,
        })?;
    }
    Ok(intervals)
}
