//! Buckets of addresses, which name the few intervals in which each address may lie.
ghost use Rattle.std.specs.Prelude.{ℕ, ◌≡◌, ◌+◌, ◌*◌, ◌^◌, ◌<◌, ◌≤◌, IfOk, Some, length};
ghost use Rattle.std.specs.List.{slice_get};
ghost use Rattle.siit_eamt.specs.Intervals.{bucket_of, HasBegun, IsSearchable, LiesIn};

use crate::interval::Interval;
use crate::spacing::Spacing;
use crate::steps::Steps;
use std::alloc::{AllocError, Global};
use std::sync::ledger::Ledger;

/// The addresses of a bucket lie in the intervals from one place on and before another.
#[derive(Clone, Copy)]
pub(crate) struct Bucket {
    pub(crate) low: u32,
    pub(crate) high: u32,
}

/// The buckets of some intervals.
#[derive(Drop)]
pub(crate) struct Buckets {
    pub(crate) spacing: Spacing,
    pub(crate) buckets: Vec<Bucket>,
}

impl Buckets {
    /// The buckets of these intervals, about as many.
    pub(crate) fn of(alloc: Global, intervals: &[Interval]) -> Result<Buckets, AllocError>
        requires some { 0 < length intervals.now }
        requires few { length intervals.now ≤ 2 ^ 18 }
        requires all { (address : ℕ) → HasBegun intervals.now 0 address }
        ensures { IfOk result (λ made. IsSearchable intervals.now made.spacing made.buckets.items) }
    {
        let spacing = spacing_for(intervals);
        let buckets = fill(alloc, intervals, spacing)?;
        Ok(Buckets { spacing, buckets })
    }

    /// The bucket of an address. It is the only way in which a look-up reads a bucket, and one step.
    pub(crate) fn read<L: Ledger>(&self, address: u128, steps: &mut Steps<L>) -> Bucket
        requires shift { self.now.spacing.shift < 128 }
        requires last { self.now.spacing.last < length self.now.buckets.items }
        ensures bucket { slice_get self.now.buckets.items (bucket_of self.now.spacing address) ≡ Some result }
        ensures step { steps.new ≡ steps.old + 1 }
    {
        steps.tick();
        self.buckets[self.spacing.bucket_of(address) as usize]
    }
}

/// As many buckets as intervals, or somewhat fewer, from where the second interval begins to where the last one does.
fn spacing_for(intervals: &[Interval]) -> Spacing
    requires { length intervals.now ≤ 2 ^ 18 }
    ensures few { result.last ≤ 2 ^ 18 }
    ensures shift { result.shift < 128 }
    ensures within { result.lowest + result.last * 2 ^ result.shift < 2 ^ 128 }
{
    match intervals {
        [_, second, .., last] => Spacing::over(second.first, last.first, intervals.len() as u32),
        _ => Spacing::over(0, 0, 1),
    }
}

fn fill(alloc: Global, intervals: &[Interval], spacing: Spacing) -> Result<Vec<Bucket>, AllocError>
    requires some { 0 < length intervals.now }
    requires few { length intervals.now ≤ 2 ^ 18 }
    requires all { (address : ℕ) → HasBegun intervals.now 0 address }
    requires last { spacing.last ≤ 2 ^ 18 }
    requires shift { spacing.shift < 128 }
    requires within { spacing.lowest + spacing.last * 2 ^ spacing.shift < 2 ^ 128 }
    ensures { IfOk result (λ buckets. IsSearchable intervals.now spacing buckets.items) }
{
    let mut buckets = Vec::new(alloc);
    let mut low = 0;
    for number in 0..spacing.last() + 1 {
        low = place_of(intervals, low, spacing.first_in(number));
        let high = place_of(intervals, low, spacing.last_in(number)) + 1;
        buckets.push(Bucket { low, high })?;
    }
    Ok(buckets)
}

/// The place of the interval of an address, which is this one or stands behind it.
fn place_of(intervals: &[Interval], from: u32, address: u128) -> u32
    requires few { length intervals.now ≤ 2 ^ 18 }
    requires within { from < length intervals.now }
    requires begun { HasBegun intervals.now from address }
    ensures lies { LiesIn intervals.now result (result + 1) address }
    ensures behind { from ≤ result }
{
    let count = intervals.len() as u32;
    for next in from + 1..count {
        if intervals[next as usize].first > address {
            return next - 1;
        }
    }
    count - 1
}
