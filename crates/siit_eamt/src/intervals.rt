//! Intervals of addresses that have the same entry, and how that of an address is found.
ghost use Rattle.std.specs.Prelude.{ℕ, ◌≡◌, ◌+◌, ◌^◌, ◌<◌, ◌≤◌, Some, IfOk, length};
ghost use Rattle.std.specs.List.{slice_get};
ghost use Rattle.siit_eamt.specs.Intervals.{HasBegun, IsAnswer, LiesIn};

use crate::buckets::{Bucket, Buckets};
use crate::interval::Interval;
use crate::steps::Steps;
use std::alloc::{AllocError, Global};
use std::marker::Model;
use std::sync::ledger::Ledger;

/// Intervals of all addresses of one family.
#[derive(Drop)]
pub(crate) struct Intervals {
    intervals: Vec<Interval>,
    buckets: Buckets,
}

impl Model for Intervals {
    ghost use Rattle.std.specs.Prelude.{List};
    ghost use Rattle.siit_eamt.specs.declared.interval.Interval.{Interval};
    ghost use Rattle.siit_eamt.specs.Intervals.{IsSearchable};

    ghost Value = { List Interval };

    ghost view = { λ s. s.intervals.items };

    ghost invariant = { λ s. IsSearchable s.intervals.items s.buckets.spacing s.buckets.buckets.items };
}

impl Intervals {
    /// These intervals, with buckets by which they are found.
    pub(crate) fn new(alloc: Global, intervals: Vec<Interval>) -> Result<Intervals, AllocError>
        requires some { 0 < length intervals.items }
        requires few { length intervals.items ≤ 2 ^ 18 }
        requires all { (address : ℕ) → HasBegun intervals.items 0 address }
        ensures { IfOk result (λ made. made ≡ intervals.items) }
    {
        let buckets = Buckets::of(alloc, &intervals)?;
        Ok(Intervals { intervals, buckets })
    }

    /// What the interval of an address has. The bucket and each interval that is read count as one step.
    pub(crate) fn find<L: Ledger>(&self, address: u128, steps: &mut Steps<L>) -> Option<u32>
        ensures answer { IsAnswer self.now address result }
        ensures cost { steps.new ≤ steps.old + 20 }
        ensures counted { steps.old ≤ steps.new }
    {
        let bucket = self.buckets.read(address, steps);
        let place = self.halve(address, bucket, steps);
        self.read(place, steps).place
    }

    /// The place of the interval of an address, of those that its bucket names, by halving them.
    fn halve<L: Ledger>(&self, address: u128, bucket: Bucket, steps: &mut Steps<L>) -> u32
        requires few { length self.now ≤ 2 ^ 18 }
        requires lies { LiesIn self.now bucket.low bucket.high address }
        ensures lies { LiesIn self.now result (result + 1) address }
        ensures cost { steps.new ≤ steps.old + 18 }
        ensures counted { steps.old ≤ steps.new }
    {
        let Bucket { mut low, mut high } = bucket;
        'halving: while high - low > 1 {
            let middle = low + (high - low) / 2;
            if self.read(middle, steps).first <= address {
                low = middle;
            } else {
                high = middle;
            }
        }
        low
    }

    /// The interval at a place. It is the only way in which a look-up reads an interval, and one step.
    fn read<L: Ledger>(&self, place: u32, steps: &mut Steps<L>) -> Interval
        requires { place < length self.now }
        ensures interval { slice_get self.now place ≡ Some result }
        ensures step { steps.new ≡ steps.old + 1 }
    {
        steps.tick();
        self.intervals[place as usize]
    }
}
