//! How addresses are shared among buckets.
ghost use Rattle.std.specs.Prelude.{ℕ, ◌≡◌, ◌+◌, ◌-◌, ◌*◌, ◌^◌, ◌<◌, ◌≤◌};
ghost use Rattle.siit_eamt.specs.Intervals.{bucket_of};

/// Buckets of 2^shift addresses from the lowest one on, but that the first one has all below them too, and the last one
/// all above them.
#[derive(Clone, Copy)]
pub(crate) struct Spacing {
    lowest: u128,
    shift: u32,
    /// The number of the last bucket.
    last: u32,
}

impl Spacing {
    /// Buckets from the lowest of these addresses to the highest one, as many as are wanted at most.
    pub(crate) fn over(lowest: u128, highest: u128, most: u32) -> Spacing
        ensures few { result.last ≤ most }
        ensures shift { result.shift < 128 }
        ensures within { result.lowest + result.last * 2 ^ result.shift < 2 ^ 128 }
    {
        let span = highest.saturating_sub(lowest);
        let shift = shift_of(span, u128::from(most));
        let last = (span >> shift).min(u128::from(most)) as u32;
        Spacing {
            lowest,
            shift,
            last,
        }
    }

    /// The number of the last bucket.
    pub(crate) fn last(self) -> u32
        ensures { result ≡ self.last }
    {
        self.last
    }

    /// The bucket of an address.
    pub(crate) fn bucket_of(self, address: u128) -> u32
        requires { self.shift < 128 }
        ensures { result ≡ bucket_of self address }
    {
        (address.saturating_sub(self.lowest) >> self.shift).min(u128::from(self.last)) as u32
    }

    /// The first address of a bucket.
    pub(crate) fn first_in(self, bucket: u32) -> u128
        requires some { bucket ≤ self.last }
        requires shift { self.shift < 128 }
        requires within { self.lowest + self.last * 2 ^ self.shift < 2 ^ 128 }
        ensures bucket { bucket_of self result ≡ bucket }
        ensures first { (address : ℕ) → bucket ≤ bucket_of self address → result ≤ address }
    {
        if bucket == 0 {
            return 0;
        }
        self.lowest + (u128::from(bucket) << self.shift)
    }

    /// The last address of a bucket.
    pub(crate) fn last_in(self, bucket: u32) -> u128
        requires some { bucket ≤ self.last }
        requires shift { self.shift < 128 }
        requires within { self.lowest + self.last * 2 ^ self.shift < 2 ^ 128 }
        ensures bucket { bucket_of self result ≡ bucket }
        ensures last { (address : ℕ) → address < 2 ^ 128 → bucket_of self address ≤ bucket → address ≤ result }
    {
        if bucket == self.last {
            return u128::MAX;
        }
        self.lowest + (u128::from(bucket + 1) << self.shift) - 1
    }
}

/// The least shift that leaves a number below so many, if one does.
fn shift_of(span: u128, most: u128) -> u32
    ensures { result < 128 }
{
    for shift in 0..127 {
        if span >> shift < most {
            return shift;
        }
    }
    127
}
