//! The identifications that devices hand out.
ghost use Rattle.std.specs.Prelude.{◌≡◌, ◌+◌, ◌%◌, ◌<◌, ℕ, slice_index};

/// The identifications of packets (RFC 791 section 3.1) that each device hands out, as a list without end. Neither call
/// can be refused.
pub trait Idents {
    ghost use Rattle.siit_word.specs.Idents.{DropsFirst, KeepsOtherDevices};

    /// The number that stands some places ahead, by device and place.
    ghost coming: { Self → ℕ → ℕ → ℕ };

    /// The next number of a device.
    fn peek(&self, device: u8) -> u16
        ensures { result ≡ coming self.now device 0 };

    /// Drops the next number of a device.
    fn take(&mut self, device: u8)
        ensures drops { DropsFirst (coming self.old) (coming self.new) device }
        ensures others { KeepsOtherDevices (coming self.old) (coming self.new) device };
}

/// Identifications from a list for each device, and 0 after its end.
#[derive(Drop)]
pub struct ListIdents {
    lists: Vec<Vec<u16>>,
    taken: [usize; 256],
}

impl ListIdents {
    ghost use Rattle.siit_word.specs.Idents.{coming_listed, list_for};

    /// The list at place k - 1 is that of device k. A device without a list, and device 0, gets 0.
    pub fn new(lists: Vec<Vec<u16>>) -> Self
        ensures { (device k : ℕ) → device < 256 → coming_listed result device k ≡ slice_index (list_for lists.items device) k }
    {
        ListIdents {
            lists,
            taken: [0; 256],
        }
    }

    fn list(&self, device: u8) -> &[u16]
        ensures { result.now ≡ list_for self.now.lists.items device }
    {
        let Some(place) = (device as usize).checked_sub(1) else {
            return &[];
        };
        match self.lists.get(place) {
            Some(list) => list,
            None => &[],
        }
    }
}

impl Idents for ListIdents {
    ghost use Rattle.siit_word.specs.Idents.{coming_listed, DropsFirst, KeepsOtherDevices};

    ghost coming = { coming_listed };

    fn peek(&self, device: u8) -> u16 {
        let taken = self.taken[device as usize];
        self.list(device).get(taken).copied().unwrap_or(0)
    }

    fn take(&mut self, device: u8) {
        let taken = self.taken[device as usize];
        if taken < self.list(device).len() {
            self.taken[device as usize] = taken + 1;
        }
    }
}

/// Identifications that count up from 1 for each device.
#[derive(Drop)]
pub struct Counter {
    next: [u16; 256],
}

impl Counter {
    ghost use Rattle.siit_word.specs.Idents.{coming_counted};

    /// Each device begins at 1, and 0 follows 65535.
    pub fn new() -> Self
        ensures { (device k : ℕ) → device < 256 → coming_counted result device k ≡ (1 + k) % 65536 }
    {
        Counter { next: [1; 256] }
    }
}

impl Idents for Counter {
    ghost use Rattle.siit_word.specs.Idents.{coming_counted, DropsFirst, KeepsOtherDevices};

    ghost coming = { coming_counted };

    fn peek(&self, device: u8) -> u16 {
        self.next[device as usize]
    }

    fn take(&mut self, device: u8) {
        let next = self.next[device as usize];
        self.next[device as usize] = next.wrapping_add(1);
    }
}

#[cfg(test)]
mod tests {
    use super::*;
    use std::test::Fail;

    fn next<I: Idents>(idents: &mut I, device: u8) -> u16 {
        let next = idents.peek(device);
        idents.take(device);
        next
    }

    #[test]
    fn lists_end_in_zeros(rt: HostRuntime) -> Result<(), Fail> {
        let alloc = rt.alloc();
        let mut idents = ListIdents::new(vec![in alloc;
            vec![in alloc; 7, 9]?,
            vec![in alloc; 5]?,
        ]?);
        for (device, want) in [(1, 7), (2, 5), (1, 9), (1, 0), (2, 0), (0, 0), (3, 0)] {
            assert_eq!(rt; next(&mut idents, device), want, "of device {device}");
        }
        Ok(())
    }

    #[test]
    fn counters_are_apart(rt: HostRuntime) {
        let mut idents = Counter::new();
        for (device, want) in [(1, 1), (1, 2), (255, 1), (1, 3)] {
            assert_eq!(rt; next(&mut idents, device), want, "of device {device}");
        }
    }
}
