//! Where a packet is in a chain, and where it goes.
ghost use Rattle.std.specs.Prelude.{◌≡◌, ◌<◌, ◌≤◌, ◌^◌, ℕ, List, length};
ghost use Rattle.siit_chain.specs.Carried.{back, entering_at, onward, place_met};
ghost use Rattle.siit_carry.specs.Steps.{packet_at};

use siit_chain::{End, Origin, Outs};
use siit_rules::Family;

/// What is the same on all of a packet's way.
#[derive(Drop)]
pub(crate) struct Trip<'a, D> {
    pub devices: &'a [D],
    pub left: Family,
    pub right: Family,
    pub origin: Origin,
    pub outs: Outs<'a>,
}

/// A link, counted from 0 at the left end, and the end that a packet moves to on it.
#[derive(Clone, Copy)]
pub(crate) struct Place {
    pub link: usize,
    pub to: End,
}

impl Place {
    /// Where a record's packet enters a chain of so many devices.
    pub fn entering(end: End, count: usize) -> Place
        ensures place { (bytes : List ℕ) → packet_at result bytes ≡ entering_at count end bytes }
        ensures link { result.link ≤ count }
    {
        match end {
            End::Left => Place {
                link: 0,
                to: End::Right,
            },
            End::Right => Place {
                link: count,
                to: End::Left,
            },
        }
    }

    /// The place in the list of the device that a packet meets here, or `None` where it leaves a chain of so many
    /// devices.
    pub fn met(self, count: usize) -> Option<usize>
        ensures { result ≡ place_met count self.link self.to }
    {
        match self.to {
            End::Right if self.link < count => Some(self.link),
            End::Right => None,
            End::Left => self.link.checked_sub(1),
        }
    }

    /// On the same link, the other way.
    pub fn back(self) -> Place
        ensures { (bytes : List ℕ) → packet_at result bytes ≡ back self.link self.to bytes }
    {
        Place {
            link: self.link,
            to: self.to.other(),
        }
    }

    /// On the next link, the same way.
    pub fn onward(self) -> Place
        requires { self.link < 2 ^ 32 }
        ensures { (bytes : List ℕ) → packet_at result bytes ≡ onward self.link self.to bytes }
    {
        let link = match self.to {
            End::Right => self.link + 1,
            End::Left => self.link.saturating_sub(1),
        };
        Place { link, to: self.to }
    }
}
