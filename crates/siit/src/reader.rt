//! A file that is read at places. It stays open, and is read on without a seek.
ghost use Rattle.std.specs.Prelude.{◌≡◌, ◌+◌, ◌-◌, ◌^◌, ◌≤◌, IfOk, None, OnErr, Some, length, min};

use std::io;
use std::io::{Read, Seek, SeekFrom};

#[derive(Drop)]
pub(crate) struct Reader<F> {
    pub name: String,
    pub file: F,
    // Where the next read begins, where that is known.
    pub place: Option<u64>,
}

impl<F: Read + Seek> Reader<F> {
    /// Reads at a place, in bytes from the start. A file that knows no places, as a pipe, is read on all the same.
    pub(crate) fn read(&mut self, at: u64, into: &mut [u8]) -> io::Result<usize>
        ensures bound { IfOk result (λ n. n ≤ length into.new) }
        ensures place { IfOk result (λ n. self.new.place ≡ Some (min (at + n) (2 ^ 64 - 1))) }
        ensures unknown { OnErr result (self.new.place ≡ None) }
    {
        let is_there = self.place == Some(at);
        self.place = None;
        if !is_there {
            self.file.seek(SeekFrom::Start(at))?;
        }
        let count = self.file.read(into)?;
        self.place = Some(at.saturating_add(count as u64));
        Ok(count)
    }
}
