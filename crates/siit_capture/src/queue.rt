//! A queue of bytes in memory that is taken once.
ghost use Rattle.std.specs.Prelude.{◌≡◌, ◌+◌, ◌≤◌, ◌++◌, [], length, take, drop, IfOk};

use siit_word::NoMemory;
use std::alloc::Global;
use std::marker::Model;

/// The most bytes that a piece may have.
pub(crate) const PIECE: usize = 65_536;

/// All the memory: a piece, and what may wait before it, a record of which one byte is missing.
const MEMORY: usize = PIECE + 16 + 262_143;

/// A queue of bytes: pieces come in behind, items are taken off its front.
#[derive(Drop)]
pub(crate) struct ByteQueue {
    memory: Vec<u8>,
    from: usize,
    start: usize,
    end: usize,
}

impl Model for ByteQueue {
    ghost use Rattle.std.specs.Prelude.{slice_range};
    ghost use Rattle.siit_capture.specs.Queues.{Queue, IsHeld};

    ghost Value = { Queue };

    ghost view = { λ q. record {
      taken = slice_range q.memory.items q.from q.start;
      rest = slice_range q.memory.items q.start q.end;
    } };

    ghost invariant = { λ q. IsHeld q.memory.items q.from q.start q.end };
}

impl ByteQueue {
    /// An empty queue, with all its memory.
    pub(crate) fn new(alloc: Global) -> Result<ByteQueue, NoMemory>
        ensures { IfOk result (λ queue. queue ≡ record { taken = []; rest = [] }) }
    {
        match vec![in alloc; 0u8; MEMORY] {
            Ok(memory) => Ok(ByteQueue {
                memory,
                from: 0,
                start: 0,
                end: 0,
            }),
            Err(_) => Err(NoMemory),
        }
    }

    /// Takes a piece in. The rest moves to the beginning of the memory, unless it is there.
    pub(crate) fn push(&mut self, piece: &[u8])
        requires { length self.old.rest + length piece.now ≤ 327695 }
        ensures { self.new ≡ record { taken = []; rest = self.old.rest ++ piece.now } }
    {
        if self.start > 0 {
            self.memory.copy_within(self.start..self.end, 0);
        }
        let len = self.end - self.start;
        let end = len + piece.len();
        self.memory.slice_mut(len..end).copy_from_slice(piece);
        self.from = 0;
        self.start = 0;
        self.end = end;
    }

    /// Takes the first n bytes.
    pub(crate) fn take(&mut self, n: usize)
        requires { n ≤ length self.old.rest }
        ensures { self.new ≡ record { taken = take n self.old.rest; rest = drop n self.old.rest } }
    {
        self.from = self.start;
        self.start += n;
    }

    /// The bytes that weren't taken yet.
    pub(crate) fn rest(&self) -> &[u8]
        ensures { result.now ≡ self.now.rest }
    {
        &self.memory[self.start..self.end]
    }

    /// The bytes that were taken last.
    pub(crate) fn taken(&self) -> &[u8]
        ensures { result.now ≡ self.now.taken }
    {
        &self.memory[self.from..self.start]
    }
}
