//! The buffer that a packet lies in while it is translated.
ghost use Rattle.std.specs.Prelude.{◌≡◌, ◌+◌, ◌≤◌, ◌++◌, [], length, take, drop, replicate, IfOk};
ghost use Rattle.std.specs.Borrow.{sem};
ghost use Rattle.siit_views.specs.Contents.{centred};
ghost use Rattle.siit_views.specs.Lending.{LendsBytes};

use siit_word::NoMemory;
use std::alloc::Global;
use std::marker::Model;

/// How many bytes lie free before a packet that is loaded.
const FRONT: usize = 256;

/// The most bytes that a packet may have: an IPv6 packet with its header of 40 bytes.
const MOST: usize = 65_575;

/// The whole room: the free bytes and the longest packet.
const ROOM: usize = FRONT + MOST;

/// A packet in a room of fixed size, with free bytes before it, so that headers grow and shrink where the packet lies.
#[derive(Drop)]
pub struct PacketBuf {
    room: Vec<u8>,
    start: usize,
    end: usize,
}

impl Model for PacketBuf {
    ghost use Rattle.std.specs.Prelude.{slice_range};
    ghost use Rattle.siit_views.specs.Contents.{Contents, IsPlaced};

    ghost Value = { Contents };

    ghost view = { λ b. record { bytes = slice_range b.room.items b.start b.end; front = b.start } };

    ghost invariant = { λ b. IsPlaced b.room.items b.start b.end };
}

impl PacketBuf {
    /// An empty buffer. All the memory that a packet needs is taken here.
    pub fn new(alloc: Global) -> Result<PacketBuf, NoMemory>
        ensures { IfOk result (λ buf. buf ≡ centred []) }
    {
        match vec![in alloc; 0u8; ROOM] {
            Ok(room) => Ok(PacketBuf {
                room,
                start: FRONT,
                end: FRONT,
            }),
            Err(_) => Err(NoMemory),
        }
    }

    /// Makes the buffer hold these bytes, at most 65,575, with 256 free bytes before them.
    pub fn load(&mut self, bytes: &[u8])
        requires { length bytes.now ≤ 65575 }
        ensures { self.new ≡ centred bytes.now }
    {
        let end = FRONT + bytes.len();
        self.room.slice_mut(FRONT..end).copy_from_slice(bytes);
        self.start = FRONT;
        self.end = end;
    }

    /// The packet.
    pub fn bytes(&self) -> &[u8]
        ensures value { result.now ≡ self.now.bytes }
        ensures most { length self.now.bytes ≤ 65575 }
    {
        &self.room[self.start..self.end]
    }

    /// The packet, to be written where it lies.
    pub fn bytes_mut(&mut self) -> &mut [u8]
        ensures* writes_back { sem 𝓛 (LendsBytes self.entry result) }
        ensures value { result.now ≡ self.old.bytes }
    {
        let start = self.start;
        let end = self.end;
        self.room.slice_mut(start..end)
    }

    /// How many free bytes lie before the packet.
    pub fn front(&self) -> usize
        ensures { result ≡ self.now.front }
    {
        self.start
    }

    /// Puts n zero bytes before the packet.
    pub fn grow_front(&mut self, n: usize)
        requires room { n ≤ self.old.front }
        requires fits { n + length self.old.bytes ≤ 65575 }
        ensures bytes { self.new.bytes ≡ replicate n 0 ++ self.old.bytes }
        ensures front { self.new.front + n ≡ self.old.front }
    {
        let start = self.start - n;
        self.room.slice_mut(start..self.start).fill(0);
        self.start = start;
    }

    /// Takes the first n bytes off. The room before the packet grows by them.
    pub fn shrink_front(&mut self, n: usize)
        requires { n ≤ length self.old.bytes }
        ensures bytes { self.new.bytes ≡ drop n self.old.bytes }
        ensures front { self.new.front ≡ self.old.front + n }
    {
        self.start += n;
    }

    /// Keeps the first len bytes.
    pub fn cut_end(&mut self, len: usize)
        requires { len ≤ length self.old.bytes }
        ensures bytes { self.new.bytes ≡ take len self.old.bytes }
        ensures front { self.new.front ≡ self.old.front }
    {
        self.end = self.start + len;
    }

    /// Moves the packet so that 256 free bytes lie before it.
    pub fn recentre(&mut self)
        ensures { self.new ≡ centred self.old.bytes }
    {
        let len = self.end - self.start;
        self.room.copy_within(self.start..self.end, FRONT);
        self.start = FRONT;
        self.end = FRONT + len;
    }
}

#[cfg(test)]
mod tests {
    use super::*;
    use std::test::Fail;

    #[test]
    fn a_packet_grows_and_shrinks_where_it_lies(rt: HostRuntime) -> Result<(), Fail> {
        let mut buf = PacketBuf::new(rt.alloc())?;
        buf.load(&[9; 4]);
        buf.load(&[1, 2, 3]);
        buf.grow_front(2);
        assert_eq!(rt; buf.bytes(), [0, 0, 1, 2, 3].as_slice());
        assert_eq!(rt; buf.front(), 254);
        buf.shrink_front(1);
        buf.cut_end(3);
        assert_eq!(rt; buf.bytes(), [0, 1, 2].as_slice());
        assert_eq!(rt; buf.front(), 255);
        buf.recentre();
        assert_eq!(rt; buf.front(), 256);
        buf.bytes_mut()[2] = 7;
        assert_eq!(rt; buf.bytes(), [0, 1, 7].as_slice());
        Ok(())
    }
}
