//! Bytes put into a packet and taken out of it where it lies: what stands before them moves, what follows them stays.
ghost use Rattle.std.specs.Prelude.{◌≡◌, ◌+◌, ◌-◌, ◌<◌, ◌≤◌, ◌++◌, length, take, drop, replicate};

use crate::buffer::PacketBuf;

impl PacketBuf {
    /// Puts n zero bytes behind the first `at` bytes, which move to the left. What follows them stays where it lies.
    pub fn open_within(&mut self, at: usize, n: usize)
        requires inside { at ≤ length self.old.bytes }
        requires room { n ≤ self.old.front }
        requires fits { n + length self.old.bytes ≤ 65575 }
        ensures bytes { self.new.bytes ≡ take at self.old.bytes ++ replicate n 0 ++ drop at self.old.bytes }
        ensures front { self.new.front + n ≡ self.old.front }
    {
        self.grow_front(n);
        slide_left(self.bytes_mut(), n, at);
    }

    /// Takes out the n bytes behind the first `at` bytes, which move to the right. What follows them stays where it
    /// lies.
    pub fn close_within(&mut self, at: usize, n: usize)
        requires { at + n ≤ length self.old.bytes }
        ensures bytes { self.new.bytes ≡ take at self.old.bytes ++ drop (at + n) self.old.bytes }
        ensures front { self.new.front ≡ self.old.front + n }
    {
        slide_right(self.bytes_mut(), at, n);
        self.shrink_front(n);
    }
}

/// Puts a header in place of the n bytes behind the first `at` bytes. What stands before them moves, and what follows
/// them stays where it lies.
pub fn replace_within(buf: &mut PacketBuf, at: usize, n: usize, header: &[u8])
    requires inside { at + n ≤ length buf.old.bytes }
    requires room { length header.now ≤ buf.old.front + n }
    requires fits { length header.now + (length buf.old.bytes - n) ≤ 65575 }
    ensures bytes { buf.new.bytes ≡ take at buf.old.bytes ++ header.now ++ drop (at + n) buf.old.bytes }
    ensures front { buf.new.front + length header.now ≡ buf.old.front + n }
{
    resize_within(buf, at, n, header.len());
    write_at(buf.bytes_mut(), at, header);
}

/// Takes out the n bytes behind the first `at` bytes. At the end of the packet nothing is moved for it.
pub fn remove_within(buf: &mut PacketBuf, at: usize, n: usize)
    requires { at + n ≤ length buf.old.bytes }
    ensures bytes { buf.new.bytes ≡ take at buf.old.bytes ++ drop (at + n) buf.old.bytes }
    ensures front { buf.old.front ≤ buf.new.front }
    ensures moved { at + n < length buf.old.bytes → buf.new.front ≡ buf.old.front + n }
{
    let behind = buf.bytes().len() - at;
    if behind == n {
        buf.cut_end(at);
    } else {
        buf.close_within(at, n);
    }
}

/// Makes the n bytes behind the first `at` bytes into `len` bytes, of which nothing is said. What stands before them
/// moves.
fn resize_within(buf: &mut PacketBuf, at: usize, n: usize, len: usize)
    requires inside { at + n ≤ length buf.old.bytes }
    requires room { len ≤ buf.old.front + n }
    requires fits { len + (length buf.old.bytes - n) ≤ 65575 }
    ensures front { buf.new.front + len ≡ buf.old.front + n }
    ensures length { length buf.new.bytes + n ≡ length buf.old.bytes + len }
    ensures first { take at buf.new.bytes ≡ take at buf.old.bytes }
    ensures rest { drop (at + len) buf.new.bytes ≡ drop (at + n) buf.old.bytes }
{
    if n < len {
        buf.open_within(at, len - n);
    } else {
        buf.close_within(at, n - len);
    }
}

/// Writes a header over the bytes behind the first `at` bytes.
fn write_at(bytes: &mut [u8], at: usize, header: &[u8])
    requires { at + length header.now ≤ length bytes.old }
    ensures { bytes.new ≡ take at bytes.old ++ header.now ++ drop (at + length header.now) bytes.old }
{
    bytes[at..at + header.len()].copy_from_slice(header);
}

/// Moves the `at` bytes behind the first n to the front, and leaves n zeros behind them.
fn slide_left(bytes: &mut [u8], n: usize, at: usize)
    requires { n + at ≤ length bytes.old }
    ensures { bytes.new ≡ take at (drop n bytes.old) ++ replicate n 0 ++ drop (n + at) bytes.old }
{
    bytes.copy_within(n..n + at, 0);
    bytes[at..at + n].fill(0);
}

/// Moves the first `at` bytes behind n bytes that are overwritten.
fn slide_right(bytes: &mut [u8], at: usize, n: usize)
    requires { at + n ≤ length bytes.old }
    ensures { drop n bytes.new ≡ take at bytes.old ++ drop (at + n) bytes.old }
{
    bytes.copy_within(0..at, n);
}

#[cfg(test)]
mod tests {
    use super::*;
    use siit_word::NoMemory;

    #[test]
    fn bytes_come_and_go_within_a_packet(rt: HostRuntime) -> Result<(), NoMemory> {
        let mut buf = PacketBuf::new(rt.alloc())?;
        buf.load(&[1, 2, 3, 4]);
        buf.open_within(1, 2);
        assert_eq!(rt; buf.bytes(), [1, 0, 0, 2, 3, 4].as_slice());
        buf.close_within(2, 3);
        assert_eq!(rt; buf.bytes(), [1, 0, 4].as_slice());
        replace_within(&mut buf, 1, 1, &[7, 8]);
        assert_eq!(rt; buf.bytes(), [1, 7, 8, 4].as_slice());
        remove_within(&mut buf, 2, 1);
        assert_eq!(rt; buf.bytes(), [1, 7, 4].as_slice());
        assert_eq!(rt; buf.front(), 257);
        Ok(())
    }
}
