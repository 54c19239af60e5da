//! A packet lent in two parts.
ghost use Rattle.std.specs.Prelude.{◌≡◌, ◌≤◌, length, take, drop};
ghost use Rattle.std.specs.Borrow.{sem};
ghost use Rattle.siit_views.specs.Lending.{LendsBothParts};
ghost use Rattle.siit_views.specs.Parts.{LendsPair};

use crate::buffer::PacketBuf;

/// The first bytes and those behind them.
fn halves(bytes: &mut [u8], at: usize) -> (&mut [u8], &mut [u8])
    requires { at ≤ length bytes.old }
    ensures* writes_back { sem 𝓛 (LendsPair bytes.entry result) }
    ensures front { result.0.now ≡ take at bytes.old }
    ensures rest { result.1.now ≡ drop at bytes.old }
{
    bytes.split_at_mut(at)
}

impl PacketBuf {
    /// The first `at` bytes and those behind them, to be written where they lie.
    pub fn split_at(&mut self, at: usize) -> (&mut [u8], &mut [u8])
        requires { at ≤ length self.old.bytes }
        ensures* writes_back { sem 𝓛 (LendsBothParts self.entry result) }
        ensures front { result.0.now ≡ take at self.old.bytes }
        ensures rest { result.1.now ≡ drop at self.old.bytes }
    {
        halves(self.bytes_mut(), at)
    }
}

#[cfg(test)]
mod tests {
    use super::*;
    use siit_word::NoMemory;

    #[test]
    fn what_is_written_through_the_parts_is_in_the_buffer(rt: HostRuntime) -> Result<(), NoMemory> {
        let mut buf = PacketBuf::new(rt.alloc())?;
        buf.load(&[1, 2, 3, 4]);
        let (front, rest) = buf.split_at(3);
        front[2] = 5;
        rest[0] = 6;
        assert_eq!(rt; buf.bytes(), [1, 2, 5, 6].as_slice());
        Ok(())
    }
}
