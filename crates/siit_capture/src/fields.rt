//! Numbers in either byte order.
ghost use Rattle.std.specs.Prelude.{◌≡◌, ◌+◌, ◌≤◌, length};

use crate::form::Endian;
use byteorder::{BigEndian, ByteOrder, LittleEndian};

impl Endian {
    ghost use Rattle.siit_capture.specs.Heads.{number16, number32};

    /// The 16-bit number at a place.
    pub(crate) fn number16(self, bytes: &[u8], at: usize) -> u16
        requires { at + 2 ≤ length bytes.now }
        ensures { result ≡ number16 self bytes.now at }
    {
        match self {
            Endian::Big => BigEndian::read_u16(&bytes[at..]),
            Endian::Little => LittleEndian::read_u16(&bytes[at..]),
        }
    }

    /// The 32-bit number at a place.
    pub(crate) fn number32(self, bytes: &[u8], at: usize) -> u32
        requires { at + 4 ≤ length bytes.now }
        ensures { result ≡ number32 self bytes.now at }
    {
        match self {
            Endian::Big => BigEndian::read_u32(&bytes[at..]),
            Endian::Little => LittleEndian::read_u32(&bytes[at..]),
        }
    }
}
