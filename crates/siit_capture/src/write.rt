//! The written form of a capture.
ghost use Rattle.std.specs.Prelude.{◌≡◌};
ghost use Rattle.siit_capture.specs.Written.{written_head, written_record_head};

use byteorder::{ByteOrder, LittleEndian};

/// The head of a written capture: little-endian, the magic number of nanoseconds, version 2.4, eight zero bytes,
/// snapshot length 262,144 and the link type of IP packets of either version.
pub fn capture_head() -> [u8; 24]
    ensures { result ≡ written_head }
{
    [
        0x4d, 0x3c, 0xb2, 0xa1, 2, 0, 4, 0, 0, 0, 0, 0, 0, 0, 0, 0, 0, 0, 4, 0, 101, 0, 0, 0,
    ]
}

/// The head of a written record of a whole packet of `len` bytes: its time in seconds and nanoseconds, and its length
/// twice.
pub fn record_head(seconds: u32, nanos: u32, len: u32) -> [u8; 16]
    ensures { result ≡ written_record_head seconds nanos len }
{
    let mut head = [0u8; 16];
    LittleEndian::write_u32(&mut head, seconds);
    LittleEndian::write_u32(&mut head[4..], nanos);
    LittleEndian::write_u32(&mut head[8..], len);
    LittleEndian::write_u32(&mut head[12..], len);
    head
}
