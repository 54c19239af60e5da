//! The zeros between a quote and an extension (RFC 4884 section 5.1).
ghost use Rattle.siit_quoted.specs.Bodies.{padding};
ghost use Rattle.std.specs.Prelude.{◌≡◌, ◌⊎◌, ◌≤◌, ◌+◌, ◌/◌, ◌++◌, length, take, drop, replicate};

use siit_views::PacketBuf;

/// The least number of bytes before an extension.
const LEAST: usize = 128;

/// How many zeros stand behind a quote of `len` bytes in units of 4 or 8 bytes.
fn padding(unit: usize, len: usize) -> usize
    requires unit { (unit ≡ 4) ⊎ (unit ≡ 8) }
    requires most { len ≤ 65575 }
    ensures { result ≡ padding unit len }
{
    let whole = (len + (unit - 1)) / unit * unit;
    LEAST.max(whole) - len
}

/// Puts the zeros behind a quote of `len` bytes that stands from `at` on, and answers how many units stand before the
/// extension then. What stands before the zeros moves.
pub(crate) fn pad_quote(buf: &mut PacketBuf, at: usize, len: usize, unit: usize) -> u8
    requires unit { (unit ≡ 4) ⊎ (unit ≡ 8) }
    requires inside { at + len ≤ length buf.old.bytes }
    requires room { padding unit len ≤ buf.old.front }
    requires fits { padding unit len + length buf.old.bytes ≤ 65575 }
    requires told { (len + padding unit len) / unit ≤ 255 }
    ensures bytes { buf.new.bytes ≡ take (at + len) buf.old.bytes ++ replicate (padding unit len) 0 ++ drop (at + len) buf.old.bytes }
    ensures octet { result ≡ (len + padding unit len) / unit }
    ensures front { buf.new.front + padding unit len ≡ buf.old.front }
{
    let zeros = padding(unit, len);
    buf.open_within(at + len, zeros);
    ((len + zeros) / unit) as u8
}
