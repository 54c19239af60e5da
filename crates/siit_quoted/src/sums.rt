//! What the end of a quote counts in the checksum of the message (RFC 1624).
ghost use Rattle.siit_model.specs.Checksum.{residue};
ghost use Rattle.siit_quoted.specs.Sums.{CutLastDifference, CutQuoteDifference, IsPartDifference, MovedByBodyDifference, UpperBehindStays};
ghost use Rattle.std.specs.Prelude.{◌≡◌, ◌≤◌, ◌+◌, ◌-◌, ◌%◌, ◌++◌, length, min, take, drop};

use siit_checksum::sum_of;

/// Residues of what goes and of what comes.
#[derive(Clone, Copy, Debug, PartialEq, Eq)]
pub struct Sums {
    /// Of the bytes that are gone.
    pub gone: u16,
    /// Of the bytes that stand in their place.
    pub come: u16,
}

/// What goes and comes where a quote, which begins at an even place of the message, is cut behind `kept` bytes: the
/// bytes from there on, and of an odd end the last byte both ways. Zeros that follow count nothing.
pub fn cut_sums(quote: &[u8], kept: usize) -> Sums
    requires { kept ≤ length quote.now }
    ensures gone { result.gone ≡ residue (drop (kept - kept % 2) quote.now) }
    ensures come { result.come ≡ residue (drop (kept - kept % 2) (take kept quote.now)) }
{
    let even = kept - kept % 2;
    Sums {
        gone: sum_of(&quote[even..]),
        come: sum_of(&quote[even..kept]),
    }
}

/// How many bytes of an upper part are looked at: all that a translation changes stands in them.
pub(crate) const CHANGED: usize = 20;

/// What goes and comes in an upper part, which begins at an even place of the message, where its first bytes become
/// those of `front` and it ends behind `kept` bytes.
pub(crate) fn upper_sums(upper: &[u8], kept: usize, front: &[u8]) -> Sums
    requires kept { kept ≤ length upper.now }
    requires front { length front.now ≡ min kept 20 }
    ensures { IsPartDifference upper.now (front.now ++ take (kept - 20) (drop 20 upper.now)) result.gone result.come }
{
    if kept < CHANGED {
        return Sums {
            gone: sum_of(upper),
            come: sum_of(front),
        };
    }
    let tail = cut_sums(&upper[CHANGED..], kept - CHANGED);
    Sums {
        gone: sum_both(sum_of(&upper[..CHANGED]), tail.gone),
        come: sum_both(sum_of(front), tail.come),
    }
}

/// Copies bytes of a quote, from this place on.
pub(crate) fn copy_front(front: &mut [u8], quote: &[u8], from: usize)
    requires { from + length front.old ≤ length quote.now }
    ensures { front.new ≡ take (length front.old) (drop from quote.now) }
{
    let end = from + front.len();
    front.copy_from_slice(&quote[from..end]);
}

/// The residue of two residues.
pub(crate) fn sum_both(one: u16, other: u16) -> u16
    ensures value { result ≡ (one + other) % 65535 }
{
    ((u32::from(one) + u32::from(other)) % 65535) as u16
}

/// These are the difference before an extension.
pub fn cut_quote_difference()
    ensures { CutQuoteDifference }
{}

/// These are the difference at the end of the message.
pub fn cut_last_difference()
    ensures { CutLastDifference }
{}

/// What a translated upper part changes stands in its first 18 bytes.
pub fn upper_behind_stays()
    ensures { UpperBehindStays }
{}

/// The checksum of a message is moved by what goes and what comes in its body (RFC 1624).
pub fn moved_by_body_difference()
    ensures { MovedByBodyDifference }
{}
