//! Bytes that are equal but for a checksum.
ghost use Rattle.siit_pair.specs.Same.{has_same_checksum, is_same_moved, is_same_unsummed};
ghost use Rattle.std.specs.Prelude.{◌≡◌, ◌≤◌, ◌+◌, length};

use siit_word::get16;

/// Whether bytes are equal but for the checksum at this place, which is the same number in both (RFC 1624).
pub(crate) fn is_same_moved(place: usize, old: &[u8], new: &[u8]) -> bool
    requires old { place + 2 ≤ length old.now }
    requires new { place + 2 ≤ length new.now }
    ensures { result ≡ is_same_moved place old.now new.now }
{
    is_same_unsummed(place, old, new) && has_same_checksum(place, old, new)
}

/// Whether bytes are equal but for the checksum at this place.
pub(crate) fn is_same_unsummed(place: usize, old: &[u8], new: &[u8]) -> bool
    requires old { place + 2 ≤ length old.now }
    requires new { place + 2 ≤ length new.now }
    ensures { result ≡ is_same_unsummed place old.now new.now }
{
    old[..place] == new[..place] && old[place + 2..] == new[place + 2..]
}

/// Whether the checksum at this place is the same number in both, of which 0 and 65535 are one.
fn has_same_checksum(place: usize, old: &[u8], new: &[u8]) -> bool
    requires old { place + 2 ≤ length old.now }
    requires new { place + 2 ≤ length new.now }
    ensures { result ≡ has_same_checksum place old.now new.now }
{
    get16(old, place) % 65535 == get16(new, place) % 65535
}
