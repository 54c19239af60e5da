//! Single words after a program's name: names of files, numbers and addresses.
ghost use Rattle.std.specs.Prelude.{◌≡◌, ◌||◌, ◌==◌, map, option_map, slice_index};
ghost use Rattle.siit_addr.specs.Texts.{has_leading_zero};
ghost use Rattle.siit_command.specs.Words.{address_of_text, is_output_name, number_of_text};
ghost use Rattle.siit_command.specs.Addresses.{address_read};

use siit_addr::{Addr4, Addr6, read_addr4, read_addr6};

/// An address of either family.
#[derive(Clone, Copy, Debug, PartialEq, Eq)]
pub enum Address {
    Four(Addr4),
    Six(Addr6),
}

/// Whether an output may have this name beside the other names of files: it is none of them, and isn't `-`.
pub fn is_output_name(output: &str, others: &[&str]) -> bool
    ensures { result ≡ is_output_name output.now (map (λ other. other.now) others.now) }
{
    let mut rest = others;
    while let [other, tail @ ..] = rest {
        if output == *other {
            return false;
        }
        rest = tail;
    }
    output != "-"
}

// What `parse` takes before the digits of a number: a sign, or a zero.
fn has_mark(text: &[u8]) -> bool
    ensures { result ≡ ((slice_index text.now 0 == 43) || has_leading_zero text.now) }
{
    matches!(*text, [b'+', ..] | [b'0', _, ..])
}

/// The number below 2^64 that decimal digits write, without a sign or leading zeros.
#[tactic(auto, using(crate::proofs::Numbers::number_read))]
pub fn read_number(text: &str) -> Option<u64>
    ensures { result ≡ number_of_text text.now }
{
    if has_mark(text.as_bytes()) {
        return None;
    }
    text.parse().ok()
}

/// The IPv4 or IPv6 address that a text writes (RFC 4291 section 2.2).
pub fn read_address(text: &str) -> Option<Address>
    ensures { option_map address_read result ≡ address_of_text text.now }
{
    if let Some(a) = read_addr4(text) {
        return Some(Address::Four(a));
    }
    let x = read_addr6(text)?;
    Some(Address::Six(x))
}
