//! Numbers written in decimal and hexadecimal digits.
ghost use Rattle.std.specs.Prelude.{◌≡◌, ◌+◌, ◌<◌, ◌≤◌, [], ◌∷◌, ◌++◌};
ghost use Rattle.arrayvec.specs.ArrayString.{array_string_len};
ghost use Rattle.siit_addr.specs.Canonical.{digit_byte, digit_at, decimal_text, group_text};

use arrayvec::ArrayString;

/// Writes a number in decimal digits without leading zeros.
pub(crate) fn push_decimal<const CAP: usize>(text: &mut ArrayString<CAP>, number: u8)
    requires { array_string_len text.old + 3 ≤ CAP }
    ensures bytes { text.new.bytes ≡ text.old.bytes ++ decimal_text number }
    ensures len { array_string_len text.new ≤ array_string_len text.old + 3 }
{
    push_digit_at(text, 10, 100, u16::from(number));
    push_digit_at(text, 10, 10, u16::from(number));
    push_digit(text, u16::from(number % 10));
}

/// Writes a group in hexadecimal digits without leading zeros.
pub(crate) fn push_group<const CAP: usize>(text: &mut ArrayString<CAP>, group: u16)
    requires { array_string_len text.old + 4 ≤ CAP }
    ensures bytes { text.new.bytes ≡ text.old.bytes ++ group_text group }
    ensures len { array_string_len text.new ≤ array_string_len text.old + 4 }
{
    push_digit_at(text, 16, 4096, group);
    push_digit_at(text, 16, 256, group);
    push_digit_at(text, 16, 16, group);
    push_digit(text, group % 16);
}

// Writes the digit of a unit, if the number reaches the unit.
fn push_digit_at<const CAP: usize>(text: &mut ArrayString<CAP>, base: u16, unit: u16, number: u16)
    requires base { (1 ≤ base) × (base ≤ 16) }
    requires unit { 1 ≤ unit }
    requires room { array_string_len text.old + 1 ≤ CAP }
    ensures bytes { text.new.bytes ≡ text.old.bytes ++ digit_at base unit number }
    ensures len { array_string_len text.new ≤ array_string_len text.old + 1 }
{
    if number >= unit {
        push_digit(text, number / unit % base);
    }
}

// Writes one digit, 0 to 9 and a to f.
fn push_digit<const CAP: usize>(text: &mut ArrayString<CAP>, digit: u16)
    requires digit { digit < 16 }
    requires room { array_string_len text.old + 1 ≤ CAP }
    ensures bytes { text.new.bytes ≡ text.old.bytes ++ digit_byte digit ∷ [] }
    ensures len { array_string_len text.new ≡ array_string_len text.old + 1 }
{
    let first = if digit < 10 { b'0' } else { b'a' - 10 };
    text.push(char::from(first + digit as u8));
}
