//! Numbers in decimal and hexadecimal digits.
ghost use Rattle.std.specs.Prelude.{◌≡◌, ◌<◌, IfSome};
ghost use Rattle.siit_addr.specs.Texts.{decimal_digit_of, hex_digit_of, decimal_of, group_of, at_most};

fn decimal_digit(byte: u8) -> Option<u8>
    ensures value { result ≡ decimal_digit_of byte }
    ensures small { IfSome result (λ digit. digit < 10) }
{
    match byte {
        b'0'..=b'9' => Some(byte - b'0'),
        _ => None,
    }
}

fn hex_digit(byte: u8) -> Option<u8>
    ensures value { result ≡ hex_digit_of byte }
    ensures small { IfSome result (λ digit. digit < 16) }
{
    match byte {
        b'0'..=b'9' => Some(byte - b'0'),
        b'a'..=b'f' => Some(byte - b'a' + 10),
        b'A'..=b'F' => Some(byte - b'A' + 10),
        _ => None,
    }
}

// The number that one to three decimal digits with no leading zero write.
#[tactic(auto, using(crate::proofs::NumberIn::digit_by_digit))]
fn read_decimal(text: &[u8]) -> Option<u16>
    ensures { result ≡ decimal_of text.now }
{
    if text.is_empty() || text.len() > 3 || (text.len() > 1 && text[0] == b'0') {
        return None;
    }
    let mut number = 0;
    for byte in text {
        number = number * 10 + u16::from(decimal_digit(*byte)?);
    }
    Some(number)
}

/// The number of a decimal text, if it is at most 255 and at most the limit.
pub(crate) fn read_decimal_up_to(text: &[u8], limit: u8) -> Option<u8>
    ensures { result ≡ at_most limit (decimal_of text.now) }
{
    let number = read_decimal(text)?;
    if number > u16::from(limit) {
        return None;
    }
    Some(number as u8)
}

/// The group that one to four hexadecimal digits write.
#[tactic(auto, using(crate::proofs::NumberIn::digit_by_digit))]
pub(crate) fn read_group(text: &[u8]) -> Option<u16>
    ensures { result ≡ group_of text.now }
{
    if text.is_empty() || text.len() > 4 {
        return None;
    }
    let mut group = 0;
    for byte in text {
        group = group * 16 + u16::from(hex_digit(*byte)?);
    }
    Some(group)
}
