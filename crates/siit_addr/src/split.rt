//! Texts in parts.
ghost use Rattle.std.specs.Prelude.{◌≡◌, ◌≢◌, ◌<◌, [], ◌∷◌, None, Some, length, MatchOption, IfSome};
ghost use Rattle.siit_addr.specs.Texts.{parts_at, around_gap, point, slash};

/// The text before the first separator and the text behind it.
#[tactic(auto, using(crate::proofs::Parts::at_first))]
pub(crate) fn split_at_first(text: &[u8], separator: u8) -> Option<(&[u8], &[u8])>
    ensures parts { MatchOption result
        (parts_at separator text.now ≡ text.now ∷ [])
        (λ sides. parts_at separator text.now ≡ sides.0.now ∷ parts_at separator sides.1.now) }
    ensures shorter { IfSome result (λ sides. length sides.1.now < length text.now) }
{
    for (i, byte) in text.iter().enumerate() {
        if *byte == separator {
            return Some((&text[..i], &text[i + 1..]));
        }
    }
    None
}

/// The text before the first "::" and the text behind it.
#[tactic(auto, using(crate::proofs::Parts::at_gap))]
pub(crate) fn split_at_gap(text: &[u8]) -> Option<(&[u8], &[u8])>
    ensures { MatchOption result
        (around_gap text.now ≡ None)
        (λ sides. around_gap text.now ≡ Some (sides.0.now, sides.1.now)) }
{
    for i in 1..text.len() {
        if text[i - 1] == b':' && text[i] == b':' {
            return Some((&text[..i - 1], &text[i + 1..]));
        }
    }
    None
}

/// The two parts of a text that has exactly one slash.
#[tactic(auto, using(crate::proofs::Parts::length_parts_at))]
pub(crate) fn in_two(text: &[u8]) -> Option<(&[u8], &[u8])>
    ensures { MatchOption result
        (length (parts_at slash text.now) ≢ 2)
        (λ parts. parts_at slash text.now ≡ parts.0.now ∷ parts.1.now ∷ []) }
{
    let (first, second) = split_at_first(text, b'/')?;
    match split_at_first(second, b'/') {
        Some(_) => None,
        None => Some((first, second)),
    }
}

/// The four parts of a text that has exactly three points.
#[tactic(auto, using(crate::proofs::Parts::length_parts_at))]
pub(crate) fn in_four(text: &[u8]) -> Option<(&[u8], &[u8], &[u8], &[u8])>
    ensures { MatchOption result
        (length (parts_at point text.now) ≢ 4)
        (λ parts. parts_at point text.now ≡ parts.0.now ∷ parts.1.now ∷ parts.2.now ∷ parts.3.now ∷ []) }
{
    let (first, rest) = split_at_first(text, b'.')?;
    let (second, rest) = split_at_first(rest, b'.')?;
    let (third, fourth) = split_at_first(rest, b'.')?;
    match split_at_first(fourth, b'.') {
        Some(_) => None,
        None => Some((first, second, third, fourth)),
    }
}
