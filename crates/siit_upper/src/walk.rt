//! The walk over the extension headers of an IPv6 packet (RFC 8200 section 4).
ghost use Rattle.std.specs.Prelude.{◌≡◌, ◌↔◌, ◌<◌, ◌≤◌, ◌+◌, length, true, false, Ok, Err, IfOk, IfErr, IfSome, IsNone};
ghost use Rattle.siit_model.specs.Extensions.{extension_length, fragment_fields, is_cut_short, is_extension, is_passed, segments_with, walk_at_fragment, walk_of};
ghost use Rattle.siit_upper.specs.Walks.{walk_by_rule, walked};

use siit_rules::Rule;
use siit_word::{get16, get32};

/// The fields of a Fragment header (RFC 8200 section 4.5).
#[derive(Clone, Copy, Debug, PartialEq, Eq)]
pub struct FragInfo {
    /// In units of 8 bytes.
    pub offset: u16,
    /// Whether more fragments follow.
    pub more: bool,
    /// The identification.
    pub id: u32,
}

/// Where the walk over the extension headers ends.
#[derive(Clone, Copy, Debug, PartialEq, Eq)]
pub struct Walk {
    /// The protocol of the upper part.
    pub upper: u8,
    /// How many bytes stand before the upper part.
    pub at: u16,
    /// The Fragment header, if there is one.
    pub frag: Option<FragInfo>,
    /// The place, from the IPv6 header's first byte, of the first Segments Left octet that isn't 0.
    pub segments: Option<u32>,
}

/// Walks over the extension headers of an IPv6 packet's payload, whose first header is of kind `first` (RFC 8200
/// section 4). `ShortExt6` where one runs past the end, `ExtOrder6` at Hop-by-Hop Options behind another header, and
/// `ExtAfterFragment6` where an extension header follows a Fragment header: the first of these that the walk meets.
pub fn walk_ext(payload: &[u8], first: u8) -> Result<Walk, Rule>
    requires { length payload.now ≤ 65535 }
    ensures walk { IfOk result (λ walk. walk_of first payload.now ≡ Ok (walked walk)) }
    ensures within { IfOk result (λ walk. walk.at ≤ length payload.now) }
    ensures offset { IfOk result (λ walk. IfSome walk.frag (λ frag. frag.offset < 8192)) }
    ensures refused { IfErr result (λ rule. walk_by_rule (walk_of first payload.now) ≡ Err rule) }
{
    let mut next = first;
    let mut at = 0;
    let mut segments = None;
    'headers: while passes(at, next) {
        let rest = &payload[at..];
        let Some(len) = extension_len(rest) else {
            return Err(Rule::ShortExt6);
        };
        segments = segments_left(at, next, segments, rest);
        next = rest[0];
        at += len;
    }
    match next {
        0 => Err(Rule::ExtOrder6),
        44 => end_at_fragment(&payload[at..], at, segments),
        upper => Ok(Walk {
            upper,
            at: at as u16,
            frag: None,
            segments,
        }),
    }
}

/// Whether the walk passes over a header of this kind: Hop-by-Hop Options at the first place, Routing, Destination
/// Options.
fn passes(at: usize, next: u8) -> bool
    ensures { result ≡ is_passed at next }
{
    next == 0 && at == 0 || next == 43 || next == 60
}

/// The length of the extension header at the front, None where it runs past the end.
fn extension_len(rest: &[u8]) -> Option<usize>
    ensures none { IsNone result ↔ (is_cut_short rest.now ≡ true) }
    ensures len { IfSome result (λ len. len ≡ extension_length rest.now) }
    ensures within { IfSome result (λ len. len ≤ length rest.now) }
    ensures least { IfSome result (λ len. 8 ≤ len) }
    ensures whole { IfSome result (λ _. is_cut_short rest.now ≡ false) }
{
    if rest.len() < 8 {
        return None;
    }
    let len = 8 * (usize::from(rest[1]) + 1);
    if rest.len() < len {
        return None;
    }
    Some(len)
}

/// The place of the first Segments Left octet that isn't 0, once the header at the front of `rest` has been looked at.
fn segments_left(at: usize, next: u8, segments: Option<u32>, rest: &[u8]) -> Option<u32>
    requires place { at ≤ 65535 }
    requires header { 8 ≤ length rest.now }
    ensures { result ≡ segments_with at next segments rest.now }
{
    match segments {
        Some(place) => Some(place),
        None if next == 43 && rest[3] != 0 => Some(40 + at as u32 + 3),
        None => None,
    }
}

/// The walk's end at a Fragment header at the front of `rest`, `at` bytes behind the IPv6 header.
fn end_at_fragment(rest: &[u8], at: usize, segments: Option<u32>) -> Result<Walk, Rule>
    requires { at + length rest.now ≤ 65535 }
    ensures walk { IfOk result (λ walk. walk_at_fragment at segments rest.now ≡ Ok (walked walk)) }
    ensures within { IfOk result (λ walk. walk.at ≤ at + length rest.now) }
    ensures offset { IfOk result (λ walk. IfSome walk.frag (λ frag. frag.offset < 8192)) }
    ensures refused { IfErr result (λ rule. walk_by_rule (walk_at_fragment at segments rest.now) ≡ Err rule) }
{
    if rest.len() < 8 {
        return Err(Rule::ShortExt6);
    }
    if is_extension(rest[0]) {
        return Err(Rule::ExtAfterFragment6);
    }
    let frag = frag_info(rest);
    Ok(Walk {
        upper: rest[0],
        at: (at + 8) as u16,
        frag: Some(frag),
        segments,
    })
}

/// Whether a header of this kind is one that may not follow a Fragment header.
fn is_extension(next: u8) -> bool
    ensures { result ≡ is_extension next }
{
    matches!(next, 0 | 43 | 44 | 51 | 60 | 135 | 139 | 140)
}

/// The fields of a Fragment header.
fn frag_info(field: &[u8]) -> FragInfo
    requires { 8 ≤ length field.now }
    ensures offset { result.offset ≡ (fragment_fields field.now).offset }
    ensures small { result.offset < 8192 }
    ensures more { result.more ≡ (fragment_fields field.now).more }
    ensures id { result.id ≡ (fragment_fields field.now).id }
{
    let shape = get16(field, 2);
    FragInfo {
        offset: shape / 8,
        more: shape % 2 == 1,
        id: get32(field, 4),
    }
}

#[cfg(test)]
mod tests {
    use super::*;

    #[test]
    fn a_route_with_a_segment_left_is_told_by_its_place(rt: HostRuntime) {
        let payload = [6, 0, 0, 1, 0, 0, 0, 0, 0xc0, 0, 0, 80];
        let walk = Walk {
            upper: 6,
            at: 8,
            frag: None,
            segments: Some(43),
        };
        assert_eq!(rt; walk_ext(&payload, 43), Ok(walk));
    }

    #[test]
    fn a_fragment_stands_behind_hop_by_hop_options(rt: HostRuntime) {
        let payload = [44, 0, 1, 4, 0, 0, 0, 0, 17, 0, 0, 17, 0, 0, 0xab, 0xcd];
        let frag = FragInfo {
            offset: 2,
            more: true,
            id: 0xabcd,
        };
        let walk = Walk {
            upper: 17,
            at: 16,
            frag: Some(frag),
            segments: None,
        };
        assert_eq!(rt; walk_ext(&payload, 0), Ok(walk));
        assert_eq!(rt; walk_ext(&payload, 44), Err(Rule::ExtAfterFragment6));
    }
}
