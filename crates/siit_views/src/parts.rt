//! Bytes lent in two parts.
ghost use Rattle.std.specs.Prelude.{◌≡◌, ◌≤◌, length, take, drop};
ghost use Rattle.std.specs.Borrow.{sem};
ghost use Rattle.siit_views.specs.Parts.{LendsFragment, LendsHalves};

/// Two parts of some bytes, lent together.
#[derive(Drop)]
pub(crate) struct Halves<'a> {
    pub front: &'a mut [u8],
    pub rest: &'a mut [u8],
}

/// The first bytes and those behind them.
pub(crate) fn split_parts(bytes: &mut [u8], at: usize) -> Halves<'_>
    requires { at ≤ length bytes.old }
    ensures* writes_back { sem 𝓛 (LendsHalves bytes.entry result) }
    ensures front { result.front.now ≡ take at bytes.old }
    ensures rest { result.rest.now ≡ drop at bytes.old }
{
    let (front, rest) = bytes.split_at_mut(at);
    Halves { front, rest }
}

/// A Fragment header and what follows it (RFC 8200 section 4.5), to be written where they lie.
#[derive(Drop)]
pub struct FragView<'a> {
    /// The 8 bytes of the Fragment header.
    pub field: &'a mut [u8],
    /// The fragment.
    pub rest: &'a mut [u8],
}

/// The Fragment header at the front of at least 8 bytes and what follows it. What is written through them is in `part`
/// afterwards.
pub fn frag_view(part: &mut [u8]) -> FragView<'_>
    requires { 8 ≤ length part.old }
    ensures* writes_back { sem 𝓛 (LendsFragment part.entry result) }
    ensures field { result.field.now ≡ take 8 part.old }
    ensures rest { result.rest.now ≡ drop 8 part.old }
{
    let (field, rest) = part.split_at_mut(8);
    FragView { field, rest }
}
