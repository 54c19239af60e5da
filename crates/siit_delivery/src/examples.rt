//! What each part of joining is for.
ghost use Rattle.siit_delivery.specs.CoverExamples.{CoverExamples};

/// Fragments that join to a datagram, and for each part of joining (RFC 791 section 3.2) fragments that keep all others
/// and don't.
pub fn cover_examples()
    ensures { CoverExamples }
{}
