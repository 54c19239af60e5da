//! Laws of pieces and covers, each the contract of a function with no body.
ghost use Rattle.siit_fragments.specs.Laws.{CutFragmentsCover, CutPackets4Cover, CutPackets6Cover, PiecesCover, TranslatedFragmentsCover};

/// The pieces of a whole packet cover its datagram (RFC 791 section 3.2, RFC 8200 section 4.5).
pub fn pieces_cover()
    ensures { PiecesCover }
{}

/// Each fragment of a cover may be replaced by its pieces.
pub fn cut_fragments_cover()
    ensures { CutFragmentsCover }
{}

/// Each IPv4 packet of a cover may be replaced by its pieces.
pub fn cut_packets4_cover()
    ensures { CutPackets4Cover }
{}

/// Each IPv6 packet of a cover may be replaced by its pieces.
pub fn cut_packets6_cover()
    ensures { CutPackets6Cover }
{}

/// Fragments that are translated one by one cover the datagram whose checksum is changed in the same way.
pub fn translated_fragments_cover()
    ensures { TranslatedFragmentsCover }
{}
