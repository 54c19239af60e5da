//! Laws of residues and of moved checksums, each the contract of a function with no body.
ghost use Rattle.siit_checksum.specs.Laws.{ChangedPartResidue, ChangedWordResidue, CutResidue, JoinedResidue, MovedAndBack, MovedBetweenKeepsResidue, MovedByDifference, MovedInTurn, MovedUdpAndBack, MovedUdpBetweenKeepsResidue, OnlyDifferencesCount};

/// The residue of bytes behind an even number of others is the sum of both residues (RFC 1071 section 1).
pub fn joined_residue()
    ensures { JoinedResidue }
{}

/// The residue of bytes that are cut at an even place is the sum of both parts' residues.
pub fn cut_residue()
    ensures { CutResidue }
{}

/// A word at an even place that is changed changes the residue by as much.
pub fn changed_word_residue()
    ensures { ChangedWordResidue }
{}

/// A part at an even place that is changed changes the residue by as much.
pub fn changed_part_residue()
    ensures { ChangedPartResidue }
{}

/// A moved checksum hangs on the difference of both residues alone (RFC 1624 section 3).
pub fn moved_by_difference()
    ensures { MovedByDifference }
{}

/// What is the same before and after may be left out of both residues.
pub fn only_differences_count()
    ensures { OnlyDifferencesCount }
{}

/// The changes of a checksum that is moved twice add up.
pub fn moved_in_turn()
    ensures { MovedInTurn }
{}

/// With the checksum moved between them, the residue of pseudo-header and bytes is the same before and after.
pub fn moved_between_keeps_residue()
    ensures { MovedBetweenKeepsResidue }
{}

/// The same of a UDP checksum.
pub fn moved_udp_between_keeps_residue()
    ensures { MovedUdpBetweenKeepsResidue }
{}

/// A checksum that is moved from one residue to another and then back has its first residue again (RFC 1624).
pub fn moved_and_back()
    ensures { MovedAndBack }
{}

/// The same of a UDP checksum, which is never 0.
pub fn moved_udp_and_back()
    ensures { MovedUdpAndBack }
{}
