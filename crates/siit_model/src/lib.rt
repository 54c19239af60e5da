//! Definitions of bytes, checksums and packets, in the terms of the RFCs. They run nowhere: contracts of the crates
//! above cite them. The worked examples are the contracts of functions with no body.
#![tactic(auto)]

ghost use Rattle.siit_model.specs.Examples.{ChecksumExamples, PacketExamples, WalkExamples};

/// Packets that are read and written.
pub fn packet_examples()
    ensures { PacketExamples }
{}

/// Checksums that are moved.
pub fn checksum_examples()
    ensures { ChecksumExamples }
{}

/// Walks over extension headers.
pub fn walk_examples()
    ensures { WalkExamples }
{}
