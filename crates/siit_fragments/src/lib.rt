//! Fragments (RFC 791 section 3.2, RFC 8200 section 4.5): packets are cut into pieces, and pieces cover a datagram.
#![tactic(auto)]

mod cut;
mod examples;
mod laws;

pub use cut::{CutPlan, piece, plan};
pub use examples::piece_examples;
pub use laws::{
    cut_fragments_cover, cut_packets4_cover, cut_packets6_cover, pieces_cover,
    translated_fragments_cover,
};
