//! IPv4 addresses embedded in IPv6 addresses under a prefix (RFC 6052).
#![tactic(auto)]

mod embed;

ghost use Rattle.siit_rfc6052.specs.Examples.{EmbeddingExamples};
ghost use Rattle.siit_rfc6052.specs.Embedding.{ExtractsEmbedded};

pub use embed::{Embed, EmbedFault};

/// The addresses of RFC 6052 section 2.4: 192.0.2.33 under a prefix of each length. There is nothing to run.
pub fn embedding_examples()
    ensures { EmbeddingExamples }
{}

/// What was embedded under an accepted prefix is extracted again. There is nothing to run.
pub fn extracts_embedded()
    ensures { ExtractsEmbedded }
{}
