//! Texts as worked by hand, each table the contract of a function with no body.
ghost use Rattle.siit_addr.specs.TextExamples.{
  Ipv4TextsAreRead,
  Ipv4TextsAreRefused,
  Ipv6TextsAreRead,
  Ipv6TextsAreRefused,
  PrefixTextsAreRead,
  PrefixTextsAreRefused,
  CanonicalTextsAreWritten,
};

/// The definitions of the texts give the worked examples of RFC 4291 section 2.2 and RFC 5952. There is nothing to run.
pub fn text_examples()
    ensures ipv4_read { Ipv4TextsAreRead }
    ensures ipv4_refused { Ipv4TextsAreRefused }
    ensures ipv6_read { Ipv6TextsAreRead }
    ensures ipv6_refused { Ipv6TextsAreRefused }
    ensures prefixes_read { PrefixTextsAreRead }
    ensures prefixes_refused { PrefixTextsAreRefused }
    ensures written { CanonicalTextsAreWritten }
{}
