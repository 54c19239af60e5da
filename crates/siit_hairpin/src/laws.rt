//! Laws of packets that are turned, each the contract of a function with no body.
ghost use Rattle.siit_hairpin.specs.Examples.{HairpinExamples, RefusedExamples};
ghost use Rattle.siit_hairpin.specs.Laws.{RepliesComeFromTheFirstDestination, TranslatedPacketsPass};

use siit_rfc6052::extracts_embedded;

/// The definition gives the worked examples. There is nothing to run.
pub fn hairpin_examples()
    ensures turned { HairpinExamples }
    ensures refused { RefusedExamples }
{}

/// The reply to a turned packet comes from the address that was first sent to, in a table whose prefixes don't overlap.
/// There is nothing to run.
pub fn replies_come_from_the_first_destination()
    ensures { RepliesComeFromTheFirstDestination }
{
    extracts_embedded();
}

/// A packet whose destination is the IPv6 address of an IPv4 address that comes back isn't turned. There is nothing to
/// run.
pub fn translated_packets_pass()
    ensures { TranslatedPacketsPass }
{}
