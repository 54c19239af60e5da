//! The laws, each the contract of a function with no body.
ghost use Rattle.siit_pair.specs.Laws.{
  AddressesComeBack,
  DatagramsComeAcross,
  DisjointPairsComeBack,
  ExtensionsComeAcross,
  FragmentsComeAcross,
  OneTableMapsAlike,
  PacketsBehindAreRead,
  QuotesComeAcross,
};

use siit_arrival4::rules_leave4;
use siit_arrival6::rules_leave6;
use siit_cutting::{cutting_commutes_to_4, cutting_commutes_to_6};
use siit_map::disjoint_tables_come_back;
use siit_quoted::{bodies_come_back, extensions_come_back};

/// Two devices with one table map alike; an IPv4 address that maps back comes back through two devices that map alike;
/// and in a pair with a table of disjoint prefixes every address does that its devices map. There is nothing to run.
pub fn addresses_come_back()
    ensures alike { OneTableMapsAlike }
    ensures reversible { AddressesComeBack }
    ensures disjoint { DisjointPairsComeBack }
{
    disjoint_tables_come_back();
}

/// A whole datagram is behind a pair what it was, changed in nothing but what is listed. There is nothing to run.
pub fn datagrams_come_across()
    ensures { DatagramsComeAcross }
{}

/// What comes out behind a pair for the fragments of a datagram joins to the datagram, changed in nothing but what is
/// listed. There is nothing to run.
pub fn fragments_come_across()
    ensures { FragmentsComeAcross }
{
    rules_leave4();
    rules_leave6();
    cutting_commutes_to_6();
    cutting_commutes_to_4();
}

/// Each packet that comes out behind a pair is read as it is written. There is nothing to run.
pub fn packets_behind_are_read()
    ensures { PacketsBehindAreRead }
{
    rules_leave4();
    rules_leave6();
    cutting_commutes_to_6();
}

/// The quote of an ICMP error comes out of a pair with its own addresses, cut and padded as the law says (RFC 4884).
/// There is nothing to run.
pub fn quotes_come_across()
    ensures { QuotesComeAcross }
{
    bodies_come_back();
}

/// An extension that the first device carries comes out of a pair byte for byte (RFC 4884). There is nothing to run.
pub fn extensions_come_across()
    ensures { ExtensionsComeAcross }
{
    extensions_come_back();
}
