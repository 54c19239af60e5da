//! A law of the rules on IPv4 arrival, the contract of a function with no body.
ghost use Rattle.siit_arrival4.specs.Unruled.{RulesLeave4};

/// A packet for which no rule holds is read, has a TTL of at least 2 and mapped addresses, and its upper part is what
/// the translation of datagrams and of their fragments asks for.
pub fn rules_leave4()
    ensures { RulesLeave4 }
{}
