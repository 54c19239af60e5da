//! A law of the rules on IPv6 arrival, the contract of a function with no body.
ghost use Rattle.siit_arrival6.specs.Unruled.{RulesLeave6};

/// A packet for which no rule holds is read, its walk is accepted, it has a hop limit of at least 2 and mapped
/// addresses, and its upper part is what the translation of datagrams and of their fragments asks for.
pub fn rules_leave6()
    ensures { RulesLeave6 }
{}
