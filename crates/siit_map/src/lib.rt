//! Which address of the other family an address has at a device.
#![tactic(auto)]

mod mapping;

ghost use Rattle.siit_map.specs.Reversible.{DisjointTablesComeBack};

pub use mapping::{MapRefusal, Mapping, Means};
use siit_rfc6052::extracts_embedded;

/// In a table whose prefixes don't overlap, each IPv4 address that maps to an IPv6 address is the one that this maps
/// back to. Of IPv6 addresses nothing is said: one may map to an IPv4 address that maps back to another. There is
/// nothing to run.
pub fn disjoint_tables_come_back()
    ensures { DisjointTablesComeBack }
{
    extracts_embedded();
}

#[cfg(test)]
mod tests;
