//! Laws of accepted configurations. Nothing runs: each is the contract of a function with no body.
ghost use Rattle.siit_config.specs.Laws.{AcceptedChainsAreGood, SymmetricAddressesComeBack, SymmetricTablesAreDisjoint};

use siit_map::disjoint_tables_come_back;

/// What `read_config` accepts has one to eight devices within their limits, and each table is one (RFC 7757 section 3).
pub fn accepted_chains_are_good()
    ensures { AcceptedChainsAreGood }
{}

/// In a configuration with `symmetric = true` no two prefixes of a table overlap.
pub fn symmetric_tables_are_disjoint()
    ensures { SymmetricTablesAreDisjoint }
{}

/// In a configuration with `symmetric = true` each IPv4 address that a device's table maps comes back there (RFC 7757
/// section 3).
pub fn symmetric_addresses_come_back()
    ensures { SymmetricAddressesComeBack }
{
    disjoint_tables_come_back();
    symmetric_tables_are_disjoint();
}
