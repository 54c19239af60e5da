//! The prefixes of a table's entries in ascending order.
ghost use Rattle.std.specs.Prelude.{◌≡◌, IfOk};
ghost use Rattle.std.specs.List.Sorted.{IsNonDecreasingBy, IsPermutation};
ghost use Rattle.siit_eamt.specs.Table.{prefixes4, prefixes6};

use crate::entry::Eam;
use siit_addr::{Prefix4, Prefix6};
use std::alloc::{AllocError, Global};

/// The IPv4 prefixes in ascending order.
pub(crate) fn sorted4(alloc: Global, entries: &[Eam]) -> Result<Vec<Prefix4>, AllocError>
    ensures all { IfOk result (λ sorted. IsPermutation (prefixes4 entries.now) sorted.items) }
    ensures ascending { IfOk result (λ sorted. IsNonDecreasingBy (λ prefix. prefix.addr.0) sorted.items) }
{
    let mut sorted = given4(alloc, entries)?;
    sorted.sort()?;
    Ok(sorted)
}

fn given4(alloc: Global, entries: &[Eam]) -> Result<Vec<Prefix4>, AllocError>
    ensures { IfOk result (λ given. given.items ≡ prefixes4 entries.now) }
{
    entries.iter().map(|entry| entry.p4).collect(alloc)
}

/// The IPv6 prefixes in ascending order.
pub(crate) fn sorted6(alloc: Global, entries: &[Eam]) -> Result<Vec<Prefix6>, AllocError>
    ensures all { IfOk result (λ sorted. IsPermutation (prefixes6 entries.now) sorted.items) }
    ensures ascending { IfOk result (λ sorted. IsNonDecreasingBy (λ prefix. prefix.addr.0) sorted.items) }
{
    let mut sorted = given6(alloc, entries)?;
    sorted.sort()?;
    Ok(sorted)
}

fn given6(alloc: Global, entries: &[Eam]) -> Result<Vec<Prefix6>, AllocError>
    ensures { IfOk result (λ given. given.items ≡ prefixes6 entries.now) }
{
    entries.iter().map(|entry| entry.p6).collect(alloc)
}
