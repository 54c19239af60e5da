//! The candidates that count (RFC 7050 section 3).
ghost use Rattle.std.specs.Prelude.{◌≡◌, ◌≤◌, option_to_list, IfOk, IsTrue, OnOk, fold, length, map};
ghost use Rattle.siit_rfc6052.specs.Embedding.{is_embedding_length};
ghost use Rattle.siit_discovery.specs.Discovery.{with_prefix, candidate_at, candidates, counting, has_partner, is_there, prefix_of, prefixes_of};
ghost use Rattle.siit_discovery.specs.Counting.{counting_at};
ghost use Rattle.siit_discovery.specs.Seen.{address_seen, candidate_seen, prefix_seen};

use crate::candidate::{Candidate, candidate_at, is_partner};
use siit_addr::{Addr6, Prefix6};
use std::alloc::{AllocError, Global};

/// The lengths of prefixes under which IPv4 addresses are embedded (RFC 6052 section 2.2).
const LENGTHS: [u8; 6] = [32, 40, 48, 56, 64, 96];

/// The prefixes of the candidates that count, each once.
pub(crate) fn prefixes_of(alloc: Global, addresses: &[Addr6]) -> Result<Vec<Prefix6>, AllocError>
    ensures { IfOk result (λ found. map prefix_seen found.items ≡ prefixes_of (map address_seen addresses.now)) }
{
    let mut found = Vec::new(alloc);
    for x in addresses {
        push_counting(&mut found, addresses, *x)?;
    }
    Ok(found)
}

/// Adds the prefixes of the candidates of an address that count.
fn push_counting(found: &mut Vec<Prefix6>, addresses: &[Addr6], x: Addr6) -> Result<(), AllocError>
    ensures { OnOk result (map prefix_seen found.new.items
        ≡ fold with_prefix (map prefix_seen found.old.items) (map prefix_of (counting (map address_seen addresses.now) x.0))) }
{
    let alone = count_candidates(x) == 1;
    for len in LENGTHS {
        push_if_counting(found, addresses, x, len, alone)?;
    }
    Ok(())
}

/// Adds the prefix of this length, if the address has a candidate with it that counts.
fn push_if_counting(
    found: &mut Vec<Prefix6>,
    addresses: &[Addr6],
    x: Addr6,
    len: u8,
    alone: bool,
) -> Result<(), AllocError>
    requires { IsTrue (is_embedding_length len) }
    ensures { OnOk result (map prefix_seen found.new.items
        ≡ fold with_prefix (map prefix_seen found.old.items)
        (map prefix_of (counting_at alone (map address_seen addresses.now) (candidate_at x.0 len)))) }
{
    let Some(candidate) = candidate_at(x, len) else {
        return Ok(());
    };
    if alone || has_partner(addresses, &candidate) {
        push_new(found, candidate.prefix)?;
    }
    Ok(())
}

/// How many candidates an address has.
fn count_candidates(x: Addr6) -> usize
    ensures { result ≡ length (candidates x.0) }
{
    let mut count = 0;
    for len in LENGTHS {
        count += count_at(x, len);
    }
    count
}

/// How many candidates an address has with a prefix of this length, 0 or 1.
fn count_at(x: Addr6, len: u8) -> usize
    requires { IsTrue (is_embedding_length len) }
    ensures count { result ≡ length (option_to_list (candidate_at x.0 len)) }
    ensures most { result ≤ 1 }
{
    match candidate_at(x, len) {
        Some(_) => 1,
        None => 0,
    }
}

/// Whether some address has the partner of a candidate.
fn has_partner(addresses: &[Addr6], c: &Candidate) -> bool
    requires { IsTrue (is_embedding_length c.now.prefix.len) }
    ensures { result ≡ has_partner (map address_seen addresses.now) (candidate_seen c.now) }
{
    for x in addresses {
        if is_partner(c, &candidate_at(*x, c.prefix.len)) {
            return true;
        }
    }
    false
}

/// Adds a prefix, unless it is there.
fn push_new(found: &mut Vec<Prefix6>, prefix: Prefix6) -> Result<(), AllocError>
    ensures { OnOk result (map prefix_seen found.new.items
        ≡ with_prefix (map prefix_seen found.old.items) (prefix_seen prefix)) }
{
    if !is_there(found.as_slice(), prefix) {
        found.push(prefix)?;
    }
    Ok(())
}

/// Whether a prefix is among others.
fn is_there(found: &[Prefix6], prefix: Prefix6) -> bool
    ensures { result ≡ is_there (map prefix_seen found.now) (prefix_seen prefix) }
{
    for other in found {
        if other.addr == prefix.addr && other.len == prefix.len {
            return true;
        }
    }
    false
}
