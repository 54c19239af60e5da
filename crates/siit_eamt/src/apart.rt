//! Whether prefixes overlap, found by their order.
ghost use Rattle.std.specs.Prelude.{◌≡◌, ◌↔◌, false, All, IsTrue, length};
ghost use Rattle.std.specs.List.{AllAdjacentBelow};
ghost use Rattle.siit_addr.specs.Addresses.{overlap};

use crate::entry::Eam;
use siit_addr::{Prefix4, Prefix6};

/// Whether no prefix overlaps the next one.
pub(crate) fn are_apart4(sorted4: &[Prefix4]) -> bool
    ensures { IsTrue result
        ↔ AllAdjacentBelow (λ p q. overlap 32 p.len p.addr.0 q.len q.addr.0 ≡ false) sorted4.now (length sorted4.now) }
{
    for next in 1..sorted4.len() {
        if sorted4[next - 1].overlaps(&sorted4[next]) {
            return false;
        }
    }
    true
}

pub(crate) fn are_apart6(sorted6: &[Prefix6]) -> bool
    ensures { IsTrue result
        ↔ AllAdjacentBelow (λ p q. overlap 128 p.len p.addr.0 q.len q.addr.0 ≡ false) sorted6.now (length sorted6.now) }
{
    for next in 1..sorted6.len() {
        if sorted6[next - 1].overlaps(&sorted6[next]) {
            return false;
        }
    }
    true
}

/// Whether no entry's IPv6 prefix overlaps this one.
pub(crate) fn are_clear_of(entries: &[Eam], prefix: Prefix6) -> bool
    ensures { IsTrue result
        ↔ All (λ e. overlap 128 e.p6.len e.p6.addr.0 prefix.len prefix.addr.0 ≡ false) entries.now }
{
    for entry in entries {
        if entry.p6.overlaps(&prefix) {
            return false;
        }
    }
    true
}
