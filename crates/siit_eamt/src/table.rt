//! The table, and its look-ups.
ghost use Rattle.std.specs.Prelude.{◌≡◌, ◌+◌, ◌<◌, ◌≤◌, ◌⊎◌, Err, IfErr, IfOk, None, OnOk, Some, length, option_map};
ghost use Rattle.std.specs.List.{slice_get};
ghost use Rattle.siit_eamt.specs.Disjoint.{is_disjoint};
ghost use Rattle.siit_eamt.specs.Entries.{entry_to_4, entry_to_6};
ghost use Rattle.siit_eamt.specs.Faults.{table_fault};
ghost use Rattle.siit_eamt.specs.declared.entry.EamFault.TheVariants.{NoMemory, TooMany};

use crate::apart::{are_apart4, are_apart6, are_clear_of};
use crate::cutting::{intervals4, intervals6};
use crate::entry::{Eam, EamFault, Hit4, Hit6};
use crate::intervals::Intervals;
use crate::sorted::{sorted4, sorted6};
use crate::steps::Steps;
use crate::tries::Tries;
use siit_addr::{Addr4, Addr6, Prefix4, Prefix6};
use std::alloc::Global;
use std::marker::Model;
use std::sync::ledger::Ledger;

/// An accepted table, seen as its list of entries.
#[derive(Drop)]
pub struct Eamt {
    pub(crate) entries: Vec<Eam>,
    pub(crate) intervals4: Intervals,
    pub(crate) intervals6: Intervals,
    pub(crate) sorted4: Vec<Prefix4>,
    pub(crate) sorted6: Vec<Prefix6>,
}

impl Model for Eamt {
    ghost use Rattle.std.specs.Prelude.{List};
    ghost use Rattle.siit_eamt.specs.declared.entry.Eam.{Eam};
    ghost use Rattle.siit_eamt.specs.Table.{IsTable};

    ghost Value = { List Eam };

    ghost view = { λ t. t.entries.items };

    ghost invariant = { λ t. IsTable t.entries.items t.intervals4 t.intervals6 t.sorted4.items t.sorted6.items };
}

/// How many entries a table may have.
const MOST_ENTRIES: usize = 65_536;

impl Eamt {
    /// The table of these entries (RFC 7757 section 3.1). Above 65,536 of them the fault is `TooMany`; else it is that
    /// of the first entry at fault, whose faults come in the order of [`EamFault`], or `NoMemory` before any of these.
    /// Prefixes may lie inside one another; that none may stand twice is this project's own rule.
    pub fn build(alloc: Global, entries: &[Eam]) -> Result<Eamt, EamFault>
        ensures accepted { IfOk result (λ table. table ≡ entries.now) }
        ensures faultless { OnOk result (table_fault entries.now ≡ None) }
        ensures refused { IfErr result (λ fault. (fault ≡ NoMemory) ⊎ (table_fault entries.now ≡ Some fault)) }
        ensures too_many { 65536 < length entries.now → result ≡ Err TooMany }
    {
        if entries.len() > MOST_ENTRIES {
            return Err(EamFault::TooMany);
        }
        let tries = Tries::build(alloc, entries)?;
        let intervals4 = intervals4(alloc, entries, &tries.trie4)?;
        let intervals6 = intervals6(alloc, entries, &tries.trie6)?;
        let sorted4 = sorted4(alloc, entries)?;
        let sorted6 = sorted6(alloc, entries)?;
        let entries = Vec::from_slice(alloc, entries)?;
        Ok(Eamt {
            entries,
            intervals4,
            intervals6,
            sorted4,
            sorted6,
        })
    }

    /// The entries, in the order in which they were given.
    pub fn entries(&self) -> &[Eam]
        ensures value { result.now ≡ self.now }
        ensures accepted { table_fault self.now ≡ None }
    {
        &self.entries
    }

    /// The entry of greatest IPv4 length among all that hold the address, and the IPv6 address (RFC 7757 section
    /// 3.3.1). `None` where no entry holds it. Each bucket, interval or entry that is read counts as one step.
    pub fn find4<L: Ledger>(&self, a: Addr4, steps: &mut Steps<L>) -> Option<Hit6>
        ensures found { option_map (λ hit. (hit.entry, hit.address.0)) result ≡ entry_to_6 self.now a.0 }
        ensures cost { steps.new ≤ steps.old + 34 }
        ensures counted { steps.old ≤ steps.new }
    {
        let Some(entry) = self.intervals4.find(u128::from(a.0), steps) else {
            return None;
        };
        let eam = self.read(entry, steps);
        Some(Hit6 {
            entry,
            address: eam.up(a),
        })
    }

    /// The entry of greatest IPv6 length among all that hold the address, and the IPv4 address (RFC 7757 section
    /// 3.3.2). `None` where no entry holds it. Each bucket, interval or entry that is read counts as one step.
    pub fn find6<L: Ledger>(&self, x: Addr6, steps: &mut Steps<L>) -> Option<Hit4>
        ensures found { option_map (λ hit. (hit.entry, hit.address.0)) result ≡ entry_to_4 self.now x.0 }
        ensures cost { steps.new ≤ steps.old + 130 }
        ensures counted { steps.old ≤ steps.new }
    {
        let Some(entry) = self.intervals6.find(x.0, steps) else {
            return None;
        };
        let eam = self.read(entry, steps);
        Some(Hit4 {
            entry,
            address: eam.down(x),
        })
    }

    /// Whether no two IPv4 prefixes overlap, no two IPv6 prefixes overlap, and no IPv6 prefix overlaps `prefix`.
    pub fn is_disjoint(&self, prefix: Prefix6) -> bool
        ensures { result ≡ is_disjoint self.now prefix }
    {
        are_apart4(&self.sorted4)
            && are_apart6(&self.sorted6)
            && are_clear_of(&self.entries, prefix)
    }

    /// The entry at a place. It is the only way in which a look-up reads an entry, and one step.
    fn read<L: Ledger>(&self, place: u32, steps: &mut Steps<L>) -> Eam
        requires { place < length self.now }
        ensures entry { slice_get self.now place ≡ Some result }
        ensures step { steps.new ≡ steps.old + 1 }
    {
        steps.tick();
        self.entries[place as usize]
    }
}
