//! The tries of a table's prefixes, built entry by entry up to the first one at fault.
ghost use Rattle.std.specs.Prelude.{◌≡◌, ◌++◌, ◌≤◌, ◌<◌, ◌+◌, ◌*◌, ◌⊎◌, true, [], ◌∷◌, None, Some, IfErr, IfOk, OnOk, length, position};
ghost use Rattle.siit_eamt.specs.Entries.{is_clean};
ghost use Rattle.siit_eamt.specs.Faults.{entry_fault, first_fault, has_prefix4, has_prefix6};
ghost use Rattle.siit_eamt.specs.Standing.{AreClean, AreTriesOf, IsTrieOf, has_bits4, has_bits6};
ghost use Rattle.siit_eamt.specs.declared.entry.EamFault.TheVariants.{NoMemory};

use crate::entry::{Eam, EamFault};
use crate::trie::{Bits, Trie};
use siit_addr::{Prefix4, Prefix6};
use std::alloc::{AllocError, Global};

/// The prefixes of the entries, each with the place of its entry.
#[derive(Drop)]
pub(crate) struct Tries {
    pub(crate) trie4: Trie,
    pub(crate) trie6: Trie,
}

impl Tries {
    /// The tries of these entries, or the fault of the first one at fault.
    pub(crate) fn build(alloc: Global, entries: &[Eam]) -> Result<Tries, EamFault>
        requires few { length entries.now ≤ 65536 }
        ensures built { IfOk result (λ tries. AreTriesOf entries.now tries.trie4.nodes.items tries.trie6.nodes.items) }
        ensures faultless { OnOk result (first_fault [] entries.now ≡ None) }
        ensures refused { IfErr result (λ fault. (fault ≡ NoMemory) ⊎ (first_fault [] entries.now ≡ Some fault)) }
    {
        let mut tries = Tries {
            trie4: Trie::new(alloc)?,
            trie6: Trie::new(alloc)?,
        };
        for (place, entry) in entries.iter().enumerate() {
            tries.add(&entries[..place], entry)?;
        }
        Ok(tries)
    }

    /// Adds an entry behind these, or gives its fault.
    fn add(&mut self, before: &[Eam], entry: &Eam) -> Result<(), EamFault>
        requires few { length before.now < 65536 }
        requires tries { AreTriesOf before.now self.old.trie4.nodes.items self.old.trie6.nodes.items }
        ensures added { OnOk result
            (AreTriesOf (before.now ++ entry.now ∷ []) self.new.trie4.nodes.items self.new.trie6.nodes.items) }
        ensures faultless { OnOk result (entry_fault before.now entry.now ≡ None) }
        ensures refused { IfErr result (λ fault. (fault ≡ NoMemory) ⊎ (entry_fault before.now entry.now ≡ Some fault)) }
    {
        let place = before.len() as u32;
        if !entry.p4.is_clean() || !entry.p6.is_clean() {
            return Err(EamFault::HostBits(place));
        }
        if entry.p6.len > 96 + entry.p4.len {
            return Err(EamFault::SuffixTooLong(place));
        }
        if let Some(first) = insert4(&mut self.trie4, before, entry)? {
            return Err(EamFault::Twice4(place, first));
        }
        if let Some(first) = insert6(&mut self.trie6, before, entry)? {
            return Err(EamFault::Twice6(place, first));
        }
        Ok(())
    }
}

/// Puts the IPv4 prefix of an entry behind these, and gives the first place that has it already.
fn insert4(trie4: &mut Trie, before: &[Eam], entry: &Eam) -> Result<Option<u32>, AllocError>
    requires few { length before.now < 65536 }
    requires trie { IsTrieOf has_bits4 32 before.now trie4.old.nodes.items }
    requires clean_before { AreClean before.now }
    requires clean { is_clean entry.now ≡ true }
    ensures first { IfOk result (λ first. first ≡ position (has_prefix4 entry.now.p4) before.now) }
    ensures trie { OnOk result (IsTrieOf has_bits4 32 (before.now ++ entry.now ∷ []) trie4.new.nodes.items) }
{
    let Prefix4 { addr, len } = entry.p4;
    trie4.insert(Bits::of4(addr), len, before.len() as u32)
}

/// The same of the IPv6 prefix.
fn insert6(trie6: &mut Trie, before: &[Eam], entry: &Eam) -> Result<Option<u32>, AllocError>
    requires few { length before.now < 65536 }
    requires trie { IsTrieOf has_bits6 128 before.now trie6.old.nodes.items }
    requires clean_before { AreClean before.now }
    requires clean { is_clean entry.now ≡ true }
    ensures first { IfOk result (λ first. first ≡ position (has_prefix6 entry.now.p6) before.now) }
    ensures trie { OnOk result (IsTrieOf has_bits6 128 (before.now ++ entry.now ∷ []) trie6.new.nodes.items) }
{
    let Prefix6 { addr, len } = entry.p6;
    trie6.insert(Bits::of6(addr), len, before.len() as u32)
}
