//! Where the addresses that prefixes hold begin and end.
ghost use Rattle.std.specs.Prelude.{◌≡◌, ◌+◌, ◌^◌, ◌<◌, ◌≤◌, All, IfOk, OnOk, map};
ghost use Rattle.std.specs.Option.{SomeIff};
ghost use Rattle.siit_eamt.specs.Starts.{AreAdded, AreAscendingStarts, block4, block6};

use crate::entry::Eam;
use std::alloc::{AllocError, Global};

/// The 2^bits addresses from the first one on, as a prefix holds them.
#[derive(Clone, Copy)]
pub(crate) struct Block {
    first: u128,
    bits: u8,
}

/// What the IPv4 prefixes hold.
pub(crate) fn blocks4(alloc: Global, entries: &[Eam]) -> Result<Vec<Block>, AllocError>
    ensures blocks { IfOk result (λ blocks. blocks.items ≡ map block4 entries.now) }
    ensures within { IfOk result (λ blocks. All (λ block. block.first < 2 ^ 32) blocks.items) }
{
    let mut blocks = Vec::new(alloc);
    for entry in entries {
        blocks.push(Block::of4(*entry))?;
    }
    Ok(blocks)
}

/// What the IPv6 prefixes hold.
pub(crate) fn blocks6(alloc: Global, entries: &[Eam]) -> Result<Vec<Block>, AllocError>
    ensures blocks { IfOk result (λ blocks. blocks.items ≡ map block6 entries.now) }
    ensures within { IfOk result (λ blocks. All (λ block. block.first < 2 ^ 128) blocks.items) }
{
    let mut blocks = Vec::new(alloc);
    for entry in entries {
        blocks.push(Block::of6(*entry))?;
    }
    Ok(blocks)
}

/// The address 0, the first address of each block, and that behind it unless it is above the highest one, in ascending
/// order.
pub(crate) fn starts_of(
    alloc: Global,
    blocks: &[Block],
    highest: u128,
) -> Result<Vec<u128>, AllocError>
    requires { All (λ block. block.first ≤ highest) blocks.now }
    ensures starts { IfOk result (λ starts. AreAscendingStarts blocks.now highest starts.items) }
{
    let mut starts = Vec::new(alloc);
    starts.push(0)?;
    for block in blocks {
        add(&mut starts, *block, highest)?;
    }
    starts.sort()?;
    Ok(starts)
}

/// Adds where a block begins, and where it ends unless that is above the highest address.
fn add(starts: &mut Vec<u128>, block: Block, highest: u128) -> Result<(), AllocError>
    requires { block.first ≤ highest }
    ensures { OnOk result (AreAdded block highest starts.old.items starts.new.items) }
{
    starts.push(block.first)?;
    let Some(behind) = block.behind() else {
        return Ok(());
    };
    if behind > highest {
        return Ok(());
    }
    starts.push(behind)?;
    Ok(())
}

impl Block {
    fn of4(entry: Eam) -> Block
        ensures block { result ≡ block4 entry }
        ensures within { result.first < 2 ^ 32 }
    {
        Block {
            first: u128::from(entry.p4.addr.0),
            bits: 32 - entry.p4.len,
        }
    }

    fn of6(entry: Eam) -> Block
        ensures block { result ≡ block6 entry }
        ensures within { result.first < 2 ^ 128 }
    {
        Block {
            first: entry.p6.addr.0,
            bits: 128 - entry.p6.len,
        }
    }

    /// The first address behind the block, if it is below 2^128.
    fn behind(self) -> Option<u128>
        ensures { SomeIff result (self.first + 2 ^ self.bits < 2 ^ 128) (self.first + 2 ^ self.bits) }
    {
        let size = 1u128.checked_shl(u32::from(self.bits))?;
        self.first.checked_add(size)
    }
}
