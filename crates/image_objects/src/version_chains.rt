//! A row's whole version chain.
ghost use Rattle.std.specs.Prelude.{◌≡◌, ◌≤◌, length, Option, IfSome, IfNone, IfOk, IfErr};
ghost use Rattle.s4_types.specs.Pointer.{Place};
ghost use Rattle.s4_types.specs.declared.limits.TheConstants.{OBJECT_BLOCKS, CHAIN_ENTRY_BYTES};
ghost use Rattle.s4_types.specs.declared.refusals.Refusal.TheVariants.{NoMemory};
ghost use Rattle.block_log.specs.Log.{Stored};
ghost use Rattle.codec.specs.declared.versions.ImageVersion.TheVariants.{Second};
ghost use Rattle.image_objects.specs.declared.rows.ImageRow.{ImageRow as RowFields};
ghost use Rattle.image_objects.specs.VersionChain.{VersionChainStands};
ghost use Rattle.image_objects.specs.Versions.{ChainStandsBy, entries_used_by, first_used_by};
ghost use Rattle.image_objects.specs.Versions.{VersionChainStandsBy};
ghost use Rattle.image_objects.specs.Read.{IsRead, IsReadBy};

use crate::chains::{ChainRead, ImageChain, read_chain_by, with_head_bytes};
use crate::inodes::first_inode_by;
use crate::links::is_run;
use crate::order::is_orderly;
use crate::rows::ImageRow;
use crate::used_blocks::UsedBlocks;
use codec::{Entry, ImageVersion, Inode};
use s4_types::{Moment, Refusal};
use std::alloc::Global;
use undo_redo::redo_all;

/// A row's version chain as an image of a version has it.
#[derive(Drop)]
pub struct VersionsRead {
    /// The entries of its journal chain, the oldest first, and their bytes.
    pub chain: ChainRead,
    /// The inode before all entries.
    pub first: Inode,
    /// The inode after all entries.
    pub present: Inode,
}

/// A row's version chain as an image has it.
pub struct VersionChain {
    /// Its journal chain.
    pub chain: ImageChain,
    /// The inode before all entries.
    pub first: Inode,
    /// The inode after all entries.
    pub present: Inode,
}

// Written by hand, so that an owner lets it go by one call.
impl Drop for VersionChain {
    fn drop(self) {
        let VersionChain {
            chain: _,
            first: _,
            present: _,
        } = self;
    }
}

/// The inode before all entries of a chain that stands. None where the row's version chain isn't
/// there.
fn leading_inode<U: UsedBlocks>(
    version: ImageVersion,
    used: &U,
    row: &ImageRow,
    clock: Moment,
    entries: &[Entry],
) -> Option<Inode>
    requires chain { ChainStandsBy version (U.used used.now) row.now clock }
    requires entries { entries.now ≡ entries_used_by version (U.used used.now) row.now }
    ensures stands { IfSome result
        (λ first. VersionChainStandsBy version (U.used used.now) row.now clock) }
    ensures first { IfSome result
        (λ first. first ≡ first_used_by version (U.used used.now) row.now) }
    ensures count { IfSome result (λ first. length first.pointers ≡ OBJECT_BLOCKS) }
    ensures only { IfNone result
        (VersionChainStandsBy version (U.used used.now) row.now clock → ⊥) }
{
    let Some(first) = first_inode_by(version, used, row, clock, entries) else {
        return None;
    };
    if !is_run(&first, entries) {
        return None;
    }
    if !is_orderly(&first, entries, row.created, clock) {
        return None;
    }
    Some(first)
}

/// A row's version chain in an image of a version whose clock is at a moment. None exactly where it
/// isn't there.
///
/// NoMemory alone, where the memory for the entries is refused. Linear in the chain's blocks.
pub fn read_version_chain_by<U: UsedBlocks>(
    alloc: Global,
    version: ImageVersion,
    used: &U,
    row: &ImageRow,
    clock: Moment,
) -> Result<Option<VersionsRead>, Refusal>
    ensures stands { IfOk result
        (λ found. IfSome found
        (λ versions. VersionChainStandsBy version (U.used used.now) row.now clock)) }
    ensures only { IfOk result
        (λ found. IfNone found
        (VersionChainStandsBy version (U.used used.now) row.now clock → ⊥)) }
    ensures read { IfOk result
        (λ found. IfSome found (IsReadBy version (U.used used.now) row.now)) }
    ensures refusal { IfErr result (λ e. e ≡ NoMemory) }
{
    let Some(chain) = read_chain_by(alloc, version, used, row, clock)? else {
        return Ok(None);
    };
    let entries = chain.entries.as_slice();
    let Some(first) = leading_inode(version, used, row, clock, entries) else {
        return Ok(None);
    };
    let mut present = first;
    redo_all(entries, &mut present);
    Ok(Some(VersionsRead {
        chain,
        first,
        present,
    }))
}

/// A version chain of the present version, with the bytes of the entries in its newest block.
pub(crate) fn with_chain_bytes(versions: VersionsRead) -> VersionChain
    requires { versions.chain.bytes ≤ CHAIN_ENTRY_BYTES }
    ensures { (used : Place → Option Stored) (row : RowFields)
        → IsReadBy Second used row versions → IsRead used row result }
{
    let chain = with_head_bytes(versions.chain);
    VersionChain {
        chain,
        first: versions.first,
        present: versions.present,
    }
}

/// A row's version chain in an image whose clock is at a moment. None exactly where it isn't there.
///
/// NoMemory alone, where the memory for the entries is refused. Linear in the chain's blocks.
pub fn read_version_chain<U: UsedBlocks>(
    alloc: Global,
    used: &U,
    row: &ImageRow,
    clock: Moment,
) -> Result<Option<VersionChain>, Refusal>
    ensures stands { IfOk result
        (λ found. IfSome found (λ versions. VersionChainStands (U.used used.now) row.now clock)) }
    ensures only { IfOk result
        (λ found. IfNone found (VersionChainStands (U.used used.now) row.now clock → ⊥)) }
    ensures read { IfOk result (λ found. IfSome found (IsRead (U.used used.now) row.now)) }
    ensures refusal { IfErr result (λ e. e ≡ NoMemory) }
{
    let Some(versions) = read_version_chain_by(alloc, ImageVersion::Second, used, row, clock)?
    else {
        return Ok(None);
    };
    let versions = with_chain_bytes(versions);
    Ok(Some(versions))
}
