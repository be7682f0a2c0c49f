//! A row's whole chain.
ghost use Rattle.std.specs.Prelude.{◌≡◌, ◌≤◌, IfSome, IfNone, IfOk, IfErr, map, nat_le};
ghost use Rattle.s4_types.specs.declared.refusals.Refusal.TheVariants.{NoMemory};
ghost use Rattle.s4_types.specs.declared.limits.TheConstants.{CHAIN_ENTRY_BYTES};
ghost use Rattle.s4_types.specs.declared.limits.TheConstants.{JOURNAL_ENTRY_BYTES};
ghost use Rattle.codec.specs.Fields.{kept};
ghost use Rattle.codec.specs.Entry.{entry_length, entries_length, entries_length_by};
ghost use Rattle.codec.specs.Versions.{chain_entry_bytes_by};
ghost use Rattle.journal_chain.specs.Packing.{packed, filled_bytes};
ghost use Rattle.journal_chain.specs.Sizes.{filled_after};
ghost use Rattle.image_objects.specs.Chains.{ChainStands, entries_used};
ghost use Rattle.image_objects.specs.Versions.{ChainStandsBy, entries_used_by};

use crate::groups::{are_grouped, lie_from_to};
use crate::rows::ImageRow;
use crate::used_blocks::UsedBlocks;
use crate::walk::entries_from;
use codec::{Entry, ImageVersion};
use journal_chain::packing::fits;
use journal_chain::packing::laws::{filled_bytes_after, one_packing_keeps_the_rule};
use s4_types::{Moment, Refusal};
use std::alloc::Global;

/// A row's journal chain as an image has it.
#[derive(Drop)]
pub struct ImageChain {
    /// All entries, the oldest first.
    pub entries: Vec<Entry>,
    /// Bytes of all entries.
    pub journal_bytes: u16,
    /// Bytes of the entries in the newest block.
    pub head_bytes: u16,
}

/// How many bytes entries have. None where they are more than those of a chain of the version may
/// have.
#[tactic(auto, using(codec::proofs::JournalEntries::by_none, codec::proofs::JournalEntries::by_next))]
fn bytes_of(version: ImageVersion, entries: &[Entry]) -> Option<usize>
    ensures { result
        ≡ kept (nat_le (entries_length_by version entries.now) (chain_entry_bytes_by version))
        (entries_length_by version entries.now) }
{
    let most = version.chain_entry_bytes();
    let mut bytes = 0;
    for entry in entries {
        bytes += entry.byte_count_by(version);
        if bytes > most {
            return None;
        }
    }
    Some(bytes)
}

/// The bytes of entries in the newest block of their chain.
fn head_bytes_of(entries: &[Entry]) -> usize
    ensures exact { result ≡ filled_after 0 (map entry_length entries.now) }
    ensures most { result ≤ JOURNAL_ENTRY_BYTES }
{
    let mut newest = 0;
    for entry in entries {
        let size = entry.byte_count();
        newest = if fits(newest, size) {
            newest + size
        } else {
            size
        };
    }
    newest
}

/// The entries of a row's chain, the oldest first, and their bytes.
#[derive(Drop)]
pub struct ChainRead {
    pub entries: Vec<Entry>,
    pub bytes: usize,
}

/// A chain of the present version, with the bytes of the entries in its newest block.
pub(crate) fn with_head_bytes(chain: ChainRead) -> ImageChain
    requires { chain.bytes ≤ CHAIN_ENTRY_BYTES }
    ensures entries { result.entries.items ≡ chain.entries.items }
    ensures bytes { result.journal_bytes ≡ chain.bytes }
    ensures head { result.head_bytes ≡ filled_bytes (packed chain.entries.items) }
{
    filled_bytes_after();
    let head_bytes = head_bytes_of(chain.entries.as_slice()) as u16;
    ImageChain {
        entries: chain.entries,
        journal_bytes: chain.bytes as u16,
        head_bytes,
    }
}

/// The entries of a row's journal chain in an image of a version whose clock is at a moment. None
/// exactly where the chain isn't there.
///
/// NoMemory alone, where the memory for the entries is refused. Linear in the chain's blocks.
pub fn read_chain_by<U: UsedBlocks>(
    alloc: Global,
    version: ImageVersion,
    used: &U,
    row: &ImageRow,
    clock: Moment,
) -> Result<Option<ChainRead>, Refusal>
    ensures stands { IfOk result
        (λ found. IfSome found
        (λ chain. ChainStandsBy version (U.used used.now) row.now clock)) }
    ensures only { IfOk result
        (λ found. IfNone found (ChainStandsBy version (U.used used.now) row.now clock → ⊥)) }
    ensures entries { IfOk result
        (λ found. IfSome found
        (λ chain. chain.entries.items ≡ entries_used_by version (U.used used.now) row.now)) }
    ensures bytes { IfOk result
        (λ found. IfSome found
        (λ chain. chain.bytes
        ≡ entries_length_by version (entries_used_by version (U.used used.now) row.now))) }
    ensures most { IfOk result
        (λ found. IfSome found (λ chain. chain.bytes ≤ CHAIN_ENTRY_BYTES)) }
    ensures refusal { IfErr result (λ e. e ≡ NoMemory) }
{
    let Some(entries) = entries_from(alloc, version, used, row.object, row.head)? else {
        return Ok(None);
    };
    let listed = entries.as_slice();
    let Some(bytes) = bytes_of(version, listed) else {
        return Ok(None);
    };
    if !lie_from_to(listed, row.created, clock) {
        return Ok(None);
    }
    if !are_grouped(version, listed) {
        return Ok(None);
    }
    Ok(Some(ChainRead { entries, bytes }))
}

/// A row's journal chain in an image whose clock is at a moment. None exactly where it isn't there.
///
/// NoMemory alone, where the memory for the entries is refused. Linear in the chain's blocks.
pub fn read_chain<U: UsedBlocks>(
    alloc: Global,
    used: &U,
    row: &ImageRow,
    clock: Moment,
) -> Result<Option<ImageChain>, Refusal>
    ensures stands { IfOk result
        (λ found. IfSome found (λ chain. ChainStands (U.used used.now) row.now clock)) }
    ensures only { IfOk result
        (λ found. IfNone found (ChainStands (U.used used.now) row.now clock → ⊥)) }
    ensures entries { IfOk result
        (λ found. IfSome found
        (λ chain. chain.entries.items ≡ entries_used (U.used used.now) row.now)) }
    ensures bytes { IfOk result
        (λ found. IfSome found
        (λ chain. chain.journal_bytes
        ≡ entries_length (entries_used (U.used used.now) row.now))) }
    ensures head { IfOk result
        (λ found. IfSome found
        (λ chain. chain.head_bytes
        ≡ filled_bytes (packed (entries_used (U.used used.now) row.now)))) }
    ensures refusal { IfErr result (λ e. e ≡ NoMemory) }
{
    let Some(chain) = read_chain_by(alloc, ImageVersion::Second, used, row, clock)? else {
        return Ok(None);
    };
    let chain = with_head_bytes(chain);
    Ok(Some(chain))
}
