//! A chain walked back from its head.
ghost use Rattle.std.specs.Prelude.{◌≡◌, ◌+◌, ◌&&◌, ℕ, true, nat_lt, nat_le, if◌then◌else◌, Option};
ghost use Rattle.std.specs.Prelude.{Some, None, IfOk, IfErr, option_map};
ghost use Rattle.s4_types.specs.declared.limits.TheConstants.{JOURNAL_ENTRY_BYTES};
ghost use Rattle.s4_types.specs.declared.refusals.Refusal.TheVariants.{NoMemory};
ghost use Rattle.s4_types.specs.Pointer.{Place};
ghost use Rattle.codec.specs.Journal.{JournalFields, journal_rules_by};
ghost use Rattle.codec.specs.Versions.{chain_blocks_by};
ghost use Rattle.image_objects.specs.Versions.{journal_used_by};
ghost use Rattle.image_objects.specs.private.Walked.{walked, reached};

use crate::reading::{read_journal_by, take_entries};
use crate::used_blocks::UsedBlocks;
use codec::{Entry, EntryReader, ImageVersion};
use s4_types::limits::JOURNAL_ENTRY_BYTES;
use s4_types::{ObjectId, Ptr, Refusal};
use std::alloc::Global;

/// A chain whose newest blocks were read.
#[derive(Drop)]
struct Walk {
    // The block before those that were read.
    previous: Option<Ptr>,
    // Of the first entry of the block that was read last. Before any was, more than a block holds.
    first_bytes: usize,
    // Of all blocks that were read, the newest first.
    entries: Vec<Entry>,
}

impl Walk {
    /// Goes on by one block. False where its entries leave room for the first one of the block
    /// after it.
    fn take(&mut self, version: ImageVersion, block: EntryReader) -> Result<bool, Refusal>
        requires { journal_rules_by version block ≡ true }
        ensures goes { IfOk result (λ good. (left : ℕ) (blocks : Place → Option JournalFields) (p : Place)
            → self.old.previous ≡ Some p → blocks p ≡ Some block
            → reached version (left + 1) blocks self.old.first_bytes self.old.previous
            self.old.entries.items
            ≡ (if good then reached version left blocks self.new.first_bytes self.new.previous self.new.entries.items else None)) }
        ensures refusal { IfErr result (λ e. e ≡ NoMemory) }
    {
        let previous = block.previous();
        let bytes = take_entries(version, block, &mut self.entries)?;
        let room = JOURNAL_ENTRY_BYTES - bytes.all;
        let stands = self.first_bytes > room;
        self.previous = previous;
        self.first_bytes = bytes.first;
        Ok(stands)
    }
}

/// The entries of the journal blocks of an object from a head on, the oldest first. None where they
/// are no chain of at most as many blocks as the version's may have, and where the first entry of a
/// block fits after those of the block before.
///
/// NoMemory alone, where the memory for the entries is refused.
pub(crate) fn entries_from<U: UsedBlocks>(
    alloc: Global,
    version: ImageVersion,
    used: &U,
    object: ObjectId,
    head: Option<Ptr>,
) -> Result<Option<Vec<Entry>>, Refusal>
    ensures exact { IfOk result (λ found. option_map (λ v. v.items) found
        ≡ walked version (chain_blocks_by version) (journal_used_by version (U.used used.now) object)
        (JOURNAL_ENTRY_BYTES + 1) head) }
    ensures refusal { IfErr result (λ e. e ≡ NoMemory) }
{
    let mut walk = Walk {
        previous: head,
        first_bytes: JOURNAL_ENTRY_BYTES + 1,
        entries: Vec::new(alloc),
    };
    let mut left = version.chain_blocks();
    while let Some(place) = walk.previous {
        if left == 0 {
            return Ok(None);
        }
        let Some(block) = read_journal_by(version, used, object, place) else {
            return Ok(None);
        };
        if !walk.take(version, block)? {
            return Ok(None);
        }
        left -= 1;
    }
    let mut entries = walk.entries;
    entries.reverse();
    Ok(Some(entries))
}
