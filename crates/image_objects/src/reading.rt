//! One journal block of a chain.
ghost use Rattle.std.specs.Prelude.{◌≡◌, ◌+◌, ◌≤◌, ◌++◌, true, reverse, IfSome, IfOk, IfErr};
ghost use Rattle.s4_types.specs.declared.refusals.Refusal.TheVariants.{NoMemory};
ghost use Rattle.s4_types.specs.declared.limits.TheConstants.{JOURNAL_ENTRY_BYTES};
ghost use Rattle.codec.specs.Entry.{entries_length_by};
ghost use Rattle.codec.specs.Journal.{journal_rules, journal_rules_by};
ghost use Rattle.journal_chain.specs.Chain.{journal_held};
ghost use Rattle.image_objects.specs.Versions.{journal_of_by, journal_used_by, first_length_by};

use crate::used_blocks::{UsedBlocks, bytes_at};
use block_log::{Block, BlockKind};
use codec::{Entry, EntryReader, ImageVersion, decode_journal_of};
use s4_types::{ObjectId, Ptr, Refusal};

/// The journal block of an object that the bytes encode in an image of a version. None where they
/// encode none.
#[tactic(auto, unfolding(crate::specs::Versions::journal_of_by))]
fn journal_of(version: ImageVersion, object: ObjectId, bytes: Block) -> Option<EntryReader>
    ensures exact { result ≡ journal_of_by version object bytes }
    ensures rules { IfSome result (λ block. journal_rules_by version block ≡ true) }
{
    decode_journal_of(version, object, &bytes)
}

/// The object's journal block at a place. None where the image has no such used block there, or
/// where it encodes none.
#[tactic(auto, unfolding(crate::specs::Versions::journal_of_by, journal_chain::specs::Chain::journal_of, codec::specs::Journal::journal_at, codec::specs::Journal::journal_rules, codec::specs::Journal::journal_rules_by))]
pub fn read_journal<U: UsedBlocks>(used: &U, object: ObjectId, place: Ptr) -> Option<EntryReader>
    ensures exact { result ≡ journal_held (U.used used.now) object place }
    ensures rules { IfSome result (λ block. journal_rules block ≡ true) }
{
    read_journal_by(ImageVersion::Second, used, object, place)
}

/// The same in an image of a version.
pub fn read_journal_by<U: UsedBlocks>(
    version: ImageVersion,
    used: &U,
    object: ObjectId,
    place: Ptr,
) -> Option<EntryReader>
    ensures exact { result ≡ journal_used_by version (U.used used.now) object place }
    ensures rules { IfSome result (λ block. journal_rules_by version block ≡ true) }
{
    let bytes = bytes_at(used, BlockKind::Journal, object, place)?;
    journal_of(version, object, bytes)
}

/// How many bytes the entries of a block have, and the first of them.
#[derive(Clone, Copy)]
pub(crate) struct BlockBytes {
    pub(crate) all: usize,
    pub(crate) first: usize,
}

/// Puts the entries of a block after others, the newest first.
pub(crate) fn take_entries(
    version: ImageVersion,
    block: EntryReader,
    entries: &mut Vec<Entry>,
) -> Result<BlockBytes, Refusal>
    requires { entries_length_by version block.entries ≤ JOURNAL_ENTRY_BYTES }
    ensures entries { IfOk result
        (λ _. reverse entries.new.items ≡ block.entries ++ reverse entries.old.items) }
    ensures all { IfOk result (λ bytes. bytes.all ≡ entries_length_by version block.entries) }
    ensures first { IfOk result (λ bytes. bytes.first ≡ first_length_by version block.entries) }
    ensures refusal { IfErr result (λ e. e ≡ NoMemory) }
{
    let mut rest = block;
    let mut all = 0;
    let mut first = 0;
    while let Some(entry) = rest.pop() {
        first = entry.byte_count_by(version);
        all += first;
        entries.push(entry)?;
    }
    Ok(BlockBytes { all, first })
}
