ghost use Rattle.std.specs.Prelude.{◌≡◌, ℕ, ◌==◌, true, List, length, Option, Some, IfSome};
ghost use Rattle.codec.specs.Fields.{Reads, all_of};
ghost use Rattle.codec.specs.Journal.{JournalFields, entries_at_by, told_journal_by, behind_object};
ghost use Rattle.codec.specs.Journal.{journal_at, journal_at_by, journal_rules_by};
ghost use Rattle.codec.specs.Journal.{object_journal_by};
ghost use Rattle.codec.specs.Journal.{SpellsJournal, SpellsJournalBy};

use crate::entry_reader::EntryReader;
use crate::entry_reading::read_entry;
use crate::fields::{read_byte, read_long, read_mark, read_short, read_slot, read_zeros};
use crate::journals::{Entries, JournalBlock, byte_sum_by};
use crate::versions::ImageVersion;
use s4_types::limits::{BLOCK_BYTES, JOURNAL_ENTRIES, JOURNAL_ENTRY_BYTES};
use s4_types::{ObjectId, Ptr};
use std::marker::Model;

/// What is read of a journal block of an image of some version. That of the first version needn't
/// fit a block of the second.
#[derive(Drop)]
struct BlockRead {
    object: ObjectId,
    previous: Option<Ptr>,
    entries: Entries,
}

impl Model for BlockRead {
    ghost use Rattle.codec.specs.Journal.{JournalFields};

    ghost Value = { JournalFields };

    ghost view = { λ b. record { object = b.object; previous = b.previous; entries = b.entries.items } };
}

#[tactic(auto, unfolding(crate::specs::Journal::entries_at_by))]
fn read_entries(version: ImageVersion, count: u8, bytes: &[u8]) -> Option<(Entries, &[u8])>
    ensures { Reads (λ x. (x.0.items, x.1.now)) result (entries_at_by version count bytes.now) }
{
    if count as usize > JOURNAL_ENTRIES {
        return None;
    }
    let mut entries = Entries::new();
    let mut rest = bytes;
    for _ in 0..count {
        let Some((entry, after)) = read_entry(version, rest) else {
            return None;
        };
        entries.push(entry);
        rest = after;
    }
    Some((entries, rest))
}

/// The journal block of entries that were told to have this many bytes together.
#[tactic(auto, unfolding(crate::specs::Journal::told_journal_by, crate::specs::Journal::journal_rules_by))]
fn block_told(
    version: ImageVersion,
    told: u16,
    object: ObjectId,
    previous: Option<Ptr>,
    entries: Entries,
) -> Option<BlockRead>
    ensures { Reads (λ j. j) result (told_journal_by version told (record { object = object; previous = previous; entries = entries.items })) }
{
    let bytes = byte_sum_by(version, entries.as_slice());
    if bytes != told as usize {
        return None;
    }
    if object.number() < 1 || entries.is_empty() || bytes > JOURNAL_ENTRY_BYTES {
        return None;
    }
    Some(BlockRead {
        object,
        previous,
        entries,
    })
}

/// What comes after the object of a journal block.
fn read_behind_object(
    version: ImageVersion,
    count: u8,
    told: u16,
    object: ObjectId,
    bytes: &[u8],
) -> Option<(BlockRead, &[u8])>
    ensures { Reads (λ x. (x.0, x.1.now)) result
        (behind_object version count told object bytes.now) }
{
    let Some((previous, rest)) = read_slot(bytes) else {
        return None;
    };
    let Some((entries, rest)) = read_entries(version, count, rest) else {
        return None;
    };
    let rest = read_zeros(JOURNAL_ENTRY_BYTES.saturating_sub(told as usize), rest)?;
    let journal = block_told(version, told, object, previous, entries)?;
    Some((journal, rest))
}

#[tactic(auto, unfolding(crate::specs::Journal::journal_at_by))]
fn read_journal(version: ImageVersion, bytes: &[u8]) -> Option<(BlockRead, &[u8])>
    ensures { Reads (λ x. (x.0, x.1.now)) result (journal_at_by version bytes.now) }
{
    let rest = read_mark(1, bytes)?;
    let (count, rest) = read_byte(rest)?;
    let (told, rest) = read_short(rest)?;
    let rest = read_zeros(4, rest)?;
    let (object, rest) = read_long(rest)?;
    read_behind_object(version, count, told, ObjectId::new(object), rest)
}

fn journal_in(version: ImageVersion, bytes: &[u8]) -> Option<BlockRead>
    ensures { Reads (λ x. x) result (all_of (journal_at_by version) bytes.now) }
{
    let Some((journal, rest)) = read_journal(version, bytes) else {
        return None;
    };
    match rest {
        [] => Some(journal),
        [_, ..] => None,
    }
}

/// The journal block that bytes encode.
#[tactic(auto, unfolding(crate::specs::Journal::journal_at))]
fn block_in(bytes: &[u8]) -> Option<JournalBlock>
    ensures { Reads (λ j. j) result (all_of journal_at bytes.now) }
{
    let Some(read) = journal_in(ImageVersion::Second, bytes) else {
        return None;
    };
    JournalBlock::new(read.object, read.previous, read.entries)
}

/// The journal block whose encoding the block is. None where it is the encoding of none.
pub fn decode_journal(block: &[u8; BLOCK_BYTES]) -> Option<JournalBlock>
    ensures found { IfSome result (λ journal. SpellsJournal block.now journal) }
    ensures only { (journal : JournalFields)
        → SpellsJournal block.now journal → result ≡ Some journal }
    ensures exact { Reads (λ j. j) result (all_of journal_at block.now) }
{
    block_in(block)
}

fn reader_in(version: ImageVersion, block: &[u8; BLOCK_BYTES]) -> Option<EntryReader>
    ensures { Reads (λ j. j) result (all_of (journal_at_by version) block.now) }
{
    let Some(_read) = journal_in(version, block) else {
        return None;
    };
    Some(EntryReader::by(version, *block))
}

/// A reader of the journal block whose encoding in an image of a version the block is. None where
/// it is the encoding of none there.
pub fn decode_journal_by(version: ImageVersion, block: &[u8; BLOCK_BYTES]) -> Option<EntryReader>
    ensures found { IfSome result (λ journal. SpellsJournalBy version block.now journal) }
    ensures only { (journal : JournalFields)
        → SpellsJournalBy version block.now journal → result ≡ Some journal }
    ensures exact { Reads (λ j. j) result (all_of (journal_at_by version) block.now) }
{
    reader_in(version, block)
}

fn is_of(read: &BlockRead, object: ObjectId) -> bool
    ensures { result ≡ (read.now.object == object) }
{
    read.object.number() == object.number()
}

fn reader_of(
    version: ImageVersion,
    object: ObjectId,
    block: &[u8; BLOCK_BYTES],
) -> Option<EntryReader>
    ensures { Reads (λ j. j) result
        (object_journal_by version object block.now) }
{
    let Some(read) = journal_in(version, block) else {
        return None;
    };
    if !is_of(&read, object) {
        return None;
    }
    Some(EntryReader::by(version, *block))
}

/// The same of an object's journal block. None where the block is the encoding of another's too.
pub fn decode_journal_of(
    version: ImageVersion,
    object: ObjectId,
    block: &[u8; BLOCK_BYTES],
) -> Option<EntryReader>
    ensures exact { Reads (λ j. j) result
        (object_journal_by version object block.now) }
    ensures rules { IfSome result (λ j. journal_rules_by version j ≡ true) }
{
    reader_of(version, object, block)
}
