//! Entries taken into the newest block, which is in memory, and blocks appended as they fill.
ghost use Rattle.std.specs.Prelude.{◌≡◌, ℕ, ◌+◌, ◌≤◌, ◌<◌, ◌++◌, List, [], ◌∷◌, length, map};
ghost use Rattle.std.specs.Prelude.{Option, Some, None};
ghost use Rattle.std.specs.Option.{option_to_list};
ghost use Rattle.s4_types.specs.Pointer.{Place};
ghost use Rattle.s4_types.specs.declared.limits.TheConstants.{CHAIN_ENTRIES};
ghost use Rattle.block_log.specs.Taken.{TakesPlaces};
ghost use Rattle.codec.specs.Entry.{EntryFields, entry_length, entries_length};
ghost use Rattle.journal_chain.specs.Sizes.{filled_with, filled_after, breaks};
ghost use Rattle.journal_chain.specs.Packing.{AllFit};
ghost use Rattle.journal_chain.specs.Chain.{OnlyJournalChanged};
ghost use Rattle.journal_chain.specs.Writing.{Finished, InOrder, Unfinished};

use crate::table::write;
use arrayvec::ArrayVec;
use block_log::Blocks;
use codec::{Entry, JournalBytes};
use s4_types::{ObjectId, Ptr};
use undo_redo::OtherEntries;

/// The bytes of each of a few entries.
pub(crate) fn sizes_of<const N: usize>(entries: &[Entry]) -> ArrayVec<usize, N>
    requires { length entries.now ≤ N }
    ensures { result.items ≡ map entry_length entries.now }
{
    let mut sizes = ArrayVec::new();
    for entry in entries {
        sizes.push(entry.byte_count());
    }
    sizes
}

/// The bytes of all of the entries together.
pub(crate) fn bytes_of(entries: &[Entry]) -> usize
    requires { length entries.now ≤ CHAIN_ENTRIES }
    ensures exact { result ≡ entries_length entries.now }
    ensures fit { AllFit entries.now }
{
    let mut bytes = 0;
    for entry in entries {
        bytes += entry.byte_count();
    }
    bytes
}

/// The oldest block of a chain, with its first entry.
pub(crate) fn first_block(object: ObjectId, first: &Entry) -> JournalBytes
    requires { 1 ≤ object }
    ensures value { result ≡ record { object = object; previous = None; entries = first.now ∷ [] } }
    ensures filled { entries_length result.entries ≡ filled_with 0 (entry_length first.now) }
{
    JournalBytes::new(object, None, first).unwrap()
}

/// Takes one entry more into the block, if it fits after the others there; else the block is
/// appended, and the entry is the first of the next.
pub(crate) fn take<B: Blocks>(table: &mut B, block: &mut JournalBytes, entry: &Entry)
    requires object { 1 ≤ block.old.object }
    requires room { breaks (entries_length block.old.entries) (entry_length entry.now ∷ [])
        ≤ length (B.log table.old).ahead }
    ensures unfinished { (stale : List Place) (entries : List EntryFields)
        → Unfinished (B.log table.old).held block.old.object stale block.old entries
        → Unfinished (B.log table.new).held block.old.object stale block.new
        (entries ++ entry.now ∷ []) }
    ensures order { (all : List Place)
        → InOrder block.old.object (B.log table.old) block.old.previous all
        → InOrder block.old.object (B.log table.new) block.new.previous all }
    ensures others { OnlyJournalChanged block.old.object (B.log table.old).held
        (B.log table.new).held }
    ensures takes { TakesPlaces
        (breaks (entries_length block.old.entries) (entry_length entry.now ∷ [])) (B.log table.old)
        (B.log table.new) }
    ensures named { (B.log table.new).named ≡ (B.log table.old).named }
    ensures object { block.new.object ≡ block.old.object }
    ensures filled { entries_length block.new.entries
        ≡ filled_with (entries_length block.old.entries) (entry_length entry.now) }
{
    if block.fits(entry) {
        block.add(entry);
        return;
    }
    let place = write(table, block);
    *block = JournalBytes::new(block.object(), Some(place), entry).unwrap();
}

/// Takes entries into the block, one after another, and appends each block that is full.
pub(crate) fn take_all<B: Blocks>(table: &mut B, block: &mut JournalBytes, entries: &[Entry])
    requires object { 1 ≤ block.old.object }
    requires room { breaks (entries_length block.old.entries) (map entry_length entries.now)
        ≤ length (B.log table.old).ahead }
    ensures unfinished { (stale : List Place) (before : List EntryFields)
        → Unfinished (B.log table.old).held block.old.object stale block.old before
        → Unfinished (B.log table.new).held block.old.object stale block.new
        (before ++ entries.now) }
    ensures order { (all : List Place)
        → InOrder block.old.object (B.log table.old) block.old.previous all
        → InOrder block.old.object (B.log table.new) block.new.previous all }
    ensures others { OnlyJournalChanged block.old.object (B.log table.old).held
        (B.log table.new).held }
    ensures takes { TakesPlaces
        (breaks (entries_length block.old.entries) (map entry_length entries.now)) (B.log table.old)
        (B.log table.new) }
    ensures named { (B.log table.new).named ≡ (B.log table.old).named }
    ensures object { block.new.object ≡ block.old.object }
{
    for entry in entries {
        take(table, block, entry);
    }
}

/// Takes the other entries of a change into the block, one after another as they are made, and
/// appends each block that is full.
pub(crate) fn take_others<B: Blocks>(
    table: &mut B,
    block: &mut JournalBytes,
    others: OtherEntries<'_>,
)
    requires object { 1 ≤ block.old.object }
    requires room { breaks (entries_length block.old.entries) (map entry_length others)
        ≤ length (B.log table.old).ahead }
    ensures unfinished { (stale : List Place) (before : List EntryFields)
        → Unfinished (B.log table.old).held block.old.object stale block.old before
        → Unfinished (B.log table.new).held block.old.object stale block.new
        (before ++ others.entry) }
    ensures others { OnlyJournalChanged block.old.object (B.log table.old).held
        (B.log table.new).held }
    ensures takes { TakesPlaces
        (breaks (entries_length block.old.entries) (map entry_length others.entry))
        (B.log table.old) (B.log table.new) }
    ensures named { (B.log table.new).named ≡ (B.log table.old).named }
    ensures object { block.new.object ≡ block.old.object }
{
    for entry in others {
        take(table, block, &entry);
    }
}

/// Appends the last block, and drops the one that it represents, if any.
pub(crate) fn finish<B: Blocks>(table: &mut B, block: &JournalBytes, stale: Option<Ptr>) -> Ptr
    requires object { 1 ≤ block.now.object }
    requires room { 0 < length (B.log table.old).ahead }
    ensures finished { (entries : List EntryFields)
        → Unfinished (B.log table.old).held block.now.object (option_to_list stale) block.now
        entries
        → Finished (B.log table.new).held block.now.object [] (Some result) entries }
    ensures others { (entries : List EntryFields)
        → Unfinished (B.log table.old).held block.now.object (option_to_list stale) block.now
        entries
        → OnlyJournalChanged block.now.object (B.log table.old).held (B.log table.new).held }
    ensures named { (entries : List EntryFields)
        → Unfinished (B.log table.old).held block.now.object (option_to_list stale) block.now
        entries
        → (B.log table.new).named ≡ (B.log table.old).named }
    ensures takes { TakesPlaces 1 (B.log table.old) (B.log table.new) }
{
    let head = write(table, block);
    if let Some(old) = stale {
        table.drop_block(old);
    }
    head
}
