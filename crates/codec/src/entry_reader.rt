ghost use Rattle.std.specs.Prelude.{◌≡◌, ℕ, ◌≤◌, ◌++◌, ◌==◌, List, [], ◌∷◌, length, drop, Some};
ghost use Rattle.std.specs.Prelude.{None, IsSome, IfNone, Option};
ghost use Rattle.std.specs.List.{AllByRecursion};
ghost use Rattle.std.specs.Option.{option_to_list};
ghost use Rattle.s4_types.specs.Pointer.{Place};
ghost use Rattle.codec.specs.Fields.{all_of, slot_at};
ghost use Rattle.codec.specs.Entry.{EntryFields, BeginsWithEntryBy, entry_at_by, entry_length_by};
ghost use Rattle.codec.specs.Journal.{JournalFields, journal_at, journal_at_by};
ghost use Rattle.codec.specs.Reader.{BeginsAt, entry_in, entries_begun_at};

use crate::entries::Entry;
use crate::entry_reading::read_entry;
use crate::fields::read_slot;
use crate::versions::ImageVersion;
use arrayvec::ArrayVec;
use s4_types::Ptr;
use s4_types::limits::{BLOCK_BYTES, JOURNAL_ENTRIES, JOURNAL_HEAD_BYTES, SHORTEST_ENTRY_BYTES};
use std::marker::Model;

// Where entries begin in a block, in the order of their bytes.
type Starts = ArrayVec<u16, JOURNAL_ENTRIES>;

/// How many bytes the entry has that the bytes begin with: its flags, its count of pointers and the
/// lengths of its attributes tell it.
fn front_bytes(version: ImageVersion, bytes: &[u8]) -> usize
    requires { IsSome (entry_at_by version bytes.now) }
    ensures { (entry : EntryFields) (rest : List ℕ)
        → BeginsWithEntryBy version bytes.now entry rest
        → result ≡ entry_length_by version entry }
{
    let fixed = SHORTEST_ENTRY_BYTES + version.bytes_of_triples(bytes[9]);
    if bytes[8] < 4 {
        return fixed;
    }
    let before = bytes[SHORTEST_ENTRY_BYTES] as usize;
    let after = bytes[SHORTEST_ENTRY_BYTES + 1 + before] as usize;
    fixed + (1 + before) + (1 + after)
}

/// What is in a block from a byte on.
fn bytes_from(block: &[u8], at: usize) -> &[u8]
    requires { at ≤ length block.now }
    ensures { result.now ≡ drop at block.now }
{
    let (_, rest) = block.split_at(at);
    rest
}

/// Where the entries of a journal block begin.
fn starts_of(version: ImageVersion, block: &[u8]) -> Starts
    requires { IsSome (all_of (journal_at_by version) block.now) }
    ensures entries { (j : JournalFields)
        → all_of (journal_at_by version) block.now ≡ Some j
        → entries_begun_at version block.now result.items ≡ j.entries }
    ensures there { AllByRecursion (BeginsAt version block.now) result.items }
    ensures some { 1 ≤ length result.items }
{
    let mut starts = Starts::new();
    let mut at = JOURNAL_HEAD_BYTES;
    let count = block[1];
    for _ in 0..count {
        starts.push(at as u16);
        let rest = bytes_from(block, at);
        at += front_bytes(version, rest);
    }
    starts
}

/// A law: a journal block that can be read says where the one before it stands.
fn says_previous(version: ImageVersion, block: &[u8])
    requires { IsSome (all_of (journal_at_by version) block.now) }
    ensures long { 16 ≤ length block.now }
    ensures there { IsSome (slot_at (drop 16 block.now)) }
    ensures previous { (j : JournalFields) → all_of (journal_at_by version) block.now ≡ Some j
        → (rest : List ℕ) × (slot_at (drop 16 block.now) ≡ Some (j.previous, rest)) }
{}

/// Where the block before a journal block stands, if there is one.
pub(crate) fn previous_of(block: &[u8]) -> Option<Ptr>
    requires long { 16 ≤ length block.now }
    requires there { IsSome (slot_at (drop 16 block.now)) }
    ensures { (previous : Option Place) (rest : List ℕ)
        → slot_at (drop 16 block.now) ≡ Some (previous, rest) → result ≡ previous }
{
    let rest = bytes_from(block, 16);
    let Some((previous, _)) = read_slot(rest) else {
        unreachable!()
    };
    previous
}

/// The entry that begins at a byte of a block.
fn entry_from(version: ImageVersion, block: &[u8], start: u16) -> Entry
    requires { BeginsAt version block.now start }
    ensures { entry_in version block.now start ≡ result ∷ [] }
{
    let rest = bytes_from(block, start as usize);
    let Some((entry, _)) = read_entry(version, rest) else {
        unreachable!()
    };
    entry
}

/// A journal block whose entries are given from the last to the first. Contracts see the block
/// without those that were given.
///
/// It keeps the block's bytes, and decodes an entry when it is asked for.
#[derive(Drop)]
pub struct EntryReader {
    // That of the image that the block is of.
    version: ImageVersion,
    previous: Option<Ptr>,
    block: [u8; BLOCK_BYTES],
    // Of the entries that were not given.
    starts: Starts,
}

impl Model for EntryReader {
    ghost use Rattle.std.specs.List.{AllByRecursion};
    ghost use Rattle.codec.specs.Journal.{JournalFields};
    ghost use Rattle.codec.specs.Reader.{BeginsAt, entries_begun_at, object_decoded};

    ghost Value = { JournalFields };

    ghost view = { λ r. record { object = object_decoded r.version r.block; previous = r.previous; entries = entries_begun_at r.version r.block r.starts.items } };

    ghost invariant = { λ r. AllByRecursion (BeginsAt r.version r.block) r.starts.items };
}

impl EntryReader {
    /// A reader that has nothing to give.
    pub fn empty() -> Self
        ensures { result ≡ record { object = 0; previous = None; entries = [] } }
    {
        EntryReader {
            version: ImageVersion::Second,
            previous: None,
            block: [0; BLOCK_BYTES],
            starts: Starts::new(),
        }
    }

    /// A reader of all entries of a block that encodes a journal block: 1 to `JOURNAL_ENTRIES`.
    #[tactic(auto, unfolding(crate::specs::Journal::journal_at))]
    pub fn new(block: [u8; BLOCK_BYTES]) -> Self
        requires { IsSome (all_of journal_at block) }
        ensures reads { all_of journal_at block ≡ Some result }
        ensures some { 1 ≤ length result.entries }
    {
        EntryReader::by(ImageVersion::Second, block)
    }

    /// The same of a block of an image of a version.
    pub fn by(version: ImageVersion, block: [u8; BLOCK_BYTES]) -> Self
        requires { IsSome (all_of (journal_at_by version) block) }
        ensures reads { all_of (journal_at_by version) block ≡ Some result }
        ensures some { 1 ≤ length result.entries }
    {
        says_previous(version, &block);
        let previous = previous_of(&block);
        let starts = starts_of(version, &block);
        EntryReader {
            version,
            previous,
            block,
            starts,
        }
    }

    /// Where the object's previous journal block stands, if it has one.
    pub fn previous(&self) -> Option<Ptr>
        ensures { result ≡ self.now.previous }
    {
        self.previous
    }

    /// Whether all entries were given.
    pub fn is_empty(&self) -> bool
        ensures { result ≡ (length self.now.entries == 0) }
    {
        self.starts.is_empty()
    }

    /// The last entry that was not given. None where all were.
    pub fn pop(&mut self) -> Option<Entry>
        ensures entries { self.old.entries ≡ self.new.entries ++ option_to_list result }
        ensures end { IfNone result (self.old.entries ≡ []) }
        ensures object { self.new.object ≡ self.old.object }
        ensures previous { self.new.previous ≡ self.old.previous }
    {
        let start = self.starts.pop()?;
        Some(entry_from(self.version, &self.block, start))
    }
}
