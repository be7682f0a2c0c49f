ghost use Rattle.std.specs.Prelude.{◌≡◌, ◌+◌, ◌≤◌, ◌++◌, [], ◌∷◌, length, take, drop, Option, Some};
ghost use Rattle.std.specs.Prelude.{IsSome, nat_le};
ghost use Rattle.s4_types.specs.declared.limits.TheConstants.{JOURNAL_ENTRY_BYTES};
ghost use Rattle.codec.specs.Fields.{Reads, all_of, kept};
ghost use Rattle.codec.specs.Entry.{entry_length, entries_length};
ghost use Rattle.codec.specs.Journal.{JournalFields, SpellsJournal, journal_at};
ghost use Rattle.codec.specs.Patching.{decoded, with_entry};

use crate::entries::Entry;
use crate::entry_reader::previous_of;
use crate::entry_writing::encode_entry;
use crate::fields::read_long;
use crate::journal_writing::encode_entries;
use crate::writing::Writing;
use byteorder::{BigEndian, ByteOrder};
use s4_types::limits::{BLOCK_BYTES, JOURNAL_ENTRY_BYTES, JOURNAL_HEAD_BYTES};
use s4_types::{ObjectId, Ptr};
use std::marker::Model;
use std::slice;

/// A journal block as its 512 bytes, to which entries are added with no decoding of the others.
///
/// Contracts see the journal block that the bytes encode: the object's number is at least 1, and
/// there are 1 to `JOURNAL_ENTRIES`, of at most `JOURNAL_ENTRY_BYTES` together.
#[derive(Drop)]
pub struct JournalBytes {
    block: [u8; BLOCK_BYTES],
}

impl Model for JournalBytes {
    ghost use Rattle.codec.specs.Journal.{JournalFields, SpellsJournal};
    ghost use Rattle.codec.specs.Patching.{decoded};

    ghost Value = { JournalFields };

    ghost view = { λ b. decoded b.block };

    ghost invariant = { λ b. SpellsJournal b.block (decoded b.block) };
}

/// The bytes that the entries were told to have.
fn told_in(block: &[u8; BLOCK_BYTES]) -> usize
    ensures { (j : JournalFields) → SpellsJournal block.now j → result ≡ entries_length j.entries }
{
    BigEndian::read_u16(&block[2..]) as usize
}

/// A law: bytes that can be read are the encoding of what is read.
fn can_be_read(block: &[u8])
    requires { IsSome (all_of journal_at block.now) }
    ensures { SpellsJournal block.now (decoded block.now) }
{}

/// Shows that an entry has room in an empty block: its bytes are counted, and the count is used for
/// nothing else.
fn show_room(entry: &Entry)
    ensures { entry_length entry.now ≤ JOURNAL_ENTRY_BYTES }
{
    let _bytes = entry.byte_count();
}

fn count_in(block: &[u8; BLOCK_BYTES]) -> u8
    ensures { (j : JournalFields) → SpellsJournal block.now j → result ≡ length j.entries }
{
    block[1]
}

fn put_at(block: &mut [u8; BLOCK_BYTES], at: usize, bytes: &[u8])
    requires { at + length bytes.now ≤ 512 }
    ensures { block.new
        ≡ take at block.old ++ (bytes.now ++ drop (at + length bytes.now) block.old) }
{
    block[at..at + bytes.len()].copy_from_slice(bytes);
}

/// Spells the entry after the others, and counts it and its bytes.
fn patch(block: &mut [u8; BLOCK_BYTES], entry: &Entry)
    requires spells { SpellsJournal block.old (decoded block.old) }
    requires room { entries_length (decoded block.old).entries + entry_length entry.now
        ≤ JOURNAL_ENTRY_BYTES }
    ensures { SpellsJournal block.new (with_entry (decoded block.old) entry.now) }
{
    let mut spelled = Writing::new();
    encode_entry(entry, &mut spelled);
    let bytes = spelled.as_slice();
    let told = told_in(block);
    let count = count_in(block) + 1;
    let [high, low] = ((told + bytes.len()) as u16).to_be_bytes();
    put_at(block, JOURNAL_HEAD_BYTES + told, bytes);
    put_at(block, 1, &[count, high, low]);
}

impl JournalBytes {
    /// The block of a single entry, which always fits. None where the object's number is 0.
    pub fn new(object: ObjectId, previous: Option<Ptr>, entry: &Entry) -> Option<Self>
        ensures { Reads (λ j. j) result (kept (nat_le 1 object) (record { object = object; previous = previous; entries = entry.now ∷ [] })) }
    {
        if object.number() < 1 {
            return None;
        }
        show_room(entry);
        Some(JournalBytes {
            block: encode_entries(object, previous, slice::from_ref(entry)),
        })
    }

    /// The journal block that these bytes encode. No entry is decoded.
    pub fn of(block: [u8; BLOCK_BYTES]) -> Self
        requires { IsSome (all_of journal_at block) }
        ensures { all_of journal_at block ≡ Some result }
    {
        can_be_read(&block);
        JournalBytes { block }
    }

    /// Whether one entry more has room after the others.
    pub fn fits(&self, entry: &Entry) -> bool
        ensures { result
            ≡ nat_le (entries_length self.now.entries + entry_length entry.now)
            JOURNAL_ENTRY_BYTES }
    {
        self.entry_bytes() + entry.byte_count() <= JOURNAL_ENTRY_BYTES
    }

    /// Appends an entry that fits: its bytes are written after the others', and the counts are
    /// raised.
    pub fn add(&mut self, entry: &Entry)
        requires { entries_length self.old.entries + entry_length entry.now ≤ JOURNAL_ENTRY_BYTES }
        ensures object { self.new.object ≡ self.old.object }
        ensures previous { self.new.previous ≡ self.old.previous }
        ensures entries { self.new.entries ≡ self.old.entries ++ entry.now ∷ [] }
    {
        patch(&mut self.block, entry);
    }

    pub fn object(&self) -> ObjectId
        ensures { result ≡ self.now.object }
    {
        let (number, _) = read_long(&self.block[8..]).unwrap();
        ObjectId::new(number)
    }

    /// Where the object's previous journal block stands, if it has one.
    pub fn previous(&self) -> Option<Ptr>
        ensures { result ≡ self.now.previous }
    {
        previous_of(&self.block)
    }

    /// How many bytes the entries have together: `SHORTEST_ENTRY_BYTES` to `JOURNAL_ENTRY_BYTES`.
    pub fn entry_bytes(&self) -> usize
        ensures exact { result ≡ entries_length self.now.entries }
        ensures most { result ≤ JOURNAL_ENTRY_BYTES }
    {
        told_in(&self.block)
    }

    /// The block's encoding, as it is kept.
    pub fn as_bytes(&self) -> &[u8; BLOCK_BYTES]
        ensures spells { SpellsJournal result.now self.now }
        ensures reads { all_of journal_at result.now ≡ Some self.now }
    {
        &self.block
    }
}
