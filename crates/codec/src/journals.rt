ghost use Rattle.std.specs.Prelude.{◌≡◌, ℕ, ◌≤◌, ◌*◌, true, length, Option};
ghost use Rattle.s4_types.specs.declared.limits.TheConstants.{JOURNAL_ENTRIES, LONGEST_ENTRY_BYTES};
ghost use Rattle.codec.specs.Fields.{Reads, kept};
ghost use Rattle.codec.specs.Entry.{EntryFields, entries_length, entries_length_by};
ghost use Rattle.codec.specs.Journal.{JournalFields, journal_rules};

use crate::entries::Entry;
use crate::versions::ImageVersion;
use arrayvec::ArrayVec;
use s4_types::limits::{JOURNAL_ENTRIES, JOURNAL_ENTRY_BYTES};
use s4_types::{ObjectId, Ptr};
use std::marker::Model;

/// Entries of a journal block, the oldest first.
pub type Entries = ArrayVec<Entry, JOURNAL_ENTRIES>;

/// Entries of one object, the oldest first, and where its earlier ones stand, as a block of the log
/// keeps them.
///
/// The object's number is at least 1, and there are 1 to `JOURNAL_ENTRIES`, of at most
/// `JOURNAL_ENTRY_BYTES` together.
#[derive(Drop)]
pub struct JournalBlock {
    object: ObjectId,
    previous: Option<Ptr>,
    entries: Entries,
}

impl Model for JournalBlock {
    ghost use Rattle.std.specs.Prelude.{◌≡◌, true};
    ghost use Rattle.codec.specs.Journal.{JournalFields, journal_rules};

    ghost Value = { JournalFields };

    ghost view = { λ b. record { object = b.object; previous = b.previous; entries = b.entries.items } };

    ghost invariant = { λ b. journal_rules (record { object = b.object; previous = b.previous; entries = b.entries.items }) ≡ true };
}

/// How many bytes the spellings of these entries have together.
#[tactic(auto, using(crate::proofs::JournalEntries::entries_next, crate::proofs::JournalEntries::entries_none))]
pub(crate) fn byte_sum(entries: &[Entry]) -> usize
    requires { length entries.now ≤ JOURNAL_ENTRIES }
    ensures exact { result ≡ entries_length entries.now }
    ensures most { result ≤ JOURNAL_ENTRIES * LONGEST_ENTRY_BYTES }
{
    let mut bytes = 0;
    for entry in entries {
        bytes += entry.byte_count();
    }
    bytes
}

/// How many bytes these entries have together in an image of a version.
#[tactic(auto, using(crate::proofs::JournalEntries::by_next, crate::proofs::JournalEntries::by_none))]
pub(crate) fn byte_sum_by(version: ImageVersion, entries: &[Entry]) -> usize
    requires { length entries.now ≤ JOURNAL_ENTRIES }
    ensures exact { result ≡ entries_length_by version entries.now }
    ensures most { result ≤ JOURNAL_ENTRIES * LONGEST_ENTRY_BYTES }
{
    let mut bytes = 0;
    for entry in entries {
        bytes += entry.byte_count_by(version);
    }
    bytes
}

impl JournalBlock {
    /// The journal block of these entries. None where the object's number is 0, where there is no
    /// entry, or where the entries have more than `JOURNAL_ENTRY_BYTES` together.
    #[tactic(auto, unfolding(crate::specs::Journal::journal_rules))]
    pub fn new(object: ObjectId, previous: Option<Ptr>, entries: Entries) -> Option<Self>
        ensures { let made : JournalFields = record { object = object; previous = previous; entries = entries.items } in Reads (λ j. j) result (kept (journal_rules made) made) }
    {
        if object.number() < 1 || entries.is_empty() {
            return None;
        }
        if byte_sum(entries.as_slice()) > JOURNAL_ENTRY_BYTES {
            return None;
        }
        Some(JournalBlock {
            object,
            previous,
            entries,
        })
    }

    pub fn object(&self) -> ObjectId
        ensures { result ≡ self.now.object }
    {
        self.object
    }

    /// Where the object's previous journal block stands, if it has one.
    pub fn previous(&self) -> Option<Ptr>
        ensures { result ≡ self.now.previous }
    {
        self.previous
    }

    pub fn entries(&self) -> &[Entry]
        ensures entries { result.now ≡ self.now.entries }
        ensures count { length self.now.entries ≤ JOURNAL_ENTRIES }
        ensures rules { journal_rules self.now ≡ true }
    {
        self.entries.as_slice()
    }
}
