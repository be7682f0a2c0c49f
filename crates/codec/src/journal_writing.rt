ghost use Rattle.std.specs.Prelude.{◌≡◌, ℕ, ◌+◌, ◌^◌, ◌<◌, ◌≤◌, ◌++◌, ◌∷◌, List, length, Option};
ghost use Rattle.std.specs.Prelude.{Some, IfSome};
ghost use Rattle.std.specs.Int.{w16};
ghost use Rattle.std.specs.List.{flat_map, AllByRecursion};
ghost use Rattle.s4_types.specs.declared.limits.TheConstants.{JOURNAL_ENTRY_BYTES};
ghost use Rattle.codec.specs.Fields.{all_of, number};
ghost use Rattle.codec.specs.Entry.{EntryFields, IsEntry, entry_spelling, entries_length};
ghost use Rattle.codec.specs.Journal.{JournalFields, SpellsJournal, journal_at};

use crate::entries::Entry;
use crate::entry_writing::encode_entry;
use crate::journals::{JournalBlock, byte_sum};
use crate::pointers::put_slot;
use crate::writing::{Writing, finished, put_byte, put_long, put_short, put_zeros};
use s4_types::limits::{BLOCK_BYTES, JOURNAL_ENTRY_BYTES};
use s4_types::{ObjectId, Ptr};

#[tactic(auto, using(crate::proofs::JournalEntries::entries_next, crate::proofs::JournalEntries::entries_none, crate::proofs::JournalEntries::entries_front))]
fn put_entries(out: &mut Writing, entries: &[Entry])
    requires { length out.old.items + entries_length entries.now ≤ 512 }
    ensures items { out.new.items ≡ out.old.items ++ flat_map entry_spelling entries.now }
    ensures len { length out.new.items ≡ length out.old.items + entries_length entries.now }
    ensures spelled { AllByRecursion IsEntry entries.now }
{
    for entry in entries {
        encode_entry(entry, out);
    }
}

/// The one encoding of a journal block of these entries, the oldest first.
#[tactic(auto, unfolding(crate::specs::Journal::journal_spelling), using(crate::proofs::Lengths::fourteen))]
pub fn encode_entries(
    object: ObjectId,
    previous: Option<Ptr>,
    entries: &[Entry],
) -> [u8; BLOCK_BYTES]
    requires of_one { 1 ≤ object }
    requires some { 1 ≤ length entries.now }
    requires fit { entries_length entries.now ≤ JOURNAL_ENTRY_BYTES }
    ensures { SpellsJournal result (record { object = object; previous = previous; entries = entries.now }) }
{
    let bytes = byte_sum(entries);
    let mut out = Writing::new();
    put_byte(&mut out, 1);
    put_byte(&mut out, entries.len() as u8);
    put_short(&mut out, bytes as u16);
    put_zeros(&mut out, 4);
    put_long(&mut out, object.number());
    put_slot(&mut out, previous);
    put_entries(&mut out, entries);
    put_zeros(&mut out, JOURNAL_ENTRY_BYTES - bytes);
    finished(out)
}

/// The one encoding of a journal block.
#[tactic(auto, using(crate::proofs::JournalEntries::rules_object, crate::proofs::JournalEntries::rules_some, crate::proofs::JournalEntries::rules_fit))]
pub fn encode_journal(block: &JournalBlock) -> [u8; BLOCK_BYTES]
    ensures spells { SpellsJournal result block.now }
    ensures reads { all_of journal_at result ≡ Some block.now }
{
    encode_entries(block.object(), block.previous(), block.entries())
}
