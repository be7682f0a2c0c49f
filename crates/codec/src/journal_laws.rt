//! Laws of journal blocks, for the layers above: each function does nothing, and its contract is
//! the law.

ghost use Rattle.std.specs.Prelude.{◌≡◌, ℕ, ◌+◌, ◌≤◌, ◌++◌, true, List, length, Some};
ghost use Rattle.s4_types.specs.declared.limits.TheConstants.{JOURNAL_ENTRIES};
ghost use Rattle.codec.specs.Fields.{all_of};
ghost use Rattle.codec.specs.Entry.{EntryFields, entries_length};
ghost use Rattle.codec.specs.Journal.{JournalFields, SpellsJournal, journal_at, journal_rules};
ghost use Rattle.codec.specs.Journal.{journal_spelling};

/// No two journal blocks share an encoding.
pub fn one_journal_a_spelling()
    ensures { (block : List ℕ) (i j : JournalFields) → SpellsJournal block i → SpellsJournal block j
        → i ≡ j }
{}

/// What a block encodes is what reading it gives.
pub fn a_journal_is_read()
    ensures { (block : List ℕ) (j : JournalFields) → SpellsJournal block j
        → all_of journal_at block ≡ Some j }
{}

/// The bytes of entries add up.
pub fn entry_bytes_add_up()
    ensures { (front back : List EntryFields)
        → entries_length (front ++ back) ≡ entries_length front + entries_length back }
{}

/// A journal block has 1 to `JOURNAL_ENTRIES` entries.
pub fn a_journal_has_few_entries()
    ensures { (j : JournalFields) → journal_rules j ≡ true
        → (1 ≤ length j.entries) × (length j.entries ≤ JOURNAL_ENTRIES) }
{}

/// The encoding of a journal block is a block of 512 bytes.
pub fn a_journal_is_one_block()
    ensures { (j : JournalFields) → journal_rules j ≡ true → length (journal_spelling j) ≡ 512 }
{}
