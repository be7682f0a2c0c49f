//! Laws of the spellings, for the layers above: each function does nothing, and its contract is the
//! law.

ghost use Rattle.std.specs.Prelude.{◌≡◌, ◌↔◌, ℕ, ◌*◌, ◌≤◌, ◌++◌, true, List, length, Option};
ghost use Rattle.s4_types.specs.declared.limits.TheConstants.{JOURNAL_ENTRY_BYTES, JOURNAL_ENTRIES};
ghost use Rattle.s4_types.specs.declared.limits.TheConstants.{SHORTEST_ENTRY_BYTES};
ghost use Rattle.s4_types.specs.declared.limits.TheConstants.{LONGEST_ENTRY_BYTES};
ghost use Rattle.s4_types.specs.Pointer.{Place};
ghost use Rattle.codec.specs.Fields.{SpellsSlot};
ghost use Rattle.codec.specs.FirstBlock.{SpellsFirst};
ghost use Rattle.codec.specs.PointerBlock.{SpellsPointers};
ghost use Rattle.codec.specs.declared.first_blocks.FirstBlock.{FirstBlock};
ghost use Rattle.codec.specs.declared.pointer_blocks.PointerBlock.{PointerBlock};
ghost use Rattle.codec.specs.Entry.{EntryFields, IsEntry, BeginsWithEntry, entry_spelling};
ghost use Rattle.codec.specs.Entry.{entry_length, entries_length, entry_length_by};
ghost use Rattle.codec.specs.Entry.{entries_length_by, entry_spelling_by};
ghost use Rattle.codec.specs.declared.versions.ImageVersion.{ImageVersion};
ghost use Rattle.codec.specs.declared.versions.ImageVersion.TheVariants.{First};
ghost use Rattle.codec.specs.Summary.{SummaryFields, KeepsSummaryRules, SpellsSummary};
ghost use Rattle.codec.specs.Summary.{summary_rules, summary_spelling};

/// No two pointers share an encoding, nor a pointer and a hole.
pub fn one_pointer_a_spelling()
    ensures { (bytes : List ℕ) (p q : Option Place) → SpellsSlot bytes p → SpellsSlot bytes q
        → p ≡ q }
{}

/// No two first blocks of checkpoints share an encoding.
pub fn one_first_block_a_spelling()
    ensures { (block : List ℕ) (f g : FirstBlock) → SpellsFirst block f → SpellsFirst block g
        → f ≡ g }
{}

/// No two pointer blocks share an encoding.
pub fn one_pointer_block_a_spelling()
    ensures { (block : List ℕ) (a b : PointerBlock) → SpellsPointers block a
        → SpellsPointers block b → a ≡ b }
{}

/// No two entries share an encoding, and none is the beginning of another's.
pub fn one_entry_a_spelling()
    ensures entry { (bytes rest behind : List ℕ) (e f : EntryFields) → BeginsWithEntry bytes e rest
        → BeginsWithEntry bytes f behind → e ≡ f }
    ensures rest { (bytes rest behind : List ℕ) (e f : EntryFields) → BeginsWithEntry bytes e rest
        → BeginsWithEntry bytes f behind → rest ≡ behind }
{}

/// The length of an entry is that of its encoding, at least `SHORTEST_ENTRY_BYTES` and at most
/// `LONGEST_ENTRY_BYTES`.
pub fn entry_is_so_long()
    ensures exact { (e : EntryFields) → length (entry_spelling e) ≡ entry_length e }
    ensures least { (e : EntryFields) → SHORTEST_ENTRY_BYTES ≤ entry_length e }
    ensures most { (e : EntryFields) → IsEntry e → entry_length e ≤ LONGEST_ENTRY_BYTES }
{}

/// At most `JOURNAL_ENTRIES` entries fit the bytes that a journal block has for them.
pub fn fourteen_entries_fit()
    ensures { (entries : List EntryFields)
        → entries_length entries ≤ JOURNAL_ENTRY_BYTES → length entries ≤ JOURNAL_ENTRIES }
{}

/// A summary has one encoding.
///
/// Its rules are these: its generation is 1 to 2^32 - 2, one to 15 blocks are used, and each has an
/// object. No two summaries share an encoding in front of the same payload blocks, and each
/// encoding has 512 bytes.
pub fn a_summary_has_one_encoding()
    ensures rules { (s : SummaryFields) → (summary_rules s ≡ true) ↔ KeepsSummaryRules s }
    ensures one { (payload : List (List ℕ)) (block : List ℕ) (s t : SummaryFields)
        → SpellsSummary payload block s → SpellsSummary payload block t → s ≡ t }
    ensures bytes { (s : SummaryFields) (payload : List (List ℕ)) → length s.roles ≤ 15
        → length (summary_spelling s payload) ≡ 512 }
{}

/// Entries that fit the encoding of the first version have little more bytes in the present one: at
/// most an eighteenth part of all, since a pointer change has 18 bytes in place of 17.
pub fn entries_grow_little()
    ensures { (entries : List EntryFields)
        → 17 * entries_length entries ≤ 18 * entries_length_by First entries }
{}

/// The length of an entry in an image of a version is that of its encoding there.
pub fn entry_is_so_long_by()
    ensures { (version : ImageVersion) (e : EntryFields)
        → length (entry_spelling_by version e) ≡ entry_length_by version e }
{}
