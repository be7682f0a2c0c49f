//! Laws of packing, for the layers above: each function does nothing, and its contract is the law.
ghost use Rattle.std.specs.Prelude.{◌≡◌, ℕ, ◌+◌, ◌<◌, ◌≤◌, ◌++◌, List, [], ◌∷◌, length, map, drop};
ghost use Rattle.std.specs.Prelude.{sum, true, false};
ghost use Rattle.std.specs.List.{AllByRecursion};
ghost use Rattle.s4_types.specs.declared.limits.TheConstants.{JOURNAL_ENTRY_BYTES};
ghost use Rattle.s4_types.specs.declared.limits.TheConstants.{CHAIN_ENTRY_BYTES, CHAIN_BLOCKS};
ghost use Rattle.s4_types.specs.declared.limits.TheConstants.{CHAIN_ENTRIES};
ghost use Rattle.codec.specs.Entry.{EntryFields, IsEntry, entry_length, entries_length};
ghost use Rattle.journal_chain.specs.Sizes.{fits, filled_after, blocks_needed};
ghost use Rattle.journal_chain.specs.Packing.{packed_with, added, packed, joined, filled_bytes};
ghost use Rattle.journal_chain.specs.Packing.{KeepsTheRule, AllFit, blocks_past, blocks_kept};

use codec::laws::entry_is_so_long;

/// Packing goes on where it stopped: a push is the packing of the joined entries.
pub fn packing_goes_on()
    ensures packed { (xs ys : List EntryFields) → packed (xs ++ ys) ≡ added (packed xs) ys }
    ensures of_blocks { (blocks : List (List EntryFields)) (entries : List EntryFields)
        → KeepsTheRule blocks → packed (joined blocks ++ entries) ≡ added blocks entries }
{}

/// One more entry goes after those of the newest block if it fits there, else it begins a block.
pub fn one_entry_is_added()
    ensures first { (entry : EntryFields) → packed_with [] entry ≡ (entry ∷ []) ∷ [] }
    ensures fits { (newest : List EntryFields) (older : List (List EntryFields)) (entry : EntryFields)
        → fits (entries_length newest) (entry_length entry) ≡ true
        → packed_with (newest ∷ older) entry ≡ (newest ++ entry ∷ []) ∷ older }
    ensures begins { (newest : List EntryFields) (older : List (List EntryFields)) (entry : EntryFields)
        → fits (entries_length newest) (entry_length entry) ≡ false
        → packed_with (newest ∷ older) entry ≡ (entry ∷ []) ∷ newest ∷ older }
{}

/// A push keeps all blocks but the head, which it appends anew where its first entry fits after the
/// head's.
pub fn a_push_keeps_older_blocks()
    ensures none { (blocks : List (List EntryFields)) → blocks_kept blocks [] ≡ blocks }
    ensures fits { (newest : List EntryFields) (older : List (List EntryFields)) (entry : EntryFields) (entries : List EntryFields)
        → fits (entries_length newest) (entry_length entry) ≡ true
        → blocks_kept (newest ∷ older) (entry ∷ entries) ≡ older }
    ensures begins { (newest : List EntryFields) (older : List (List EntryFields)) (entry : EntryFields) (entries : List EntryFields)
        → fits (entries_length newest) (entry_length entry) ≡ false
        → blocks_kept (newest ∷ older) (entry ∷ entries) ≡ newest ∷ older }
{}

/// The packed blocks have the entries, each once and in order.
pub fn blocks_have_the_entries()
    ensures packed { (entries : List EntryFields) → joined (packed entries) ≡ entries }
    ensures added { (blocks : List (List EntryFields)) (entries : List EntryFields)
        → joined (added blocks entries) ≡ joined blocks ++ entries }
{}

/// Packed entries keep the rule of packing, and a push keeps it.
pub fn packing_keeps_the_rule()
    ensures packed { (entries : List EntryFields) → AllFit entries → KeepsTheRule (packed entries) }
    ensures added { (blocks : List (List EntryFields)) (entries : List EntryFields)
        → KeepsTheRule blocks → AllFit entries → KeepsTheRule (added blocks entries) }
{}

/// No other blocks keep the rule: those that do are the packing of their own entries.
pub fn one_packing_keeps_the_rule()
    ensures { (blocks : List (List EntryFields)) → KeepsTheRule blocks
        → packed (joined blocks) ≡ blocks }
{}

/// An entry with an encoding fits a block of its own.
pub fn entries_fit()
    ensures { (entries : List EntryFields) → AllByRecursion IsEntry entries → AllFit entries }
{
    entry_is_so_long();
}

/// The bytes of entries add up.
pub fn bytes_add_up()
    ensures joined { (xs ys : List EntryFields)
        → entries_length (xs ++ ys) ≡ entries_length xs + entries_length ys }
    ensures sizes { (entries : List EntryFields)
        → sum (map entry_length entries) ≡ entries_length entries }
{}

/// A chain is short: two neighbouring blocks have more than `JOURNAL_ENTRY_BYTES` of entries
/// together, so entries of at most `CHAIN_ENTRY_BYTES` are packed in at most `CHAIN_BLOCKS` blocks;
/// and they are at most `CHAIN_ENTRIES`. A push of entries appends a block at least, and at most
/// one an entry.
pub fn chains_are_short()
    ensures neighbours { (newer previous : List EntryFields) (older : List (List EntryFields)) → KeepsTheRule (newer ∷ previous ∷ older)
        → JOURNAL_ENTRY_BYTES < entries_length newer + entries_length previous }
    ensures blocks { (blocks : List (List EntryFields)) → KeepsTheRule blocks
        → entries_length (joined blocks) ≤ CHAIN_ENTRY_BYTES → length blocks ≤ CHAIN_BLOCKS }
    ensures packed { (entries : List EntryFields) → AllFit entries
        → entries_length entries ≤ CHAIN_ENTRY_BYTES → length (packed entries) ≤ CHAIN_BLOCKS }
    ensures entries { (entries : List EntryFields)
        → entries_length entries ≤ CHAIN_ENTRY_BYTES → length entries ≤ CHAIN_ENTRIES }
    ensures least { (filled : ℕ) (sizes : List ℕ) → 0 < length sizes
        → 0 < blocks_needed filled sizes }
    ensures most { (filled : ℕ) (sizes : List ℕ) → blocks_needed filled sizes ≤ length sizes }
{
    entry_is_so_long();
}

/// The blocks that a push needs are those of the longer chain that hold an entry of the push, and
/// all blocks where there was no chain before it.
pub fn blocks_needed_hold_the_push()
    ensures push { (xs ys : List EntryFields)
        → blocks_needed (filled_bytes (packed xs)) (map entry_length ys)
        ≡ blocks_past (length xs) (packed (xs ++ ys)) }
    ensures whole { (entries : List EntryFields)
        → blocks_needed 0 (map entry_length entries) ≡ length (packed entries) }
{}

/// A push leaves the blocks that it keeps as they are, under as many new ones as it needs.
pub fn blocks_needed_are_appended()
    ensures kept { (blocks : List (List EntryFields)) (entries : List EntryFields)
        → drop (blocks_needed (filled_bytes blocks) (map entry_length entries))
        (added blocks entries) ≡ blocks_kept blocks entries }
    ensures count { (blocks : List (List EntryFields)) (entries : List EntryFields)
        → length (added blocks entries)
        ≡ blocks_needed (filled_bytes blocks) (map entry_length entries)
        + length (blocks_kept blocks entries) }
{}

/// The bytes in the head after a push are those in the newest of its blocks.
pub fn filled_bytes_after()
    ensures { (blocks : List (List EntryFields)) (entries : List EntryFields)
        → filled_bytes (added blocks entries)
        ≡ filled_after (filled_bytes blocks) (map entry_length entries) }
{}
