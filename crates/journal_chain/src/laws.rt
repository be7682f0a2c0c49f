//! Laws of chains, for the layers above: each function does nothing, and its contract is the law.
ghost use Rattle.std.specs.Prelude.{◌≡◌, ◌==◌, ℕ, List, [], Option, None, false};
ghost use Rattle.s4_types.specs.Pointer.{Place};
ghost use Rattle.block_log.specs.declared.kinds.BlockKind.TheVariants.{Journal};
ghost use Rattle.block_log.specs.Log.{Stored, of_kind};
ghost use Rattle.codec.specs.Entry.{EntryFields};
ghost use Rattle.journal_chain.specs.Chain.{ChainFields, Holds, OnlyJournalChanged, entries_held};

/// A chain is in its object's journal blocks alone.
///
/// Where those are the same, so is the chain, and it has the entries that are found from its head
/// on. What changes one object's journal alone twice does so as a whole.
pub fn a_chain_is_in_its_journal_blocks()
    ensures same { (held later : Place → Option Stored) (chain : ChainFields)
        (entries : List EntryFields)
        → of_kind Journal chain.object later ≡ of_kind Journal chain.object held
        → Holds held chain entries → Holds later chain entries }
    ensures entries { (held : Place → Option Stored) (chain : ChainFields)
        (entries : List EntryFields)
        → Holds held chain entries → entries_held held chain ≡ entries }
    ensures twice { (o : ℕ) (held between later : Place → Option Stored)
        → OnlyJournalChanged o held between
        → OnlyJournalChanged o between later → OnlyJournalChanged o held later }
{}

/// Where no journal block of an object is held, its empty chain is.
pub fn an_empty_chain_is_held()
    ensures { (held : Place → Option Stored) (o : ℕ) → ((p : Place) → of_kind Journal o held p ≡ None)
        → Holds held (record { object = o; head = None; bytes = 0; filled = 0 }) [] }
{}

/// Where one object's journal alone has changed, the chains of all others are held as before.
pub fn other_chains_stay()
    ensures { (o : ℕ) (held later : Place → Option Stored) (chain : ChainFields) (entries : List EntryFields)
        → OnlyJournalChanged o held later → (o == chain.object) ≡ false → Holds held chain entries
        → Holds later chain entries }
{}
