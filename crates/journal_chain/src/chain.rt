ghost use Rattle.std.specs.Prelude.{◌≡◌, ℕ, ◌+◌, ◌≤◌, ◌<◌, ◌++◌, List, [], ◌∷◌, length, map, None};
ghost use Rattle.std.specs.Prelude.{Some, OnOk, OnErr, IfErr, MatchResult, IsSome, Option, reverse};
ghost use Rattle.std.specs.Option.{option_to_list};
ghost use Rattle.s4_types.specs.declared.limits.TheConstants.{CHAIN_ENTRY_BYTES};
ghost use Rattle.s4_types.specs.declared.limits.TheConstants.{JOURNAL_ENTRY_BYTES};
ghost use Rattle.s4_types.specs.Pointer.{Place};
ghost use Rattle.s4_types.specs.declared.refusals.Refusal.TheVariants.{NoMemory};
ghost use Rattle.block_log.specs.declared.kinds.BlockKind.TheVariants.{Journal};
ghost use Rattle.block_log.specs.Log.{Stored, of_kind};
ghost use Rattle.block_log.specs.Taken.{TakesPlaces};
ghost use Rattle.codec.specs.Entry.{entry_length, entries_length};
ghost use Rattle.journal_chain.specs.Sizes.{blocks_needed, filled_with};
ghost use Rattle.journal_chain.specs.Packing.{AllFit, filled_bytes, packed};
ghost use Rattle.journal_chain.specs.Chain.{ChainFields, Holds, OnlyJournalChanged, chain_entries};
ghost use Rattle.journal_chain.specs.Chain.{chain_places, entries_held};
ghost use Rattle.journal_chain.specs.Back.{entries_left};
ghost use Rattle.journal_chain.specs.Push.{HasRoom, pushed_blocks, rewrite_refusal, whole_blocks};
ghost use Rattle.journal_chain.specs.Writing.{Standing, Finished, InOrder, Unfinished, reopened};

use crate::back::EntriesBack;
use crate::packing::laws::chains_are_short;
use crate::packing::{blocks_needed, fits};
use crate::rewriting::{drop_all, places};
use crate::table::{reopen, write};
use crate::writing::{bytes_of, finish, first_block, sizes_of, take_all, take_others};
use arrayvec::ArrayVec;
use block_log::Blocks;
use codec::{Entry, JournalBytes};
use s4_types::limits::{CHAIN_ENTRIES, SHORTEST_ENTRY_BYTES};
use s4_types::{ObjectId, Ptr, Refusal};
use std::alloc::Global;
use std::marker::Model;
use undo_redo::{EntriesBetween, OtherEntries};

/// What is kept of an object's chain of journal blocks beside the object's row.
#[derive(Clone, Copy)]
pub struct Chain {
    object: ObjectId,
    head: Option<Ptr>,
    // Of all entries.
    bytes: u16,
    // Of the head block's entries.
    filled: u16,
}

impl Model for Chain {
    ghost use Rattle.std.specs.Prelude.{◌≤◌};
    ghost use Rattle.journal_chain.specs.Chain.{ChainFields};
    ghost use Rattle.s4_types.specs.declared.limits.TheConstants.{JOURNAL_ENTRY_BYTES};
    ghost use Rattle.s4_types.specs.declared.limits.TheConstants.{CHAIN_ENTRY_BYTES as MOST_BYTES};

    ghost Value = { ChainFields };

    ghost view = { λ c. record { object = c.object; head = c.head; bytes = c.bytes; filled = c.filled } };

    ghost invariant = { λ c. (1 ≤ c.object) × ((c.bytes ≤ MOST_BYTES) × (c.filled ≤ JOURNAL_ENTRY_BYTES)) };

    ghost inverse = { λ c. record { object = c.object; head = c.head; bytes = c.bytes; filled = c.filled } };
}

impl Chain {
    /// The chain of an object that has no entry yet.
    pub const fn empty(object: ObjectId) -> Self
        requires { 1 ≤ object }
        ensures { result ≡ record { object = object; head = None; bytes = 0; filled = 0 } }
    {
        Chain {
            object,
            head: None,
            bytes: 0,
            filled: 0,
        }
    }

    /// The chain that an object's row tells of: its newest block, the bytes of all its entries, and
    /// those of the newest block's entries.
    pub const fn of(object: ObjectId, head: Option<Ptr>, bytes: u16, filled: u16) -> Self
        requires object { 1 ≤ object }
        requires limit { bytes ≤ CHAIN_ENTRY_BYTES }
        requires one_block { filled ≤ JOURNAL_ENTRY_BYTES }
        ensures { result ≡ record { object = object; head = head; bytes = bytes; filled = filled } }
    {
        Chain {
            object,
            head,
            bytes,
            filled,
        }
    }

    pub const fn object(self) -> ObjectId
        ensures object { result ≡ self.object }
        ensures least { 1 ≤ result }
    {
        self.object
    }

    /// Where the newest of the chain's blocks is.
    pub const fn head(self) -> Option<Ptr>
        ensures { result ≡ self.head }
    {
        self.head
    }

    /// The bytes of all entries, at most `CHAIN_ENTRY_BYTES`.
    pub const fn bytes(self) -> usize
        ensures bytes { result ≡ self.bytes }
        ensures most { result ≤ CHAIN_ENTRY_BYTES }
    {
        self.bytes as usize
    }

    /// The bytes of the newest block's entries, at most `JOURNAL_ENTRY_BYTES`.
    pub const fn filled(self) -> usize
        ensures filled { result ≡ self.filled }
        ensures most { result ≤ JOURNAL_ENTRY_BYTES }
    {
        self.filled as usize
    }

    /// The head, where an entry of this size goes into it.
    fn reopened(&self, size: usize) -> Option<Ptr>
        ensures value { result ≡ reopened self.now size }
        ensures least { 1 ≤ self.now.object }
    {
        if fits(self.filled as usize, size) {
            self.head
        } else {
            None
        }
    }

    /// The block that takes the first entry of a push, with that entry: the head's entries are
    /// before it if it fits there.
    fn begun<B: Blocks>(&self, table: &mut B, first: &Entry) -> JournalBytes
        requires { Holds (B.log table.old).held self.now
            (entries_held (B.log table.old).held self.now) }
        ensures unfinished { Unfinished (B.log table.new).held self.now.object (option_to_list (reopened self.now (entry_length first.now))) result
            (entries_held (B.log table.old).held self.now ++ first.now ∷ []) }
        ensures object { result.object ≡ self.now.object }
        ensures filled { entries_length result.entries
            ≡ filled_with self.now.filled (entry_length first.now) }
        ensures same { B.log table.new ≡ B.log table.old }
    {
        match self.reopened(first.byte_count()) {
            Some(head) => {
                let mut block = reopen(table, head);
                block.add(first);
                block
            }
            None => JournalBytes::new(self.object(), self.head(), first).unwrap(),
        }
    }

    /// The chain has another head, with this many bytes of entries, and this many bytes of entries
    /// more than before.
    fn set_head(&mut self, head: Ptr, bytes: usize, filled: usize)
        requires limit { self.old.bytes + bytes ≤ CHAIN_ENTRY_BYTES }
        requires one_block { filled ≤ JOURNAL_ENTRY_BYTES }
        ensures { self.new ≡ record { object = self.old.object; head = Some head; bytes = self.old.bytes + bytes; filled = filled } }
    {
        self.head = Some(head);
        self.bytes += bytes as u16;
        self.filled = filled as u16;
    }

    /// Appends the blocks of a push that has room.
    fn append<B: Blocks>(
        &mut self,
        table: &mut B,
        first: &Entry,
        later: OtherEntries<'_>,
        bytes: usize,
    )
        requires held { Holds (B.log table.old).held self.old
            (entries_held (B.log table.old).held self.old) }
        requires fit { AllFit (first.now ∷ later) }
        requires bytes { bytes ≡ entries_length (first.now ∷ later) }
        requires limit { self.old.bytes + bytes ≤ CHAIN_ENTRY_BYTES }
        requires room { pushed_blocks self.old (first.now ∷ later)
            ≤ length (B.log table.old).ahead }
        ensures holds { Holds (B.log table.new).held self.new
            (entries_held (B.log table.old).held self.old ++ first.now ∷ later.entry) }
        ensures others { OnlyJournalChanged self.old.object (B.log table.old).held
            (B.log table.new).held }
        ensures takes { TakesPlaces (pushed_blocks self.old (first.now ∷ later.entry))
            (B.log table.old) (B.log table.new) }
        ensures named { (B.log table.new).named ≡ (B.log table.old).named }
        ensures object { self.new.object ≡ self.old.object }
    {
        let stale = self.reopened(first.byte_count());
        let mut block = self.begun(table, first);
        take_others(table, &mut block, later);
        let head = finish(table, &block, stale);
        self.set_head(head, bytes, block.entry_bytes());
    }

    /// Appends the entries of a change, which have this many bytes, and for which there is room.
    pub fn push<B: Blocks>(&mut self, table: &mut B, entries: &EntriesBetween<'_>, bytes: usize)
        requires held { Holds (B.log table.old).held self.old
            (entries_held (B.log table.old).held self.old) }
        requires bytes { bytes ≡ entries_length entries.now }
        requires room { HasRoom self.old (B.log table.old).ahead entries.now }
        ensures holds { Holds (B.log table.new).held self.new
            (entries_held (B.log table.old).held self.old ++ entries.now) }
        ensures others { OnlyJournalChanged self.old.object (B.log table.old).held
            (B.log table.new).held }
        ensures takes { TakesPlaces (pushed_blocks self.old entries.now) (B.log table.old)
            (B.log table.new) }
        ensures named { (B.log table.new).named ≡ (B.log table.old).named }
        ensures object { self.new.object ≡ self.old.object }
    {
        let (first, later) = entries.split_first();
        self.append(table, first, later, bytes);
    }

    /// A reader of the chain's entries, the newest first.
    pub fn entries_back(&self) -> EntriesBack
        ensures { (held : Place → Option Stored) → IsSome (chain_entries held self.now.object self.now.head)
            → entries_left held result ≡ chain_entries held self.now.object self.now.head }
    {
        EntriesBack::new(self.head())
    }

    /// All entries, the oldest first.
    ///
    /// NoMemory alone, where the memory for them is refused: it is asked for once, for as many as
    /// the chain's bytes could hold.
    pub fn entries<B: Blocks>(&self, alloc: Global, table: &mut B) -> Result<Vec<Entry>, Refusal>
        requires { IsSome (chain_entries (B.log table.old).held self.now.object self.now.head) }
        ensures entries { MatchResult result
            (λ v. v.items ≡ entries_held (B.log table.old).held self.now) (λ e. e ≡ NoMemory) }
        ensures same { B.log table.new ≡ B.log table.old }
    {
        let mut entries = Vec::with_capacity(alloc, self.bytes() / SHORTEST_ENTRY_BYTES)?;
        let mut back = self.entries_back();
        while let Some(entry) = back.next(table) {
            entries.push(entry)?;
        }
        entries.reverse();
        Ok(entries)
    }

    /// Adds the places of the chain's blocks, the newest first.
    ///
    /// NoMemory alone, where the memory for them is refused.
    pub fn add_places<B: Blocks>(
        &self,
        table: &mut B,
        into: &mut Vec<Option<Ptr>>,
    ) -> Result<(), Refusal>
        requires { IsSome (chain_entries (B.log table.old).held self.now.object self.now.head) }
        ensures added { OnOk result
            (into.new.items
            ≡ into.old.items
            ++ map Some
            (chain_places (of_kind Journal self.now.object (B.log table.old).held)
            self.now.object self.now.head)) }
        ensures refusal { IfErr result (λ e. e ≡ NoMemory) }
        ensures same { B.log table.new ≡ B.log table.old }
    {
        let places = places(table, self.head());
        into.extend_from_slice(places.as_slice())?;
        Ok(())
    }

    /// Writes all blocks of an object's chain, and answers the chain. What stands of an older one
    /// is not touched.
    fn afresh<B: Blocks>(
        object: ObjectId,
        table: &mut B,
        first: &Entry,
        later: &[Entry],
        bytes: usize,
    ) -> Self
        requires object { 1 ≤ object }
        requires limit { bytes ≤ CHAIN_ENTRY_BYTES }
        requires room { whole_blocks (first.now ∷ later.now) ≤ length (B.log table.old).ahead }
        ensures finished { (stale : List Place) → Standing object (of_kind Journal object (B.log table.old).held) [] stale
            → Finished (B.log table.new).held object stale result.head (first.now ∷ later.now) }
        ensures filled { (stale : List Place) → Standing object (of_kind Journal object (B.log table.old).held) [] stale
            → result.filled ≡ filled_bytes (packed (first.now ∷ later.now)) }
        ensures order { InOrder object (B.log table.new) result.head (B.log table.old).ahead }
        ensures others { OnlyJournalChanged object (B.log table.old).held (B.log table.new).held }
        ensures takes { TakesPlaces (whole_blocks (first.now ∷ later.now)) (B.log table.old)
            (B.log table.new) }
        ensures named { (B.log table.new).named ≡ (B.log table.old).named }
        ensures object { result.object ≡ object }
        ensures bytes { result.bytes ≡ bytes }
    {
        let mut chain = Chain::empty(object);
        let mut block = first_block(object, first);
        take_all(table, &mut block, later);
        let head = write(table, &block);
        chain.set_head(head, bytes, block.entry_bytes());
        chain
    }

    /// The chain of an object of which no journal block is held.
    fn of_none<B: Blocks>(object: ObjectId, table: &B) -> Self
        requires object { 1 ≤ object }
        requires none { (p : Place) → of_kind Journal object (B.log table.now).held p ≡ None }
        ensures holds { Holds (B.log table.now).held result [] }
        ensures order { (B.log table.now).ahead
            ≡ reverse
            (chain_places (of_kind Journal object (B.log table.now).held) object result.head)
            ++ (B.log table.now).ahead }
        ensures object { result.object ≡ object }
    {
        Chain::empty(object)
    }

    /// Writes a whole chain of entries where there is room, of an object of which no journal block
    /// is held.
    fn of_some<B: Blocks>(
        object: ObjectId,
        table: &mut B,
        first: &Entry,
        later: &[Entry],
        bytes: usize,
    ) -> Self
        requires object { 1 ≤ object }
        requires none { (p : Place) → of_kind Journal object (B.log table.old).held p ≡ None }
        requires fit { AllFit (first.now ∷ later.now) }
        requires bytes { bytes ≡ entries_length (first.now ∷ later.now) }
        requires limit { bytes ≤ CHAIN_ENTRY_BYTES }
        requires room { whole_blocks (first.now ∷ later.now) ≤ length (B.log table.old).ahead }
        ensures holds { Holds (B.log table.new).held result (first.now ∷ later.now) }
        ensures order { (B.log table.old).ahead
            ≡ reverse
            (chain_places (of_kind Journal object (B.log table.new).held) object result.head)
            ++ (B.log table.new).ahead }
        ensures others { OnlyJournalChanged object (B.log table.old).held (B.log table.new).held }
        ensures takes { TakesPlaces (whole_blocks (first.now ∷ later.now)) (B.log table.old)
            (B.log table.new) }
        ensures named { (B.log table.new).named ≡ (B.log table.old).named }
        ensures object { result.object ≡ object }
    {
        Chain::afresh(object, table, first, later, bytes)
    }

    /// Writes the whole chain of an object of which no journal block is held, with these entries,
    /// the oldest first, where there is room, and answers the chain. Its blocks are at the next
    /// places ahead, the oldest first.
    pub fn write_whole<B: Blocks>(object: ObjectId, table: &mut B, entries: &[Entry]) -> Self
        requires object { 1 ≤ object }
        requires none { (p : Place) → of_kind Journal object (B.log table.old).held p ≡ None }
        requires limit { entries_length entries.now ≤ CHAIN_ENTRY_BYTES }
        requires room { whole_blocks entries.now ≤ length (B.log table.old).ahead }
        ensures holds { Holds (B.log table.new).held result entries.now }
        ensures order { (B.log table.old).ahead
            ≡ reverse
            (chain_places (of_kind Journal object (B.log table.new).held) object result.head)
            ++ (B.log table.new).ahead }
        ensures others { OnlyJournalChanged object (B.log table.old).held (B.log table.new).held }
        ensures takes { TakesPlaces (whole_blocks entries.now) (B.log table.old) (B.log table.new) }
        ensures named { (B.log table.new).named ≡ (B.log table.old).named }
        ensures object { result.object ≡ object }
    {
        chains_are_short();
        let bytes = bytes_of(entries);
        let [first, later @ ..] = entries else {
            return Chain::of_none(object, table);
        };
        Chain::of_some(object, table, first, later, bytes)
    }

    /// Writes the chain afresh where there is room, and drops its old blocks.
    fn replace<B: Blocks>(&mut self, table: &mut B, first: &Entry, later: &[Entry], bytes: usize)
        requires held { Holds (B.log table.old).held self.old
            (entries_held (B.log table.old).held self.old) }
        requires fit { AllFit (first.now ∷ later.now) }
        requires bytes { bytes ≡ entries_length (first.now ∷ later.now) }
        requires limit { bytes ≤ CHAIN_ENTRY_BYTES }
        requires room { whole_blocks (first.now ∷ later.now) ≤ length (B.log table.old).ahead }
        ensures holds { Holds (B.log table.new).held self.new (first.now ∷ later.now) }
        ensures others { OnlyJournalChanged self.old.object (B.log table.old).held
            (B.log table.new).held }
        ensures takes { TakesPlaces (whole_blocks (first.now ∷ later.now)) (B.log table.old)
            (B.log table.new) }
        ensures named { (B.log table.new).named ≡ (B.log table.old).named }
        ensures object { self.new.object ≡ self.old.object }
    {
        let stale = places(table, self.head());
        let chain = Chain::afresh(self.object(), table, first, later, bytes);
        drop_all(table, stale.as_slice());
        *self = chain;
    }

    /// Drops all of the chain's blocks.
    fn clear<B: Blocks>(&mut self, table: &mut B)
        requires { Holds (B.log table.old).held self.old
            (entries_held (B.log table.old).held self.old) }
        ensures holds { Holds (B.log table.new).held self.new [] }
        ensures others { OnlyJournalChanged self.old.object (B.log table.old).held
            (B.log table.new).held }
        ensures takes { TakesPlaces 0 (B.log table.old) (B.log table.new) }
        ensures named { (B.log table.new).named ≡ (B.log table.old).named }
        ensures object { self.new.object ≡ self.old.object }
    {
        let stale = places(table, self.head());
        let object = self.object();
        drop_all(table, stale.as_slice());
        *self = Chain::empty(object);
    }

    /// Writes the whole chain afresh with these entries, the oldest first, at most
    /// `CHAIN_ENTRY_BYTES` of them, and drops its old blocks.
    ///
    /// NoRoom exactly where fewer places are ahead than the new chain has blocks; then nothing has
    /// changed.
    pub fn rewrite<B: Blocks>(&mut self, table: &mut B, entries: &[Entry]) -> Result<(), Refusal>
        requires held { Holds (B.log table.old).held self.old
            (entries_held (B.log table.old).held self.old) }
        requires limit { entries_length entries.now ≤ CHAIN_ENTRY_BYTES }
        ensures holds { OnOk result (Holds (B.log table.new).held self.new entries.now) }
        ensures others { OnlyJournalChanged self.old.object (B.log table.old).held
            (B.log table.new).held }
        ensures takes { OnOk result
            (TakesPlaces (whole_blocks entries.now) (B.log table.old) (B.log table.new)) }
        ensures named { (B.log table.new).named ≡ (B.log table.old).named }
        ensures answer { MatchResult result
            (λ _. rewrite_refusal (B.log table.old).ahead entries.now ≡ None)
            (λ e. rewrite_refusal (B.log table.old).ahead entries.now ≡ Some e) }
        ensures object { self.new.object ≡ self.old.object }
        ensures unchanged { OnErr result
            ((B.log table.new ≡ B.log table.old) × (self.new ≡ self.old)) }
    {
        chains_are_short();
        let bytes = bytes_of(entries);
        let sizes: ArrayVec<usize, CHAIN_ENTRIES> = sizes_of(entries);
        if table.blocks_left() < blocks_needed(0, sizes.as_slice()) {
            return Err(Refusal::NoRoom);
        }
        let [first, later @ ..] = entries else {
            self.clear(table);
            return Ok(());
        };
        self.replace(table, first, later, bytes);
        Ok(())
    }
}
