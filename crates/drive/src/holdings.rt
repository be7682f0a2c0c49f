//! What a drive holds, for the layers above it.
ghost use Rattle.std.specs.Prelude.{◌≡◌, ℕ, ◌<◌, ◌≤◌, length, None, MatchBool, IfSome, IfNone};
ghost use Rattle.std.specs.Prelude.{IfOk, IfErr, option_map};
ghost use Rattle.s4_types.specs.declared.refusals.Refusal.TheVariants.{NoMemory};
ghost use Rattle.std.specs.List.{AllByRecursion};
ghost use Rattle.s4_types.specs.declared.limits.TheConstants.{RUNS_IN_ALL};
ghost use Rattle.s4_model.specs.Audit.{AreAuditRows, audit_of};
ghost use Rattle.s4_model.specs.Visible.{IsSeenBetween, spans_of};
ghost use Rattle.s4_model.specs.Sound.{IsSound, IsOfGiven};
ghost use Rattle.window.specs.Chunks.{AllNumbered};
ghost use Rattle.window.specs.Runs.{Ascend, AllBeginFrom, AllEndBefore, AreFewInEachList};
ghost use Rattle.window.specs.Timeline.{CoverAlike};
ghost use Rattle.object_map.specs.Objects.{IsNextAbove};
ghost use Rattle.object_map.specs.Rows.{row_of};
ghost use Rattle.segment_table.specs.Counts.{place_at};
ghost use Rattle.segment_table.specs.Rules.{HasFramesInOrder};
ghost use Rattle.version_store.specs.Store.{IsStore};
ghost use Rattle.version_store.specs.Costs.{room};
ghost use Rattle.version_store.specs.Tallies.{named_below, AreTallies};
ghost use Rattle.version_store.specs.Versions.{entries_of_object, inode_in, distance_in};
ghost use Rattle.drive.specs.Fields.{history_of, state_in, store_of};
ghost use Rattle.drive.specs.Keeping.{DecodesWhereVisible};
ghost use Rattle.drive.specs.Opened.{NoneFrom};

use crate::drive::Drive;
use codec::{Entry, Inode};
use object_map::Row;
use s4_model::laws::the_audit_goes_on_row_by_row;
use s4_types::{AuditRows, Moment, ObjectId, Refusal, Span};
use segment_table::OverFrames;
use segment_word::Naming;
use version_store::laws::counts_are_of_rows;

impl<J: Naming> Drive<J> {
    /// Shows what always holds of a drive: at each moment that can be read, the blocks of each
    /// object decode to exactly the version that the history tells; that history begins with the
    /// drive's base and is sound; the frames are those of the table that `J` names, and in order;
    /// the objects are on their blocks, none was changed later than the clock, and no number that
    /// wasn't given has a row.
    pub fn rules(&self)
        ensures decodes { DecodesWhereVisible (store_of self.now) (state_in self.now) }
        ensures base { (history_of self.now).base ≡ J.base }
        ensures frames { HasFramesInOrder J.frames self.now.store.table }
        ensures sound { IsSound (state_in self.now) }
        ensures store { IsStore (store_of self.now) }
        ensures past { (store_of self.now).latest ≤ (state_in self.now).clock }
        ensures unborn { NoneFrom (state_in self.now).next (store_of self.now) }
    {
        let _ = &self.next;
        self.store.frame_rules();
    }

    /// The clock: the last moment given or seen.
    pub fn clock(&self) -> Moment
        ensures { result ≡ (state_in self.now).clock }
    {
        self.window.clock()
    }

    /// How many moments history reaches back from the clock.
    pub fn window(&self) -> u64
        ensures { result ≡ (state_in self.now).window }
    {
        self.window.window()
    }

    /// The floor: moments below it are lost.
    pub fn floor(&self) -> Moment
        ensures { result ≡ (state_in self.now).floor }
    {
        self.window.floor()
    }

    /// The number that the next object gets.
    pub fn next(&self) -> ObjectId
        ensures { result ≡ (state_in self.now).next }
    {
        self.next
    }

    /// How many blocks changes of objects may still append: the reserve is not theirs.
    pub fn room(&self) -> usize
        ensures { result ≡ room (store_of self.now) }
    {
        self.store.room()
    }

    /// The row of an object, if it has one.
    pub fn row(&self, object: ObjectId) -> Option<Row>
        ensures { result ≡ row_of self.now.store.rows object }
    {
        self.store.row(object)
    }

    /// The least object above this one that has a row.
    pub fn next_row(&self, object: ObjectId) -> Option<ObjectId>
        ensures some { IfSome result (λ next. IsNextAbove self.now.store.rows object next) }
        ensures none { IfNone result ((q : ℕ) → object < q → row_of self.now.store.rows q ≡ None) }
    {
        self.store.next_row(object)
    }

    /// The hidden moments that are saved, as runs: those of all objects under number 0, then those
    /// of each object, by number and first moment. They hide from the floor on what the history's
    /// spans do.
    ///
    /// NoMemory alone, where the memory for them is refused.
    pub fn spans(&self) -> Result<Vec<Span>, Refusal>
        ensures alike { IfOk result
            (λ spans. CoverAlike (state_in self.now).floor spans.items
            (spans_of (state_in self.now))) }
        ensures ordered { IfOk result (λ spans. Ascend spans.items) }
        ensures from_floor { IfOk result
            (λ spans. AllBeginFrom (state_in self.now).floor spans.items) }
        ensures past { IfOk result (λ spans. AllEndBefore (state_in self.now).clock spans.items) }
        ensures given { IfOk result
            (λ spans. AllByRecursion (IsOfGiven (state_in self.now).next) spans.items) }
        ensures numbered { IfOk result (λ spans. AllNumbered spans.items) }
        ensures few { IfOk result (λ spans. length spans.items ≤ RUNS_IN_ALL) }
        ensures few_in_each_list { IfOk result (λ spans. AreFewInEachList spans.items) }
        ensures refusal { IfErr result (λ e. e ≡ NoMemory) }
    {
        self.window.spans(self.alloc)
    }

    /// The rows of the audit, in memory of their own.
    ///
    /// NoMemory alone, where the memory for them is refused.
    pub fn audit_rows(&self) -> Result<AuditRows, Refusal>
        ensures rows { IfOk result (λ rows. rows ≡ audit_of (state_in self.now)) }
        ensures kept { IfOk result
            (AreAuditRows (state_in self.now).floor (state_in self.now).clock
            (state_in self.now).next) }
        ensures refusal { IfErr result (λ e. e ≡ NoMemory) }
    {
        the_audit_goes_on_row_by_row();
        let rows = self.audit.all_from(self.window.floor())?;
        Ok(rows)
    }

    /// Whether some moment of an object, of those from `first` to `last`, can be read.
    pub fn sees(&self, object: ObjectId, first: Moment, last: Moment) -> bool
        ensures { MatchBool result (IsSeenBetween (state_in self.now) object first last)
            (IsSeenBetween (state_in self.now) object first last → ⊥) }
    {
        self.window.sees(object, first, last)
    }

    /// The inode of an object at a moment, and none where it has no row. For a moment before the
    /// drive's last change, of whatever object, this object's later changes are undone, the newest
    /// first, by the index that is kept in memory: no block is read. Where memory for the index was
    /// refused, the inode is led to from the nearest checkpoint, as by [`Drive::inode_at_counted`],
    /// or where memory for that is refused too by a walk of the journal.
    pub fn inode_at(&mut self, object: ObjectId, at: Moment) -> Option<Inode>
        ensures inode { result ≡ inode_in (store_of self.old) object at }
        ensures ledger { self.new.ledger ≡ self.old.ledger }
        ensures store { store_of self.new ≡ store_of self.old }
    {
        self.store.inode_at(object, at)
    }

    /// The inode of an object at a moment, and how many entries of its journal were undone or
    /// redone for it: as many as lie between the moment's place in the journal and the nearest
    /// start, which is one of the checkpoints that the object's row names, or the blank inode
    /// before all entries where it names none. None exactly where the object has no row.
    ///
    /// NoMemory alone, where the memory for the entries is refused.
    pub fn inode_at_counted(
        &mut self,
        object: ObjectId,
        at: Moment,
    ) -> Result<Option<(Inode, u32)>, Refusal>
        ensures inode { IfOk result
            (λ found. option_map (λ pair. pair.0) found ≡ inode_in (store_of self.old) object at) }
        ensures count { IfOk result
            (λ found. option_map (λ pair. pair.1) found
            ≡ distance_in (store_of self.old) object at) }
        ensures refusal { IfErr result (λ e. e ≡ NoMemory) }
        ensures ledger { self.new.ledger ≡ self.old.ledger }
        ensures store { store_of self.new ≡ store_of self.old }
    {
        self.store.inode_at_counted(object, at)
    }

    /// How many places name a block of a frame, at the generation that the frame has: of a journal
    /// or a checkpoint one, of data as many as pointers of checkpoints and sides of triples refer
    /// to it. 0 where no row names it, and where there is no such frame or payload block.
    /// `OverFrames::held_count` tells how many blocks of a frame are held.
    ///
    /// It is a count that the table keeps: no block is read.
    pub fn places(&self, frame: u16, block: u8) -> u32
        ensures { result
            ≡ named_below (store_of self.now) (state_in self.now).next
            (place_at self.now.store.table frame block) }
    {
        counts_are_of_rows();
        self.rules();
        self.name_count(frame, block)
    }

    /// The same of all blocks, counted anew: 15 numbers for each frame, those of frame 0 first, and
    /// of each frame block 1 first. All journals and checkpoints are read, and nothing that the
    /// table counts: so it is a check of what [`Drive::places`] answers.
    ///
    /// NoMemory alone, where the memory for the numbers is refused, or that for what an object's
    /// row names.
    pub fn recount(&mut self) -> Result<Vec<u32>, Refusal>
        ensures tallies { IfOk result
            (λ tallies. AreTallies self.old.store.table (store_of self.old) (state_in self.old).next
            tallies.items) }
        ensures refusal { IfErr result (λ e. e ≡ NoMemory) }
        ensures ledger { self.new.ledger ≡ self.old.ledger }
        ensures store { store_of self.new ≡ store_of self.old }
    {
        self.rules();
        self.store.recount()
    }

    /// The journal entries of an object, the oldest first, and none where it has no row.
    ///
    /// NoMemory alone, where the memory for them is refused.
    pub fn entries(&mut self, object: ObjectId) -> Result<Vec<Entry>, Refusal>
        ensures entries { IfOk result
            (λ entries. entries.items ≡ entries_of_object (store_of self.old) object) }
        ensures refusal { IfErr result (λ e. e ≡ NoMemory) }
        ensures ledger { self.new.ledger ≡ self.old.ledger }
        ensures store { store_of self.new ≡ store_of self.old }
    {
        self.store.entries(object)
    }
}
