//! A change of an object, from the count of what it takes to its row.
ghost use Rattle.std.specs.Prelude.{◌≡◌, ◌⊎◌, ℕ, ◌+◌, ◌<◌, ◌≤◌, ◌==◌, ◌||◌, Some, None, IfOk};
ghost use Rattle.std.specs.Prelude.{IfSome, IfNone};
ghost use Rattle.std.specs.Prelude.{IfErr, OnOk, OnErr, MatchResult, is_some, length, take, drop};
ghost use Rattle.std.specs.Prelude.{sum};
ghost use Rattle.s4_types.specs.declared.changes.Change.TheVariants.{Create, Delete, Write};
ghost use Rattle.s4_types.specs.declared.changes.Change.TheVariants.{Truncate, SetAttr};
ghost use Rattle.s4_types.specs.declared.refusals.Refusal.TheVariants.{NoMemory};
ghost use Rattle.undo_redo.specs.Runs.{blank};
ghost use Rattle.undo_redo.specs.Between.{AreSameOutside, entries_between};
ghost use Rattle.object_map.specs.Rows.{row_of, with_row, fresh_row};
ghost use Rattle.version_store.specs.Store.{fields_of, IsStore};
ghost use Rattle.version_store.specs.Versions.{version_in, version_taken};
ghost use Rattle.version_store.specs.Costs.{subject_row, subject_inode, sizes_by, change_refusal};
ghost use Rattle.version_store.specs.Costs.{short_of};
ghost use Rattle.codec.specs.Entry.{entries_length};
ghost use Rattle.std.specs.List.{AllByRecursion};
ghost use Rattle.s4_types.specs.declared.limits.TheConstants.{JOURNAL_ENTRY_BYTES, OBJECT_BLOCKS};
ghost use Rattle.s4_model.specs.Effect.{object_of};
ghost use Rattle.version_store.specs.Taking.{Takes, RowChanges, AppendsBy};
ghost use Rattle.version_store.specs.private.Below.{ChangesStand};
ghost use Rattle.version_store.specs.private.Turning.{CanTake, CanTurn, Turns, IsTaken};
ghost use Rattle.version_store.specs.private.Turning.{blocks_turned};

use crate::costs::{bytes_of_entries, object_of};
use crate::laws::{changes_begin_with_the_present, what_changes_rest_on};
use crate::recounts::count_change;
use crate::store::Store;
use block_log::Blocks;
use codec::{Attribute, Inode};
use inode::{
    blocks_of_truncate, blocks_of_write, created, deleted, truncate, with_attribute, write,
};
use object_map::{Kept, Row};
use row_changes::record_change;
use s4_types::limits::{BLOCK_BYTES, OBJECT_BLOCKS};
use s4_types::{Change, Moment, ObjectId, Ptr, Refusal};
use time_read::{Present, UndoIndex, turn_beside};
use undo_redo::{EntriesBetween, blank};

/// An attribute of at most `ATTRIBUTE_BYTES`.
fn attribute_of(bytes: &[u8]) -> Attribute
    requires { length bytes.now ≤ 64 }
    ensures { result ≡ bytes.now }
{
    Attribute::new(bytes).unwrap()
}

/// The pointers of an inode to the blocks that were appended for it: this many from an index on.
fn appended(inode: &Inode, first: usize, count: usize) -> &[Option<Ptr>]
    requires { first + count ≤ length inode.now.pointers }
    ensures { result.now ≡ take count (drop first inode.now.pointers) }
{
    let pointers = &inode.pointers[..];
    &pointers[first..first + count]
}

/// A change of an object that nothing refuses any more: the row and the inode that it begins with,
/// and how many bytes its journal entries have. All is found and counted once.
#[derive(Drop)]
struct PlannedChange<'a> {
    row: &'a Row,
    inode: &'a Inode,
    bytes: usize,
}

impl<B: Blocks> Store<B> {
    /// The row and the present inode of an object, with which its change begins. None where it has
    /// no row: then a change at the moment begins with a fresh row and the blank inode.
    fn begins_with(&self, object: ObjectId, moment: Moment) -> Option<&Kept<Present>>
        ensures row { IfSome result
            (λ kept. kept.now.row ≡ subject_row (fields_of B.log self.now) object moment) }
        ensures inode { IfSome result
            (λ kept. kept.now.value.inode
            ≡ subject_inode (fields_of B.log self.now) object moment) }
        ensures none { IfNone result
            ((fresh_row moment ≡ subject_row (fields_of B.log self.now) object moment)
            × (blank moment ≡ subject_inode (fields_of B.log self.now) object moment)) }
    {
        changes_begin_with_the_present();
        let Some(kept) = self.objects.get(object) else {
            return None;
        };
        Some(kept)
    }

    /// How many bytes the journal entries of a change at a moment have, which begins with this row
    /// and this inode. ChainFull or NoSpace, where it is refused: NoSpace by the room less `least`.
    fn count(
        &self,
        change: &Change,
        row: &Row,
        inode: &Inode,
        moment: Moment,
        least: usize,
    ) -> Result<usize, Refusal>
        requires laws { ChangesStand }
        requires store { IsStore (fields_of B.log self.now) }
        requires takes { Takes (fields_of B.log self.now) change.now }
        requires row { row.now
            ≡ subject_row (fields_of B.log self.now) (object_of change.now) moment }
        requires inode { inode.now
            ≡ subject_inode (fields_of B.log self.now) (object_of change.now) moment }
        ensures bytes { IfOk result (λ bytes. bytes ≡ sum (sizes_by change.now inode.now)) }
        ensures fit { OnOk result
            (AllByRecursion (λ size. size ≤ JOURNAL_ENTRY_BYTES) (sizes_by change.now inode.now)) }
        ensures answer { MatchResult result
            (λ _. change_refusal (short_of least (fields_of B.log self.now)) change.now moment ≡ None)
            (λ e. change_refusal (short_of least (fields_of B.log self.now)) change.now moment
            ≡ Some e) }
        ensures free { OnOk result (change_refusal (fields_of B.log self.now) change.now moment ≡ None) }
    {
        let space = self.room().saturating_sub(least);
        bytes_of_entries(space, change, row, inode)
    }

    /// From a moment on an object has another inode: the entries that lead there are appended to
    /// its journal, and its row is changed. Only pointers in a range of indices differ. Data blocks
    /// that were appended for it have the names of these pointers, which go once the journal gives
    /// them names.
    fn turn(
        &mut self,
        object: ObjectId,
        plan: &PlannedChange<'_>,
        after: &Inode,
        first: usize,
        end: usize,
        hand: &[Option<Ptr>],
        moment: Moment,
    )
        requires laws { ChangesStand }
        requires can { CanTurn (fields_of B.log self.old) object plan.now.inode.now after.now hand.now
            moment }
        requires row { row_of self.old.rows object ≡ Some plan.now.row.now }
        requires bytes { plan.now.bytes
            ≡ entries_length (entries_between plan.now.inode.now after.now moment) }
        requires range { (first ≤ end) × (end ≤ OBJECT_BLOCKS) }
        requires same { AreSameOutside first end plan.now.inode.now after.now }
        ensures { Turns (fields_of B.log self.old) object moment after.now
            (blocks_turned (fields_of B.log self.old) object plan.now.inode.now after.now moment)
            (fields_of B.log self.new) }
    {
        let entries = EntriesBetween::within(plan.inode, after, first, end, moment);
        let next = record_change(
            &mut self.table,
            object,
            plan.row,
            plan.inode,
            after,
            moment,
            &entries,
            plan.bytes,
        );
        count_change(&mut self.table, object, &entries, hand);
        turn_beside(&mut self.objects, object, &next, after, &entries);
        self.latest = moment;
    }

    /// Takes a deletion.
    fn delete(&mut self, object: ObjectId, plan: &PlannedChange<'_>, moment: Moment)
        requires laws { ChangesStand }
        requires can { CanTake (fields_of B.log self.old) (Delete object) moment plan.now.inode.now }
        requires row { plan.now.row.now ≡ subject_row (fields_of B.log self.old) object moment }
        requires bytes { plan.now.bytes ≡ sum (sizes_by (Delete object) plan.now.inode.now) }
        ensures { IsTaken (fields_of B.log self.old) (Delete object) moment plan.now.inode.now
            (fields_of B.log self.new) }
    {
        let after = deleted(plan.inode);
        self.turn(object, plan, &after, 0, 0, &[], moment);
    }

    /// Takes a change of the attribute.
    fn set_attribute(
        &mut self,
        object: ObjectId,
        attribute: &[u8],
        plan: &PlannedChange<'_>,
        moment: Moment,
    )
        requires laws { ChangesStand }
        requires can { CanTake (fields_of B.log self.old) (SetAttr object attribute.now) moment
            plan.now.inode.now }
        requires row { plan.now.row.now ≡ subject_row (fields_of B.log self.old) object moment }
        requires bytes { plan.now.bytes
            ≡ sum (sizes_by (SetAttr object attribute.now) plan.now.inode.now) }
        ensures { IsTaken (fields_of B.log self.old) (SetAttr object attribute.now) moment
            plan.now.inode.now (fields_of B.log self.new) }
    {
        let attribute = attribute_of(attribute);
        let after = with_attribute(plan.inode, attribute, moment);
        self.turn(object, plan, &after, 0, 0, &[], moment);
    }

    /// Takes a write.
    fn write(
        &mut self,
        object: ObjectId,
        offset: u64,
        bytes: &[u8],
        plan: &PlannedChange<'_>,
        moment: Moment,
    )
        requires laws { ChangesStand }
        requires can { CanTake (fields_of B.log self.old) (Write object offset bytes.now) moment
            plan.now.inode.now }
        requires row { plan.now.row.now ≡ subject_row (fields_of B.log self.old) object moment }
        requires bytes { plan.now.bytes
            ≡ sum (sizes_by (Write object offset bytes.now) plan.now.inode.now) }
        ensures { IsTaken (fields_of B.log self.old) (Write object offset bytes.now) moment
            plan.now.inode.now (fields_of B.log self.new) }
    {
        let mut after = *plan.inode;
        write(
            &mut self.table,
            object,
            plan.inode,
            moment,
            offset,
            bytes,
            &mut after,
        );
        self.table.names();
        let first = offset as usize / BLOCK_BYTES;
        let count = blocks_of_write(offset, bytes.len());
        let hand = appended(&after, first, count);
        self.turn(object, plan, &after, first, first + count, hand, moment);
    }

    /// Takes a truncation.
    fn truncate(&mut self, object: ObjectId, size: u64, plan: &PlannedChange<'_>, moment: Moment)
        requires laws { ChangesStand }
        requires can { CanTake (fields_of B.log self.old) (Truncate object size) moment
            plan.now.inode.now }
        requires row { plan.now.row.now ≡ subject_row (fields_of B.log self.old) object moment }
        requires bytes { plan.now.bytes ≡ sum (sizes_by (Truncate object size) plan.now.inode.now) }
        ensures { IsTaken (fields_of B.log self.old) (Truncate object size) moment plan.now.inode.now
            (fields_of B.log self.new) }
    {
        let after = truncate(&mut self.table, object, plan.inode, moment, size as u32);
        self.table.names();
        let first = size as usize / BLOCK_BYTES;
        let hand = appended(&after, first, blocks_of_truncate(plan.inode, size as u32));
        self.turn(object, plan, &after, first, OBJECT_BLOCKS, hand, moment);
    }

    /// Gives an object its first row, and its inode beside it. NoMemory where they couldn't be
    /// stored; then nothing has changed.
    fn add_object(&mut self, object: ObjectId, first: &Inode, moment: Moment) -> Result<(), Refusal>
        requires laws { ChangesStand }
        requires none { row_of self.old.rows object ≡ None }
        requires first { first.now ≡ blank moment }
        ensures added { OnOk result
            ((q : ℕ)
            → row_of self.new.rows q
            ≡ with_row (row_of self.old.rows) object (fresh_row moment) q) }
        ensures same { OnOk result (fields_of B.log self.new ≡ record (fields_of B.log self.old) { rows = self.new.rows }) }
        ensures refusal { IfErr result (λ e. e ≡ NoMemory) }
        ensures unchanged { OnErr result (fields_of B.log self.new ≡ fields_of B.log self.old) }
    {
        let present = Present {
            inode: *first,
            index: Some(UndoIndex::new(self.alloc)),
        };
        self.objects.add(object, moment, present)?;
        Ok(())
    }

    /// Takes a creation. NoMemory where its row and its inode couldn't be stored; then nothing has
    /// changed.
    #[tactic(auto, using(crate::proofs::Across::above_has_none))]
    fn create(
        &mut self,
        object: ObjectId,
        attribute: &[u8],
        plan: &PlannedChange<'_>,
        moment: Moment,
    ) -> Result<(), Refusal>
        requires laws { ChangesStand }
        requires can { CanTake (fields_of B.log self.old) (Create object attribute.now) moment
            plan.now.inode.now }
        requires row { plan.now.row.now ≡ subject_row (fields_of B.log self.old) object moment }
        requires bytes { plan.now.bytes
            ≡ sum (sizes_by (Create object attribute.now) plan.now.inode.now) }
        ensures taken { OnOk result
            (IsTaken (fields_of B.log self.old) (Create object attribute.now) moment plan.now.inode.now
            (fields_of B.log self.new)) }
        ensures refusal { IfErr result (λ e. e ≡ NoMemory) }
        ensures unchanged { OnErr result (fields_of B.log self.new ≡ fields_of B.log self.old) }
    {
        let attribute = attribute_of(attribute);
        self.add_object(object, plan.inode, moment)?;
        let after = created(attribute, moment);
        self.turn(object, plan, &after, 0, 0, &[], moment);
        Ok(())
    }

    /// Takes a change that isn't refused. NoMemory of a creation alone, and then nothing has
    /// changed.
    #[tactic(auto, using(crate::proofs::Across::above_has_none))]
    fn perform(
        &mut self,
        change: &Change,
        plan: &PlannedChange<'_>,
        moment: Moment,
    ) -> Result<(), Refusal>
        requires laws { ChangesStand }
        requires can { CanTake (fields_of B.log self.old) change.now moment plan.now.inode.now }
        requires row { plan.now.row.now
            ≡ subject_row (fields_of B.log self.old) (object_of change.now) moment }
        requires bytes { plan.now.bytes ≡ sum (sizes_by change.now plan.now.inode.now) }
        ensures taken { OnOk result
            (IsTaken (fields_of B.log self.old) change.now moment plan.now.inode.now
            (fields_of B.log self.new)) }
        ensures refusal { IfErr result
            (λ e. (e ≡ NoMemory) × (row_of self.old.rows (object_of change.now) ≡ None)) }
        ensures unchanged { OnErr result (fields_of B.log self.new ≡ fields_of B.log self.old) }
    {
        match change {
            Change::Create { object, attribute } => {
                self.create(*object, attribute.as_slice(), plan, moment)?;
            }
            Change::Delete { object } => self.delete(*object, plan, moment),
            Change::Write {
                object,
                offset,
                bytes,
            } => self.write(*object, *offset, bytes.as_slice(), plan, moment),
            Change::Truncate { object, size } => self.truncate(*object, *size, plan, moment),
            Change::SetAttr { object, attribute } => {
                self.set_attribute(*object, attribute.as_slice(), plan, moment);
            }
            Change::SetWindow { .. } => unreachable!(),
            Change::Flush { .. } => unreachable!(),
            Change::FlushO { .. } => unreachable!(),
        }
        Ok(())
    }

    /// Takes a change that begins with this row and this inode, as [`Store::take`] says.
    fn take_from(
        &mut self,
        change: &Change,
        row: &Row,
        inode: &Inode,
        moment: Moment,
        least: usize,
    ) -> Result<(), Refusal>
        requires store { IsStore (fields_of B.log self.old) }
        requires later { self.old.latest < moment }
        requires takes { Takes (fields_of B.log self.old) change.now }
        requires row { row.now
            ≡ subject_row (fields_of B.log self.old) (object_of change.now) moment }
        requires inode { inode.now
            ≡ subject_inode (fields_of B.log self.old) (object_of change.now) moment }
        ensures taken { OnOk result
            (IsTaken (fields_of B.log self.old) change.now moment inode.now
            (fields_of B.log self.new)) }
        ensures answer { MatchResult result
            (λ _. change_refusal (short_of least (fields_of B.log self.old)) change.now moment ≡ None)
            (λ e. (e ≡ NoMemory)
            ⊎ (change_refusal (short_of least (fields_of B.log self.old)) change.now moment
            ≡ Some e)) }
        ensures memory { IfErr result
            (λ e. e ≡ NoMemory
            → (change_refusal (short_of least (fields_of B.log self.old)) change.now moment ≡ None)
            × (row_of self.old.rows (object_of change.now) ≡ None)) }
        ensures unchanged { OnErr result (fields_of B.log self.new ≡ fields_of B.log self.old) }
    {
        // Here alone: all that a change calls from here on has these laws as a premise.
        what_changes_rest_on();
        let bytes = self.count(change, row, inode, moment, least)?;
        let plan = PlannedChange { row, inode, bytes };
        self.perform(change, &plan, moment)
    }

    /// Takes a change of an object without a row, as [`Store::take`] says.
    fn take_first(&mut self, change: &Change, moment: Moment, least: usize) -> Result<(), Refusal>
        requires store { IsStore (fields_of B.log self.old) }
        requires later { self.old.latest < moment }
        requires takes { Takes (fields_of B.log self.old) change.now }
        requires row { fresh_row moment
            ≡ subject_row (fields_of B.log self.old) (object_of change.now) moment }
        requires inode { blank moment
            ≡ subject_inode (fields_of B.log self.old) (object_of change.now) moment }
        ensures taken { OnOk result
            (IsTaken (fields_of B.log self.old) change.now moment (blank moment)
            (fields_of B.log self.new)) }
        ensures answer { MatchResult result
            (λ _. change_refusal (short_of least (fields_of B.log self.old)) change.now moment ≡ None)
            (λ e. (e ≡ NoMemory)
            ⊎ (change_refusal (short_of least (fields_of B.log self.old)) change.now moment
            ≡ Some e)) }
        ensures memory { IfErr result
            (λ e. e ≡ NoMemory
            → (change_refusal (short_of least (fields_of B.log self.old)) change.now moment ≡ None)
            × (row_of self.old.rows (object_of change.now) ≡ None)) }
        ensures unchanged { OnErr result (fields_of B.log self.new ≡ fields_of B.log self.old) }
    {
        let row = Row::fresh(moment);
        let inode = blank(moment);
        self.take_from(change, &row, &inode, moment, least)
    }

    /// Takes a change of an object at a moment later than that of each change before; a creation is
    /// of an object whose number is above that of each object that has a row. From the moment on
    /// the object's version is what the model makes of it; the versions of all other moments and
    /// objects stay. Data blocks are appended by ascending index, and after them the journal's.
    ///
    /// ChainFull exactly where the journal's entries would have more than `CHAIN_ENTRY_BYTES`; else
    /// NoSpace exactly where the change appends more blocks than there is room for beside the
    /// reserve and `least` blocks more; else NoMemory where a creation's row and its inode couldn't be stored. Then nothing
    /// has changed.
    pub fn take(&mut self, change: &Change, moment: Moment, least: usize) -> Result<(), Refusal>
        requires store { IsStore (fields_of B.log self.old) }
        requires later { self.old.latest < moment }
        requires takes { Takes (fields_of B.log self.old) change.now }
        ensures store { IsStore (fields_of B.log self.new) }
        ensures taken { OnOk result
            ((o t : ℕ)
            → version_in (fields_of B.log self.new) o t
            ≡ version_taken (fields_of B.log self.old) change.now moment o t) }
        ensures latest { OnOk result (self.new.latest ≡ moment) }
        ensures rows { OnOk result
            ((o : ℕ)
            → is_some (row_of self.new.rows o)
            ≡ (is_some (row_of self.old.rows o) || o == object_of change.now)) }
        ensures row { OnOk result
            (RowChanges (fields_of B.log self.old) (object_of change.now) moment self.new.rows) }
        ensures blocks { OnOk result
            (AppendsBy (fields_of B.log self.old) change.now moment (B.log self.new.table)) }
        ensures answer { MatchResult result
            (λ _. change_refusal (short_of least (fields_of B.log self.old)) change.now moment ≡ None)
            (λ e. (e ≡ NoMemory)
            ⊎ (change_refusal (short_of least (fields_of B.log self.old)) change.now moment
            ≡ Some e)) }
        ensures memory { IfErr result
            (λ e. e ≡ NoMemory
            → (change_refusal (short_of least (fields_of B.log self.old)) change.now moment ≡ None)
            × (row_of self.old.rows (object_of change.now) ≡ None)) }
        ensures unchanged { OnErr result (fields_of B.log self.new ≡ fields_of B.log self.old) }
    {
        if let Some(kept) = self.begins_with(object_of(change), moment) {
            // Each is copied by a statement of its own, where it is needed: so no room is cleared
            // for it first.
            let row = kept.row;
            let inode = kept.value.inode;
            return self.take_from(change, &row, &inode, moment, least);
        }
        self.take_first(change, moment, least)
    }
}
