//! The checkpoint of an object: when it has to be written, and its writing.
ghost use Rattle.std.specs.Prelude.{◌≡◌, ℕ, true, false, None, Some, is_some, IfSome, IfNone, OnOk};
ghost use Rattle.std.specs.Prelude.{OnErr, MatchResult};
ghost use Rattle.undo_redo.specs.Runs.{AllBy};
ghost use Rattle.object_map.specs.Rows.{row_of};
ghost use Rattle.time_read.specs.Rows.{IsRow, entries_of};
ghost use Rattle.version_store.specs.Store.{fields_of, IsStore};
ghost use Rattle.version_store.specs.Versions.{inode_in, version_in};
ghost use Rattle.version_store.specs.Checkpointing.{last_entry, is_behind, checkpoint_refusal};
ghost use Rattle.version_store.specs.Checkpointing.{Checkpoints};
ghost use Rattle.version_store.specs.private.CheckpointSteps.{CanCheckpoint, Checkpointed};

use crate::laws::what_changes_rest_on;
use crate::recounts::{count_checkpoint, inode_gone};
use crate::store::Store;
use block_log::Blocks;
use checkpoint::checkpoint_blocks;
use codec::Inode;
use journal_chain::Chain;
use object_map::Row;
use row_changes::record_checkpoint;
use s4_types::{Moment, ObjectId, Refusal};
use time_read::laws::a_row_tells_a_chain;

/// The moment of an object's last journal entry, and 0 where it has none. It reads one block at
/// most.
pub(super) fn last_entry<B: Blocks>(table: &mut B, object: ObjectId, row: &Row) -> Moment
    requires { IsRow (B.log table.old).held object row.now }
    ensures moment { result ≡ last_entry (B.log table.old).held object row.now }
    ensures same { B.log table.new ≡ B.log table.old }
{
    a_row_tells_a_chain();
    let chain = Chain::of(object, row.head, row.journal_bytes, row.head_bytes);
    let mut back = chain.entries_back();
    match back.next(table) {
        Some(entry) => entry.moment(),
        None => Moment::new(0),
    }
}

impl<B: Blocks> Store<B> {
    /// The moment of the last entry of an object that has this row, where its checkpoint is older;
    /// else none.
    fn entry_past_checkpoint(&mut self, object: ObjectId, row: &Row) -> Option<Moment>
        requires store { IsStore (fields_of B.log self.old) }
        requires row { row_of self.old.rows object ≡ Some row.now }
        ensures moment { IfSome result
            (λ m. m ≡ last_entry (B.log self.old.table).held object row.now) }
        ensures behind { IfSome result
            (λ _. is_behind (B.log self.old.table).held object row.now ≡ true) }
        ensures none { IfNone result
            (is_behind (B.log self.old.table).held object row.now ≡ false) }
        ensures same { fields_of B.log self.new ≡ fields_of B.log self.old }
    {
        let moment = last_entry(&mut self.table, object, row);
        if row.checkpoint_moment < moment {
            Some(moment)
        } else {
            None
        }
    }

    /// Writes an object's inode as its newest checkpoint, with the moment of the last entry.
    fn put_checkpoint(&mut self, object: ObjectId, row: &Row, inode: &Inode, moment: Moment)
        requires { CanCheckpoint (fields_of B.log self.old) object row.now inode.now moment }
        ensures { Checkpointed (fields_of B.log self.old) object row.now
            (fields_of B.log self.new) }
    {
        what_changes_rest_on();
        let gone = inode_gone(&mut self.table, object, row);
        let Ok(next) = record_checkpoint(&mut self.table, object, row, inode, moment) else {
            unreachable!()
        };
        count_checkpoint(&mut self.table, object, inode, gone.as_ref());
        self.objects.change_row(object, &next);
    }

    /// Sees to it that an object's checkpoint isn't older than its last journal entry: where it is,
    /// the object's present inode is written as its checkpoint with the moment of that entry, which
    /// takes room; the one before is kept as the last of at most `SIDES` older ones, of which the
    /// first may be dropped for it. Else nothing is written. Each inode and each version is as it
    /// was, whatever is answered. An object that is deleted and has a row still is like any other.
    ///
    /// NoObject exactly where the object has no row; else NoSpace exactly where the checkpoint has
    /// to be written and takes more than the room beside the reserve. Then nothing has changed.
    pub fn checkpoint(&mut self, object: ObjectId) -> Result<(), Refusal>
        requires { IsStore (fields_of B.log self.old) }
        ensures store { IsStore (fields_of B.log self.new) }
        ensures versions { (o t : ℕ)
            → version_in (fields_of B.log self.new) o t
            ≡ version_in (fields_of B.log self.old) o t }
        ensures inodes { (o t : ℕ)
            → inode_in (fields_of B.log self.new) o t ≡ inode_in (fields_of B.log self.old) o t }
        ensures latest { self.new.latest ≡ self.old.latest }
        ensures rows { (o : ℕ)
            → is_some (row_of self.new.rows o) ≡ is_some (row_of self.old.rows o) }
        ensures checkpoint { OnOk result
            (Checkpoints (fields_of B.log self.old) object (fields_of B.log self.new)) }
        ensures current { OnOk result
            (IfSome (row_of self.new.rows object)
            (λ row. AllBy row.checkpoint_moment
            (entries_of (B.log self.new.table).held object row))) }
        ensures answer { MatchResult result (λ _. checkpoint_refusal (fields_of B.log self.old) object ≡ None)
            (λ e. checkpoint_refusal (fields_of B.log self.old) object ≡ Some e) }
        ensures unchanged { OnErr result (fields_of B.log self.new ≡ fields_of B.log self.old) }
    {
        what_changes_rest_on();
        let Some(row) = self.row(object) else {
            return Err(Refusal::NoObject);
        };
        let Some(moment) = self.entry_past_checkpoint(object, &row) else {
            return Ok(());
        };
        let Some(present) = self.present(object) else {
            unreachable!()
        };
        let inode = *present;
        if self.room() < checkpoint_blocks(&inode) {
            return Err(Refusal::NoSpace);
        }
        self.put_checkpoint(object, &row, &inode, moment);
        Ok(())
    }
}
