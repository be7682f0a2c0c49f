//! The removal of an object's row, and its replacement by one with another journal.
ghost use Rattle.std.specs.Prelude.{◌≡◌, ◌⊎◌, ℕ, ◌<◌, ◌≤◌, ◌==◌, if◌then◌else◌, None, Some, IsSome};
ghost use Rattle.std.specs.Prelude.{IfSome, IfOk, IfErr, OnOk, OnErr, MatchResult, length};
ghost use Rattle.s4_types.specs.declared.refusals.Refusal.TheVariants.{NoMemory, NoRoom};
ghost use Rattle.s4_types.specs.declared.versions.Version.TheVariants.{Absent};
ghost use Rattle.inode.specs.Contents.{contents_of, meaning};
ghost use Rattle.object_map.specs.Rows.{row_of};
ghost use Rattle.time_read.specs.Rows.{IsRow, entries_of};
ghost use Rattle.version_store.specs.Store.{fields_of, IsStore, pointers_named};
ghost use Rattle.version_store.specs.Versions.{entries_of_object, inode_in, version_in};
ghost use Rattle.version_store.specs.Replacing.{CanReplace, IsRemoved, IsReplaced, inode_led};
ghost use Rattle.version_store.specs.Replacing.{pointers_told};
ghost use Rattle.row_changes.specs.Rewritten.{rewritten_blocks};
ghost use Rattle.version_store.specs.private.Replacing.{Removes, Replaces};

use crate::data_blocks::{drop_all, pointers_told};
use crate::laws::what_changes_rest_on;
use crate::recounts::recount;
use crate::row_places::names_by;
use crate::store::Store;
use crate::store::checkpoints::last_entry;
use crate::written_anew::rewrite_blocks;
use block_log::Blocks;
use codec::{Entry, Inode};
use object_map::Row;
use row_changes::rewritten_blocks;
use s4_types::{ObjectId, Ptr, Refusal};
use time_read::{Present, index_of};

impl<B: Blocks> Store<B> {
    /// All pointers by which an object's row names data, by these entries, which are those of its
    /// journal.
    ///
    /// NoMemory alone, where the memory for them is refused.
    fn names(
        &mut self,
        object: ObjectId,
        row: &Row,
        entries: &[Entry],
    ) -> Result<Vec<Option<Ptr>>, Refusal>
        requires row { IsRow (B.log self.old.table).held object row.now }
        requires entries { entries.now ≡ entries_of (B.log self.old.table).held object row.now }
        ensures names { IfOk result
            (λ names. names.items ≡ pointers_named (B.log self.old.table).held object row.now) }
        ensures refusal { IfErr result (λ e. e ≡ NoMemory) }
        ensures same { fields_of B.log self.new ≡ fields_of B.log self.old }
    {
        names_by(self.alloc, &mut self.table, object, row, entries)
    }

    /// An object that has this row, which names its data by these pointers, has neither row nor
    /// block any more.
    fn forget(&mut self, object: ObjectId, row: &Row, pointers: &[Option<Ptr>])
        requires store { IsStore (fields_of B.log self.old) }
        requires row { row_of self.old.rows object ≡ Some row.now }
        requires pointers { pointers.now
            ≡ pointers_named (B.log self.old.table).held object row.now }
        ensures { Removes (fields_of B.log self.old) object (fields_of B.log self.new) }
    {
        what_changes_rest_on();
        drop_all(&mut self.table, object, row, pointers);
        self.objects.remove(object);
        self.cache.clear();
    }

    /// An object's row goes, if it has one, and with it its journal, its checkpoints and its data:
    /// no block of the object is held any more. All other objects are as they were, and no place is
    /// taken. Its entries are those of [`Store::entries`]: they tell which data goes, so that the
    /// journal isn't read again.
    ///
    /// NoMemory alone, where the memory for the list of its data blocks is refused; then nothing
    /// has changed.
    pub fn remove(&mut self, object: ObjectId, entries: &[Entry]) -> Result<(), Refusal>
        requires store { IsStore (fields_of B.log self.old) }
        requires entries { entries.now ≡ entries_of_object (fields_of B.log self.old) object }
        ensures store { IsStore (fields_of B.log self.new) }
        ensures removed { OnOk result
            (IsRemoved (fields_of B.log self.old) object (fields_of B.log self.new)) }
        ensures inodes { OnOk result
            ((q t : ℕ)
            → inode_in (fields_of B.log self.new) q t
            ≡ (if object == q then None else inode_in (fields_of B.log self.old) q t)) }
        ensures versions { OnOk result
            ((q t : ℕ)
            → version_in (fields_of B.log self.new) q t
            ≡ (if object == q then Absent else version_in (fields_of B.log self.old) q t)) }
        ensures refusal { IfErr result (λ e. e ≡ NoMemory) }
        ensures unchanged { OnErr result (fields_of B.log self.new ≡ fields_of B.log self.old) }
    {
        let Some(row) = self.row(object) else {
            return Ok(());
        };
        let pointers = self.names(object, &row, entries)?;
        self.forget(object, &row, pointers.as_slice());
        Ok(())
    }

    /// An object's data has the names of this inode and these entries, and no more those of its
    /// row, which leads to it by these pointers; and its journal and its checkpoint are written
    /// afresh, where there is room for them.
    fn put_replacement(
        &mut self,
        object: ObjectId,
        row: &Row,
        present: &Inode,
        entries: &[Entry],
        told: &[Option<Ptr>],
        pointers: &[Option<Ptr>],
    )
        requires store { IsStore (fields_of B.log self.old) }
        requires row { row_of self.old.rows object ≡ Some row.now }
        requires can { CanReplace (fields_of B.log self.old) object row.now present.now
            entries.now }
        requires told { told.now ≡ pointers_told present.now entries.now }
        requires pointers { pointers.now
            ≡ pointers_named (B.log self.old.table).held object row.now }
        requires room { rewritten_blocks present.now entries.now
            ≤ length (B.log self.old.table).ahead }
        ensures { Replaces (fields_of B.log self.old) object row.now present.now entries.now
            (fields_of B.log self.new) }
    {
        what_changes_rest_on();
        let moment = last_entry(&mut self.table, object, row);
        recount(&mut self.table, object, told, pointers);
        let next = rewrite_blocks(&mut self.table, object, row, present, moment, entries);
        self.table.names();
        let beside = Present {
            inode: *present,
            index: index_of(self.alloc, entries),
        };
        self.objects.change(object, &next, beside);
    }

    /// [`Store::replace`] of an object that has this row, where there is room.
    fn replace_row(
        &mut self,
        object: ObjectId,
        row: &Row,
        before: &[Entry],
        present: &Inode,
        entries: &[Entry],
    ) -> Result<(), Refusal>
        requires store { IsStore (fields_of B.log self.old) }
        requires row { row_of self.old.rows object ≡ Some row.now }
        requires before { before.now ≡ entries_of (B.log self.old.table).held object row.now }
        requires can { CanReplace (fields_of B.log self.old) object row.now present.now
            entries.now }
        requires room { rewritten_blocks present.now entries.now
            ≤ length (B.log self.old.table).ahead }
        ensures replaced { OnOk result
            (Replaces (fields_of B.log self.old) object row.now present.now entries.now
            (fields_of B.log self.new)) }
        ensures refusal { IfErr result (λ e. e ≡ NoMemory) }
        ensures unchanged { OnErr result (fields_of B.log self.new ≡ fields_of B.log self.old) }
    {
        let pointers = self.names(object, row, before)?;
        let told = pointers_told(self.alloc, present, entries)?;
        self.put_replacement(
            object,
            row,
            present,
            entries,
            told.as_slice(),
            pointers.as_slice(),
        );
        Ok(())
    }

    /// An object's journal, which has the entries `before`, becomes these entries, the oldest
    /// first, and its present inode this one, which is written as its checkpoint with the moment of
    /// the last entry that stood. Its older checkpoints, and its data blocks that nothing of the
    /// new row refers to, are dropped. So at each moment the object's inode is the one that the
    /// entries lead to, with the bytes that its blocks had. All other objects are as they were, and
    /// the moment of the last change stays.
    ///
    /// NoRoom exactly where fewer places are ahead than the checkpoint and the entries take; else
    /// NoMemory alone, where the memory for the list of data blocks is refused. Then nothing has
    /// changed. It takes time in proportion to the old entries and the new ones, and doesn't read
    /// the old ones again: `before` is what [`Store::entries`] gives.
    pub fn replace(
        &mut self,
        object: ObjectId,
        before: &[Entry],
        present: &Inode,
        entries: &[Entry],
    ) -> Result<(), Refusal>
        requires store { IsStore (fields_of B.log self.old) }
        requires some { IsSome (row_of self.old.rows object) }
        requires before { before.now ≡ entries_of_object (fields_of B.log self.old) object }
        requires can { IfSome (row_of self.old.rows object)
            (λ row. CanReplace (fields_of B.log self.old) object row present.now entries.now) }
        ensures store { IsStore (fields_of B.log self.new) }
        ensures replaced { OnOk result
            (IfSome (row_of self.old.rows object)
            (λ row. IsReplaced (fields_of B.log self.old) object row present.now entries.now
            (fields_of B.log self.new))) }
        ensures inodes { OnOk result
            ((q t : ℕ)
            → inode_in (fields_of B.log self.new) q t
            ≡ (if object == q then Some (inode_led present.now entries.now t)
            else inode_in (fields_of B.log self.old) q t)) }
        ensures versions { OnOk result ((q t : ℕ) → version_in (fields_of B.log self.new) q t
            ≡ (if object == q then meaning (contents_of (B.log self.old.table).held) (inode_led present.now entries.now t) else version_in (fields_of B.log self.old) q t)) }
        ensures answer { MatchResult result (λ _. rewritten_blocks present.now entries.now ≤ length (B.log self.old.table).ahead)
            (λ e. ((e ≡ NoRoom) × (length (B.log self.old.table).ahead < rewritten_blocks present.now entries.now))
            ⊎ ((e ≡ NoMemory) × (rewritten_blocks present.now entries.now ≤ length (B.log self.old.table).ahead))) }
        ensures unchanged { OnErr result (fields_of B.log self.new ≡ fields_of B.log self.old) }
    {
        if self.table.blocks_left() < rewritten_blocks(present, entries) {
            return Err(Refusal::NoRoom);
        }
        let Some(row) = self.row(object) else {
            unreachable!()
        };
        self.replace_row(object, &row, before, present, entries)
    }
}
