//! The relocation of an object's blocks: its data blocks out of one frame, its checkpoint and its
//! journal.
ghost use Rattle.std.specs.Prelude.{◌≡◌, ◌⊎◌, ℕ, ◌<◌, ◌≤◌, ◌==◌, if◌then◌else◌, Some, IsSome};
ghost use Rattle.std.specs.Prelude.{IfSome, IfErr, OnOk, OnErr, MatchResult, length, option_map};
ghost use Rattle.s4_types.specs.declared.refusals.Refusal.TheVariants.{NoMemory, NoRoom};
ghost use Rattle.object_map.specs.Rows.{row_of};
ghost use Rattle.chain_rewriting.specs.Renaming.{renamed_inode};
ghost use Rattle.time_read.specs.Journals.{IsJournalOf};
ghost use Rattle.version_store.specs.Store.{fields_of, IsStore, pointers_named, pointers_of};
ghost use Rattle.version_store.specs.Versions.{inode_in, version_in};
ghost use Rattle.version_store.specs.Relocating.{AreCopies, IsRelocated, blocks_relocated};
ghost use Rattle.version_store.specs.Relocating.{renaming_by};
ghost use Rattle.version_store.specs.private.Relocating.{RelocatesIn};

use crate::copies::CopiedBlock;
use crate::data_blocks::pointers_by;
use crate::laws::{what_changes_rest_on, what_relocations_rest_on};
use crate::relocated_blocks::relocate_blocks;
use crate::row_places::names_by;
use crate::store::Store;
use block_log::Blocks;
use object_map::Row;
use row_changes::moved_blocks;
use s4_types::{ObjectId, Ptr, Refusal};
use time_read::{ObjectJournal, Present, index_of};

impl<B: Blocks> Store<B> {
    /// An object's blocks, whose journal and checkpoint these are, go to new places where there is
    /// room.
    fn put_relocation(
        &mut self,
        object: ObjectId,
        row: &Row,
        journal: &mut ObjectJournal,
        led: &[Option<Ptr>],
        names: &[Option<Ptr>],
        copies: &[CopiedBlock],
    )
        requires store { IsStore (fields_of B.log self.old) }
        requires row { row_of self.old.rows object ≡ Some row.now }
        requires journal { IsJournalOf (B.log self.old.table).held object row.now journal.old }
        requires led { led.now ≡ pointers_of (B.log self.old.table).held object row.now }
        requires names { names.now ≡ pointers_named (B.log self.old.table).held object row.now }
        requires copies { AreCopies (B.log self.old.table).held object copies.now }
        requires room { blocks_relocated (B.log self.old.table).held object row.now copies.now
            ≤ length (B.log self.old.table).ahead }
        ensures { RelocatesIn (fields_of B.log self.old) object row.now copies.now
            (fields_of B.log self.new) }
    {
        what_changes_rest_on();
        what_relocations_rest_on();
        let Some(mut inode) = self.present(object).copied() else {
            unreachable!()
        };
        let moved = relocate_blocks(&mut self.table, object, row, journal, led, names, copies);
        moved.renaming.rename_inode(&mut inode);
        let beside = Present {
            inode,
            index: index_of(self.alloc, journal.entries.as_slice()),
        };
        self.objects.change(object, &moved.row, beside);
    }

    /// [`Store::relocate`] of an object that has this row, where there is room.
    fn relocate_row(
        &mut self,
        object: ObjectId,
        row: &Row,
        copies: &[CopiedBlock],
    ) -> Result<(), Refusal>
        requires store { IsStore (fields_of B.log self.old) }
        requires row { row_of self.old.rows object ≡ Some row.now }
        requires copies { AreCopies (B.log self.old.table).held object copies.now }
        requires room { blocks_relocated (B.log self.old.table).held object row.now copies.now
            ≤ length (B.log self.old.table).ahead }
        ensures relocated { OnOk result
            (RelocatesIn (fields_of B.log self.old) object row.now copies.now
            (fields_of B.log self.new)) }
        ensures refusal { IfErr result (λ e. e ≡ NoMemory) }
        ensures unchanged { OnErr result (fields_of B.log self.new ≡ fields_of B.log self.old) }
    {
        let mut journal = ObjectJournal::read(self.alloc, &mut self.table, object, row)?;
        let entries = journal.entries.as_slice();
        let led = pointers_by(self.alloc, &mut self.table, object, row, entries)?;
        let names = names_by(self.alloc, &mut self.table, object, row, entries)?;
        self.put_relocation(
            object,
            row,
            &mut journal,
            led.as_slice(),
            names.as_slice(),
            copies,
        );
        Ok(())
    }

    /// An object's blocks go to new places: these copies of its data blocks in one frame, in their
    /// order, then its checkpoint, if it has one, and its whole journal, with each pointer to a
    /// copied block pointing to the copy. The blocks that were copied are dropped, and so are older
    /// checkpoints. With no copies the checkpoint and the journal alone are written anew.
    /// Checkpoint and entries keep their moments; the row is changed once more. Each version of
    /// each object is as it was, at every moment, and the moment of the last change stays.
    ///
    /// NoRoom exactly where fewer places are ahead than the copies, the checkpoint and the journal
    /// take; else NoMemory alone, where the memory for the entries or for the lists of their
    /// pointers is refused. Then nothing has changed. It takes time in proportion to the copies and
    /// the entries.
    pub fn relocate(&mut self, object: ObjectId, copies: &[CopiedBlock]) -> Result<(), Refusal>
        requires store { IsStore (fields_of B.log self.old) }
        requires some { IsSome (row_of self.old.rows object) }
        requires copies { AreCopies (B.log self.old.table).held object copies.now }
        ensures store { IsStore (fields_of B.log self.new) }
        ensures relocated { OnOk result
            (IfSome (row_of self.old.rows object)
            (λ row. IsRelocated (fields_of B.log self.old) object row copies.now
            (fields_of B.log self.new))) }
        ensures inodes { OnOk result ((q t : ℕ) → inode_in (fields_of B.log self.new) q t
            ≡ (if object == q then option_map (renamed_inode (renaming_by copies.now (B.log self.old.table).ahead)) (inode_in (fields_of B.log self.old) q t) else inode_in (fields_of B.log self.old) q t)) }
        ensures versions { OnOk result
            ((q t : ℕ)
            → version_in (fields_of B.log self.new) q t
            ≡ version_in (fields_of B.log self.old) q t) }
        ensures answer { IfSome (row_of self.old.rows object) (λ row. MatchResult result
            (λ _. blocks_relocated (B.log self.old.table).held object row copies.now
            ≤ length (B.log self.old.table).ahead)
            (λ e. ((e ≡ NoRoom) × (length (B.log self.old.table).ahead < blocks_relocated (B.log self.old.table).held object row copies.now))
            ⊎ ((e ≡ NoMemory) × (blocks_relocated (B.log self.old.table).held object row copies.now ≤ length (B.log self.old.table).ahead)))) }
        ensures unchanged { OnErr result (fields_of B.log self.new ≡ fields_of B.log self.old) }
    {
        let Some(row) = self.row(object) else {
            unreachable!()
        };
        let blocks = moved_blocks(&mut self.table, object, &row);
        let left = self.table.blocks_left();
        if left < blocks || left - blocks < copies.len() {
            return Err(Refusal::NoRoom);
        }
        self.relocate_row(object, &row, copies)
    }
}
