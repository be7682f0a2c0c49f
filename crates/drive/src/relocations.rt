//! The relocation of an object's blocks, which leaves the history and every version, whatever it
//! answers.
ghost use Rattle.std.specs.Prelude.{◌≡◌, ◌⊎◌, ℕ, ◌<◌, ◌≤◌, ◌==◌, if◌then◌else◌, IsSome, IfSome};
ghost use Rattle.std.specs.Prelude.{OnOk, OnErr, MatchResult, length, option_map};
ghost use Rattle.s4_types.specs.declared.refusals.Refusal.TheVariants.{NoMemory, NoRoom};
ghost use Rattle.object_map.specs.Rows.{row_of};
ghost use Rattle.chain_rewriting.specs.Renaming.{renamed_inode};
ghost use Rattle.version_store.specs.Relocating.{AreCopies, IsRelocated, blocks_relocated};
ghost use Rattle.version_store.specs.Relocating.{renaming_by};
ghost use Rattle.version_store.specs.Versions.{inode_in, version_in};
ghost use Rattle.drive.specs.Fields.{state_in, store_of};
ghost use Rattle.drive.specs.Keeping.{KeepsVersions};

use crate::drive::Drive;
use s4_types::{ObjectId, Refusal};
use segment_word::Naming;
use version_store::CopiedBlock;

impl<J: Naming> Drive<J> {
    /// An object's blocks go to new places: these copies of its data blocks in one frame, in their
    /// order, then its checkpoint, if it has one, and its whole journal, with each pointer to a
    /// copied block pointing to the copy. The blocks that were copied are dropped, and its older
    /// checkpoints go. With no copies the checkpoint and the journal alone are written anew.
    /// Checkpoint and entries keep their moments; the row is changed once more. Each version of
    /// each object is as it was, at every moment, and the moment of the last change stays.
    ///
    /// NoRoom exactly where fewer places are ahead than the copies, the checkpoint and the journal
    /// take; else NoMemory alone, where the memory for the entries or for the lists of their
    /// pointers is refused. Then nothing has changed. It takes time in proportion to the copies and
    /// the entries.
    pub fn relocate(&mut self, object: ObjectId, copies: &[CopiedBlock]) -> Result<(), Refusal>
        requires some { IsSome (row_of self.old.store.rows object) }
        requires copies { AreCopies (store_of self.old).log.held object copies.now }
        ensures relocated { OnOk result
            (IfSome (row_of self.old.store.rows object)
            (λ row. IsRelocated (store_of self.old) object row copies.now
            (store_of self.new))) }
        ensures inodes { OnOk result ((q t : ℕ) → inode_in (store_of self.new) q t
            ≡ (if object == q then option_map (renamed_inode (renaming_by copies.now (store_of self.old).log.ahead)) (inode_in (store_of self.old) q t) else inode_in (store_of self.old) q t)) }
        ensures versions { OnOk result
            ((q t : ℕ) → version_in (store_of self.new) q t ≡ version_in (store_of self.old) q t) }
        ensures answer { IfSome (row_of self.old.store.rows object) (λ row. MatchResult result
            (λ _. blocks_relocated (store_of self.old).log.held object row copies.now
            ≤ length (store_of self.old).log.ahead)
            (λ e. ((e ≡ NoRoom) × (length (store_of self.old).log.ahead < blocks_relocated (store_of self.old).log.held object row copies.now))
            ⊎ ((e ≡ NoMemory) × (blocks_relocated (store_of self.old).log.held object row copies.now ≤ length (store_of self.old).log.ahead)))) }
        ensures unchanged { OnErr result (store_of self.new ≡ store_of self.old) }
        ensures ledger { self.new.ledger ≡ self.old.ledger }
        ensures audit { self.new.audit ≡ self.old.audit }
        ensures needed { KeepsVersions (state_in self.old) (store_of self.old) (store_of self.new) }
    {
        self.store.relocate(object, copies)
    }
}
