//! The removal of an object's row and the replacement of its journal, which leave the history and
//! every version that can be read, whatever they answer.
ghost use Rattle.std.specs.Prelude.{◌≡◌, ◌⊎◌, ℕ, ◌<◌, ◌≤◌, ◌==◌, if◌then◌else◌, None, Some, IsSome};
ghost use Rattle.std.specs.Prelude.{IfSome, IfErr, OnOk, OnErr, MatchResult, length};
ghost use Rattle.s4_types.specs.declared.refusals.Refusal.TheVariants.{NoMemory, NoRoom};
ghost use Rattle.s4_types.specs.declared.versions.Version.TheVariants.{Absent};
ghost use Rattle.inode.specs.Contents.{contents_of, meaning};
ghost use Rattle.object_map.specs.Rows.{row_of};
ghost use Rattle.row_changes.specs.Rewritten.{rewritten_blocks};
ghost use Rattle.version_store.specs.Replacing.{CanReplace, IsRemoved, IsReplaced, inode_led};
ghost use Rattle.version_store.specs.Versions.{entries_of_object, inode_in, version_in};
ghost use Rattle.drive.specs.Fields.{state_in, store_of};
ghost use Rattle.drive.specs.Keeping.{IsNeeded, KeepsVersions};

use crate::drive::Drive;
use codec::{Entry, Inode};
use s4_types::{ObjectId, Refusal};
use segment_word::Naming;

impl<J: Naming> Drive<J> {
    /// An object's row goes, if it has one, and with it its journal, its checkpoint and its data:
    /// no block of the object is held any more. The object is absent at each moment that can be
    /// read, and at the clock: so every version that can be read is as it was. All other objects
    /// are as they were at every moment, and no place is taken. Its entries are those of
    /// [`Drive::entries`]: they tell which data goes, so that the journal isn't read again.
    ///
    /// NoMemory alone, where the memory for the list of its data blocks is refused; then nothing
    /// has changed.
    pub fn remove(&mut self, object: ObjectId, entries: &[Entry]) -> Result<(), Refusal>
        requires entries { entries.now ≡ entries_of_object (store_of self.old) object }
        requires gone { (t : ℕ)
            → IsNeeded (state_in self.old) object t
            → version_in (store_of self.old) object t ≡ Absent }
        ensures removed { OnOk result (IsRemoved (store_of self.old) object (store_of self.new)) }
        ensures inodes { OnOk result
            ((q t : ℕ)
            → inode_in (store_of self.new) q t
            ≡ (if object == q then None else inode_in (store_of self.old) q t)) }
        ensures versions { OnOk result
            ((q t : ℕ)
            → version_in (store_of self.new) q t
            ≡ (if object == q then Absent else version_in (store_of self.old) q t)) }
        ensures refusal { IfErr result (λ e. e ≡ NoMemory) }
        ensures unchanged { OnErr result (store_of self.new ≡ store_of self.old) }
        ensures ledger { self.new.ledger ≡ self.old.ledger }
        ensures audit { self.new.audit ≡ self.old.audit }
        ensures needed { KeepsVersions (state_in self.old) (store_of self.old) (store_of self.new) }
    {
        self.store.remove(object, entries)
    }

    /// An object's journal, which has the entries `before`, becomes these entries, the oldest
    /// first, and its present inode this one, which is written as its checkpoint with the moment of
    /// the last entry that stood. Its older checkpoints go. Its data blocks that nothing of the new
    /// row points to are dropped. At each moment that can be read, and at the clock, the entries
    /// lead to the version that the object has: so every version that can be read is as it was. All
    /// other objects are as they were at every moment, and the moment of the last change stays.
    ///
    /// NoRoom exactly where fewer places are ahead than the checkpoint and the entries take; else
    /// NoMemory alone, where the memory for the lists of data blocks is refused. Then nothing has
    /// changed. It takes time in proportion to the old entries and the new ones, and doesn't read
    /// the old ones again: `before` is what [`Drive::entries`] gives.
    pub fn replace(
        &mut self,
        object: ObjectId,
        before: &[Entry],
        present: &Inode,
        entries: &[Entry],
    ) -> Result<(), Refusal>
        requires some { IsSome (row_of self.old.store.rows object) }
        requires before { before.now ≡ entries_of_object (store_of self.old) object }
        requires can { IfSome (row_of self.old.store.rows object)
            (λ row. CanReplace (store_of self.old) object row present.now entries.now) }
        requires stays { (t : ℕ)
            → IsNeeded (state_in self.old) object t
            → meaning (contents_of (store_of self.old).log.held)
            (inode_led present.now entries.now t)
            ≡ version_in (store_of self.old) object t }
        ensures replaced { OnOk result
            (IfSome (row_of self.old.store.rows object)
            (λ row. IsReplaced (store_of self.old) object row present.now entries.now
            (store_of self.new))) }
        ensures inodes { OnOk result
            ((q t : ℕ)
            → inode_in (store_of self.new) q t
            ≡ (if object == q then Some (inode_led present.now entries.now t)
            else inode_in (store_of self.old) q t)) }
        ensures versions { OnOk result ((q t : ℕ) → version_in (store_of self.new) q t
            ≡ (if object == q then meaning (contents_of (store_of self.old).log.held) (inode_led present.now entries.now t) else version_in (store_of self.old) q t)) }
        ensures answer { MatchResult result (λ _. rewritten_blocks present.now entries.now ≤ length (store_of self.old).log.ahead)
            (λ e. ((e ≡ NoRoom) × (length (store_of self.old).log.ahead < rewritten_blocks present.now entries.now))
            ⊎ ((e ≡ NoMemory) × (rewritten_blocks present.now entries.now ≤ length (store_of self.old).log.ahead))) }
        ensures unchanged { OnErr result (store_of self.new ≡ store_of self.old) }
        ensures ledger { self.new.ledger ≡ self.old.ledger }
        ensures audit { self.new.audit ≡ self.old.audit }
        ensures needed { KeepsVersions (state_in self.old) (store_of self.old) (store_of self.new) }
    {
        self.store.replace(object, before, present, entries)
    }
}
