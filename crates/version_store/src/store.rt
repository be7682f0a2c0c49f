//! A store of objects: made, looked at and read.
ghost use Rattle.std.specs.Prelude.{◌≡◌, ℕ, ◌+◌, ◌^◌, ◌≤◌, ◌<◌, Some, None, length};
ghost use Rattle.std.specs.Prelude.{IfSome, IfNone, IfOk, IfErr, option_copied, option_map};
ghost use Rattle.s4_types.specs.Pointer.{Place};
ghost use Rattle.s4_types.specs.declared.refusals.Refusal.TheVariants.{NoMemory};
ghost use Rattle.object_map.specs.Objects.{IsNextAbove};
ghost use Rattle.object_map.specs.Rows.{row_of};
ghost use Rattle.version_store.specs.Reading.{HasLive, IsUnread};
ghost use Rattle.version_store.specs.Store.{fields_of, IsStore};
ghost use Rattle.checkpoint.specs.declared.cache.TheConstants.{CACHED_INODES};
ghost use Rattle.version_store.specs.Versions.{entries_of_object, inode_in, distance_in};
ghost use Rattle.version_store.specs.Costs.{room};

mod changes;
mod checkpoints;
mod frames;
mod opening;
mod relocations;
mod replacements;
mod tallying;
mod upkeep;

use crate::laws::{an_object_has_an_inode_at_all_moments_or_at_none, what_reads_rest_on};
use crate::leading::{lead_back, lead_back_to_read};
use crate::readers::{Reader, read_live};
use block_log::Blocks;
use checkpoint::InodeCache;
use codec::{Entry, Inode};
use object_map::{ObjectMap, Row};
use s4_types::limits::RESERVE_BLOCKS;
use s4_types::{Moment, ObjectId, Refusal};
use std::alloc::Global;
use std::marker::Model;
use time_read::{Present, inode_at_counted};

/// The rows of all objects, and the table that their blocks are in.
pub struct Store<B: Blocks> {
    alloc: Global,
    // The present inode and an index of the journal are kept beside each row, so that neither a
    // change nor a read goes through a journal, unless memory for the index was refused. An inode
    // takes 2,400 bytes, its row some 200, the index's own part some 80, in a box of their own. At
    // most 15,180 objects can have a row, each with at least one block of 512 bytes in the table:
    // so at worst this takes six times the memory of the table's blocks, and the indexes' lists as
    // much as the journals at most, but for growth and attributes.
    objects: ObjectMap<Present>,
    table: B,
    // The moment of the last change, 0 where there was none.
    latest: Moment,
    // What is kept under a stamp that its row no longer has isn't looked at any more; a row that
    // goes takes all with it, since its stamps begin anew where its number is given once more.
    cache: InodeCache,
}

// Written by hand, so that an owner lets it go by one call.
impl<B: Blocks + Drop> Drop for Store<B> {
    fn drop(self) {
        let Store {
            alloc: _,
            objects: _,
            table: _,
            latest: _,
            cache: _,
        } = self;
    }
}

impl<B: Blocks> Model for Store<B> {
    ghost use Rattle.version_store.specs.Store.{StoreOf, fields_of};
    ghost use Rattle.version_store.specs.private.Beside.{IsBeside};

    ghost Value = { StoreOf B };

    ghost view = { λ s. record { rows = s.objects.rows; table = s.table; latest = s.latest } };

    ghost invariant = { λ s. IsBeside s.objects.values s.cache.pairs (fields_of B.log (record { rows = s.objects.rows; table = s.table; latest = s.latest })) };
}

impl<B: Blocks> Store<B> {
    /// A store without objects, over a table that holds no block; places of it that were taken and
    /// those ahead are fewer than 2^46. It keeps the inodes of at most `inodes` checkpoints in
    /// memory, 1 to `CACHED_INODES`.
    ///
    /// NoMemory alone, where the memory for these is refused; the table is let go then.
    #[tactic(auto, using(crate::proofs::Cached::none_true))]
    pub fn new(alloc: Global, table: B, inodes: usize) -> Result<Self, Refusal>
    where
        B: Drop,
        requires some { 0 < inodes }
        requires few { inodes ≤ CACHED_INODES }
        requires nothing { (p : Place) → (B.log table).held p ≡ None }
        requires bounded { (B.log table).spent + length (B.log table).ahead < 2 ^ 46 }
        ensures store { IfOk result (λ s. IsStore (fields_of B.log s)) }
        ensures empty { IfOk result (λ s. (o : ℕ) → row_of s.rows o ≡ None) }
        ensures log { IfOk result (λ s. B.log s.table ≡ B.log table) }
        ensures latest { IfOk result (λ s. s.latest ≡ 0) }
        ensures refusal { IfErr result (λ e. e ≡ NoMemory) }
    {
        table.names();
        let cache = InodeCache::new(alloc, inodes)?;
        Ok(Store {
            alloc,
            objects: ObjectMap::new(alloc),
            table,
            latest: Moment::new(0),
            cache,
        })
    }

    /// The moment of the last change, and 0 where there was none.
    pub fn latest(&self) -> Moment
        ensures { result ≡ self.now.latest }
    {
        self.latest
    }

    /// How many blocks changes of objects may still append: the reserve is not theirs.
    pub fn room(&self) -> usize
        ensures { result ≡ room (fields_of B.log self.now) }
    {
        self.table.blocks_left().saturating_sub(RESERVE_BLOCKS)
    }

    /// The row of an object, if it has one.
    pub fn row(&self, object: ObjectId) -> Option<Row>
        ensures { result ≡ row_of self.now.rows object }
    {
        let kept = self.objects.get(object)?;
        Some(kept.row)
    }

    /// The least object above this one that has a row.
    pub fn next_row(&self, object: ObjectId) -> Option<ObjectId>
        ensures some { IfSome result (λ next. IsNextAbove self.now.rows object next) }
        ensures none { IfNone result ((q : ℕ) → object < q → row_of self.now.rows q ≡ None) }
    {
        self.objects.next_above(object)
    }

    /// The present inode of an object, and none where it has no row. It is kept beside the row: no
    /// journal is walked.
    pub fn present(&self, object: ObjectId) -> Option<&Inode>
        ensures { option_copied result
            ≡ inode_in (fields_of B.log self.now) object self.now.latest }
    {
        let kept = self.objects.get(object)?;
        Some(&kept.value.inode)
    }

    /// The inode of an object at a moment, and none where it has no row: the present one, led back.
    pub fn inode_at(&mut self, object: ObjectId, at: Moment) -> Option<Inode>
        requires { IsStore (fields_of B.log self.old) }
        ensures inode { result ≡ inode_in (fields_of B.log self.old) object at }
        ensures same { fields_of B.log self.new ≡ fields_of B.log self.old }
    {
        an_object_has_an_inode_at_all_moments_or_at_none();
        let mut inode = *self.present(object)?;
        self.lead_back(object, at, &mut inode);
        Some(inode)
    }

    /// Makes of an object's present inode the one at a moment, in its place. For a moment before
    /// the store's last change, of whatever object, the object's later changes are undone, the
    /// newest first, by the index: that takes no memory, and no block is read. Where memory for the
    /// index was refused, the inode is led to from the nearest checkpoint, or where memory for that
    /// is refused too by a walk of the journal.
    fn lead_back(&mut self, object: ObjectId, at: Moment, inode: &mut Inode)
        requires store { IsStore (fields_of B.log self.old) }
        requires present { inode_in (fields_of B.log self.old) object self.old.latest
            ≡ Some inode.old }
        ensures inode { inode_in (fields_of B.log self.old) object at ≡ Some inode.new }
        ensures same { fields_of B.log self.new ≡ fields_of B.log self.old }
    {
        what_reads_rest_on();
        if self.latest <= at {
            return;
        }
        let Some(kept) = self.objects.get(object) else {
            unreachable!()
        };
        lead_back(
            self.alloc,
            &mut self.table,
            &mut self.cache,
            object,
            kept,
            at,
            inode,
        );
    }

    /// The inode of an object at a moment, and how many entries of its journal were undone or
    /// redone for it: as many as lie between the moment's place in the journal and the nearest
    /// start, which is one of the checkpoints that its row names, or the blank inode before all
    /// entries where it names none. None exactly where the object has no row.
    ///
    /// The journal is read whole, and the checkpoint, but for the newest one where its inode was
    /// kept in memory when it was read before. NoMemory alone, where the memory for the entries is
    /// refused.
    pub fn inode_at_counted(
        &mut self,
        object: ObjectId,
        at: Moment,
    ) -> Result<Option<(Inode, u32)>, Refusal>
        requires { IsStore (fields_of B.log self.old) }
        ensures inode { IfOk result
            (λ found. option_map (λ pair. pair.0) found
            ≡ inode_in (fields_of B.log self.old) object at) }
        ensures count { IfOk result
            (λ found. option_map (λ pair. pair.1) found
            ≡ distance_in (fields_of B.log self.old) object at) }
        ensures refusal { IfErr result (λ e. e ≡ NoMemory) }
        ensures same { fields_of B.log self.new ≡ fields_of B.log self.old }
    {
        let Some(row) = self.row(object) else {
            return Ok(None);
        };
        let found = inode_at_counted(
            self.alloc,
            &mut self.table,
            &mut self.cache,
            object,
            &row,
            at,
        )?;
        Ok(Some(found))
    }

    /// The journal entries of an object, the oldest first, and none where it has no row.
    ///
    /// NoMemory alone, where the memory for them is refused.
    pub fn entries(&mut self, object: ObjectId) -> Result<Vec<Entry>, Refusal>
        requires { IsStore (fields_of B.log self.old) }
        ensures entries { IfOk result
            (λ entries. entries.items ≡ entries_of_object (fields_of B.log self.old) object) }
        ensures refusal { IfErr result (λ e. e ≡ NoMemory) }
        ensures same { fields_of B.log self.new ≡ fields_of B.log self.old }
    {
        let Some(row) = self.row(object) else {
            return Ok(Vec::new(self.alloc));
        };
        time_read::entries(self.alloc, &mut self.table, object, &row)
    }

    /// What a reader has of an object by its inode at a moment: from the store's last change on by
    /// the present one, which isn't copied; else by a copy that is led back.
    ///
    /// NoObject where the object isn't there then; else what the reader is refused for.
    pub fn read_at<R: Reader<B>>(
        &mut self,
        object: ObjectId,
        at: Moment,
        reader: R,
    ) -> Result<R::Read, Refusal>
        requires { IsStore (fields_of B.log self.old) }
        ensures reads { IfOk result
            (λ read. HasLive (fields_of B.log self.old) object at
            (λ inode. R.reads reader self.new.table inode read)) }
        ensures refused { IfErr result
            (λ e. IsUnread (fields_of B.log self.old) object at
            (λ inode. R.refuses reader self.new.table inode e) e) }
        ensures same { fields_of B.log self.new ≡ fields_of B.log self.old }
    {
        what_reads_rest_on();
        let Some(kept) = self.objects.get(object) else {
            return Err(Refusal::NoObject);
        };
        if self.latest <= at {
            return read_live(self.alloc, &mut self.table, &kept.value.inode, reader);
        }
        let needed = reader.needed();
        let mut inode = kept.value.inode;
        lead_back_to_read(
            self.alloc,
            &mut self.table,
            &mut self.cache,
            object,
            kept,
            at,
            needed,
            &mut inode,
        );
        read_live(self.alloc, &mut self.table, &inode, reader)
    }
}
