//! An object's present inode, with an index of its journal.
ghost use Rattle.std.specs.Prelude.{◌≡◌, ◌+◌, ◌^◌, ◌<◌, ◌++◌, List, [], ◌∷◌, IsSome, IfSome};
ghost use Rattle.codec.specs.Entry.{EntryFields};
ghost use Rattle.object_map.specs.Rows.{row_of};
ghost use Rattle.time_read.specs.Presents.{IsIndexOf, TurnsBeside};
ghost use Rattle.time_read.specs.Rows.{IsRow, entries_of, inode_of, last_inode};

use crate::inodes::inode_before;
use crate::undo_index::UndoIndex;
use block_log::Blocks;
use codec::{Entry, Inode};
use object_map::{ObjectMap, Row};
use s4_types::{Moment, ObjectId};
use std::alloc::Global;
use std::slice::from_ref;
use undo_redo::EntriesBetween;
use undo_redo::laws::entries_determine_a_run;

/// An object's present inode, and an index of what undoes the entries of its journal. Where the
/// index's growth was refused there is none, and the journal is walked.
#[derive(Drop)]
pub struct Present {
    pub inode: Inode,
    pub index: Option<UndoIndex>,
}

impl Present {
    /// Makes of an object's inode after all its entries the one at a moment, in its place: by the
    /// index of its entries, or where there is none by a walk of the journal. Takes no memory. No
    /// block is read but by such a walk.
    pub fn lead_back<B: Blocks>(
        &self,
        table: &mut B,
        object: ObjectId,
        row: &Row,
        at: Moment,
        inode: &mut Inode,
    )
        requires row { IsRow (B.log table.old).held object row.now }
        requires index { IsIndexOf self.now.index
            (entries_of (B.log table.old).held object row.now) }
        requires present { inode.old ≡ last_inode (B.log table.old).held object row.now }
        ensures inode { inode.new ≡ inode_of (B.log table.old).held object row.now at }
        ensures same { B.log table.new ≡ B.log table.old }
    {
        entries_determine_a_run();
        let Some(index) = &self.index else {
            *inode = inode_before(table, object, row, inode, at);
            return;
        };
        index.undo_past(at, inode);
    }
}

/// An index of these entries, and none where memory for it is refused.
pub fn index_of(alloc: Global, entries: &[Entry]) -> Option<UndoIndex>
    ensures { IsIndexOf result entries.now }
{
    let mut index = UndoIndex::new(alloc);
    match index.push(entries) {
        Ok(()) => Some(index),
        Err(_) => None,
    }
}

/// Appends to an index, if there is one, what undoes this entry. There is none any more where
/// memory for that is refused.
fn add_entry(index: &mut Option<UndoIndex>, entry: &Entry)
    ensures { (older : List EntryFields) → IsIndexOf index.old older
        → IsIndexOf index.new (older ++ entry.now ∷ []) }
{
    if let Some(undoings) = index {
        if undoings.push(from_ref(entry)).is_err() {
            *index = None;
        }
    }
}

/// Appends to an index, if there is one, what undoes these entries. There is none any more where
/// memory for that is refused.
fn lengthen(index: &mut Option<UndoIndex>, entries: &EntriesBetween<'_>)
    ensures { (older : List EntryFields) → IsIndexOf index.old older
        → IsIndexOf index.new (older ++ entries.now) }
{
    let (first, others) = entries.split_first();
    add_entry(index, first);
    for entry in others {
        add_entry(index, &entry);
    }
}

impl Present {
    /// The object has another inode, to which these entries lead.
    fn turn(&mut self, after: &Inode, entries: &EntriesBetween<'_>)
        ensures inode { self.new.inode ≡ after.now }
        ensures told { (older : List EntryFields)
            → IsIndexOf self.old.index older → IsIndexOf self.new.index (older ++ entries.now) }
    {
        self.inode = *after;
        lengthen(&mut self.index, entries);
    }
}

/// An object's row becomes this one, but for the stamp, which is one above the old row's; and what
/// is beside it is changed in its place: it has another inode, to which these entries lead. One
/// search of the map finds both.
pub fn turn_beside(
    objects: &mut ObjectMap<Present>,
    object: ObjectId,
    row: &Row,
    after: &Inode,
    entries: &EntriesBetween<'_>,
)
    requires there { IfSome (row_of objects.old.rows object) (λ old. old.stamp + 1 < 2 ^ 64) }
    requires some { IsSome (row_of objects.old.rows object) }
    ensures { IfSome (row_of objects.old.rows object) (λ old. TurnsBeside objects.old object (record row.now { stamp = old.stamp + 1 }) after.now entries.now objects.new) }
{
    let Some(present) = objects.change_in_place(object, row) else {
        unreachable!()
    };
    present.turn(after, entries);
}
