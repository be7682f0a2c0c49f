//! The objects of a drive that was saved.
ghost use Rattle.std.specs.Prelude.{◌≡◌, ℕ, Option, IfOk, IfErr};
ghost use Rattle.s4_types.specs.Pointer.{Place};
ghost use Rattle.s4_types.specs.declared.refusals.Refusal.TheVariants.{NoMemory};
ghost use Rattle.block_log.specs.Log.{Stored};
ghost use Rattle.time_read.specs.Rows.{entries_of, inode_of};
ghost use Rattle.version_store.specs.Opening.{IndexesEntries, FitsItsRow, numbers_opened};
ghost use Rattle.version_store.specs.Opening.{rows_opened, NumbersAscend};
ghost use Rattle.version_store.specs.private.Opening.{presents_opened};

use codec::{Entry, Inode};
use object_map::{ObjectMap, Row};
use s4_types::{ObjectId, Refusal};
use std::alloc::Global;
use std::marker::Model;
use time_read::{Present, index_of};

/// An object of a drive that was saved: its row, and what is beside it.
/// Contracts see its number, its row, its present inode, and what its index tells.
#[derive(Drop)]
pub struct OpenedObject {
    object: ObjectId,
    row: Row,
    present: Present,
}

impl Model for OpenedObject {
    ghost use Rattle.version_store.specs.Opening.{OpenedFields};

    ghost Value = { OpenedFields };

    ghost view = { λ x. record { object = x.object; row = x.row; inode = x.present.inode; index = x.present.index } };
}

impl OpenedObject {
    /// The object of a row, with its present inode and an index of its journal's entries. Where
    /// memory for the index is refused it has none, and the journal is read whenever an earlier
    /// inode is asked for.
    pub fn new(
        alloc: Global,
        object: ObjectId,
        row: &Row,
        present: &Inode,
        entries: &[Entry],
    ) -> Self
        ensures object { result.object ≡ object }
        ensures row { result.row ≡ row.now }
        ensures inode { result.inode ≡ present.now }
        ensures entries { IndexesEntries result entries.now }
        ensures fits { (held : Place → Option Stored) (latest : ℕ)
            → present.now ≡ inode_of held object row.now latest
            → entries.now ≡ entries_of held object row.now → FitsItsRow held latest result }
    {
        let present = Present {
            inode: *present,
            index: index_of(alloc, entries),
        };
        OpenedObject {
            object,
            row: *row,
            present,
        }
    }
}

/// A map of objects whose numbers ascend. NoMemory alone, where memory for it is refused.
pub(crate) fn map_of(
    alloc: Global,
    objects: Vec<OpenedObject>,
) -> Result<ObjectMap<Present>, Refusal>
    requires { NumbersAscend (numbers_opened objects.items) }
    ensures rows { IfOk result (λ map. map.rows ≡ rows_opened objects.items) }
    ensures values { IfOk result (λ map. map.values ≡ presents_opened objects.items) }
    ensures refusal { IfErr result (λ e. e ≡ NoMemory) }
{
    let mut map = ObjectMap::new(alloc);
    for opened in objects {
        let OpenedObject {
            object,
            row,
            present,
        } = opened;
        map.insert(object, &row, present)?;
    }
    Ok(map)
}
