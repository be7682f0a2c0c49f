//! What the moves of each object write.
ghost use Rattle.std.specs.Prelude.{◌≡◌, ◌≤◌, Some, IfOk, IfErr};
ghost use Rattle.s4_types.specs.declared.limits.TheConstants.{MOVE_BLOCKS};
ghost use Rattle.s4_types.specs.declared.refusals.Refusal.TheVariants.{NoMemory};
ghost use Rattle.object_map.specs.Rows.{row_of};
ghost use Rattle.drive.specs.Fields.{store_of};
ghost use Rattle.drive_compaction.specs.Choosing.{blocks_rewritten, written_by, AreCounts};

use drive::Drive;
use object_map::{ObjectMap, Row};
use row_changes::journal_blocks;
use s4_types::limits::MOVE_BLOCKS;
use s4_types::{ObjectId, Refusal};
use segment_copier::{Rewrites, checkpoint_size};
use segment_word::Naming;
use std::alloc::Global;

/// How many blocks are written of each object, as they were counted.
#[derive(Drop)]
pub(crate) struct Counts {
    counted: ObjectMap<usize>,
}

/// How many blocks are written of an object, as it was counted; no more than a move has are
/// answered.
fn count_in(counts: &ObjectMap<usize>, object: ObjectId) -> usize
    ensures count { result ≡ written_by counts.now.values object }
    ensures few { result ≤ MOVE_BLOCKS }
{
    match counts.get(object) {
        Some(kept) => kept.value.min(MOVE_BLOCKS),
        None => 0,
    }
}

impl<J: Naming> Rewrites<J> for Counts {
    ghost use Rattle.drive_compaction.specs.Choosing.{written_by};

    ghost written = { λ counts d. written_by counts.counted.values };

    fn blocks_of(&self, drive: &mut Drive<J>, object: ObjectId) -> usize {
        let _ = &drive;
        count_in(&self.counted, object)
    }
}

/// How many blocks the checkpoint of an object of this row, if it has one, and its journal are once
/// they are written anew.
///
/// NoMemory where the memory for its entries is refused.
fn blocks_of<J: Naming>(drive: &mut Drive<J>, object: ObjectId, row: &Row) -> Result<usize, Refusal>
    requires row { row_of drive.old.store.rows object ≡ Some row.now }
    ensures blocks { IfOk result (λ blocks. blocks ≡ blocks_rewritten (store_of drive.old) object) }
    ensures refusal { IfErr result (λ e. e ≡ NoMemory) }
    ensures ledger { drive.new.ledger ≡ drive.old.ledger }
    ensures store { store_of drive.new ≡ store_of drive.old }
{
    drive.rules();
    let checkpoint = checkpoint_size(drive, object, row);
    let entries = drive.entries(object)?;
    Ok(checkpoint + journal_blocks(entries.as_slice()))
}

/// Of each object that has a row how many blocks its checkpoint and its journal are once they are
/// written anew. The journals are read, each once.
///
/// NoMemory where the memory for the counts or for the entries of a journal is refused.
pub(crate) fn count_rows<J: Naming>(alloc: Global, drive: &mut Drive<J>) -> Result<Counts, Refusal>
    ensures counts { IfOk result (λ counts. AreCounts (store_of drive.old) counts.counted.values) }
    ensures refusal { IfErr result (λ e. e ≡ NoMemory) }
    ensures ledger { drive.new.ledger ≡ drive.old.ledger }
    ensures store { store_of drive.new ≡ store_of drive.old }
{
    drive.rules();
    let mut object = ObjectId::new(0);
    let mut counted = ObjectMap::new(alloc);
    while let Some(next) = drive.next_row(object) {
        let Some(row) = drive.row(next) else {
            unreachable!()
        };
        let count = blocks_of(drive, next, &row)?;
        counted.insert(next, &row, count)?;
        object = next;
    }
    Ok(Counts { counted })
}
