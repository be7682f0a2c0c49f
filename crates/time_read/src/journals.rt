//! All that an object's row refers to in its journal and its checkpoint.
ghost use Rattle.std.specs.Prelude.{◌≡◌, IfSome, IfOk, IfErr, true, option_map};
ghost use Rattle.s4_types.specs.declared.refusals.Refusal.TheVariants.{NoMemory};
ghost use Rattle.codec.specs.Checkpoint.{checkpoint_rules};
ghost use Rattle.time_read.specs.Journals.{IsJournalOf};
ghost use Rattle.time_read.specs.Rows.{IsRow, checkpoint_of};

use crate::inodes::entries;
use block_log::Blocks;
use checkpoint::laws::a_checkpoint_is_in_its_blocks;
use checkpoint::read_checkpoint;
use codec::{Entry, Inode};
use object_map::Row;
use s4_types::{ObjectId, Refusal};
use std::alloc::Global;

/// The inode in an object's checkpoint, if it has one, and the entries of its journal, the oldest
/// first.
#[derive(Drop)]
pub struct ObjectJournal {
    pub checkpoint: Option<Inode>,
    pub entries: Vec<Entry>,
}

/// The inode in the checkpoint that an object's row names, if it names one.
fn checkpoint_inode<B: Blocks>(table: &mut B, object: ObjectId, row: &Row) -> Option<Inode>
    requires { IsRow (B.log table.old).held object row.now }
    ensures inode { result
        ≡ option_map (λ c. c.inode) (checkpoint_of (B.log table.old).held object row.now) }
    ensures rules { IfSome (checkpoint_of (B.log table.old).held object row.now)
        (λ c. checkpoint_rules c ≡ true) }
    ensures same { B.log table.new ≡ B.log table.old }
{
    a_checkpoint_is_in_its_blocks();
    let place = row.checkpoint?;
    let checkpoint = read_checkpoint(table, object, place)?;
    Some(*checkpoint.inode())
}

impl ObjectJournal {
    /// Reads the checkpoint and the journal of an object's row.
    ///
    /// NoMemory alone, where the memory for the entries is refused; it is asked for once.
    pub fn read<B: Blocks>(
        alloc: Global,
        table: &mut B,
        object: ObjectId,
        row: &Row,
    ) -> Result<Self, Refusal>
        requires { IsRow (B.log table.old).held object row.now }
        ensures journal { IfOk result
            (λ journal. IsJournalOf (B.log table.old).held object row.now journal) }
        ensures refusal { IfErr result (λ e. e ≡ NoMemory) }
        ensures same { B.log table.new ≡ B.log table.old }
    {
        let checkpoint = checkpoint_inode(table, object, row);
        let entries = entries(alloc, table, object, row)?;
        Ok(ObjectJournal {
            checkpoint,
            entries,
        })
    }
}
