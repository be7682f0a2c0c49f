ghost use Rattle.std.specs.Prelude.{◌≡◌, ℕ, ◌-◌, ◌++◌, true, nat_le, if◌then◌else◌};
ghost use Rattle.block_log.specs.Taken.{TakesPlaces};
ghost use Rattle.undo_redo.specs.Between.{CanLead, entries_between};
ghost use Rattle.journal_chain.specs.Chain.{OnlyJournalChanged};
ghost use Rattle.codec.specs.Entry.{entries_length};
ghost use Rattle.journal_chain.specs.Push.{HasRoom, pushed_blocks};
ghost use Rattle.object_map.specs.Rows.{fresh_row};
ghost use Rattle.time_read.specs.Rows.{IsRow, chain_of, entries_of, inode_of};
ghost use Rattle.time_read.specs.Orderly.{IsOrderly};
ghost use Rattle.row_changes.specs.Recent.{IsBy};

use crate::laws::later_entries_join_a_row;
use block_log::Blocks;
use codec::Inode;
use journal_chain::Chain;
use object_map::Row;
use s4_types::{Moment, ObjectId};
use undo_redo::EntriesBetween;
use undo_redo::laws::the_entries_between_two_inodes;

/// Appends to an object's journal the entries that lead from its present inode to the next one, at
/// a moment, and answers its row after that. The row of an object that is made at the moment is
/// then in order, and one that was in order before the change of a live object stays so.
///
/// The entries' bytes were counted before, and there is room for them in the journal and the table.
pub fn record_change<B: Blocks>(
    table: &mut B,
    object: ObjectId,
    row: &Row,
    before: &Inode,
    after: &Inode,
    moment: Moment,
    entries: &EntriesBetween<'_>,
    bytes: usize,
) -> Row
    requires row { IsRow (B.log table.old).held object row.now }
    requires earlier { IsBy (B.log table.old).held object row.now (moment - 1) }
    requires before { before.now ≡ inode_of (B.log table.old).held object row.now (moment - 1) }
    requires lead { CanLead before.now after.now moment }
    requires told { entries.now ≡ entries_between before.now after.now moment }
    requires bytes { bytes ≡ entries_length entries.now }
    requires room { HasRoom (chain_of object row.now) (B.log table.old).ahead entries.now }
    ensures row { IsRow (B.log table.new).held object result }
    ensures latest { IsBy (B.log table.new).held object result moment }
    ensures inode { (t : ℕ)
        → inode_of (B.log table.new).held object result t
        ≡ (if nat_le moment t then after.now
        else inode_of (B.log table.old).held object row.now t) }
    ensures entries { entries_of (B.log table.new).held object result
        ≡ entries_of (B.log table.old).held object row.now
        ++ entries_between before.now after.now moment }
    ensures made { row.now ≡ fresh_row moment
        → IsOrderly (B.log table.new).held object result moment }
    ensures orderly { IsOrderly (B.log table.old).held object row.now (moment - 1)
        → before.now.alive ≡ true → IsOrderly (B.log table.new).held object result moment }
    ensures fields { result ≡ record row.now { head = result.head; journal_bytes = result.journal_bytes; head_bytes = result.head_bytes } }
    ensures others { OnlyJournalChanged object (B.log table.old).held (B.log table.new).held }
    ensures takes { TakesPlaces
        (pushed_blocks (chain_of object row.now) (entries_between before.now after.now moment))
        (B.log table.old) (B.log table.new) }
    ensures named { (B.log table.new).named ≡ (B.log table.old).named }
{
    later_entries_join_a_row();
    the_entries_between_two_inodes();
    let mut chain = Chain::of(object, row.head, row.journal_bytes, row.head_bytes);
    chain.push(table, entries, bytes);
    Row {
        head: chain.head(),
        journal_bytes: chain.bytes() as u16,
        head_bytes: chain.filled() as u16,
        ..*row
    }
}
