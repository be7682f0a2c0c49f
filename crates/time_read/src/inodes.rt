//! An object's journal entries, and its inode at a moment.
ghost use Rattle.std.specs.Prelude.{◌≡◌, ◌++◌, true, [], ◌∷◌, IsSome, IfSome, IfNone, IfOk, IfErr};
ghost use Rattle.s4_types.specs.declared.refusals.Refusal.TheVariants.{NoMemory};
ghost use Rattle.codec.specs.declared.inodes.Inode.{Inode as InodeFields};
ghost use Rattle.undo_redo.specs.Runs.{Run, AllPast, inode_after};
ghost use Rattle.undo_redo.specs.Groups.{grouped};
ghost use Rattle.journal_chain.specs.Back.{entries_left, left};
ghost use Rattle.time_read.specs.Rows.{IsRow, entries_of, inode_of, last_inode};

use block_log::Blocks;
use codec::{Entry, Inode};
use journal_chain::packing::laws::packing_keeps_the_rule;
use journal_chain::{Chain, EntriesBack};
use object_map::Row;
use s4_types::{Moment, ObjectId, Refusal};
use std::alloc::Global;
use undo_redo::laws::{entries_determine_a_run, groups_part_at_a_moment};
use undo_redo::undo;

/// All journal entries of an object, the oldest first.
///
/// NoMemory alone, where the memory for them is refused; it is asked for once.
#[tactic(auto, using(crate::proofs::Reading::few_bytes, crate::proofs::Reading::few_in_head, crate::proofs::Reading::chain_is_there))]
pub fn entries<B: Blocks>(
    alloc: Global,
    table: &mut B,
    object: ObjectId,
    row: &Row,
) -> Result<Vec<Entry>, Refusal>
    requires { IsRow (B.log table.old).held object row.now }
    ensures entries { IfOk result
        (λ entries. entries.items ≡ entries_of (B.log table.old).held object row.now) }
    ensures refusal { IfErr result (λ e. e ≡ NoMemory) }
    ensures same { B.log table.new ≡ B.log table.old }
{
    packing_keeps_the_rule();
    let chain = Chain::of(object, row.head, row.journal_bytes, row.head_bytes);
    chain.entries(alloc, table)
}

/// The newest entry that a reader has not given, where it is later than a moment.
fn next_past<B: Blocks>(back: &mut EntriesBack, table: &mut B, at: Moment) -> Option<Entry>
    requires there { IsSome (entries_left (B.log table.old).held back.old) }
    requires groups { grouped (left (B.log table.old).held back.old) ≡ true }
    ensures gives { IfSome result
        (λ e. (left (B.log table.old).held back.old
        ≡ left (B.log table.new).held back.new ++ e ∷ []) × AllPast at (e ∷ [])) }
    ensures end { IfNone result
        ((first last : InodeFields)
        → Run first (left (B.log table.old).held back.old) last
        → inode_after first (left (B.log table.old).held back.old) at ≡ last) }
    ensures there { IsSome (entries_left (B.log table.new).held back.new) }
    ensures same { B.log table.new ≡ B.log table.old }
{
    groups_part_at_a_moment();
    let entry = back.next(table)?;
    if entry.moment() <= at {
        return None;
    }
    Some(entry)
}

/// Undoes the entries that a reader has not given and that are later than a moment, the newest
/// first.
fn undo_past<B: Blocks>(back: &mut EntriesBack, table: &mut B, at: Moment, inode: &mut Inode)
    requires there { IsSome (entries_left (B.log table.old).held back.old) }
    requires groups { grouped (left (B.log table.old).held back.old) ≡ true }
    ensures inode { (first : InodeFields)
        → Run first (left (B.log table.old).held back.old) inode.old
        → inode.new ≡ inode_after first (left (B.log table.old).held back.old) at }
    ensures same { B.log table.new ≡ B.log table.old }
{
    groups_part_at_a_moment();
    while let Some(entry) = next_past(back, table, at) {
        undo(&entry, inode);
    }
}

/// The inode of an object that is current at a moment, led to from the present one, which all
/// entries have made: those later than the moment are undone, the newest first. No block before the
/// one with the newest entry that isn't later is read, and no memory is taken.
pub fn inode_before<B: Blocks>(
    table: &mut B,
    object: ObjectId,
    row: &Row,
    present: &Inode,
    at: Moment,
) -> Inode
    requires row { IsRow (B.log table.old).held object row.now }
    requires present { present.now ≡ last_inode (B.log table.old).held object row.now }
    ensures inode { result ≡ inode_of (B.log table.old).held object row.now at }
    ensures same { B.log table.new ≡ B.log table.old }
{
    packing_keeps_the_rule();
    entries_determine_a_run();
    let chain = Chain::of(object, row.head, row.journal_bytes, row.head_bytes);
    let mut back = chain.entries_back();
    let mut inode = *present;
    undo_past(&mut back, table, at, &mut inode);
    inode
}
