//! The data blocks that pointers refer to: listed, and dropped with all else of an object.
ghost use Rattle.std.specs.Prelude.{◌≡◌, ◌<◌, ◌^◌, ◌++◌, None, IfOk, IfErr, OnOk};
ghost use Rattle.std.specs.List.{All};
ghost use Rattle.s4_types.specs.Pointer.{Place};
ghost use Rattle.s4_types.specs.declared.refusals.Refusal.TheVariants.{NoMemory};
ghost use Rattle.block_log.specs.declared.kinds.BlockKind.TheVariants.{Journal};
ghost use Rattle.block_log.specs.Log.{of_kind};
ghost use Rattle.block_log.specs.Taken.{TakesPlaces};
ghost use Rattle.journal_chain.specs.Chain.{OnlyJournalChanged};
ghost use Rattle.time_read.specs.Rows.{IsRow, checkpoint_of, entries_of};
ghost use Rattle.version_store.specs.Store.{IsLed, IsNamedBy, HasNothing, sides_of, sides_told};
ghost use Rattle.version_store.specs.Store.{pointers_kept, pointers_of};
ghost use Rattle.version_store.specs.Replacing.{OtherObjectsStay, pointers_told};
ghost use Rattle.version_store.specs.private.Recounting.{Uncounts};

use crate::recounts::recount;
use block_log::Blocks;
use checkpoint::laws::a_checkpoint_is_in_its_blocks;
use checkpoint::{drop_checkpoint, read_checkpoint};
use codec::{Entry, Inode};
use journal_chain::Chain;
use object_map::Row;
use row_changes::drop_sides;
use s4_types::{ObjectId, Ptr, Refusal};
use std::alloc::Global;
use time_read::laws::{a_row_is_its_own_blocks, a_row_tells_a_chain};

/// Adds both pointers of each triple of an entry.
fn add_sides(pointers: &mut Vec<Option<Ptr>>, entry: &Entry) -> Result<(), Refusal>
    ensures added { OnOk result
        (pointers.new.items ≡ pointers.old.items ++ sides_of entry.now.triples) }
    ensures refusal { IfErr result (λ e. e ≡ NoMemory) }
{
    for triple in entry.triples() {
        pointers.extend_from_slice(&[triple.before, triple.after])?;
    }
    Ok(())
}

/// Adds both pointers of each triple of entries, those of the first entry first.
fn add_told(pointers: &mut Vec<Option<Ptr>>, entries: &[Entry]) -> Result<(), Refusal>
    ensures added { OnOk result
        (pointers.new.items ≡ pointers.old.items ++ sides_told entries.now) }
    ensures refusal { IfErr result (λ e. e ≡ NoMemory) }
{
    for entry in entries {
        add_sides(pointers, entry)?;
    }
    Ok(())
}

/// The pointers of the checkpoint that a row names, and none where it names none.
fn pointers_kept<B: Blocks>(
    alloc: Global,
    table: &mut B,
    object: ObjectId,
    row: &Row,
) -> Result<Vec<Option<Ptr>>, Refusal>
    requires { IsRow (B.log table.old).held object row.now }
    ensures kept { IfOk result
        (λ kept. kept.items ≡ pointers_kept (checkpoint_of (B.log table.old).held object row.now)) }
    ensures refusal { IfErr result (λ e. e ≡ NoMemory) }
    ensures same { B.log table.new ≡ B.log table.old }
{
    a_checkpoint_is_in_its_blocks();
    let mut kept = Vec::new(alloc);
    let Some(place) = row.checkpoint else {
        return Ok(kept);
    };
    let Some(checkpoint) = read_checkpoint(table, object, place) else {
        return Ok(kept);
    };
    kept.extend_from_slice(&checkpoint.inode().pointers)?;
    Ok(kept)
}

/// All pointers to data that an object's row refers to, by these entries, which are those of its
/// journal.
///
/// NoMemory alone, where the memory for them is refused.
pub(crate) fn pointers_by<B: Blocks>(
    alloc: Global,
    table: &mut B,
    object: ObjectId,
    row: &Row,
    entries: &[Entry],
) -> Result<Vec<Option<Ptr>>, Refusal>
    requires row { IsRow (B.log table.old).held object row.now }
    requires entries { entries.now ≡ entries_of (B.log table.old).held object row.now }
    ensures pointers { IfOk result
        (λ pointers. pointers.items ≡ pointers_of (B.log table.old).held object row.now) }
    ensures refusal { IfErr result (λ e. e ≡ NoMemory) }
    ensures same { B.log table.new ≡ B.log table.old }
{
    let mut pointers = pointers_kept(alloc, table, object, row)?;
    add_told(&mut pointers, entries)?;
    Ok(pointers)
}

/// All pointers of an inode, and after them both sides of each triple of entries.
///
/// NoMemory alone, where the memory for them is refused.
pub(crate) fn pointers_told(
    alloc: Global,
    present: &Inode,
    entries: &[Entry],
) -> Result<Vec<Option<Ptr>>, Refusal>
    ensures told { IfOk result (λ told. told.items ≡ pointers_told present.now entries.now) }
    ensures refusal { IfErr result (λ e. e ≡ NoMemory) }
{
    let mut told = Vec::new(alloc);
    told.extend_from_slice(&present.pointers)?;
    add_told(&mut told, entries)?;
    Ok(told)
}

/// Drops the blocks of an object's journal.
fn drop_journal<B: Blocks>(table: &mut B, object: ObjectId, row: &Row)
    requires { IsRow (B.log table.old).held object row.now }
    ensures gone { (p : Place) → of_kind Journal object (B.log table.new).held p ≡ None }
    ensures others { OnlyJournalChanged object (B.log table.old).held (B.log table.new).held }
    ensures named { (B.log table.new).named ≡ (B.log table.old).named }
    ensures takes { TakesPlaces 0 (B.log table.old) (B.log table.new) }
{
    a_row_tells_a_chain();
    let mut chain = Chain::of(object, row.head, row.journal_bytes, row.head_bytes);
    let Ok(()) = chain.rewrite(table, &[]) else {
        unreachable!()
    };
}

/// Drops all blocks of an object, whose row names each of its data blocks by these pointers.
pub(crate) fn drop_all<B: Blocks>(
    table: &mut B,
    object: ObjectId,
    row: &Row,
    pointers: &[Option<Ptr>],
)
    requires row { IsRow (B.log table.old).held object row.now }
    requires led { All (IsLed (B.log table.old).held object) pointers.now }
    requires named { IsNamedBy object (B.log table.old) pointers.now }
    requires room { (p : Place) → (B.log table.old).named p < 2 ^ 32 }
    ensures nothing { HasNothing (B.log table.new).held object }
    ensures others { OtherObjectsStay object (B.log table.old).held (B.log table.new).held }
    ensures names { Uncounts (B.log table.old) (B.log table.new) object }
    ensures takes { TakesPlaces 0 (B.log table.old) (B.log table.new) }
{
    a_row_is_its_own_blocks();
    a_checkpoint_is_in_its_blocks();
    recount(table, object, &[], pointers);
    let bare = drop_sides(table, object, row);
    drop_journal(table, object, &bare);
    drop_checkpoint(table, object, bare.checkpoint);
    table.names();
}
