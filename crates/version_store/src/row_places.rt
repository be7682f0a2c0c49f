//! How often the row of an object names each place: by its journal, its checkpoints and its data,
//! all of which are read.
ghost use Rattle.std.specs.Prelude.{◌≡◌, ℕ, ◌+◌, ◌^◌, ◌<◌, ◌++◌, [], ◌∷◌, length, map};
ghost use Rattle.std.specs.Prelude.{slice_index_or, Some, IfSome, IfOk, IfErr, OnOk};
ghost use Rattle.std.specs.List.{All};
ghost use Rattle.s4_types.specs.declared.refusals.Refusal.TheVariants.{NoMemory};
ghost use Rattle.block_log.specs.declared.kinds.BlockKind.TheVariants.{Journal};
ghost use Rattle.block_log.specs.Log.{of_kind};
ghost use Rattle.checkpoint.specs.Held.{checkpoint_held, of_checkpoints, HasItsBlocks};
ghost use Rattle.journal_chain.specs.Chain.{chain_places};
ghost use Rattle.time_read.specs.Rows.{entries_of, IsRow, all_places_of, checkpoint_places_of};
ghost use Rattle.time_read.specs.Rows.{side_places};
ghost use Rattle.version_store.specs.Store.{pointers_kept, pointers_named, pointers_of_sides};
ghost use Rattle.version_store.specs.private.Tallying.{pointers_to, number_of, times_on, IsWithin};
ghost use Rattle.version_store.specs.private.Tallying.{Grows};

use crate::data_blocks::pointers_by;
use block_log::Blocks;
use checkpoint::laws::a_checkpoint_is_in_its_blocks;
use checkpoint::{add_places, read_checkpoint};
use codec::Entry;
use journal_chain::Chain;
use object_map::{Row, Side};
use s4_types::limits::PAYLOAD_BLOCKS;
use s4_types::{ObjectId, Ptr, Refusal};
use std::alloc::Global;
use time_read::laws::a_row_tells_a_chain;

/// Adds the places of the blocks of an object's journal, the newest first.
fn add_journal<B: Blocks>(
    table: &mut B,
    object: ObjectId,
    row: &Row,
    pointers: &mut Vec<Option<Ptr>>,
) -> Result<(), Refusal>
    requires { IsRow (B.log table.old).held object row.now }
    ensures added { OnOk result
        (pointers.new.items
        ≡ pointers.old.items
        ++ map Some
        (chain_places (of_kind Journal object (B.log table.old).held) object
        row.now.head)) }
    ensures refusal { IfErr result (λ e. e ≡ NoMemory) }
    ensures same { B.log table.new ≡ B.log table.old }
{
    a_row_tells_a_chain();
    let chain = Chain::of(object, row.head, row.journal_bytes, row.head_bytes);
    chain.add_places(table, pointers)
}

/// Adds the places of the blocks of an object's newest checkpoint, if it has one.
fn add_newest<B: Blocks>(
    table: &mut B,
    object: ObjectId,
    row: &Row,
    pointers: &mut Vec<Option<Ptr>>,
) -> Result<(), Refusal>
    requires { HasItsBlocks (B.log table.old).held object row.now.checkpoint }
    ensures added { OnOk result
        (pointers.new.items
        ≡ pointers.old.items
        ++ map Some (checkpoint_places_of (B.log table.old).held object row.now)) }
    ensures refusal { IfErr result (λ e. e ≡ NoMemory) }
    ensures same { B.log table.new ≡ B.log table.old }
{
    let Some(place) = row.checkpoint else {
        return Ok(());
    };
    add_places(table, object, place, pointers)
}

/// Adds the places of the blocks of an object's older checkpoints, those of the oldest first.
fn add_older<B: Blocks>(
    table: &mut B,
    object: ObjectId,
    sides: &[Side],
    pointers: &mut Vec<Option<Ptr>>,
) -> Result<(), Refusal>
    requires { All (λ side. HasItsBlocks (B.log table.old).held object (Some side.place))
        sides.now }
    ensures added { OnOk result
        (pointers.new.items
        ≡ pointers.old.items
        ++ map Some
        (side_places (of_checkpoints object (B.log table.old).held) sides.now)) }
    ensures refusal { IfErr result (λ e. e ≡ NoMemory) }
    ensures same { B.log table.new ≡ B.log table.old }
{
    for side in sides {
        add_places(table, object, side.place, pointers)?;
    }
    Ok(())
}

/// Adds the pointers of an object's older checkpoint.
fn add_side<B: Blocks>(
    table: &mut B,
    object: ObjectId,
    side: &Side,
    pointers: &mut Vec<Option<Ptr>>,
) -> Result<(), Refusal>
    requires { HasItsBlocks (B.log table.old).held object (Some side.now.place) }
    ensures added { OnOk result
        (pointers.new.items
        ≡ pointers.old.items
        ++ pointers_kept (checkpoint_held (B.log table.old).held object side.now.place)) }
    ensures refusal { IfErr result (λ e. e ≡ NoMemory) }
    ensures same { B.log table.new ≡ B.log table.old }
{
    let Some(checkpoint) = read_checkpoint(table, object, side.place) else {
        return Ok(());
    };
    pointers.extend_from_slice(&checkpoint.inode().pointers)?;
    Ok(())
}

/// Adds the pointers of an object's older checkpoints, those of the oldest first.
fn add_aside<B: Blocks>(
    table: &mut B,
    object: ObjectId,
    sides: &[Side],
    pointers: &mut Vec<Option<Ptr>>,
) -> Result<(), Refusal>
    requires { All (λ side. HasItsBlocks (B.log table.old).held object (Some side.place))
        sides.now }
    ensures added { OnOk result
        (pointers.new.items
        ≡ pointers.old.items ++ pointers_of_sides (B.log table.old).held object sides.now) }
    ensures refusal { IfErr result (λ e. e ≡ NoMemory) }
    ensures same { B.log table.new ≡ B.log table.old }
{
    for side in sides {
        add_side(table, object, side, pointers)?;
    }
    Ok(())
}

/// All pointers by which an object's row names data, by these entries, which are those of its
/// journal.
///
/// NoMemory alone, where the memory for them is refused.
pub(crate) fn names_by<B: Blocks>(
    alloc: Global,
    table: &mut B,
    object: ObjectId,
    row: &Row,
    entries: &[Entry],
) -> Result<Vec<Option<Ptr>>, Refusal>
    requires row { IsRow (B.log table.old).held object row.now }
    requires entries { entries.now ≡ entries_of (B.log table.old).held object row.now }
    ensures names { IfOk result
        (λ names. names.items ≡ pointers_named (B.log table.old).held object row.now) }
    ensures refusal { IfErr result (λ e. e ≡ NoMemory) }
    ensures same { B.log table.new ≡ B.log table.old }
{
    a_checkpoint_is_in_its_blocks();
    let mut names = pointers_by(alloc, table, object, row, entries)?;
    add_aside(table, object, row.sides.as_slice(), &mut names)?;
    Ok(names)
}

/// Adds all pointers by which an object's row names data.
fn add_data<B: Blocks>(
    alloc: Global,
    table: &mut B,
    object: ObjectId,
    row: &Row,
    pointers: &mut Vec<Option<Ptr>>,
) -> Result<(), Refusal>
    requires { IsRow (B.log table.old).held object row.now }
    ensures added { OnOk result
        (pointers.new.items
        ≡ pointers.old.items ++ pointers_named (B.log table.old).held object row.now) }
    ensures refusal { IfErr result (λ e. e ≡ NoMemory) }
    ensures same { B.log table.new ≡ B.log table.old }
{
    let entries = time_read::entries(alloc, table, object, row)?;
    let names = names_by(alloc, table, object, row, entries.as_slice())?;
    pointers.extend_from_slice(names.as_slice())?;
    Ok(())
}

/// Adds the places of the blocks of all checkpoints that an object's row names.
fn add_checkpoints<B: Blocks>(
    table: &mut B,
    object: ObjectId,
    row: &Row,
    pointers: &mut Vec<Option<Ptr>>,
) -> Result<(), Refusal>
    requires { IsRow (B.log table.old).held object row.now }
    ensures added { OnOk result
        (pointers.new.items
        ≡ pointers.old.items
        ++ map Some (all_places_of (B.log table.old).held object row.now)) }
    ensures refusal { IfErr result (λ e. e ≡ NoMemory) }
    ensures same { B.log table.new ≡ B.log table.old }
{
    a_checkpoint_is_in_its_blocks();
    add_newest(table, object, row, pointers)?;
    add_older(table, object, row.sides.as_slice(), pointers)?;
    Ok(())
}

/// All places that an object's row names, as pointers, each as often as it does, and its holes
/// among them.
///
/// NoMemory alone, where the memory for them or for the entries of its journal is refused.
pub(crate) fn pointers_to<B: Blocks>(
    alloc: Global,
    table: &mut B,
    object: ObjectId,
    row: &Row,
) -> Result<Vec<Option<Ptr>>, Refusal>
    requires { IsRow (B.log table.old).held object row.now }
    ensures pointers { IfOk result
        (λ pointers. pointers.items ≡ pointers_to (B.log table.old).held object row.now) }
    ensures refusal { IfErr result (λ e. e ≡ NoMemory) }
    ensures same { B.log table.new ≡ B.log table.old }
{
    let mut pointers = Vec::new(alloc);
    add_journal(table, object, row, &mut pointers)?;
    add_checkpoints(table, object, row, &mut pointers)?;
    add_data(alloc, table, object, row, &mut pointers)?;
    Ok(pointers)
}

/// The place that a pointer refers to, if it refers to one, is named once more.
fn tally_one(tallies: &mut [u32], pointer: Option<Ptr>)
    requires within { IsWithin (length tallies.old) pointer }
    requires room { IfSome pointer (λ p. slice_index_or tallies.old (number_of p) 0 + 1 < 2 ^ 32) }
    ensures { Grows tallies.old (pointer ∷ []) tallies.new }
{
    if let Some(place) = pointer {
        let number = PAYLOAD_BLOCKS * place.frame() as usize + place.block() as usize - 1;
        tallies[number] += 1;
    }
}

/// Each place that one of these pointers refers to is named once more for it.
pub(crate) fn tally(tallies: &mut [u32], pointers: &[Option<Ptr>])
    requires within { All (IsWithin (length tallies.old)) pointers.now }
    requires room { (i : ℕ) → i < length tallies.old
        → slice_index_or tallies.old i 0 + times_on i pointers.now < 2 ^ 32 }
    ensures { Grows tallies.old pointers.now tallies.new }
{
    for pointer in pointers {
        tally_one(tallies, *pointer);
    }
}
