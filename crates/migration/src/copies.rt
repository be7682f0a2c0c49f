//! Data of an object of an image, copied into a table.
ghost use Rattle.std.specs.Prelude.{◌≡◌, ℕ, ◌+◌, ◌<◌, ◌≤◌, [], ◌∷◌, List, length, None, OnOk, IfOk};
ghost use Rattle.std.specs.Prelude.{IfErr};
ghost use Rattle.std.specs.List.{AllByRecursion};
ghost use Rattle.s4_types.specs.Pointer.{Place};
ghost use Rattle.s4_types.specs.declared.refusals.Refusal.TheVariants.{NoMemory};
ghost use Rattle.block_log.specs.Log.{Log, of_kind};
ghost use Rattle.block_log.specs.declared.kinds.BlockKind.TheVariants.{Data};
ghost use Rattle.migration.specs.private.Copying.{Copying, IsUsedData};

use crate::moves::{Move, Moves};
use block_log::{BlockKind, Blocks};
use image_objects::{UsedBlocks, bytes_at};
use s4_types::{ObjectId, Ptr, Refusal};
use std::alloc::Global;

/// Appends a copy of a used data block of an object where a place is ahead, and keeps where it
/// went. NoMemory alone.
fn copy_block<B: Blocks, U: UsedBlocks>(
    table: &mut B,
    used: &U,
    object: ObjectId,
    place: Ptr,
    moves: &mut Vec<Move>,
) -> Result<(), Refusal>
    requires object { 1 ≤ object }
    requires used { IsUsedData (U.used used.now) object place }
    requires room { 0 < length (B.log table.old).ahead }
    ensures copying { OnOk result
        ((places rest : List Place) (count : ℕ) (before : Log)
        → Copying (U.used used.now) object places (place ∷ rest) count before (B.log table.old)
        moves.old.items
        → Copying (U.used used.now) object places rest (count + 1) before (B.log table.new)
        moves.new.items) }
    ensures refusal { IfErr result (λ e. e ≡ NoMemory) }
{
    let Some(bytes) = bytes_at(used, BlockKind::Data, object, place) else {
        unreachable!()
    };
    let Ok(to) = table.append(BlockKind::Data, object, &bytes) else {
        unreachable!()
    };
    moves.push(Move { from: place, to })?;
    Ok(())
}

/// Appends copies of used data blocks of an object in their order, where there is room and no data
/// of the object is held, and answers where each went. NoMemory alone.
pub(crate) fn copy_data<B: Blocks, U: UsedBlocks>(
    alloc: Global,
    table: &mut B,
    used: &U,
    object: ObjectId,
    places: &[Ptr],
) -> Result<Moves, Refusal>
    requires object { 1 ≤ object }
    requires used { AllByRecursion (IsUsedData (U.used used.now) object) places.now }
    requires room { length places.now ≤ length (B.log table.old).ahead }
    requires nothing { (p : Place) → of_kind Data object (B.log table.old).held p ≡ None }
    ensures copied { IfOk result
        (λ moves. Copying (U.used used.now) object places.now [] (length places.now)
        (B.log table.old) (B.log table.new) moves.list.items) }
    ensures refusal { IfErr result (λ e. e ≡ NoMemory) }
{
    let mut moves = Vec::new(alloc);
    for place in places {
        copy_block(table, used, object, *place, &mut moves)?;
    }
    Ok(Moves { list: moves })
}
