ghost use Rattle.std.specs.Prelude.{◌≡◌, ℕ, ◌<◌, ◌≤◌, ◌++◌, true, [], length, None, Some, IsSome, IfSome};
ghost use Rattle.std.specs.Prelude.{IfOk, OnErr, MatchResult};
ghost use Rattle.s4_types.specs.Pointer.{Place};
ghost use Rattle.s4_types.specs.declared.refusals.Refusal.TheVariants.{NoSpace};
ghost use Rattle.block_log.specs.Taken.{TakesPlaces};
ghost use Rattle.codec.specs.Checkpoint.{checkpoint_rules};
ghost use Rattle.checkpoint.specs.Held.{checkpoint_held, checkpoint_blocks, of_checkpoints};
ghost use Rattle.checkpoint.specs.Held.{checkpoint_places, HasItsBlocks};
ghost use Rattle.checkpoint.specs.Held.{OnlyCheckpointChanged, PutsCheckpoint, DropsCheckpoint};
ghost use Rattle.object_map.specs.Sides.{sides_after, place_of};
ghost use Rattle.time_read.specs.Rows.{IsRow, entries_of, checkpoint_of, inode_of};
ghost use Rattle.time_read.specs.Rows.{checkpoint_places_of};
ghost use Rattle.time_read.specs.Orderly.{IsOrderly};
ghost use Rattle.row_changes.specs.Recent.{IsBy};
ghost use Rattle.row_changes.specs.Moved.{IsMoved, DropsSides, places_gone};

use block_log::Blocks;
use checkpoint::laws::a_checkpoint_is_in_its_blocks;
use checkpoint::{drop_checkpoint, write_checkpoint};
use codec::{Checkpoint, Inode};
use object_map::{Row, Side, Sides};
use s4_types::{Moment, ObjectId, Ptr, Refusal};
use undo_redo::laws::entries_determine_a_run;

/// Appends the checkpoint of an inode.
pub(crate) fn put<B: Blocks>(
    table: &mut B,
    object: ObjectId,
    inode: &Inode,
    moment: Moment,
) -> Result<Ptr, Refusal>
    requires { checkpoint_rules (record { object = object; moment = moment; inode = inode.now }) ≡ true }
    ensures told { IfOk result (λ p. checkpoint_held (B.log table.new).held object p ≡ Some (record { object = object; moment = moment; inode = inode.now })) }
    ensures takes { IfOk result
        (λ _. TakesPlaces (checkpoint_blocks inode.now) (B.log table.old) (B.log table.new)) }
    ensures named { (B.log table.new).named ≡ (B.log table.old).named }
    ensures growth { IfOk result
        (λ p. PutsCheckpoint (B.log table.old).held object p (B.log table.new).held) }
    ensures order { IfOk result
        (λ p. (B.log table.old).ahead
        ≡ checkpoint_places (B.log table.new).held object p ++ (B.log table.new).ahead) }
    ensures answer { MatchResult result
        (λ _. checkpoint_blocks inode.now ≤ length (B.log table.old).ahead)
        (λ e. (e ≡ NoSpace) × (length (B.log table.old).ahead < checkpoint_blocks inode.now)) }
    ensures unchanged { OnErr result (B.log table.new ≡ B.log table.old) }
{
    let checkpoint = Checkpoint::new(object, moment, *inode).unwrap();
    write_checkpoint(table, &checkpoint)
}

/// Appends the checkpoint of an inode where there is room.
pub(crate) fn put_ahead<B: Blocks>(
    table: &mut B,
    object: ObjectId,
    inode: &Inode,
    moment: Moment,
) -> Ptr
    requires rules { checkpoint_rules (record { object = object; moment = moment; inode = inode.now }) ≡ true }
    requires room { checkpoint_blocks inode.now ≤ length (B.log table.old).ahead }
    ensures told { checkpoint_held (B.log table.new).held object result ≡ Some (record { object = object; moment = moment; inode = inode.now }) }
    ensures takes { TakesPlaces (checkpoint_blocks inode.now) (B.log table.old) (B.log table.new) }
    ensures named { (B.log table.new).named ≡ (B.log table.old).named }
    ensures growth { PutsCheckpoint (B.log table.old).held object result (B.log table.new).held }
    ensures order { (B.log table.old).ahead
        ≡ checkpoint_places (B.log table.new).held object result ++ (B.log table.new).ahead }
{
    put(table, object, inode, moment).unwrap()
}

/// Drops the checkpoint of an object that an older one of its row tells of, if there is one.
fn drop_side<B: Blocks>(table: &mut B, object: ObjectId, side: Option<Side>)
    requires held { HasItsBlocks (B.log table.old).held object (place_of side) }
    ensures dropped { DropsCheckpoint (B.log table.old).held object (place_of side)
        (B.log table.new).held }
    ensures named { (B.log table.new).named ≡ (B.log table.old).named }
    ensures takes { TakesPlaces 0 (B.log table.old) (B.log table.new) }
{
    let place = match side {
        Some(side) => Some(side.place),
        None => None,
    };
    drop_checkpoint(table, object, place);
}

/// Appends an object's inode at a moment as its newest checkpoint, and answers the object's row
/// after that. The one before, if there was one, becomes the last of the older ones; where that
/// makes one too many, the first of them is dropped. The inode at each moment is as it was, and a
/// row that was in order stays so.
///
/// NoSpace exactly where fewer places are ahead than the checkpoint takes; then nothing has
/// changed.
pub fn record_checkpoint<B: Blocks>(
    table: &mut B,
    object: ObjectId,
    row: &Row,
    inode: &Inode,
    moment: Moment,
) -> Result<Row, Refusal>
    requires row { IsRow (B.log table.old).held object row.now }
    requires newer { IfSome row.now.checkpoint (λ _. row.now.checkpoint_moment < moment) }
    requires latest { IsBy (B.log table.old).held object row.now moment }
    requires inode { inode.now ≡ inode_of (B.log table.old).held object row.now moment }
    requires rules { checkpoint_rules (record { object = object; moment = moment; inode = inode.now }) ≡ true }
    ensures row { IfOk result (λ later. IsRow (B.log table.new).held object later) }
    ensures latest { IfOk result (λ later. IsBy (B.log table.new).held object later moment) }
    ensures inode { IfOk result
        (λ later. (t : ℕ)
        → inode_of (B.log table.new).held object later t
        ≡ inode_of (B.log table.old).held object row.now t) }
    ensures orderly { IfOk result
        (λ later. (latest : ℕ) → moment ≤ latest
        → IsOrderly (B.log table.old).held object row.now latest
        → IsOrderly (B.log table.new).held object later latest) }
    ensures fields { IfOk result (λ later. later ≡ record row.now { checkpoint = later.checkpoint; checkpoint_moment = moment; sides = sides_after row.now }) }
    ensures moved { IfOk result
        (λ later. IsMoved (B.log table.old).held (places_gone (B.log table.old).held object row.now)
        (checkpoint_places_of (B.log table.new).held object later) (B.log table.new).held) }
    ensures some { IfOk result (λ later. IsSome later.checkpoint) }
    ensures others { OnlyCheckpointChanged object (B.log table.old).held (B.log table.new).held }
    ensures takes { IfOk result
        (λ _. TakesPlaces (checkpoint_blocks inode.now) (B.log table.old) (B.log table.new)) }
    ensures named { (B.log table.new).named ≡ (B.log table.old).named }
    ensures answer { MatchResult result
        (λ _. checkpoint_blocks inode.now ≤ length (B.log table.old).ahead)
        (λ e. (e ≡ NoSpace) × (length (B.log table.old).ahead < checkpoint_blocks inode.now)) }
    ensures unchanged { OnErr result (B.log table.new ≡ B.log table.old) }
{
    a_checkpoint_is_in_its_blocks();
    entries_determine_a_run();
    let place = put(table, object, inode, moment)?;
    let mut next = *row;
    let gone = next.set_aside();
    drop_side(table, object, gone);
    Ok(Row {
        checkpoint: Some(place),
        checkpoint_moment: moment,
        ..next
    })
}

/// Drops the checkpoint that an object's row names, if it names one: no other of the object is held.
pub(crate) fn drop_named<B: Blocks>(table: &mut B, object: ObjectId, row: &Row)
    requires row { IsRow (B.log table.old).held object row.now }
    requires sides { row.now.sides ≡ [] }
    ensures gone { (p : Place) → of_checkpoints object (B.log table.new).held p ≡ None }
    ensures others { OnlyCheckpointChanged object (B.log table.old).held (B.log table.new).held }
    ensures named { (B.log table.new).named ≡ (B.log table.old).named }
    ensures takes { TakesPlaces 0 (B.log table.old) (B.log table.new) }
{
    a_checkpoint_is_in_its_blocks();
    drop_checkpoint(table, object, row.checkpoint);
}

/// Drops the older checkpoints of an object's row.
fn drop_each<B: Blocks>(table: &mut B, object: ObjectId, row: &Row)
    requires row { IsRow (B.log table.old).held object row.now }
    ensures dropped { DropsSides (B.log table.old).held object row.now.sides
        (B.log table.new).held }
    ensures named { (B.log table.new).named ≡ (B.log table.old).named }
    ensures takes { TakesPlaces 0 (B.log table.old) (B.log table.new) }
{
    a_checkpoint_is_in_its_blocks();
    let sides = row.sides.as_slice();
    for side in sides {
        drop_checkpoint(table, object, Some(side.place));
    }
}

/// Drops all older checkpoints of an object, and answers the row that names none of them. All else
/// that the row tells is as it was: its entries, its newest checkpoint, and the inode at each
/// moment.
pub fn drop_sides<B: Blocks>(table: &mut B, object: ObjectId, row: &Row) -> Row
    requires row { IsRow (B.log table.old).held object row.now }
    ensures row { IsRow (B.log table.new).held object result }
    ensures fields { result ≡ record row.now { sides = [] } }
    ensures latest { (t : ℕ)
        → IsBy (B.log table.old).held object row.now t
        → IsBy (B.log table.new).held object result t }
    ensures entries { entries_of (B.log table.new).held object result
        ≡ entries_of (B.log table.old).held object row.now }
    ensures checkpoint { checkpoint_of (B.log table.new).held object result
        ≡ checkpoint_of (B.log table.old).held object row.now }
    ensures inode { (t : ℕ)
        → inode_of (B.log table.new).held object result t
        ≡ inode_of (B.log table.old).held object row.now t }
    ensures orderly { (latest : ℕ)
        → IsOrderly (B.log table.old).held object row.now latest
        → IsOrderly (B.log table.new).held object result latest }
    ensures dropped { DropsSides (B.log table.old).held object row.now.sides
        (B.log table.new).held }
    ensures named { (B.log table.new).named ≡ (B.log table.old).named }
    ensures takes { TakesPlaces 0 (B.log table.old) (B.log table.new) }
{
    a_checkpoint_is_in_its_blocks();
    drop_each(table, object, row);
    Row {
        sides: Sides::new(),
        ..*row
    }
}
