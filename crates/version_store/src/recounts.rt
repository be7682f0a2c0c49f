//! The names of an object's data blocks, counted anew where its row comes to lead elsewhere. New
//! names are given before old ones are taken away, so that a block which has both stays held.
ghost use Rattle.std.specs.Prelude.{◌≡◌, ℕ, ◌+◌, ◌^◌, ◌<◌, ◌++◌, length, map, option_copied};
ghost use Rattle.std.specs.List.{All};
ghost use Rattle.std.specs.Option.{option_to_list};
ghost use Rattle.s4_types.specs.Pointer.{Place};
ghost use Rattle.object_map.specs.Sides.{side_gone, sides_after, sides_named};
ghost use Rattle.chain_rewriting.specs.Renaming.{renamed_slot};
ghost use Rattle.time_read.specs.Rows.{IsRow};
ghost use Rattle.version_store.specs.Store.{IsLed, sides_told, pointers_of_sides};
ghost use Rattle.version_store.specs.private.Names.{places_copied, pointers_in};
ghost use Rattle.version_store.specs.private.Recounting.{Recounts};

use crate::copies::CopiedBlock;
use crate::names::{drop_kept, drop_names, hold_between, hold_copied, hold_names, hold_renamed};
use block_log::Blocks;
use chain_rewriting::Renaming;
use checkpoint::laws::a_checkpoint_is_in_its_blocks;
use checkpoint::read_checkpoint;
use codec::Inode;
use object_map::Row;
use s4_types::{ObjectId, Ptr};
use undo_redo::EntriesBetween;

/// An object's journal has these entries more: both sides of their triples give names, and those
/// that the blocks of these pointers had so far are taken away.
pub(crate) fn count_change<B: Blocks>(
    table: &mut B,
    object: ObjectId,
    entries: &EntriesBetween<'_>,
    hand: &[Option<Ptr>],
)
    requires told { All (IsLed (B.log table.old).held object) (sides_told entries.now) }
    requires hand { All (IsLed (B.log table.old).held object) hand.now }
    requires room { (p : Place)
        → (B.log table.old).named p + length (sides_told entries.now) < 2 ^ 32 }
    ensures { Recounts object (B.log table.old) (sides_told entries.now) hand.now
        (B.log table.new) }
{
    hold_between(table, entries);
    table.names();
    drop_names(table, hand);
    table.names();
}

/// The inode of the older checkpoint of a row that goes where a newer one is written, if one goes.
pub(crate) fn inode_gone<B: Blocks>(table: &mut B, object: ObjectId, row: &Row) -> Option<Inode>
    requires { IsRow (B.log table.old).held object row.now }
    ensures gone { pointers_in result
        ≡ pointers_of_sides (B.log table.old).held object
        (option_to_list (side_gone row.now.sides row.now.checkpoint)) }
    ensures all { option_to_list (side_gone row.now.sides row.now.checkpoint) ++ sides_after row.now
        ≡ sides_named row.now }
    ensures same { B.log table.new ≡ B.log table.old }
{
    a_checkpoint_is_in_its_blocks();
    let mut next = *row;
    let gone = next.set_aside()?;
    let checkpoint = read_checkpoint(table, object, gone.place)?;
    Some(*checkpoint.inode())
}

/// An object has a checkpoint of this inode more, and of its older ones that of the other one less,
/// if one went.
pub(crate) fn count_checkpoint<B: Blocks>(
    table: &mut B,
    object: ObjectId,
    inode: &Inode,
    gone: Option<&Inode>,
)
    requires pointers { All (IsLed (B.log table.old).held object) inode.now.pointers }
    requires gone { All (IsLed (B.log table.old).held object) (pointers_in (option_copied gone)) }
    requires room { (p : Place) → (B.log table.old).named p + length inode.now.pointers < 2 ^ 32 }
    ensures { Recounts object (B.log table.old) inode.now.pointers
        (pointers_in (option_copied gone.entry)) (B.log table.new) }
{
    hold_names(table, &inode.pointers);
    table.names();
    drop_kept(table, gone);
    table.names();
}

/// Each block that one of the one pointers refers to is named once more for it, and each that one
/// of the others leads to once less.
pub(crate) fn recount<B: Blocks>(
    table: &mut B,
    object: ObjectId,
    more: &[Option<Ptr>],
    fewer: &[Option<Ptr>],
)
    requires more { All (IsLed (B.log table.old).held object) more.now }
    requires fewer { All (IsLed (B.log table.old).held object) fewer.now }
    requires room { (p : Place) → (B.log table.old).named p + length more.now < 2 ^ 32 }
    ensures { Recounts object (B.log table.old) more.now fewer.now (B.log table.new) }
{
    hold_names(table, more);
    table.names();
    drop_names(table, fewer);
    table.names();
}

/// These pointers, by which a row refers to its data, give their names where they will lead once
/// they are renamed, and all by which it names data give theirs no more. Blocks that were copied
/// have one name more, by which they are still held, and their copies no other names.
pub(crate) fn count_renaming<B: Blocks>(
    table: &mut B,
    object: ObjectId,
    renaming: &Renaming,
    led: &[Option<Ptr>],
    names: &[Option<Ptr>],
    copies: &[CopiedBlock],
)
    requires names { All (IsLed (B.log table.old).held object) names.now }
    requires copied { All (IsLed (B.log table.old).held object) (places_copied copies.now) }
    requires new { All (IsLed (B.log table.old).held object) renaming.now.moves }
    requires renamed { All (IsLed (B.log table.old).held object)
        (map (renamed_slot renaming.now) led.now) }
    requires room { (p : Place)
        → (B.log table.old).named p + (length copies.now + length led.now) < 2 ^ 32 }
    ensures { Recounts object (B.log table.old)
        (places_copied copies.now ++ map (renamed_slot renaming.now) led.now)
        (names.now ++ renaming.now.moves) (B.log table.new) }
{
    hold_copied(table, copies);
    hold_renamed(table, renaming, led);
    table.names();
    drop_names(table, names);
    drop_names(table, renaming.moves());
    table.names();
}
