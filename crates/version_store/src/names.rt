//! The names that pointers give to data blocks: given, and taken away.
ghost use Rattle.std.specs.Prelude.{◌≡◌, ◌⊎◌, ℕ, ◌+◌, ◌-◌, ◌^◌, ◌<◌, ◌==◌, ◌&&◌, ◌∷◌, [], true};
ghost use Rattle.std.specs.Prelude.{if◌then◌else◌, length, map, Some, None, IfSome, option_copied};
ghost use Rattle.std.specs.List.{All};
ghost use Rattle.s4_types.specs.Pointer.{Place};
ghost use Rattle.block_log.specs.Taken.{TakesPlaces};
ghost use Rattle.chain_rewriting.specs.Renaming.{renamed_slot};
ghost use Rattle.version_store.specs.Store.{times_led, sides_of, sides_told};
ghost use Rattle.version_store.specs.private.Names.{IsOfData, IsOfDataOrNothing, Gives, TakesAway};
ghost use Rattle.version_store.specs.private.Names.{held_named, places_copied, pointers_in};

use crate::copies::CopiedBlock;
use block_log::Blocks;
use chain_rewriting::Renaming;
use codec::{Entry, Inode, Triple};
use s4_types::Ptr;
use undo_redo::EntriesBetween;

/// The block that a pointer refers to, if it refers to one, is named once more.
fn hold_name<B: Blocks>(table: &mut B, pointer: Option<Ptr>)
    requires of_data { IsOfData (B.log table.old).held pointer }
    requires room { (p : Place) → (B.log table.old).named p + 1 < 2 ^ 32 }
    ensures named { (q : Place)
        → (B.log table.new).named q ≡ times_led q (pointer ∷ []) + (B.log table.old).named q }
    ensures held { (B.log table.new).held ≡ (B.log table.old).held }
    ensures takes { TakesPlaces 0 (B.log table.old) (B.log table.new) }
{
    if let Some(place) = pointer {
        table.hold(place);
    }
}

/// Each block that one of these pointers refers to is named once more for it.
pub(crate) fn hold_names<B: Blocks>(table: &mut B, pointers: &[Option<Ptr>])
    requires of_data { All (IsOfData (B.log table.old).held) pointers.now }
    requires room { (p : Place) → (B.log table.old).named p + length pointers.now < 2 ^ 32 }
    ensures named { (q : Place)
        → (B.log table.new).named q ≡ times_led q pointers.now + (B.log table.old).named q }
    ensures held { (B.log table.new).held ≡ (B.log table.old).held }
    ensures takes { TakesPlaces 0 (B.log table.old) (B.log table.new) }
{
    for pointer in pointers {
        hold_name(table, *pointer);
    }
}

/// Each block that either side of one of these triples leads to is named once more for it.
fn hold_sides<B: Blocks>(table: &mut B, triples: &[Triple])
    requires of_data { All (IsOfData (B.log table.old).held) (sides_of triples.now) }
    requires room { (p : Place)
        → (B.log table.old).named p + length (sides_of triples.now) < 2 ^ 32 }
    ensures { Gives (B.log table.old) (sides_of triples.now) (B.log table.new) }
{
    for triple in triples {
        hold_names(table, &[triple.before, triple.after]);
    }
}

/// Each block that either side of a triple of these entries leads to is named once more for it.
pub(crate) fn hold_between<B: Blocks>(table: &mut B, entries: &EntriesBetween<'_>)
    requires of_data { All (IsOfData (B.log table.old).held) (sides_told entries.now) }
    requires room { (p : Place)
        → (B.log table.old).named p + length (sides_told entries.now) < 2 ^ 32 }
    ensures { Gives (B.log table.old) (sides_told entries.now) (B.log table.new) }
{
    let (first, others) = entries.split_first();
    hold_sides(table, first.triples());
    for entry in others {
        hold_sides(table, entry.triples());
    }
}

/// The block at the new place of each of these copies' old places is named once more for the place
/// that was copied.
pub(crate) fn hold_copied<B: Blocks>(table: &mut B, copies: &[CopiedBlock])
    requires of_data { All (IsOfData (B.log table.old).held) (places_copied copies.now) }
    requires room { (p : Place) → (B.log table.old).named p + length copies.now < 2 ^ 32 }
    ensures { Gives (B.log table.old) (places_copied copies.now) (B.log table.new) }
{
    for copy in copies {
        hold_name(table, Some(copy.place));
    }
}

/// Each block that one of these pointers refers to, once it is renamed, is named once more for it.
pub(crate) fn hold_renamed<B: Blocks>(table: &mut B, renaming: &Renaming, pointers: &[Option<Ptr>])
    requires of_data { All (IsOfData (B.log table.old).held)
        (map (renamed_slot renaming.now) pointers.now) }
    requires room { (p : Place) → (B.log table.old).named p + length pointers.now < 2 ^ 32 }
    ensures { Gives (B.log table.old) (map (renamed_slot renaming.now) pointers.now)
        (B.log table.new) }
{
    for pointer in pointers {
        hold_name(table, renaming.rename(*pointer));
    }
}

/// The block that a pointer refers to, if it refers to one, is named once less.
fn drop_name<B: Blocks>(table: &mut B, pointer: Option<Ptr>)
    requires of_data { IsOfDataOrNothing (B.log table.old).held pointer }
    ensures named { (q : Place)
        → (B.log table.new).named q ≡ (B.log table.old).named q - times_led q (pointer ∷ []) }
    ensures held { (q : Place)
        → (B.log table.new).held q ≡ held_named (B.log table.old).held (B.log table.new).named q }
    ensures takes { TakesPlaces 0 (B.log table.old) (B.log table.new) }
{
    table.names();
    if let Some(place) = pointer {
        table.drop_block(place);
    }
}

/// Each block that one of these pointers refers to is named once less for it. Data that has no name
/// left is held no longer.
pub(crate) fn drop_names<B: Blocks>(table: &mut B, pointers: &[Option<Ptr>])
    requires of_data { All (IsOfDataOrNothing (B.log table.old).held) pointers.now }
    ensures named { (q : Place)
        → (B.log table.new).named q ≡ (B.log table.old).named q - times_led q pointers.now }
    ensures held { (q : Place)
        → (B.log table.new).held q ≡ held_named (B.log table.old).held (B.log table.new).named q }
    ensures takes { TakesPlaces 0 (B.log table.old) (B.log table.new) }
{
    table.names();
    for pointer in pointers {
        drop_name(table, *pointer);
    }
}

/// The block at each of these places is named once less.
pub(crate) fn drop_copied<B: Blocks>(table: &mut B, copies: &[CopiedBlock])
    requires { All (IsOfDataOrNothing (B.log table.old).held) (places_copied copies.now) }
    ensures { TakesAway (B.log table.old) (places_copied copies.now) (B.log table.new) }
{
    table.names();
    for copy in copies {
        drop_name(table, Some(copy.place));
    }
}

/// Each block that a pointer of an inode refers to, if there is an inode, is named once less for
/// it.
pub(crate) fn drop_kept<B: Blocks>(table: &mut B, inode: Option<&Inode>)
    requires { All (IsOfDataOrNothing (B.log table.old).held) (pointers_in (option_copied inode)) }
    ensures { TakesAway (B.log table.old) (pointers_in (option_copied inode.entry))
        (B.log table.new) }
{
    table.names();
    if let Some(inode) = inode {
        drop_names(table, &inode.pointers);
    }
}
