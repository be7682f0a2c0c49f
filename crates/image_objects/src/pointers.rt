//! Whether the pointers that a row refers to lead to its data.
ghost use Rattle.std.specs.Prelude.{◌≡◌, ◌++◌, true, [], ◌∷◌};
ghost use Rattle.std.specs.List.{All};
ghost use Rattle.version_store.specs.Store.{IsLed, sides_of, sides_told, pointers_kept};
ghost use Rattle.image_objects.specs.Inodes.{checkpoint_used};

use crate::{ImageRow, UsedBlocks, bytes_at, read_checkpoint};
use block_log::BlockKind;
use codec::{Checkpoint, Entry, Triple};
use s4_types::{ObjectId, Ptr};

/// The checkpoint that a row names. None where it names none, or where none of the object is used
/// there.
pub(crate) fn checkpoint_of<U: UsedBlocks>(used: &U, row: &ImageRow) -> Option<Checkpoint>
    ensures { result ≡ checkpoint_used (U.used used.now) row.now }
{
    let place = row.checkpoint?;
    read_checkpoint(used, row.object, place)
}

/// Whether a pointer is a hole, or refers to a used data block of an object.
fn is_led<U: UsedBlocks>(used: &U, object: ObjectId, pointer: Option<Ptr>) -> bool
    ensures is { result ≡ true → IsLed (U.used used.now) object pointer }
    ensures only { IsLed (U.used used.now) object pointer → result ≡ true }
{
    match pointer {
        None => true,
        Some(place) => bytes_at(used, BlockKind::Data, object, place).is_some(),
    }
}

/// The same of each of these pointers.
fn are_led<U: UsedBlocks>(used: &U, object: ObjectId, pointers: &[Option<Ptr>]) -> bool
    ensures is { result ≡ true → All (IsLed (U.used used.now) object) pointers.now }
    ensures only { All (IsLed (U.used used.now) object) pointers.now → result ≡ true }
{
    for pointer in pointers {
        if !is_led(used, object, *pointer) {
            return false;
        }
    }
    true
}

/// The same of the pointers of a row's checkpoint.
fn is_checkpoint_led<U: UsedBlocks>(used: &U, row: &ImageRow) -> bool
    ensures is { result ≡ true
        → All (IsLed (U.used used.now) row.now.object)
        (pointers_kept (checkpoint_used (U.used used.now) row.now)) }
    ensures only { All (IsLed (U.used used.now) row.now.object)
        (pointers_kept (checkpoint_used (U.used used.now) row.now)) → result ≡ true }
{
    let Some(checkpoint) = checkpoint_of(used, row) else {
        return true;
    };
    are_led(used, row.object, &checkpoint.inode().pointers)
}

/// The same of both sides of a triple.
fn are_sides_led<U: UsedBlocks>(used: &U, object: ObjectId, triple: &Triple) -> bool
    ensures is { result ≡ true
        → All (IsLed (U.used used.now) object) (triple.now.before ∷ triple.now.after ∷ []) }
    ensures only { All (IsLed (U.used used.now) object) (triple.now.before ∷ triple.now.after ∷ [])
        → result ≡ true }
{
    is_led(used, object, triple.before) && is_led(used, object, triple.after)
}

/// The same of both sides of each triple.
fn are_triples_led<U: UsedBlocks>(used: &U, object: ObjectId, triples: &[Triple]) -> bool
    ensures is { result ≡ true → All (IsLed (U.used used.now) object) (sides_of triples.now) }
    ensures only { All (IsLed (U.used used.now) object) (sides_of triples.now) → result ≡ true }
{
    for triple in triples {
        if !are_sides_led(used, object, triple) {
            return false;
        }
    }
    true
}

/// The same of both sides of each triple of entries.
fn are_entries_led<U: UsedBlocks>(used: &U, object: ObjectId, entries: &[Entry]) -> bool
    ensures is { result ≡ true → All (IsLed (U.used used.now) object) (sides_told entries.now) }
    ensures only { All (IsLed (U.used used.now) object) (sides_told entries.now) → result ≡ true }
{
    for entry in entries {
        if !are_triples_led(used, object, entry.triples()) {
            return false;
        }
    }
    true
}

/// Whether each pointer that a row's checkpoint and its entries refer to is a hole, or refers to a
/// used data block of the row's object.
pub(crate) fn is_row_led<U: UsedBlocks>(used: &U, row: &ImageRow, entries: &[Entry]) -> bool
    ensures is { result ≡ true → All (IsLed (U.used used.now) row.now.object)
        (pointers_kept (checkpoint_used (U.used used.now) row.now) ++ sides_told entries.now) }
    ensures only { All (IsLed (U.used used.now) row.now.object)
        (pointers_kept (checkpoint_used (U.used used.now) row.now) ++ sides_told entries.now)
        → result ≡ true }
{
    is_checkpoint_led(used, row) && are_entries_led(used, row.object, entries)
}
