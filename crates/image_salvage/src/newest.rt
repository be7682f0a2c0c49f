//! The newest of the rows that blocks make of an object.
ghost use Rattle.std.specs.Prelude.{◌≡◌, ℕ, IfErr, OnOk, MatchOption};
ghost use Rattle.s4_types.specs.Pointer.{Place, IsPlace};
ghost use Rattle.s4_types.specs.declared.refusals.Refusal.TheVariants.{NoMemory};
ghost use Rattle.object_map.specs.Objects.{value_of, with_value};
ghost use Rattle.image_salvage.specs.Newest.{IsAt, is_newer, is_passed, with_newer};

use image_objects::ImageRow;
use s4_types::limits::FRAME_BLOCKS;
use s4_types::{Moment, Ptr, Refusal};
use std::collections::BTreeMap;

/// A row that a block makes of its object, and what puts it before those that other blocks make.
#[derive(Clone, Copy)]
pub(crate) struct Note {
    pub(crate) row: ImageRow,
    /// That of the checkpoint, or of the journal block's newest entry.
    pub(crate) moment: Moment,
    /// How far that entry is in the change of its moment: one more than the first index of its
    /// pointers, 0 where it has none. A checkpoint comes after all entries of its moment.
    pub(crate) step: usize,
    /// The more blocks the row's inode still has, the more; 0 where the row gives none.
    pub(crate) kept: usize,
    /// Where the block is, in the order of frames and blocks.
    pub(crate) order: usize,
}

/// Whether a note is newer than another.
fn is_newer(note: &Note, other: &Note) -> bool
    ensures { result ≡ is_newer note.now other.now }
{
    if note.moment != other.moment {
        return other.moment < note.moment;
    }
    if note.step != other.step {
        return other.step < note.step;
    }
    if note.kept != other.kept {
        return other.kept < note.kept;
    }
    other.order < note.order
}

/// Whether the note that an object has is newer than this one of it.
fn is_passed(notes: &BTreeMap<u64, Note>, note: &Note) -> bool
    ensures { result ≡ is_passed (value_of notes.now.entries note.now.row.object) note.now }
{
    let Some(held) = notes.get(&note.row.object.number()) else {
        return false;
    };
    is_newer(held, note)
}

/// Sets the value of a key. NoMemory alone.
fn put<V: Copy + Drop>(map: &mut BTreeMap<u64, V>, key: u64, value: &V) -> Result<(), Refusal>
    ensures put { OnOk result
        ((q : ℕ)
        → value_of map.new.entries q ≡ with_value (value_of map.old.entries) key value.now q) }
    ensures refusal { IfErr result (λ e. e ≡ NoMemory) }
{
    map.insert(key, *value)?;
    Ok(())
}

/// Takes a note where none that is newer is there of its object. NoMemory alone.
pub(crate) fn offer(notes: &mut BTreeMap<u64, Note>, note: &Note) -> Result<(), Refusal>
    ensures taken { OnOk result
        ((o : ℕ)
        → value_of notes.new.entries o ≡ with_newer (value_of notes.old.entries) note.now o) }
    ensures refusal { IfErr result (λ e. e ≡ NoMemory) }
{
    if is_passed(notes, note) {
        return Ok(());
    }
    put(notes, note.row.object.number(), note)
}

/// The place that comes here in the order of frames and blocks, at the generation of its frame.
/// None where there is none.
pub(crate) fn place_at(generations: &[u32], order: usize) -> Option<Ptr>
    ensures { MatchOption result ((p : Place) → IsPlace p → IsAt generations.now order p → ⊥)
        (λ place. IsPlace place × IsAt generations.now order place) }
{
    let (frame, block) = (order / FRAME_BLOCKS, order % FRAME_BLOCKS);
    if frame >= generations.len() {
        return None;
    }
    let frame_number = u16::try_from(frame).ok()?;
    Ptr::new(frame_number, block as u8, generations[frame])
}
