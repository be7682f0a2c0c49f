//! The rows that checkpoints and journal blocks make, where no row of the image is asked.
//!
//! A checkpoint alone makes a row, too: of an object whose whole journal was cleaned away.
ghost use Rattle.std.specs.Prelude.{◌≡◌, ℕ, ◌+◌, Some, None, IfOk, IfErr, OnOk, MatchOption};
ghost use Rattle.s4_types.specs.declared.refusals.Refusal.TheVariants.{NoMemory};
ghost use Rattle.block_log.specs.Log.{Stored};
ghost use Rattle.object_map.specs.Objects.{value_of};
ghost use Rattle.segment_table.specs.Used.{used_at};
ghost use Rattle.image_salvage.specs.declared.newest.Note.{Note as Noted};
ghost use Rattle.image_salvage.specs.Newest.{AreGenerations, AreNewest, order_of};
ghost use Rattle.image_salvage.specs.Heads.{CountsKept, LeadsOn, MakesByCheckpoint, MakesByJournal};
ghost use Rattle.image_salvage.specs.Heads.{MakesHead, MakesRow, blocks_kept, checkpoint_note};
ghost use Rattle.image_salvage.specs.Heads.{last_of, row_alone, row_from, step_by};

use crate::contents::count_gone;
use crate::newest::{Note, offer, place_at};
use codec::{Checkpoint, Entry, EntryReader};
use image_objects::{ImageRow, read_checkpoint, read_journal, read_version_chain};
use s4_types::limits::{FRAME_BLOCKS, MOST_FRAMES, OBJECT_BLOCKS};
use s4_types::{Moment, ObjectId, Ptr, Refusal};
use segment_table::TableBuilder;
use std::alloc::Global;
use std::collections::BTreeMap;
use verifier::TableBlocks;

/// Blocks of all frames that a drive can have, their summaries among them.
const PLACES: usize = MOST_FRAMES * FRAME_BLOCKS;

/// Where a block is in the order of frames, and of the blocks of each.
fn order_of(place: Ptr) -> usize
    ensures { result ≡ order_of place }
{
    FRAME_BLOCKS * place.frame() as usize + place.block() as usize
}

/// Whose the used block at a place is. None where none is used there.
fn owner_of(table: &TableBuilder, place: Ptr) -> Option<ObjectId>
    ensures { MatchOption result (used_at table.now place ≡ None)
        (λ object. (block : Stored)
        × (used_at table.now place ≡ Some block) × (block.object ≡ object)) }
{
    let block = table.used(place)?;
    let role = block.role();
    Some(role.object)
}

/// What the checkpoint of an object at a place makes.
fn note_of(table: &TableBuilder, object: ObjectId, place: Ptr, checkpoint: &Checkpoint) -> Note
    ensures { result ≡ checkpoint_note (used_at table.now) object place checkpoint.now }
{
    let inode = checkpoint.inode();
    let gone = count_gone(table, object, inode);
    let row = ImageRow {
        object,
        created: inode.created,
        checkpoint: Some(place),
        checkpoint_moment: checkpoint.moment(),
        head: None,
    };
    Note {
        row,
        moment: checkpoint.moment(),
        step: OBJECT_BLOCKS + 1,
        kept: OBJECT_BLOCKS.saturating_sub(gone),
        order: order_of(place),
    }
}

/// What the checkpoint at a place makes. None where none is used there.
fn checkpoint_note(table: &TableBuilder, place: Ptr) -> Option<Note>
    ensures { MatchOption result
        ((note : Noted) → MakesByCheckpoint (used_at table.now) place note → ⊥)
        (MakesByCheckpoint (used_at table.now) place) }
{
    let object = owner_of(table, place)?;
    let blocks = TableBlocks { table };
    let checkpoint = read_checkpoint(&blocks, object, place)?;
    Some(note_of(table, object, place, &checkpoint))
}

/// Looks for a checkpoint at the place that comes here in order. NoMemory alone.
fn look_for_checkpoint(
    table: &TableBuilder,
    generations: &[u32],
    order: usize,
    notes: &mut BTreeMap<u64, Note>,
) -> Result<(), Refusal>
    requires generations { AreGenerations (used_at table.now) generations.now }
    requires newest { AreNewest (MakesByCheckpoint (used_at table.now)) order
        (value_of notes.old.entries) }
    ensures newest { OnOk result
        (AreNewest (MakesByCheckpoint (used_at table.now)) (order + 1)
        (value_of notes.new.entries)) }
    ensures refusal { IfErr result (λ e. e ≡ NoMemory) }
{
    let Some(place) = place_at(generations, order) else {
        return Ok(());
    };
    let Some(note) = checkpoint_note(table, place) else {
        return Ok(());
    };
    offer(notes, &note)
}

/// The newest checkpoint of each object. NoMemory alone.
pub(crate) fn newest_checkpoints(
    alloc: Global,
    table: &TableBuilder,
    generations: &[u32],
) -> Result<BTreeMap<u64, Note>, Refusal>
    requires generations { AreGenerations (used_at table.now) generations.now }
    ensures newest { IfOk result
        (λ notes. AreNewest (MakesByCheckpoint (used_at table.now)) 16384
        (value_of notes.entries)) }
    ensures refusal { IfErr result (λ e. e ≡ NoMemory) }
{
    let mut notes = BTreeMap::new(alloc);
    for order in 0..PLACES {
        look_for_checkpoint(table, generations, order, &mut notes)?;
    }
    Ok(notes)
}

/// How many blocks of a row's inode aren't gone, and one more. None where it gives none. NoMemory
/// alone.
fn kept_by(alloc: Global, table: &TableBuilder, row: &ImageRow) -> Result<Option<usize>, Refusal>
    ensures found { IfOk result
        (λ found. MatchOption found (LeadsOn (used_at table.now) row.now → ⊥)
        (λ kept. LeadsOn (used_at table.now) row.now
        × (kept ≡ blocks_kept (used_at table.now) row.now))) }
    ensures refusal { IfErr result (λ e. e ≡ NoMemory) }
{
    let blocks = TableBlocks { table };
    let Some(versions) = read_version_chain(alloc, &blocks, row, Moment::new(u64::MAX))? else {
        return Ok(None);
    };
    let gone = count_gone(table, row.object, &versions.present);
    Ok(Some(1 + OBJECT_BLOCKS.saturating_sub(gone)))
}

/// The row that a journal block makes.
#[derive(Clone, Copy)]
struct Head {
    row: ImageRow,
    kept: usize,
}

/// The row of an object with the journal block at a place as its newest, and no checkpoint.
/// NoMemory alone.
fn head_alone(
    alloc: Global,
    table: &TableBuilder,
    object: ObjectId,
    place: Ptr,
) -> Result<Head, Refusal>
    ensures made { IfOk result
        (λ head. (head.row ≡ row_alone object place)
        × CountsKept (used_at table.now) head.row head.kept) }
    ensures refusal { IfErr result (λ e. e ≡ NoMemory) }
{
    let row = ImageRow {
        object,
        created: Moment::new(0),
        checkpoint: None,
        checkpoint_moment: Moment::new(0),
        head: Some(place),
    };
    let Some(kept) = kept_by(alloc, table, &row)? else {
        return Ok(Head { row, kept: 0 });
    };
    Ok(Head { row, kept })
}

/// The row of an object with the journal block at a place as its newest, and its newest checkpoint.
/// None where it has none.
fn row_from(checkpoints: &BTreeMap<u64, Note>, object: ObjectId, place: Ptr) -> Option<ImageRow>
    ensures { MatchOption result (value_of checkpoints.now.entries object ≡ None)
        (λ row. (note : Noted)
        × (value_of checkpoints.now.entries object ≡ Some note)
        × (row ≡ row_from note.row place)) }
{
    let note = checkpoints.get(&object.number())?;
    Some(ImageRow {
        head: Some(place),
        ..note.row
    })
}

/// The row that the journal block of an object at a place makes: with its newest checkpoint where
/// that row gives an inode, and else with none. NoMemory alone.
fn head_of(
    alloc: Global,
    table: &TableBuilder,
    checkpoints: &BTreeMap<u64, Note>,
    object: ObjectId,
    place: Ptr,
) -> Result<Head, Refusal>
    ensures made { IfOk result
        (λ head. MakesRow (used_at table.now) (value_of checkpoints.now.entries object) object place
        head.row head.kept) }
    ensures refusal { IfErr result (λ e. e ≡ NoMemory) }
{
    let Some(row) = row_from(checkpoints, object, place) else {
        return head_alone(alloc, table, object, place);
    };
    let Some(kept) = kept_by(alloc, table, &row)? else {
        return head_alone(alloc, table, object, place);
    };
    Ok(Head { row, kept })
}

/// The newest entry of a journal block.
pub(crate) fn newest_entry(block: EntryReader) -> Option<Entry>
    ensures { result ≡ last_of block.entries }
{
    let mut rest = block;
    rest.pop()
}

/// How far an entry is in the change of its moment.
pub(crate) fn step_of(entry: &Entry) -> usize
    ensures { result ≡ step_by entry.now.triples }
{
    match entry.triples().first() {
        None => 0,
        Some(triple) => triple.index as usize + 1,
    }
}

/// What the journal block at a place makes. None where none is used there. NoMemory alone.
fn head_note(
    alloc: Global,
    table: &TableBuilder,
    checkpoints: &BTreeMap<u64, Note>,
    place: Ptr,
) -> Result<Option<Note>, Refusal>
    ensures made { IfOk result
        (λ found. MatchOption found
        ((note : Noted)
        → MakesByJournal (used_at table.now) (value_of checkpoints.now.entries) place note
        → ⊥)
        (MakesByJournal (used_at table.now) (value_of checkpoints.now.entries) place)) }
    ensures refusal { IfErr result (λ e. e ≡ NoMemory) }
{
    let Some(object) = owner_of(table, place) else {
        return Ok(None);
    };
    let blocks = TableBlocks { table };
    let Some(block) = read_journal(&blocks, object, place) else {
        return Ok(None);
    };
    let Some(entry) = newest_entry(block) else {
        return Ok(None);
    };
    let head = head_of(alloc, table, checkpoints, object, place)?;
    Ok(Some(Note {
        row: head.row,
        moment: entry.moment(),
        step: step_of(&entry),
        kept: head.kept,
        order: order_of(place),
    }))
}

/// What the checkpoint or the journal block at a place makes. None where neither is used there.
/// NoMemory alone.
fn note_at(
    alloc: Global,
    table: &TableBuilder,
    checkpoints: &BTreeMap<u64, Note>,
    place: Ptr,
) -> Result<Option<Note>, Refusal>
    ensures made { IfOk result
        (λ found. MatchOption found
        ((note : Noted)
        → MakesHead (used_at table.now) (value_of checkpoints.now.entries) place note → ⊥)
        (MakesHead (used_at table.now) (value_of checkpoints.now.entries) place)) }
    ensures refusal { IfErr result (λ e. e ≡ NoMemory) }
{
    match checkpoint_note(table, place) {
        Some(note) => Ok(Some(note)),
        None => head_note(alloc, table, checkpoints, place),
    }
}

/// Looks for a checkpoint or a journal block at the place that comes here in order. NoMemory alone.
fn look_for_head(
    alloc: Global,
    table: &TableBuilder,
    generations: &[u32],
    checkpoints: &BTreeMap<u64, Note>,
    order: usize,
    notes: &mut BTreeMap<u64, Note>,
) -> Result<(), Refusal>
    requires generations { AreGenerations (used_at table.now) generations.now }
    requires newest { AreNewest (MakesHead (used_at table.now) (value_of checkpoints.now.entries))
        order (value_of notes.old.entries) }
    ensures newest { OnOk result
        (AreNewest (MakesHead (used_at table.now) (value_of checkpoints.now.entries)) (order + 1)
        (value_of notes.new.entries)) }
    ensures refusal { IfErr result (λ e. e ≡ NoMemory) }
{
    let Some(place) = place_at(generations, order) else {
        return Ok(());
    };
    match note_at(alloc, table, checkpoints, place) {
        Ok(Some(note)) => offer(notes, &note),
        Ok(None) => Ok(()),
        Err(refusal) => Err(refusal),
    }
}

/// The newest row that blocks make of each object. NoMemory alone. Linear in the frames: of each
/// journal block one chain is read.
pub(crate) fn newest_heads(
    alloc: Global,
    table: &TableBuilder,
    generations: &[u32],
    checkpoints: &BTreeMap<u64, Note>,
) -> Result<BTreeMap<u64, Note>, Refusal>
    requires generations { AreGenerations (used_at table.now) generations.now }
    ensures newest { IfOk result
        (λ notes. AreNewest (MakesHead (used_at table.now) (value_of checkpoints.now.entries)) 16384
        (value_of notes.entries)) }
    ensures refusal { IfErr result (λ e. e ≡ NoMemory) }
{
    let mut notes = BTreeMap::new(alloc);
    for order in 0..PLACES {
        look_for_head(alloc, table, generations, checkpoints, order, &mut notes)?;
    }
    Ok(notes)
}
