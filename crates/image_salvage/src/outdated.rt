//! Rows of a damaged image that name an older block of their object than there is.
//!
//! A row has no digest. Where a bit of it is turned it may name an older block of its object, which
//! leads to an older version, or to one that never was, in the midst of a change.
ghost use Rattle.std.specs.Prelude.{◌≡◌, IfOk, IfErr, OnOk, MatchBool};
ghost use Rattle.s4_types.specs.declared.refusals.Refusal.TheVariants.{NoMemory};
ghost use Rattle.object_map.specs.Objects.{value_of};
ghost use Rattle.segment_table.specs.Used.{used_at};
ghost use Rattle.image_salvage.specs.Heads.{last_of};
ghost use Rattle.image_salvage.specs.Outdated.{AreBelieved, IsOutdated, is_before, is_entry_before};
ghost use Rattle.image_salvage.specs.Outdated.{is_head_before, is_row_before};
ghost use Rattle.image_salvage.specs.private.Passing.{Believes};

use crate::heads::{newest_entry, step_of};
use crate::newest::Note;
use crate::unlisted::push;
use codec::EntryReader;
use image_objects::read_journal;
use image_parts::RowPart;
use s4_types::limits::OBJECT_BLOCKS;
use s4_types::{Moment, ObjectId, Ptr, Refusal};
use segment_table::TableBuilder;
use std::alloc::Global;
use std::collections::BTreeMap;
use verifier::TableBlocks;

/// Whether a moment, and how far an entry is in the change of it, come before those of a note.
fn is_before(moment: Moment, step: usize, note: &Note) -> bool
    ensures { result ≡ is_before moment step note.now }
{
    if moment != note.moment {
        return moment < note.moment;
    }
    step < note.step
}

/// Whether the newest entry of a journal block comes before that of a note.
fn is_entry_before(block: EntryReader, note: &Note) -> bool
    ensures { result ≡ is_entry_before (last_of block.entries) note.now }
{
    match newest_entry(block) {
        None => true,
        Some(entry) => is_before(entry.moment(), step_of(&entry), note),
    }
}

/// The same of the newest journal block that a row names, if it names one. Nothing is known of one
/// that is gone.
fn is_head_before(table: &TableBuilder, object: ObjectId, head: Option<Ptr>, note: &Note) -> bool
    ensures { result ≡ is_head_before (used_at table.now) object head note.now }
{
    let Some(place) = head else {
        return true;
    };
    let blocks = TableBlocks { table };
    match read_journal(&blocks, object, place) {
        None => false,
        Some(block) => is_entry_before(block, note),
    }
}

/// Whether a row with this head names older blocks than the newest of its object.
fn is_row_before(
    table: &TableBuilder,
    row: &RowPart,
    head: Option<Ptr>,
    heads: &BTreeMap<u64, Note>,
) -> bool
    ensures { result
        ≡ is_row_before (used_at table.now) row.now head
        (value_of heads.now.entries row.now.object) }
{
    let Some(note) = heads.get(&row.object.number()) else {
        return false;
    };
    is_before(row.checkpoint_moment, OBJECT_BLOCKS + 1, note)
        && is_head_before(table, row.object, head, note)
}

/// Whether a row names older blocks than the newest of its object.
fn is_outdated(table: &TableBuilder, row: &RowPart, heads: &BTreeMap<u64, Note>) -> bool
    ensures { MatchBool result (IsOutdated (used_at table.now) (value_of heads.now.entries) row.now)
        (IsOutdated (used_at table.now) (value_of heads.now.entries) row.now → ⊥) }
{
    let Some(head) = row.head_slot() else {
        return false;
    };
    is_row_before(table, row, head, heads)
}

/// Adds a row where it isn't outdated. NoMemory alone.
fn believe(
    table: &TableBuilder,
    row: &RowPart,
    heads: &BTreeMap<u64, Note>,
    believed: &mut Vec<RowPart>,
) -> Result<(), Refusal>
    ensures believes { OnOk result
        (Believes (used_at table.now) (value_of heads.now.entries) row.now believed.old.items
        believed.new.items) }
    ensures refusal { IfErr result (λ e. e ≡ NoMemory) }
{
    if is_outdated(table, row, heads) {
        return Ok(());
    }
    push(believed, row)
}

/// The rows that aren't outdated, in their order. NoMemory alone.
pub(crate) fn believed_rows(
    alloc: Global,
    table: &TableBuilder,
    rows: &[RowPart],
    heads: &BTreeMap<u64, Note>,
) -> Result<Vec<RowPart>, Refusal>
    ensures believed { IfOk result
        (λ believed. AreBelieved (used_at table.now) (value_of heads.now.entries) rows.now
        believed.items) }
    ensures refusal { IfErr result (λ e. e ≡ NoMemory) }
{
    let mut believed = Vec::new(alloc);
    for row in rows {
        believe(table, row, heads, &mut believed)?;
    }
    Ok(believed)
}
