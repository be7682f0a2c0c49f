//! The rows and the spans of a drive as they are saved.
ghost use Rattle.std.specs.Prelude.{◌≡◌, ◌++◌, ◌≤◌, ◌^◌, length, OnOk, IfOk, IfErr};
ghost use Rattle.std.specs.Int.{w64};
ghost use Rattle.std.specs.List.{flat_map};
ghost use Rattle.s4_types.specs.declared.refusals.Refusal.TheVariants.{NoMemory};
ghost use Rattle.codec.specs.Fields.{number, SpellsSlot};
ghost use Rattle.image_parts.specs.Rows.{IsRow, row_bytes};
ghost use Rattle.image_parts.specs.Spans.{span_bytes};
ghost use Rattle.image_objects.specs.Saved.{saved_row};
ghost use Rattle.verifier.specs.Rows.{SpellsRow};
ghost use Rattle.verifier.specs.SavedRows.{AreSaved};

use checkpoint::laws::a_checkpoint_is_in_its_blocks;
use codec::encode_ptr;
use drive::Drive;
use image_parts::{RowPart, push_row, push_span};
use object_map::Row;
use s4_types::{ObjectId, Ptr, Refusal, Span};
use segment_word::Naming;
use std::alloc::Global;

/// The number that a pointer's bytes, or those of a hole, represent.
fn slot_number(ptr: Option<Ptr>) -> u64
    ensures { SpellsSlot (number w64 result) ptr }
{
    u64::from_be_bytes(encode_ptr(ptr))
}

/// An object's row as it is saved.
pub fn part_of(object: ObjectId, row: &Row) -> RowPart
    ensures spelled { SpellsRow result (saved_row object row.now) }
    ensures is { IsRow result }
{
    // numbers that are read have 64 bits
    let _ = object.number();
    let _ = row.created.number();
    let _ = row.checkpoint_moment.number();
    RowPart {
        object,
        created: row.created,
        checkpoint: slot_number(row.checkpoint),
        checkpoint_moment: row.checkpoint_moment,
        head: slot_number(row.head),
    }
}

/// The rows of all objects as they are saved, by ascending object. They are few, since each names a
/// block of its own. The only error is NoMemory.
pub(crate) fn rows_saved<J: Naming>(
    alloc: Global,
    drive: &Drive<J>,
) -> Result<Vec<RowPart>, Refusal>
    ensures saved { IfOk result (λ parts. AreSaved drive.now.store.rows parts.items) }
    ensures few { IfOk result (λ parts. length parts.items ≤ 2 ^ 20) }
    ensures refusal { IfErr result (λ e. e ≡ NoMemory) }
{
    a_checkpoint_is_in_its_blocks();
    drive.rules();
    let mut parts = Vec::new(alloc);
    let mut last = ObjectId::new(0);
    while let Some(object) = drive.next_row(last) {
        let Some(row) = drive.row(object) else {
            unreachable!()
        };
        parts.push(part_of(object, &row))?;
        last = object;
    }
    Ok(parts)
}

/// Adds rows. The only error is NoMemory, after which some of them may have been added.
pub fn push_rows(out: &mut Vec<u8>, rows: &[RowPart]) -> Result<(), Refusal>
    ensures items { OnOk result (out.new.items ≡ out.old.items ++ flat_map row_bytes rows.now) }
    ensures refusal { IfErr result (λ e. e ≡ NoMemory) }
{
    for row in rows {
        push_row(out, row)?;
    }
    Ok(())
}

/// Adds spans. The only error is NoMemory, after which some of them may have been added.
pub fn push_spans(out: &mut Vec<u8>, spans: &[Span]) -> Result<(), Refusal>
    ensures items { OnOk result (out.new.items ≡ out.old.items ++ flat_map span_bytes spans.now) }
    ensures refusal { IfErr result (λ e. e ≡ NoMemory) }
{
    for span in spans {
        push_span(out, span)?;
    }
    Ok(())
}
