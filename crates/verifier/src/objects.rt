//! The objects of an image, read by its rows.
ghost use Rattle.std.specs.Prelude.{◌≡◌, ℕ, [], map, List, Option, None, MatchBool, IfSome, IfNone};
ghost use Rattle.std.specs.Prelude.{IfOk, IfErr};
ghost use Rattle.s4_types.specs.Pointer.{Place};
ghost use Rattle.s4_types.specs.declared.refusals.Refusal.TheVariants.{NoMemory};
ghost use Rattle.block_log.specs.Log.{Stored};
ghost use Rattle.segment_table.specs.Table.{slots_at, held_at};
ghost use Rattle.segment_table.specs.Used.{used_at};
ghost use Rattle.image_objects.specs.declared.rows.ImageRow.{ImageRow as RowFields};
ghost use Rattle.image_objects.specs.Moments.{StandOnce};
ghost use Rattle.image_objects.specs.Read.{IsRead};
ghost use Rattle.image_objects.specs.Rows.{RowsStand};
ghost use Rattle.verifier.specs.Rows.{SpellRows};
ghost use Rattle.verifier.specs.Reading.{IsKept, AreRead};
ghost use Rattle.verifier.specs.private.OneRow.{IsRowRead, PartStands};

use crate::blocks::{TableBlocks, hold_all};
use crate::moments::{are_apart, push_moments};
use crate::rows::row_of;
use image_objects::laws::{moments_told_once_are_not_shared, what_a_row_names_is_used};
use image_objects::{ImageRow, VersionChain, push_named, read_object};
use image_parts::{ImageParts, RowPart};
use object_map::{Row, Sides};
use s4_types::{Moment, Ptr, Refusal};
use segment_table::TableBuilder;
use std::alloc::Global;
use version_store::OpenedObject;

/// What a drive keeps of the objects of an image, and the frames with all held that their rows
/// name.
#[derive(Drop)]
pub(crate) struct Read {
    pub(crate) table: TableBuilder,
    pub(crate) objects: Vec<OpenedObject>,
}

/// What was read of the rows so far.
#[derive(Drop)]
struct ReadRows {
    table: TableBuilder,
    objects: Vec<OpenedObject>,
    // of all chains, those of each chain once
    moments: Vec<u64>,
    // what the last row names
    places: Vec<Ptr>,
}

/// What a drive keeps of an object of an image. Where memory for its index is refused it has none.
fn kept_of(alloc: Global, row: &ImageRow, versions: &VersionChain) -> OpenedObject
    ensures { (used : Place → Option Stored)
        → IsRead used row.now versions.now → IsKept used row.now result }
{
    let kept = Row {
        created: row.created,
        checkpoint: row.checkpoint,
        checkpoint_moment: row.checkpoint_moment,
        head: row.head,
        journal_bytes: versions.chain.journal_bytes,
        head_bytes: versions.chain.head_bytes,
        sides: Sides::new(),
        stamp: 0,
    };
    OpenedObject::new(
        alloc,
        row.object,
        &kept,
        &versions.present,
        versions.chain.entries.as_slice(),
    )
}

impl ReadRows {
    /// No row was read.
    fn new(alloc: Global, table: TableBuilder) -> Self
        ensures table { result.table ≡ table }
        ensures objects { result.objects.items ≡ [] }
        ensures moments { result.moments.items ≡ [] }
    {
        ReadRows {
            table,
            objects: Vec::new(alloc),
            moments: Vec::new(alloc),
            places: Vec::new(alloc),
        }
    }

    /// Reads a row, and says whether its object stands: where it doesn't, reading is over. NoMemory
    /// alone, after which it is too.
    fn read_row(&mut self, alloc: Global, part: &RowPart, clock: Moment) -> Result<bool, Refusal>
        ensures read { IfOk result (λ stands. MatchBool stands (IsRowRead (used_at self.old.table) part.now clock self.old self.new)
            (PartStands (used_at self.old.table) part.now clock → ⊥)) }
        ensures refusal { IfErr result (λ e. e ≡ NoMemory) }
    {
        what_a_row_names_is_used();
        let Some(row) = row_of(part) else {
            return Ok(false);
        };
        let blocks = TableBlocks { table: &self.table };
        let Some(versions) = read_object(alloc, &blocks, &row, clock)? else {
            return Ok(false);
        };
        push_moments(versions.chain.entries.as_slice(), &mut self.moments)?;
        self.places.clear();
        push_named(&blocks, &row, &versions, &mut self.places)?;
        self.objects.push(kept_of(alloc, &row, &versions))?;
        hold_all(&mut self.table, self.places.as_slice());
        Ok(true)
    }

    /// What was read, where no two chains share a moment.
    fn finish(self) -> Option<Read>
        ensures table { IfSome result (λ read. read.table ≡ self.table) }
        ensures objects { IfSome result (λ read. read.objects.items ≡ self.objects.items) }
        ensures once { IfSome result (λ read. StandOnce self.moments.items) }
        ensures none { IfNone result (StandOnce self.moments.items → ⊥) }
    {
        let ReadRows {
            table,
            objects,
            moments,
            places: _,
        } = self;
        if !are_apart(moments) {
            return None;
        }
        Some(Read { table, objects })
    }
}

/// What a drive keeps of the objects of an image, by its rows, with all held that these name. None
/// exactly where the rows don't all stand.
///
/// NoMemory alone. Linear in the image but for the order of moments.
pub(crate) fn read_objects(
    alloc: Global,
    table: TableBuilder,
    parts: &ImageParts<'_>,
    clock: Moment,
) -> Result<Option<Read>, Refusal>
    requires { (p : Place) → held_at table p ≡ None }
    ensures found { IfOk result
        (λ found. IfSome found
        (λ read. AreRead table parts.now.rows clock read.table read.objects.items)) }
    ensures none { IfOk result (λ found. IfNone found ((rows : List RowFields)
        → SpellRows parts.now.rows rows → RowsStand (used_at table) rows clock → ⊥)) }
    ensures used { IfOk result
        (λ found. IfSome found (λ read. (p : Place) → used_at read.table p ≡ used_at table p)) }
    ensures frames { IfOk result
        (λ found. IfSome found (λ read. read.table.seat.frames ≡ table.seat.frames)) }
    ensures slots { IfOk result (λ found. IfSome found (λ read. (f : ℕ)
        → map (λ slot. slot.role) (slots_at read.table.slots f) ≡ map (λ slot. slot.role) (slots_at table.slots f))) }
    ensures refusal { IfErr result (λ e. e ≡ NoMemory) }
{
    moments_told_once_are_not_shared();
    table.rules();
    let mut reading = ReadRows::new(alloc, table);
    for part in parts.rows() {
        if !reading.read_row(alloc, &part, clock)? {
            return Ok(None);
        }
    }
    Ok(reading.finish())
}
