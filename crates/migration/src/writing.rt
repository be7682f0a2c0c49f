//! The new image, written.
ghost use Rattle.std.specs.Prelude.{◌≡◌, ◌++◌, ◌<◌, ◌≤◌, ◌^◌, ◌⊎◌, length, OnOk, IfOk, IfErr};
ghost use Rattle.std.specs.List.{AllByRecursion, flat_map};
ghost use Rattle.s4_types.specs.declared.limits.TheConstants.{MOST_FRAMES};
ghost use Rattle.s4_types.specs.declared.refusals.Refusal.TheVariants.{NoMemory, NoRoom};
ghost use Rattle.image_parts.specs.Audit.{audit_bytes};
ghost use Rattle.image_objects.specs.Versions.{ObjectStandsBy};
ghost use Rattle.earlier_images.specs.Used.{used_in};
ghost use Rattle.migration.specs.Frames.{frames_needed};
ghost use Rattle.migration.specs.Rows.{AscendAbove, blocks_of_rows};
ghost use Rattle.migration.specs.private.Written.{ArePartsOf, AreBytesOf, IsLaid, header_with};

use crate::images::copy_image;
use earlier_images::EarlierImage;
use image_objects::ImageRow;
use image_parts::{AuditPart, Header, RowPart, image_length, push_audit, push_digest, push_header};
use object_map::Row;
use s4_types::Refusal;
use segment_table::{OverFrames, SegmentTable};
use std::alloc::Global;
use verifier::laws::rows_are_read_in_order;
use verifier::{part_of, push_frames, push_rows, push_spans};

/// The rows of all objects as the image has them. NoMemory alone.
fn parts_of(alloc: Global, rows: &[ImageRow], laters: &[Row]) -> Result<Vec<RowPart>, Refusal>
    requires { length laters.now ≡ length rows.now }
    ensures parts { IfOk result (λ parts. ArePartsOf rows.now laters.now parts.items) }
    ensures count { IfOk result (λ parts. length parts.items ≡ length rows.now) }
    ensures refusal { IfErr result (λ e. e ≡ NoMemory) }
{
    rows_are_read_in_order();
    let mut parts = Vec::new(alloc);
    for index in 0..rows.len() {
        parts.push(part_of(rows[index].object, &laters[index]))?;
    }
    Ok(parts)
}

/// The header of an image with an old one's numbers, and with as many frames, rows, spans and audit
/// rows.
fn header_of(old: &EarlierImage<'_>, frames: u16, rows: u32, spans: u32, audit: u64) -> Header
    ensures { result ≡ header_with old.now frames rows spans audit }
{
    Header {
        frames,
        rows,
        spans,
        audit,
        ..old.header()
    }
}

/// Adds audit rows. NoMemory alone, after which some of them may have been added.
fn push_audits(out: &mut Vec<u8>, rows: &[AuditPart]) -> Result<(), Refusal>
    ensures items { OnOk result (out.new.items ≡ out.old.items ++ flat_map audit_bytes rows.now) }
    ensures refusal { IfErr result (λ e. e ≡ NoMemory) }
{
    for row in rows {
        push_audit(out, row)?;
    }
    Ok(())
}

/// The bytes of the image that has a table's frames, of which this many have blocks, rows with
/// these objects, an old image's numbers and spans, and audit rows. NoMemory alone.
fn write_image(
    alloc: Global,
    old: &EarlierImage<'_>,
    audit: &[AuditPart],
    table: &mut SegmentTable,
    with_blocks: u16,
    laters: &[Row],
) -> Result<Vec<u8>, Refusal>
    requires count { length laters.now ≡ length old.now.rows }
    requires rows { length old.now.rows < 2 ^ 32 }
    requires spans { length old.now.spans < 2 ^ 32 }
    ensures written { IfOk result (λ bytes. AreBytesOf old.now audit.now table.old laters.now bytes.items) }
    ensures refusal { IfErr result (λ e. e ≡ NoMemory) }
{
    table.frame_rules();
    let parts = parts_of(alloc, old.rows(), laters)?;
    let header = header_of(
        old,
        table.frame_count(),
        parts.len() as u32,
        old.spans().len() as u32,
        audit.len() as u64,
    );
    let length = image_length(
        header.frames,
        with_blocks,
        header.rows,
        header.spans,
        header.audit,
    );
    let mut out = Vec::with_capacity(alloc, length)?;
    push_header(&mut out, &header)?;
    push_frames(table, &mut out)?;
    push_rows(&mut out, parts.as_slice())?;
    push_spans(&mut out, old.spans())?;
    push_audits(&mut out, audit)?;
    push_digest(&mut out)?;
    Ok(out)
}

/// The bytes of an image with an old one's numbers, spans and objects, and with audit rows. Its
/// blocks are written anew, in their fixed order, into this many frames, or as many as are needed.
///
/// NoRoom exactly where these are more than it may have; NoMemory where memory was refused.
pub(crate) fn lay_out(
    alloc: Global,
    old: &EarlierImage<'_>,
    audit: &[AuditPart],
    frames: usize,
    most: usize,
) -> Result<Vec<u8>, Refusal>
    requires frames { frames ≤ MOST_FRAMES }
    requires most { most ≤ MOST_FRAMES }
    requires ascend { AscendAbove 0 old.now.rows }
    requires stand { AllByRecursion
        (λ row. ObjectStandsBy old.now.version (used_in old.now.frames) row old.now.clock)
        old.now.rows }
    requires rows { length old.now.rows < 2 ^ 32 }
    requires spans { length old.now.spans < 2 ^ 32 }
    ensures laid { IfOk result (λ new. IsLaid old.now audit.now frames new.items) }
    ensures fits { IfOk result
        (λ new. frames_needed frames
        (blocks_of_rows old.now.version (used_in old.now.frames) old.now.rows) ≤ most) }
    ensures refusal { IfErr result
        (λ e. (e ≡ NoMemory)
        ⊎ ((e ≡ NoRoom)
        × (most < frames_needed frames
        (blocks_of_rows old.now.version (used_in old.now.frames) old.now.rows)))) }
{
    let copied = copy_image(
        alloc,
        old.version(),
        old.frames(),
        old.rows(),
        old.header().clock,
        frames,
        most,
    )?;
    let mut table = copied.table;
    table.frame_rules();
    let new = write_image(
        alloc,
        old,
        audit,
        &mut table,
        copied.filled,
        copied.rows.as_slice(),
    )?;
    Ok(new)
}
