//! Rows that are found in bytes by themselves, where no header says where they are.
ghost use Rattle.std.specs.Prelude.{◌≡◌, ◌+◌, ◌<◌, ◌≤◌, length, drop, IfOk, IfErr, MatchOption};
ghost use Rattle.std.specs.Int.{w64};
ghost use Rattle.s4_types.specs.declared.refusals.Refusal.TheVariants.{NoMemory};
ghost use Rattle.image_parts.specs.Header.{number_in};
ghost use Rattle.image_parts.specs.Rows.{row_in};
ghost use Rattle.segment_table.specs.Used.{used_at};
ghost use Rattle.image_salvage.specs.RowSearch.{FindsRows, FindsRowsTo, LeadsAt, row_from};

use crate::rows::leads;
use crate::searching::{FRAME_BYTES, frame_from};
use byteorder::{BigEndian, ByteOrder};
use image_parts::RowPart;
use s4_types::{Moment, ObjectId, Refusal};
use segment_table::TableBuilder;
use std::alloc::Global;

/// Bytes of a row.
const ROW_BYTES: usize = 40;

/// The number of eight bytes at a place.
#[tactic(auto, unfolding(image_parts::specs::Header::number_in))]
fn long_at(bytes: &[u8], at: usize) -> u64
    requires { at + 8 ≤ length bytes.now }
    ensures { result ≡ number_in w64 (drop at bytes.now) }
{
    BigEndian::read_u64(&bytes[at..])
}

/// The row that bytes begin with.
#[tactic(auto, unfolding(image_parts::specs::Rows::row_in))]
fn first_row(bytes: &[u8]) -> RowPart
    requires { 40 ≤ length bytes.now }
    ensures { result ≡ row_in bytes.now }
{
    RowPart {
        object: ObjectId::new(long_at(bytes, 0)),
        created: Moment::new(long_at(bytes, 8)),
        checkpoint: long_at(bytes, 16),
        checkpoint_moment: Moment::new(long_at(bytes, 24)),
        head: long_at(bytes, 32),
    }
}

/// What the bytes at a place are as a row. None where they end before.
fn row_at(bytes: &[u8], place: usize) -> Option<RowPart>
    ensures { MatchOption result (length bytes.now < place + 40)
        (λ part. (part ≡ row_from bytes.now place) × (place + 40 ≤ length bytes.now)) }
{
    if bytes.len() < ROW_BYTES || bytes.len() - ROW_BYTES < place {
        return None;
    }
    let (_, rest) = bytes.split_at(place);
    Some(first_row(rest))
}

/// The row at a place, where it gives its object. NoMemory alone.
#[tactic(auto, using(crate::proofs::RowFinding::lost_nowhere, crate::proofs::RowFinding::present_leads))]
fn leading_row(
    alloc: Global,
    table: &TableBuilder,
    bytes: &[u8],
    place: usize,
) -> Result<Option<RowPart>, Refusal>
    ensures found { IfOk result
        (λ found. MatchOption found (LeadsAt (used_at table.now) bytes.now place → ⊥)
        (λ part. (part ≡ row_from bytes.now place)
        × LeadsAt (used_at table.now) bytes.now place)) }
    ensures refusal { IfErr result (λ e. e ≡ NoMemory) }
{
    let Some(part) = row_at(bytes, place) else {
        return Ok(None);
    };
    if !leads(alloc, table, &part)? {
        return Ok(None);
    }
    Ok(Some(part))
}

/// Looks at a place: for a frame that begins there, whose bytes are passed over, and else for a row
/// that gives its object, which is noted. The place up to which the bytes are those of frames.
#[tactic(auto, using(crate::proofs::RowFinding::searched_skipped, crate::proofs::RowFinding::searched_without, crate::proofs::RowFinding::searched_row))]
fn look_at(
    alloc: Global,
    table: &TableBuilder,
    rows: &mut Vec<RowPart>,
    bytes: &[u8],
    place: usize,
    next: usize,
) -> Result<usize, Refusal>
    requires finds { FindsRowsTo (used_at table.now) bytes.now place next rows.old.items }
    ensures finds { IfOk result
        (λ later. FindsRowsTo (used_at table.now) bytes.now (place + 1) later rows.new.items) }
    ensures refusal { IfErr result (λ e. e ≡ NoMemory) }
{
    if place < next {
        return Ok(next);
    }
    let None = frame_from(bytes, place) else {
        return Ok(place + FRAME_BYTES);
    };
    let Some(part) = leading_row(alloc, table, bytes, place)? else {
        return Ok(next);
    };
    rows.push(part)?;
    Ok(next)
}

/// All rows that are found in bytes, in their order: at each place, outside of the frames that are
/// found, where 40 bytes are a row whose chain and checkpoint are over the blocks of a table.
///
/// NoMemory alone, where memory for the rows is refused.
#[tactic(auto, using(crate::proofs::RowFinding::none_searched, crate::proofs::RowFinding::all_searched))]
pub(crate) fn find_rows(
    alloc: Global,
    table: &TableBuilder,
    bytes: &[u8],
) -> Result<Vec<RowPart>, Refusal>
    ensures rows { IfOk result (λ rows. FindsRows (used_at table.now) bytes.now rows.items) }
    ensures refusal { IfErr result (λ e. e ≡ NoMemory) }
{
    let mut rows = Vec::new(alloc);
    let mut next = 0;
    for place in 0..bytes.len() {
        next = look_at(alloc, table, &mut rows, bytes, place, next)?;
    }
    Ok(rows)
}
