//! The object that a row gives.
ghost use Rattle.std.specs.Prelude.{◌≡◌, IfSome, IfOk, IfErr, MatchBool, MatchOption};
ghost use Rattle.s4_types.specs.declared.refusals.Refusal.TheVariants.{NoMemory};
ghost use Rattle.segment_table.specs.Used.{used_at};
ghost use Rattle.image_salvage.specs.Rows.{IsLost, IsPresentOf, IsSalvagedBy, IsThere};

use codec::Inode;
use image_objects::read_version_chain;
use image_parts::RowPart;
use s4_types::{Moment, ObjectId, Refusal};
use segment_table::TableBuilder;
use std::alloc::Global;
use verifier::{TableBlocks, row_of};

/// What a row gives.
#[derive(Clone, Copy)]
pub struct Salvaged {
    pub object: ObjectId,
    /// The object's present inode, which may be dead; none where the object is lost.
    pub present: Option<Inode>,
}

/// The present inode of the object of a row. None exactly where it is lost. NoMemory alone.
fn present_of(alloc: Global, table: &TableBuilder, part: &RowPart) -> Result<Option<Inode>, Refusal>
    ensures found { IfOk result
        (λ found. MatchOption found (IsLost (used_at table.now) part.now)
        (IsPresentOf (used_at table.now) part.now)) }
    ensures refusal { IfErr result (λ e. e ≡ NoMemory) }
{
    let Some(row) = row_of(part) else {
        return Ok(None);
    };
    let blocks = TableBlocks { table };
    let Some(versions) = read_version_chain(alloc, &blocks, &row, Moment::new(u64::MAX))? else {
        return Ok(None);
    };
    Ok(Some(versions.present))
}

/// What a row gives. NoMemory alone.
pub(crate) fn salvage_row(
    alloc: Global,
    table: &TableBuilder,
    part: &RowPart,
) -> Result<Salvaged, Refusal>
    ensures salvaged { IfOk result (IsSalvagedBy (used_at table.now) part.now) }
    ensures refusal { IfErr result (λ e. e ≡ NoMemory) }
{
    let present = present_of(alloc, table, part)?;
    Ok(Salvaged {
        object: part.object,
        present,
    })
}

/// Whether a row gives its object. NoMemory alone.
#[tactic(auto, using(crate::proofs::RowFinding::stands_there))]
pub(crate) fn leads(alloc: Global, table: &TableBuilder, part: &RowPart) -> Result<bool, Refusal>
    ensures found { IfOk result
        (λ leads. MatchBool leads (IsThere (used_at table.now) part.now)
        (IsLost (used_at table.now) part.now)) }
    ensures refusal { IfErr result (λ e. e ≡ NoMemory) }
{
    let Some(row) = row_of(part) else {
        return Ok(false);
    };
    let blocks = TableBlocks { table };
    let Some(_versions) = read_version_chain(alloc, &blocks, &row, Moment::new(u64::MAX))? else {
        return Ok(false);
    };
    Ok(true)
}
