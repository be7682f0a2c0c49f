//! The rows of an image of an earlier version, and whether all of them keep the rules of chains.
ghost use Rattle.std.specs.Prelude.{◌≡◌, [], List, MatchBool, IfSome, IfNone, IfOk, IfErr};
ghost use Rattle.s4_types.specs.declared.refusals.Refusal.TheVariants.{NoMemory};
ghost use Rattle.image_objects.specs.declared.rows.ImageRow.{ImageRow as RowFields};
ghost use Rattle.image_objects.specs.Moments.{StandOnce};
ghost use Rattle.image_objects.specs.Versions.{RowsStandBy};
ghost use Rattle.verifier.specs.Rows.{SpellRows};
ghost use Rattle.earlier_images.specs.Used.{used_in};
ghost use Rattle.earlier_images.specs.private.OneRow.{IsRowRead, PartStands};

use crate::frames::EarlierFrames;
use codec::ImageVersion;
use image_objects::laws::moments_told_once_are_not_shared;
use image_objects::{ImageRow, read_object_by};
use image_parts::{ImageParts, RowPart};
use s4_types::{Moment, Refusal};
use std::alloc::Global;
use verifier::laws::rows_are_read_in_order;
use verifier::{are_apart, push_moments, row_of};

/// What was read of the rows so far.
struct ReadRows {
    rows: Vec<ImageRow>,
    // of all chains, those of each chain once
    moments: Vec<u64>,
}

// Written by hand, so that an owner lets it go by one call.
impl Drop for ReadRows {
    fn drop(self) {
        let ReadRows {
            rows: _,
            moments: _,
        } = self;
    }
}

impl ReadRows {
    /// No row was read.
    fn new(alloc: Global) -> Self
        ensures rows { result.rows.items ≡ [] }
        ensures moments { result.moments.items ≡ [] }
    {
        ReadRows {
            rows: Vec::new(alloc),
            moments: Vec::new(alloc),
        }
    }

    /// Reads a row, and says whether its object keeps the rules: where it doesn't, reading is over.
    /// NoMemory alone, after which it is too.
    fn read_row(
        &mut self,
        alloc: Global,
        version: ImageVersion,
        frames: &EarlierFrames<'_>,
        part: &RowPart,
        clock: Moment,
    ) -> Result<bool, Refusal>
        ensures read { IfOk result
            (λ stands. MatchBool stands
            (IsRowRead version (used_in frames.now) part.now clock self.old self.new)
            (PartStands version (used_in frames.now) part.now clock → ⊥)) }
        ensures refusal { IfErr result (λ e. e ≡ NoMemory) }
    {
        let Some(row) = row_of(part) else {
            return Ok(false);
        };
        let Some(versions) = read_object_by(alloc, version, frames, &row, clock)? else {
            return Ok(false);
        };
        push_moments(versions.chain.entries.as_slice(), &mut self.moments)?;
        self.rows.push(row)?;
        Ok(true)
    }

    /// The rows that were read, where no two chains share a moment.
    fn finish(self) -> Option<Vec<ImageRow>>
        ensures rows { IfSome result (λ rows. rows.items ≡ self.rows.items) }
        ensures once { IfSome result (λ rows. StandOnce self.moments.items) }
        ensures none { IfNone result (StandOnce self.moments.items → ⊥) }
    {
        let ReadRows { rows, moments } = self;
        if !are_apart(moments) {
            return None;
        }
        Some(rows)
    }
}

/// The rows of an image of an earlier version, over its frames. None exactly where they don't all
/// keep the rules.
///
/// NoMemory alone. Linear in the image but for the order of moments.
pub(crate) fn read_rows(
    alloc: Global,
    version: ImageVersion,
    frames: &EarlierFrames<'_>,
    parts: &ImageParts<'_>,
    clock: Moment,
) -> Result<Option<Vec<ImageRow>>, Refusal>
    ensures spelled { IfOk result
        (λ found. IfSome found (λ rows. SpellRows parts.now.rows rows.items)) }
    ensures stand { IfOk result
        (λ found. IfSome found
        (λ rows. RowsStandBy version (used_in frames.now) rows.items clock)) }
    ensures none { IfOk result (λ found. IfNone found ((rows : List RowFields)
        → SpellRows parts.now.rows rows
        → RowsStandBy version (used_in frames.now) rows clock → ⊥)) }
    ensures refusal { IfErr result (λ e. e ≡ NoMemory) }
{
    moments_told_once_are_not_shared();
    rows_are_read_in_order();
    let mut reading = ReadRows::new(alloc);
    for part in parts.rows() {
        if !reading.read_row(alloc, version, frames, &part, clock)? {
            return Ok(None);
        }
    }
    Ok(reading.finish())
}
