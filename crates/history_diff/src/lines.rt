//! The lines that people read.
ghost use Rattle.std.specs.Prelude.{◌≡◌, ◌++◌, IfOk, OnOk, string_bytes};
ghost use Rattle.std.specs.List.{flat_map};
ghost use Rattle.history_diff.specs.Differences.{told_of};
ghost use Rattle.history_diff.specs.Lines.{kind_text, range_text, ranges_text, pair_text};
ghost use Rattle.history_diff.specs.Lines.{difference_line};

use crate::differences::{AttributePair, Difference, DifferenceKind};
use crate::ranges::ByteRange;
use history_text::attributes_text;
use s4_types::ObjectId;
use std::alloc::{AllocError, Global};

fn kind_text(kind: DifferenceKind) -> &'static str
    ensures { result.now ≡ kind_text kind }
{
    match kind {
        DifferenceKind::Made => "made   ",
        DifferenceKind::Deleted => "deleted",
        DifferenceKind::Changed => "changed",
    }
}

fn range_text(alloc: Global, range: &ByteRange) -> Result<String, AllocError>
    ensures { IfOk result (λ text. string_bytes text ≡ range_text range.now) }
{
    let (first, last) = (range.first, range.last);
    format!(in alloc; " {first}-{last}")
}

// Adds the ranges to a text.
fn push_ranges(alloc: Global, text: &mut String, ranges: &[ByteRange]) -> Result<(), AllocError>
    ensures { OnOk result
        (string_bytes text.new ≡ string_bytes text.old ++ flat_map range_text ranges.now) }
{
    for range in ranges {
        let one = range_text(alloc, range)?;
        text.push_str(one.as_str())?;
    }
    Ok(())
}

fn ranges_text(alloc: Global, ranges: &[ByteRange]) -> Result<String, AllocError>
    ensures { IfOk result (λ text. string_bytes text ≡ ranges_text ranges.now) }
{
    if ranges.is_empty() {
        return Ok(String::new(alloc));
    }
    let mut text = String::from_str(alloc, "  bytes")?;
    push_ranges(alloc, &mut text, ranges)?;
    Ok(text)
}

fn pair_text(alloc: Global, pair: &Option<AttributePair>) -> Result<String, AllocError>
    ensures { IfOk result (λ text. string_bytes text ≡ pair_text pair.now) }
{
    match pair {
        Some(pair) => attributes_text(alloc, pair.before.as_slice(), pair.after.as_slice()),
        None => Ok(String::new(alloc)),
    }
}

/// The line of what differs of an object: its number, what was done, the sizes before and after,
/// the ranges of bytes that differ, and the attributes before and after where they do.
pub fn difference_line(
    alloc: Global,
    object: ObjectId,
    difference: &Difference,
) -> Result<String, AllocError>
    ensures { IfOk result
        (λ line. string_bytes line ≡ difference_line object (told_of difference.now)) }
{
    let (object, kind) = (object.number(), kind_text(difference.kind));
    let (before, after) = (difference.size_before, difference.size_after);
    let ranges = ranges_text(alloc, difference.ranges.as_slice())?;
    let attributes = pair_text(alloc, &difference.attributes)?;
    format!(in alloc; "{object:10}  {kind}  {before:6}  {after:6}{ranges}{attributes}\n")
}
