//! Rows that turn the lines of one text into those of another.
ghost use Rattle.std.specs.Prelude.{◌≡◌, ◌++◌, ◌≤◌, map, length, take, drop, IfOk, OnOk};
ghost use Rattle.std.specs.Prelude.{string_bytes};
ghost use Rattle.std.specs.Bool.{OnTrue};
ghost use Rattle.line_diff.specs.Script.{row_of, row_with, IsScript, Turns};
ghost use Rattle.line_diff.specs.private.Reaching.{change_rows, IsReached, IsNextMatch};

use crate::matches::matches_of;
use crate::places::Place;
use crate::trimming::{common_back, common_front, same_at};
use std::alloc::{AllocError, Global};

/// What becomes of a line.
#[derive(Clone, Copy, PartialEq, Eq)]
pub enum Sign {
    /// Both texts have it.
    Kept,
    /// The old text alone has it.
    Removed,
    /// The new text alone has it.
    Added,
}

/// A line and what becomes of it.
#[derive(Drop)]
pub struct Row {
    pub sign: Sign,
    pub line: String,
}

// Adds a row for each line.
fn push_rows(
    alloc: Global,
    rows: &mut Vec<Row>,
    sign: Sign,
    lines: &[String],
) -> Result<(), AllocError>
    ensures { OnOk result
        (map row_of rows.new.items
        ≡ map row_of rows.old.items ++ map (row_with sign) (map string_bytes lines.now)) }
{
    for line in lines {
        let line = String::from_str(alloc, line.as_str())?;
        rows.push(Row { sign, line })?;
    }
    Ok(())
}

// Rows that keep each line.
fn kept_rows(alloc: Global, lines: &[String]) -> Result<Vec<Row>, AllocError>
    ensures { IfOk result
        (λ rows. map row_of rows.items ≡ map (row_with Sign.Kept) (map string_bytes lines.now)) }
{
    let mut rows = Vec::new(alloc);
    push_rows(alloc, &mut rows, Sign::Kept, lines)?;
    Ok(rows)
}

// Adds rows that remove some lines and add others.
fn push_change(
    alloc: Global,
    rows: &mut Vec<Row>,
    old: &[String],
    new: &[String],
) -> Result<(), AllocError>
    ensures { OnOk result
        (map row_of rows.new.items
        ≡ map row_of rows.old.items
        ++ change_rows (map string_bytes old.now) (map string_bytes new.now)) }
{
    push_rows(alloc, rows, Sign::Removed, old)?;
    push_rows(alloc, rows, Sign::Added, new)?;
    Ok(())
}

fn is_next_match(old: &[String], new: &[String], at: Place, place: Place) -> bool
    ensures { OnTrue result
        (IsNextMatch (map string_bytes old.now) (map string_bytes new.now) at place) }
{
    if place.old < at.old || place.new < at.new {
        return false;
    }
    if place.old >= old.len() || place.new >= new.len() {
        return false;
    }
    same_at(old, place.old, new, place.new)
}

// Adds the rows from one place to another at which both have the same line, and a row that keeps
// that line. Adds none where they haven't, or where the other is in front of the one. Gives how far
// the rows reach then.
fn push_match(
    alloc: Global,
    rows: &mut Vec<Row>,
    old: &[String],
    new: &[String],
    at: Place,
    place: Place,
) -> Result<Place, AllocError>
    requires { IsReached (map string_bytes old.now) (map string_bytes new.now) at
        (map row_of rows.old.items) }
    ensures { IfOk result
        (λ reached. IsReached (map string_bytes old.now) (map string_bytes new.now) reached
        (map row_of rows.new.items)) }
{
    if !is_next_match(old, new, at, place) {
        return Ok(at);
    }
    push_change(
        alloc,
        rows,
        &old[at.old..place.old],
        &new[at.new..place.new],
    )?;
    push_rows(alloc, rows, Sign::Kept, &old[place.old..place.old + 1])?;
    Ok(Place {
        old: place.old + 1,
        new: place.new + 1,
    })
}

// Rows that turn some lines into others, and keep them at such of these places as have the same
// line in both.
fn rows_through(
    alloc: Global,
    old: &[String],
    new: &[String],
    matches: &[Place],
) -> Result<Vec<Row>, AllocError>
    ensures { IfOk result
        (λ rows. Turns (map string_bytes old.now) (map string_bytes new.now)
        (map row_of rows.items)) }
{
    let mut rows = Vec::new(alloc);
    let mut at = Place { old: 0, new: 0 };
    for place in matches {
        at = push_match(alloc, &mut rows, old, new, at, *place)?;
    }
    let (removed, added) = (later_lines(old, at.old), later_lines(new, at.new));
    push_change(alloc, &mut rows, removed, added)?;
    Ok(rows)
}

// Rows that turn some lines into others.
fn changes_of(alloc: Global, old: &[String], new: &[String]) -> Result<Vec<Row>, AllocError>
    ensures { IfOk result
        (λ rows. Turns (map string_bytes old.now) (map string_bytes new.now)
        (map row_of rows.items)) }
{
    let matches = matches_of(alloc, old, new)?;
    rows_through(alloc, old, new, matches.as_slice())
}

// Adds rows that keep each line after others.
fn with_kept(alloc: Global, mut rows: Vec<Row>, lines: &[String]) -> Result<Vec<Row>, AllocError>
    ensures { IfOk result
        (λ whole. map row_of whole.items
        ≡ map row_of rows.items ++ map (row_with Sign.Kept) (map string_bytes lines.now)) }
{
    push_rows(alloc, &mut rows, Sign::Kept, lines)?;
    Ok(rows)
}

// Adds rows after others.
fn with_rows(mut rows: Vec<Row>, mut more: Vec<Row>) -> Result<Vec<Row>, AllocError>
    ensures { IfOk result
        (λ whole. map row_of whole.items ≡ map row_of rows.items ++ map row_of more.items) }
{
    rows.append(&mut more)?;
    Ok(rows)
}

// The first lines, this many.
fn first_lines(lines: &[String], count: usize) -> &[String]
    requires { count ≤ length lines.now }
    ensures { map string_bytes result.now ≡ take count (map string_bytes lines.now) }
{
    let (first, _) = lines.split_at(count);
    first
}

// The lines after the first ones.
fn later_lines(lines: &[String], count: usize) -> &[String]
    requires { count ≤ length lines.now }
    ensures { map string_bytes result.now ≡ drop count (map string_bytes lines.now) }
{
    let (_, later) = lines.split_at(count);
    later
}

/// Rows that turn the lines of one text into those of another.
pub(crate) fn script_of(
    alloc: Global,
    old: &[String],
    new: &[String],
) -> Result<Vec<Row>, AllocError>
    ensures { IfOk result
        (λ rows. IsScript (map string_bytes old.now) (map string_bytes new.now)
        (map row_of rows.items)) }
{
    let front = common_front(old, new);
    let kept = first_lines(old, front);
    let old_rest = later_lines(old, front);
    let new_rest = later_lines(new, front);
    let back = common_back(old_rest, new_rest);
    let removed = first_lines(old_rest, old_rest.len() - back);
    let added = first_lines(new_rest, new_rest.len() - back);
    let ending = later_lines(old_rest, old_rest.len() - back);
    let begun = kept_rows(alloc, kept)?;
    let changes = changes_of(alloc, removed, added)?;
    let changed = with_rows(begun, changes)?;
    let whole = with_kept(alloc, changed, ending)?;
    Ok(whole)
}
