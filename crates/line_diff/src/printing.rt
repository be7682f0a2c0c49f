//! The text of a unified difference.
ghost use Rattle.std.specs.Prelude.{◌≡◌, ◌++◌, ◌+◌, ◌<◌, ◌≤◌, ◌^◌, map, length, count_by, IfOk};
ghost use Rattle.std.specs.Prelude.{OnOk, string_bytes};
ghost use Rattle.std.specs.List.{flat_map};
ghost use Rattle.line_diff.specs.Lines.{lines_of};
ghost use Rattle.line_diff.specs.Script.{row_of, is_old, is_new, old_lines, new_lines};
ghost use Rattle.line_diff.specs.Unified.{sign_text, ends_line, remark_text, row_text, side_text};
ghost use Rattle.line_diff.specs.Unified.{header_text, hunk_text, place_at, ShowsHunks, IsUnified};

use crate::lines::lines_of;
use crate::places::Place;
use crate::script::{Row, Sign, script_of};
use crate::spans::{RowSpan, next_span};
use std::alloc::{AllocError, Global};

fn sign_text(sign: Sign) -> &'static str
    ensures { result.now ≡ sign_text sign }
{
    match sign {
        Sign::Kept => " ",
        Sign::Removed => "-",
        Sign::Added => "+",
    }
}

fn ends_line(line: &str) -> bool
    ensures { result ≡ ends_line line.now }
{
    line.ends_with('\n')
}

fn remark_text() -> &'static str
    ensures { result.now ≡ remark_text }
{
    "\n\\ No newline at end of file\n"
}

// Adds a row to a text.
fn push_row(text: &mut String, row: &Row) -> Result<(), AllocError>
    ensures { OnOk result
        (string_bytes text.new ≡ string_bytes text.old ++ row_text (row_of row.now)) }
{
    text.push_str(sign_text(row.sign))?;
    text.push_str(row.line.as_str())?;
    if ends_line(row.line.as_str()) {
        return Ok(());
    }
    text.push_str(remark_text())?;
    Ok(())
}

// Adds rows to a text.
fn push_rows(text: &mut String, rows: &[Row]) -> Result<(), AllocError>
    ensures { OnOk result
        (string_bytes text.new ≡ string_bytes text.old ++ flat_map row_text (map row_of rows.now)) }
{
    for row in rows {
        push_row(text, row)?;
    }
    Ok(())
}

// Where lines are in a text: the number of the first, from 1 on, and how many they are where that
// isn't one. Where they are none, the number of the line in front of them.
fn side_text(alloc: Global, before: usize, lines: usize) -> Result<String, AllocError>
    requires { before + lines < 2 ^ 64 }
    ensures { IfOk result (λ text. string_bytes text ≡ side_text before lines) }
{
    if lines == 0 {
        return format!(in alloc; "{before},0");
    }
    let first = before + 1;
    if lines == 1 {
        return format!(in alloc; "{first}");
    }
    format!(in alloc; "{first},{lines}")
}

fn header_text(alloc: Global, from: Place, to: Place) -> Result<String, AllocError>
    requires old { from.old ≤ to.old }
    requires new { from.new ≤ to.new }
    ensures { IfOk result (λ text. string_bytes text ≡ header_text from to) }
{
    let old = side_text(alloc, from.old, to.old - from.old)?;
    let new = side_text(alloc, from.new, to.new - from.new)?;
    format!(in alloc; "@@ -{old} +{new} @@\n")
}

fn has_old(row: &Row) -> bool
    ensures { result ≡ is_old (row_of row.now) }
{
    match row.sign {
        Sign::Kept => true,
        Sign::Removed => true,
        Sign::Added => false,
    }
}

fn has_new(row: &Row) -> bool
    ensures { result ≡ is_new (row_of row.now) }
{
    match row.sign {
        Sign::Kept => true,
        Sign::Removed => false,
        Sign::Added => true,
    }
}

fn old_rows(rows: &[Row]) -> usize
    ensures { result ≡ count_by (λ row. is_old (row_of row)) rows.now }
{
    rows.iter().filter(|row| has_old(*row)).count()
}

fn new_rows(rows: &[Row]) -> usize
    ensures { result ≡ count_by (λ row. is_new (row_of row)) rows.now }
{
    rows.iter().filter(|row| has_new(*row)).count()
}

// How many lines rows have in each text.
fn lines_in(rows: &[Row]) -> Place
    ensures old { result.old ≡ length (old_lines (map row_of rows.now)) }
    ensures new { result.new ≡ length (new_lines (map row_of rows.now)) }
{
    Place {
        old: old_rows(rows),
        new: new_rows(rows),
    }
}

// How many lines are in front of a row, counted from one before it.
fn place_from(rows: &[Row], place: Place, from: usize, to: usize) -> Place
    requires ordered { from ≤ to }
    requires within { to ≤ length rows.now }
    requires place { place ≡ place_at (map row_of rows.now) from }
    ensures { result ≡ place_at (map row_of rows.now) to }
{
    let between = lines_in(&rows[from..to]);
    Place {
        old: place.old + between.old,
        new: place.new + between.new,
    }
}

// Adds the hunk of a span that is between two places.
fn push_hunk(
    alloc: Global,
    text: &mut String,
    rows: &[Row],
    span: RowSpan,
    from: Place,
    to: Place,
) -> Result<(), AllocError>
    requires ordered { span.first ≤ span.last }
    requires within { span.last < length rows.now }
    requires from { from ≡ place_at (map row_of rows.now) span.first }
    requires to { to ≡ place_at (map row_of rows.now) (span.last + 1) }
    ensures { OnOk result
        (string_bytes text.new ≡ string_bytes text.old ++ hunk_text (map row_of rows.now) span) }
{
    let header = header_text(alloc, from, to)?;
    text.push_str(header.as_str())?;
    push_rows(text, &rows[span.first..span.last + 1])?;
    Ok(())
}

// The hunks of rows.
fn hunks_text(alloc: Global, rows: &[Row]) -> Result<String, AllocError>
    ensures { IfOk result (λ text. ShowsHunks (map row_of rows.now) (string_bytes text)) }
{
    let mut text = String::new(alloc);
    let mut place = Place { old: 0, new: 0 };
    let mut from = 0;
    while let Some(span) = next_span(rows, from) {
        let start = place_from(rows, place, from, span.first);
        let end = place_from(rows, start, span.first, span.last + 1);
        push_hunk(alloc, &mut text, rows, span, start, end)?;
        place = end;
        from = span.last + 1;
    }
    Ok(text)
}

/// The unified difference of two texts: hunks as `diff -u` prints them, each with its line of where
/// it is and its rows, of which at most three in front of a change and after it are kept ones.
/// Nothing where the texts are the same.
pub fn unified(alloc: Global, old: &str, new: &str) -> Result<String, AllocError>
    ensures { IfOk result
        (λ text. IsUnified (lines_of old.now) (lines_of new.now) (string_bytes text)) }
{
    let old_lines = lines_of(alloc, old)?;
    let new_lines = lines_of(alloc, new)?;
    let rows = script_of(alloc, old_lines.as_slice(), new_lines.as_slice())?;
    hunks_text(alloc, rows.as_slice())
}
