//! Which rows of a script are shown: those near a change.
ghost use Rattle.std.specs.Prelude.{◌≡◌, ℕ, ◌<◌, ◌≤◌, true, false, map, length, IfSome, IfNone};
ghost use Rattle.std.specs.List.{list_any};
ghost use Rattle.line_diff.specs.Script.{row_of};
ghost use Rattle.line_diff.specs.Spans.{is_change, is_near, IsShown};
ghost use Rattle.line_diff.specs.private.Finding.{IsFirstShown, IsHiddenFrom, IsRunEnd, IsNextSpan};

use crate::script::{Row, Sign};

/// How many rows are shown in front of a change and after it.
pub(crate) const CONTEXT_ROWS: usize = 3;

/// Rows that are shown, one after the other: the first and the last of them.
#[derive(Clone, Copy, PartialEq, Eq)]
pub struct RowSpan {
    pub first: usize,
    pub last: usize,
}

fn is_change(row: &Row) -> bool
    ensures { result ≡ is_change (row_of row.now) }
{
    match row.sign {
        Sign::Kept => false,
        Sign::Removed => true,
        Sign::Added => true,
    }
}

fn has_change(rows: &[Row]) -> bool
    ensures { result ≡ list_any (λ row. is_change (row_of row)) rows.now }
{
    rows.iter().any(|row| is_change(row))
}

// Whether a row is a change, or near one.
fn is_near(rows: &[Row], at: usize) -> bool
    requires { at < length rows.now }
    ensures { result ≡ is_near (map row_of rows.now) at }
{
    let from = at.max(CONTEXT_ROWS) - CONTEXT_ROWS;
    let to = rows.len().min(at + CONTEXT_ROWS + 1);
    has_change(&rows[from..to])
}

// The first row from one on that is shown.
fn first_shown(rows: &[Row], from: usize) -> Option<usize>
    ensures some { IfSome result (IsFirstShown (map row_of rows.now) from) }
    ensures none { IfNone result (IsHiddenFrom (map row_of rows.now) from) }
{
    for at in from..rows.len() {
        if is_near(rows, at) {
            return Some(at);
        }
    }
    None
}

// The last of the rows that are shown one after the other from one on.
fn last_shown(rows: &[Row], first: usize) -> usize
    requires { IsShown (map row_of rows.now) first }
    ensures { IsRunEnd (map row_of rows.now) first result }
{
    for at in first + 1..rows.len() {
        if !is_near(rows, at) {
            return at - 1;
        }
    }
    rows.len() - 1
}

/// The next rows that are shown, from a row on.
pub(crate) fn next_span(rows: &[Row], from: usize) -> Option<RowSpan>
    ensures some { IfSome result (IsNextSpan (map row_of rows.now) from) }
    ensures ordered { IfSome result
        (λ span. from ≤ span.first × span.first ≤ span.last × span.last < length rows.now) }
    ensures none { IfNone result (IsHiddenFrom (map row_of rows.now) from) }
{
    let first = first_shown(rows, from)?;
    let last = last_shown(rows, first);
    Some(RowSpan { first, last })
}
