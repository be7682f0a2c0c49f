//! Which rows of a log are shown.
ghost use Rattle.std.specs.Prelude.{◌≡◌, false, take, IfOk};
ghost use Rattle.history_view.specs.LogRows.{is_kind, passes_kind, passes, of_kind, begins};
ghost use Rattle.history_view.specs.LogRows.{goes_on, first_changes, limited};

use crate::changes::Kind;
use crate::rows::LogRow;
use std::alloc::{AllocError, Global};

/// Whether two kinds are one.
pub(crate) fn is_kind(asked: Kind, kind: Kind) -> bool
    ensures { result ≡ is_kind asked kind }
{
    asked == kind
}

fn passes_kind(asked: Option<Kind>, has_passed: bool, kind: Kind) -> bool
    ensures { result ≡ passes_kind asked has_passed kind }
{
    match (asked, kind) {
        (None, _) => true,
        (Some(_), Kind::Continued) => has_passed,
        (Some(asked), kind) => is_kind(asked, kind),
    }
}

fn passes(asked: Option<Kind>, has_passed: bool, row: &LogRow) -> bool
    ensures { result ≡ passes asked has_passed row.now }
{
    match row {
        LogRow::Changed { change, .. } => passes_kind(asked, has_passed, change.kind),
        LogRow::Hidden(_) => true,
    }
}

/// The rows whose change is of the kind that is asked for, with those that go on with it, and all
/// runs of hidden moments; all rows where no kind is asked for.
pub(crate) fn of_kind(
    alloc: Global,
    rows: &[LogRow],
    asked: Option<Kind>,
) -> Result<Vec<LogRow>, AllocError>
    ensures { IfOk result (λ kept. kept.items ≡ of_kind asked false rows.now) }
{
    let mut kept = Vec::new(alloc);
    let mut has_passed = false;
    for row in rows {
        has_passed = passes(asked, has_passed, row);
        if has_passed {
            kept.push(*row)?;
        }
    }
    Ok(kept)
}

/// Whether a row begins a change, and doesn't go on with one.
pub(crate) fn begins(row: &LogRow) -> bool
    ensures { result ≡ begins row.now }
{
    match row {
        LogRow::Changed { change, .. } => !is_kind(change.kind, Kind::Continued),
        LogRow::Hidden(_) => false,
    }
}

fn goes_on(row: &LogRow) -> bool
    ensures { result ≡ goes_on row.now }
{
    match row {
        LogRow::Changed { change, .. } => is_kind(change.kind, Kind::Continued),
        LogRow::Hidden(_) => false,
    }
}

// How many rows there are up to this many changes, the last of them with all its rows.
fn front(rows: &[LogRow], changes: u64) -> usize
    ensures { take result rows.now ≡ first_changes changes rows.now }
{
    let (mut left, mut count) = (changes, 0);
    for row in rows {
        if left == 0 && !goes_on(row) {
            return count;
        }
        if begins(row) {
            left = left.saturating_sub(1);
        }
        count += 1;
    }
    count
}

/// The first rows, up to this many changes where there is a limit, the last of them with all its
/// rows. Runs of hidden moments don't count.
pub(crate) fn limited(rows: Vec<LogRow>, limit: Option<u64>) -> Vec<LogRow>
    ensures { result.items ≡ limited limit rows.items }
{
    let mut rows = rows;
    if let Some(limit) = limit {
        let count = front(rows.as_slice(), limit);
        rows.truncate(count);
    }
    rows
}
