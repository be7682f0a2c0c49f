//! The rows of a log, and their order.
ghost use Rattle.std.specs.Prelude.{◌≡◌, IfOk};
ghost use Rattle.history_view.specs.LogRows.{moment_of, object_of, rank, place, IsInOrder};
ghost use Rattle.history_view.specs.LogRows.{IsOrderedBy};

use crate::changes::ObjectChange;
use s4_types::{Moment, ObjectId, Span};
use std::alloc::AllocError;

/// A row of a log.
#[derive(Clone, Copy)]
pub enum LogRow {
    /// An object was changed.
    Changed {
        object: ObjectId,
        change: ObjectChange,
    },
    /// These moments are hidden.
    Hidden(Span),
}

impl LogRow {
    /// The moment that it begins at.
    pub fn moment(&self) -> Moment
        ensures { result ≡ moment_of self.now }
    {
        match self {
            LogRow::Changed { change, .. } => change.moment,
            LogRow::Hidden(run) => run.first,
        }
    }

    /// The object that it is of; 0 where it is of all.
    pub fn object(&self) -> ObjectId
        ensures { result ≡ object_of self.now }
    {
        match self {
            LogRow::Changed { object, .. } => *object,
            LogRow::Hidden(run) => run.object,
        }
    }
}

/// The order of a log's rows.
#[derive(Clone, Copy)]
pub struct LogOrder {
    /// Whether the rows of each object are together. Else all are in order of time.
    pub by_object: bool,
    /// Whether what is greatest comes first.
    pub is_reversed: bool,
}

fn rank(is_reversed: bool, number: u64) -> u64
    ensures { result ≡ rank is_reversed number }
{
    if is_reversed {
        u64::MAX - number
    } else {
        number
    }
}

// What a row is ordered by: its object or its moment.
fn place(row: &LogRow, by_object: bool, is_reversed: bool) -> u64
    ensures { result ≡ place by_object is_reversed row.now }
{
    let number = if by_object {
        row.object().number()
    } else {
        row.moment().number()
    };
    rank(is_reversed, number)
}

// The rows by their objects, or by their moments. Those of one place keep the order that they had.
fn ordered(rows: Vec<LogRow>, by_object: bool, is_reversed: bool) -> Result<Vec<LogRow>, AllocError>
    ensures { IfOk result
        (λ ordered. IsOrderedBy (place by_object is_reversed) rows.items ordered.items) }
{
    let mut ordered = rows;
    ordered.sort_by_key(
        |row|
            ensures { result ≡ place by_object is_reversed row.now }
        { place(row, by_object, is_reversed) },
    )?;
    Ok(ordered)
}

/// The rows in the order that is asked for. Rows of one moment, and of one object where each has
/// its own together, keep the order that they had: so a change that is told in several rows stays
/// in one piece.
pub(crate) fn in_order(rows: Vec<LogRow>, order: LogOrder) -> Result<Vec<LogRow>, AllocError>
    ensures { IfOk result (λ ordered. IsInOrder order rows.items ordered.items) }
{
    let timeline = ordered(rows, false, order.is_reversed)?;
    if order.by_object {
        return ordered(timeline, true, order.is_reversed);
    }
    Ok(timeline)
}
