//! The log of a drive.
ghost use Rattle.std.specs.Prelude.{◌≡◌, ◌++◌, map, filter, IfOk, IfErr, OnOk};
ghost use Rattle.std.specs.List.{flat_map};
ghost use Rattle.s4_types.specs.declared.refusals.Refusal.TheVariants.{NoMemory};
ghost use Rattle.drive.specs.Fields.{state_in, store_of};
ghost use Rattle.history_view.specs.declared.rows.LogRow.TheVariants.{Changed, Hidden};
ghost use Rattle.history_view.specs.Logs.{AreAsked, AreRowsFrom, ShowsLog, IsShown, IsWithHidden};
ghost use Rattle.history_view.specs.Logs.{rows_of, concerns, cuts};

use crate::changes::{Kind, ObjectChange, changes_between};
use crate::filters::{limited, of_kind};
use crate::rows::{LogOrder, LogRow, in_order};
use drive::Drive;
use s4_types::{Moment, ObjectId, Refusal, Span};
use segment_word::Naming;
use std::alloc::{AllocError, Global};

/// What is asked of a log.
#[derive(Clone, Copy)]
pub struct LogQuery {
    /// The object whose log it is; none where it is that of all objects.
    pub object: Option<ObjectId>,
    /// The first moment that is asked for.
    pub since: Moment,
    /// The last moment that is asked for.
    pub until: Moment,
    /// The kind of changes that is asked for; none where all are. A change that is told in several
    /// rows has the kind of the first.
    pub kind: Option<Kind>,
    /// The most changes that are shown, if there is a limit.
    pub limit: Option<u64>,
    pub order: LogOrder,
}

/// All objects that have a row, by ascending number.
pub fn all_objects<J: Naming>(alloc: Global, drive: &Drive<J>) -> Result<Vec<ObjectId>, AllocError>
    ensures { IfOk result (λ objects. AreRowsFrom (store_of drive.now) 0 objects.items) }
{
    let mut objects = Vec::new(alloc);
    let mut last = ObjectId::new(0);
    while let Some(object) = drive.next_row(last) {
        objects.push(object)?;
        last = object;
    }
    Ok(objects)
}

/// The objects that are asked for: the one, or all that the drive has something of, by ascending
/// number.
pub(crate) fn objects_asked<J: Naming>(
    alloc: Global,
    drive: &Drive<J>,
    object: Option<ObjectId>,
) -> Result<Vec<ObjectId>, AllocError>
    ensures { IfOk result (λ objects. AreAsked (store_of drive.now) object objects.items) }
{
    let Some(object) = object else {
        return all_objects(alloc, drive);
    };
    let mut objects = Vec::new(alloc);
    objects.push(object)?;
    Ok(objects)
}

fn concerns(asked: &Option<ObjectId>, object: ObjectId) -> bool
    ensures { result ≡ concerns asked.now object }
{
    match asked {
        None => true,
        Some(asked) => object.number() == 0 || object.number() == asked.number(),
    }
}

/// Whether a run of hidden moments, of an object or of all under number 0, hides moments between
/// these two of the object that is asked for, or of any where none is named.
pub fn cuts(asked: &Option<ObjectId>, since: Moment, until: Moment, run: &Span) -> bool
    ensures { result ≡ cuts asked.now since until run.now }
{
    run.first.number() <= until.number()
        && since.number() <= run.last.number()
        && concerns(asked, run.object)
}

fn hidden_row(run: &Span) -> LogRow
    ensures { result ≡ Hidden run.now }
{
    LogRow::Hidden(*run)
}

// The rows of the runs that cut a log of these moments, and then those of the changes.
fn with_runs(
    alloc: Global,
    changes: &[LogRow],
    runs: &[Span],
    asked: &Option<ObjectId>,
    since: Moment,
    until: Moment,
) -> Result<Vec<LogRow>, AllocError>
    ensures { IfOk result
        (λ rows. rows.items
        ≡ map Hidden (filter (cuts asked.now since until) runs.now) ++ changes.now) }
{
    let mut rows = Vec::new(alloc);
    for run in runs {
        if cuts(asked, since, until, run) {
            rows.push(hidden_row(run))?;
        }
    }
    rows.extend_from_slice(changes)?;
    Ok(rows)
}

// The same of a drive's runs.
fn with_hidden<J: Naming>(
    alloc: Global,
    drive: &Drive<J>,
    query: &LogQuery,
    changes: &[LogRow],
) -> Result<Vec<LogRow>, Refusal>
    ensures rows { IfOk result
        (λ rows. IsWithHidden (state_in drive.now) query.now changes.now rows.items) }
    ensures refusal { IfErr result (λ e. e ≡ NoMemory) }
{
    let runs = drive.spans()?;
    let rows = with_runs(
        alloc,
        changes,
        runs.as_slice(),
        &query.object,
        query.since,
        query.until,
    )?;
    Ok(rows)
}

/// Adds the rows of an object's changes.
pub(crate) fn push_changes(
    rows: &mut Vec<LogRow>,
    object: ObjectId,
    changes: &[ObjectChange],
) -> Result<(), AllocError>
    ensures { OnOk result (rows.new.items ≡ rows.old.items ++ map (Changed object) changes.now) }
{
    for change in changes {
        rows.push(LogRow::Changed {
            object,
            change: *change,
        })?;
    }
    Ok(())
}

// Adds the rows of these objects' changes.
fn push_objects<J: Naming>(
    alloc: Global,
    drive: &mut Drive<J>,
    objects: &[ObjectId],
    query: &LogQuery,
    rows: &mut Vec<LogRow>,
) -> Result<(), Refusal>
    ensures rows { OnOk result
        (rows.new.items
        ≡ rows.old.items
        ++ flat_map
        (rows_of (state_in drive.old) (store_of drive.old) query.now.since
        query.now.until) objects.now) }
    ensures refusal { IfErr result (λ e. e ≡ NoMemory) }
    ensures ledger { drive.new.ledger ≡ drive.old.ledger }
    ensures store { store_of drive.new ≡ store_of drive.old }
{
    for object in objects {
        let changes = changes_between(alloc, drive, *object, query.since, query.until)?;
        push_changes(rows, *object, changes.as_slice())?;
    }
    Ok(())
}

// Of all these rows those that are shown.
fn shown(alloc: Global, rows: Vec<LogRow>, query: &LogQuery) -> Result<Vec<LogRow>, AllocError>
    ensures { IfOk result (λ shown. IsShown query.now rows.items shown.items) }
{
    let ordered = in_order(rows, query.order)?;
    let kept = of_kind(alloc, ordered.as_slice(), query.kind)?;
    Ok(limited(kept, query.limit))
}

/// The log that is asked for: a row for each entry of the objects' journals between the two moments
/// that can be read, and one for each run of hidden moments that cuts them. A row that goes on with
/// another comes directly after it. The drive and its clock stay.
///
/// NoMemory alone, where the memory for the rows is refused.
pub fn log_rows<J: Naming>(
    alloc: Global,
    drive: &mut Drive<J>,
    query: &LogQuery,
) -> Result<Vec<LogRow>, Refusal>
    ensures rows { IfOk result
        (λ rows. ShowsLog (state_in drive.old) (store_of drive.old) query.now rows.items) }
    ensures refusal { IfErr result (λ e. e ≡ NoMemory) }
    ensures ledger { drive.new.ledger ≡ drive.old.ledger }
    ensures store { store_of drive.new ≡ store_of drive.old }
{
    let objects = objects_asked(alloc, drive, query.object)?;
    let mut changes = Vec::new(alloc);
    push_objects(alloc, drive, objects.as_slice(), query, &mut changes)?;
    let rows = with_hidden(alloc, drive, query, changes.as_slice())?;
    let kept = shown(alloc, rows, query)?;
    Ok(kept)
}
