//! What a log comes to.
ghost use Rattle.std.specs.Prelude.{◌≡◌, ◌++◌, count_by, IfOk, IfErr, OnOk, option_to_list};
ghost use Rattle.std.specs.List.{flat_map};
ghost use Rattle.s4_types.specs.declared.refusals.Refusal.TheVariants.{NoMemory};
ghost use Rattle.drive.specs.Fields.{state_in, store_of};
ghost use Rattle.history_view.specs.LogRows.{begins, is_of, kinds_in, stat_of};
ghost use Rattle.history_view.specs.Logs.{ShowsStats, stat_in, turned, at_most};

use crate::changes::{Kind, changes_between};
use crate::filters::{begins, is_kind, of_kind};
use crate::logs::{LogQuery, objects_asked, push_changes};
use crate::rows::LogRow;
use drive::Drive;
use s4_types::{Moment, ObjectId, Refusal};
use segment_word::Naming;
use std::alloc::{AllocError, Global};

/// How many changes there are of each kind: one that is told in several rows counts once.
#[derive(Clone, Copy)]
pub struct KindCounts {
    pub made: u64,
    pub deleted: u64,
    pub attribute: u64,
    pub cut: u64,
    pub written: u64,
    pub lengthened: u64,
    pub touched: u64,
}

/// How often an object was changed, in which ways, and when.
#[derive(Clone, Copy)]
pub struct ObjectStat {
    pub object: ObjectId,
    /// How many changes there are: one that is told in several rows counts once.
    pub changes: u64,
    /// How many of them are of each kind.
    pub kinds: KindCounts,
    /// The moment of the first of them.
    pub first: Moment,
    /// The moment of the last of them.
    pub last: Moment,
}

fn count_begun(rows: &[LogRow]) -> u64
    ensures { result ≡ count_by begins rows.now }
{
    let mut count = 0;
    for row in rows {
        if begins(row) {
            count += 1;
        }
    }
    count
}

// Whether a row is a change of this kind.
fn is_of(kind: Kind, row: &LogRow) -> bool
    ensures { result ≡ is_of kind row.now }
{
    match row {
        LogRow::Changed { change, .. } => is_kind(kind, change.kind),
        LogRow::Hidden(_) => false,
    }
}

fn count_of(rows: &[LogRow], kind: Kind) -> u64
    ensures { result ≡ count_by (is_of kind) rows.now }
{
    let mut count = 0;
    for row in rows {
        if is_of(kind, row) {
            count += 1;
        }
    }
    count
}

fn kinds_in(rows: &[LogRow]) -> KindCounts
    ensures { result ≡ kinds_in rows.now }
{
    KindCounts {
        made: count_of(rows, Kind::Made),
        deleted: count_of(rows, Kind::Deleted),
        attribute: count_of(rows, Kind::Attribute),
        cut: count_of(rows, Kind::Cut),
        written: count_of(rows, Kind::Written),
        lengthened: count_of(rows, Kind::Lengthened),
        touched: count_of(rows, Kind::Touched),
    }
}

// What rows of an object come to. Nothing where there are none.
fn stat_of(object: ObjectId, rows: &[LogRow]) -> Option<ObjectStat>
    ensures { result ≡ stat_of object rows.now }
{
    let (changes, kinds) = (count_begun(rows), kinds_in(rows));
    match rows {
        [] => None,
        [only] => Some(ObjectStat {
            object,
            changes,
            kinds,
            first: only.moment(),
            last: only.moment(),
        }),
        [first, .., last] => Some(ObjectStat {
            object,
            changes,
            kinds,
            first: first.moment(),
            last: last.moment(),
        }),
    }
}

// What the changes of an object come to that are asked for.
fn stat_in<J: Naming>(
    alloc: Global,
    drive: &mut Drive<J>,
    object: ObjectId,
    query: &LogQuery,
) -> Result<Option<ObjectStat>, Refusal>
    ensures stat { IfOk result
        (λ stat. stat ≡ stat_in (state_in drive.old) (store_of drive.old) query.now object) }
    ensures refusal { IfErr result (λ e. e ≡ NoMemory) }
    ensures ledger { drive.new.ledger ≡ drive.old.ledger }
    ensures store { store_of drive.new ≡ store_of drive.old }
{
    let changes = changes_between(alloc, drive, object, query.since, query.until)?;
    let mut rows = Vec::new(alloc);
    push_changes(&mut rows, object, changes.as_slice())?;
    let kept = of_kind(alloc, rows.as_slice(), query.kind)?;
    Ok(stat_of(object, kept.as_slice()))
}

// Adds it where there is one.
fn push_stat(stats: &mut Vec<ObjectStat>, stat: Option<ObjectStat>) -> Result<(), AllocError>
    ensures { OnOk result (stats.new.items ≡ stats.old.items ++ option_to_list stat) }
{
    if let Some(stat) = stat {
        stats.push(stat)?;
    }
    Ok(())
}

// The same of each of these objects.
fn stats_in<J: Naming>(
    alloc: Global,
    drive: &mut Drive<J>,
    objects: &[ObjectId],
    query: &LogQuery,
) -> Result<Vec<ObjectStat>, Refusal>
    ensures stats { IfOk result
        (λ stats. stats.items
        ≡ flat_map
        (λ o. option_to_list
        (stat_in (state_in drive.old) (store_of drive.old) query.now o)) objects.now) }
    ensures refusal { IfErr result (λ e. e ≡ NoMemory) }
    ensures ledger { drive.new.ledger ≡ drive.old.ledger }
    ensures store { store_of drive.new ≡ store_of drive.old }
{
    let mut stats = Vec::new(alloc);
    for object in objects {
        let stat = stat_in(alloc, drive, *object, query)?;
        push_stat(&mut stats, stat)?;
    }
    Ok(stats)
}

fn turned(stats: Vec<ObjectStat>, is_reversed: bool) -> Vec<ObjectStat>
    ensures { result.items ≡ turned is_reversed stats.items }
{
    let mut stats = stats;
    if is_reversed {
        stats.reverse();
    }
    stats
}

fn at_most(stats: Vec<ObjectStat>, limit: Option<u64>) -> Vec<ObjectStat>
    ensures { result.items ≡ at_most limit stats.items }
{
    let mut stats = stats;
    if let Some(limit) = limit {
        stats.truncate(limit as usize);
    }
    stats
}

/// What the log that is asked for comes to: each object once that has changes in it, by ascending
/// number, or by descending where the order is reversed, and no more of them than the limit. The
/// drive and its clock stay.
///
/// NoMemory alone, where the memory for it is refused.
pub fn log_stats<J: Naming>(
    alloc: Global,
    drive: &mut Drive<J>,
    query: &LogQuery,
) -> Result<Vec<ObjectStat>, Refusal>
    ensures stats { IfOk result
        (λ stats. ShowsStats (state_in drive.old) (store_of drive.old) query.now stats.items) }
    ensures refusal { IfErr result (λ e. e ≡ NoMemory) }
    ensures ledger { drive.new.ledger ≡ drive.old.ledger }
    ensures store { store_of drive.new ≡ store_of drive.old }
{
    let objects = objects_asked(alloc, drive, query.object)?;
    let stats = stats_in(alloc, drive, objects.as_slice(), query)?;
    let turned = turned(stats, query.order.is_reversed);
    Ok(at_most(turned, query.limit))
}
