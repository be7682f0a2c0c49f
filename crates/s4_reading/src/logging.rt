//! `log`: what was changed, and when, and which flushes hid some of it.
ghost use Rattle.std.specs.Prelude.{◌≡◌, ◌+◌, ◌^◌, ◌<◌, IfErr, IfNone, IfOk, IfSome, OnOk, option_map};
ghost use Rattle.drive.specs.Fields.{state_in, store_of};
ghost use Rattle.s4_images.specs.Moments.{HasNoMoment, IsTimeRefused, moment_said};
ghost use Rattle.s4_reading.specs.Logging.{Logs, PrintsLog, PrintsStats, IsQuery, kind_asked};
ghost use Rattle.s4_reading.specs.Logging.{line_of_row, line_of_stat};

use crate::choosing::audit_rows_by;
use crate::forms::{Form, write_table};
use drive::Drive;
use history_text::{log_head, log_json, log_line, stat_head, stat_json, stat_line};
use history_view::{Kind, LogOrder, LogQuery, LogRow, ObjectStat, log_rows, log_stats};
use moment_words::MomentWord;
use s4_command::{ChangeKind, LogAsked};
use s4_images::{Failure, Prints, Verdict, moment_said, object_asked, write_lines};
use s4_types::Moment;
use segment_word::Naming;
use serving::Sink;
use std::alloc::{AllocError, Global};

/// Prints what was changed in a drive between two moments, and when; or what that comes to, object
/// by object, where that is asked for.
pub(crate) fn write_log<J: Naming, W: Sink>(
    alloc: Global,
    drive: &mut Drive<J>,
    asked: &LogAsked<'_>,
    writer: &mut W,
) -> Result<Verdict, Failure>
    requires writer { W.failures writer.old + 1 < 2 ^ 64 }
    ensures logs { IfOk result
        (λ verdict. Logs drive.old asked.now verdict (W.passed writer.old)
        (W.passed writer.new)) }
{
    let form = Form::over(drive, asked.moments, asked.json);
    let query = query_of(drive, asked)?;
    if asked.stat {
        write_stats(alloc, drive, &query, &form, writer)?;
        return Ok(Verdict::Fine);
    }
    write_changes(alloc, drive, &query, &form, writer)?;
    Ok(Verdict::Fine)
}

fn kind_asked(kind: ChangeKind) -> Kind
    ensures { result ≡ kind_asked kind }
{
    match kind {
        ChangeKind::Made => Kind::Made,
        ChangeKind::Deleted => Kind::Deleted,
        ChangeKind::Written => Kind::Written,
        ChangeKind::Cut => Kind::Cut,
        ChangeKind::Lengthened => Kind::Lengthened,
        ChangeKind::Attribute => Kind::Attribute,
        ChangeKind::Touched => Kind::Touched,
    }
}

fn kind_if_asked(kind: Option<ChangeKind>) -> Option<Kind>
    ensures { result ≡ option_map kind_asked kind }
{
    match kind {
        Some(kind) => Some(kind_asked(kind)),
        None => None,
    }
}

fn query_of<J: Naming>(drive: &mut Drive<J>, asked: &LogAsked<'_>) -> Result<LogQuery, Failure>
    ensures query { IfOk result (IsQuery (state_in drive.old) (store_of drive.old) asked.now) }
    ensures ledger { drive.new.ledger ≡ drive.old.ledger }
    ensures store { store_of drive.new ≡ store_of drive.old }
{
    let since = moment_or(drive, asked.since, 0)?;
    let until = moment_or(drive, asked.until, u64::MAX)?;
    let at = drive.clock();
    let object = object_asked(drive, asked.object, asked.name, at)?;
    Ok(LogQuery {
        object,
        since,
        until,
        kind: kind_if_asked(asked.kind),
        limit: asked.limit,
        order: LogOrder {
            by_object: asked.by_object,
            is_reversed: asked.reverse,
        },
    })
}

/// The moment that a word says, and this one where there is no word. An error for a time exactly
/// where the drive's moments are numbers.
pub(crate) fn moment_or<J: Naming>(
    drive: &Drive<J>,
    word: Option<MomentWord>,
    other: u64,
) -> Result<Moment, Failure>
    ensures none { IfNone word (IfOk result (λ moment. moment ≡ other)) }
    ensures some { IfSome word
        (λ w. IfOk result (λ moment. moment ≡ moment_said (state_in drive.now) w)) }
    ensures said { OnOk result (HasNoMoment (state_in drive.now) word → ⊥) }
    ensures refused { IfErr result (IsTimeRefused (state_in drive.now) word) }
{
    match word {
        Some(word) => moment_said(drive, word),
        None => Ok(Moment::new(other)),
    }
}

// Prints the log that is asked for, and below it the flushes that hid what is asked for.
fn write_changes<J: Naming, W: Sink>(
    alloc: Global,
    drive: &mut Drive<J>,
    query: &LogQuery,
    form: &Form,
    writer: &mut W,
) -> Result<(), Failure>
    requires writer { W.failures writer.old + 1 < 2 ^ 64 }
    ensures log { OnOk result
        (PrintsLog (state_in drive.old) (store_of drive.old) query.now form.now.style form.now.json
        (W.passed writer.old) (W.passed writer.new)) }
{
    let rows = log_rows(alloc, drive, query)?;
    let flushes = audit_rows_by(alloc, drive, query)?;
    let head = form.head(log_head(form.style));
    write_table(alloc, form, head, rows.as_slice(), writer)?;
    write_lines(alloc, form, flushes.as_slice(), writer)?;
    Ok(())
}

impl Prints<LogRow> for Form {
    ghost line = { λ form. line_of_row form.json form.style };

    fn line(&self, alloc: Global, row: &LogRow) -> Result<String, AllocError> {
        if self.json {
            return log_json(alloc, row, self.style);
        }
        log_line(alloc, row, self.style)
    }
}

// Prints what the log comes to that is asked for.
fn write_stats<J: Naming, W: Sink>(
    alloc: Global,
    drive: &mut Drive<J>,
    query: &LogQuery,
    form: &Form,
    writer: &mut W,
) -> Result<(), Failure>
    requires writer { W.failures writer.old + 1 < 2 ^ 64 }
    ensures stats { OnOk result
        (PrintsStats (state_in drive.old) (store_of drive.old) query.now form.now.style form.now.json
        (W.passed writer.old) (W.passed writer.new)) }
{
    let stats = log_stats(alloc, drive, query)?;
    let head = form.head(stat_head(form.style));
    write_table(alloc, form, head, stats.as_slice(), writer)
}

impl Prints<ObjectStat> for Form {
    ghost line = { λ form. line_of_stat form.json form.style };

    fn line(&self, alloc: Global, stat: &ObjectStat) -> Result<String, AllocError> {
        if self.json {
            return stat_json(alloc, stat, self.style);
        }
        stat_line(alloc, stat, self.style)
    }
}
