//! `audit`: the rows of a drive's audit.
ghost use Rattle.std.specs.Prelude.{◌≡◌, ◌+◌, ◌^◌, ◌<◌, IfErr, IfOk, OnOk, filter};
ghost use Rattle.s4_types.specs.declared.refusals.Refusal.TheVariants.{NoMemory};
ghost use Rattle.drive.specs.Fields.{state_in};
ghost use Rattle.s4_model.specs.Audit.{audit_of};
ghost use Rattle.s4_reading.specs.Auditing.{PrintsAudit, at_most, is_asked, is_chosen};
ghost use Rattle.s4_reading.specs.Auditing.{line_of_row};
ghost use Rattle.s4_reading.specs.Logging.{AreMoments};

use crate::choosing::{RowQuery, at_most, audit_rows_by};
use crate::forms::{Form, write_table};
use crate::logging::moment_or;
use drive::Drive;
use history_text::{audit_head, audit_json, audit_line};
use s4_command::AuditAsked;
use s4_images::{Failure, Prints, Verdict};
use s4_types::{AuditRow, Refusal};
use segment_word::Naming;
use serving::Sink;
use std::alloc::{AllocError, Global};

/// Prints what was accepted by a drive between two moments, a line for each change.
pub(crate) fn write_audit<J: Naming, W: Sink>(
    alloc: Global,
    drive: &Drive<J>,
    asked: &AuditAsked<'_>,
    writer: &mut W,
) -> Result<Verdict, Failure>
    requires writer { W.failures writer.old + 1 < 2 ^ 64 }
    ensures prints { IfOk result
        (λ verdict. PrintsAudit drive.now asked.now verdict (W.passed writer.old)
        (W.passed writer.new)) }
{
    let form = Form::over(drive, asked.moments, asked.json);
    let query = query_of(drive, asked)?;
    let shown = rows_shown(alloc, drive, &query, asked.limit)?;
    let head = form.head(audit_head(form.style));
    write_table(alloc, &AuditForm(form), head, shown.as_slice(), writer)?;
    Ok(Verdict::Fine)
}

// The form in which the rows of an audit are printed.
#[derive(Clone, Copy)]
struct AuditForm(Form);

impl Prints<AuditRow> for AuditForm {
    ghost line = { λ form. line_of_row form.0.json form.0.style };

    fn line(&self, alloc: Global, row: &AuditRow) -> Result<String, AllocError> {
        if self.0.json {
            return audit_json(alloc, row, self.0.style);
        }
        audit_line(alloc, row, self.0.style)
    }
}

// The rows of the drive's audit that a query asks for. NoMemory alone.
fn rows_shown<J: Naming>(
    alloc: Global,
    drive: &Drive<J>,
    query: &RowQuery,
    limit: Option<u64>,
) -> Result<Vec<AuditRow>, Refusal>
    ensures rows { IfOk result
        (λ shown. shown.items ≡ at_most limit (filter (is_chosen query.now)
        (audit_of (state_in drive.now)))) }
    ensures refusal { IfErr result (λ e. e ≡ NoMemory) }
{
    let among = audit_rows_by(alloc, drive, query)?;
    Ok(at_most(among, limit))
}

// Which rows are asked for. An error for a time exactly where the drive's moments are numbers.
fn query_of<J: Naming>(drive: &Drive<J>, asked: &AuditAsked<'_>) -> Result<RowQuery, Failure>
    ensures query { IfOk result
        (λ query. is_chosen query ≡ is_asked (state_in drive.now) asked.now) }
    ensures moments { OnOk result (AreMoments (state_in drive.now) asked.now.since asked.now.until) }
{
    let since = moment_or(drive, asked.since, 0)?;
    let until = moment_or(drive, asked.until, u64::MAX)?;
    Ok(RowQuery {
        object: asked.object,
        since,
        until,
        kind: asked.kind,
    })
}
