//! Which rows of an audit are printed.
ghost use Rattle.std.specs.Prelude.{◌≡◌, ◌&&◌, Bool, nat_le, filter, IfErr, IfOk};
ghost use Rattle.s4_types.specs.declared.audit_rows.AuditRow.{AuditRow as Row};
ghost use Rattle.s4_types.specs.declared.refusals.Refusal.TheVariants.{NoMemory};
ghost use Rattle.s4_model.specs.Audit.{audit_of};
ghost use Rattle.drive.specs.Fields.{state_in};
ghost use Rattle.s4_reading.specs.Auditing.{at_most, is_chosen, is_of_kind, is_of_object};

use drive::Drive;
use s4_types::{AuditKind, AuditRow, Moment, Refusal};
use segment_word::Naming;
use std::alloc::{AllocError, Global};

/// What says of each row of an audit whether it is printed.
pub(crate) trait Chooses {
    // Whether a row is printed.
    ghost chooses: { Self → Row → Bool };

    /// Whether a row is printed.
    fn chooses(&self, row: &AuditRow) -> bool
        ensures { result ≡ chooses self.now row.now };
}

/// Which rows `audit` asks for.
#[derive(Clone, Copy)]
pub(crate) struct RowQuery {
    /// The one object, and none for all.
    pub object: Option<u64>,
    /// The first moment.
    pub since: Moment,
    /// The last moment.
    pub until: Moment,
    /// The one kind, and none for all.
    pub kind: Option<AuditKind>,
}

fn is_of_object(object: Option<u64>, row: &AuditRow) -> bool
    ensures { result ≡ is_of_object object row.now }
{
    match object {
        Some(object) => row.object.number() == object,
        None => true,
    }
}

fn is_of_kind(kind: Option<AuditKind>, row: &AuditRow) -> bool
    ensures { result ≡ is_of_kind kind row.now }
{
    match kind {
        Some(kind) => row.kind.number() == kind.number(),
        None => true,
    }
}

fn is_between(since: Moment, until: Moment, row: &AuditRow) -> bool
    ensures { result ≡ (nat_le since row.now.moment && nat_le row.now.moment until) }
{
    since <= row.moment && row.moment <= until
}

impl Chooses for RowQuery {
    ghost chooses = { is_chosen };

    fn chooses(&self, row: &AuditRow) -> bool {
        let (of_object, of_kind) = (is_of_object(self.object, row), is_of_kind(self.kind, row));
        let between = is_between(self.since, self.until, row);
        of_object && of_kind && between
    }
}

/// The rows of a drive's audit that are chosen, in order of time. NoMemory alone.
pub(crate) fn audit_rows_by<J: Naming, C: Chooses>(
    alloc: Global,
    drive: &Drive<J>,
    by: &C,
) -> Result<Vec<AuditRow>, Refusal>
    ensures rows { IfOk result
        (λ kept. kept.items ≡ filter (C.chooses by.now) (audit_of (state_in drive.now))) }
    ensures refusal { IfErr result (λ e. e ≡ NoMemory) }
{
    let rows = drive.audit_rows()?;
    let kept = rows_by(alloc, rows.as_slice(), by)?;
    Ok(kept)
}

// Of these rows the chosen ones, in their order.
fn rows_by<C: Chooses>(
    alloc: Global,
    rows: &[AuditRow],
    by: &C,
) -> Result<Vec<AuditRow>, AllocError>
    ensures { IfOk result (λ kept. kept.items ≡ filter (C.chooses by.now) rows.now) }
{
    let mut kept = Vec::new(alloc);
    for row in rows {
        if by.chooses(row) {
            kept.push(*row)?;
        }
    }
    Ok(kept)
}

/// The first of these rows where there is a limit, and else all of them.
pub(crate) fn at_most(rows: Vec<AuditRow>, limit: Option<u64>) -> Vec<AuditRow>
    ensures { result.items ≡ at_most limit rows.items }
{
    let mut rows = rows;
    if let Some(limit) = limit {
        rows.truncate(limit as usize);
    }
    rows
}
