ghost use Rattle.std.specs.Prelude.{◌≡◌, IfOk, IfErr};
ghost use Rattle.std.specs.List.{filter_map};
ghost use Rattle.s4_model.specs.Audit.{row_by, row_from};
ghost use Rattle.s4_types.specs.declared.refusals.Refusal.TheVariants.{NoMemory};

use s4_types::{Accepted, AuditKind, AuditRow, Bytes, Change, Moment, ObjectId, Refusal};
use std::alloc::Global;

/// The row of a change at its moment.
pub fn row_of(change: &Change, moment: Moment) -> AuditRow
    ensures { result ≡ row_by moment change.now }
{
    let (kind, object, first, second) = match change {
        Change::Create { object, attribute } => {
            (AuditKind::Create, *object, attribute.len() as u64, 0)
        }
        Change::Delete { object } => (AuditKind::Delete, *object, 0, 0),
        Change::Write {
            object,
            offset,
            bytes,
        } => (AuditKind::Write, *object, *offset, bytes.len() as u64),
        Change::Truncate { object, size } => (AuditKind::Truncate, *object, *size, 0),
        Change::SetAttr { object, attribute } => {
            (AuditKind::SetAttr, *object, attribute.len() as u64, 0)
        }
        Change::SetWindow { window } => (AuditKind::SetWindow, ObjectId::new(0), *window, 0),
        Change::Flush { first, last } => {
            (
                AuditKind::Flush,
                ObjectId::new(0),
                first.number(),
                last.number(),
            )
        }
        Change::FlushO {
            object,
            first,
            last,
        } => (AuditKind::FlushO, *object, first.number(), last.number()),
    };
    AuditRow {
        moment,
        kind,
        object,
        first,
        second,
    }
}

/// The row of a change of a moment or a later one.
fn row_from(accepted: &Accepted, from: Moment) -> Option<AuditRow>
    ensures { result ≡ row_from from accepted.now }
{
    if accepted.moment < from {
        return None;
    }
    Some(row_of(&accepted.change, accepted.moment))
}

/// The rows of these changes from a moment on.
pub fn rows_from(
    alloc: Global,
    changes: &[Accepted],
    from: Moment,
) -> Result<Vec<AuditRow>, Refusal>
    ensures ok { IfOk result (λ rows. rows.items ≡ filter_map (row_from from) changes.now) }
    ensures err { IfErr result (λ refusal. refusal ≡ NoMemory) }
{
    let rows = changes
        .iter()
        .filter_map(|accepted| row_from(accepted, from))
        .collect(alloc)?;
    Ok(rows)
}
