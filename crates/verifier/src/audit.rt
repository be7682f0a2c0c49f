//! The audit rows of an image: read and judged, and written.
ghost use Rattle.std.specs.Prelude.{◌≡◌, ◌++◌, ◌≤◌, MatchBool, IfSome, IfNone, OnOk, IfOk, IfErr};
ghost use Rattle.std.specs.Prelude.{◌+◌, map};
ghost use Rattle.std.specs.List.{AllByRecursion, flat_map};
ghost use Rattle.s4_types.specs.declared.audit_rows.AuditRow.{AuditRow as Row};
ghost use Rattle.s4_types.specs.declared.refusals.Refusal.TheVariants.{NoMemory};
ghost use Rattle.s4_model.specs.Audit.{IsGivenRow, IsRowOf, IsAuditRow, IsRowBetween};
ghost use Rattle.s4_model.specs.Audit.{AreAuditRows};
ghost use Rattle.image_parts.specs.Audit.{IsAuditPart, audit_bytes};
ghost use Rattle.verifier.specs.Audit.{audit_part, AuditStands};
ghost use Rattle.verifier.specs.private.AuditRows.{IsLater};

use audit_log::AuditLog;
use image_parts::{AuditPart, Header, ImageParts, push_audit};
use s4_types::limits::{ATTRIBUTE_BYTES, OBJECT_BYTES};
use s4_types::{AuditKind, AuditRow, Moment, ObjectId, Refusal};
use std::alloc::Global;

/// The row that a part encodes. None where its byte is no kind's.
fn row_of_part(part: &AuditPart) -> Option<AuditRow>
    ensures found { IfSome result (λ row. part.now ≡ audit_part row) }
    ensures only { (row : Row) → part.now ≡ audit_part row → result ≡ Some row }
{
    let kind = AuditKind::from_number(part.kind)?;
    Some(AuditRow {
        moment: part.moment,
        kind,
        object: part.object,
        first: part.first,
        second: part.second,
    })
}

/// Whether a row is of an object whose number was given.
fn is_given(next: ObjectId, row: &AuditRow) -> bool
    ensures { MatchBool result (IsGivenRow next row.now) (IsGivenRow next row.now → ⊥) }
{
    row.object.number() >= 1 && row.object < next
}

/// Whether a write of this many bytes at an offset ends in the largest object.
fn ends_within(offset: u64, length: u64) -> bool
    ensures { MatchBool result (offset + length ≤ OBJECT_BYTES)
        (offset + length ≤ OBJECT_BYTES → ⊥) }
{
    length <= OBJECT_BYTES && offset <= OBJECT_BYTES - length
}

/// Whether the numbers of a row are those that a change of its kind can have.
fn is_row_of(next: ObjectId, row: &AuditRow) -> bool
    ensures { MatchBool result (IsRowOf row.now.kind next row.now)
        (IsRowOf row.now.kind next row.now → ⊥) }
{
    let (first, second) = (row.first, row.second);
    match row.kind {
        AuditKind::Create | AuditKind::SetAttr => {
            is_given(next, row) && first <= ATTRIBUTE_BYTES as u64 && second == 0
        }
        AuditKind::Delete => is_given(next, row) && first == 0 && second == 0,
        AuditKind::Write => is_given(next, row) && ends_within(first, second),
        AuditKind::Truncate => is_given(next, row) && first <= OBJECT_BYTES && second == 0,
        AuditKind::SetWindow => row.object.number() == 0 && second == 0,
        AuditKind::Flush => {
            row.object.number() == 0 && first <= second && second < row.moment.number()
        }
        AuditKind::FlushO => {
            is_given(next, row) && first <= second && second < row.moment.number()
        }
    }
}

/// Whether a row is one that a change of the image's drive can have, from its floor on and by its
/// clock.
fn is_between(header: &Header, row: &AuditRow) -> bool
    ensures { MatchBool result
        (IsRowBetween header.now.floor header.now.clock header.now.next row.now)
        (IsRowBetween header.now.floor header.now.clock header.now.next row.now → ⊥) }
{
    header.floor <= row.moment
        && row.moment <= header.clock
        && row.moment.number() >= 1
        && is_row_of(header.next, row)
}

/// Whether a moment is later than the last one, if there is one.
fn is_later(last: Option<Moment>, moment: Moment) -> bool
    ensures { MatchBool result (IsLater last moment) (IsLater last moment → ⊥) }
{
    match last {
        None => true,
        Some(last) => last < moment,
    }
}

/// Whether a row can come next in the audit of an image, behind one of the last moment, if there is
/// one.
fn may_follow(header: &Header, last: Option<Moment>, row: &AuditRow) -> bool
    ensures { MatchBool result
        (IsLater last row.now.moment
        × IsRowBetween header.now.floor header.now.clock header.now.next row.now)
        (IsLater last row.now.moment
        → IsRowBetween header.now.floor header.now.clock header.now.next row.now → ⊥) }
{
    is_later(last, row.moment) && is_between(header, row)
}

/// The audit of an image, as a log of rows. None exactly where it breaks a rule.
///
/// NoMemory alone. Linear in the rows.
pub(crate) fn read_audit(alloc: Global, parts: &ImageParts<'_>) -> Result<Option<AuditLog>, Refusal>
    ensures rows { IfOk result
        (λ found. IfSome found (λ log. parts.now.audit ≡ map audit_part log.rows)) }
    ensures kept { IfOk result
        (λ found. IfSome found
        (λ log. AreAuditRows parts.now.floor parts.now.clock parts.now.next log.rows)) }
    ensures stands { IfOk result (λ found. IfSome found (λ log. AuditStands parts.now)) }
    ensures none { IfOk result (λ found. IfNone found (AuditStands parts.now → ⊥)) }
    ensures refusal { IfErr result (λ e. e ≡ NoMemory) }
{
    let header = parts.header();
    let mut log = AuditLog::new(alloc);
    let mut last: Option<Moment> = None;
    for part in parts.audit() {
        let Some(row) = row_of_part(&part) else {
            return Ok(None);
        };
        if !may_follow(&header, last, &row) {
            return Ok(None);
        }
        log.reserve()?;
        log.push(row);
        last = Some(row.moment);
    }
    Ok(Some(log))
}

/// A row of the audit as it is saved.
fn part_of_row(row: AuditRow) -> AuditPart
    ensures part { result ≡ audit_part row }
    ensures is { IsAuditPart result }
{
    AuditPart {
        moment: row.moment,
        kind: row.kind.number(),
        object: row.object,
        first: row.first,
        second: row.second,
    }
}

/// Adds rows of the audit. The only error is NoMemory, after which some of them may have been
/// added.
pub(crate) fn push_audit_rows(out: &mut Vec<u8>, rows: &[AuditRow]) -> Result<(), Refusal>
    ensures items { OnOk result
        (out.new.items ≡ out.old.items ++ flat_map audit_bytes (map audit_part rows.now)) }
    ensures fit { OnOk result (AllByRecursion (λ row. IsAuditPart (audit_part row)) rows.now) }
    ensures refusal { IfErr result (λ e. e ≡ NoMemory) }
{
    for row in rows {
        push_audit(out, &part_of_row(*row))?;
    }
    Ok(())
}
