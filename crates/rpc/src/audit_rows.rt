//! Rows of an audit, read and written one after the other.
ghost use Rattle.std.specs.Prelude.{◌≡◌, length};
ghost use Rattle.std.specs.List.{AllByRecursion, flat_map};
ghost use Rattle.s4_types.specs.AuditKinds.{number_of_kind};
ghost use Rattle.rpc.specs.Spelling.{row_spelling, RowNumbers};
ghost use Rattle.rpc.specs.private.Reading.{Gives, kind_of_code, kind_at, behind_kind, row_at};
ghost use Rattle.rpc.specs.private.Reading.{rows_at};
ghost use Rattle.rpc.specs.private.Room.{HasRoom, Appended};

use crate::fields::{read_end, read_long};
use crate::room::{put, put_long, put_moment, put_object};
use crate::unread::Unread;
use s4_types::{AuditKind, AuditRow, Moment, ObjectId};
use std::alloc::Global;

#[tactic(auto, unfolding(crate::specs::private::Reading::kind_of_code))]
fn kind_of(code: u8) -> Option<AuditKind>
    ensures { result ≡ kind_of_code code }
{
    match code {
        1 => Some(AuditKind::Create),
        2 => Some(AuditKind::Delete),
        4 => Some(AuditKind::Write),
        6 => Some(AuditKind::Truncate),
        8 => Some(AuditKind::SetAttr),
        9 => Some(AuditKind::SetWindow),
        10 => Some(AuditKind::Flush),
        11 => Some(AuditKind::FlushO),
        _ => None,
    }
}

#[tactic(auto, unfolding(crate::specs::private::Reading::kind_at))]
fn read_kind(bytes: &[u8]) -> Result<(AuditKind, &[u8]), Unread>
    ensures { Gives (λ x. (x.0, x.1.now)) result (kind_at bytes.now) }
{
    let [code, rest @ ..] = bytes else {
        return Err(Unread::Misspelled);
    };
    match kind_of(*code) {
        None => Err(Unread::Misspelled),
        Some(kind) => Ok((kind, rest)),
    }
}

// What comes after the kind of a row.
fn read_behind_kind(
    moment: Moment,
    kind: AuditKind,
    bytes: &[u8],
) -> Result<(AuditRow, &[u8]), Unread>
    ensures { Gives (λ x. (x.0, x.1.now)) result (behind_kind moment kind bytes.now) }
{
    let (object, rest) = read_long(bytes)?;
    let (first, rest) = read_long(rest)?;
    let (second, rest) = read_long(rest)?;
    Ok((
        AuditRow {
            moment,
            kind,
            object: ObjectId::new(object),
            first,
            second,
        },
        rest,
    ))
}

#[tactic(auto, unfolding(crate::specs::private::Reading::row_at))]
fn read_row(bytes: &[u8]) -> Result<(AuditRow, &[u8]), Unread>
    ensures { Gives (λ x. (x.0, x.1.now)) result (row_at bytes.now) }
{
    let (moment, rest) = read_long(bytes)?;
    let (kind, rest) = read_kind(rest)?;
    read_behind_kind(Moment::new(moment), kind, rest)
}

/// The rows that all of the bytes are, at most this many.
pub(crate) fn read_rows(alloc: Global, most: usize, bytes: &[u8]) -> Result<Vec<AuditRow>, Unread>
    ensures { Gives (λ rows. rows.items) result (rows_at most bytes.now) }
{
    let mut rows = Vec::new(alloc);
    let mut rest = bytes;
    for _ in 0..most {
        if rest.is_empty() {
            return Ok(rows);
        }
        match read_row(rest) {
            Err(unread) => return Err(unread),
            Ok((row, behind)) => {
                rows.push(row)?;
                rest = behind;
            }
        }
    }
    read_end(rest)?;
    Ok(rows)
}

fn put_row(out: &mut Vec<u8>, row: &AuditRow)
    requires { HasRoom out.old (length (row_spelling row.now)) }
    ensures bytes { Appended out.old out.new (row_spelling row.now) }
    ensures range { RowNumbers row.now }
{
    put_moment(out, row.moment);
    put(out, &[row.kind.number()]);
    put_object(out, row.object);
    put_long(out, row.first);
    put_long(out, row.second);
}

/// Writes rows after the bytes that are there, into room that was taken before.
pub(crate) fn put_rows(out: &mut Vec<u8>, rows: &[AuditRow])
    requires { HasRoom out.old (length (flat_map row_spelling rows.now)) }
    ensures bytes { Appended out.old out.new (flat_map row_spelling rows.now) }
    ensures range { AllByRecursion RowNumbers rows.now }
{
    for row in rows {
        put_row(out, row);
    }
}
