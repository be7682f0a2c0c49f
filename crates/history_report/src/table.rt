//! The table of objects.
ghost use Rattle.std.specs.Prelude.{◌≡◌, ◌+◌, ◌^◌, ◌<◌, true, IfOk, OnOk, string_bytes};
ghost use Rattle.drive.specs.Fields.{state_in, store_of};
ghost use Rattle.history_report.specs.Page.{page_text};
ghost use Rattle.history_report.specs.Table.{row_of, state_cell};
ghost use Rattle.history_report.specs.private.Sections.{WritesRows};

use crate::parts::{no_parts, with_data, with_moment, with_number, with_text};
use drive::Drive;
use history_diff::{Stop, write_out};
use history_view::{Listed, next_listed};
use moment_words::MomentStyle;
use s4_types::{Moment, ObjectId};
use segment_word::Naming;
use serving::Sink;
use std::alloc::{AllocError, Global};

fn state_cell(is_live: bool) -> &'static str
    ensures { result.now ≡ state_cell is_live }
{
    if is_live {
        "</td><td>live</td><td>"
    } else {
        "</td><td>deleted</td><td>"
    }
}

// The row of an object.
fn row_text(alloc: Global, row: &Listed, style: MomentStyle) -> Result<String, AllocError>
    ensures { IfOk result (λ text. string_bytes text ≡ page_text (row_of style row.now)) }
{
    let made = with_text(no_parts(alloc), "<tr><td>");
    let made = with_number(alloc, made, row.object.number());
    let made = with_text(made, state_cell(row.is_live));
    let made = with_number(alloc, made, u64::from(row.size));
    let made = with_text(made, "</td><td>");
    let made = with_moment(alloc, made, row.created, style);
    let made = with_text(made, "</td><td>");
    let made = with_moment(alloc, made, row.changed, style);
    let made = with_text(made, "</td><td>");
    let made = with_data(alloc, made, row.attribute.as_slice());
    with_text(made, "</td></tr>\n")
}

/// Writes the row of each object that is listed at a moment, also of those that were deleted before
/// it.
pub(crate) fn write_rows<J: Naming, W: Sink>(
    alloc: Global,
    drive: &mut Drive<J>,
    at: Moment,
    style: MomentStyle,
    writer: &mut W,
) -> Result<(), Stop>
    requires writer { W.failures writer.old + 1 < 2 ^ 64 }
    ensures rows { OnOk result
        (WritesRows (state_in drive.old) (store_of drive.old) at style (W.passed writer.old)
        (W.passed writer.new)) }
    ensures failures { OnOk result (W.failures writer.new ≡ W.failures writer.old) }
    ensures ledger { drive.new.ledger ≡ drive.old.ledger }
    ensures store { store_of drive.new ≡ store_of drive.old }
{
    let mut last = ObjectId::new(0);
    while let Some(row) = next_listed(drive, last, at, true) {
        let text = row_text(alloc, &row, style)?;
        write_out(writer, text.as_bytes())?;
        last = row.object;
    }
    Ok(())
}
