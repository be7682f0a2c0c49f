//! The strips of a timeline: one for each object.
ghost use Rattle.std.specs.Prelude.{◌≡◌, ◌++◌, ◌+◌, ◌^◌, ◌<◌, IfOk, OnOk};
ghost use Rattle.std.specs.Prelude.{string_bytes};
ghost use Rattle.window.specs.Runs.{Ascend};
ghost use Rattle.drive.specs.Fields.{state_in, store_of};
ghost use Rattle.history_report.specs.Page.{page_text};
ghost use Rattle.history_report.specs.Timeline.{strip_by, strip_head, strip_of};
ghost use Rattle.history_report.specs.private.Sections.{WritesStrips};

use crate::marks::{push_marks, push_runs};
use crate::parts::{no_parts, with_number, with_text};
use crate::scale::Scale;
use drive::Drive;
use history_diff::{Stop, write_out};
use history_view::{ObjectChange, changes_between};
use s4_types::{ObjectId, Span};
use segment_word::Naming;
use serving::Sink;
use std::alloc::{AllocError, Global};
use window::of_list;

fn strip_head(alloc: Global, object: ObjectId) -> Result<String, AllocError>
    ensures { IfOk result (λ text. string_bytes text ≡ page_text (strip_head object)) }
{
    let made = with_text(no_parts(alloc), "<div class=\"strip\"><span>object ");
    let made = with_number(alloc, made, object.number());
    with_text(made, "</span><svg viewBox=\"-8 0 1016 16\">\n")
}

// The strip of an object that has these changes.
fn strip_by(
    alloc: Global,
    object: ObjectId,
    scale: &Scale,
    runs: &[Span],
    changes: &[ObjectChange],
) -> Result<String, AllocError>
    requires { Ascend runs.now }
    ensures { IfOk result
        (λ text. string_bytes text ≡ page_text (strip_by scale.now runs.now object changes.now)) }
{
    let mut text = strip_head(alloc, object)?;
    push_runs(
        alloc,
        scale,
        object,
        of_list(runs, ObjectId::new(0)),
        &mut text,
    )?;
    push_runs(alloc, scale, object, of_list(runs, object), &mut text)?;
    push_marks(alloc, scale, object, changes, &mut text)?;
    text.push_str("</svg></div>\n")?;
    Ok(text)
}

// The strip of an object.
fn strip_text<J: Naming>(
    alloc: Global,
    drive: &mut Drive<J>,
    object: ObjectId,
    scale: &Scale,
    runs: &[Span],
) -> Result<String, Stop>
    requires { Ascend runs.now }
    ensures strip { IfOk result
        (λ text. string_bytes text
        ≡ page_text
        (strip_of scale.now (state_in drive.old) (store_of drive.old) runs.now object)) }
    ensures ledger { drive.new.ledger ≡ drive.old.ledger }
    ensures store { store_of drive.new ≡ store_of drive.old }
{
    let (floor, clock) = (drive.floor(), drive.clock());
    let changes = changes_between(alloc, drive, object, floor, clock)?;
    let text = strip_by(alloc, object, scale, runs, changes.as_slice())?;
    Ok(text)
}

/// Writes the strip of each object that has a row.
pub(crate) fn write_strips<J: Naming, W: Sink>(
    alloc: Global,
    drive: &mut Drive<J>,
    scale: &Scale,
    runs: &[Span],
    writer: &mut W,
) -> Result<(), Stop>
    requires ordered { Ascend runs.now }
    requires writer { W.failures writer.old + 1 < 2 ^ 64 }
    ensures strips { OnOk result
        (WritesStrips scale.now (state_in drive.old) (store_of drive.old) runs.now
        (W.passed writer.old) (W.passed writer.new)) }
    ensures failures { OnOk result (W.failures writer.new ≡ W.failures writer.old) }
    ensures ledger { drive.new.ledger ≡ drive.old.ledger }
    ensures store { store_of drive.new ≡ store_of drive.old }
{
    let mut last = ObjectId::new(0);
    while let Some(object) = drive.next_row(last) {
        let text = strip_text(alloc, drive, object, scale, runs)?;
        write_out(writer, text.as_bytes())?;
        last = object;
    }
    Ok(())
}
