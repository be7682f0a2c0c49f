//! The marks of a timeline: one for each change, and one for each run of hidden moments.
ghost use Rattle.std.specs.Prelude.{◌≡◌, ◌++◌, ◌+◌, ◌-◌, IfOk, OnOk, string_bytes};
ghost use Rattle.std.specs.List.{flat_map};
ghost use Rattle.history_report.specs.Page.{page_text};
ghost use Rattle.history_report.specs.Timeline.{change_marks, done_text, mark_head, mark_of};
ghost use Rattle.history_report.specs.Timeline.{mark_shape, place_of, run_mark};

use crate::parts::{no_parts, with_moment, with_number, with_text};
use crate::scale::{Scale, place_of};
use history_view::{Kind, ObjectChange};
use s4_types::{ObjectId, Span};
use std::alloc::{AllocError, Global};

// The beginning of a mark, and its lines from the place of its middle on: a circle, a cross, or an
// upright bar.
fn mark_texts(kind: Kind) -> (&'static str, &'static str)
    ensures head { result.0.now ≡ mark_head kind }
    ensures shape { result.1.now ≡ mark_shape kind }
{
    match kind {
        Kind::Made => (
            "<path class=\"made\" d=\"M",
            " 8m-5 0a5 5 0 1 0 10 0a5 5 0 1 0 -10 0\"><title>object ",
        ),
        Kind::Deleted => (
            "<path class=\"deleted\" d=\"M",
            " 8m-5 -5l10 10m0 -10l-10 10\"><title>object ",
        ),
        _ => ("<path class=\"changed\" d=\"M", " 2v12\"><title>object "),
    }
}

fn done_text(kind: Kind) -> &'static str
    ensures { result.now ≡ done_text kind }
{
    match kind {
        Kind::Made => " made at ",
        Kind::Deleted => " deleted at ",
        Kind::Continued => " changed at ",
        Kind::Attribute => " changed (attribute) at ",
        Kind::Cut => " changed (cut) at ",
        Kind::Written => " changed (written) at ",
        Kind::Lengthened => " changed (lengthened) at ",
        Kind::Touched => " changed (touched) at ",
    }
}

// The mark of a change of an object.
fn mark_text(
    alloc: Global,
    scale: &Scale,
    object: ObjectId,
    change: &ObjectChange,
) -> Result<String, AllocError>
    ensures { IfOk result
        (λ text. string_bytes text ≡ page_text (mark_of scale.now object change.now)) }
{
    let (head, shape) = mark_texts(change.kind);
    let made = with_text(no_parts(alloc), head);
    let made = with_number(alloc, made, place_of(scale, change.moment));
    let made = with_text(made, shape);
    let made = with_number(alloc, made, object.number());
    let made = with_text(made, done_text(change.kind));
    let made = with_moment(alloc, made, change.moment, scale.style);
    let made = with_text(made, ": ");
    let made = with_number(alloc, made, u64::from(change.size_before));
    let made = with_text(made, " to ");
    let made = with_number(alloc, made, u64::from(change.size_after));
    with_text(made, " bytes</title></path>\n")
}

// Adds the mark of a change of an object. One that goes on with the change before it has none of
// its own.
fn push_mark(
    alloc: Global,
    scale: &Scale,
    object: ObjectId,
    change: &ObjectChange,
    text: &mut String,
) -> Result<(), AllocError>
    ensures { OnOk result
        (string_bytes text.new
        ≡ string_bytes text.old ++ page_text (change_marks scale.now object change.now)) }
{
    if let Kind::Continued = change.kind {
        return Ok(());
    }
    let mark = mark_text(alloc, scale, object, change)?;
    text.push_str(mark.as_str())
}

/// Adds the marks of these changes of an object.
pub(crate) fn push_marks(
    alloc: Global,
    scale: &Scale,
    object: ObjectId,
    changes: &[ObjectChange],
    text: &mut String,
) -> Result<(), AllocError>
    ensures { OnOk result
        (string_bytes text.new
        ≡ string_bytes text.old
        ++ page_text (flat_map (change_marks scale.now object) changes.now)) }
{
    for change in changes {
        push_mark(alloc, scale, object, change, text)?;
    }
    Ok(())
}

// The mark of a run of hidden moments of an object.
fn run_text(
    alloc: Global,
    scale: &Scale,
    object: ObjectId,
    run: &Span,
) -> Result<String, AllocError>
    ensures { IfOk result
        (λ text. string_bytes text ≡ page_text (run_mark scale.now object run.now)) }
{
    let (place, end) = (place_of(scale, run.first), place_of(scale, run.last));
    let made = with_text(no_parts(alloc), "<rect class=\"hidden\" x=\"");
    let made = with_number(alloc, made, place);
    let made = with_text(made, "\" width=\"");
    let made = with_number(alloc, made, end.saturating_sub(place) + 3);
    let made = with_text(made, "\" height=\"16\"><title>object ");
    let made = with_number(alloc, made, object.number());
    let made = with_text(made, " hidden by a flush: ");
    let made = with_moment(alloc, made, run.first, scale.style);
    let made = with_text(made, " to ");
    let made = with_moment(alloc, made, run.last, scale.style);
    with_text(made, "</title></rect>\n")
}

/// Adds the marks of these runs of hidden moments of an object.
pub(crate) fn push_runs(
    alloc: Global,
    scale: &Scale,
    object: ObjectId,
    runs: &[Span],
    text: &mut String,
) -> Result<(), AllocError>
    ensures { OnOk result
        (string_bytes text.new
        ≡ string_bytes text.old ++ page_text (flat_map (run_mark scale.now object) runs.now)) }
{
    for run in runs {
        let mark = run_text(alloc, scale, object, run)?;
        text.push_str(mark.as_str())?;
    }
    Ok(())
}
