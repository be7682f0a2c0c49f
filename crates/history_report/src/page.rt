//! The page about a drive.
ghost use Rattle.std.specs.Prelude.{◌≡◌, ◌≢◌, ◌+◌, ◌^◌, ◌<◌, ◌∷◌, Some, IfOk, IfErr, OnOk};
ghost use Rattle.std.specs.Prelude.{string_bytes};
ghost use Rattle.std.specs.Io.KnownBytes.{Appends};
ghost use Rattle.s4_model.specs.Visible.{IsVisible};
ghost use Rattle.window.specs.Runs.{Ascend};
ghost use Rattle.drive.specs.Fields.{state_in, store_of};
ghost use Rattle.history_report.specs.Page.{Constant, page_text};
ghost use Rattle.history_report.specs.Report.{IsFaultOf, IsSince, Reports, end_of};
ghost use Rattle.history_report.specs.Report.{WritesPage, head_of, none_text, numbers_of};
ghost use Rattle.history_report.specs.private.Sections.{WritesFlushes, WritesSince, WritesTable};
ghost use Rattle.history_report.specs.private.Sections.{WritesTimeline};

use crate::differences::write_differences;
use crate::faults::ReportFault;
use crate::flushes::{flushes_and_windows_of, none_flushed, write_each_flush};
use crate::parts::{no_parts, with_moment, with_text};
use crate::scale::scale_of;
use crate::strips::write_strips;
use crate::table::write_rows;
use crate::texts::{
    DIFFERENCES_HEAD, FLUSHES_HEAD, NO_DIFFERENCE, PAGE_END, PAGE_HEAD, TABLE_HEAD, TIMELINE_HEAD,
};
use drive::Drive;
use history_diff::{Stop, write_out};
use history_view::{earliest, is_visible};
use moment_words::style_of;
use s4_types::{Moment, ObjectId, Span};
use segment_word::Naming;
use serving::Sink;
use std::alloc::{AllocError, Global};

/// Writes the page about a drive: a strip of time for each object with its changes and its hidden
/// moments, a table of all that are live or were deleted, what administrators hid and which windows
/// they set since the floor, and for each object that differs what does since a moment, the
/// earliest that can be read where none is given. A difference has `DIFFERENCE_LINES` lines at
/// most, and says where it was cut.
///
/// An object of which alone the moment is hidden has no difference. Unreadable where the moment
/// can't be read of any, before anything is written. Stopped where memory, a seat or the writer
/// fails; then a beginning was written.
pub fn write_report<J: Naming, W: Sink>(
    alloc: Global,
    drive: &mut Drive<J>,
    since: Option<Moment>,
    writer: &mut W,
) -> Result<(), ReportFault>
    requires writer { W.failures writer.old + 1 < 2 ^ 64 }
    ensures page { OnOk result
        (Reports (state_in drive.old) (store_of drive.old) since (W.passed writer.old)
        (W.passed writer.new)) }
    ensures refused { IfErr result
        (IsFaultOf (state_in drive.old) since (W.passed writer.old) (W.passed writer.new)) }
    ensures state { state_in drive.new ≡ state_in drive.old }
    ensures store { store_of drive.new ≡ store_of drive.old }
{
    let from = match since_asked(drive, since) {
        Ok(from) => from,
        Err(moment) => return Err(ReportFault::Unreadable(moment)),
    };
    match write_page(alloc, drive, from, writer) {
        Ok(()) => Ok(()),
        Err(stop) => Err(ReportFault::Stopped(stop)),
    }
}

// The moment since which differences are shown. The one that is asked for where it can't be read.
fn since_asked<J: Naming>(drive: &Drive<J>, since: Option<Moment>) -> Result<Moment, Moment>
    ensures since { IfOk result (IsSince (state_in drive.now) since) }
    ensures refused { IfErr result
        (λ moment. (since ≡ Some moment) × (IsVisible (state_in drive.now) 0 moment → ⊥)) }
{
    let Some(moment) = since else {
        return Ok(earliest(drive, ObjectId::new(0)));
    };
    if is_visible(drive, ObjectId::new(0), moment) {
        return Ok(moment);
    }
    Err(moment)
}

// Writes the page, with what differs since a moment.
fn write_page<J: Naming, W: Sink>(
    alloc: Global,
    drive: &mut Drive<J>,
    from: Moment,
    writer: &mut W,
) -> Result<(), Stop>
    requires writer { W.failures writer.old + 1 < 2 ^ 64 }
    ensures page { OnOk result
        (WritesPage (state_in drive.old) (store_of drive.old) from (W.passed writer.old)
        (W.passed writer.new)) }
    ensures state { state_in drive.new ≡ state_in drive.old }
    ensures store { store_of drive.new ≡ store_of drive.old }
{
    let runs = drive.spans()?;
    write_timeline(alloc, drive, from, runs.as_slice(), writer)?;
    write_table(alloc, drive, writer)?;
    write_flushes(alloc, drive, writer)?;
    write_since(alloc, drive, from, writer)
}

// The beginning of a page up to the numbers of a drive: its clock, its floor, and the moment since
// which differences are shown.
fn numbers_text<J: Naming>(
    alloc: Global,
    drive: &Drive<J>,
    from: Moment,
) -> Result<String, AllocError>
    ensures { IfOk result
        (λ text. string_bytes text
        ≡ page_text (Constant PAGE_HEAD.now ∷ numbers_of (state_in drive.now) from)) }
{
    let style = style_of(drive.clock().number(), false);
    let made = with_text(no_parts(alloc), PAGE_HEAD);
    let made = with_text(made, "<p>Clock ");
    let made = with_moment(alloc, made, drive.clock(), style);
    let made = with_text(made, ", floor ");
    let made = with_moment(alloc, made, drive.floor(), style);
    let made = with_text(made, ". Differences are those since ");
    let made = with_moment(alloc, made, from, style);
    with_text(made, ".</p>\n")
}

// The beginning of a page, up to the ends of the timeline: the floor and the clock.
fn head_text<J: Naming>(alloc: Global, drive: &Drive<J>, from: Moment) -> Result<String, AllocError>
    ensures { IfOk result
        (λ text. string_bytes text ≡ page_text (head_of (state_in drive.now) from)) }
{
    let style = style_of(drive.clock().number(), false);
    let made = with_text(numbers_text(alloc, drive, from), TIMELINE_HEAD);
    let made = with_text(made, "<div class=\"axis\"><span>");
    let made = with_moment(alloc, made, drive.floor(), style);
    let made = with_text(made, "</span><span>");
    let made = with_moment(alloc, made, drive.clock(), style);
    with_text(made, "</span></div>\n")
}

// Writes the beginning of a page.
fn write_head<J: Naming, W: Sink>(
    alloc: Global,
    drive: &Drive<J>,
    from: Moment,
    writer: &mut W,
) -> Result<(), Stop>
    requires writer { W.failures writer.old + 1 < 2 ^ 64 }
    ensures head { OnOk result
        (Appends (W.passed writer.old) (W.passed writer.new)
        (page_text (head_of (state_in drive.now) from))) }
    ensures failures { OnOk result (W.failures writer.new ≡ W.failures writer.old) }
{
    let text = head_text(alloc, drive, from)?;
    write_out(writer, text.as_bytes())
}

// Writes the beginning of a page, and the strips.
fn write_timeline<J: Naming, W: Sink>(
    alloc: Global,
    drive: &mut Drive<J>,
    from: Moment,
    runs: &[Span],
    writer: &mut W,
) -> Result<(), Stop>
    requires ordered { Ascend runs.now }
    requires writer { W.failures writer.old + 1 < 2 ^ 64 }
    ensures timeline { OnOk result
        (WritesTimeline (state_in drive.old) (store_of drive.old) runs.now from
        (W.passed writer.old) (W.passed writer.new)) }
    ensures failures { OnOk result (W.failures writer.new ≡ W.failures writer.old) }
    ensures ledger { drive.new.ledger ≡ drive.old.ledger }
    ensures store { store_of drive.new ≡ store_of drive.old }
{
    write_head(alloc, drive, from, writer)?;
    let scale = scale_of(drive);
    write_strips(alloc, drive, &scale, runs, writer)
}

// Writes the table of the objects at the clock.
fn write_table<J: Naming, W: Sink>(
    alloc: Global,
    drive: &mut Drive<J>,
    writer: &mut W,
) -> Result<(), Stop>
    requires writer { W.failures writer.old + 1 < 2 ^ 64 }
    ensures table { OnOk result
        (WritesTable (state_in drive.old) (store_of drive.old) (W.passed writer.old)
        (W.passed writer.new)) }
    ensures failures { OnOk result (W.failures writer.new ≡ W.failures writer.old) }
    ensures ledger { drive.new.ledger ≡ drive.old.ledger }
    ensures store { store_of drive.new ≡ store_of drive.old }
{
    write_out(writer, TABLE_HEAD.as_bytes())?;
    let clock = drive.clock();
    let style = style_of(clock.number(), false);
    write_rows(alloc, drive, clock, style, writer)
}

// Writes what administrators hid and which windows they set, since the floor.
fn write_flushes<J: Naming, W: Sink>(
    alloc: Global,
    drive: &Drive<J>,
    writer: &mut W,
) -> Result<(), Stop>
    requires writer { W.failures writer.old + 1 < 2 ^ 64 }
    ensures flushes { OnOk result
        (WritesFlushes (state_in drive.now) (W.passed writer.old) (W.passed writer.new)) }
    ensures failures { OnOk result (W.failures writer.new ≡ W.failures writer.old) }
{
    let flushes = flushes_and_windows_of(alloc, drive)?;
    let style = style_of(drive.clock().number(), false);
    write_out(writer, FLUSHES_HEAD.as_bytes())?;
    write_each_flush(alloc, flushes.as_slice(), style, writer)?;
    write_out(writer, none_flushed(flushes.as_slice()).as_bytes())
}

// Writes what differs between a moment and the clock, and the end of the page.
fn write_since<J: Naming, W: Sink>(
    alloc: Global,
    drive: &mut Drive<J>,
    from: Moment,
    writer: &mut W,
) -> Result<(), Stop>
    requires writer { W.failures writer.old + 1 < 2 ^ 64 }
    ensures since { OnOk result
        (WritesSince (state_in drive.old) from (W.passed writer.old) (W.passed writer.new)) }
    ensures state { state_in drive.new ≡ state_in drive.old }
    ensures store { store_of drive.new ≡ store_of drive.old }
{
    write_out(writer, DIFFERENCES_HEAD.as_bytes())?;
    let until = drive.clock();
    let differs = write_differences(alloc, drive, from, until, writer)?;
    write_end(differs, writer)
}

fn none_text(differs: bool) -> &'static str
    ensures { result.now ≡ none_text differs }
{
    if differs { "" } else { NO_DIFFERENCE }
}

// Writes the end of a page, which says it where nothing differs.
fn write_end<W: Sink>(differs: bool, writer: &mut W) -> Result<(), Stop>
    requires writer { W.failures writer.old + 1 < 2 ^ 64 }
    ensures { OnOk result
        (Appends (W.passed writer.old) (W.passed writer.new) (page_text (end_of differs))) }
{
    write_out(writer, none_text(differs).as_bytes())?;
    write_out(writer, PAGE_END.as_bytes())
}
