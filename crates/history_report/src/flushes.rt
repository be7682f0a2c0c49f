//! What administrators hid and which windows they set: a paragraph for each, from the drive's
//! audit.
ghost use Rattle.std.specs.Prelude.{◌≡◌, ◌+◌, ◌^◌, ◌<◌, IfErr, IfOk, OnOk, string_bytes};
ghost use Rattle.std.specs.List.{flat_map};
ghost use Rattle.std.specs.Io.KnownBytes.{Appends};
ghost use Rattle.s4_types.specs.declared.refusals.Refusal.TheVariants.{NoMemory};
ghost use Rattle.drive.specs.Fields.{state_in};
ghost use Rattle.history_report.specs.Flushes.{all_hidden, flush_parts, flushes_and_windows_among};
ghost use Rattle.history_report.specs.Flushes.{flushes_and_windows_of, is_flush_or_window};
ghost use Rattle.history_report.specs.Flushes.{moments_hidden, none_flushed, object_hidden};
ghost use Rattle.history_report.specs.Flushes.{window_set};
ghost use Rattle.history_report.specs.Page.{page_text};

use crate::parts::{no_parts, with_moment, with_number, with_text};
use crate::texts::NO_FLUSH;
use drive::Drive;
use history_diff::{Stop, write_out};
use moment_words::MomentStyle;
use s4_types::{AuditKind, AuditRow, Moment, Refusal};
use segment_word::Naming;
use serving::Sink;
use std::alloc::{AllocError, Global};

fn is_flush_or_window(kind: AuditKind) -> bool
    ensures { result ≡ is_flush_or_window kind }
{
    match kind {
        AuditKind::Flush | AuditKind::FlushO | AuditKind::SetWindow => true,
        AuditKind::Create
        | AuditKind::Delete
        | AuditKind::Write
        | AuditKind::Truncate
        | AuditKind::SetAttr => false,
    }
}

// The rows of these that are of a flush or of a window, in their order.
fn flushes_and_windows_among(alloc: Global, rows: &[AuditRow]) -> Result<Vec<AuditRow>, AllocError>
    ensures { IfOk result (λ kept. kept.items ≡ flushes_and_windows_among rows.now) }
{
    let mut kept = Vec::new(alloc);
    for row in rows {
        if is_flush_or_window(row.kind) {
            kept.push(*row)?;
        }
    }
    Ok(kept)
}

/// The rows of a drive's audit that are of a flush or of a window, in order of time.
///
/// NoMemory alone, where the memory for them is refused.
pub(crate) fn flushes_and_windows_of<J: Naming>(
    alloc: Global,
    drive: &Drive<J>,
) -> Result<Vec<AuditRow>, Refusal>
    ensures flushes { IfOk result
        (λ flushes. flushes.items ≡ flushes_and_windows_of (state_in drive.now)) }
    ensures refusal { IfErr result (λ e. e ≡ NoMemory) }
{
    let rows = drive.audit_rows()?;
    let flushes = flushes_and_windows_among(alloc, rows.as_slice())?;
    Ok(flushes)
}

// The beginning of a paragraph about moments that were hidden.
fn moments_hidden(alloc: Global, row: &AuditRow, style: MomentStyle) -> Result<String, AllocError>
    ensures { IfOk result (λ text. string_bytes text ≡ page_text (moments_hidden style row.now)) }
{
    let made = with_text(no_parts(alloc), "<p>");
    let made = with_moment(alloc, made, row.moment, style);
    let made = with_text(made, ": moments ");
    let made = with_moment(alloc, made, Moment::new(row.first), style);
    let made = with_text(made, " to ");
    with_moment(alloc, made, Moment::new(row.second), style)
}

// The paragraph about moments of all objects that were hidden.
fn all_hidden(alloc: Global, row: &AuditRow, style: MomentStyle) -> Result<String, AllocError>
    ensures { IfOk result (λ text. string_bytes text ≡ page_text (all_hidden style row.now)) }
{
    let made = moments_hidden(alloc, row, style);
    with_text(made, " of all objects hidden</p>\n")
}

// The paragraph about moments of one object that were hidden.
fn object_hidden(alloc: Global, row: &AuditRow, style: MomentStyle) -> Result<String, AllocError>
    ensures { IfOk result (λ text. string_bytes text ≡ page_text (object_hidden style row.now)) }
{
    let made = moments_hidden(alloc, row, style);
    let made = with_text(made, " of object ");
    let made = with_number(alloc, made, row.object.number());
    with_text(made, " hidden</p>\n")
}

// The paragraph about a window that was set.
fn window_set(alloc: Global, row: &AuditRow, style: MomentStyle) -> Result<String, AllocError>
    ensures { IfOk result (λ text. string_bytes text ≡ page_text (window_set style row.now)) }
{
    let made = with_text(no_parts(alloc), "<p>");
    let made = with_moment(alloc, made, row.moment, style);
    let made = with_text(made, ": the window was set to ");
    let made = with_number(alloc, made, row.first);
    with_text(made, " moments</p>\n")
}

// The paragraph about a row. Nothing for one that is of neither a flush nor a window.
fn flush_text(alloc: Global, row: &AuditRow, style: MomentStyle) -> Result<String, AllocError>
    ensures { IfOk result (λ text. string_bytes text ≡ page_text (flush_parts style row.now)) }
{
    match row.kind {
        AuditKind::Flush => all_hidden(alloc, row, style),
        AuditKind::FlushO => object_hidden(alloc, row, style),
        AuditKind::SetWindow => window_set(alloc, row, style),
        AuditKind::Create
        | AuditKind::Delete
        | AuditKind::Write
        | AuditKind::Truncate
        | AuditKind::SetAttr => Ok(String::new(alloc)),
    }
}

/// Writes the paragraph about each of these rows, one after the other.
pub(crate) fn write_each_flush<W: Sink>(
    alloc: Global,
    flushes: &[AuditRow],
    style: MomentStyle,
    writer: &mut W,
) -> Result<(), Stop>
    requires writer { W.failures writer.old + 1 < 2 ^ 64 }
    ensures flushes { OnOk result
        (Appends (W.passed writer.old) (W.passed writer.new)
        (page_text (flat_map (flush_parts style) flushes.now))) }
    ensures failures { OnOk result (W.failures writer.new ≡ W.failures writer.old) }
{
    for row in flushes {
        let text = flush_text(alloc, row, style)?;
        write_out(writer, text.as_bytes())?;
    }
    Ok(())
}

/// What is said where there are no such rows.
pub(crate) fn none_flushed(flushes: &[AuditRow]) -> &'static str
    ensures { result.now ≡ none_flushed flushes.now }
{
    if flushes.is_empty() { NO_FLUSH } else { "" }
}
