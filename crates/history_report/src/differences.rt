//! What differs since a moment, object by object.
ghost use Rattle.std.specs.Prelude.{◌≡◌, ◌+◌, ◌^◌, ◌<◌, ◌≤◌, length, IfOk, OnOk, string_bytes};
ghost use Rattle.drive.specs.Fields.{state_in, store_of};
ghost use Rattle.history_diff.specs.Diffing.{row_of};
ghost use Rattle.history_report.specs.Differences.{difference_by, difference_end, first_lines};
ghost use Rattle.history_report.specs.Differences.{has_more_lines, lines_end};
ghost use Rattle.history_report.specs.Page.{page_text};
ghost use Rattle.history_report.specs.private.Sections.{WritesDifferences};
ghost use Rattle.history_report.specs.private.Writing.{AreLines, WritesDetail, WritesShown};

use crate::parts::{no_parts, with_data, with_number, with_text};
use drive::Drive;
use history_diff::{
    DifferingObject, Stop, hunks_between, next_differing, write_line, write_out, write_patch,
};
use history_view::content_of;
use s4_types::{Moment, ObjectId, Role};
use segment_word::Naming;
use serving::{MemorySink, Sink};
use std::alloc::{AllocError, Global};

/// How many lines of a difference a page has, at most.
pub(crate) const DIFFERENCE_LINES: usize = 200;

// How many bytes the first lines have, at most as many lines as a number, each with its end.
fn lines_end(lines: usize, bytes: &[u8]) -> usize
    ensures end { result ≡ lines_end lines bytes.now }
    ensures bound { result ≤ length bytes.now }
{
    let mut left = lines;
    for (index, byte) in bytes.iter().enumerate() {
        if left == 0 {
            return index;
        }
        if *byte == b'\n' {
            left -= 1;
        }
    }
    bytes.len()
}

// The lines that a page has of these.
fn first_lines(bytes: &[u8]) -> &[u8]
    ensures { result.now ≡ first_lines bytes.now }
{
    &bytes[..lines_end(DIFFERENCE_LINES, bytes)]
}

fn has_more_lines(bytes: &[u8]) -> bool
    ensures { result ≡ has_more_lines bytes.now }
{
    lines_end(DIFFERENCE_LINES, bytes) < bytes.len()
}

fn difference_end(is_cut: bool) -> &'static str
    ensures { result.now ≡ difference_end is_cut }
{
    if is_cut {
        "</pre>\n<p>Cut at 200 lines; s4 diff prints all with --text or --patch.</p>\n"
    } else {
        "</pre>\n"
    }
}

// The part of a page about an object of these lines.
fn difference_text(alloc: Global, object: ObjectId, lines: &[u8]) -> Result<String, AllocError>
    ensures { IfOk result (λ text. string_bytes text ≡ page_text (difference_by object lines.now)) }
{
    let made = with_text(no_parts(alloc), "<h3>object ");
    let made = with_number(alloc, made, object.number());
    let made = with_text(made, "</h3>\n<pre>");
    let made = with_data(alloc, made, first_lines(lines));
    with_text(made, difference_end(has_more_lines(lines)))
}

// Writes the lines that differ where both versions are text, and else the bytes that differ in hex.
fn write_detail<W: Sink>(alloc: Global, found: &DifferingObject, writer: &mut W) -> Result<(), Stop>
    requires writer { W.failures writer.old + 1 < 2 ^ 64 }
    ensures detail { OnOk result
        (WritesDetail (row_of found.now) (W.passed writer.old) (W.passed writer.new)) }
{
    let (old, new) = (content_of(&found.before), content_of(&found.after));
    match hunks_between(alloc, old, new)? {
        Some(hunks) => write_out(writer, hunks.as_bytes()),
        None => write_patch(alloc, old, new, found.difference.ranges.as_slice(), writer),
    }
}

// The lines of what differs of an object.
fn difference_lines(alloc: Global, found: &DifferingObject) -> Result<MemorySink, Stop>
    ensures { IfOk result (λ sink. AreLines (row_of found.now) sink.bytes.items) }
{
    let mut sink = MemorySink::new(alloc);
    write_line(alloc, found, &mut sink)?;
    write_detail(alloc, found, &mut sink)?;
    Ok(sink)
}

// Writes what differs of an object.
fn write_difference<W: Sink>(
    alloc: Global,
    found: &DifferingObject,
    writer: &mut W,
) -> Result<(), Stop>
    requires writer { W.failures writer.old + 1 < 2 ^ 64 }
    ensures lines { OnOk result
        (WritesShown (row_of found.now) (W.passed writer.old) (W.passed writer.new)) }
    ensures failures { OnOk result (W.failures writer.new ≡ W.failures writer.old) }
{
    let lines = match difference_lines(alloc, found) {
        Ok(lines) => lines,
        // The lines are in memory, so what fails there is a growth.
        Err(_) => return Err(Stop::NoMemory),
    };
    let text = difference_text(alloc, found.object, lines.as_slice())?;
    write_out(writer, text.as_bytes())
}

/// Writes what differs of all objects between two moments, by a session of its own. Says whether
/// anything does.
pub(crate) fn write_differences<J: Naming, W: Sink>(
    alloc: Global,
    drive: &mut Drive<J>,
    from: Moment,
    until: Moment,
    writer: &mut W,
) -> Result<bool, Stop>
    requires writer { W.failures writer.old + 1 < 2 ^ 64 }
    ensures rows { IfOk result
        (λ differs. WritesDifferences (state_in drive.old) from until differs (W.passed writer.old)
        (W.passed writer.new)) }
    ensures failures { OnOk result (W.failures writer.new ≡ W.failures writer.old) }
    ensures state { state_in drive.new ≡ state_in drive.old }
    ensures store { store_of drive.new ≡ store_of drive.old }
{
    let mut session = drive.session(Role::Client)?;
    let mut differs = false;
    let mut last = ObjectId::new(0);
    while let Some(found) = next_differing(alloc, drive, &mut session, last, from, until)? {
        write_difference(alloc, &found, writer)?;
        differs = true;
        last = found.object;
    }
    Ok(differs)
}
