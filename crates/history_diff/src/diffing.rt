//! What differs between two moments of a drive, object by object.
ghost use Rattle.std.specs.Prelude.{◌≡◌, ◌+◌, ◌^◌, ◌<◌, None, Some, IfOk, IfErr, OnOk};
ghost use Rattle.std.specs.Io.KnownBytes.{Appends};
ghost use Rattle.drive.specs.Fields.{state_in, store_of};
ghost use Rattle.history_diff.specs.Differences.{told_of};
ghost use Rattle.history_diff.specs.Diffing.{TellsDifferences, IsFaultOf, WritesAsked};
ghost use Rattle.history_diff.specs.Diffing.{comparison_of, detail_lines, object_asked, row_of};
ghost use Rattle.history_diff.specs.Lines.{difference_line};
ghost use Rattle.history_diff.specs.Texts.{detail_of, lines_printed, text_shown};
ghost use Rattle.history_diff.specs.private.Writing.{WritesLines};

use crate::differing::{DifferingObject, differing_at, first_unreadable, next_differing};
use crate::faults::{DiffFault, Stop};
use crate::json::difference_json;
use crate::lines::difference_line;
use crate::output::write_out;
use crate::patches::write_patch;
use crate::texts::{Detail, Shown, shown_of};
use drive::{Drive, Session};
use history_view::content_of;
use moment_words::MomentStyle;
use s4_types::{Moment, ObjectId, Role};
use segment_word::Naming;
use serving::Sink;
use shown_text::shown_lines;
use std::alloc::Global;

/// What is asked for.
#[derive(Clone, Copy)]
pub struct DiffAsked {
    /// The one object, or all where none is.
    pub object: Option<ObjectId>,
    /// The earlier moment, or the later one: they may be in any order.
    pub before: Moment,
    /// The moment that is compared with it, or the clock's where none is.
    pub after: Option<Moment>,
    /// Whether lines are for programs.
    pub json: bool,
    /// How much is shown of the bytes that differ.
    pub detail: Detail,
    /// Whether lines for people are printed as they are, and not as they are shown.
    pub raw: bool,
    /// How the moments of versions are printed.
    pub style: MomentStyle,
}

/// Which moments are compared, and how what differs is shown.
#[derive(Clone, Copy)]
pub struct Comparison {
    pub before: Moment,
    pub after: Moment,
    pub json: bool,
    pub detail: Detail,
    pub raw: bool,
    pub style: MomentStyle,
}

/// Writes what differs between two moments: for each object that differs the lines of its
/// difference, by ascending number, or of the one object that is asked for. Says whether any
/// differs.
///
/// An object of which alone a moment is hidden is passed where all are asked for. Unreadable where
/// a moment of the one that is asked for, or of all, can't be read, before anything is written.
/// Stopped where memory, a seat or the writer fails; then a beginning was written.
pub fn write_differences<J: Naming, W: Sink>(
    alloc: Global,
    drive: &mut Drive<J>,
    asked: &DiffAsked,
    writer: &mut W,
) -> Result<bool, DiffFault>
    requires writer { W.failures writer.old + 1 < 2 ^ 64 }
    ensures told { IfOk result
        (λ differs. TellsDifferences (state_in drive.old) asked.now differs (W.passed writer.old)
        (W.passed writer.new)) }
    ensures refused { IfErr result
        (IsFaultOf (state_in drive.old) asked.now (W.passed writer.old) (W.passed writer.new)) }
    ensures state { state_in drive.new ≡ state_in drive.old }
    ensures store { store_of drive.new ≡ store_of drive.old }
{
    let comparison = comparison_of(drive, asked);
    let (before, after) = (comparison.before, comparison.after);
    if let Some(moment) = first_unreadable(drive, object_asked(asked.object), before, after) {
        return Err(DiffFault::Unreadable(moment));
    }
    match write_asked(alloc, drive, asked.object, &comparison, writer) {
        Ok(differs) => Ok(differs),
        Err(stop) => Err(DiffFault::Stopped(stop)),
    }
}

fn comparison_of<J: Naming>(drive: &Drive<J>, asked: &DiffAsked) -> Comparison
    ensures { result ≡ comparison_of (state_in drive.now) asked.now }
{
    let after = match asked.after {
        Some(after) => after,
        None => drive.clock(),
    };
    Comparison {
        before: asked.before,
        after,
        json: asked.json,
        detail: asked.detail,
        raw: asked.raw,
        style: asked.style,
    }
}

fn object_asked(object: Option<ObjectId>) -> ObjectId
    ensures { result ≡ object_asked object }
{
    match object {
        Some(object) => object,
        None => ObjectId::new(0),
    }
}

// Writes the difference of the one object, or of all, by a session of its own.
fn write_asked<J: Naming, W: Sink>(
    alloc: Global,
    drive: &mut Drive<J>,
    object: Option<ObjectId>,
    comparison: &Comparison,
    writer: &mut W,
) -> Result<bool, Stop>
    requires writer { W.failures writer.old + 1 < 2 ^ 64 }
    ensures rows { IfOk result
        (λ differs. WritesAsked (state_in drive.old) comparison.now object differs
        (W.passed writer.old) (W.passed writer.new)) }
    ensures state { state_in drive.new ≡ state_in drive.old }
    ensures store { store_of drive.new ≡ store_of drive.old }
{
    let mut session = drive.session(Role::Client)?;
    match object {
        Some(object) => write_one(alloc, drive, &mut session, object, comparison, writer),
        None => write_all(alloc, drive, &mut session, comparison, writer),
    }
}

// Writes the difference of an object, if it has one. Says whether it does.
fn write_one<J: Naming, W: Sink>(
    alloc: Global,
    drive: &mut Drive<J>,
    session: &mut Session<J>,
    object: ObjectId,
    comparison: &Comparison,
    writer: &mut W,
) -> Result<bool, Stop>
    requires writer { W.failures writer.old + 1 < 2 ^ 64 }
    ensures rows { IfOk result
        (λ differs. WritesAsked (state_in drive.old) comparison.now (Some object) differs
        (W.passed writer.old) (W.passed writer.new)) }
    ensures state { state_in drive.new ≡ state_in drive.old }
    ensures store { store_of drive.new ≡ store_of drive.old }
{
    let (before, after) = (comparison.before, comparison.after);
    let Some(found) = differing_at(alloc, drive, session, object, before, after)? else {
        return Ok(false);
    };
    write_lines(alloc, &found, comparison, writer)?;
    Ok(true)
}

// Writes the differences of all objects. Says whether any has one.
fn write_all<J: Naming, W: Sink>(
    alloc: Global,
    drive: &mut Drive<J>,
    session: &mut Session<J>,
    comparison: &Comparison,
    writer: &mut W,
) -> Result<bool, Stop>
    requires writer { W.failures writer.old + 1 < 2 ^ 64 }
    ensures rows { IfOk result
        (λ differs. WritesAsked (state_in drive.old) comparison.now None differs
        (W.passed writer.old) (W.passed writer.new)) }
    ensures state { state_in drive.new ≡ state_in drive.old }
    ensures store { store_of drive.new ≡ store_of drive.old }
{
    let (before, after) = (comparison.before, comparison.after);
    let mut differs = false;
    let mut last = ObjectId::new(0);
    while let Some(found) = next_differing(alloc, drive, session, last, before, after)? {
        write_lines(alloc, &found, comparison, writer)?;
        differs = true;
        last = found.object;
    }
    Ok(differs)
}

// Writes the lines of a difference.
fn write_lines<W: Sink>(
    alloc: Global,
    found: &DifferingObject,
    comparison: &Comparison,
    writer: &mut W,
) -> Result<(), Stop>
    requires writer { W.failures writer.old + 1 < 2 ^ 64 }
    ensures lines { OnOk result
        (WritesLines comparison.now (row_of found.now) (W.passed writer.old)
        (W.passed writer.new)) }
    ensures failures { OnOk result (W.failures writer.new ≡ W.failures writer.old) }
{
    let (old, new) = (content_of(&found.before), content_of(&found.after));
    let shown = shown_of(alloc, found.object, comparison, old, new)?;
    if comparison.json {
        let line = difference_json(alloc, found.object, old, new, &found.difference, &shown)?;
        return write_out(writer, line.as_bytes());
    }
    write_line(alloc, found, writer)?;
    write_detail(alloc, found, &shown, comparison.raw, writer)
}

// Writes what follows the line of a difference for people.
fn write_detail<W: Sink>(
    alloc: Global,
    found: &DifferingObject,
    shown: &Shown,
    raw: bool,
    writer: &mut W,
) -> Result<(), Stop>
    requires writer { W.failures writer.old + 1 < 2 ^ 64 }
    ensures lines { OnOk result
        (Appends (W.passed writer.old) (W.passed writer.new)
        (detail_lines raw (detail_of shown.now) (row_of found.now) (text_shown shown.now))) }
    ensures failures { OnOk result (W.failures writer.new ≡ W.failures writer.old) }
{
    match shown {
        Shown::Ranges => Ok(()),
        Shown::Bytes => {
            let (old, new) = (content_of(&found.before), content_of(&found.after));
            write_patch(alloc, old, new, found.difference.ranges.as_slice(), writer)
        }
        Shown::Lines(Some(text)) => write_printed(alloc, text.as_str(), raw, writer),
        Shown::Lines(None) => Ok(()),
    }
}

// Writes lines as they are, or as they are shown.
fn write_printed<W: Sink>(alloc: Global, text: &str, raw: bool, writer: &mut W) -> Result<(), Stop>
    requires writer { W.failures writer.old + 1 < 2 ^ 64 }
    ensures lines { OnOk result
        (Appends (W.passed writer.old) (W.passed writer.new) (lines_printed raw text.now)) }
    ensures failures { OnOk result (W.failures writer.new ≡ W.failures writer.old) }
{
    if raw {
        return write_out(writer, text.as_bytes());
    }
    let shown = shown_lines(alloc, text)?;
    write_out(writer, shown.as_bytes())
}

/// Writes the line of a difference for people.
pub fn write_line<W: Sink>(
    alloc: Global,
    found: &DifferingObject,
    writer: &mut W,
) -> Result<(), Stop>
    requires writer { W.failures writer.old + 1 < 2 ^ 64 }
    ensures line { OnOk result
        (Appends (W.passed writer.old) (W.passed writer.new)
        (difference_line found.now.object (told_of found.now.difference))) }
    ensures failures { OnOk result (W.failures writer.new ≡ W.failures writer.old) }
{
    let line = difference_line(alloc, found.object, &found.difference)?;
    write_out(writer, line.as_bytes())
}
