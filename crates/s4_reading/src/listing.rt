//! `list`: the objects of a moment.
ghost use Rattle.std.specs.Prelude.{◌≡◌, ◌+◌, ◌^◌, ◌<◌, IfOk, OnOk};
ghost use Rattle.drive.specs.Fields.{state_in, store_of};
ghost use Rattle.history_versions.specs.Lines.{line_with_versions};
ghost use Rattle.s4_reading.specs.Listing.{Lists, ListsRows, asked_by, line_asked};
ghost use Rattle.s4_reading.specs.Listing.{line_of_listed};

use crate::forms::Form;
use drive::{Drive, Session};
use history_diff::Stop;
use history_text::{list_head, listed_json, listed_line};
use history_versions::{VersionsAsked, write_with_versions};
use history_view::{Listed, next_listed};
use image_commands::write_out;
use moment_words::MomentStyle;
use s4_command::ListAsked;
use s4_images::{Failure, Prints, Verdict, moment_asked, write_line};
use s4_types::{Moment, ObjectId, Refusal, Role};
use segment_word::Naming;
use serving::Sink;
use std::alloc::{AllocError, Global};

/// Prints the objects that a drive has at the moment that is asked for.
pub(crate) fn write_list<J: Naming, W: Sink>(
    alloc: Global,
    drive: &mut Drive<J>,
    asked: &ListAsked<'_>,
    writer: &mut W,
) -> Result<Verdict, Failure>
    requires writer { W.failures writer.old + 1 < 2 ^ 64 }
    ensures lists { IfOk result
        (λ verdict. Lists drive.old asked.now verdict (W.passed writer.old)
        (W.passed writer.new)) }
{
    let moment = moment_asked(drive, ObjectId::new(0), asked.at)?;
    let form = Form::over(drive, asked.moments, asked.json);
    write_out(writer, form.head(list_head(form.style)).as_bytes())?;
    write_rows(alloc, drive, moment, asked, form, writer)?;
    Ok(Verdict::Fine)
}

// Writes the line of each object that is listed at a moment, as it is asked for.
fn write_rows<J: Naming, W: Sink>(
    alloc: Global,
    drive: &mut Drive<J>,
    moment: Moment,
    asked: &ListAsked<'_>,
    form: Form,
    writer: &mut W,
) -> Result<(), Failure>
    requires writer { W.failures writer.old + 1 < 2 ^ 64 }
    ensures rows { OnOk result
        (ListsRows (state_in drive.old) (store_of drive.old) moment asked.now.deleted
        (line_asked (state_in drive.old) (store_of drive.old) asked.now form moment)
        (W.passed writer.old) (W.passed writer.new)) }
{
    if asked.versions {
        let versions = asked_by(asked, moment, form.style);
        return write_versions(alloc, drive, asked.deleted, &versions, writer);
    }
    write_listed(alloc, drive, moment, asked.deleted, form, writer)
}

fn asked_by(asked: &ListAsked<'_>, moment: Moment, style: MomentStyle) -> VersionsAsked
    ensures { result ≡ asked_by asked.now moment style }
{
    VersionsAsked {
        until: moment,
        contents: asked.contents,
        style,
    }
}

// Writes the line of each object that is listed at a moment, with its versions up to then.
fn write_versions<J: Naming, W: Sink>(
    alloc: Global,
    drive: &mut Drive<J>,
    deleted: bool,
    asked: &VersionsAsked,
    writer: &mut W,
) -> Result<(), Failure>
    requires writer { W.failures writer.old + 1 < 2 ^ 64 }
    ensures rows { OnOk result
        (ListsRows (state_in drive.old) (store_of drive.old) asked.now.until deleted
        (line_with_versions (state_in drive.old) (store_of drive.old) asked.now)
        (W.passed writer.old) (W.passed writer.new)) }
{
    let mut session = drive.session(Role::Client)?;
    match write_each(alloc, drive, &mut session, deleted, asked, writer) {
        Ok(()) => Ok(()),
        Err(stop) => Err(failure_of(stop)),
    }
}

fn failure_of(stop: Stop) -> Failure {
    match stop {
        Stop::NoMemory => Failure::from(Refusal::NoMemory),
        Stop::Refused(refusal) => Failure::from(refusal),
        Stop::WriteFailed => Failure::WriteFailed,
    }
}

// The same by a session.
fn write_each<J: Naming, W: Sink>(
    alloc: Global,
    drive: &mut Drive<J>,
    session: &mut Session<J>,
    deleted: bool,
    asked: &VersionsAsked,
    writer: &mut W,
) -> Result<(), Stop>
    requires writer { W.failures writer.old + 1 < 2 ^ 64 }
    ensures rows { OnOk result
        (ListsRows (state_in drive.old) (store_of drive.old) asked.now.until deleted
        (line_with_versions (state_in drive.old) (store_of drive.old) asked.now)
        (W.passed writer.old) (W.passed writer.new)) }
{
    let mut before = ObjectId::new(0);
    while let Some(row) = next_listed(drive, before, asked.until, deleted) {
        write_with_versions(alloc, drive, session, &row, asked, writer)?;
        before = row.object;
    }
    Ok(())
}

// Writes the line of each object that is listed at a moment.
fn write_listed<J: Naming, W: Sink>(
    alloc: Global,
    drive: &mut Drive<J>,
    moment: Moment,
    deleted: bool,
    form: Form,
    writer: &mut W,
) -> Result<(), Failure>
    requires writer { W.failures writer.old + 1 < 2 ^ 64 }
    ensures rows { OnOk result
        (ListsRows (state_in drive.old) (store_of drive.old) moment deleted
        (line_of_listed form.json form.style) (W.passed writer.old) (W.passed writer.new)) }
{
    let mut last = ObjectId::new(0);
    while let Some(row) = next_listed(drive, last, moment, deleted) {
        write_line(alloc, &form, &row, writer)?;
        last = row.object;
    }
    Ok(())
}

impl Prints<Listed> for Form {
    ghost line = { λ form. line_of_listed form.json form.style };

    fn line(&self, alloc: Global, row: &Listed) -> Result<String, AllocError> {
        if self.json {
            return listed_json(alloc, row, self.style);
        }
        listed_line(alloc, row, self.style)
    }
}
