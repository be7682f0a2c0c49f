//! What a line of words asks for, and the status of the program.
ghost use Rattle.std.specs.Prelude.{◌≡◌, ◌≢◌, ◌⊎◌, ◌+◌, ◌^◌, ◌<◌, ◌≤◌, map, true, Ok, IsOk, IsTrue};
ghost use Rattle.s4_images.specs.Commands.{OverImage};
ghost use Rattle.s4_folders.specs.Exporting.{Exported};
ghost use Rattle.s4_folders.specs.Salvaging.{SalvagesFile};
ghost use Rattle.s4_reading.specs.Comparing.{Compares};
ghost use Rattle.s4.specs.Performing.{DiffersOver, IsDiffering, IsDone, IsDoneOver, IsEnded};
ghost use Rattle.s4.specs.Performing.{IsEndedOver, IsUndone, IsUnread};

use crate::terminal::ProgramOutput;
use crate::times::times_of;
use image_commands::{Files, Obstacle, Placed};
use s4_command::{
    Command, CopyAsked, DiffAsked, ExportAsked, NoCommand, RestoreAsked, SalvageAsked, command_of,
};
use s4_compact::compact_image;
use s4_copy::{CopyFailure, copy_image};
use s4_folders::{Folders, export_image, salvage_image};
use s4_images::{DriveCommand, Failure, ImageCommand, Verdict, show_image};
use s4_reading::{Checking, Screens, Showing};
use s4_report::Reporting;
use s4_restore::{MapFault, RestoreFailure, perform_restore};
use s4_types::Refusal;
use std::alloc::Global;
use std::convert::AsStr;
use std::fmt::Display;
use std::io::Write;
use std::thread::Threads;

/// The status of what was done.
const DONE: u8 = 0;

/// The status of what failed, and of two moments that differ.
const FAILED: u8 = 1;

/// The status of a line of words that gave no command, and of a comparison that failed.
const TROUBLE: u8 = 2;

/// Does what the words ask for, the program's name first among them, where it is `now`, in
/// microseconds since 1970, and answers the program's status: 0 where it is done, where help or the
/// version was asked for and printed, or where the writer's reader has gone, of a command that only
/// prints what an image has; 1 with a line on `errors` where it failed, or without one where `diff`
/// printed what differs or `salvage` that something is lost; 2 with lines there where the words gave
/// no command, or where `diff` failed.
#[tactic(auto, using(s4_images::proofs::Kept::untouched))]
pub fn perform<T: Threads, F: Files, D: Folders + Screens, S: AsStr, W: ProgramOutput, E: Write>(
    rt: &T,
    now: u64,
    alloc: Global,
    files: &mut F,
    folders: &D,
    words: &[S],
    writer: &mut W,
    errors: &mut E,
) -> u8
    requires writer { W.failures writer.old + 1 < 2 ^ 64 }
    ensures status { result ≤ 2 }
    ensures done { result ≡ 0
        → IsEnded now (map S.text words.now) (W.is_gone writer.new) (F.contents files.old)
        (F.contents files.new)
        (Exported D.Opened.path D.Opened.files)
        (SalvagesFile D.Opened.path D.Opened.files Verdict.Fine) (W.passed writer.old)
        (W.passed writer.new) }
    ensures kept { result ≢ 0
        → IsUndone (F.contents files.old) (F.contents files.new)
        (IsDone now (map S.text words.now) (F.contents files.old) (F.contents files.new)
        (Exported D.Opened.path D.Opened.files)
        (SalvagesFile D.Opened.path D.Opened.files Verdict.Fine) (W.passed writer.old)
        (W.passed writer.new)) }
    ensures differs { result ≡ 1
        → IsDiffering now (map S.text words.now) (F.contents files.old) (W.passed writer.old)
        (W.passed writer.new) }
{
    match command_of(alloc, words, now) {
        Ok(command) => {
            writer.asks(times_of(&command));
            perform_command(rt, alloc, files, folders, &command, writer, errors)
        }
        Err(NoCommand::Asked(help)) => show(alloc, help, writer, errors),
        Err(NoCommand::Refused(error)) => say(errors, error),
        Err(refusal) => refuse(errors, refusal),
    }
}

// Performs a command.
#[tactic(auto, using(s4_images::proofs::Kept::untouched))]
fn perform_command<T: Threads, F: Files, D: Folders + Screens, W: ProgramOutput, E: Write>(
    rt: &T,
    alloc: Global,
    files: &mut F,
    folders: &D,
    command: &Command<'_>,
    writer: &mut W,
    errors: &mut E,
) -> u8
    requires writer { W.failures writer.old + 1 < 2 ^ 64 }
    ensures status { result ≤ 2 }
    ensures done { result ≡ 0
        → IsEndedOver (W.is_gone writer.new) (F.contents files.old) (F.contents files.new)
        (Exported D.Opened.path D.Opened.files)
        (SalvagesFile D.Opened.path D.Opened.files Verdict.Fine) (W.passed writer.old)
        (W.passed writer.new) command.now }
    ensures kept { result ≢ 0
        → IsUndone (F.contents files.old) (F.contents files.new)
        (IsDoneOver (F.contents files.old) (F.contents files.new)
        (Exported D.Opened.path D.Opened.files)
        (SalvagesFile D.Opened.path D.Opened.files Verdict.Fine) (W.passed writer.old)
        (W.passed writer.new) command.now) }
    ensures differs { result ≡ 1
        → DiffersOver (F.contents files.old) (W.passed writer.old) (W.passed writer.new)
        command.now }
{
    match command {
        Command::List(list) => show_over(rt, alloc, files, &Showing::List(list), writer, errors),
        Command::Log(log) => show_over(rt, alloc, files, &Showing::Log(log), writer, errors),
        Command::Audit(audit) => show_over(
            rt,
            alloc,
            files,
            &Showing::Audit(audit),
            writer,
            errors,
        ),
        Command::Cat(cat) => show_over(rt, alloc, files, &Showing::Cat(cat), writer, errors),
        Command::Info(info) => show_over(rt, alloc, files, &Showing::Info(info), writer, errors),
        Command::Report(report) => show_over(rt, alloc, files, &Reporting(report), writer, errors),
        Command::Diff(diff) => compare_over(rt, alloc, files, diff, writer, errors),
        Command::Check(asked) => {
            let meter = &folders.meter();
            check_over(rt, alloc, files, &Checking { asked, meter }, writer, errors)
        }
        Command::Export(export) => exported(
            export_image(rt, alloc, files, folders, export, writer),
            export,
            errors,
        ),
        Command::Restore(restore) => restored(
            perform_restore(rt, alloc, files, restore, writer),
            restore,
            errors,
        ),
        Command::Compact(compact) => changed(
            compact_image(rt, alloc, files, compact, writer),
            compact.image,
            errors,
        ),
        Command::Copy(copy) => copied(copy_image(rt, alloc, files, copy, writer), copy, errors),
        Command::Salvage(salvage) => salvaged(
            salvage_image(rt, alloc, files, folders, salvage, writer),
            salvage,
            errors,
        ),
    }
}

// Performs a command that prints something of its image, and answers the status of that.
fn show_over<T: Threads, F: Files, C: DriveCommand + ImageCommand, W: ProgramOutput, E: Write>(
    rt: &T,
    alloc: Global,
    files: &F,
    command: &C,
    writer: &mut W,
    errors: &mut E,
) -> u8
    requires writer { W.failures writer.old + 1 < 2 ^ 64 }
    ensures status { result ≤ 1 }
    ensures done { result ≡ 0
        → OverImage (F.contents files.now (C.file command.now))
        (λ d. C.shows command.now d Verdict.Fine (W.passed writer.old) (W.passed writer.new))
        ⊎ IsUnread (W.is_gone writer.new) (F.contents files.now) (F.contents files.now) }
{
    printed(
        show_image(rt, alloc, files, command, writer),
        command.image(),
        writer,
        errors,
    )
}

// Performs a command whose status is its answer, also where nobody reads what it prints.
fn check_over<T: Threads, F: Files, C: DriveCommand + ImageCommand, W: ProgramOutput, E: Write>(
    rt: &T,
    alloc: Global,
    files: &F,
    command: &C,
    writer: &mut W,
    errors: &mut E,
) -> u8
    requires writer { W.failures writer.old + 1 < 2 ^ 64 }
    ensures status { result ≤ 1 }
    ensures done { result ≡ 0
        → OverImage (F.contents files.now (C.file command.now))
        (λ d. C.shows command.now d Verdict.Fine (W.passed writer.old) (W.passed writer.new)) }
{
    let found = show_image(rt, alloc, files, command, writer);
    shown(found, command.image(), errors)
}

// Compares two moments, and answers the status of that.
fn compare_over<T: Threads, F: Files, W: ProgramOutput, E: Write>(
    rt: &T,
    alloc: Global,
    files: &F,
    diff: &DiffAsked<'_>,
    writer: &mut W,
    errors: &mut E,
) -> u8
    requires writer { W.failures writer.old + 1 < 2 ^ 64 }
    ensures status { result ≤ 2 }
    ensures done { result ≡ 0
        → OverImage (F.contents files.now diff.now.image.now)
        (λ d. Compares d diff.now Verdict.Fine (W.passed writer.old) (W.passed writer.new))
        ⊎ IsUnread (W.is_gone writer.new) (F.contents files.now) (F.contents files.now) }
    ensures differs { result ≡ 1
        → OverImage (F.contents files.now diff.now.image.now)
        (λ d. Compares d diff.now Verdict.Differs (W.passed writer.old) (W.passed writer.new)) }
{
    compared(
        show_image(rt, alloc, files, &Showing::Diff(diff), writer),
        diff.image,
        writer,
        errors,
    )
}

// The status of a restore, with why it failed where it did.
fn restored<E: Write>(
    placed: Result<Placed, RestoreFailure>,
    restore: &RestoreAsked<'_>,
    errors: &mut E,
) -> u8
    ensures status { result ≤ 1 }
    ensures done { result ≡ 0 → IsOk placed }
{
    match placed {
        Ok(Placed::Lasting) => DONE,
        Ok(Placed::NotLasting) => fail_to_last(errors, restore.image),
        Err(RestoreFailure::OfMap(fault)) => fail_of_map(errors, restore, fault),
        Err(RestoreFailure::OfImage(failure)) => fail_over(errors, restore.image, failure),
    }
}

// Says why the file of what an earlier restore printed can't be taken.
fn fail_of_map<E: Write>(errors: &mut E, restore: &RestoreAsked<'_>, why: MapFault) -> u8
    ensures { result ≡ 1 }
{
    let path = restore.map.unwrap_or("");
    let _ = writeln!(errors, "s4: {path}: {why}");
    FAILED
}

// The status of a command whose status is asked for, with why it failed where it did.
fn shown<E: Write>(found: Result<Verdict, Failure>, image: &str, errors: &mut E) -> u8
    ensures status { result ≤ 1 }
    ensures done { result ≡ 0 → found ≡ Ok Verdict.Fine }
{
    match found {
        Ok(Verdict::Fine) => DONE,
        Ok(Verdict::Differs) => FAILED,
        Err(failure) => fail_over(errors, image, failure),
    }
}

// The status of a command that printed something, with why it failed where it did.
fn printed<W: ProgramOutput, E: Write>(
    found: Result<Verdict, Failure>,
    image: &str,
    writer: &W,
    errors: &mut E,
) -> u8
    ensures status { result ≤ 1 }
    ensures done { result ≡ 0 → (found ≡ Ok Verdict.Fine) ⊎ (W.is_gone writer.now ≡ true) }
{
    match found {
        Ok(Verdict::Fine) => DONE,
        Ok(Verdict::Differs) => FAILED,
        Err(failure) => {
            if has_no_reader(&failure, writer) {
                drop(failure);
                return DONE;
            }
            fail_over(errors, image, failure)
        }
    }
}

// The status of a comparison, with why it failed where it did.
fn compared<W: ProgramOutput, E: Write>(
    found: Result<Verdict, Failure>,
    image: &str,
    writer: &W,
    errors: &mut E,
) -> u8
    ensures status { result ≤ 2 }
    ensures same { result ≡ 0 → (found ≡ Ok Verdict.Fine) ⊎ (W.is_gone writer.now ≡ true) }
    ensures differs { result ≡ 1 → found ≡ Ok Verdict.Differs }
{
    match found {
        Ok(Verdict::Fine) => DONE,
        Ok(Verdict::Differs) => FAILED,
        Err(failure) => {
            if has_no_reader(&failure, writer) {
                drop(failure);
                return DONE;
            }
            say_over(errors, image, failure);
            TROUBLE
        }
    }
}

// Whether what failed is a write for a reader that has gone.
fn has_no_reader<W: ProgramOutput>(failure: &Failure, writer: &W) -> bool
    ensures { IsTrue result → W.is_gone writer.now ≡ true }
{
    match failure {
        Failure::WriteFailed => writer.is_gone(),
        _ => false,
    }
}

// The status of a copy, with why it failed where it did.
fn copied<E: Write>(
    placed: Result<Placed, CopyFailure<'_>>,
    copy: &CopyAsked<'_>,
    errors: &mut E,
) -> u8
    ensures status { result ≤ 1 }
    ensures done { result ≡ 0 → IsOk placed.entry }
{
    match placed {
        Ok(Placed::Lasting) => DONE,
        Ok(Placed::NotLasting) => fail_to_last(errors, copy.copy),
        Err(CopyFailure::OfCopy(fault)) => fail_over(errors, copy.copy, Failure::from(fault)),
        Err(failure) => fail_over(errors, copy.image, failure.printed()),
    }
}

// The status of an export, with why it failed where it did.
fn exported<E: Write>(written: Result<(), Failure>, export: &ExportAsked<'_>, errors: &mut E) -> u8
    ensures status { result ≤ 1 }
    ensures done { result ≡ 0 → IsOk written }
{
    match written {
        Ok(()) => DONE,
        Err(failure) => fail_beside(errors, export.image, export.folder, failure),
    }
}

// The status of a salvage, with why it failed where it did.
fn salvaged<E: Write>(
    found: Result<Verdict, Failure>,
    salvage: &SalvageAsked<'_>,
    errors: &mut E,
) -> u8
    ensures status { result ≤ 1 }
    ensures done { result ≡ 0 → found ≡ Ok Verdict.Fine }
{
    match found {
        Ok(Verdict::Fine) => DONE,
        Ok(Verdict::Differs) => FAILED,
        Err(failure) => fail_beside(errors, salvage.image, salvage.folder, failure),
    }
}

// The status of a command that changed an image, with why it failed where it did.
fn changed<E: Write>(placed: Result<Placed, Failure>, image: &str, errors: &mut E) -> u8
    ensures status { result ≤ 1 }
    ensures done { result ≡ 0 → IsOk placed }
{
    match placed {
        Ok(Placed::Lasting) => DONE,
        Ok(Placed::NotLasting) => fail_to_last(errors, image),
        Err(failure) => fail_over(errors, image, failure),
    }
}

// Writes the text of help or of the version.
fn show<W: ProgramOutput, E: Write>(
    alloc: Global,
    help: clap::Error,
    writer: &mut W,
    errors: &mut E,
) -> u8
    requires writer { W.failures writer.old + 1 < 2 ^ 64 }
    ensures status { result ≤ 1 }
{
    let text = match format!(in alloc; "{help}") {
        Ok(text) => text,
        Err(_) => return fail(errors, Failure::from(Refusal::NoMemory)),
    };
    match writer.put(text.as_bytes()) {
        Ok(()) => DONE,
        Err(_) if writer.is_gone() => DONE,
        Err(_) => fail(errors, Failure::WriteFailed),
    }
}

// Says why something failed.
fn fail<E: Write, D: Display + Drop>(errors: &mut E, why: D) -> u8
    ensures { result ≡ 1 }
{
    // A line that can't be written here can't be written anywhere.
    let _ = writeln!(errors, "s4: {why}");
    FAILED
}

// Says why something failed over an image.
fn say_over<E: Write>(errors: &mut E, image: &str, why: Failure) {
    let _ = writeln!(errors, "s4: {image}: {why}");
}

// Says why something failed over an image, and answers the status of that.
fn fail_over<E: Write>(errors: &mut E, image: &str, why: Failure) -> u8
    ensures { result ≡ 1 }
{
    say_over(errors, image, why);
    FAILED
}

// Says why something failed over an image, or over the folder beside it.
fn fail_beside<E: Write>(errors: &mut E, image: &str, folder: &str, why: Failure) -> u8
    ensures { result ≡ 1 }
{
    if why.is_of_folder() {
        return fail_over(errors, folder, why);
    }
    fail_over(errors, image, why)
}

// Says that an image is in its place, and may be lost there.
fn fail_to_last<E: Write>(errors: &mut E, image: &str) -> u8
    ensures { result ≡ 1 }
{
    fail_over(errors, image, Failure::CannotWrite(Obstacle::NotLasting))
}

/// Says why the words gave no command.
pub fn refuse<E: Write, D: Display + Drop>(errors: &mut E, why: D) -> u8
    ensures { result ≡ 2 }
{
    let _ = writeln!(errors, "s4: {why}");
    TROUBLE
}

// Says why the parser refuses the words.
fn say<E: Write>(errors: &mut E, error: clap::Error) -> u8
    ensures { result ≡ 2 }
{
    let _ = write!(errors, "{error}");
    TROUBLE
}
