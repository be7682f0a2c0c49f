//! What a line of words asks for, and the status of the program.
ghost use Rattle.std.specs.Prelude.{◌≡◌, ◌≢◌, ◌⊎◌, ◌+◌, ◌^◌, ◌<◌, ◌≤◌, map, true, vec_len, IfErr};
ghost use Rattle.std.specs.Prelude.{OnOk};
ghost use Rattle.s4_types.specs.Sizes.{IsFrameCount};
ghost use Rattle.s4d.specs.Opening.{HoldsAt};
ghost use Rattle.s4d.specs.Performing.{IsDone, IsDoneOf, IsUndone, IsUsage, IsWithinLimits};
ghost use Rattle.s4d.specs.Performing.{SaysNotGiven, SaysNotMigrated, SaysNotNew, SaysNotVerified};
ghost use Rattle.s4d.specs.Performing.{SaysRunUndone, SaysUndone, SaysUndoneOf, SaysUnpiped, status_of};
ghost use Rattle.s4d.specs.Migrating.{MigratesImage};
ghost use Rattle.image_commands.specs.Making.{HasNew};
ghost use Rattle.image_commands.specs.ReadingPast.{GivesObject};
ghost use Rattle.image_commands.specs.Verifying.{TellsImage};
ghost use Rattle.s4d.specs.Piping.{Pipes};
ghost use Rattle.s4d.specs.Running.{RunsImage};

use crate::faults::Undone;
use crate::migrating::migrate_file;
use crate::piping::serve_pipe;
use crate::running::run_file;
use image_commands::{Files, Placed, make_file, verify_file, write_object, write_out};
use s4d_command::{At, Command, CommandError, Migrate, New, Pipe, Run, Verify, command_of};
use serving::{ServeEnd, Sink, Source};
use std::alloc::Global;
use std::convert::AsStr;
use std::fmt::Display;
use std::io::Write;
use std::sync::Wait;
use std::thread::Threads;
use std::time::Clock;

/// The status of what was done.
const DONE: u8 = 0;

/// The status of what failed.
const FAILED: u8 = 1;

/// The status of a line of words that give no command.
const USAGE: u8 = 2;

/// Does what the words ask for, the program's name first among them, and answers the program's
/// status: 0 where it is done, 1 with a line on `errors` where it failed, 2 with a line where the
/// words give no command.
///
/// `run` has a line for each session that failed, and writes the image all the same.
pub fn perform<T: Threads + Wait + Clock + Sync, F: Files, S: AsStr, R: Source, W: Sink, E: Write>(
    rt: &T,
    alloc: Global,
    files: &mut F,
    words: &[S],
    reader: &mut R,
    writer: &mut W,
    errors: &mut E,
) -> u8
    requires reader { R.failures reader.old + 1 < 2 ^ 64 }
    requires writer { W.failures writer.old + 1 < 2 ^ 64 }
    ensures status { result ≤ 2 }
    ensures done { result ≡ 0 → IsDone (map S.text words.now) (HoldsAt F.writes F.Writer.contents)
        (F.contents files.old) (F.contents files.new)
        (R.remaining reader.old) (W.passed writer.old)
        (R.remaining reader.new) (W.passed writer.new) }
    ensures usage { result ≡ 2 → IsUsage (map S.text words.now) }
    ensures undone { result ≢ 0 → IsUndone (HoldsAt F.writes F.Writer.contents)
        (F.contents files.old) (F.contents files.new)
        (R.remaining reader.old) (W.passed writer.old)
        (R.remaining reader.new) (W.passed writer.new)
        (W.failures writer.old) (W.failures writer.new) (map S.text words.now) result }
{
    match perform_line(rt, alloc, files, words, reader, writer, errors) {
        Ok(()) => DONE,
        Err(why) => tell(errors, why),
    }
}

// The same; or why it isn't done, which has no line yet but where sessions failed.
fn perform_line<
    'a,
    T: Threads + Wait + Clock + Sync,
    F: Files,
    S: AsStr,
    R: Source,
    W: Sink,
    E: Write,
>(
    rt: &T,
    alloc: Global,
    files: &mut F,
    words: &'a [S],
    reader: &mut R,
    writer: &mut W,
    errors: &mut E,
) -> Result<(), Undone<'a>>
    requires reader { R.failures reader.old + 1 < 2 ^ 64 }
    requires writer { W.failures writer.old + 1 < 2 ^ 64 }
    ensures done { OnOk result (IsDone (map S.text words.entry.now) (HoldsAt F.writes F.Writer.contents)
        (F.contents files.old) (F.contents files.new)
        (R.remaining reader.old) (W.passed writer.old)
        (R.remaining reader.new) (W.passed writer.new)) }
    ensures undone { IfErr result (SaysUndone (HoldsAt F.writes F.Writer.contents)
        (F.contents files.old) (F.contents files.new)
        (R.remaining reader.old) (W.passed writer.old)
        (R.remaining reader.new) (W.passed writer.new)
        (W.failures writer.old) (W.failures writer.new) (map S.text words.entry.now)) }
{
    match command_of(alloc, words) {
        Ok(command) => {
            let performed = perform_command(rt, alloc, files, &command, reader, writer, errors);
            drop(command);
            performed
        }
        Err(CommandError::NoMemory) => Err(Undone::NoMemory),
        Err(CommandError::Usage) => Err(Undone::Usage),
    }
}

// Does what a command asks for.
fn perform_command<'a, T: Threads + Wait + Clock + Sync, F: Files, R: Source, W: Sink, E: Write>(
    rt: &T,
    alloc: Global,
    files: &mut F,
    command: &Command<'a>,
    reader: &mut R,
    writer: &mut W,
    errors: &mut E,
) -> Result<(), Undone<'a>>
    requires limits { IsWithinLimits command.now }
    requires reader { R.failures reader.old + 1 < 2 ^ 64 }
    requires writer { W.failures writer.old + 1 < 2 ^ 64 }
    ensures done { OnOk result (IsDoneOf (HoldsAt F.writes F.Writer.contents)
        (F.contents files.old) (F.contents files.new)
        (R.remaining reader.old) (W.passed writer.old)
        (R.remaining reader.new) (W.passed writer.new) command.now) }
    ensures undone { IfErr result (SaysUndoneOf (HoldsAt F.writes F.Writer.contents)
        (F.contents files.old) (F.contents files.new)
        (R.remaining reader.old) (W.passed writer.old)
        (R.remaining reader.new) (W.passed writer.new)
        (W.failures writer.old) (W.failures writer.new) command.now) }
{
    match command {
        Command::Pipe(pipe) => perform_session(alloc, *pipe, reader, writer),
        Command::New(new) => perform_new(alloc, files, *new),
        Command::Verify(asked) => perform_verify(rt, alloc, files, *asked, writer),
        Command::At(asked) => perform_at(rt, alloc, files, *asked, writer),
        Command::Run(run) => perform_run(rt, alloc, files, run, errors),
        Command::Migrate(asked) => perform_migrate(alloc, files, *asked, writer),
    }
}

// Serves a session of a new drive.
fn perform_session<'a, R: Source, W: Sink>(
    alloc: Global,
    pipe: Pipe,
    reader: &mut R,
    writer: &mut W,
) -> Result<(), Undone<'a>>
    requires frames { IsFrameCount pipe.frames }
    requires reader { R.failures reader.old + 1 < 2 ^ 64 }
    requires writer { W.failures writer.old + 1 < 2 ^ 64 }
    ensures done { OnOk result (Pipes pipe ServeEnd.Ended
        (R.remaining reader.old) (W.passed writer.old)
        (R.remaining reader.new) (W.passed writer.new)) }
    ensures undone { IfErr result
        (SaysUnpiped (R.remaining reader.old) (W.passed writer.old) (R.remaining reader.new)
        (W.passed writer.new) pipe) }
{
    match serve_pipe(alloc, pipe, reader, writer) {
        Ok(ServeEnd::Ended) => Ok(()),
        Ok(end) => Err(Undone::OtherEnd(end)),
        Err(refusal) => Err(Undone::NoDrive(refusal)),
    }
}

// Writes the image of a new drive.
fn perform_new<'a, F: Files>(alloc: Global, files: &mut F, new: New<'a>) -> Result<(), Undone<'a>>
    requires frames { IsFrameCount new.frames }
    ensures done { OnOk result
        (HasNew new.entry.frames new.entry.window (F.contents files.new new.entry.image.now)) }
    ensures undone { IfErr result
        (SaysNotNew (F.contents files.old) (F.contents files.new) new.entry) }
{
    match make_file(alloc, files, new) {
        Ok(Placed::Lasting) => Ok(()),
        Ok(Placed::NotLasting) => Err(Undone::Unlasting(new.image)),
        Err(fault) => Err(Undone::Failed(fault)),
    }
}

// Writes the line of an image's numbers.
fn perform_verify<'a, T: Threads, F: Files, W: Sink>(
    rt: &T,
    alloc: Global,
    files: &F,
    asked: Verify<'a>,
    writer: &mut W,
) -> Result<(), Undone<'a>>
    requires writer { W.failures writer.old + 1 < 2 ^ 64 }
    ensures done { OnOk result
        (TellsImage (F.contents files.now asked.entry.image.now) (W.passed writer.old)
        (W.passed writer.new)) }
    ensures undone { IfErr result
        (SaysNotVerified (F.contents files.now) (W.failures writer.old) (W.failures writer.new)
        asked.entry) }
{
    match verify_file(rt, alloc, files, asked, writer) {
        Ok(()) => Ok(()),
        Err(fault) => Err(Undone::Failed(fault)),
    }
}

// Writes what an object was.
fn perform_at<'a, T: Threads, F: Files, W: Sink>(
    rt: &T,
    alloc: Global,
    files: &F,
    asked: At<'a>,
    writer: &mut W,
) -> Result<(), Undone<'a>>
    requires writer { W.failures writer.old + 1 < 2 ^ 64 }
    ensures done { OnOk result
        (GivesObject (F.contents files.now asked.entry.image.now) asked.entry.object
        asked.entry.moment (W.passed writer.old) (W.passed writer.new)) }
    ensures undone { IfErr result
        (SaysNotGiven (F.contents files.now) (W.failures writer.old) (W.failures writer.new)
        asked.entry) }
{
    match write_object(rt, alloc, files, asked, writer) {
        Ok(()) => Ok(()),
        Err(fault) => Err(Undone::Failed(fault)),
    }
}

// Makes a new image of an earlier one, and writes the line of its numbers.
fn perform_migrate<'a, F: Files, W: Sink>(
    alloc: Global,
    files: &mut F,
    asked: Migrate<'a>,
    writer: &mut W,
) -> Result<(), Undone<'a>>
    requires writer { W.failures writer.old + 1 < 2 ^ 64 }
    ensures done { OnOk result
        (MigratesImage (F.contents files.old) (F.contents files.new) (W.passed writer.old)
        (W.passed writer.new) asked.entry) }
    ensures undone { IfErr result
        (SaysNotMigrated (F.contents files.old) (F.contents files.new) (W.failures writer.old)
        (W.failures writer.new) asked.entry) }
{
    let made = match migrate_file(alloc, files, asked) {
        Ok(made) => made,
        Err(fault) => return Err(Undone::Failed(fault)),
    };
    if made.placed == Placed::NotLasting {
        return Err(Undone::Unlasting(asked.image));
    }
    match write_out(writer, made.line.as_bytes()) {
        Ok(()) => Ok(()),
        Err(fault) => Err(Undone::Failed(fault)),
    }
}

// Serves sessions over an image. Done only where each session came to the end of its input.
fn perform_run<'a, T: Threads + Wait + Clock + Sync, F: Files, E: Write>(
    rt: &T,
    alloc: Global,
    files: &mut F,
    run: &Run<'a>,
    errors: &mut E,
) -> Result<(), Undone<'a>>
    requires sessions { vec_len run.now.sessions ≤ 16 }
    ensures done { OnOk result
        (RunsImage (HoldsAt F.writes F.Writer.contents) run.now (F.contents files.old)
        (F.contents files.new) (F.contents files.new run.now.image.now) true) }
    ensures undone { IfErr result
        (SaysRunUndone (HoldsAt F.writes F.Writer.contents) (F.contents files.old)
        (F.contents files.new) run.now) }
{
    match run_file(rt, alloc, files, run, errors) {
        Ok(ran) => match ran.placed {
            Placed::NotLasting => Err(Undone::Unlasting(run.image)),
            Placed::Lasting if ran.is_ended => Ok(()),
            Placed::Lasting => Err(Undone::Unended),
        },
        Err(fault) => Err(Undone::NotRun(fault)),
    }
}

// Says why a line of words isn't done, and answers the status of that.
fn tell<E: Write>(errors: &mut E, why: Undone<'_>) -> u8
    ensures { result ≡ status_of why.entry }
{
    let status = status_of(&why);
    // Each session that failed has had its line.
    if !matches!(why, Undone::Unended) {
        let _ = writeln!(errors, "s4d: {why}");
    }
    drop(why);
    status
}

// The status of what isn't done.
fn status_of(why: &Undone<'_>) -> u8
    ensures { result ≡ status_of why.now }
{
    match why {
        Undone::Usage => USAGE,
        Undone::NoMemory
        | Undone::NoDrive(_)
        | Undone::OtherEnd(_)
        | Undone::Failed(_)
        | Undone::NotRun(_)
        | Undone::Unlasting(_)
        | Undone::Unended => FAILED,
    }
}

/// Says why something failed.
pub fn fail<E: Write, D: Display + Drop>(errors: &mut E, why: D) -> u8
    ensures { result ≡ 1 }
{
    // There is nobody to tell where this line can't be written.
    let _ = writeln!(errors, "s4d: {why}");
    FAILED
}

/// Says that the words give no command.
pub fn refuse<E: Write>(errors: &mut E) -> u8
    ensures { result ≡ 2 }
{
    let _ = writeln!(errors, "s4d: usage");
    USAGE
}
