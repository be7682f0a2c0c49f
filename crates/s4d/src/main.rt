//! The program `s4d`: a self-securing object drive on a pipe, or in a file.
//!
//! `perform` does what a line of words asks for, over any files, reader and writers, and `main`
//! calls it with the system's files and the standard streams, on a thread whose stack is had before
//! anything is read. What the session of `pipe` reads, answers and writes is proved, and what the
//! status says of it. So is, over any files that say what they hold, that `verify` writes the line
//! of the image in its file and `at` what that has of an object, that `new` leaves the image of a
//! new drive, and that `run` attends each session of a drive that begins with its image and leaves
//! there what such a drive is saved as. That the system's files read and write as such files do is
//! tested, and so are the texts on standard error.
#![tactic(auto)]

ghost use Rattle.std.specs.Prelude.{◌≡◌, ◌≢◌, ◌+◌, ◌^◌, ◌<◌, ◌≤◌, ℕ, List, Option, map};
ghost use Rattle.std.specs.Process.{exit_status};
ghost use Rattle.std.specs.declared.io.ErrorKind.TheVariants.{OutOfMemory};
ghost use Rattle.s4d.specs.Performing.{IsDone, IsUndone, IsUsage, any_writer, unknown};

mod faults;
mod migrating;
mod performing;
mod piping;
mod running;
mod session_files;
mod session_thread;

use image_commands::hold_standard_streams;
use performing::{fail, refuse};
use s4d_command::CommandError;
use serving::{ReadSource, Sink, Source, WriteSink};
use session_thread::perform_apart;
use std::convert::AsStr;
use std::io;
use std::process::ExitCode;
use std::sync::Wait;
use std::thread::Threads;
use std::time::Clock;

fn main(rt: HostRuntime) -> ExitCode {
    // Where the system has nothing to open, the streams stay as they are.
    let _ = hold_standard_streams(&rt);
    match words_of(&rt) {
        Ok(words) => exit_of(
            &rt,
            &rt,
            words,
            ReadSource::new(rt.stdin()),
            WriteSink::new(rt.stdout()),
        ),
        Err(error) => ExitCode::from(tell(&rt, error.kind())),
    }
}

// What the line came to: 0 only where it is done, and a session of `pipe` was served to its end.
fn exit_of<
    H: Threads + Wait + Clock + Copy + Send + Sync + Drop + 'static,
    S: AsStr + Send + Drop + 'static,
    R: Source + Send + Drop + 'static,
    W: Sink + Send + Drop + 'static,
>(threads: &H, rt: &HostRuntime, words: Vec<S>, reader: R, writer: W) -> ExitCode
    requires reader { R.failures reader + 1 < 2 ^ 64 }
    requires writer { W.failures writer + 1 < 2 ^ 64 }
    ensures status { exit_status result ≤ 2 }
    ensures done { exit_status result ≡ 0 → (input output : Option (List ℕ))
        × IsDone (map S.text words.items) any_writer unknown unknown (R.remaining reader)
        (W.passed writer) input output }
    ensures usage { exit_status result ≡ 2 → IsUsage (map S.text words.items) }
    ensures undone { exit_status result ≢ 0 → (input output : Option (List ℕ)) × (failures : ℕ)
        × IsUndone any_writer unknown unknown (R.remaining reader) (W.passed writer) input output
        (W.failures writer) failures (map S.text words.items) (exit_status result) }
{
    match perform_apart(threads, *rt, words, reader, writer, rt.stderr()) {
        Ok(run) => ExitCode::from(run.status),
        Err(_) => ExitCode::from(fail(&mut rt.stderr(), CommandError::NoMemory)),
    }
}

// Says why the line couldn't be had: for lack of memory, or as words that are no text.
fn tell(rt: &HostRuntime, why: io::ErrorKind) -> u8
    ensures memory { why ≡ OutOfMemory → result ≡ 1 }
    ensures text { why ≢ OutOfMemory → result ≡ 2 }
{
    match why {
        io::ErrorKind::OutOfMemory => fail(&mut rt.stderr(), CommandError::NoMemory),
        _ => refuse(&mut rt.stderr()),
    }
}

// The line that the program was called with. Words that are no text fail as a whole.
fn words_of(rt: &HostRuntime) -> io::Result<Vec<String>> {
    let words = std::env::args(rt)?.collect(rt.alloc())?;
    Ok(words)
}
