//! The program `s4`: looks into the past of a drive that is kept in a file, and brings it back.
//!
//! `perform` does what a line of words asks for, over any files and writers, and `main` calls it
//! with the system's, on a thread whose stack is had before anything is read. Ages count from the
//! machine's time, which is read once. `restore` and
//! `compact` alone change an image; no other command does, or keeps another program from it. What
//! is proved over any files that say what they hold: `list` writes the line of exactly the objects
//! that are listed at a moment, `log` a line for each entry of the journals and each hidden run
//! between two moments, and for each flush that hid some of them, `audit` a line for each accepted
//! change that is asked for, `cat` the bytes of an object at a moment, `diff` what differs between
//! two moments, `check` how many versions can be read, all of which were; `salvage` how much of a
//! damaged image was written into a folder, file by file; `restore` leaves what the drive is saved
//! as in which the objects are what they were, and `compact` what the compacted drive is saved as.
//! That the system's files read and write as such files do is tested, and so are the texts on
//! standard error.
#![tactic(auto)]

ghost use Rattle.std.specs.Prelude.{◌≡◌, ◌+◌, ◌^◌, ◌<◌, ◌≤◌};
ghost use Rattle.std.specs.Process.{exit_status};

mod own_thread;
mod performing;
mod terminal;
mod times;

use image_commands::hold_standard_streams;
use own_thread::perform_apart;
use performing::refuse;
use s4_images::Failure;
use s4_types::Refusal;
use std::convert::AsStr;
use std::io;
use std::marker::Send;
use std::process::ExitCode;
use std::thread::Threads;
use terminal::{ProgramOutput, Terminal};

fn main(rt: HostRuntime) -> ExitCode {
    // Where the system has nothing to open, the streams stay as they are.
    let _ = hold_standard_streams(&rt);
    match words_of(&rt) {
        Ok(words) => exit_of(&rt, &rt, words, Terminal::new(rt.stdout(), rt.stderr())),
        Err(error) => ExitCode::from(tell(&rt, error.kind())),
    }
}

// What the line came to.
fn exit_of<
    T: Threads + Copy + Send + Sync + Drop + 'static,
    S: AsStr + Send + Drop + 'static,
    W: ProgramOutput + Send + Drop + 'static,
>(threads: &T, rt: &HostRuntime, words: Vec<S>, writer: W) -> ExitCode
    requires writer { W.failures writer + 1 < 2 ^ 64 }
    ensures { exit_status result ≤ 2 }
{
    match perform_apart(threads, *rt, words, writer, rt.stderr()) {
        Ok(status) => ExitCode::from(status),
        Err(_) => {
            let status = refuse(&mut rt.stderr(), Failure::from(Refusal::NoMemory));
            ExitCode::from(status)
        }
    }
}

// Says why the line couldn't be had: memory was refused, or the words are no text.
fn tell(rt: &HostRuntime, why: io::ErrorKind) -> u8
    ensures { result ≡ 2 }
{
    match why {
        io::ErrorKind::OutOfMemory => refuse(&mut rt.stderr(), Failure::from(Refusal::NoMemory)),
        _ => refuse(&mut rt.stderr(), "the words are no text in UTF-8"),
    }
}

// The line that the program was called with. Words that are no text fail as a whole.
fn words_of(rt: &HostRuntime) -> io::Result<Vec<String>> {
    let words = std::env::args(rt)?.collect(rt.alloc())?;
    Ok(words)
}
