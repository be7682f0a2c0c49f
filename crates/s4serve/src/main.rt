//! The program `s4serve`: a service whose clients come and go, and which keeps what it
//! acknowledged.
//!
//! A client writes a name at a door, and has a session over two FIFOs of that name. Each reply
//! waits until an image that has what it shows has taken the place of the one before, on the disk.
//! What is proved of that: each reply that a session writes is a step of the shared drive at a
//! history all of whose accepted changes a receipt covers, and its clock too. Whatever sends replies
//! requires that, and that they are of a session of its door's role, on every thread. A flush that
//! makes a receipt leaves at the image's path, whatever a crash leaves there, the image of the drive
//! with these changes at that clock. At its end no session is given a receipt any more, and then a
//! last flush leaves there the image of the drive at its own clock; or, where the image isn't where
//! it was put, one at its reach. A service that ends well shows that, and that it was stopped by
//! what `stop` at a door of administrators alone gives.
//!
//! An argument in writing, and no clause: that a thread goes on; that a crash falls between two
//! calls, while threads run; that one lock orders what the receipts of several sessions say; that
//! the last flush comes after each change that a receipt covers; that the look for the image is one
//! at the disk. The monitor has a model that is searched, and the program is killed in tests.
#![tactic(auto)]

ghost use Rattle.std.specs.Prelude.{◌+◌, ◌^◌, ◌<◌, ◌≤◌};
ghost use Rattle.std.specs.Process.{exit_status};

mod at_doors;
mod collecting;
mod doors;
mod ended;
mod faults;
mod heard;
mod keeping;
mod leaving;
mod machine;
mod opening;
mod own_thread;
mod parts;
mod performing;
mod reaching;
mod replying;
mod reserves;
mod service;
mod sessions;
mod spawning;
mod starting;
mod telling;
mod waiting;
mod workers;

use faults::ServeFault;
use image_commands::hold_standard_streams;
use machine::Machine;
use own_thread::perform_apart;
use performing::{fail, refuse};
use serving::{Sink, WriteSink};
use std::convert::AsStr;
use std::io;
use std::process::ExitCode;
use std::sync::Wait;
use std::thread::Threads;

fn main(rt: HostRuntime) -> ExitCode {
    // Where the system has nothing to open, the streams stay as they are.
    let _ = hold_standard_streams(&rt);
    match words_of(&rt) {
        Ok(words) => exit_of(&rt, &rt, words, WriteSink::new(rt.stdout())),
        Err(error) => ExitCode::from(tell(&rt, error.kind())),
    }
}

// What the line came to.
fn exit_of<
    H: Threads + Wait + Machine + Copy + Send + Sync + Drop + 'static,
    S: AsStr + Send + Drop + 'static,
    W: Sink + Send + Drop + 'static,
>(threads: &H, rt: &HostRuntime, words: Vec<S>, writer: W) -> ExitCode
    requires writer { W.failures writer + 1 < 2 ^ 64 }
    ensures { exit_status result ≤ 2 }
{
    match perform_apart(threads, *rt, words, writer, rt.stderr()) {
        Ok(status) => ExitCode::from(status),
        Err(_) => ExitCode::from(fail(&mut rt.stderr(), ServeFault::NoMemory)),
    }
}

// Says why the line couldn't be had: for lack of memory, or as words that are no text.
fn tell(rt: &HostRuntime, why: io::ErrorKind) -> u8
    ensures { result ≤ 2 }
{
    match why {
        io::ErrorKind::OutOfMemory => fail(&mut rt.stderr(), ServeFault::NoMemory),
        _ => refuse(&mut rt.stderr(), "the words are no text in UTF-8"),
    }
}

// The line that the program was called with. Words that are no text fail as a whole.
fn words_of(rt: &HostRuntime) -> io::Result<Vec<String>> {
    let words = std::env::args(rt)?.collect(rt.alloc())?;
    Ok(words)
}
