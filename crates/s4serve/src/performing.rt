//! What a line of words asks for, and the status of the program.
ghost use Rattle.std.specs.Prelude.{◌≡◌, ◌+◌, ◌^◌, ◌<◌, ◌≤◌};

use crate::faults::ServeFault;
use crate::keeping::KeptFiles;
use crate::machine::Machine;
use crate::starting::serve_image;
use crate::telling::Telling;
use door_files::Fifos;
use image_commands::Fault;
use s4serve_command::{NoCommand, service_of};
use serving::Sink;
use std::alloc::Global;
use std::convert::AsStr;
use std::fmt::Display;
use std::io::Write;
use std::marker::{Send, Sync};
use std::sync::Wait;
use std::thread::Threads;

/// The status of a service that was stopped, and of what was asked for and printed.
const DONE: u8 = 0;

/// The status of what failed.
const FAILED: u8 = 1;

/// The status of a line of words that give no service.
const USAGE: u8 = 2;

/// Does what the words ask for, the program's name first among them, and answers the program's
/// status: 0 where a service was stopped, or where help or the version was asked for and printed; 1
/// with a line on `errors` where it failed; 2 with lines there where the words give no service.
#[tactic(auto, using(crate::proofs::Created::asked_fits))]
pub fn perform<
    H: Threads + Wait + Machine + Copy + Send + Sync + Drop + 'static,
    F: KeptFiles + Copy,
    D: Fifos + Telling + Copy + Send + Sync + Drop + 'static,
    S: AsStr,
    W: Sink,
    E: Write,
>(rt: &H, alloc: Global, files: F, outside: D, words: &[S], writer: &mut W, errors: &mut E) -> u8
    requires writer { W.failures writer.old + 1 < 2 ^ 64 }
    ensures status { result ≤ 2 }
{
    match service_of(alloc, words) {
        Ok(asked) => match serve_image(rt, alloc, files, outside, &asked) {
            Ok(()) => DONE,
            Err(fault) => fail(errors, fault),
        },
        Err(NoCommand::Asked(text)) => show(alloc, text, writer, errors),
        Err(NoCommand::Refused(error)) => say(errors, error),
        Err(NoCommand::NoMemory) => fail(errors, ServeFault::NoMemory),
        Err(refusal) => refuse(errors, refusal),
    }
}

// Prints a text that was asked for.
fn show<W: Sink, E: Write>(alloc: Global, text: clap::Error, writer: &mut W, errors: &mut E) -> u8
    requires writer { W.failures writer.old + 1 < 2 ^ 64 }
    ensures status { result ≤ 1 }
{
    let text = match format!(in alloc; "{text}") {
        Ok(text) => text,
        Err(_) => return fail(errors, ServeFault::NoMemory),
    };
    match writer.put(text.as_bytes()) {
        Ok(()) => DONE,
        Err(_) => fail(errors, Fault::WriteFailed),
    }
}

/// Says why something failed.
pub fn fail<E: Write, D: Display + Drop>(errors: &mut E, why: D) -> u8
    ensures { result ≡ 1 }
{
    // There is nobody to tell where this line can't be written.
    let _ = writeln!(errors, "s4serve: {why}");
    FAILED
}

/// Says why the words give no service.
pub fn refuse<E: Write, D: Display + Drop>(errors: &mut E, why: D) -> u8
    ensures { result ≡ 2 }
{
    let _ = writeln!(errors, "s4serve: {why}");
    USAGE
}

// Says why the parser refuses the words.
fn say<E: Write>(errors: &mut E, error: clap::Error) -> u8
    ensures { result ≡ 2 }
{
    let _ = write!(errors, "{error}");
    USAGE
}
