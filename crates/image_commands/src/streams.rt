//! The standard streams of a program that opens files.
use std::fs::{File, OpenOptions};
use std::io;
use std::os::fd::{AsRawFd, IntoRawFd};

/// The file that has nothing.
const NOTHING: &str = "/dev/null";

/// The number of standard input.
const STANDARD_INPUT: i32 = 0;

/// The number of standard error, the last of the standard streams.
const STANDARD_ERROR: i32 = 2;

/// Gives the numbers of those standard streams that are closed to files that can't be used as they
/// are: else the next file that is opened would have such a number, and be read or written in the
/// place of the stream. An error where the system has nothing to open; the streams that are left
/// stay as they are then.
pub fn hold_standard_streams(rt: &HostRuntime) -> io::Result<()> {
    let unreadable = OpenOptions::new().write(true).open(rt, NOTHING)?;
    // A greater number is given up at once: the next file has it then, which can't be written.
    if unreadable.as_raw_fd() == STANDARD_INPUT {
        let _ = unreadable.into_raw_fd();
    } else {
        drop(unreadable);
    }
    for _ in 0..STANDARD_ERROR {
        let unwritable = File::open(rt, NOTHING)?;
        if unwritable.as_raw_fd() > STANDARD_ERROR {
            return Ok(());
        }
        let _ = unwritable.into_raw_fd();
    }
    Ok(())
}
