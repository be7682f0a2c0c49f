//! The FIFOs of this system.
ghost use Rattle.std.specs.Prelude.{⊤};

use crate::fifos::Fifos;
use std::fs::{self, File, Metadata, OpenOptions};
use std::io::{self, ErrorKind};
use std::os::fd::AsRawFd;
use std::os::unix::fs::{FileTypeExt, MetadataExt};

impl Fifos for HostRuntime {
    // No clause of the standard library says what a path of the system leads to.
    ghost reads = { λ _ _. ⊤ };

    ghost writes = { λ _ _. ⊤ };

    type Input = File;

    type Output = File;

    fn open_endless(&self, path: &str) -> io::Result<File> {
        both_ends(self, path)
    }

    fn open_input(&self, path: &str) -> io::Result<File> {
        let both = both_ends(self, path)?;
        open_again(self, &both, OpenOptions::new().read(true))
    }

    fn open_output(&self, path: &str) -> io::Result<File> {
        let both = both_ends(self, path)?;
        open_again(self, &both, OpenOptions::new().write(true))
    }
}

/// The FIFO at a path, open for both directions, which waits for nobody. An error where the path
/// names something else, or a link.
fn both_ends(rt: &HostRuntime, path: &str) -> io::Result<File> {
    let about = fs::symlink_metadata(rt, path)?;
    if !about.file_type().is_fifo() {
        return Err(io::Error::from(ErrorKind::InvalidInput));
    }
    let both = OpenOptions::new().read(true).write(true).open(rt, path)?;
    // The path may lead elsewhere by now.
    if !is_that_fifo(&both.metadata()?, &about) {
        return Err(io::Error::from(ErrorKind::InvalidInput));
    }
    Ok(both)
}

/// Whether what was opened is a FIFO, and the one that was seen before.
fn is_that_fifo(opened: &Metadata, seen: &Metadata) -> bool {
    opened.file_type().is_fifo() && opened.dev() == seen.dev() && opened.ino() == seen.ino()
}

/// Opens a FIFO once more, which is open for both directions: so that doesn't wait either. It is
/// found by its number in this program and not by its path, which may lead to another one by now.
fn open_again(rt: &HostRuntime, both: &File, how: &OpenOptions) -> io::Result<File> {
    let number = both.as_raw_fd();
    let path = format!(in rt.alloc(); "/proc/self/fd/{number}")?;
    how.open(rt, path.as_str())
}
