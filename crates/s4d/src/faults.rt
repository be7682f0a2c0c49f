//! Why a line of words isn't done.
use image_commands::{Fault, Obstacle};
use s4_types::Refusal;
use serving::ServeEnd;
use thiserror::Error;

/// Why `run` has not left what it is to leave. Each prints its line.
#[derive(Debug, Drop, Error)]
pub enum RunFault<'a> {
    /// No session was served. Each file that was there has its bytes, but for what was left beside
    /// the image and is no image.
    #[error(transparent)]
    Unserved(Fault<'a>),
    /// The sessions were served, and their outputs are written. The image is as it was.
    #[error(transparent)]
    Unsaved(Fault<'a>),
}

/// Why a line of words isn't done. Each but the last prints its line.
#[derive(Debug, Drop, Error)]
pub enum Undone<'a> {
    /// The words give no command.
    #[error("usage")]
    Usage,
    /// Memory was short for the words.
    #[error("NoMemory")]
    NoMemory,
    /// A session of a new drive had none. Nothing was read or written.
    #[error(transparent)]
    NoDrive(Refusal),
    /// A session of a new drive came to this end, and not to that of its input.
    #[error(transparent)]
    OtherEnd(ServeEnd),
    /// A command over an image failed.
    #[error(transparent)]
    Failed(Fault<'a>),
    /// Sessions weren't served, or not saved.
    #[error(transparent)]
    NotRun(RunFault<'a>),
    /// The image of this path is there, and may not be where the machine fails.
    #[error("cannot write {0}: {cause}", cause = Obstacle::NotLasting)]
    Unlasting(&'a str),
    /// Not all sessions came to the end of their inputs, with their replies in their files. Each
    /// that didn't has had its line.
    #[error("sessions failed")]
    Unended,
}
