//! Why a command over files failed.
ghost use Rattle.std.specs.Prelude.{◌≡◌, ◌≢◌};
ghost use Rattle.std.specs.declared.io.ErrorKind.TheVariants.{OutOfMemory};
ghost use Rattle.s4_types.specs.declared.refusals.Refusal.TheVariants.{NoMemory};
ghost use Rattle.image_commands.specs.Faults.{SaysUnreadable, SaysUnwritable};

use crate::obstacles::Obstacle;
use s4_types::Refusal;
use std::io;
use thiserror::Error;

/// Why a command over files failed. Each prints its line.
#[derive(Debug, Drop, Error)]
pub enum Fault<'a> {
    /// The drive, or what reads its image, refused it.
    #[error("{0}")]
    Refused(Refusal),
    /// The file of this path can't be read, and why.
    #[error("cannot read {0}: {1}")]
    CannotRead(&'a str, Obstacle),
    /// The file of this path can't be written, and why.
    #[error("cannot write {0}: {1}")]
    CannotWrite(&'a str, Obstacle),
    /// The file of this path has bytes, and a new drive would wipe them.
    #[error("cannot write {0}: {cause}", cause = Obstacle::HasBytes)]
    HasBytes(&'a str),
    /// The image of this path can't be replaced, and why; the new one is in a file of its own.
    #[error("cannot write {0}: {1}; the image is in {2}")]
    KeptIn(&'a str, Obstacle, String),
    /// Standard output can't be written.
    #[error("WriteFailed")]
    WriteFailed,
}

/// The fault of a file that can't be read: NoMemory where a growth was refused.
pub fn reading<'a>(kind: io::ErrorKind, path: &'a str) -> Fault<'a>
    ensures memory { kind ≡ OutOfMemory → result ≡ Fault.Refused NoMemory }
    ensures says { SaysUnreadable path.now result }
{
    match kind {
        io::ErrorKind::OutOfMemory => Fault::Refused(Refusal::NoMemory),
        _ => Fault::CannotRead(path, Obstacle::of_reading(kind)),
    }
}

/// The fault of a file that can't be written: NoMemory where a growth was refused.
pub fn writing<'a>(obstacle: Obstacle, path: &'a str) -> Fault<'a>
    ensures memory { obstacle ≡ Obstacle.NoMemory → result ≡ Fault.Refused NoMemory }
    ensures other { obstacle ≢ Obstacle.NoMemory → result ≡ Fault.CannotWrite path.entry obstacle }
    ensures says { SaysUnwritable path.now result }
{
    match obstacle {
        Obstacle::NoMemory => Fault::Refused(Refusal::NoMemory),
        _ => Fault::CannotWrite(path, obstacle),
    }
}
