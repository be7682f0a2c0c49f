//! Why a service doesn't begin, or ends without being stopped.
use image_commands::{Fault, LeftFault};
use kept_files::KeepObstacle;
use service_time::StartFault;
use std::alloc::AllocError;
use std::io;
use thiserror::Error;

/// Why a door can't be opened. Each prints what is so, and what can be done.
#[derive(Clone, Copy, Debug, Error)]
pub enum DoorObstacle {
    #[error("it is not there; make it with mkfifo")]
    NotThere,
    #[error("it is no FIFO; make one with mkfifo")]
    NoFifo,
    #[error("its mode or a folder's lets you not read and write it; change that")]
    NotAllowed,
    #[error("the system refuses it")]
    Other,
}

impl DoorObstacle {
    /// What an error of the system says of a door.
    pub fn of(kind: io::ErrorKind) -> DoorObstacle {
        match kind {
            io::ErrorKind::NotFound | io::ErrorKind::NotADirectory => DoorObstacle::NotThere,
            io::ErrorKind::InvalidInput => DoorObstacle::NoFifo,
            io::ErrorKind::PermissionDenied => DoorObstacle::NotAllowed,
            _ => DoorObstacle::Other,
        }
    }
}

/// Why a service doesn't begin, or ends without being stopped. Each prints its line.
#[derive(Debug, Drop, Error)]
pub enum ServeFault<'a> {
    /// The image can't be made, claimed or read, encodes no drive, or may not be there where the
    /// machine fails.
    #[error("{0}")]
    Image(Fault<'a>),
    /// What is in the image's file is of an earlier version, or no image at all.
    #[error("Damaged header; `s4d migrate` makes a new image of one of version 1 or 2")]
    NoHeader,
    /// No image is made at this path, since a service left one beside it.
    #[error("cannot write {0}: {1}; move it to {0}, or remove it")]
    LeftBeside(&'a str, LeftFault),
    /// The image isn't there, and a service left one beside its path.
    #[error("cannot read {0}: it is not there, and {1}; move it to {0}")]
    Gone(&'a str, LeftFault),
    /// A service left an image beside this one, which has changes that this one doesn't have.
    #[error("cannot serve {0}: {1}, and is later; move it to {0}, or remove it")]
    Later(&'a str, LeftFault),
    /// What a file that a service left beside this image has isn't known: it may be a later image.
    #[error("cannot serve {0}: {1}")]
    LeftUnread(&'a str, LeftFault),
    /// No service begins over an image with this clock.
    #[error("cannot serve {0}: {1}")]
    Start(&'a str, StartFault),
    /// Clients are to leave so many blocks of the drive's room, and so many are the most.
    #[error("a reserve of {0} blocks is more than half of an empty drive's room; give --reserve {1} at most")]
    Reserve(u64, u64),
    /// The machine's clocks can't be read.
    #[error("the time cannot be read; set the machine's clock")]
    NoTime,
    /// The door of this folder can't be opened.
    #[error("cannot open {0}/door: {1}")]
    Door(&'a str, DoorObstacle),
    /// Before the first session, the image can't be kept.
    #[error("cannot write {0}: {1}{whole}", whole = .1.whole())]
    Unkept(&'a str, KeepObstacle),
    /// What was accepted last can't be kept.
    #[error("{0} can't be kept: {1}; nothing more was acknowledged{whole}", whole = .1.whole())]
    NotKept(&'a str, KeepObstacle),
    /// The system gives too few threads.
    #[error("the system gives too few threads, or too little memory for them")]
    NoThreads,
    /// A growth of memory was refused.
    #[error("NoMemory")]
    NoMemory,
}

impl From<AllocError> for ServeFault<'_> {
    fn from(_error: AllocError) -> Self {
        ServeFault::NoMemory
    }
}
