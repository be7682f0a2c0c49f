//! Why a file can't be read or written.
ghost use Rattle.std.specs.Prelude.{◌≡◌, ◌≢◌, ◌↔◌, IsTrue};
ghost use Rattle.image_commands.specs.Crashes.{IsShort};
ghost use Rattle.std.specs.declared.io.ErrorKind.TheVariants.{OutOfMemory};
ghost use Rattle.host_calls.specs.Events.{Short, refusal_of, says_short};

use std::alloc::AllocError;
use std::error::Error;
use std::fmt::{self, Display, Formatter};
use std::io;

/// Why a file can't be read or made, or an image not be put in its place. Each prints what is so,
/// and what can be done.
#[derive(Clone, Copy, Debug, PartialEq, Eq)]
pub enum Obstacle {
    NoMemory,
    /// Another program has the image, or has just put another one in its place.
    Served,
    NoFile,
    Folder,
    /// Of what is to be read.
    NotThere,
    /// Of what is to be read.
    Unreadable,
    HasBytes,
    NoFolder,
    NotAllowed,
    ReadOnly,
    NotKept,
    NoName,
    /// With the code by which the system said so, where it gave one.
    NoRoom(Option<i32>),
    Mounted,
    Moved,
    NotLasting,
    /// Of a session's file: it is the image, is read or written by another session, or has the name
    /// of a file beside the image.
    Shared,
    InUse,
    /// With the code by which the system said what, where it gave one.
    Other(Option<i32>),
}

impl Obstacle {
    // What is so, and what can be done.
    fn text(self) -> &'static str {
        match self {
            Obstacle::NoMemory => "memory is short; try again with more",
            Obstacle::Served => "a program serves it; end that one",
            Obstacle::NoFile => {
                "it is no file, or a link that leads nowhere; give the path of a file"
            }
            Obstacle::Folder => "it is a folder; give the path of a file",
            Obstacle::NotThere => "it is not there; give the path of a file that is",
            Obstacle::Unreadable => {
                "its mode or a folder's lets nobody read it, or not you; change that"
            }
            Obstacle::HasBytes => {
                "it has bytes, and a new drive would wipe them; name another file, or remove this one"
            }
            Obstacle::NoFolder => "its folder is not there; make it, or name one that is",
            Obstacle::NotAllowed => {
                "its mode or its folder's lets nobody write, or not you; change that"
            }
            Obstacle::ReadOnly => {
                "its file system is read-only; mount it for writing, or name a file on another one"
            }
            Obstacle::NotKept => "its mode and owner cannot be kept; be the owner",
            Obstacle::NoName => {
                "s4d.new and s4d.new.1 to s4d.new.99 are taken in its folder; see what these files are"
            }
            Obstacle::NoRoom(_) => "there is no room for it; make room on its disk",
            Obstacle::Mounted => "it is mounted as a single file; mount its folder in place of it",
            Obstacle::Moved => "its path leads to another file than before, or to none",
            Obstacle::NotLasting => {
                "its folder cannot be written to the disk; the new image is there, unless the machine fails"
            }
            Obstacle::Shared => {
                "it is the image, another session's file, or one beside the image; name another file"
            }
            Obstacle::InUse => "another program has it in use; end that one, or name another file",
            Obstacle::Other(_) => "the system refuses it",
        }
    }

    /// What an error of the system says of a file that is to be written.
    pub fn of(kind: io::ErrorKind) -> Obstacle
        ensures memory { kind ≡ OutOfMemory → result ≡ Obstacle.NoMemory }
        ensures only { kind ≢ OutOfMemory → result ≢ Obstacle.NoMemory }
        ensures short { IsShort result → says_short kind ≡ Short }
    {
        match kind {
            io::ErrorKind::OutOfMemory => Obstacle::NoMemory,
            io::ErrorKind::NotFound | io::ErrorKind::NotADirectory => Obstacle::NoFolder,
            io::ErrorKind::IsADirectory => Obstacle::Folder,
            io::ErrorKind::PermissionDenied => Obstacle::NotAllowed,
            io::ErrorKind::ReadOnlyFilesystem => Obstacle::ReadOnly,
            io::ErrorKind::ExecutableFileBusy => Obstacle::InUse,
            io::ErrorKind::StorageFull
            | io::ErrorKind::QuotaExceeded
            | io::ErrorKind::FileTooLarge => Obstacle::NoRoom(None),
            io::ErrorKind::WouldBlock => Obstacle::Served,
            // The second is what a rename over a file says that is mounted by itself.
            io::ErrorKind::CrossesDevices | io::ErrorKind::ResourceBusy => Obstacle::Mounted,
            _ => Obstacle::Other(None),
        }
    }

    // The same, with the code of the system.
    fn with_code(self, code: Option<i32>) -> Obstacle
        ensures { IsShort result ↔ IsShort self }
    {
        match self {
            Obstacle::NoRoom(_) => Obstacle::NoRoom(code),
            Obstacle::Other(_) => Obstacle::Other(code),
            other => other,
        }
    }

    /// Whether memory, or room on the disk, is short: then it may go at another time.
    pub fn is_short(self) -> bool
        ensures { IsTrue result ↔ IsShort self }
    {
        match self {
            Obstacle::NoMemory | Obstacle::NoRoom(_) => true,
            _ => false,
        }
    }

    /// What an error of the system says of a file that is to be read.
    pub fn of_reading(kind: io::ErrorKind) -> Obstacle
        ensures memory { kind ≡ OutOfMemory → result ≡ Obstacle.NoMemory }
        ensures only { kind ≢ OutOfMemory → result ≢ Obstacle.NoMemory }
    {
        match kind {
            io::ErrorKind::OutOfMemory => Obstacle::NoMemory,
            io::ErrorKind::NotFound | io::ErrorKind::NotADirectory => Obstacle::NotThere,
            io::ErrorKind::IsADirectory => Obstacle::Folder,
            io::ErrorKind::PermissionDenied => Obstacle::Unreadable,
            _ => Obstacle::Other(None),
        }
    }
}

impl Display for Obstacle {
    fn fmt<W: fmt::Write>(&self, f: &mut Formatter<W>) -> fmt::Result {
        match self {
            Obstacle::NoRoom(Some(code)) => {
                let said = io::Error::from_raw_os_error(*code);
                write!(f, "there is no room for it: {said}; make room on its disk")
            }
            Obstacle::Other(Some(code)) => {
                let said = io::Error::from_raw_os_error(*code);
                write!(f, "the system refuses it: {said}")
            }
            other => f.write_str(other.text()),
        }
    }
}

impl Error for Obstacle {}

impl From<io::Error> for Obstacle {
    // Memory or room is short only where the system says so.
    ghost from_gives = { λ error obstacle. IsShort obstacle → refusal_of error ≡ Short };

    fn from(error: io::Error) -> Obstacle {
        Obstacle::of(error.kind()).with_code(error.raw_os_error())
    }
}

impl From<AllocError> for Obstacle {
    fn from(_error: AllocError) -> Obstacle {
        Obstacle::NoMemory
    }
}
