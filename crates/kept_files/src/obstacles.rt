//! What is in the way where an image isn't kept.
ghost use Rattle.std.specs.Prelude.{◌≡◌};
ghost use Rattle.kept_files.specs.Causes.{cause_of_sync};

use image_commands::Obstacle;
use std::fmt::{self, Display, Formatter};
use std::io;

/// What is in the way of an image that is to be kept in files. Each prints what is so, and what can
/// be done.
#[derive(Clone, Copy, Debug)]
pub enum KeepCause {
    /// The files refuse it.
    Refused(Obstacle),
    /// A sync has failed. With the code by which the system said why, where it gave one.
    DiskFailed(Option<i32>),
}

impl KeepCause {
    /// What is in the way of a sync.
    pub fn of_sync(obstacle: Obstacle) -> KeepCause
        ensures { result ≡ cause_of_sync obstacle }
    {
        match obstacle {
            Obstacle::Other(code) => KeepCause::DiskFailed(code),
            other => KeepCause::Refused(other),
        }
    }
}

impl Display for KeepCause {
    fn fmt<W: fmt::Write>(&self, f: &mut Formatter<W>) -> fmt::Result {
        match self {
            KeepCause::Refused(obstacle) => write!(f, "{obstacle}"),
            KeepCause::DiskFailed(Some(code)) => {
                let said = io::Error::from_raw_os_error(*code);
                write!(
                    f,
                    "its disk failed to write it: {said}; see the system's log"
                )
            }
            KeepCause::DiskFailed(None) => {
                f.write_str("its disk failed to write it; see the system's log")
            }
        }
    }
}

/// Why an image isn't kept.
#[derive(Debug, Drop)]
pub struct KeepObstacle {
    pub cause: KeepCause,
    /// The path of the file that has all of it, where one has.
    pub whole: Option<String>,
}

/// Which file has all of an image that isn't kept. It prints a part of a line, or nothing.
#[derive(Clone, Copy)]
pub struct WholeIn<'a>(Option<&'a str>);

impl KeepObstacle {
    /// Which file has all of it.
    pub fn whole(&self) -> WholeIn<'_> {
        match &self.whole {
            Some(path) => WholeIn(Some(path.as_str())),
            None => WholeIn(None),
        }
    }
}

impl Display for KeepObstacle {
    fn fmt<W: fmt::Write>(&self, f: &mut Formatter<W>) -> fmt::Result {
        write!(f, "{}", self.cause)
    }
}

impl Display for WholeIn<'_> {
    fn fmt<W: fmt::Write>(&self, f: &mut Formatter<W>) -> fmt::Result {
        match self.0 {
            Some(path) => write!(f, "; the whole new image is in {path}"),
            None => Ok(()),
        }
    }
}
