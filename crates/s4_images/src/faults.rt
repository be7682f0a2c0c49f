//! Why a command failed.
ghost use Rattle.std.specs.Prelude.{◌≡◌};
ghost use Rattle.moment_words.specs.declared.printing.MomentStyle.TheVariants.{Number};
ghost use Rattle.s4_images.specs.Failures.{HasNoMoments, IsInStyle, in_style, is_of_folder};
ghost use Rattle.s4_images.specs.Failures.{restyled, shown_by};

use history_export::{ExportError, ExportedFile};
use image_commands::{Fault, Obstacle};
use moment_words::{MomentStyle, ShownMoment};
use s4_types::{Cause, Moment, Refusal};
use std::alloc::AllocError;
use thiserror::Error;

/// Why a command over an image failed. Each prints what is wrong and what can be done, on one line.
/// Its moments are numbers until `in_style` makes them what the command prints.
#[derive(Debug, Drop, Error)]
pub enum Failure {
    /// The file can't be read, and why.
    #[error("cannot be read: {0}")]
    CannotRead(Obstacle),
    /// The file has no image, or a damaged one; or memory or a count was full.
    #[error("{0}; {1}")]
    Refused(Refusal, &'static str),
    /// A time or an age is asked for, and the moments are numbers.
    #[error("its moments are numbers, and no time or age is one; give one from {first} to {last}")]
    NoTimes {
        first: ShownMoment,
        last: ShownMoment,
    },
    /// The moment is above the clock.
    #[error("moment {asked} is to come; the clock is at {clock}, the last moment that can be read")]
    Future {
        asked: ShownMoment,
        clock: ShownMoment,
    },
    /// The moment is below the floor, or hidden.
    #[error("moment {asked} is hidden or expired; the earliest that can be read is {earliest}")]
    Unreadable {
        asked: ShownMoment,
        earliest: ShownMoment,
    },
    /// No object has the number.
    #[error("there is no object {object}; `s4 list --deleted` prints those that are")]
    NoObject {
        object: u64,
    },
    /// The object isn't there at the moment.
    #[error("object {object} is not there at moment {moment}; `s4 log --object {object}` prints when it was")]
    NotThere {
        object: u64,
        moment: ShownMoment,
    },
    /// No object has the name at the moment.
    #[error("no object has this name at moment {moment}; `s4 list --at {moment}` prints the names")]
    NotNamed {
        moment: ShownMoment,
    },
    /// No object has the name at either of two moments.
    #[error("no object has this name at moment {first} or {second}; `s4 list --at {first}` prints the names")]
    NotNamedInEither {
        first: ShownMoment,
        second: ShownMoment,
    },
    /// No object is asked for, where one has to be.
    #[error("no object is asked for; give its number, or its name by --name")]
    NoneAsked,
    /// Several objects have the name at the moment.
    #[error("objects {first} and {second} have this name at moment {moment}; give one by its number")]
    NamedTwice {
        first: u64,
        second: u64,
        moment: ShownMoment,
    },
    /// Standard output can't be written.
    #[error("cannot write standard output; give it room, or a reader that reads to the end")]
    WriteFailed,
    /// The object's journal has no room for what restores it.
    #[error("object {object} has a full journal; --skip restores the others")]
    JournalFull {
        object: u64,
    },
    /// No further run of the object's moments may be hidden.
    #[error("object {object} has its moments hidden in 64 runs; --skip restores the others")]
    TooManySpans {
        object: u64,
    },
    /// The drive has no room for what restores the object.
    #[error("there is no room to restore object {object}; --skip restores the others")]
    NoRoom {
        object: u64,
    },
    /// What restores these objects has no room, and what can be done.
    #[error("cannot restore {objects}; {advice}")]
    NoRoomFor {
        objects: String,
        advice: &'static str,
    },
    /// No object would be left, and some are there.
    #[error("no object would be left; --to-nothing deletes them all")]
    LeavesNothing,
    /// The machine's time is too far above the clock. With a leap of this number of days it isn't.
    #[error("its last moment is so long ago that too much of its past would age; --leap {days}d accepts that")]
    AgesTooMuch {
        days: u64,
    },
    /// The folder can't be made, or isn't one.
    #[error("the folder cannot be made; name one that is empty, or a new one where you may write")]
    NoFolder,
    /// Anything is in the folder.
    #[error("the folder is not empty; name one that is, or a new one")]
    FolderNotEmpty,
    /// A file in the folder can't be written.
    #[error("{0} cannot be written in the folder; give it room, and name an empty folder")]
    CannotExport(ExportedFile),
    /// The image can't be replaced, and why.
    #[error("cannot be written: {0}")]
    CannotWrite(Obstacle),
    /// The image can't be replaced, and why; the new one is in a file of its own.
    #[error("cannot be replaced: {0}; the new image is in {1}")]
    KeptIn(Obstacle, String),
}

impl From<Fault<'_>> for Failure {
    ghost from_gives = { λ _ failure. HasNoMoments failure };

    fn from(fault: Fault<'_>) -> Failure {
        match fault {
            Fault::CannotRead(_, obstacle) => Failure::CannotRead(obstacle),
            Fault::Refused(refusal) => Failure::from(refusal),
            Fault::WriteFailed => Failure::WriteFailed,
            Fault::CannotWrite(_, obstacle) => Failure::CannotWrite(obstacle),
            Fault::HasBytes(_) => Failure::CannotWrite(Obstacle::HasBytes),
            Fault::KeptIn(_, obstacle, kept) => Failure::KeptIn(obstacle, kept),
        }
    }
}

impl From<ExportError> for Failure {
    fn from(error: ExportError) -> Failure {
        match error {
            ExportError::NotEmpty => Failure::FolderNotEmpty,
            ExportError::CannotRead => Failure::NoFolder,
            ExportError::CannotWrite(file) => Failure::CannotExport(file),
            ExportError::Refused(refusal) => Failure::from(refusal),
        }
    }
}

impl From<Refusal> for Failure {
    ghost from_gives = { λ _ failure. HasNoMoments failure };

    fn from(refusal: Refusal) -> Failure {
        Failure::Refused(refusal, advice(refusal))
    }
}

impl From<AllocError> for Failure {
    ghost from_gives = { λ _ failure. HasNoMoments failure };

    fn from(_error: AllocError) -> Failure {
        Failure::from(Refusal::NoMemory)
    }
}

// What can be done where the drive refuses something.
fn advice(refusal: Refusal) -> &'static str {
    match refusal {
        Refusal::Damaged(Cause::Header) => {
            "`s4d migrate` makes a new image of one of version 1 or 2; else read an older copy of the image"
        }
        Refusal::Damaged(_) => "read an older copy of the image",
        Refusal::NoMemory => "try again with more memory",
        Refusal::ClockEnd =>
            "its moments or object numbers are used up: it can be read, and not changed",
        Refusal::NoSpace | Refusal::NoRoom => "it is full; `s4 compact` may make room",
        Refusal::ChainFull => "the journal of an object is full; hide some of its moments",
        Refusal::TooManySpans => "no further run of moments can be hidden",
        Refusal::NoObject => "`s4 list --deleted` prints the objects that are",
        Refusal::Expired | Refusal::Future | Refusal::Flushed => {
            "give a moment that can be read; `s4 info` prints the first and the last"
        }
        Refusal::Busy => "all its sessions are in use; try again",
        _ => "the drive does not take it",
    }
}

/// A moment that is printed as a number.
pub fn as_number(moment: Moment) -> ShownMoment
    ensures { result ≡ shown_by Number moment }
{
    ShownMoment {
        moment: moment.number(),
        style: MomentStyle::Number,
    }
}

fn restyled(shown: ShownMoment, style: MomentStyle) -> ShownMoment
    ensures { result ≡ restyled style shown }
{
    ShownMoment {
        moment: shown.moment,
        style,
    }
}

impl Failure {
    /// The same failure, whose moments are printed in a style: as numbers, or as dates.
    pub fn in_style(self, style: MomentStyle) -> Failure
        ensures same { result ≡ in_style style self }
        ensures style { IsInStyle style result }
    {
        match self {
            Failure::Future { asked, clock } => Failure::Future {
                asked: restyled(asked, style),
                clock: restyled(clock, style),
            },
            Failure::NoTimes { first, last } => Failure::NoTimes {
                first: restyled(first, style),
                last: restyled(last, style),
            },
            Failure::Unreadable { asked, earliest } => Failure::Unreadable {
                asked: restyled(asked, style),
                earliest: restyled(earliest, style),
            },
            Failure::NotThere { object, moment } => Failure::NotThere {
                object,
                moment: restyled(moment, style),
            },
            Failure::NotNamed { moment } => Failure::NotNamed {
                moment: restyled(moment, style),
            },
            Failure::NotNamedInEither { first, second } => Failure::NotNamedInEither {
                first: restyled(first, style),
                second: restyled(second, style),
            },
            Failure::NamedTwice {
                first,
                second,
                moment,
            } => Failure::NamedTwice {
                first,
                second,
                moment: restyled(moment, style),
            },
            other => other,
        }
    }

    /// Whether what failed is the folder that is written into, and not the image.
    pub fn is_of_folder(&self) -> bool
        ensures { result ≡ is_of_folder self.now }
    {
        match self {
            Failure::NoFolder | Failure::FolderNotEmpty | Failure::CannotExport(_) => true,
            _ => false,
        }
    }
}
