//! Why no copy was made.
ghost use Rattle.std.specs.Prelude.{◌≡◌};
ghost use Rattle.s4_types.specs.declared.refusals.Refusal.TheVariants.{NoMemory, NoRoom};
ghost use Rattle.s4_copy.specs.Failures.{IsOfImage, IsRefused};

use image_commands::Fault;
use s4_images::{Failure, as_number};
use s4_types::{Moment, ObjectId, Refusal};
use std::alloc::AllocError;

/// What can be done where the copy needs more frames than it may have.
const MORE_FRAMES: &str =
    "it needs more frames than it may have; give --frames up to 1024, or leave objects out";

/// Why no copy was made.
#[derive(Debug, Drop)]
pub enum CopyFailure<'a> {
    /// The image can't be read, its bytes are damaged, or standard output can't be written; or
    /// memory was short. Busy where a count was full that those share which have a part of a drive:
    /// only where objects are left out, whose versions are counted.
    OfImage(Fault<'a>),
    /// This object is to be left out, the first of those that are named, and has no row in the
    /// image.
    NoObject(ObjectId),
    /// A time is asked for, and the image's moments are numbers: its floor and its clock.
    NoTimes { first: Moment, last: Moment },
    /// The copy would have more frames than it may have.
    NoRoom,
    /// The copy's file can't be made.
    OfCopy(Fault<'a>),
}

impl CopyFailure<'_> {
    /// The failure that the program prints.
    pub fn printed(self) -> Failure {
        match self {
            CopyFailure::OfImage(fault) | CopyFailure::OfCopy(fault) => Failure::from(fault),
            CopyFailure::NoObject(object) => Failure::NoObject {
                object: object.number(),
            },
            CopyFailure::NoTimes { first, last } => Failure::NoTimes {
                first: as_number(first),
                last: as_number(last),
            },
            CopyFailure::NoRoom => Failure::Refused(Refusal::NoRoom, MORE_FRAMES),
        }
    }
}

/// The failure where a copy that is wanted is refused: for room, which more frames would give, or
/// for what is said of the image.
pub(crate) fn failure_of<'a>(refusal: Refusal) -> CopyFailure<'a>
    ensures room { refusal ≡ NoRoom → result ≡ CopyFailure.NoRoom }
    ensures other { (refusal ≡ NoRoom → ⊥) → IsRefused refusal result }
{
    match refusal {
        Refusal::NoRoom => CopyFailure::NoRoom,
        refusal => CopyFailure::OfImage(Fault::Refused(refusal)),
    }
}

impl<'a> From<Fault<'a>> for CopyFailure<'a> {
    ghost from_gives = { IsOfImage };

    fn from(fault: Fault<'a>) -> CopyFailure<'a> {
        CopyFailure::OfImage(fault)
    }
}

impl From<Refusal> for CopyFailure<'_> {
    ghost from_gives = { IsRefused };

    fn from(refusal: Refusal) -> Self {
        CopyFailure::OfImage(Fault::Refused(refusal))
    }
}

impl From<AllocError> for CopyFailure<'_> {
    ghost from_gives = { λ _. IsRefused NoMemory };

    fn from(_error: AllocError) -> Self {
        CopyFailure::OfImage(Fault::Refused(Refusal::NoMemory))
    }
}
