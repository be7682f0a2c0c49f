ghost use Rattle.std.specs.Prelude.{◌≡◌, ◌≢◌, IfSome};
ghost use Rattle.s4_types.specs.RefusalNumber.{number_of, HasWireNumber};
ghost use Rattle.s4_types.specs.declared.refusals.Refusal.{Refusal as Refused};
ghost use Rattle.s4_types.specs.declared.refusals.Refusal.TheVariants.{NoMemory};

use std::alloc::{AllocError, AllocFailed};
use std::error::Error;
use std::fmt::{self, Debug, Display, Formatter};

/// Why bytes are no image: the first part of the format that they break.
#[derive(Clone, Copy, Debug, PartialEq, Eq, thiserror::Error)]
pub enum Cause {
    #[error("header")]
    Header,
    #[error("length")]
    Length,
    #[error("digest")]
    Digest,
    #[error("frame")]
    Frame,
    #[error("span")]
    Span,
    #[error("row")]
    Row,
    #[error("chain")]
    Chain,
    #[error("audit")]
    Audit,
}

/// Why a call or a request was refused. Each prints its name, `Damaged` its cause after it.
#[derive(Clone, Copy, Debug, PartialEq, Eq)]
pub enum Refusal {
    /// The object isn't there, now or at the moment that was asked for.
    NoObject,
    /// A client asked for what administrators alone may do.
    NotAdmin,
    /// The moment is below the floor.
    Expired,
    /// The moment is above the clock.
    Future,
    /// A span hides the moment.
    Flushed,
    /// An object or a read would be larger than the limit, or a read would end above 2^64 - 1.
    TooLarge,
    /// A span that doesn't end at or after its beginning and at or before the clock.
    BadSpan,
    /// The span would make more runs than a list, or all lists, may have.
    TooManySpans,
    /// Too little room for the blocks that the change must append.
    NoSpace,
    /// A growth of memory was really refused.
    NoMemory,
    /// The clock, or the next object's number, is at its end.
    ClockEnd,
    /// The object's chain would hold more bytes of entries than a chain may.
    ChainFull,
    /// An attribute longer than the limit.
    BadAttr,
    /// No seat, or no place in a frame's reader field, was to be had, or each try of a pin found
    /// the word changed.
    Busy,
    /// Bytes that encode no request.
    BadFrame,
    /// Bytes that are no image.
    Damaged(Cause),
    /// A move of an object that has changed since it was planned.
    Stale,
    /// Too little room for what the cleaner or the copier must write.
    NoRoom,
    /// A frame that can't be marked or released now.
    InUse,
}

impl Display for Refusal {
    fn fmt<W: fmt::Write>(&self, f: &mut Formatter<W>) -> fmt::Result {
        match self {
            Refusal::Damaged(cause) => write!(f, "Damaged {cause}"),
            named => Debug::fmt(named, f),
        }
    }
}

impl Error for Refusal {}

impl Refusal {
    /// The refusal's number, from 1 to 19.
    pub fn number(self) -> u8
        ensures { result ≡ number_of self }
    {
        match self {
            Refusal::NoObject => 1,
            Refusal::NotAdmin => 2,
            Refusal::Expired => 3,
            Refusal::Future => 4,
            Refusal::Flushed => 5,
            Refusal::TooLarge => 6,
            Refusal::BadSpan => 7,
            Refusal::TooManySpans => 8,
            Refusal::NoSpace => 9,
            Refusal::NoMemory => 10,
            Refusal::ClockEnd => 11,
            Refusal::ChainFull => 12,
            Refusal::BadAttr => 13,
            Refusal::Busy => 14,
            Refusal::BadFrame => 15,
            Refusal::Damaged(_) => 16,
            Refusal::Stale => 17,
            Refusal::NoRoom => 18,
            Refusal::InUse => 19,
        }
    }

    /// The refusal that the number alone names. None for 16, whose cause no number tells, and for
    /// numbers that no refusal has.
    pub fn from_number(number: u8) -> Option<Self>
        ensures found { IfSome result (λ refusal. HasWireNumber refusal number) }
        ensures only { (refusal : Refused) → HasWireNumber refusal number → result ≡ Some refusal }
    {
        match number {
            1 => Some(Refusal::NoObject),
            2 => Some(Refusal::NotAdmin),
            3 => Some(Refusal::Expired),
            4 => Some(Refusal::Future),
            5 => Some(Refusal::Flushed),
            6 => Some(Refusal::TooLarge),
            7 => Some(Refusal::BadSpan),
            8 => Some(Refusal::TooManySpans),
            9 => Some(Refusal::NoSpace),
            10 => Some(Refusal::NoMemory),
            11 => Some(Refusal::ClockEnd),
            12 => Some(Refusal::ChainFull),
            13 => Some(Refusal::BadAttr),
            14 => Some(Refusal::Busy),
            15 => Some(Refusal::BadFrame),
            17 => Some(Refusal::Stale),
            18 => Some(Refusal::NoRoom),
            19 => Some(Refusal::InUse),
            _ => None,
        }
    }
}

impl From<AllocError> for Refusal {
    ghost from_gives = { λ _ refusal. refusal ≡ NoMemory };

    fn from(_error: AllocError) -> Refusal {
        Refusal::NoMemory
    }
}

impl<T: Drop> From<AllocFailed<T>> for Refusal {
    ghost from_gives = { λ _ refusal. refusal ≡ NoMemory };

    fn from(_error: AllocFailed<T>) -> Refusal {
        Refusal::NoMemory
    }
}
