//! Why an object wasn't restored.
ghost use Rattle.std.specs.Prelude.{◌≡◌, ◌-◌, ◌+◌, min, None};
ghost use Rattle.s4_model.specs.Refusals.{last_number};
ghost use Rattle.history_restore.specs.Content.{changed_in};
ghost use Rattle.history_restore.specs.Restoring.{between, flush_for};

use crate::aims::Aim;
use s4_types::{Moment, ObjectId, Refusal, Span, Version};

/// Why an object wasn't restored.
#[derive(Clone, Copy)]
pub struct Failure {
    /// The object, and the number under which it was to be restored.
    pub aim: Aim,
    /// Future, Expired or Flushed where the moment can't be read, Expired also where the floor has
    /// passed it while other objects were restored. ChainFull where the journal of that number is
    /// full, NoSpace where there is too little room for blocks, ClockEnd where no later moment or
    /// no further number is left. NoMemory where memory was refused, Busy where a read would have
    /// needed a pin.
    pub refusal: Refusal,
    /// Where the journal is full: the moments of that number whose flush may make room in it, if
    /// there are such.
    pub flush: Option<Span>,
}

fn changed_in(version: &Version) -> Moment
    ensures { result ≡ changed_in version.now }
{
    match version {
        Version::Absent => Moment::new(0),
        Version::Live { changed, .. } => *changed,
    }
}

/// The moments between the one asked for and the object's last change, both left out. The version
/// at the former is what is restored, and the last change made the present one, which is there as
/// long as the object is; only what was there between them can be given up.
pub fn between(object: ObjectId, at: Moment, latest: &Version) -> Option<Span>
    ensures { result ≡ between object at latest.now }
{
    let first = at.number().saturating_add(1);
    let last = changed_in(latest).number().saturating_sub(1);
    if first > last {
        return None;
    }
    Some(Span {
        object,
        first: Moment::new(first),
        last: Moment::new(last),
    })
}

/// An object's versions weren't read.
pub(crate) fn unread(aim: &Aim, refusal: Refusal) -> Failure
    ensures { result ≡ record { aim = aim.now; refusal = refusal; flush = None } }
{
    Failure {
        aim: *aim,
        refusal,
        flush: None,
    }
}

/// A request was refused.
pub(crate) fn stopped(aim: &Aim, refusal: Refusal, at: Moment, latest: &Version) -> Failure
    ensures { result ≡ record { aim = aim.now; refusal = refusal; flush = flush_for aim.now.target at latest.now refusal } }
{
    let flush = match refusal {
        Refusal::ChainFull => between(aim.target, at, latest),
        _ => None,
    };
    Failure {
        aim: *aim,
        refusal,
        flush,
    }
}
