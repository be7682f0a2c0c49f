//! What the cleaner gathers within its reserve, where there is too little room for the copier.
ghost use Rattle.std.specs.Prelude.{◌≡◌, true};

use crate::accounts::Running;
use crate::locked::{gather_next, release_frames};
use crate::pace::Pace;
use crate::shared::SharedDrive;
use drive::Session;
use s4_types::limits::{MOST_FRAMES, PAYLOAD_BLOCKS};
use serving::Clock;
use std::alloc::Global;
use std::sync::{Mutex, Wait};

/// Turns of the cleaner after which it gathers: what this many write may fill a frame.
const TURNS_BETWEEN: u64 = PAYLOAD_BLOCKS as u64;

/// Steps of gathering at one time, at most.
const MOST_STEPS: usize = MOST_FRAMES;

/// Gathers where there is too little room for the copier, one object after another, if the cleaner
/// has a seat for it. Frames that hold nothing are released before each step, so that it has their
/// blocks.
pub(crate) fn gather_all<J: Running, C: Clock>(
    rt: &impl Wait,
    alloc: Global,
    drive: &Mutex<SharedDrive<J, C>>,
    pace: &Pace,
    seat: &mut Option<Session<J>>,
)
    requires { J.has_upkeep ≡ true }
{
    let Some(session) = seat else {
        return;
    };
    for _ in 0..MOST_STEPS {
        if !pace.is_tight(rt) {
            return;
        }
        release_frames(rt, drive, pace);
        if !matches!(gather_next(rt, alloc, drive, pace, session), Ok(Some(_))) {
            return;
        }
    }
}

/// The cleaner has taken this many turns of a round: after some of them it gathers.
pub(crate) fn gather_between<J: Running, C: Clock>(
    rt: &impl Wait,
    alloc: Global,
    drive: &Mutex<SharedDrive<J, C>>,
    pace: &Pace,
    seat: &mut Option<Session<J>>,
    turns: u64,
)
    requires { J.has_upkeep ≡ true }
{
    if turns % TURNS_BETWEEN == 0 {
        gather_all(rt, alloc, drive, pace, seat);
    }
}
