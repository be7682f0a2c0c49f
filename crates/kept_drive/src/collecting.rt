//! What is collected of a drive while its lock is held.
ghost use Rattle.std.specs.Prelude.{◌≡◌, ◌-◌, ◌^◌, IfErr, IfOk, min};
ghost use Rattle.s4_types.specs.declared.refusals.Refusal.TheVariants.{NoMemory};
ghost use Rattle.segment_word.specs.AcceptViews.{caught_up, count_of};
ghost use Rattle.segment_word.specs.AcceptRule.{FitsLedger};
ghost use Rattle.drive.specs.Fields.{history_of};
ghost use Rattle.verifier.specs.Saved.{with_digest};
ghost use Rattle.kept_drive.specs.Collecting.{HasSeenMore, IsCollected, IsCollectedOf, WasHad};
ghost use Rattle.kept_drive.specs.Images.{IsClosed};

use crate::reach::reach_after;
use drive::{Drive, Session};
use s4_types::{Moment, Refusal};
use segment_word::Naming;
use std::alloc::Global;
use verifier::save_front;

/// What was collected of a drive.
#[derive(Drop)]
pub struct Collected {
    /// How many changes were accepted.
    pub number: u64,
    /// The clock of what is kept of it.
    pub reach: u64,
    /// The image that the drive has after it has seen the reach, without its digest.
    pub front: Vec<u8>,
}

/// The drive that `J` names, under the lock at which sessions share it.
pub trait DriveLock<J: Naming> {
    /// Has the session meet the drive, and collects what is to be kept of it, all of it under the
    /// lock. `last` is the reach of what was kept before.
    fn collect(
        &self,
        alloc: Global,
        session: &mut Session<J>,
        last: u64,
    ) -> Result<Collected, Refusal>
        ensures collected { IfOk result
            (IsCollected (WasHad J.frames J.base) J.base session.new.told.seen last) }
        ensures refusal { IfErr result (λ e. e ≡ NoMemory) }
        ensures grows { HasSeenMore session.old session.new };

    /// The same at the end of a service that began at `start`: the front of what is kept last.
    fn collect_last(
        &self,
        alloc: Global,
        session: &mut Session<J>,
        start: Moment,
    ) -> Result<Vec<u8>, Refusal>
        ensures closed { IfOk result
            (λ front. IsClosed (WasHad J.frames J.base) J.base session.new.told.seen start
            (with_digest front.items)) }
        ensures refusal { IfErr result (λ e. e ≡ NoMemory) }
        ensures grows { HasSeenMore session.old session.new };
}

/// The session meets the drive, and the image that it has after it has seen the reach is saved, so
/// that it has all that the session has seen and nothing else. The drive itself doesn't see the
/// reach, and stays as it is. `number` is how many changes were accepted, by a count that stops at
/// its last number; `last` is the reach of what was kept before.
///
/// NoMemory alone, where the memory for the image is refused.
pub fn collect<J: Naming>(
    alloc: Global,
    drive: &mut Drive<J>,
    session: &mut Session<J>,
    number: u64,
    last: u64,
) -> Result<Collected, Refusal>
    requires { number ≡ min (count_of drive.old.ledger) (2 ^ 64 - 1) }
    ensures collected { IfOk result
        (IsCollected (λ h. h ≡ history_of drive.old) J.base session.new.told.seen last) }
    ensures of_drive { IfOk result (IsCollectedOf (history_of drive.old) last) }
    ensures refusal { IfErr result (λ e. e ≡ NoMemory) }
    ensures session { session.new
        ≡ record session.old { told = caught_up drive.old.ledger session.old.told } }
    ensures grows { HasSeenMore session.old session.new }
    ensures before { FitsLedger drive.old.ledger session.old.told }
    ensures same { drive.new ≡ drive.old }
{
    drive.rules();
    drive.meet(session);
    let reach = reach_after(last, drive.clock().number(), drive.window());
    let front = save_front(alloc, drive, Moment::new(reach))?;
    Ok(Collected {
        number,
        reach,
        front,
    })
}
