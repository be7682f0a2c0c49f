//! What a flush gives to the keeper.
ghost use Rattle.std.specs.Prelude.{◌≡◌, ◌≤◌, IfErr, IfOk, length};
ghost use Rattle.s4_types.specs.declared.refusals.Refusal.TheVariants.{NoMemory};
ghost use Rattle.kept_drive.specs.Collecting.{HasSeenMore, WasHad};
ghost use Rattle.kept_drive.specs.Images.{IsClosed, IsFlushed};

use crate::collecting::{Collected, DriveLock};
use drive::Session;
use image_parts::push_digest;
use s4_types::{Moment, Refusal};
use segment_word::Naming;
use std::alloc::Global;

/// What is to be kept.
#[derive(Drop)]
pub(crate) struct Prepared {
    /// How many changes were accepted.
    pub number: u64,
    /// The image's clock.
    pub reach: u64,
    pub image: Vec<u8>,
}

/// Collects a drive, and makes the image that it has after it has seen the reach: its digest is
/// taken without the drive's lock. `last` is the reach of the image before. NoMemory alone, where
/// memory is refused.
pub(crate) fn prepare<J: Naming, L: DriveLock<J>>(
    alloc: Global,
    lock: &L,
    session: &mut Session<J>,
    last: u64,
) -> Result<Prepared, Refusal>
    ensures flushed { IfOk result
        (λ p. IsFlushed (WasHad J.frames J.base) J.base session.new.told.seen
        last p.reach p.image.items) }
    ensures number { IfOk result (λ p. p.number ≡ length session.new.told.seen) }
    ensures later { IfOk result (λ p. last ≤ p.reach) }
    ensures refusal { IfErr result (λ e. e ≡ NoMemory) }
    ensures grows { HasSeenMore session.old session.new }
{
    let collected = lock.collect(alloc, session, last)?;
    let Collected {
        number,
        reach,
        front,
    } = collected;
    let mut image = front;
    push_digest(&mut image)?;
    Ok(Prepared {
        number,
        reach,
        image,
    })
}

/// Collects a drive at the end of its service that began at `start`, and answers its image at its
/// own clock; of a drive that has seen nothing, the image that it has after it has seen the start.
/// NoMemory alone, where memory is refused.
pub(crate) fn prepare_last<J: Naming, L: DriveLock<J>>(
    alloc: Global,
    lock: &L,
    session: &mut Session<J>,
    start: Moment,
) -> Result<Vec<u8>, Refusal>
    ensures closed { IfOk result
        (λ image. IsClosed (WasHad J.frames J.base) J.base session.new.told.seen
        start image.items) }
    ensures refusal { IfErr result (λ e. e ≡ NoMemory) }
    ensures grows { HasSeenMore session.old session.new }
{
    let mut last = lock.collect_last(alloc, session, start)?;
    push_digest(&mut last)?;
    Ok(last)
}
