//! What is collected of a drive at the end of its service.
ghost use Rattle.std.specs.Prelude.{◌≡◌, IfErr, IfOk};
ghost use Rattle.s4_types.specs.declared.refusals.Refusal.TheVariants.{NoMemory};
ghost use Rattle.drive.specs.Fields.{history_of};
ghost use Rattle.verifier.specs.Saved.{with_digest};
ghost use Rattle.kept_drive.specs.Collecting.{HasSeenMore};
ghost use Rattle.kept_drive.specs.Images.{IsClosed, last_clock as the_last_clock};

use drive::{Drive, Session};
use s4_types::{Moment, Refusal};
use segment_word::Naming;
use std::alloc::Global;
use verifier::save_front;

/// The session meets the drive, and the image that it has at its own clock is saved, without its
/// digest; of a drive that has seen nothing, the image that it has after it has seen `start`, where
/// its service began. The drive stays as it is.
///
/// NoMemory alone, where the memory for the image is refused.
pub fn collect_last<J: Naming>(
    alloc: Global,
    drive: &mut Drive<J>,
    session: &mut Session<J>,
    start: Moment,
) -> Result<Vec<u8>, Refusal>
    ensures closed { IfOk result
        (λ front. IsClosed (λ h. h ≡ history_of drive.old) J.base session.new.told.seen start
        (with_digest front.items)) }
    ensures refusal { IfErr result (λ e. e ≡ NoMemory) }
    ensures grows { HasSeenMore session.old session.new }
    ensures same { drive.new ≡ drive.old }
{
    drive.rules();
    drive.meet(session);
    save_front(alloc, drive, last_clock(start, drive.clock()))
}

/// The clock at which a drive is kept at the end of its service that began at `start`: its own; or
/// where the service began, of one that has seen nothing yet.
fn last_clock(start: Moment, clock: Moment) -> Moment
    ensures { result ≡ the_last_clock start clock }
{
    if clock.number() > 0 {
        return clock;
    }
    start
}
