//! The objects of one frame leave it.
ghost use Rattle.std.specs.Prelude.{◌≤◌, IfOk, IfErr};
ghost use Rattle.segment_copier.specs.Choosing.{IsLife};
ghost use Rattle.drive_compaction.specs.Emptying.{KeepsAll, LeavesPlace, Stays, Empties};

use drive::{Drive, Session};
use s4_types::limits::PAYLOAD_BLOCKS;
use s4_types::{Ptr, Refusal};
use segment_copier::move_now;
use segment_table::OverFrames;
use segment_word::Naming;
use std::alloc::Global;

/// What the emptying of a frame came to.
#[derive(Clone, Copy)]
pub(crate) struct Emptied {
    /// How many moves were made.
    pub(crate) moves: u32,
    /// Why it stopped before its end, if it did.
    pub(crate) stopped: Option<Refusal>,
}

/// The object of the block at a place leaves the frame with all that it holds there, if one is held
/// at the place. Ok tells how many moves were made, 1 or none. After a refusal nothing has changed.
fn leave<J: Naming>(
    alloc: Global,
    drive: &mut Drive<J>,
    session: &mut Session<J>,
    place: Ptr,
) -> Result<u32, Refusal>
    ensures left { IfOk result (λ moves. LeavesPlace drive.old place moves drive.new) }
    ensures few { IfOk result (λ moves. moves ≤ 1) }
    ensures refusal { IfErr result (λ e. Stays drive.old place e drive.new) }
    ensures keeps { KeepsAll drive.old drive.new }
{
    let Some(role) = drive.role(place) else {
        return Ok(0);
    };
    drive.rules();
    move_now(alloc, drive, session, place.frame(), role.object)?;
    Ok(1)
}

/// The objects that hold blocks in a frame leave it, one after the other, in the order of their
/// first blocks there. At the first refusal it stops.
pub(crate) fn empty_frame<J: Naming>(
    alloc: Global,
    drive: &mut Drive<J>,
    session: &mut Session<J>,
    frame: u16,
    generation: u32,
) -> Emptied
    requires { IsLife generation }
    ensures empties { Empties drive.old frame generation result.moves result.stopped drive.new }
    ensures few { result.moves ≤ 15 }
    ensures keeps { KeepsAll drive.old drive.new }
{
    let mut moves = 0;
    for index in 0..PAYLOAD_BLOCKS {
        let Some(place) = Ptr::new(frame, index as u8 + 1, generation) else {
            unreachable!()
        };
        match leave(alloc, drive, session, place) {
            Ok(more) => moves += more,
            Err(refusal) => {
                return Emptied {
                    moves,
                    stopped: Some(refusal),
                };
            }
        }
    }
    Emptied {
        moves,
        stopped: None,
    }
}
