//! Which frames can be freed at a gain.
ghost use Rattle.std.specs.Prelude.{◌≡◌, ◌*◌, ◌<◌, MatchBool, nat_lt, length};
ghost use Rattle.s4_types.specs.declared.limits.TheConstants.{PAYLOAD_BLOCKS};
ghost use Rattle.drive_compaction.specs.Choosing.{frames_emptied, CanBeFreed};
ghost use Rattle.drive_compaction.specs.private.Counting.{Fits};

use crate::counts::Counts;
use crate::frames::frames_emptied;
use drive::Drive;
use s4_types::limits::PAYLOAD_BLOCKS;
use segment_copier::{Counted, count_frame, free_frames, is_sealed_now};
use segment_table::OverFrames;
use segment_word::Naming;

/// Whether all that is counted of a frame fits in the frames that are free, and something is held.
fn fits<J: Naming>(drive: &mut Drive<J>, counted: &Counted) -> bool
    ensures fits { MatchBool result (Fits drive.old counted.now)
        (Fits drive.old counted.now → ⊥) }
    ensures same { drive.new ≡ drive.old }
{
    if counted.objects.is_empty() {
        return false;
    }
    counted.blocks <= PAYLOAD_BLOCKS * free_frames(drive) as usize
}

/// Whether the moves out of a frame, of which this is counted, write fewer blocks than they free.
#[tactic(auto, using(crate::proofs::Taken::one_emptied))]
fn gains<J: Naming>(drive: &mut Drive<J>, counted: &Counted, frame: u16) -> bool
    requires inside { frame < length drive.old.store.table.seat.frames }
    ensures gains { result ≡ nat_lt counted.now.blocks (PAYLOAD_BLOCKS * frames_emptied
        drive.old.store.table counted.now.objects.items frame) }
    ensures same { drive.new ≡ drive.old }
{
    // that frame alone gives more, so that the others needn't be looked at
    if counted.blocks < PAYLOAD_BLOCKS {
        return true;
    }
    counted.blocks < PAYLOAD_BLOCKS * frames_emptied(drive, counted.objects.as_slice(), frame)
}

/// Whether a frame can be freed at a gain: it is sealed and holds something, the moves out of it
/// write fewer blocks than the frames have that they empty, by these counts of objects, and no more
/// than the free frames have. The drive is as before.
pub(crate) fn can_be_freed<J: Naming>(drive: &mut Drive<J>, counts: &Counts, frame: u16) -> bool
    ensures can { MatchBool result (CanBeFreed counts.now.counted.values drive.old frame)
        (CanBeFreed counts.now.counted.values drive.old frame → ⊥) }
    ensures same { drive.new ≡ drive.old }
{
    if !is_sealed_now(drive, frame) {
        return false;
    }
    let Some(counted) = count_frame(drive, counts, frame) else {
        return false;
    };
    if !fits(drive, &counted) {
        return false;
    }
    gains(drive, &counted, frame)
}
