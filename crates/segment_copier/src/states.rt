//! What frames are for, as their words say.
ghost use Rattle.std.specs.Prelude.{◌≡◌, ◌<◌, length};
ghost use Rattle.segment_word.specs.Frames.{code_of, is_free, is_sealed};
ghost use Rattle.segment_word.specs.Layout.{frame_at};

use drive::Drive;
use segment_table::OverFrames;
use segment_word::Naming;

/// How many states a frame's word encodes in its low bits.
const STATES: u64 = 4;

/// The state of a free frame.
const FREE: u64 = 0;

/// The state of a sealed frame.
const SEALED: u64 = 2;

/// The state of a frame, whatever its generation.
fn state_now<J: Naming>(drive: &mut Drive<J>, frame: u16) -> u64
    requires { frame < length drive.old.store.table.seat.frames }
    ensures state { result ≡ code_of (frame_at drive.old.store.table.seat.frames frame).phase }
    ensures same { drive.new ≡ drive.old }
{
    drive.saved_word(frame) % STATES
}

/// Whether a frame is free.
pub(crate) fn is_free_now<J: Naming>(drive: &mut Drive<J>, frame: u16) -> bool
    requires { frame < length drive.old.store.table.seat.frames }
    ensures free { result ≡ is_free (frame_at drive.old.store.table.seat.frames frame).phase }
    ensures same { drive.new ≡ drive.old }
{
    state_now(drive, frame) == FREE
}

/// Whether a frame is sealed; one that isn't there is not.
pub fn is_sealed_now<J: Naming>(drive: &mut Drive<J>, frame: u16) -> bool
    ensures sealed { result ≡ is_sealed (frame_at drive.old.store.table.seat.frames frame).phase }
    ensures same { drive.new ≡ drive.old }
{
    if frame >= drive.frame_count() {
        return false;
    }
    state_now(drive, frame) == SEALED
}
