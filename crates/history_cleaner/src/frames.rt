//! Emptying the frames of a drive that hold nothing more.
ghost use Rattle.std.specs.Prelude.{◌≡◌, ◌≤◌, IfOk, IfErr, OnOk, OnErr, length, count_by, nat_lt};
ghost use Rattle.std.specs.List.{range_with_len};
ghost use Rattle.s4_types.specs.declared.limits.TheConstants.{MOST_FRAMES};
ghost use Rattle.s4_types.specs.declared.refusals.Refusal.TheVariants.{InUse};
ghost use Rattle.segment_word.specs.Layout.{frame_at};
ghost use Rattle.drive.specs.Fields.{store_of};
ghost use Rattle.version_store.specs.Upkeep.{KeepsObjects};
ghost use Rattle.history_cleaner.specs.Emptying.{AllVacated, frames_risen, HasFoundReader};
ghost use Rattle.history_cleaner.specs.Emptying.{MarkedBelow, EndsAtReader, StopsAtReader};
ghost use Rattle.history_cleaner.specs.private.Emptying.{ReleasedBelow, HasVacated, generations_in};
ghost use Rattle.history_cleaner.specs.private.Emptying.{is_later};

use arrayvec::ArrayVec;
use drive::Drive;
use s4_types::Refusal;
use s4_types::limits::MOST_FRAMES;
use segment_table::OverFrames;
use segment_word::Naming;

/// The generations of frames, the first one's first.
pub(crate) type Generations = ArrayVec<u32, MOST_FRAMES>;

/// Marks each of this many frames that is sealed and holds nothing.
pub(crate) fn mark_all<J: Naming>(drive: &mut Drive<J>, count: u16)
    ensures marked { MarkedBelow count drive.old.store.table drive.new.store.table }
    ensures same { store_of drive.new ≡ store_of drive.old }
    ensures ledger { drive.new.ledger ≡ drive.old.ledger }
{
    for frame in 0..count {
        let _ = drive.mark(frame);
    }
}

/// Releases each of this many frames that is being emptied, the highest first. At the first that
/// has a reader it stops.
fn release_all<J: Naming>(drive: &mut Drive<J>, count: u16) -> Result<(), Refusal>
    ensures released { OnOk result
        (ReleasedBelow count drive.old.store.table drive.new.store.table) }
    ensures refusal { IfErr result
        (λ e. (e ≡ InUse) × HasFoundReader drive.old.store.table.seat drive.new.store.table.seat) }
    ensures ended { OnErr result
        (EndsAtReader count drive.old.store.table.seat drive.new.store.table.seat) }
    ensures frames { length drive.new.store.table.seat.frames
        ≡ length drive.old.store.table.seat.frames }
    ensures objects { KeepsObjects (store_of drive.old) (store_of drive.new) }
    ensures ledger { drive.new.ledger ≡ drive.old.ledger }
{
    for index in 0..count {
        // Frames are taken from the lowest on, so that the free ones are kept with the lowest last:
        // one that is lower than all of them goes to the end, and none has to make room for it.
        let frame = count - 1 - index;
        if drive.is_draining(frame) {
            drive.release(frame)?;
        }
    }
    Ok(())
}

/// Marks each frame that is sealed and holds nothing, and then releases each that is being emptied,
/// the highest first. At the first that has a reader it stops.
pub(crate) fn vacate<J: Naming>(drive: &mut Drive<J>) -> Result<(), Refusal>
    ensures { HasVacated result drive.old drive.new }
{
    let count = drive.frame_count();
    mark_all(drive, count);
    release_all(drive, count)
}

/// The generation of a frame, and 0 of one that isn't there.
fn generation_of<J: Naming>(drive: &mut Drive<J>, frame: u16) -> u32
    ensures generation { result ≡ (frame_at drive.old.store.table.seat.frames frame).generation }
    ensures same { drive.new ≡ drive.old }
{
    drive.generation(frame).unwrap_or(0)
}

/// The generations of all frames, the first one's first. Takes no memory.
pub(crate) fn note_generations<J: Naming>(drive: &mut Drive<J>) -> Generations
    ensures noted { result.items ≡ generations_in drive.old.store.table.seat }
    ensures same { drive.new ≡ drive.old }
{
    drive.rules();
    let mut noted = ArrayVec::new();
    for frame in 0..drive.frame_count() {
        noted.push(generation_of(drive, frame));
    }
    noted
}

/// Whether a frame has a greater generation than one that was noted.
fn is_later<J: Naming>(drive: &mut Drive<J>, frame: u16, noted: u32) -> bool
    ensures later { result
        ≡ nat_lt noted (frame_at drive.old.store.table.seat.frames frame).generation }
    ensures same { drive.new ≡ drive.old }
{
    noted < generation_of(drive, frame)
}

/// How many frames have a greater generation than was noted.
pub(crate) fn count_risen<J: Naming>(drive: &mut Drive<J>, noted: &[u32]) -> u32
    requires few { length noted.now ≤ MOST_FRAMES }
    ensures risen { result
        ≡ count_by (is_later noted.now drive.old.store.table.seat.frames)
        (range_with_len 0 (length noted.now)) }
    ensures same { drive.new ≡ drive.old }
{
    let mut risen = 0;
    for frame in 0..noted.len() {
        if is_later(drive, frame as u16, noted[frame]) {
            risen += 1;
        }
    }
    risen
}

/// Empties the frames of a drive: first each that is sealed and holds nothing is marked, then each
/// that is being emptied is released, also one that was being emptied before, by descending number.
/// Ok tells how many frames are in their next life; then each frame that holds nothing is free, a
/// retired one among them, or it is the open one. All objects stay as they are, whatever is
/// answered. Takes no memory.
///
/// InUse where a frame that is being emptied has a reader, as its one release found that was tried.
/// It stops there: those with greater numbers were released, and none with a lower number was
/// tried.
pub fn empty_frames<J: Naming>(drive: &mut Drive<J>) -> Result<u32, Refusal>
    ensures vacated { OnOk result (AllVacated drive.new.store.table) }
    ensures released { IfOk result
        (λ n. n ≡ frames_risen drive.old.store.table.seat drive.new.store.table.seat) }
    ensures refusal { IfErr result
        (λ e. (e ≡ InUse) × StopsAtReader drive.old.store.table drive.new.store.table) }
    ensures frames { length drive.new.store.table.seat.frames
        ≡ length drive.old.store.table.seat.frames }
    ensures objects { KeepsObjects (store_of drive.old) (store_of drive.new) }
    ensures ledger { drive.new.ledger ≡ drive.old.ledger }
{
    let before = note_generations(drive);
    vacate(drive)?;
    Ok(count_risen(drive, before.as_slice()))
}
