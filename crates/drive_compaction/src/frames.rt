//! What frames are for, and which of them are emptied where objects leave one.
ghost use Rattle.std.specs.Prelude.{◌≡◌, ◌≤◌};
ghost use Rattle.segment_table.specs.Table.{held_at};
ghost use Rattle.drive_compaction.specs.Choosing.{is_taken, are_all_taken, is_emptied};
ghost use Rattle.drive_compaction.specs.Choosing.{frames_emptied};

use drive::Drive;
use s4_types::Ptr;
use s4_types::limits::PAYLOAD_BLOCKS;
use segment_copier::{is_among, is_of_data, is_sealed_now};
use segment_table::OverFrames;
use segment_word::Naming;

/// Whether moves of these objects take what is held at a place, whichever frame they leave: a
/// journal block or a checkpoint of one of them, or nothing.
fn is_taken<J: Naming>(drive: &mut Drive<J>, objects: &[u64], place: Ptr) -> bool
    ensures taken { result ≡ is_taken objects.now (held_at drive.old.store.table place) }
    ensures same { drive.new ≡ drive.old }
{
    let Some(role) = drive.role(place) else {
        return true;
    };
    if is_of_data(&role) {
        return false;
    }
    is_among(objects, role.object)
}

/// Whether moves of these objects take all that a frame holds, whichever frame they leave. False
/// where the frame isn't there or is used no more.
fn are_all_taken<J: Naming>(drive: &mut Drive<J>, objects: &[u64], frame: u16) -> bool
    ensures taken { result ≡ are_all_taken drive.old.store.table objects.now frame }
    ensures same { drive.new ≡ drive.old }
{
    let Some(generation) = drive.generation(frame) else {
        return false;
    };
    for index in 0..PAYLOAD_BLOCKS {
        let Some(place) = Ptr::new(frame, index as u8 + 1, generation) else {
            return false;
        };
        if !is_taken(drive, objects, place) {
            return false;
        }
    }
    true
}

/// Whether a frame holds nothing any more, and can be freed, once these objects left another frame;
/// or whether it is that one.
fn is_emptied<J: Naming>(drive: &mut Drive<J>, objects: &[u64], left: u16, frame: u16) -> bool
    ensures emptied { result ≡ is_emptied drive.old.store.table objects.now left frame }
    ensures same { drive.new ≡ drive.old }
{
    if frame == left {
        return true;
    }
    if !is_sealed_now(drive, frame) {
        return false;
    }
    are_all_taken(drive, objects, frame)
}

/// How many frames hold nothing once these objects left one: that one, and each sealed frame that
/// held nothing but journals and checkpoints of theirs.
pub(crate) fn frames_emptied<J: Naming>(drive: &mut Drive<J>, objects: &[u64], left: u16) -> usize
    ensures emptied { result ≡ frames_emptied drive.old.store.table objects.now left }
    ensures few { result ≤ 65535 }
    ensures same { drive.new ≡ drive.old }
{
    let mut count = 0;
    for frame in 0..drive.frame_count() {
        if is_emptied(drive, objects, left, frame) {
            count += 1;
        }
    }
    count
}
