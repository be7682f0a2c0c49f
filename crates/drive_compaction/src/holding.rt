//! How many data blocks are held.
ghost use Rattle.std.specs.Prelude.{◌≡◌, ◌≤◌};
ghost use Rattle.segment_table.specs.Table.{held_at};
ghost use Rattle.segment_copier.specs.Moves.{is_data};
ghost use Rattle.drive_compaction.specs.Holding.{data_in, data_blocks};

use drive::Drive;
use s4_types::Ptr;
use s4_types::limits::PAYLOAD_BLOCKS;
use segment_copier::is_of_data;
use segment_table::OverFrames;
use segment_word::Naming;

/// Whether a data block is held at a place.
fn is_data_at<J: Naming>(drive: &mut Drive<J>, place: Ptr) -> bool
    ensures data { result ≡ is_data (held_at drive.old.store.table place) }
    ensures same { drive.new ≡ drive.old }
{
    match drive.role(place) {
        Some(role) => is_of_data(&role),
        None => false,
    }
}

/// How many data blocks of a frame are held.
fn data_in<J: Naming>(drive: &mut Drive<J>, frame: u16) -> usize
    ensures data { result ≡ data_in drive.old.store.table frame }
    ensures few { result ≤ 15 }
    ensures same { drive.new ≡ drive.old }
{
    let Some(generation) = drive.generation(frame) else {
        return 0;
    };
    let mut count = 0;
    for index in 0..PAYLOAD_BLOCKS {
        let Some(place) = Ptr::new(frame, index as u8 + 1, generation) else {
            return 0;
        };
        if is_data_at(drive, place) {
            count += 1;
        }
    }
    count
}

/// How many data blocks are held in all frames. After a full pass each of them is one that a
/// version reaches which can be read. The drive is as before.
pub fn data_blocks<J: Naming>(drive: &mut Drive<J>) -> usize
    ensures data { result ≡ data_blocks drive.old.store.table }
    ensures same { drive.new ≡ drive.old }
{
    let mut count = 0;
    for frame in 0..drive.frame_count() {
        count += data_in(drive, frame);
    }
    count
}
