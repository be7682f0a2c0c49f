//! How many blocks are left to be appended, the reserve among them.
ghost use Rattle.std.specs.Prelude.{◌≡◌, ◌<◌, ◌≤◌, true, length};
ghost use Rattle.segment_word.specs.Frames.{code_of, is_open};
ghost use Rattle.segment_word.specs.Layout.{frame_at};
ghost use Rattle.segment_table.specs.Room.{can_open};
ghost use Rattle.segment_table.specs.Table.{slots_at};
ghost use Rattle.drive.specs.Fields.{store_of};
ghost use Rattle.drive_compaction.specs.Compacting.{blocks_left};
ghost use Rattle.drive_compaction.specs.private.Left.{left_in};

use block_log::Block;
use codec::decode_summary;
use drive::Drive;
use s4_types::limits::{BLOCK_BYTES, FRAME_BLOCKS, PAYLOAD_BLOCKS};
use segment_table::OverFrames;
use segment_word::Naming;

/// How many states a frame's word encodes in its low bits.
const STATES: u64 = 4;

/// The state of a free frame.
const FREE: u64 = 0;

/// The state of the open frame.
const OPEN: u64 = 1;

/// The state of a frame, whatever its generation.
fn state_now<J: Naming>(drive: &mut Drive<J>, frame: u16) -> u64
    requires { frame < length drive.old.store.table.seat.frames }
    ensures state { result ≡ code_of (frame_at drive.old.store.table.seat.frames frame).phase }
    ensures same { drive.new ≡ drive.old }
{
    drive.saved_word(frame) % STATES
}

/// Whether a frame is the open one.
fn is_open_now<J: Naming>(drive: &mut Drive<J>, frame: u16) -> bool
    requires { frame < length drive.old.store.table.seat.frames }
    ensures open { result ≡ is_open (frame_at drive.old.store.table.seat.frames frame).phase }
    ensures same { drive.new ≡ drive.old }
{
    state_now(drive, frame) == OPEN
}

/// Whether a frame is free, and not retired.
fn can_open_now<J: Naming>(drive: &mut Drive<J>, frame: u16) -> bool
    requires { frame < length drive.old.store.table.seat.frames }
    ensures can { result ≡ can_open (frame_at drive.old.store.table.seat.frames frame) }
    ensures same { drive.new ≡ drive.old }
{
    if state_now(drive, frame) != FREE {
        return false;
    }
    match drive.generation(frame) {
        Some(generation) => generation < u32::MAX,
        None => false,
    }
}

/// How many blocks of the open frame are used, as its summary says.
fn used_in<J: Naming>(drive: &mut Drive<J>, frame: u16) -> usize
    requires inside { frame < length drive.old.store.table.seat.frames }
    requires open { is_open (frame_at drive.old.store.table.seat.frames frame).phase ≡ true }
    ensures used { result ≡ length (slots_at drive.old.store.table.slots frame) }
    ensures same { drive.new ≡ drive.old }
{
    let mut blocks = [[0; BLOCK_BYTES]; FRAME_BLOCKS];
    drive.save_blocks(frame, &mut blocks);
    let (_, payload) = blocks.split_at(1);
    let Ok(payload) = <&[Block; PAYLOAD_BLOCKS]>::try_from(payload) else {
        unreachable!()
    };
    let Some(summary) = decode_summary(&blocks[0], payload) else {
        unreachable!()
    };
    summary.roles().len()
}

/// How many blocks of a frame are left.
fn left_in<J: Naming>(drive: &mut Drive<J>, frame: u16) -> usize
    requires { frame < length drive.old.store.table.seat.frames }
    ensures left { result ≡ left_in drive.old.store.table frame }
    ensures few { result ≤ 15 }
    ensures same { drive.new ≡ drive.old }
{
    if is_open_now(drive, frame) {
        return PAYLOAD_BLOCKS.saturating_sub(used_in(drive, frame));
    }
    if can_open_now(drive, frame) {
        return PAYLOAD_BLOCKS;
    }
    0
}

/// How many blocks are left to be appended in all frames, those of the reserve among them. The drive
/// is as before.
pub fn blocks_left<J: Naming>(drive: &mut Drive<J>) -> usize
    ensures left { result ≡ blocks_left (store_of drive.old) }
    ensures same { drive.new ≡ drive.old }
{
    let mut left = 0;
    for frame in 0..drive.frame_count() {
        left += left_in(drive, frame);
    }
    left
}
