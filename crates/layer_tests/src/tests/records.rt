//! Records with one byte changed: how many of them are records again. That was counted from the
//! tables of the format alone: of a pointer the frame may be any other, the block one of fourteen,
//! and so on.
ghost use Rattle.std.specs.Prelude.{◌≤◌, length};

use codec::{decode_first_block, decode_journal};
use s4_types::limits::CHECKPOINT_POINTERS;

/// The journal block of an object that was made at moment 10 and written at 11: its head and two
/// entries.
const JOURNAL: [u8; 110] = [
    1, 2, 0, 0x56, 0, 0, 0, 0, 0, 0, 0, 0, 0, 0, 0, 1, // two entries, of 86 bytes, of object 1
    0, 0, 0, 0, 0, 0, 0, 0, // no block before it
    0, 0, 0, 0, 0, 0, 0, 10, 2, 0, 0, 0, 0, 0, 0, 0, 0, 0, 0, 0, 0, 0, 0, 0, 0, 0, 0, 0, 0, 0, 0,
    0, 0, 10, // the making
    0, 0, 0, 0, 0, 0, 0, 11, 3, 1, 0, 0, 0, 0, 0, 0, 0, 3, 0, 0, 0, 0, 0, 0, 0, 10, 0, 0, 0, 0, 0,
    0, 0, 11, 0, 0, 0, 0, 0, 0, 0, 0, 0, 0, 0, 0, 2, 0, 0, 0, 0, 1, // the write
];

/// The checkpoint of that object at moment 12, with an attribute `ab`.
const CHECKPOINT: [u8; 112] = [
    2, 1, 2, 0, 0, 0, 0, 3, // alive, an attribute of two bytes, a size of three
    0, 0, 0, 0, 0, 0, 0, 1, // object 1
    0, 0, 0, 0, 0, 0, 0, 12, // the checkpoint's moment
    0, 0, 0, 0, 0, 0, 0, 10, // made
    0, 0, 0, 0, 0, 0, 0, 11, // changed
    97, 98, 0, 0, 0, 0, 0, 0, 0, 0, 0, 0, 0, 0, 0, 0, 0, 0, 0, 0, 0, 0, 0, 0, 0, 0, 0, 0, 0, 0, 0,
    0, 0, 0, 0, 0, 0, 0, 0, 0, 0, 0, 0, 0, 0, 0, 0, 0, 0, 0, 0, 0, 0, 0, 0, 0, 0, 0, 0, 0, 0, 0, 0,
    0, // the attribute
    0, 0, 2, 0, 0, 0, 0, 1, // the first pointer
];

#[derive(Clone, Copy)]
enum Kind {
    Journal,
    Checkpoint,
}

/// The bytes, and zeros after them.
fn block_of(front: &[u8]) -> [u8; 512]
    requires { length front.now ≤ 512 }
{
    let mut block = [0; 512];
    block[..front.len()].copy_from_slice(front);
    block
}

/// Whether the block is the only one of a checkpoint: it has no parts.
fn is_checkpoint(block: &[u8; 512]) -> bool {
    let holes = [None; CHECKPOINT_POINTERS];
    match decode_first_block(block) {
        None => false,
        Some(first) => {
            first.parts.iter().all(|part| part.is_none())
                && first.joined(&holes, &holes, &holes).is_some()
        }
    }
}

fn is_record(kind: Kind, block: &[u8; 512]) -> bool {
    match kind {
        Kind::Journal => decode_journal(block).is_some(),
        Kind::Checkpoint => is_checkpoint(block),
    }
}

/// How many blocks are records that have another value in this place.
fn count_at(kind: Kind, block: &[u8; 512], place: usize) -> u64 {
    if place >= 512 {
        return 0;
    }
    let mut changed = *block;
    let mut count = 0u64;
    for value in 0..=255u8 {
        changed[place] = value;
        if value != block[place] && is_record(kind, &changed) {
            count = count.saturating_add(1);
        }
    }
    count
}

/// The same of all places from a first one to an end.
fn count(kind: Kind, block: &[u8; 512], first: usize, end: usize) -> u64 {
    let mut count = 0u64;
    for place in first..end {
        count = count.saturating_add(count_at(kind, block, place));
    }
    count
}

#[test]
fn each_byte_of_a_journal_block(rt: HostRuntime) {
    let block = block_of(&JOURNAL);
    assert!(rt; count(Kind::Journal, &block, 0, 110) == 7347);
    assert!(rt; count(Kind::Journal, &block, 110, 512) == 0);
}

#[test]
fn each_byte_of_a_checkpoint(rt: HostRuntime) {
    let block = block_of(&CHECKPOINT);
    assert!(rt; count(Kind::Checkpoint, &block, 0, 112) == 10_783);
    assert!(rt; count(Kind::Checkpoint, &block, 112, 512) == 0);
}
