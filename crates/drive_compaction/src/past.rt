//! What is held for the past alone.
ghost use Rattle.std.specs.Prelude.{◌≡◌, ◌≤◌, is_some, count_by, length};
ghost use Rattle.drive.specs.Fields.{state_in, store_of};
ghost use Rattle.drive_compaction.specs.Past.{present_blocks, held_blocks, IsPast};

use checkpoint::checkpoint_blocks;
use drive::Drive;
use s4_types::{Moment, ObjectId, Ptr};
use segment_table::OverFrames;
use segment_word::Naming;

/// How many of these pointers refer to a data block.
fn data_blocks(pointers: &[Option<Ptr>]) -> usize
    ensures data { result ≡ count_by is_some pointers.now }
    ensures few { result ≤ length pointers.now }
{
    let mut count = 0;
    for pointer in pointers {
        if pointer.is_some() {
            count += 1;
        }
    }
    count
}

/// How many blocks an object needs for what it is at a moment: a checkpoint, and its data. 0 where
/// it isn't live then.
fn present_blocks<J: Naming>(drive: &mut Drive<J>, object: ObjectId, at: Moment) -> usize
    ensures blocks { result ≡ present_blocks (store_of drive.old) at object }
    ensures ledger { drive.new.ledger ≡ drive.old.ledger }
    ensures store { store_of drive.new ≡ store_of drive.old }
{
    match drive.inode_at(object, at) {
        Some(inode) if inode.alive => checkpoint_blocks(&inode) + data_blocks(&inode.pointers),
        _ => 0,
    }
}

/// How many blocks of all frames are held.
fn held_blocks<J: Naming>(drive: &Drive<J>) -> usize
    ensures held { result ≡ held_blocks drive.now.store.table }
{
    let mut held = 0;
    for frame in 0..drive.frame_count() {
        held += drive.held_count(frame) as usize;
    }
    held
}

/// How many blocks are held beside those that all objects need for what they are at the clock, a
/// checkpoint and their data: as many as hiding the whole past and cleaning can free at most. Where
/// it is 0, only a larger image gives more room. History and store are as before.
pub fn past_blocks<J: Naming>(drive: &mut Drive<J>) -> usize
    ensures past { IsPast drive.old result }
    ensures ledger { drive.new.ledger ≡ drive.old.ledger }
    ensures store { store_of drive.new ≡ store_of drive.old }
{
    drive.rules();
    let clock = drive.clock();
    let mut past = held_blocks(drive);
    let mut object = ObjectId::new(0);
    while let Some(next) = drive.next_row(object) {
        past = past.saturating_sub(present_blocks(drive, next, clock));
        object = next;
    }
    past
}
