//! What emptying a frame writes, counted block by block.
ghost use Rattle.std.specs.Prelude.{◌≡◌, ◌+◌, ◌*◌, ◌<◌, ◌≤◌, if◌then◌else◌, length, IfSome, IfNone};
ghost use Rattle.s4_types.specs.declared.limits.TheConstants.{PAYLOAD_BLOCKS};
ghost use Rattle.block_log.specs.Log.{same_kind};
ghost use Rattle.block_log.specs.declared.kinds.BlockKind.TheVariants.{Data};
ghost use Rattle.segment_word.specs.Layout.{frame_at};
ghost use Rattle.segment_table.specs.Table.{held_at};
ghost use Rattle.segment_copier.specs.declared.rewriting.TheConstants.{MOST_REWRITTEN};
ghost use Rattle.segment_copier.specs.Choosing.{IsLife};
ghost use Rattle.segment_copier.specs.Counting.{is_among, blocks_added, added_at, objects_at};
ghost use Rattle.segment_copier.specs.Counting.{IsCounted};

use crate::held::is_of_data;
use crate::rewriting::{MOST_REWRITTEN, Rewrites};
use arrayvec::ArrayVec;
use codec::BlockRole;
use drive::Drive;
use s4_types::limits::PAYLOAD_BLOCKS;
use s4_types::{ObjectId, Ptr};
use segment_table::OverFrames;
use segment_word::Naming;

/// What was counted of the blocks of a frame that were looked at.
#[derive(Drop)]
pub struct Counted {
    /// How many blocks the moves of these write.
    pub blocks: usize,
    /// The object of each that is held, in their order.
    pub objects: ArrayVec<u64, PAYLOAD_BLOCKS>,
}

/// Whether an object is one of these.
pub fn is_among(objects: &[u64], object: ObjectId) -> bool
    ensures { result ≡ is_among object objects.now }
{
    let number = object.number();
    objects.iter().any(|one| *one == number)
}

/// 1 for a data block, which is copied; else 0.
fn copies_of(role: &BlockRole) -> usize
    ensures copies { result ≡ (if same_kind Data role.now.kind then 1 else 0) }
    ensures few { result ≤ 1 }
{
    if is_of_data(role) { 1 } else { 0 }
}

/// How many blocks are written more, where the next held block is of this kind and object, and
/// those before it are of these objects.
fn added_by<J: Naming, W: Rewrites<J>>(
    drive: &mut Drive<J>,
    rewrites: &W,
    before: &[u64],
    role: &BlockRole,
) -> usize
    ensures added { result ≡ blocks_added (W.written rewrites.now drive.old) before.now
        role.now.kind role.now.object }
    ensures few { result ≤ MOST_REWRITTEN + 1 }
    ensures same { drive.new ≡ drive.old }
{
    let copies = copies_of(role);
    if is_among(before, role.object) {
        return copies;
    }
    copies + rewrites.blocks_of(drive, role.object)
}

/// With what is held at one place more.
fn with_block<J: Naming, W: Rewrites<J>>(
    drive: &mut Drive<J>,
    rewrites: &W,
    so_far: Counted,
    place: Ptr,
) -> Counted
    requires few { so_far.blocks ≤ (MOST_REWRITTEN + 1) * PAYLOAD_BLOCKS }
    requires room { length so_far.objects.items < PAYLOAD_BLOCKS }
    ensures blocks { result.blocks
        ≡ so_far.blocks + added_at (W.written rewrites.now drive.old) so_far.objects.items
        (held_at drive.old.store.table place) }
    ensures objects { result.objects.items
        ≡ objects_at so_far.objects.items (held_at drive.old.store.table place) }
    ensures few { result.blocks ≤ so_far.blocks + (MOST_REWRITTEN + 1) }
    ensures same { drive.new ≡ drive.old }
{
    let Some(role) = drive.role(place) else {
        return so_far;
    };
    let Counted {
        blocks,
        mut objects,
    } = so_far;
    let added = added_by(drive, rewrites, objects.as_slice(), &role);
    objects.push(role.object.number());
    Counted {
        blocks: blocks + added,
        objects,
    }
}

/// What is counted of all blocks of a frame, whatever its phase: how many blocks the moves of all
/// objects out of it write, where so many as `rewrites` counts are written of each object beside
/// its data blocks there; and whose its held blocks are. None where the frame isn't there or is
/// used no more. The drive is as before.
pub fn count_frame<J: Naming, W: Rewrites<J>>(
    drive: &mut Drive<J>,
    rewrites: &W,
    frame: u16,
) -> Option<Counted>
    ensures some { IfSome result
        (IsCounted (W.written rewrites.now drive.old) drive.old.store.table frame) }
    ensures none { IfNone result
        (IsLife (frame_at drive.old.store.table.seat.frames frame).generation → ⊥) }
    ensures same { drive.new ≡ drive.old }
{
    let generation = drive.generation(frame)?;
    let mut so_far = Counted {
        blocks: 0,
        objects: ArrayVec::new(),
    };
    for index in 0..PAYLOAD_BLOCKS {
        let place = Ptr::new(frame, index as u8 + 1, generation)?;
        so_far = with_block(drive, rewrites, so_far, place);
    }
    Some(so_far)
}
