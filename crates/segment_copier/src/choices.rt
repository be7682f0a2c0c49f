//! The copier's choice of its next move.
ghost use Rattle.std.specs.Prelude.{◌≡◌, ◌⊎◌, ◌+◌, ◌<◌, min, nat_lt, nat_le, IfSome, IfNone, IfOk};
ghost use Rattle.std.specs.Prelude.{IfErr};
ghost use Rattle.s4_types.specs.declared.limits.TheConstants.{MOVE_BLOCKS};
ghost use Rattle.s4_types.specs.declared.refusals.Refusal.TheVariants.{NoMemory};
ghost use Rattle.segment_word.specs.Frames.{is_sealed};
ghost use Rattle.segment_word.specs.Layout.{frame_at};
ghost use Rattle.version_store.specs.Costs.{room};
ghost use Rattle.drive.specs.Fields.{store_of};
ghost use Rattle.segment_copier.specs.declared.choices.TheConstants.{MOST_HELD};
ghost use Rattle.segment_copier.specs.Choosing.{HasRoom, IsSparse, IsFirstFrame, IsLowestObject};
ghost use Rattle.segment_copier.specs.Choosing.{NoneIsSparse};
ghost use Rattle.segment_copier.specs.private.Surveying.{IsLowestIn, IsBestBelow};

use crate::candidates::Candidate;
use drive::Drive;
use s4_types::limits::{MOVE_BLOCKS, PAYLOAD_BLOCKS};
use s4_types::{ObjectId, Ptr, Refusal};
use segment_table::OverFrames;
use segment_table::laws::what_is_listed_is_held;
use segment_word::Naming;

/// Held blocks of a frame that a move is made out of, at most: fewer than half of its payload
/// blocks. Chosen.
pub const MOST_HELD: usize = 7;

/// A frame, how many blocks of it are held, at least one, and the least object that one of them is
/// of.
#[derive(Clone, Copy)]
pub(crate) struct Survey {
    frame: u16,
    count: usize,
    lowest: ObjectId,
}

// The least object so far, with one block more, which is of this object.
fn with_block(lowest: Option<ObjectId>, object: ObjectId) -> ObjectId
    ensures first { IfNone lowest (result ≡ object) }
    ensures more { IfSome lowest (λ least. result ≡ min least object) }
{
    match lowest {
        Some(least) => least.min(object),
        None => object,
    }
}

// The least object that a held block of a frame is of, whatever its phase. None where nothing is
// held, or the frame isn't there or is used no more.
fn lowest_in<J: Naming>(drive: &mut Drive<J>, frame: u16) -> Option<ObjectId>
    ensures some { IfSome result (IsLowestIn drive.old.store.table frame) }
    ensures none { IfNone result (IsSparse drive.old.store.table frame → ⊥) }
    ensures same { drive.new ≡ drive.old }
{
    let generation = drive.generation(frame)?;
    let mut lowest = None;
    for index in 0..PAYLOAD_BLOCKS {
        let place = Ptr::new(frame, index as u8 + 1, generation)?;
        if let Some(role) = drive.role(place) {
            lowest = Some(with_block(lowest, role.object));
        }
    }
    lowest
}

// Whether a frame of which this many blocks are held, at least one, comes before the best of the
// frames with lower numbers, if it is sealed.
fn is_better(count: usize, best: &Option<Survey>) -> bool
    ensures first { IfNone best.now (result ≡ nat_le count MOST_HELD) }
    ensures fewer { IfSome best.now (λ b. result ≡ nat_lt count b.count) }
{
    match best {
        Some(best) => count < best.count,
        None => count <= MOST_HELD,
    }
}

// Whether a frame is sealed, where this is the least object that a held block of it is of.
fn is_sealed_with<J: Naming>(
    drive: &mut Drive<J>,
    frame: u16,
    lowest: ObjectId,
) -> Result<bool, Refusal>
    requires { IsLowestIn drive.old.store.table frame lowest }
    ensures sealed { IfOk result
        (λ sealed. sealed ≡ is_sealed (frame_at drive.old.store.table.seat.frames frame).phase) }
    ensures refusal { IfErr result (λ e. e ≡ NoMemory) }
    ensures same { drive.new ≡ drive.old }
{
    drive.listings();
    let held = drive.held_in(lowest, frame)?;
    Ok(!held.is_empty())
}

// The best of the frames up to this one, where the best below it is known. By the count that is
// kept of a frame most are passed over, and none of their blocks is looked at.
fn best_with<J: Naming>(
    drive: &mut Drive<J>,
    best: Option<Survey>,
    frame: u16,
) -> Result<Option<Survey>, Refusal>
    requires below { IsBestBelow drive.old.store.table frame best }
    ensures best { IfOk result (IsBestBelow drive.old.store.table (frame + 1)) }
    ensures refusal { IfErr result (λ e. e ≡ NoMemory) }
    ensures same { drive.new ≡ drive.old }
{
    let count = drive.held_count(frame) as usize;
    if count == 0 || !is_better(count, &best) {
        return Ok(best);
    }
    let Some(lowest) = lowest_in(drive, frame) else {
        return Ok(best);
    };
    if is_sealed_with(drive, frame, lowest)? {
        return Ok(Some(Survey {
            frame,
            count,
            lowest,
        }));
    }
    Ok(best)
}

/// Whatever room there is: out of the sealed frame with the fewest held blocks, from 1 to 7, and
/// with the lowest number on a tie, goes the least object that holds a block there. None exactly
/// where there is no such frame. The drive is as before, whatever is answered. It looks at the
/// count of held blocks that is kept of each frame, and at the blocks only of a frame that is
/// better than the best so far, at these twice. It keeps no list of objects.
///
/// NoMemory alone, where the memory for the pointers into one frame is refused.
pub(crate) fn sparsest<J: Naming>(drive: &mut Drive<J>) -> Result<Option<Candidate>, Refusal>
    ensures frame { IfOk result
        (λ found. IfSome found (λ c. IsFirstFrame drive.old.store.table c.frame)) }
    ensures object { IfOk result
        (λ found. IfSome found (λ c. IsLowestObject drive.old.store.table c.frame c.object)) }
    ensures none { IfOk result (λ found. IfNone found (NoneIsSparse drive.old.store.table)) }
    ensures refusal { IfErr result (λ e. e ≡ NoMemory) }
    ensures same { drive.new ≡ drive.old }
{
    let mut best = None;
    for frame in 0..drive.frame_count() {
        best = best_with(drive, best, frame)?;
    }
    what_is_listed_is_held();
    drive.listings();
    let Some(survey) = best else {
        return Ok(None);
    };
    Ok(Some(Candidate {
        frame: survey.frame,
        object: survey.lowest,
    }))
}

/// The copier's choice of its next move: out of the sealed frame with the fewest held blocks, from
/// 1 to 7, and with the lowest number on a tie, goes the least object that holds a block there.
/// None exactly where there is room for fewer than `MOVE_BLOCKS` beside the reserve, or no such
/// frame. The drive is as before, whatever is answered.
///
/// NoMemory alone, where the memory for the pointers into one frame is refused.
pub fn candidate<J: Naming>(drive: &mut Drive<J>) -> Result<Option<Candidate>, Refusal>
    ensures room { IfOk result (λ found. IfSome found (λ _. HasRoom drive.old)) }
    ensures frame { IfOk result
        (λ found. IfSome found (λ c. IsFirstFrame drive.old.store.table c.frame)) }
    ensures object { IfOk result
        (λ found. IfSome found (λ c. IsLowestObject drive.old.store.table c.frame c.object)) }
    ensures none { IfOk result
        (λ found. IfNone found
        ((room (store_of drive.old) < MOVE_BLOCKS) ⊎ NoneIsSparse drive.old.store.table)) }
    ensures refusal { IfErr result (λ e. e ≡ NoMemory) }
    ensures same { drive.new ≡ drive.old }
{
    if drive.room() < MOVE_BLOCKS {
        return Ok(None);
    }
    sparsest(drive)
}
