//! Gathering: where there is too little room for the copier's moves, a frame that holds little is
//! emptied within the reserve.
ghost use Rattle.std.specs.Prelude.{◌≡◌, OnOk, OnErr, IfOk, IfErr, IfSome, IfNone};
ghost use Rattle.std.specs.Prelude.{nat_lt};
ghost use Rattle.s4_types.specs.declared.limits.TheConstants.{PAYLOAD_BLOCKS};
ghost use Rattle.drive.specs.Fields.{state_in, store_of};
ghost use Rattle.drive.specs.Keeping.{KeepsVersions};
ghost use Rattle.segment_copier.specs.Choosing.{IsSparse};
ghost use Rattle.segment_copier.specs.Gathering.{free_count, most_to_empty, MovesNow, IsUnmade};
ghost use Rattle.segment_copier.specs.Gathering.{IsGathered, GathersNothing, FailsToGather};

use crate::candidates::Candidate;
use crate::choices::sparsest;
use crate::commits::commit;
use crate::counting::count_frame;
use crate::plans::plan_move;
use crate::rewriting::ByRow;
use crate::states::is_free_now;
use drive::{Drive, Session};
use s4_types::limits::{MOVE_BLOCKS, PAYLOAD_BLOCKS};
use s4_types::{ObjectId, Refusal};
use segment_table::OverFrames;
use segment_table::laws::what_is_listed_is_held;
use segment_word::Naming;
use std::alloc::Global;

/// How many frames of a drive are free, retired ones among them.
pub fn free_frames<J: Naming>(drive: &mut Drive<J>) -> u16
    ensures number { result ≡ free_count drive.old.store.table }
    ensures same { drive.new ≡ drive.old }
{
    let mut count = 0;
    for frame in 0..drive.frame_count() {
        if is_free_now(drive, frame) {
            count += 1;
        }
    }
    count
}

/// Whether a frame that a move can be made out of is emptied by fewer blocks than it has.
fn takes_few<J: Naming>(drive: &mut Drive<J>, frame: u16) -> bool
    requires sparse { IsSparse drive.old.store.table frame }
    ensures few { result ≡ nat_lt (most_to_empty drive.old frame) PAYLOAD_BLOCKS }
    ensures same { drive.new ≡ drive.old }
{
    let Some(counted) = count_frame(drive, &ByRow, frame) else {
        return false;
    };
    counted.blocks < PAYLOAD_BLOCKS
}

/// A whole move of an object's held blocks out of a frame, planned, copied and put in place before
/// anything else is done with the drive.
///
/// NoObject exactly where the object has no row; else NoRoom where fewer places are ahead than the
/// move takes, NoMemory where memory is refused, and Busy where no pin is to be had. Nothing has
/// changed then.
pub fn move_now<J: Naming>(
    alloc: Global,
    drive: &mut Drive<J>,
    session: &mut Session<J>,
    frame: u16,
    object: ObjectId,
) -> Result<(), Refusal>
    ensures moved { OnOk result (MovesNow drive.old frame object result drive.new) }
    ensures refusal { IfErr result (IsUnmade drive.old frame object) }
    ensures unchanged { OnErr result (store_of drive.new ≡ store_of drive.old) }
    ensures ledger { drive.new.ledger ≡ drive.old.ledger }
    ensures needed { KeepsVersions (state_in drive.old) (store_of drive.old) (store_of drive.new) }
{
    let plan = plan_move(alloc, drive, session, frame, object)?;
    let moved = plan.copy(alloc)?;
    commit(alloc, drive, moved)
}

/// One step of gathering, where there is too little room for the copier's moves: out of the frame
/// that the copier would choose goes the object that it would, with blocks of the reserve. None
/// exactly where the copier has room, where no frame is sparse or none is free, or where emptying
/// the frame may take as many blocks as it has: then nothing has changed. So what is gathered
/// leaves the cleaner more of the reserve than it had, once the frame is free.
///
/// The history and every version that can be read stay, whatever is answered.
///
/// Refused only where there is too little room for the copier's moves: NoMemory where memory is
/// refused, for the choice or for the move; Busy where no pin of the chosen frame is to be had, and
/// NoRoom where fewer places are ahead than the move takes, as where each free frame is retired.
/// Nothing has changed then.
pub fn gather<J: Naming>(
    alloc: Global,
    drive: &mut Drive<J>,
    session: &mut Session<J>,
) -> Result<Option<Candidate>, Refusal>
    ensures moved { IfOk result (λ found. IfSome found (λ c. IsGathered drive.old c drive.new)) }
    ensures idle { IfOk result (λ found. IfNone found (GathersNothing drive.old)) }
    ensures none { IfOk result (λ found. IfNone found (drive.new ≡ drive.old)) }
    ensures refusal { IfErr result (FailsToGather drive.old) }
    ensures unchanged { OnErr result (store_of drive.new ≡ store_of drive.old) }
    ensures ledger { drive.new.ledger ≡ drive.old.ledger }
    ensures needed { KeepsVersions (state_in drive.old) (store_of drive.old) (store_of drive.new) }
{
    what_is_listed_is_held();
    drive.rules();
    if drive.room() >= MOVE_BLOCKS {
        return Ok(None);
    }
    let Some(next) = sparsest(drive)? else {
        return Ok(None);
    };
    if free_frames(drive) == 0 {
        return Ok(None);
    }
    if !takes_few(drive, next.frame) {
        return Ok(None);
    }
    move_now(alloc, drive, session, next.frame, next.object)?;
    Ok(Some(next))
}
