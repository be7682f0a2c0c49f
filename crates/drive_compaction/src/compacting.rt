//! The compaction of a drive.
ghost use Rattle.std.specs.Prelude.{◌≡◌, ◌⊎◌, true, false, IfOk, IfErr};
ghost use Rattle.s4_types.specs.declared.refusals.Refusal.TheVariants.{NoMemory, Busy};
ghost use Rattle.drive.specs.Fields.{state_in, store_of};
ghost use Rattle.drive.specs.Keeping.{KeepsVersions};
ghost use Rattle.drive_compaction.specs.Emptying.{FindsReader};
ghost use Rattle.drive_compaction.specs.Compacting.{IsCompacted, LosesRoom};
ghost use Rattle.drive_compaction.specs.Passing.{as_left};

use crate::left::blocks_left;
use crate::turns::{Ending, Work, take_turns};
use drive::{Drive, Session};
use s4_types::Refusal;
use segment_copier::free_frames;
use segment_word::Naming;
use std::alloc::Global;

/// What a compaction came to.
#[derive(Clone, Copy)]
pub struct Compaction {
    /// How many frames were free before it, retired ones among them.
    pub free_before: u16,
    /// How many are free after it.
    pub free_after: u16,
    /// How many blocks changes could append before it.
    pub room_before: usize,
    /// How many they can append after it, no fewer.
    pub room_after: usize,
    /// How many blocks were left before it, the reserve among them.
    pub left_before: usize,
    /// How many are left after it, no fewer.
    pub left_after: usize,
    /// How many turns were taken.
    pub turns: u32,
    /// What they did in all.
    pub work: Work,
    /// How they ended.
    pub ending: Ending,
}

impl Compaction {
    /// With what is left in a drive as it is now, in place of what the turns left.
    pub fn as_left<J: Naming>(self, drive: &mut Drive<J>) -> Self
        ensures left { result ≡ as_left self drive.old }
        ensures same { drive.new ≡ drive.old }
    {
        Compaction {
            free_after: free_frames(drive),
            room_after: drive.room(),
            left_after: blocks_left(drive),
            ..self
        }
    }
}

/// Compacts a drive, with or without the cleaner.
#[tactic(auto, using(crate::proofs::LeftAhead::no_less))]
fn compact_by<J: Naming>(
    alloc: Global,
    drive: &mut Drive<J>,
    session: &mut Session<J>,
    cleans: bool,
) -> Result<Compaction, Refusal>
    ensures compacted { IfOk result (IsCompacted cleans drive.old drive.new) }
    ensures refusal { IfErr result (λ e. (e ≡ NoMemory) ⊎
        ((e ≡ Busy) ⊎ (LosesRoom cleans drive.old drive.new e ⊎ FindsReader drive.old drive.new e))) }
    ensures ledger { drive.new.ledger ≡ drive.old.ledger }
    ensures needed { KeepsVersions (state_in drive.old) (store_of drive.old) (store_of drive.new) }
{
    let free_before = free_frames(drive);
    let room_before = drive.room();
    let left_before = blocks_left(drive);
    let run = take_turns(alloc, drive, session, cleans)?;
    let room_after = drive.room();
    let left_after = blocks_left(drive);
    if left_after < left_before {
        return Err(Refusal::NoRoom);
    }
    Ok(Compaction {
        free_before,
        free_after: free_frames(drive),
        room_before,
        room_after,
        left_before,
        left_after,
        turns: run.turns,
        work: run.work,
        ending: run.ending,
    })
}

/// Makes as much room in a drive as cleaner and moves give. It takes turns, until a whole one frees
/// nothing. In a turn all objects are cleaned, and each frame that holds nothing then is free;
/// where that stops for too little room, the frames that hold nothing are freed all the same. Then
/// one frame after another is emptied by moves and freed, those with the fewest held blocks first:
/// each that is sealed, and whose moves write fewer blocks than the frames have that they empty,
/// and no more than the free frames have. They empty the frame itself, and each that holds nothing
/// but journals and checkpoints of its objects. So each leaves more places ahead than there were.
/// It ends also where a move finds too little room, or after [`MOST_TURNS`](crate::MOST_TURNS)
/// turns; none of these is a failure.
///
/// The session is that of whoever moves, and stays as it is. NoRoom exactly where fewer blocks are
/// left in the end than were, those of the reserve among them, which comes where the cleaner wrote
/// more than could be freed: then [`compact_by_moves`] may still make room, in the drive as it was
/// before. NoMemory where
/// memory is refused, Busy where no pin is to be had, InUse where a frame that is being emptied has
/// a reader, which comes only where another session reads. What was cleaned and moved stays so
/// then. The history and every version that can be read stay, whatever is answered.
pub fn compact<J: Naming>(
    alloc: Global,
    drive: &mut Drive<J>,
    session: &mut Session<J>,
) -> Result<Compaction, Refusal>
    ensures compacted { IfOk result (IsCompacted true drive.old drive.new) }
    ensures refusal { IfErr result (λ e. (e ≡ NoMemory) ⊎
        ((e ≡ Busy) ⊎ (LosesRoom true drive.old drive.new e ⊎ FindsReader drive.old drive.new e))) }
    ensures ledger { drive.new.ledger ≡ drive.old.ledger }
    ensures needed { KeepsVersions (state_in drive.old) (store_of drive.old) (store_of drive.new) }
{
    compact_by(alloc, drive, session, true)
}

/// The same without the cleaner: no object is cleaned, and frames are emptied by moves alone. Its
/// refusals are those of [`compact`].
pub fn compact_by_moves<J: Naming>(
    alloc: Global,
    drive: &mut Drive<J>,
    session: &mut Session<J>,
) -> Result<Compaction, Refusal>
    ensures compacted { IfOk result (IsCompacted false drive.old drive.new) }
    ensures refusal { IfErr result (λ e. (e ≡ NoMemory) ⊎
        ((e ≡ Busy) ⊎ (LosesRoom false drive.old drive.new e ⊎ FindsReader drive.old drive.new e))) }
    ensures ledger { drive.new.ledger ≡ drive.old.ledger }
    ensures needed { KeepsVersions (state_in drive.old) (store_of drive.old) (store_of drive.new) }
{
    compact_by(alloc, drive, session, false)
}
