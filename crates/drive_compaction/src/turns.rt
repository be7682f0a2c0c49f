//! Turns: a pass of the cleaner, and then frame after frame.
ghost use Rattle.std.specs.Prelude.{◌≡◌, ◌⊎◌, ℕ, ◌+◌, ◌^◌, ◌<◌, false, IfSome, IfOk, IfErr};
ghost use Rattle.s4_types.specs.declared.refusals.Refusal.TheVariants.{NoMemory, Busy};
ghost use Rattle.drive_compaction.specs.Emptying.{KeepsAll, FindsReader};
ghost use Rattle.drive_compaction.specs.Turns.{rewritten_by, removed_by, no_work, with_turn};
ghost use Rattle.drive_compaction.specs.Turns.{IsTurn, IsBare, EndsWith, Runs};
ghost use Rattle.drive_compaction.specs.private.Working.{IsLittleTurn, IsLittleWork};

use crate::cleaning::prepare;
use crate::counts::count_rows;
use crate::freeing::{Swept, sweep};
use drive::{Drive, Session};
use history_cleaner::PassReport;
use s4_types::Refusal;
use s4_types::limits::{MOST_FRAMES, PAYLOAD_BLOCKS};
use segment_copier::free_frames;
use segment_word::Naming;
use std::alloc::Global;

/// Turns of one compaction, at most: each but the last frees something, and no drive has more
/// places.
pub const MOST_TURNS: u32 = (MOST_FRAMES * PAYLOAD_BLOCKS) as u32;

/// How a compaction ended.
#[derive(Clone, Copy)]
pub enum Ending {
    /// A whole turn freed nothing: no frame is left that can be freed at a gain.
    Done,
    /// A move found too little room: other blocks than a frame's own were in its way.
    OutOfRoom,
    /// [`MOST_TURNS`] turns were taken.
    Limit,
}

/// What the turns of a compaction did in all.
#[derive(Clone, Copy)]
pub struct Work {
    /// How often the cleaner wrote an object anew.
    pub rewritten: u64,
    /// How many objects the cleaner removed.
    pub removed: u64,
    /// Whether the last pass of the cleaner came to its end. Where it didn't, there was too little
    /// room for it.
    pub is_cleaned: bool,
    /// How many frames were emptied by moves.
    pub frames: u64,
    /// How many moves were made, one for each object that left a frame.
    pub moves: u64,
}

/// What a turn did.
#[derive(Clone, Copy)]
pub(crate) struct Turn {
    /// What the pass of the cleaner came to; none where it was cut short, or where there was none.
    pub(crate) pass: Option<PassReport>,
    /// What the freeing of frames came to.
    pub(crate) swept: Swept,
}

/// What the turns came to, and how they ended.
#[derive(Clone, Copy)]
pub(crate) struct Run {
    pub(crate) turns: u32,
    pub(crate) work: Work,
    pub(crate) ending: Ending,
}

/// How many objects a pass wrote anew; none where it was cut short.
fn rewritten_by(pass: Option<PassReport>) -> u64
    ensures rewritten { result ≡ rewritten_by pass }
    ensures few { result < 2 ^ 32 }
{
    match pass {
        Some(report) => report.rewritten as u64,
        None => 0,
    }
}

/// How many objects a pass removed; none where it was cut short.
fn removed_by(pass: Option<PassReport>) -> u64
    ensures removed { result ≡ removed_by pass }
    ensures few { result < 2 ^ 32 }
{
    match pass {
        Some(report) => report.removed as u64,
        None => 0,
    }
}

impl Work {
    /// Nothing was done.
    pub(crate) fn none() -> Self
        ensures { result ≡ no_work }
    {
        Work {
            rewritten: 0,
            removed: 0,
            is_cleaned: false,
            frames: 0,
            moves: 0,
        }
    }

    /// With one turn more.
    pub(crate) fn with_turn(self, turn: &Turn) -> Self
        requires few { IsLittleWork 15360 self }
        requires turn { IsLittleTurn turn.now }
        ensures sum { result ≡ with_turn self turn.now }
        ensures little { (n : ℕ) → IsLittleWork n self → IsLittleWork (n + 1) result }
    {
        Work {
            rewritten: self.rewritten + rewritten_by(turn.pass),
            removed: self.removed + removed_by(turn.pass),
            is_cleaned: turn.pass.is_some(),
            frames: self.frames + turn.swept.frames,
            moves: self.moves + turn.swept.moves,
        }
    }
}

/// One turn: the pass of the cleaner, or with `cleans` false none, and then frame after frame.
///
/// NoMemory where memory is refused, Busy where no pin is to be had, InUse where a frame that is
/// being emptied has a reader. What was cleaned and moved stays so.
fn take_turn<J: Naming>(
    alloc: Global,
    drive: &mut Drive<J>,
    session: &mut Session<J>,
    cleans: bool,
) -> Result<Turn, Refusal>
    ensures turn { IfOk result (λ turn. IsTurn cleans drive.old turn drive.new) }
    ensures little { IfOk result IsLittleTurn }
    ensures none { IfOk result (λ turn. turn.swept.frames ≡ 0 → turn.swept.ran_out ≡ false → IsBare
        drive.new) }
    ensures refusal { IfErr result (λ e. (e ≡ NoMemory) ⊎
        ((e ≡ Busy) ⊎ FindsReader drive.old drive.new e)) }
    ensures keeps { KeepsAll drive.old drive.new }
{
    let pass = prepare(alloc, drive, cleans)?;
    let counts = count_rows(alloc, drive)?;
    let swept = sweep(alloc, drive, session, &counts)?;
    Ok(Turn { pass, swept })
}

/// How the turns end with this one, if they do. `before` is how many frames were free before it.
fn ending_of<J: Naming>(drive: &mut Drive<J>, turn: &Turn, before: u16) -> Option<Ending>
    ensures ends { IfSome result (λ ending. EndsWith before turn.now ending drive.old) }
    ensures same { drive.new ≡ drive.old }
{
    if turn.swept.ran_out {
        return Some(Ending::OutOfRoom);
    }
    if turn.swept.frames > 0 {
        return None;
    }
    // a pass that was cut short may come further, with the frames that this turn freed
    if turn.pass.is_none() && free_frames(drive) > before {
        return None;
    }
    Some(Ending::Done)
}

/// Takes turns until a whole one frees nothing.
///
/// NoMemory where memory is refused, Busy where no pin is to be had, InUse where a frame that is
/// being emptied has a reader. What was cleaned and moved stays so.
pub(crate) fn take_turns<J: Naming>(
    alloc: Global,
    drive: &mut Drive<J>,
    session: &mut Session<J>,
    cleans: bool,
) -> Result<Run, Refusal>
    ensures run { IfOk result (λ run. Runs cleans drive.old run.turns run.work run.ending
        drive.new) }
    ensures refusal { IfErr result (λ e. (e ≡ NoMemory) ⊎
        ((e ≡ Busy) ⊎ FindsReader drive.old drive.new e)) }
    ensures keeps { KeepsAll drive.old drive.new }
{
    let mut work = Work::none();
    for turns in 0..MOST_TURNS {
        let before = free_frames(drive);
        let turn = take_turn(alloc, drive, session, cleans)?;
        work = work.with_turn(&turn);
        if let Some(ending) = ending_of(drive, &turn, before) {
            return Ok(Run {
                turns: turns + 1,
                work,
                ending,
            });
        }
    }
    Ok(Run {
        turns: MOST_TURNS,
        work,
        ending: Ending::Limit,
    })
}
