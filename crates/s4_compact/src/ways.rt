//! The ways of compacting a drive.
ghost use Rattle.std.specs.Prelude.{◌≡◌, IfOk, IfErr};
ghost use Rattle.s4_types.specs.declared.refusals.Refusal.TheVariants.{NoRoom};
ghost use Rattle.drive.specs.Fields.{state_in, store_of};
ghost use Rattle.drive.specs.Keeping.{KeepsVersions};
ghost use Rattle.s4_compact.specs.Ways.{IsCompactedBy, Loses, cleans_by, joined, works_joined};
ghost use Rattle.s4_compact.specs.declared.ways.Way.TheVariants.{MovesFirst};

use drive::{Drive, Session};
use drive_compaction::{Compaction, Work, compact, compact_by_moves};
use s4_types::{Refusal, Role};
use segment_word::Naming;
use std::alloc::Global;

/// A way of compacting a drive.
#[derive(Clone, Copy, PartialEq, Eq)]
pub enum Way {
    /// Objects are cleaned, and frames are emptied by moves.
    Cleaning,
    /// Frames are emptied by moves alone.
    Moves,
    /// Moves alone, and then the cleaner and moves: where the cleaner has too little room before.
    MovesFirst,
}

impl Way {
    /// Whether objects are cleaned.
    pub(crate) fn cleans(self) -> bool
        ensures { result ≡ cleans_by self }
    {
        match self {
            Way::Cleaning | Way::MovesFirst => true,
            Way::Moves => false,
        }
    }
}

// What two compactions did, one after the other.
fn works_joined(first: Work, second: Work) -> Work
    ensures { result ≡ works_joined first second }
{
    Work {
        rewritten: first.rewritten.saturating_add(second.rewritten),
        removed: first.removed.saturating_add(second.removed),
        is_cleaned: second.is_cleaned,
        frames: first.frames.saturating_add(second.frames),
        moves: first.moves.saturating_add(second.moves),
    }
}

// What they come to.
fn joined(first: Compaction, second: Compaction) -> Compaction
    ensures { result ≡ joined first second }
{
    Compaction {
        free_before: first.free_before,
        free_after: second.free_after,
        room_before: first.room_before,
        room_after: second.room_after,
        left_before: first.left_before,
        left_after: second.left_after,
        turns: first.turns.saturating_add(second.turns),
        work: works_joined(first.work, second.work),
        ending: second.ending,
    }
}

/// Compacts a drive this way. NoRoom where a step of it leaves fewer blocks than there were before
/// it.
pub(crate) fn compact_drive<J: Naming>(
    alloc: Global,
    drive: &mut Drive<J>,
    way: Way,
) -> Result<Compaction, Refusal>
    ensures compacted { IfOk result (IsCompactedBy way drive.old drive.new) }
    ensures loses { IfErr result (λ e. e ≡ NoRoom → Loses way drive.old) }
    ensures ledger { drive.new.ledger ≡ drive.old.ledger }
    ensures needed { KeepsVersions (state_in drive.old) (store_of drive.old) (store_of drive.new) }
{
    let mut session = drive.session(Role::Client)?;
    match way {
        Way::Cleaning => compact(alloc, drive, &mut session),
        Way::Moves => compact_by_moves(alloc, drive, &mut session),
        Way::MovesFirst => compact_twice(alloc, drive, &mut session),
    }
}

// Compacts a drive by moves alone, and then with the cleaner.
fn compact_twice<J: Naming>(
    alloc: Global,
    drive: &mut Drive<J>,
    session: &mut Session<J>,
) -> Result<Compaction, Refusal>
    ensures compacted { IfOk result (IsCompactedBy MovesFirst drive.old drive.new) }
    ensures loses { IfErr result (λ e. e ≡ NoRoom → Loses MovesFirst drive.old) }
    ensures ledger { drive.new.ledger ≡ drive.old.ledger }
    ensures needed { KeepsVersions (state_in drive.old) (store_of drive.old) (store_of drive.new) }
{
    let first = compact_by_moves(alloc, drive, session)?;
    let second = compact(alloc, drive, session)?;
    Ok(joined(first, second))
}
