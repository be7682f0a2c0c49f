//! Rounds over all objects, in turns that are short enough to be taken beside sessions.
ghost use Rattle.std.specs.Prelude.{◌≡◌, ◌||◌};
ghost use Rattle.drive.specs.Fields.{state_in, store_of};
ghost use Rattle.drive.specs.Keeping.{KeepsVersions};
ghost use Rattle.version_store.specs.Upkeep.{KeepsObjects};
ghost use Rattle.history_cleaner.specs.Passing.{is_other, is_gone};
ghost use Rattle.history_cleaner.specs.Rounds.{Turns, Visits, IsTidied, TriedBelow, IsSwept};

use crate::cleaning::clean_object;
use crate::frames::mark_all;
use crate::passes::{clean_audit, is_gone, is_other};
use drive::Drive;
use object_map::Row;
use s4_types::limits::MOVE_BLOCKS;
use s4_types::{ObjectId, Refusal};
use segment_table::OverFrames;
use segment_word::Naming;
use std::alloc::Global;

/// What a turn came to.
#[derive(Clone, Copy)]
pub enum Turn {
    /// The next object was cleaned.
    Cleaned(ObjectId),
    /// The next object could not be cleaned, for this reason, and is as it was: it is passed over
    /// until the next round.
    PassedOver(ObjectId, Refusal),
    /// No object was left. The next turn begins another round.
    Ended,
}

/// A round over all objects by ascending number, and after it another.
#[derive(Clone, Copy)]
pub struct Rounds {
    /// The last object of this round that had its turn; 0 before the first one.
    pub passed: ObjectId,
}

/// Tries the release of each of this many frames, the highest first: those that are being emptied
/// and have no reader are free afterwards.
fn try_releases<J: Naming>(drive: &mut Drive<J>, count: u16)
    ensures tried { TriedBelow count drive.old.store.table.seat drive.new.store.table.seat }
    ensures objects { KeepsObjects (store_of drive.old) (store_of drive.new) }
    ensures ledger { drive.new.ledger ≡ drive.old.ledger }
{
    for index in 0..count {
        // the free frames are kept with the lowest last, so that one that is lower than all of them
        // goes to the end
        let frame = count - 1 - index;
        let _ = drive.release(frame);
    }
}

/// Marks each frame that is sealed and holds nothing, and then tries to release each that is being
/// emptied, the highest first. One that has a reader is left for a later time, and those below it
/// are tried all the same. All objects stay as they are. Takes no memory.
pub fn sweep<J: Naming>(drive: &mut Drive<J>)
    ensures swept { IsSwept drive.old.store.table drive.new.store.table }
    ensures objects { KeepsObjects (store_of drive.old) (store_of drive.new) }
    ensures ledger { drive.new.ledger ≡ drive.old.ledger }
{
    let count = drive.frame_count();
    mark_all(drive, count);
    try_releases(drive, count);
}

/// Whether an object's row has another stamp than it had, or is gone.
fn has_changed(row: &Option<Row>, later: &Option<Row>) -> bool
    ensures { result ≡ (is_other row.now later.now || is_gone row.now later.now) }
{
    is_other(row, later) || is_gone(row, later)
}

/// Where an object was changed and less room is left than a move takes, frames are emptied at once
/// and not only after a round: the next object may need them, and whoever waits for room. Else the
/// walk over all frames isn't worth its cost.
fn tidy<J: Naming>(drive: &mut Drive<J>, is_changed: bool)
    ensures tidied { IsTidied is_changed drive.old drive.new }
    ensures objects { KeepsObjects (store_of drive.old) (store_of drive.new) }
    ensures ledger { drive.new.ledger ≡ drive.old.ledger }
{
    if is_changed && drive.room() < MOVE_BLOCKS {
        sweep(drive);
    }
}

/// An object has its turn, whichever it is: it is cleaned. Where that has changed something and
/// less room is left than a move takes, each frame that is sealed and holds nothing is marked, and
/// the release of each that is being emptied is tried. The history and every version that can be
/// read stay.
///
/// Refused as [`clean_object`] is. Nothing has changed then.
pub fn visit<J: Naming>(
    alloc: Global,
    drive: &mut Drive<J>,
    object: ObjectId,
) -> Result<(), Refusal>
    ensures visits { Visits drive.old object result drive.new }
    ensures ledger { drive.new.ledger ≡ drive.old.ledger }
    ensures needed { KeepsVersions (state_in drive.old) (store_of drive.old) (store_of drive.new) }
{
    let row = drive.row(object);
    clean_object(alloc, drive, object)?;
    let later = drive.row(object);
    tidy(drive, has_changed(&row, &later));
    Ok(())
}

impl Rounds {
    /// Before the first object.
    pub fn new() -> Self
        ensures { result.passed ≡ 0 }
    {
        Rounds {
            passed: ObjectId::new(0),
        }
    }

    /// The next object with a row has its turn ([`visit`]). Where none is left the round has ended:
    /// the sealed frames that hold nothing are marked, the release of each that is being emptied is
    /// tried, and the audit's rows below the floor are dropped. The history and every version that
    /// can be read stay.
    pub fn turn<J: Naming>(&mut self, alloc: Global, drive: &mut Drive<J>) -> Turn
        ensures turn { Turns drive.old self.old.passed result self.new.passed drive.new }
        ensures ledger { drive.new.ledger ≡ drive.old.ledger }
        ensures needed { KeepsVersions (state_in drive.old) (store_of drive.old)
            (store_of drive.new) }
    {
        let Some(object) = drive.next_row(self.passed) else {
            self.passed = ObjectId::new(0);
            sweep(drive);
            clean_audit(drive);
            return Turn::Ended;
        };
        self.passed = object;
        match visit(alloc, drive, object) {
            Ok(()) => Turn::Cleaned(object),
            Err(refusal) => Turn::PassedOver(object, refusal),
        }
    }
}
