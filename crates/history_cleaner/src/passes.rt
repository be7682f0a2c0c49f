//! A pass over all objects, and then over all frames.
ghost use Rattle.std.specs.Prelude.{◌≡◌, ◌⊎◌, ℕ, ◌+◌, ◌^◌, ◌<◌, if◌then◌else◌, IfSome, IsSome};
ghost use Rattle.std.specs.Prelude.{IfOk, IfErr, OnOk, OnErr};
ghost use Rattle.s4_model.specs.Audit.{audit_of};
ghost use Rattle.s4_model.specs.Promise.{IsCleanedUp};
ghost use Rattle.block_log.specs.declared.kinds.BlockKind.TheVariants.{Data};
ghost use Rattle.block_log.specs.Log.{of_kind};
ghost use Rattle.object_map.specs.Rows.{row_of};
ghost use Rattle.version_store.specs.Versions.{version_in};
ghost use Rattle.drive.specs.Fields.{history_of, state_in, store_of};
ghost use Rattle.drive.specs.Keeping.{KeepsVersions};
ghost use Rattle.history_cleaner.specs.Cleaning.{OthersStay};
ghost use Rattle.history_cleaner.specs.Emptying.{AllVacated, frames_risen};
ghost use Rattle.history_cleaner.specs.Passing.{is_other, is_gone, has_other_row, has_lost_row};
ghost use Rattle.history_cleaner.specs.Passing.{IsCount, IsCleaned, StoppedAt, StoppedAtReader};
ghost use Rattle.history_cleaner.specs.Reaching.{PointsTo};
ghost use Rattle.history_cleaner.specs.Rounds.{IsPutOff};
ghost use Rattle.history_cleaner.specs.private.Counting.{NamesPlaces};

use crate::cleaning::clean_object;
use crate::frames::{count_risen, note_generations, vacate};
use crate::laws::held_is_what_is_reached;
use crate::places::names_places;
use checkpoint::laws::a_checkpoint_is_in_its_blocks;
use drive::Drive;
use object_map::Row;
use s4_types::{ObjectId, Refusal};
use segment_word::Naming;
use std::alloc::Global;

/// What a full pass came to.
#[derive(Clone, Copy)]
pub struct PassReport {
    /// How many objects have a row with another stamp than before.
    pub rewritten: u32,
    /// How many objects have no row any more.
    pub removed: u32,
    /// How many frames have a greater generation than before.
    pub released: u32,
}

/// What became of the rows of all objects.
#[derive(Clone, Copy)]
struct Cleanings {
    /// How many objects have a row with another stamp.
    rewritten: u32,
    /// How many objects have no row any more.
    removed: u32,
}

/// Whether a row that is has another stamp than before.
pub(crate) fn is_other(row: &Option<Row>, later: &Option<Row>) -> bool
    ensures { result ≡ is_other row.now later.now }
{
    match (row, later) {
        (Some(row), Some(next)) => row.stamp != next.stamp,
        _ => false,
    }
}

/// Whether a row is gone.
pub(crate) fn is_gone(row: &Option<Row>, later: &Option<Row>) -> bool
    ensures { result ≡ is_gone row.now later.now }
{
    row.is_some() && later.is_none()
}

/// Cleans an object, and counts what became of its row.
fn clean_counted<J: Naming>(
    alloc: Global,
    drive: &mut Drive<J>,
    object: ObjectId,
    cleanings: &mut Cleanings,
) -> Result<(), Refusal>
    requires rewritten { cleanings.old.rewritten + 1 < 2 ^ 32 }
    requires removed { cleanings.old.removed + 1 < 2 ^ 32 }
    ensures places { IfSome (row_of drive.old.store.rows object) NamesPlaces }
    ensures cleaned { OnOk result
        (IsCleaned (store_of drive.old) (store_of drive.new) (state_in drive.old) object) }
    ensures rewritten { OnOk result (cleanings.new.rewritten
        ≡ (if is_other (row_of drive.old.store.rows object) (row_of drive.new.store.rows object) then cleanings.old.rewritten + 1 else cleanings.old.rewritten)) }
    ensures removed { OnOk result (cleanings.new.removed
        ≡ (if is_gone (row_of drive.old.store.rows object) (row_of drive.new.store.rows object) then cleanings.old.removed + 1 else cleanings.old.removed)) }
    ensures refusal { IfErr result (IsPutOff drive.old object) }
    ensures others { OthersStay (store_of drive.old) object (store_of drive.new) }
    ensures unchanged { OnErr result (store_of drive.new ≡ store_of drive.old) }
    ensures ledger { drive.new.ledger ≡ drive.old.ledger }
    ensures needed { KeepsVersions (state_in drive.old) (store_of drive.old) (store_of drive.new) }
{
    let row = drive.row(object);
    names_places(&row);
    clean_object(alloc, drive, object)?;
    let later = drive.row(object);
    if is_other(&row, &later) {
        cleanings.rewritten += 1;
    }
    if is_gone(&row, &later) {
        cleanings.removed += 1;
    }
    Ok(())
}

/// Cleans all objects, in ascending order, and counts what became of their rows. At the first
/// refusal it stops.
fn clean_all<J: Naming>(alloc: Global, drive: &mut Drive<J>) -> Result<Cleanings, Refusal>
    ensures cleaned { OnOk result
        ((o : ℕ) → IsCleaned (store_of drive.old) (store_of drive.new) (state_in drive.old) o) }
    ensures rewritten { IfOk result
        (λ c. IsCount (has_other_row drive.old.store.rows drive.new.store.rows) c.rewritten) }
    ensures removed { IfOk result
        (λ c. IsCount (has_lost_row drive.old.store.rows drive.new.store.rows) c.removed) }
    ensures refusal { IfErr result
        (StoppedAt (store_of drive.old) (store_of drive.new) (state_in drive.old)) }
    ensures ledger { drive.new.ledger ≡ drive.old.ledger }
    ensures needed { KeepsVersions (state_in drive.old) (store_of drive.old) (store_of drive.new) }
{
    held_is_what_is_reached();
    a_checkpoint_is_in_its_blocks();
    drive.rules();
    let mut object = ObjectId::new(0);
    let mut cleanings = Cleanings {
        rewritten: 0,
        removed: 0,
    };
    while let Some(next) = drive.next_row(object) {
        clean_counted(alloc, drive, next, &mut cleanings)?;
        drive.rules();
        object = next;
    }
    Ok(cleanings)
}

/// Cleans all objects, and then empties the frames.
fn clean_and_empty<J: Naming>(alloc: Global, drive: &mut Drive<J>) -> Result<Cleanings, Refusal>
    ensures cleaned { OnOk result
        ((o : ℕ) → IsCleaned (store_of drive.old) (store_of drive.new) (state_in drive.old) o) }
    ensures vacated { OnOk result (AllVacated drive.new.store.table) }
    ensures rewritten { IfOk result
        (λ c. IsCount (has_other_row drive.old.store.rows drive.new.store.rows) c.rewritten) }
    ensures removed { IfOk result
        (λ c. IsCount (has_lost_row drive.old.store.rows drive.new.store.rows) c.removed) }
    ensures refusal { IfErr result
        (λ e. StoppedAt (store_of drive.old) (store_of drive.new) (state_in drive.old) e
        ⊎ StoppedAtReader drive.old drive.new e) }
    ensures ledger { drive.new.ledger ≡ drive.old.ledger }
    ensures needed { KeepsVersions (state_in drive.old) (store_of drive.old) (store_of drive.new) }
{
    drive.rules();
    let cleanings = clean_all(alloc, drive)?;
    drive.rules();
    vacate(drive)?;
    Ok(cleanings)
}

/// Drops the rows of the audit that are below the floor. It takes no memory and refuses nothing,
/// and no answer depends on it: the history, the objects and what is answered stay as they are.
pub fn clean_audit<J: Naming>(drive: &mut Drive<J>)
    ensures { drive.new ≡ record drive.old { audit = audit_of (state_in drive.old) } }
{
    drive.cut_audit();
}

/// Cleans all objects by ascending number; then each frame that is sealed and holds nothing is
/// marked, and each that is being emptied is released, also one that was being emptied before. Ok
/// tells how many objects have a row with another stamp than before the pass, how many have none
/// any more, and how many frames have a greater generation than before it.
///
/// Then of every object, one without a row too, exactly those data blocks are held to which a live
/// inode points that is current at some moment that can be read; each inode of its chain that isn't
/// between two entries of one moment is current at such a one; and it has no row where it is absent
/// at all of them. Each frame that holds nothing is free, a retired one among them, or it is the
/// open one.
///
/// At its first refusal it stops, and what was cleaned stays cleaned. NoMemory and NoRoom as
/// [`clean_object`] answers them for the object at which it stopped; InUse where a frame that is
/// being emptied has a reader, as a release found that was tried after all objects were cleaned:
/// frames with greater numbers were released then. The history and every version that can be read
/// stay as they are, whatever is answered.
///
/// It holds no list of all objects, and takes no memory but that of the single cleanings. It takes
/// their time and a few steps for each frame. What was released is counted by the generations from
/// before the pass: no contract of a cleaning tells of these.
pub fn full_pass<J: Naming>(alloc: Global, drive: &mut Drive<J>) -> Result<PassReport, Refusal>
    ensures cleaned { OnOk result
        ((o : ℕ) → IsCleaned (store_of drive.old) (store_of drive.new) (state_in drive.old) o) }
    // In the words of the model: the history and what can be read stay, and exactly the data blocks
    // are held that this reaches.
    ensures promise { OnOk result (IsCleanedUp (history_of drive.old) (history_of drive.new) (version_in (store_of drive.new))
        (λ o p. IsSome (of_kind Data o (store_of drive.new).log.held p)) (PointsTo (store_of drive.new))) }
    ensures vacated { OnOk result (AllVacated drive.new.store.table) }
    ensures rewritten { IfOk result
        (λ report. IsCount (has_other_row drive.old.store.rows drive.new.store.rows)
        report.rewritten) }
    ensures removed { IfOk result
        (λ report. IsCount (has_lost_row drive.old.store.rows drive.new.store.rows)
        report.removed) }
    ensures released { IfOk result
        (λ report. report.released
        ≡ frames_risen drive.old.store.table.seat drive.new.store.table.seat) }
    ensures refusal { IfErr result
        (λ e. StoppedAt (store_of drive.old) (store_of drive.new) (state_in drive.old) e
        ⊎ StoppedAtReader drive.old drive.new e) }
    ensures ledger { drive.new.ledger ≡ drive.old.ledger }
    ensures needed { KeepsVersions (state_in drive.old) (store_of drive.old) (store_of drive.new) }
    // No row of the audit is kept that is below the floor.
    ensures audit { OnOk result (drive.new.audit ≡ audit_of (state_in drive.new)) }
{
    drive.rules();
    let before = note_generations(drive);
    let cleanings = clean_and_empty(alloc, drive)?;
    let released = count_risen(drive, before.as_slice());
    clean_audit(drive);
    Ok(PassReport {
        rewritten: cleanings.rewritten,
        removed: cleanings.removed,
        released,
    })
}
