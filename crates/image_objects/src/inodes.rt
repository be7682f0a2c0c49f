//! The inode before a row's first entry, and the checkpoint's place.
ghost use Rattle.std.specs.Prelude.{◌≡◌, ◌≤◌, true, length, Option, Some, IfSome, IfNone};
ghost use Rattle.std.specs.Prelude.{MatchOption};
ghost use Rattle.s4_types.specs.declared.limits.TheConstants.{OBJECT_BLOCKS};
ghost use Rattle.undo_redo.specs.Runs.{undone_all, redone_all, entries_by, blank};
ghost use Rattle.time_read.specs.Orderly.{BeginsDead};
ghost use Rattle.image_objects.specs.Inodes.{TellsTheRow, HasItsPlace, CheckpointStands};
ghost use Rattle.image_objects.specs.Inodes.{BeginningStands, first_before, checkpoint_used};
ghost use Rattle.image_objects.specs.Versions.{IsCheckpointOf, BeginningStandsBy};

use crate::links::{has_status, is_same_slot};
use crate::pointers::checkpoint_of;
use crate::rows::ImageRow;
use crate::{UsedBlocks, read_checkpoint};
use codec::versions::FIRST_OBJECT_BYTES;
use codec::{Checkpoint, Entry, ImageVersion, Inode, Status};
use s4_types::limits::OBJECT_BLOCKS;
use s4_types::{Moment, Ptr};
use undo_redo::laws::a_blank_inode_has_holes_alone;
use undo_redo::{blank, redo, undo};

/// Undoes the entries up to a moment, the last one first.
#[tactic(auto, using(crate::proofs::Undoing::undone_here, crate::proofs::Undoing::undone_past))]
fn undo_by(entries: &[Entry], at: Moment, inode: &mut Inode)
    ensures { inode.new ≡ undone_all (entries_by at entries.now) inode.old }
{
    for entry in entries.iter().rev() {
        if entry.moment() > at {
            continue;
        }
        undo(entry, inode);
    }
}

/// Does the entries up to a moment again, the first one first.
#[tactic(auto, using(crate::proofs::Undoing::redone_here, crate::proofs::Undoing::redone_past))]
pub fn redo_by(entries: &[Entry], at: Moment, inode: &mut Inode)
    ensures { inode.new ≡ redone_all (entries_by at entries.now) inode.old }
{
    for entry in entries {
        if entry.moment() > at {
            continue;
        }
        redo(entry, inode);
    }
}

fn are_same_slots(one: &[Option<Ptr>], other: &[Option<Ptr>]) -> bool
    requires { length one.now ≡ length other.now }
    ensures is { result ≡ true → one.now ≡ other.now }
    ensures only { one.now ≡ other.now → result ≡ true }
{
    for index in 0..one.len() {
        if !is_same_slot(one[index], other[index]) {
            return false;
        }
    }
    true
}

/// Whether two inodes are the same.
#[tactic(auto, using(undo_redo::proofs::LinkLaws::same_inode))]
pub(crate) fn is_same_inode(one: &Inode, other: &Inode) -> bool
    requires one { length one.now.pointers ≡ OBJECT_BLOCKS }
    requires other { length other.now.pointers ≡ OBJECT_BLOCKS }
    ensures is { result ≡ true → one.now ≡ other.now }
    ensures only { one.now ≡ other.now → result ≡ true }
{
    let status = Status {
        alive: other.alive,
        size: other.size,
        changed: other.changed,
    };
    if !has_status(one, status) {
        return false;
    }
    if one.created.number() != other.created.number() {
        return false;
    }
    if one.attribute.as_slice() != other.attribute.as_slice() {
        return false;
    }
    are_same_slots(&one.pointers, &other.pointers)
}

/// Whether a checkpoint tells the object, its making and the moment that a row tells, which is from
/// the making to the clock.
fn tells_the_row(row: &ImageRow, clock: Moment, checkpoint: &Checkpoint) -> bool
    ensures is { result ≡ true → TellsTheRow row.now clock checkpoint.now }
    ensures only { TellsTheRow row.now clock checkpoint.now → result ≡ true }
{
    checkpoint.object().number() == row.object.number()
        && checkpoint.moment().number() == row.checkpoint_moment.number()
        && row.created.number() <= row.checkpoint_moment.number()
        && row.checkpoint_moment.number() <= clock.number()
        && checkpoint.inode().created.number() == row.created.number()
}

/// The inode before all entries, from the one that a checkpoint tells. None where that has no place
/// among the inodes of the entries.
fn inode_before(checkpoint: &Inode, at: Moment, entries: &[Entry]) -> Option<Inode>
    requires { length checkpoint.now.pointers ≡ OBJECT_BLOCKS }
    ensures place { IfSome result (λ first. HasItsPlace at entries.now checkpoint.now) }
    ensures first { IfSome result
        (λ first. first ≡ undone_all (entries_by at entries.now) checkpoint.now) }
    ensures count { IfSome result (λ first. length first.pointers ≡ OBJECT_BLOCKS) }
    ensures only { IfNone result (HasItsPlace at entries.now checkpoint.now → ⊥) }
{
    let mut first = *checkpoint;
    undo_by(entries, at, &mut first);
    let mut again = first;
    redo_by(entries, at, &mut again);
    if !is_same_inode(&again, checkpoint) {
        return None;
    }
    Some(first)
}

/// The blank inode, where a row without a checkpoint has no checkpoint moment, and entries that
/// tell the making.
fn blank_before(row: &ImageRow, entries: &[Entry]) -> Option<Inode>
    ensures stands { IfSome result
        (λ first. (row.now.checkpoint_moment ≡ 0) × BeginsDead entries.now) }
    ensures first { IfSome result (λ first. first ≡ blank row.now.created) }
    ensures only { IfNone result ((row.now.checkpoint_moment ≡ 0) × BeginsDead entries.now → ⊥) }
{
    let Some(entry) = entries.first() else {
        return None;
    };
    if row.checkpoint_moment.number() != 0 {
        return None;
    }
    if entry.before().alive {
        return None;
    }
    Some(blank(row.created))
}

/// The inode before all entries of a row, from its checkpoint. None where that isn't there.
fn first_of_checkpoint<U: UsedBlocks>(
    used: &U,
    row: &ImageRow,
    clock: Moment,
    entries: &[Entry],
    place: Ptr,
) -> Option<Inode>
    requires { row.now.checkpoint ≡ Some place }
    ensures stands { IfSome result
        (λ first. CheckpointStands (U.used used.now) row.now clock entries.now place) }
    ensures first { IfSome result
        (λ first. first ≡ first_before (U.used used.now) row.now entries.now) }
    ensures count { IfSome result (λ first. length first.pointers ≡ OBJECT_BLOCKS) }
    ensures only { IfNone result
        (CheckpointStands (U.used used.now) row.now clock entries.now place → ⊥) }
{
    let Some(checkpoint) = read_checkpoint(used, row.object, place) else {
        return None;
    };
    if !tells_the_row(row, clock, &checkpoint) {
        return None;
    }
    let Some(first) = inode_before(checkpoint.inode(), row.checkpoint_moment, entries) else {
        return None;
    };
    Some(first)
}

/// The inode before all entries of a row. None where the row's beginning isn't there.
fn first_inode<U: UsedBlocks>(
    used: &U,
    row: &ImageRow,
    clock: Moment,
    entries: &[Entry],
) -> Option<Inode>
    ensures stands { IfSome result
        (λ first. BeginningStands (U.used used.now) row.now clock entries.now) }
    ensures first { IfSome result
        (λ first. first ≡ first_before (U.used used.now) row.now entries.now) }
    ensures count { IfSome result (λ first. length first.pointers ≡ OBJECT_BLOCKS) }
    ensures only { IfNone result (BeginningStands (U.used used.now) row.now clock entries.now → ⊥) }
{
    a_blank_inode_has_holes_alone();
    match row.checkpoint {
        None => blank_before(row, entries),
        Some(place) => first_of_checkpoint(used, row, clock, entries, place),
    }
}

/// Whether the checkpoint that a row names, where one is used there, is of an object that an image
/// of a version may have.
fn is_checkpoint_of<U: UsedBlocks>(version: ImageVersion, used: &U, row: &ImageRow) -> bool
    ensures is { result ≡ true
        → IsCheckpointOf version (checkpoint_used (U.used used.now) row.now) }
    ensures only { IsCheckpointOf version (checkpoint_used (U.used used.now) row.now)
        → result ≡ true }
{
    match version {
        ImageVersion::First => match checkpoint_of(used, row) {
            None => true,
            Some(checkpoint) => checkpoint.inode().size <= FIRST_OBJECT_BYTES as u32,
        },
        ImageVersion::Second => true,
    }
}

/// The inode before all entries of a row in an image of a version. None where the row's beginning
/// isn't there.
pub(crate) fn first_inode_by<U: UsedBlocks>(
    version: ImageVersion,
    used: &U,
    row: &ImageRow,
    clock: Moment,
    entries: &[Entry],
) -> Option<Inode>
    ensures stands { IfSome result
        (λ first. BeginningStandsBy version (U.used used.now) row.now clock entries.now) }
    ensures first { IfSome result
        (λ first. first ≡ first_before (U.used used.now) row.now entries.now) }
    ensures count { IfSome result (λ first. length first.pointers ≡ OBJECT_BLOCKS) }
    ensures only { IfNone result
        (BeginningStandsBy version (U.used used.now) row.now clock entries.now → ⊥) }
{
    if !is_checkpoint_of(version, used, row) {
        return None;
    }
    let Some(first) = first_inode(used, row, clock, entries) else {
        return None;
    };
    Some(first)
}
