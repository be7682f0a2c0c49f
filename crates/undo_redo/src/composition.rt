ghost use Rattle.std.specs.Prelude.{◌≡◌, ◌↔◌, true, IsSome, IfSome};
ghost use Rattle.codec.specs.declared.inodes.Inode.{Inode as InodeFields};
ghost use Rattle.codec.specs.Fields.{Reads};
ghost use Rattle.undo_redo.specs.Runs.{Run, AllAt, last_moment, told_first, told_last};
ghost use Rattle.undo_redo.specs.Groups.{grouped};
ghost use Rattle.undo_redo.specs.Between.{CanLead, entries_between};
ghost use Rattle.undo_redo.specs.private.Checking.{checked_between};

use crate::between::{OtherEntries, leading_entry};
use crate::links::{blank, redo_all, undo_all};
use crate::pieces::piece_from;
use arrayvec::ArrayVec;
use codec::{Entry, Inode};
use s4_types::Moment;
use s4_types::limits::{CHANGE_ENTRIES, OBJECT_BLOCKS};

/// The entries of one change: one, and one more for each piece of pointers for which the first has
/// no room.
pub type Entries = ArrayVec<Entry, CHANGE_ENTRIES>;

/// The entries, of the last one's moment, that lead where a run of entries leads: from the first
/// one's values before to the last one's values after.
///
/// None where there are no entries, and where no entries of the last one's moment can lead there:
/// the run ends dead, and it began dead or changed more than the flag.
pub fn compose(entries: &[Entry]) -> Option<Entries>
    ensures exact { (i j : InodeFields) → Run i entries.now j
        → IfSome result (λ made. made.items ≡ entries_between i j (last_moment 0 entries.now)) }
    ensures run { (i j : InodeFields) → Run i entries.now j
        → IfSome result (λ made. Run i made.items j) }
    ensures some { (i j : InodeFields) → Run i entries.now j
        → IsSome result ↔ CanLead i j (last_moment 0 entries.now) }
    ensures group { IfSome result (λ made. grouped made.items ≡ true) }
    ensures moments { IfSome result (λ made. AllAt (last_moment 0 entries.now) made.items) }
{
    let Some(last) = entries.last() else {
        return None;
    };
    composed(entries, last.moment())
}

/// What no entry of the run tells is equal in its first and its last inode. So the entries between
/// these are those between two inodes that are blank there.
fn composed(entries: &[Entry], moment: Moment) -> Option<Entries>
    ensures { Reads (λ made. made.items) result
        (checked_between (told_first entries.now) (told_last entries.now) moment) }
{
    let mut before = blank(Moment::new(0));
    undo_all(entries, &mut before);
    let mut after = before;
    redo_all(entries, &mut after);
    told_between(&before, &after, moment)
}

/// The entries that lead from an inode to another. None where the first of them would break a rule
/// of entries.
fn told_between(before: &Inode, after: &Inode, moment: Moment) -> Option<Entries>
    ensures { Reads (λ entries. entries.items) result
        (checked_between before.now after.now moment) }
{
    let (triples, from) = piece_from(before, after, 0, OBJECT_BLOCKS);
    let Some(leading) = leading_entry(before, after, moment, triples) else {
        return None;
    };
    let mut entries = Entries::new();
    entries.push(leading);
    for entry in OtherEntries::new(before, after, moment, from, OBJECT_BLOCKS) {
        entries.push(entry);
    }
    Some(entries)
}
