//! Whether the inodes of a chain are in order.
ghost use Rattle.std.specs.Prelude.{◌≡◌, ◌<◌, ◌||◌, true, false, length};
ghost use Rattle.std.specs.List.{AllByRecursion};
ghost use Rattle.s4_types.specs.declared.limits.TheConstants.{OBJECT_BLOCKS};
ghost use Rattle.time_read.specs.Orderly.{IsFromTo, IsOrderlyChain};
ghost use Rattle.undo_redo.specs.Runs.{blank};

use crate::inodes::is_same_inode;
use codec::{Entry, Inode};
use s4_types::Moment;
use undo_redo::laws::a_blank_inode_has_holes_alone;
use undo_redo::{blank, redo};

/// Whether the last change of an inode is from a moment to a later one, where the inode is live.
fn is_timely(inode: &Inode, created: Moment, clock: Moment) -> bool
    ensures is { result ≡ true → inode.now.alive ≡ true → IsFromTo created clock inode.now.changed }
    ensures only { (inode.now.alive ≡ true → IsFromTo created clock inode.now.changed)
        → result ≡ true }
{
    if !inode.alive {
        return true;
    }
    created.number() <= inode.changed.number() && inode.changed.number() <= clock.number()
}

/// Whether a first inode is blank, where it is dead.
fn begins_blank(first: &Inode, created: Moment) -> bool
    requires { length first.now.pointers ≡ OBJECT_BLOCKS }
    ensures is { result ≡ true → first.now.alive ≡ false → first.now ≡ blank created }
    ensures only { (first.now.alive ≡ false → first.now ≡ blank created) → result ≡ true }
{
    a_blank_inode_has_holes_alone();
    if first.alive {
        return true;
    }
    is_same_inode(first, &blank(created))
}

/// Whether an inode may be in front of this many entries: a dead one in front of none.
fn may_stand(inode: &Inode, left: usize) -> bool
    ensures is { result ≡ true → 0 < left → inode.now.alive ≡ true }
    ensures only { (0 < left → inode.now.alive ≡ true) → result ≡ true }
{
    left == 0 || inode.alive
}

/// Whether an inode is live, or one before it was.
fn is_live_by(before: bool, inode: &Inode) -> bool
    ensures { result ≡ (before || inode.now.alive) }
{
    before || inode.alive
}

/// Whether the inodes that entries lead to from a first one are in order up to a clock: the last
/// change of each live one is from the making to the clock, a dead one is the first or the last,
/// the first is blank where it is dead, and one is live.
pub(crate) fn is_orderly(first: &Inode, entries: &[Entry], created: Moment, clock: Moment) -> bool
    requires count { length first.now.pointers ≡ OBJECT_BLOCKS }
    requires moments { AllByRecursion (λ e. IsFromTo created clock e.moment) entries.now }
    ensures is { result ≡ true → IsOrderlyChain created clock first.now entries.now }
    ensures only { IsOrderlyChain created clock first.now entries.now → result ≡ true }
{
    if !begins_blank(first, created) {
        return false;
    }
    if !is_timely(first, created, clock) {
        return false;
    }
    let mut inode = *first;
    let mut live = first.alive;
    let mut left = entries.len();
    for entry in entries {
        redo(entry, &mut inode);
        left -= 1;
        if !is_timely(&inode, created, clock) {
            return false;
        }
        if !may_stand(&inode, left) {
            return false;
        }
        live = is_live_by(live, &inode);
    }
    live
}
