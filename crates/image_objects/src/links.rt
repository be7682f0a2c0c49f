//! Whether entries lead on from an inode.
ghost use Rattle.std.specs.Prelude.{◌≡◌, ◌<◌, true, IfSome, length};
ghost use Rattle.std.specs.List.{All, list_all};
ghost use Rattle.s4_types.specs.declared.limits.TheConstants.{OBJECT_BLOCKS};
ghost use Rattle.codec.specs.declared.inodes.Inode.{Inode as InodeFields};
ghost use Rattle.codec.specs.Entry.{same_slot};
ghost use Rattle.undo_redo.specs.Linked.{StandsBefore, status_of};
ghost use Rattle.undo_redo.specs.Runs.{Run, redone_all};
ghost use Rattle.image_objects.specs.private.Standing.{is_earlier};

use codec::{Entry, Inode, Pair, Status, Triple};
use s4_types::Ptr;
use undo_redo::laws::{a_link_is_an_entry_redone_or_undone, entries_determine_a_run};
use undo_redo::redo;

pub(crate) fn is_same_slot(one: Option<Ptr>, other: Option<Ptr>) -> bool
    ensures { result ≡ same_slot one other }
{
    match (one, other) {
        (None, None) => true,
        (Some(one), Some(other)) => {
            one.frame() == other.frame()
                && one.block() == other.block()
                && one.generation() == other.generation()
        }
        _ => false,
    }
}

/// Whether an inode has the earlier pointer of a triple at its index.
fn is_earlier(inode: &Inode, triple: &Triple) -> bool
    requires { triple.now.index < OBJECT_BLOCKS }
    ensures { result ≡ is_earlier inode.now triple.now }
{
    is_same_slot(inode.pointers[triple.index as usize], triple.before)
}

/// The same of each of these triples.
fn are_earlier(inode: &Inode, triples: &[Triple]) -> bool
    requires { All (λ t. t.index < OBJECT_BLOCKS) triples.now }
    ensures { result ≡ list_all (is_earlier inode.now) triples.now }
{
    for triple in triples {
        if !is_earlier(inode, triple) {
            return false;
        }
    }
    true
}

pub(crate) fn has_status(inode: &Inode, status: Status) -> bool
    ensures is { result ≡ true → status_of inode.now ≡ status }
    ensures only { status_of inode.now ≡ status → result ≡ true }
{
    inode.alive == status.alive
        && inode.size == status.size
        && inode.changed.number() == status.changed.number()
}

/// Whether an inode has the earlier attribute of a pair, where there is one.
fn has_attribute(inode: &Inode, pair: Option<Pair>) -> bool
    ensures is { result ≡ true → IfSome pair (λ p. inode.now.attribute ≡ p.before) }
    ensures only { IfSome pair (λ p. inode.now.attribute ≡ p.before) → result ≡ true }
{
    match pair {
        None => true,
        Some(pair) => inode.attribute.as_slice() == pair.before.as_slice(),
    }
}

/// Whether an entry's values before are those of an inode.
#[tactic(auto, using(undo_redo::proofs::Indices::are_low))]
pub(crate) fn stands_before(inode: &Inode, entry: &Entry) -> bool
    requires { length inode.now.pointers ≡ OBJECT_BLOCKS }
    ensures stands { result ≡ true → StandsBefore inode.now entry.now }
    ensures only { StandsBefore inode.now entry.now → result ≡ true }
{
    let status = entry.before();
    if !has_status(inode, status) {
        return false;
    }
    let pair = entry.pair();
    if !has_attribute(inode, pair) {
        return false;
    }
    are_earlier(inode, entry.triples())
}

/// Whether entries lead on from a first inode, each from the one that the entry before it refers
/// to.
pub(crate) fn is_run(first: &Inode, entries: &[Entry]) -> bool
    requires { length first.now.pointers ≡ OBJECT_BLOCKS }
    ensures run { result ≡ true → Run first.now entries.now (redone_all entries.now first.now) }
    ensures only { (last : InodeFields) → Run first.now entries.now last → result ≡ true }
{
    a_link_is_an_entry_redone_or_undone();
    entries_determine_a_run();
    let mut inode = *first;
    for entry in entries {
        if !stands_before(&inode, entry) {
            return false;
        }
        redo(entry, &mut inode);
    }
    true
}
