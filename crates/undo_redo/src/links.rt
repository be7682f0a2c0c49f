ghost use Rattle.std.specs.Prelude.{◌≡◌, ◌<◌, []};
ghost use Rattle.std.specs.List.{All};
ghost use Rattle.s4_types.specs.declared.limits.TheConstants.{OBJECT_BLOCKS};
ghost use Rattle.codec.specs.declared.inodes.Inode.{Inode as InodeFields};
ghost use Rattle.codec.specs.Checkpoint.{holes};
ghost use Rattle.undo_redo.specs.Linked.{Linked, StandsBefore, StandsAfter};
ghost use Rattle.undo_redo.specs.Redone.{redone, undone, with_after, with_before};
ghost use Rattle.undo_redo.specs.Runs.{Run, blank, redone_all, undone_all};

use codec::{Attribute, Entry, Inode, Triple};
use s4_types::limits::OBJECT_BLOCKS;
use s4_types::{Moment, Ptr};

/// Makes of an inode what the entry made of it. Where the entry's values before are the inode's,
/// the entry links the two.
#[tactic(auto, using(crate::proofs::LinkLaws::linked_redone, crate::proofs::LinkLaws::is_redone))]
pub fn redo(entry: &Entry, inode: &mut Inode)
    ensures exact { inode.new ≡ redone entry.now inode.old }
    ensures link { StandsBefore inode.old entry.now → Linked inode.old entry.now inode.new }
    ensures only { (next : InodeFields) → Linked inode.old entry.now next → inode.new ≡ next }
{
    put_after(entry, inode);
}

#[tactic(auto, using(crate::proofs::Indices::are_low), unfolding(crate::specs::Redone::redone))]
fn put_after(entry: &Entry, inode: &mut Inode)
    ensures { inode.new ≡ redone entry.now inode.old }
{
    let after = entry.after();
    inode.alive = after.alive;
    inode.size = after.size;
    inode.changed = after.changed;
    if let Some(pair) = entry.pair() {
        inode.attribute = pair.after;
    }
    put_later_pointers(entry.triples(), &mut inode.pointers);
}

fn put_later_pointers(triples: &[Triple], pointers: &mut [Option<Ptr>; OBJECT_BLOCKS])
    requires { All (λ t. t.index < OBJECT_BLOCKS) triples.now }
    ensures { pointers.new ≡ with_after triples.now pointers.old }
{
    for triple in triples {
        pointers[triple.index as usize] = triple.after;
    }
}

/// Makes of an inode what it was before the entry. Where the entry's values after are the inode's,
/// the entry links the two.
#[tactic(auto, using(crate::proofs::LinkLaws::linked_undone, crate::proofs::LinkLaws::is_undone))]
pub fn undo(entry: &Entry, inode: &mut Inode)
    ensures exact { inode.new ≡ undone entry.now inode.old }
    ensures link { StandsAfter entry.now inode.old → Linked inode.new entry.now inode.old }
    ensures only { (previous : InodeFields)
        → Linked previous entry.now inode.old → inode.new ≡ previous }
{
    put_before(entry, inode);
}

#[tactic(auto, using(crate::proofs::Indices::are_low), unfolding(crate::specs::Redone::undone))]
fn put_before(entry: &Entry, inode: &mut Inode)
    ensures { inode.new ≡ undone entry.now inode.old }
{
    let before = entry.before();
    inode.alive = before.alive;
    inode.size = before.size;
    inode.changed = before.changed;
    if let Some(pair) = entry.pair() {
        inode.attribute = pair.before;
    }
    put_earlier_pointers(entry.triples(), &mut inode.pointers);
}

fn put_earlier_pointers(triples: &[Triple], pointers: &mut [Option<Ptr>; OBJECT_BLOCKS])
    requires { All (λ t. t.index < OBJECT_BLOCKS) triples.now }
    ensures { pointers.new ≡ with_before triples.now pointers.old }
{
    for triple in triples {
        pointers[triple.index as usize] = triple.before;
    }
}

/// Does all entries again, the first one first.
#[tactic(auto, using(crate::proofs::RunLaws::run_end))]
pub fn redo_all(entries: &[Entry], inode: &mut Inode)
    ensures exact { inode.new ≡ redone_all entries.now inode.old }
    ensures only { (last : InodeFields) → Run inode.old entries.now last → inode.new ≡ last }
{
    put_all_after(entries, inode);
}

fn put_all_after(entries: &[Entry], inode: &mut Inode)
    ensures { inode.new ≡ redone_all entries.now inode.old }
{
    for entry in entries {
        redo(entry, inode);
    }
}

/// Undoes all entries, the last one first.
#[tactic(auto, using(crate::proofs::RunLaws::run_beginning))]
pub fn undo_all(entries: &[Entry], inode: &mut Inode)
    ensures exact { inode.new ≡ undone_all entries.now inode.old }
    ensures only { (first : InodeFields) → Run first entries.now inode.old → inode.new ≡ first }
{
    put_all_before(entries, inode);
}

#[tactic(auto, using(crate::proofs::RunLaws::push_undone))]
fn put_all_before(entries: &[Entry], inode: &mut Inode)
    ensures { inode.new ≡ undone_all entries.now inode.old }
{
    for entry in entries.iter().rev() {
        undo(entry, inode);
    }
}

/// The inode of an object before it is made: dead, with no size, attribute or pointer.
#[tactic(auto, unfolding(crate::specs::Runs::blank))]
pub fn blank(created: Moment) -> Inode
    ensures { result ≡ blank created }
{
    Inode {
        alive: false,
        size: 0,
        created,
        changed: Moment::new(0),
        attribute: no_attribute(),
        pointers: holes(),
    }
}

fn no_attribute() -> Attribute
    ensures { result ≡ [] }
{
    Attribute::new(&[]).unwrap()
}

#[tactic(auto, unfolding(codec::specs::Checkpoint::holes))]
fn holes() -> [Option<Ptr>; OBJECT_BLOCKS]
    ensures { result ≡ holes OBJECT_BLOCKS }
{
    [None; OBJECT_BLOCKS]
}
