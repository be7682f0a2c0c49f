ghost use Rattle.std.specs.Prelude.{◌≡◌, ◌<◌, ◌≤◌, ◌+◌, ◌++◌, [], ◌∷◌, if◌then◌else◌, length, take};
ghost use Rattle.std.specs.Prelude.{drop};
ghost use Rattle.s4_types.specs.declared.limits.TheConstants.{ENTRY_TRIPLES, OBJECT_BLOCKS};
ghost use Rattle.codec.specs.Entry.{same_slot};
ghost use Rattle.undo_redo.specs.Linked.{status_of};
ghost use Rattle.undo_redo.specs.Between.{pair_between, triple_between, tells_apart};
ghost use Rattle.undo_redo.specs.private.Further.{AreSameFrom, triples_from};

use codec::{Attribute, Inode, Pair, PointerIndex, Status, Triple, Triples};
use s4_types::Ptr;
use s4_types::limits::ENTRY_TRIPLES;

pub(crate) fn status_of(inode: &Inode) -> Status
    ensures { result ≡ status_of inode.now }
{
    Status {
        alive: inode.alive,
        size: inode.size,
        changed: inode.changed,
    }
}

pub(crate) fn pair_between(before: Attribute, after: Attribute) -> Option<Pair>
    ensures { result ≡ pair_between before after }
{
    if before.as_slice() == after.as_slice() {
        return None;
    }
    Some(Pair { before, after })
}

fn is_same_slot(one: Option<Ptr>, other: Option<Ptr>) -> bool
    ensures { result ≡ same_slot one other }
{
    match (one, other) {
        (None, None) => true,
        (Some(one), Some(other)) => one == other,
        _ => false,
    }
}

fn triple_at(before: &Inode, after: &Inode, index: usize) -> Triple
    requires { index < OBJECT_BLOCKS }
    ensures { result ≡ triple_between before.now after.now index }
{
    Triple {
        index: index as PointerIndex,
        before: before.pointers[index],
        after: after.pointers[index],
    }
}

/// Appends the triple where its two pointers differ.
fn push_apart(triples: &mut Triples, triple: Triple)
    requires { length triples.old.items < ENTRY_TRIPLES }
    ensures items { triples.new.items
        ≡ triples.old.items ++ (if tells_apart triple then triple ∷ [] else []) }
    ensures len { length triples.new.items ≤ length triples.old.items + 1 }
{
    if !is_same_slot(triple.before, triple.after) {
        triples.push(triple);
    }
}

/// The pointers that differ from an index on, by ascending index, as many as one entry has room
/// for; and the index from which on the others differ. From an end on none differs, so these
/// aren't compared.
pub(crate) fn piece_from(before: &Inode, after: &Inode, from: usize, end: usize) -> (Triples, usize)
    requires from { from ≤ OBJECT_BLOCKS }
    requires end { end ≤ OBJECT_BLOCKS }
    requires same { AreSameFrom end before.now after.now }
    ensures piece { result.0.items ≡ take ENTRY_TRIPLES (triples_from from before.now after.now) }
    ensures others { triples_from result.1 before.now after.now
        ≡ drop ENTRY_TRIPLES (triples_from from before.now after.now) }
    ensures end { result.1 ≤ OBJECT_BLOCKS }
{
    let mut triples = Triples::new();
    for index in from..end {
        if triples.len() >= ENTRY_TRIPLES {
            return (triples, index);
        }
        push_apart(&mut triples, triple_at(before, after, index));
    }
    (triples, end)
}
