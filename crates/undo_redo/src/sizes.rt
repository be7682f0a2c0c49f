ghost use Rattle.std.specs.Prelude.{◌≡◌, ◌≤◌, ◌+◌, ◌*◌, ◌++◌, length};
ghost use Rattle.s4_types.specs.declared.limits.TheConstants.{ENTRY_TRIPLES, OBJECT_BLOCKS};
ghost use Rattle.s4_types.specs.declared.limits.TheConstants.{ATTRIBUTE_PAIR_BYTES};
ghost use Rattle.undo_redo.specs.Sizes.{later_sizes, entry_sizes};

use arrayvec::ArrayVec;
use s4_types::limits::{CHANGE_ENTRIES, ENTRY_TRIPLES, SHORTEST_ENTRY_BYTES, TRIPLE_BYTES};

/// The numbers of bytes of the entries of one change.
pub type Sizes = ArrayVec<usize, CHANGE_ENTRIES>;

/// How many bytes each entry between two inodes has of which `triples` pointers differ, where the
/// pair of their attributes takes `pair_bytes`: 0 where these are equal, else both attributes after
/// a byte each.
pub fn entry_sizes(triples: usize, pair_bytes: usize) -> Sizes
    requires pointers { triples ≤ OBJECT_BLOCKS }
    requires pair { pair_bytes ≤ ATTRIBUTE_PAIR_BYTES }
    ensures { result.items ≡ entry_sizes triples pair_bytes }
{
    let mut sizes = Sizes::new();
    sizes.push(SHORTEST_ENTRY_BYTES + pair_bytes + TRIPLE_BYTES * triples.min(ENTRY_TRIPLES));
    push_later(&mut sizes, triples.saturating_sub(ENTRY_TRIPLES));
    sizes
}

/// The sizes of the entries of further pointers.
fn push_later(sizes: &mut Sizes, triples: usize)
    requires room { ENTRY_TRIPLES * length sizes.old.items + triples ≤ OBJECT_BLOCKS }
    ensures { sizes.new.items ≡ sizes.old.items ++ later_sizes triples triples }
{
    let mut rest = triples;
    while rest > 0 {
        sizes.push(SHORTEST_ENTRY_BYTES + TRIPLE_BYTES * rest.min(ENTRY_TRIPLES));
        rest = rest.saturating_sub(ENTRY_TRIPLES);
    }
}
