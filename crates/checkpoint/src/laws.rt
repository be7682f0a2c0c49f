//! Laws of checkpoints, for the layers above: each function does nothing, and its contract is the
//! law.
ghost use Rattle.std.specs.Prelude.{◌≡◌, ℕ, ◌≤◌, true, length, map, is_some, Option, Some, IsSome};
ghost use Rattle.std.specs.List.{count_by};
ghost use Rattle.s4_types.specs.Pointer.{Place};
ghost use Rattle.s4_types.specs.declared.limits.TheConstants.{CHECKPOINT_BLOCKS};
ghost use Rattle.block_log.specs.Log.{Stored, same_place};
ghost use Rattle.codec.specs.Checkpoint.{CheckpointFields};
ghost use Rattle.codec.specs.declared.inodes.Inode.{Inode};
ghost use Rattle.checkpoint.specs.Held.{checkpoint_held, checkpoint_places, checkpoint_blocks};
ghost use Rattle.checkpoint.specs.Held.{of_checkpoints, is_one_of, HasItsBlocks, IsInBoth};

use block_log::laws::one_place_has_one_name;
use codec::part_laws::blocks_have_their_parts;

/// A checkpoint is in its own blocks.
///
/// `same` and `places`: where those are as they were, it is the same, and so are its places. `held`,
/// `first` and `once`: where it can be read, each of its blocks is held, they are at places apart,
/// and the pointer to it refers to one of them. `placed`, `some`, `few` and `holes`: they are as
/// many as its inode takes, at least one and no more than any takes, and how many is a matter of
/// which of its pointers are holes. `apart`: two checkpoints of an object that have a block in
/// common are of one moment.
pub fn a_checkpoint_is_in_its_blocks()
    ensures same { (held later : Place → Option Stored) (o : ℕ) (p : Place)
        → ((q : Place)
        → is_one_of (checkpoint_places held o p) q ≡ true
        → of_checkpoints o later q ≡ of_checkpoints o held q)
        → checkpoint_held later o p ≡ checkpoint_held held o p }
    ensures places { (held later : Place → Option Stored) (o : ℕ) (p : Place)
        → ((q : Place)
        → is_one_of (checkpoint_places held o p) q ≡ true
        → of_checkpoints o later q ≡ of_checkpoints o held q)
        → checkpoint_places later o p ≡ checkpoint_places held o p }
    ensures held { (held : Place → Option Stored) (o : ℕ) (p : Place)
        → IsSome (checkpoint_held held o p) → HasItsBlocks held o (Some p) }
    ensures first { (held : Place → Option Stored) (o : ℕ) (p : Place)
        → is_one_of (checkpoint_places held o p) p ≡ true }
    ensures once { (held : Place → Option Stored) (o : ℕ) (p q : Place)
        → IsSome (checkpoint_held held o p)
        → count_by (λ r. same_place r q) (checkpoint_places held o p) ≤ 1 }
    ensures placed { (held : Place → Option Stored) (o : ℕ) (p : Place) (c : CheckpointFields)
        → checkpoint_held held o p ≡ Some c
        → length (checkpoint_places held o p) ≡ checkpoint_blocks c.inode }
    ensures some { (i : Inode) → 1 ≤ checkpoint_blocks i }
    ensures few { (i : Inode) → checkpoint_blocks i ≤ CHECKPOINT_BLOCKS }
    ensures holes { (i j : Inode)
        → map is_some i.pointers ≡ map is_some j.pointers
        → checkpoint_blocks i ≡ checkpoint_blocks j }
    ensures apart { (held : Place → Option Stored) (o : ℕ) (p r q : Place)
        (c d : CheckpointFields)
        → checkpoint_held held o p ≡ Some c → checkpoint_held held o r ≡ Some d
        → IsInBoth held o p r q → c.moment ≡ d.moment }
{
    one_place_has_one_name();
    blocks_have_their_parts();
}
