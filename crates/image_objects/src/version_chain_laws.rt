//! Laws of chains that are in an image, for the layers above: each function does nothing, and its
//! contract is the law.
ghost use Rattle.std.specs.Prelude.{◌≡◌, ℕ, ◌≤◌, Option};
ghost use Rattle.s4_types.specs.Pointer.{Place};
ghost use Rattle.block_log.specs.Log.{Stored, of_kind};
ghost use Rattle.block_log.specs.declared.kinds.BlockKind.TheVariants.{Journal};
ghost use Rattle.checkpoint.specs.Held.{of_checkpoints};
ghost use Rattle.journal_chain.specs.Chain.{Holds};
ghost use Rattle.image_objects.specs.Chains.{ChainStands, entries_used, chain_fields, chain_view};
ghost use Rattle.image_objects.specs.VersionChain.{VersionChainStands, checkpoint_view, kept_row};
ghost use Rattle.time_read.specs.Rows.{IsRow};
ghost use Rattle.time_read.specs.Orderly.{IsFromTo, IsOrderly};
ghost use Rattle.image_objects.specs.declared.rows.ImageRow.{ImageRow};

use block_log::laws::one_place_has_one_name;
use checkpoint::laws::a_checkpoint_is_in_its_blocks;
use journal_chain::laws::a_chain_is_in_its_journal_blocks;
use journal_chain::packing::laws::one_packing_keeps_the_rule;

/// A chain that is in an image is held, with its entries, wherever of the object's journal blocks
/// those of the chain alone are: none of them is in the chain twice.
pub fn a_chain_that_stands_is_held()
    ensures { (used held : Place → Option Stored) (row : ImageRow) (clock : ℕ) → ChainStands used row clock
        → ((p : Place) → of_kind Journal row.object held p ≡ chain_view used row p)
        → Holds held (chain_fields used row) (entries_used used row) }
{
    one_place_has_one_name();
    one_packing_keeps_the_rule();
}

/// A row whose version chain is in an image is a row of a drive, and in order up to the clock,
/// wherever of the object's journal blocks those of its chain alone are held, and of those of its
/// checkpoints the ones alone of that which it names.
pub fn a_version_chain_that_stands_is_a_row()
    ensures row { (used held : Place → Option Stored) (row : ImageRow) (clock stamp : ℕ) → 1 ≤ row.object → VersionChainStands used row clock
        → ((p : Place) → of_kind Journal row.object held p ≡ chain_view used row p)
        → ((p : Place) → of_checkpoints row.object held p ≡ checkpoint_view used row p)
        → IsRow held row.object (kept_row used row stamp) }
    ensures order { (used held : Place → Option Stored) (row : ImageRow) (clock stamp : ℕ) → IsFromTo 1 clock row.created → VersionChainStands used row clock
        → ((p : Place) → of_kind Journal row.object held p ≡ chain_view used row p)
        → ((p : Place) → of_checkpoints row.object held p ≡ checkpoint_view used row p)
        → IsOrderly held row.object (kept_row used row stamp) clock }
{
    one_place_has_one_name();
    a_checkpoint_is_in_its_blocks();
    one_packing_keeps_the_rule();
    a_chain_is_in_its_journal_blocks();
}
