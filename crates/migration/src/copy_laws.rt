//! Laws of copies: each function does nothing, and its contract is the law.
ghost use Rattle.std.specs.Prelude.{ℕ, ◌≤◌, List, [], length, unwrap_or};
ghost use Rattle.s4_types.specs.declared.limits.TheConstants.{MOST_FRAMES};
ghost use Rattle.codec.specs.declared.versions.ImageVersion.TheVariants.{Second};
ghost use Rattle.row_changes.specs.Laws.{AFreshRowStands, AMappedChainCanBeWritten};
ghost use Rattle.image_parts.specs.Image.{Image};
ghost use Rattle.image_parts.specs.Marks.{earlier_in};
ghost use Rattle.image_parts.specs.declared.marks.ImageMark.TheVariants.{Earlier, Third};
ghost use Rattle.verifier.specs.Grammar.{SpellsDrive};
ghost use Rattle.earlier_images.specs.Grammar.{SpellsEarlier};
ghost use Rattle.earlier_images.specs.Images.{EarlierFields, IsEarlierOf};
ghost use Rattle.migration.specs.declared.moves.Move.{Move};
ghost use Rattle.migration.specs.declared.copying.CopyAsked.{CopyAsked};
ghost use Rattle.migration.specs.Migrated.{IsTooMuch, LaysOut, Migrates, frames_then};
ghost use Rattle.migration.specs.Copies.{Copies, IsTooMuchToCopy, frames_allowed, frames_copied};
ghost use Rattle.migration.specs.private.CopyLaws.{CopyLaws};
ghost use Rattle.migration.specs.private.Left.{with_left, with_parts_left};
ghost use Rattle.migration.specs.private.Written.{IsLaid, IsSource};

use block_log::laws::{one_place_has_one_name, places_taken_add_up};
use chain_rewriting::mapping_laws::{
    a_mapped_chain_shows_the_same, a_mapped_chain_takes_as_many_bytes,
    a_mapped_chain_tells_of_mapped_places, a_mapped_run_is_a_run, mapped_entries_stay_in_order,
};
use chain_rewriting::renaming_laws::what_a_chain_tells;
use checkpoint::laws::a_checkpoint_is_in_its_blocks;
use earlier_images::laws::one_image_is_read;
use image_objects::saving_laws::{a_row_that_is_held_stands, a_saved_row_tells_the_same};
use image_objects::writing_laws::an_object_of_a_version_can_be_written;
use image_parts::laws::images_with_a_mark;
use inode::laws::only_its_blocks_matter;
use row_changes::laws::{
    a_fresh_row_stands, an_orderly_row_is_by_its_moment, what_a_row_tells_can_be_written,
};

/// An object whose data went by these moves keeps its history: its entries and its checkpoint with
/// their places mapped show at each moment what the old ones do, take as many blocks, and can be
/// written as those of an object that was just made.
pub(crate) fn a_copied_object_keeps_its_history()
    ensures moved { (moves : List Move) → CopyLaws moves }
    ensures fresh { AFreshRowStands }
    ensures written { AMappedChainCanBeWritten }
{
    one_place_has_one_name();
    places_taken_add_up();
    a_checkpoint_is_in_its_blocks();
    a_fresh_row_stands();
    what_a_chain_tells();
    what_a_row_tells_can_be_written();
    mapped_entries_stay_in_order();
    a_mapped_run_is_a_run();
    a_mapped_chain_shows_the_same();
    a_mapped_chain_takes_as_many_bytes();
    a_mapped_chain_tells_of_mapped_places();
    an_orderly_row_is_by_its_moment();
}

/// What was laid out of an image of an earlier version is the image that it becomes; and an image
/// whose frames are no more than there may be isn't too much.
pub(crate) fn what_was_written_is_migrated()
    ensures migrates { (bytes new : List ℕ) (was : Image) (old : EarlierFields)
        → SpellsEarlier bytes was → IsEarlierOf (earlier_in bytes) was old
        → IsLaid old [] (length old.frames) new → Migrates bytes new }
    ensures layout { (bytes new : List ℕ) (was : Image) (old : EarlierFields)
        → SpellsEarlier bytes was → IsEarlierOf (earlier_in bytes) was old
        → IsLaid old [] (length old.frames) new → LaysOut bytes new }
    ensures fits { (bytes : List ℕ) (was : Image) (old : EarlierFields)
        → SpellsEarlier bytes was → IsEarlierOf (earlier_in bytes) was old → frames_then old ≤ MOST_FRAMES
        → IsTooMuch bytes → ⊥ }
    ensures source { (bytes : List ℕ) (was : Image) (old : EarlierFields)
        → SpellsEarlier bytes was → IsEarlierOf (earlier_in bytes) was old
        → IsSource (Earlier (earlier_in bytes)) was old }
{
    a_saved_row_tells_the_same();
    a_row_that_is_held_stands();
    an_object_of_a_version_can_be_written();
    only_its_blocks_matter();
    mapped_entries_stay_in_order();
    images_with_a_mark();
    one_image_is_read();
}

/// What was laid out of the rows that stay is a copy; and an image whose copy has no more frames
/// than it may have isn't too much.
pub(crate) fn what_was_laid_out_is_a_copy()
    ensures copies { (asked : CopyAsked) (bytes new : List ℕ) (was : Image) (image : EarlierFields)
        → SpellsDrive bytes was → IsEarlierOf Second was image
        → frames_copied asked image ≤ frames_allowed asked
        → IsLaid (with_left asked image) was.audit
        (unwrap_or asked.frames (length image.frames)) new
        → Copies asked bytes new }
    ensures fits { (asked : CopyAsked) (bytes : List ℕ) (was : Image) (image : EarlierFields)
        → SpellsDrive bytes was → IsEarlierOf Second was image
        → frames_copied asked image ≤ frames_allowed asked
        → IsTooMuchToCopy asked bytes → ⊥ }
    ensures source { (asked : CopyAsked) (bytes : List ℕ) (was : Image) (image : EarlierFields)
        → SpellsDrive bytes was → IsEarlierOf Second was image
        → IsSource Third (with_parts_left asked was) (with_left asked image) }
{
    a_saved_row_tells_the_same();
    a_row_that_is_held_stands();
    an_object_of_a_version_can_be_written();
    only_its_blocks_matter();
    mapped_entries_stay_in_order();
    images_with_a_mark();
    one_image_is_read();
}
