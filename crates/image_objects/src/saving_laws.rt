//! Laws of the rows of a store that are saved as an image's: each function does nothing, and its
//! contract is the law.
ghost use Rattle.std.specs.Prelude.{◌≡◌, ℕ, ◌≤◌, Option, Some};
ghost use Rattle.s4_types.specs.Pointer.{Place};
ghost use Rattle.block_log.specs.Log.{Stored};
ghost use Rattle.object_map.specs.declared.map.Row.{Row};
ghost use Rattle.time_read.specs.Rows.{IsRow};
ghost use Rattle.time_read.specs.Orderly.{IsOrderly};
ghost use Rattle.version_store.specs.Store.{IsObject, IsStore, StoreFields};
ghost use Rattle.image_objects.specs.Objects.{ObjectStands};
ghost use Rattle.image_objects.specs.Rows.{RowsAscend, RowsStand};
ghost use Rattle.image_objects.specs.Saved.{HoldsUsed, HoldsWhatIsSaved, IsSavedAsHeld};
ghost use Rattle.image_objects.specs.Saved.{ObjectsAscend, saved_row, saved_rows};

use checkpoint::laws::a_checkpoint_is_in_its_blocks;
use inode::laws::only_its_blocks_matter;
use journal_chain::packing::laws::packing_keeps_the_rule;
use row_changes::laws::a_row_keeps_the_making;
use time_read::laws::an_orderly_row_stays;
use undo_redo::laws::entries_determine_a_run;
use version_store::laws::what_is_held_is_what_rows_name;

/// Where what is held is used, a row of a drive that is saved as an image's tells the same as
/// before.
pub fn a_saved_row_tells_the_same()
    ensures { (used held : Place → Option Stored) (o : ℕ) (row : Row) → HoldsUsed used held
        → IsRow held o row → IsSavedAsHeld used held o row }
{
    a_checkpoint_is_in_its_blocks();
}

/// Where what is held is used, an object that is held is in the image under the row that its own is
/// saved as, up to each clock from the last change on.
pub fn a_row_that_is_held_stands()
    ensures { (used held : Place → Option Stored) (o latest clock : ℕ) (row : Row) → HoldsUsed used held → IsObject held o row latest → IsOrderly held o row latest → latest ≤ clock
        → ObjectStands used (saved_row o row) clock }
{
    a_checkpoint_is_in_its_blocks();
    packing_keeps_the_rule();
    entries_determine_a_run();
    a_row_keeps_the_making();
    an_orderly_row_stays();
    only_its_blocks_matter();
}

/// Where what a store holds is used, and its rows are listed by ascending object, they ascend and
/// are as an image's, up to each clock from the last change on.
pub fn a_store_stands_in_its_image()
    ensures stand { (used : Place → Option Stored) (s : StoreFields) (low clock : ℕ) → IsStore s → s.latest ≤ clock → HoldsUsed used s.log.held → ObjectsAscend low s.rows
        → RowsStand used (saved_rows s.rows) clock }
    ensures ascend { (used : Place → Option Stored) (s : StoreFields) (low clock : ℕ) → IsStore s → s.latest ≤ clock → HoldsUsed used s.log.held → ObjectsAscend low s.rows
        → RowsAscend clock 0 0 (saved_rows s.rows) }
{
    a_checkpoint_is_in_its_blocks();
    a_row_that_is_held_stands();
}

/// And of the used blocks just those are held that the rows of the image name, and those of older
/// checkpoints.
pub fn what_is_held_is_what_saved_rows_name()
    ensures { (used : Place → Option Stored) (s : StoreFields) (low : ℕ) → IsStore s → HoldsUsed used s.log.held → ObjectsAscend low s.rows
        → HoldsWhatIsSaved used s }
{
    a_checkpoint_is_in_its_blocks();
    what_is_held_is_what_rows_name();
}
