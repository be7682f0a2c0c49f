//! Laws of the objects of an image, for the layers above: each function does nothing, and its
//! contract is the law.
ghost use Rattle.std.specs.Prelude.{◌≡◌, ◌↔◌, ℕ, ◌+◌, ◌^◌, ◌<◌, ◌≤◌, ◌==◌, if◌then◌else◌, true};
ghost use Rattle.std.specs.Prelude.{List, [], ◌∷◌, ◌++◌, length, slice_index, Option, Some, None, IsSome};
ghost use Rattle.std.specs.List.{AllByRecursion, Contains};
ghost use Rattle.std.specs.List.Sorted.{IsPermutation, IsSorted};
ghost use Rattle.std.specs.Ordering.{nat_cmp};
ghost use Rattle.s4_types.specs.Pointer.{Place};
ghost use Rattle.s4_types.specs.declared.limits.TheConstants.{ROW_POINTERS};
ghost use Rattle.block_log.specs.Log.{Log, Stored, of_kind, NamesAreOfData};
ghost use Rattle.block_log.specs.declared.kinds.BlockKind.{BlockKind};
ghost use Rattle.block_log.specs.declared.kinds.BlockKind.TheVariants.{Journal, Data};
ghost use Rattle.checkpoint.specs.Held.{HasItsBlocks, of_checkpoints};
ghost use Rattle.codec.specs.Entry.{EntryFields};
ghost use Rattle.codec.specs.declared.versions.ImageVersion.{ImageVersion as Version};
ghost use Rattle.undo_redo.specs.Groups.{grouped};
ghost use Rattle.undo_redo.specs.Runs.{last_moment};
ghost use Rattle.object_map.specs.declared.map.Row.{Row};
ghost use Rattle.object_map.specs.Rows.{row_of};
ghost use Rattle.version_store.specs.Store.{IsStore};
ghost use Rattle.image_objects.specs.declared.rows.ImageRow.{ImageRow};
ghost use Rattle.image_objects.specs.Chains.{chain_view, entries_used};
ghost use Rattle.image_objects.specs.VersionChain.{checkpoint_view, kept_row};
ghost use Rattle.image_objects.specs.Objects.{ObjectStands, pointers_used};
ghost use Rattle.image_objects.specs.Naming.{HoldsWhatIsNamed, NamesAreCounted, NamesUsed, times_told};
ghost use Rattle.image_objects.specs.Rows.{RowsAscend, RowsStand, kept_rows};
ghost use Rattle.image_objects.specs.Moments.{moments_of_chain, moments_of, moments_used};
ghost use Rattle.image_objects.specs.Moments.{ChainsShareNoMoment, StandOnce};
ghost use Rattle.image_objects.specs.Versions.{RowsStandBy, moments_used_by};
ghost use Rattle.image_objects.specs.Laws.{IsHeldAsUsed, InodesUsedPointToWhatRowsLeadTo};

use crate::version_chain_laws::{
    a_chain_that_stands_is_held, a_version_chain_that_stands_is_a_row,
};
use block_log::laws::one_place_has_one_name;
use checkpoint::laws::a_checkpoint_is_in_its_blocks;
use inode::laws::only_its_blocks_matter;
use journal_chain::laws::a_chain_is_in_its_journal_blocks;
use row_changes::laws::an_orderly_row_is_by_its_moment;
use time_read::laws::the_last_inode_is_current;
use undo_redo::laws::groups_part_at_a_moment;
use version_store::laws::{inodes_point_to_what_rows_name, places_have_few_names};

/// Where just what rows name is held, these blocks are held of an object that has one of the rows,
/// each as it is used: of its journal those of the row's chain, of its checkpoints those of the one
/// that the row names, first block and parts, and of its data those that the row refers to.
pub fn what_is_named_is_held_of_each()
    ensures journal { (used held : Place → Option Stored) (rows : List ImageRow) (clock : ℕ) (row : ImageRow) → RowsAscend clock 0 0 rows → HoldsWhatIsNamed used held rows → Contains rows row
        → (p : Place) → of_kind Journal row.object held p ≡ chain_view used row p }
    ensures checkpoint { (used held : Place → Option Stored) (rows : List ImageRow) (clock : ℕ) (row : ImageRow) → RowsAscend clock 0 0 rows → HoldsWhatIsNamed used held rows → Contains rows row
        → (p : Place) → of_checkpoints row.object held p ≡ checkpoint_view used row p }
    ensures data { (used held : Place → Option Stored) (rows : List ImageRow) (clock : ℕ) (row : ImageRow) → RowsAscend clock 0 0 rows → HoldsWhatIsNamed used held rows → Contains rows row
        → (p : Place) (bytes : List ℕ)
        → (of_kind Data row.object held p ≡ Some bytes)
        ↔ ((of_kind Data row.object used p ≡ Some bytes)
        × Contains (pointers_used used row) (Some p)) }
{}

/// Each data block that an inode of an image's row points to, at whatever moment, is one that the
/// row refers to.
pub fn inodes_used_point_to_what_rows_lead_to()
    ensures { InodesUsedPointToWhatRowsLeadTo }
{
    inodes_point_to_what_rows_name();
}

/// Rows that stand make a store.
///
/// `listed`, `only`, `none` and `above`: the rows that a drive keeps of an image's are found by their
/// objects: each row of the image, and no other; so none of an object above all of them.
///
/// Where all rows of an image stand and just what they name is held: `object`: each of their objects
/// is held as it is in the image. `few`: no place is in their pointers more than `ROW_POINTERS`
/// times. `store`: where each data block also has as many names as their pointers refer to it, they
/// make a store of a drive, whose last change was at the clock: of places that are fewer than 2^46,
/// counted with those ahead.
pub fn rows_that_stand_make_a_store()
    ensures listed { (used : Place → Option Stored) (rows : List ImageRow) (clock : ℕ)
        (row : ImageRow) → RowsAscend clock 0 0 rows → Contains rows row
        → row_of (kept_rows used rows) row.object ≡ Some (kept_row used row 0) }
    ensures only { (used : Place → Option Stored) (rows : List ImageRow) (o : ℕ) (found : Row)
        → row_of (kept_rows used rows) o ≡ Some found
        → (row : ImageRow) × Contains rows row × (row.object ≡ o) × (found ≡ kept_row used row 0) }
    ensures none { (used : Place → Option Stored) (rows : List ImageRow) (o : ℕ)
        → ((row : ImageRow) → Contains rows row → row.object ≡ o → ⊥)
        → row_of (kept_rows used rows) o ≡ None }
    ensures above { (used : Place → Option Stored) (rows : List ImageRow) (next o : ℕ)
        → AllByRecursion (λ row. row.object < next) rows → next ≤ o
        → row_of (kept_rows used rows) o ≡ None }
    ensures object { (used held : Place → Option Stored) (rows : List ImageRow) (row : ImageRow)
        (clock stamp : ℕ) → RowsAscend clock 0 0 rows → RowsStand used rows clock
        → HoldsWhatIsNamed used held rows → Contains rows row
        → IsHeldAsUsed used held row clock stamp }
    ensures few { (used held : Place → Option Stored) (rows : List ImageRow) (clock : ℕ) (p : Place)
        → RowsAscend clock 0 0 rows → RowsStand used rows clock → HoldsWhatIsNamed used held rows
        → times_told used rows p ≤ ROW_POINTERS }
    ensures store { (used held : Place → Option Stored) (rows : List ImageRow) (clock : ℕ)
        (log : Log) → RowsAscend clock 0 0 rows → RowsStand used rows clock
        → HoldsWhatIsNamed used held rows → log.held ≡ held → NamesAreOfData log
        → NamesAreCounted used log.named rows → log.spent + length log.ahead < 2 ^ 46
        → IsStore (record { rows = kept_rows used rows; log = log; latest = clock }) }
{
    one_place_has_one_name();
    a_checkpoint_is_in_its_blocks();
    a_chain_that_stands_is_held();
    a_chain_is_in_its_journal_blocks();
    a_version_chain_that_stands_is_a_row();
    an_orderly_row_is_by_its_moment();
    the_last_inode_is_current();
    only_its_blocks_matter();
    inodes_used_point_to_what_rows_lead_to();
    places_have_few_names();
}

/// Where the moments of all chains, those of each chain once, have no number twice, no moment is in
/// the chains of two rows, whatever chain each row has; and the other way round where the entries
/// of each chain are grouped, as those of rows that keep the rules are, in an image of each version.
pub fn moments_told_once_are_not_shared()
    ensures apart { (chain : ImageRow → List EntryFields) (rows : List ImageRow)
        → StandOnce (moments_of chain rows) → ChainsShareNoMoment chain rows }
    ensures once { (chain : ImageRow → List EntryFields) (rows : List ImageRow)
        → AllByRecursion (λ row. grouped (chain row) ≡ true) rows
        → ChainsShareNoMoment chain rows → StandOnce (moments_of chain rows) }
    ensures standing { (used : Place → Option Stored) (rows : List ImageRow) (clock : ℕ)
        → RowsStand used rows clock → StandOnce (moments_used used rows) }
    ensures standing_by { (version : Version) (used : Place → Option Stored)
        (rows : List ImageRow) (clock : ℕ) → RowsStandBy version used rows clock
        → StandOnce (moments_used_by version used rows) }
{
    groups_part_at_a_moment();
}

/// The moments of a chain are told entry by entry: the moment of one more entry comes after them,
/// where it isn't that of the entry before it.
pub fn moments_are_told_one_by_one()
    ensures moments { (entries : List EntryFields) (e : EntryFields) → 1 ≤ e.moment
        → moments_of_chain (entries ++ e ∷ [])
        ≡ moments_of_chain entries
        ++ (if e.moment == last_moment 0 entries then [] else e.moment ∷ []) }
    ensures last { (entries : List EntryFields) (e : EntryFields)
        → last_moment 0 (entries ++ e ∷ []) ≡ e.moment }
{}

/// No number is in a list twice exactly where no two neighbours are equal once it is sorted.
pub fn neighbours_tell_what_stands_twice()
    ensures { (numbers sorted : List ℕ) → IsPermutation numbers sorted → IsSorted nat_cmp sorted
        → StandOnce numbers
        ↔ ((k : ℕ) → k + 1 < length sorted
        → slice_index sorted k ≡ slice_index sorted (k + 1) → ⊥) }
{}

/// Each place that a row of an object which is in an image names has a used block of the object, of
/// that kind. Each place of the row's checkpoint has one of the object's checkpoints, which begins
/// with the number of its kind.
pub fn what_a_row_names_is_used()
    ensures named { (used : Place → Option Stored) (row : ImageRow) (clock : ℕ) (kind : BlockKind)
        (p : Place) → ObjectStands used row clock → NamesUsed used row kind p
        → IsSome (of_kind kind row.object used p) }
    ensures checkpoint { (used : Place → Option Stored) (row : ImageRow) (clock : ℕ)
        → ObjectStands used row clock → HasItsBlocks used row.object row.checkpoint }
{
    one_place_has_one_name();
    a_checkpoint_is_in_its_blocks();
}
