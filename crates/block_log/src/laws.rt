//! Laws of the log, for the layers above: each function does nothing, and its contract is the law.
//! Functions over any table have the laws of [`Blocks`](crate::Blocks).

ghost use Rattle.std.specs.Prelude.{◌≡◌, ℕ, ◌≤◌, None};
ghost use Rattle.s4_types.specs.Pointer.{Place};
ghost use Rattle.block_log.specs.Log.{Log, without, dropped, NamesAreOfData};
ghost use Rattle.block_log.specs.Laws.{OnePlaceHasOneName, PlacesTakenAddUp};

/// Places that the test finds to be one are equal.
pub fn one_place_has_one_name()
    ensures { OnePlaceHasOneName }
{}

/// A drop of a block that one place names, or none, lets it go, whatever it is for; and a drop
/// gives no block a name.
pub fn a_last_name_lets_a_block_go()
    ensures held { (log : Log) (p : Place) → log.named p ≤ 1
        → (dropped log p).held ≡ without log.held p }
    ensures named { (log : Log) (p q : Place) → (dropped log p).named q ≤ log.named q }
{}

/// Where names are of held data alone, what isn't held has none.
pub fn what_is_not_held_has_no_name()
    ensures { (log : Log) (p : Place) → NamesAreOfData log → log.held p ≡ None → log.named p ≡ 0 }
{}

/// Two changes in turn take as many places as both together.
pub fn places_taken_add_up()
    ensures { PlacesTakenAddUp }
{}
