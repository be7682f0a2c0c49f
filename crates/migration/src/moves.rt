//! Where the data of an object goes.
ghost use Rattle.std.specs.Prelude.{◌≡◌};

use crate::places::is_same_place;
use chain_rewriting::MapsPlaces;
use s4_types::Ptr;

/// The block of one place goes to another.
#[derive(Clone, Copy)]
pub struct Move {
    pub from: Ptr,
    pub to: Ptr,
}

/// Where blocks go: a place that isn't among them stays.
#[derive(Drop)]
pub(crate) struct Moves {
    pub(crate) list: Vec<Move>,
}

impl MapsPlaces for Moves {
    ghost use Rattle.chain_rewriting.specs.Apart.{Passes};
    ghost use Rattle.migration.specs.Moves.{moved_by, is_moved};

    ghost to = { λ m. moved_by m.list.items };

    ghost is_known = { λ m. Passes (is_moved m.list.items) };

    /// The place to which a place's block goes; one whose block doesn't stays. Linear in the moves.
    fn map_place(&self, place: Ptr) -> Ptr {
        for one in self.list.as_slice() {
            if is_same_place(one.from, place) {
                return one.to;
            }
        }
        place
    }
}
