//! The places that a row names.
ghost use Rattle.std.specs.Prelude.{IfSome};
ghost use Rattle.s4_types.specs.Pointer.{IsPlace};
ghost use Rattle.history_cleaner.specs.private.Counting.{NamesPlaces};

use object_map::Row;
use s4_types::Ptr;

/// Shows that a pointer, if there is one, leads to a block of a frame.
fn leads_to_a_place(pointer: Option<Ptr>)
    ensures { IfSome pointer IsPlace }
{
    let Some(place) = pointer else {
        return;
    };
    let _block = place.block();
}

/// Shows that the blocks that a row names, if there is one, are at places of frames.
pub(crate) fn names_places(row: &Option<Row>)
    ensures { IfSome row.now NamesPlaces }
{
    let Some(row) = row else {
        return;
    };
    leads_to_a_place(row.checkpoint);
    leads_to_a_place(row.head);
}
