//! The used blocks of an image, by its table.
ghost use Rattle.std.specs.Prelude.{◌≡◌, ℕ, ◌+◌, true, IsSome};
ghost use Rattle.std.specs.List.{All};
ghost use Rattle.s4_types.specs.Pointer.{Place};
ghost use Rattle.block_log.specs.Log.{is_data};
ghost use Rattle.journal_chain.specs.Chain.{times};
ghost use Rattle.segment_table.specs.Slots.{capped};
ghost use Rattle.segment_table.specs.Table.{held_at, named_at};
ghost use Rattle.segment_table.specs.Used.{used_at};
ghost use Rattle.verifier.specs.private.Holding.{HoldsAlso, IsUsedAlike};

use block_log::laws::one_place_has_one_name;
use image_objects::{UsedBlock, UsedBlocks};
use s4_types::Ptr;
use segment_table::TableBuilder;

/// The used blocks of the frames of an image, whether they are held or not.
#[derive(Clone, Copy)]
pub struct TableBlocks<'a> {
    /// The table.
    pub table: &'a TableBuilder,
}

impl UsedBlocks for TableBlocks<'_> {
    ghost use Rattle.segment_table.specs.Used.{used_at};

    ghost used = { λ b. used_at b.table.now };

    fn block(&self, place: Ptr) -> Option<UsedBlock> {
        let block = self.table.used(place)?;
        let role = block.role();
        Some(UsedBlock {
            kind: role.kind,
            object: role.object,
            bytes: *block.bytes(),
        })
    }
}

/// The used blocks at these places are held from now on. A block of data has one name more for each
/// time that its place stands there, as far as 32 bits count; where another was held, nothing
/// changes.
pub(crate) fn hold_all(table: &mut TableBuilder, places: &[Ptr])
    requires { All (λ p. IsSome (used_at table.old p)) places.now }
    ensures also { HoldsAlso (used_at table.old) (held_at table.old) (held_at table.new)
        places.now }
    ensures named { (p : Place) (n : ℕ)
        → is_data (used_at table.old p) ≡ true
        → named_at table.old p ≡ capped n → named_at table.new p ≡ capped (n + times p places.now) }
    ensures alike { IsUsedAlike table.old table.new }
{
    one_place_has_one_name();
    for place in places {
        table.hold(*place);
    }
}
