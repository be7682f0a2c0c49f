//! A new table, filled from its first frame on.
ghost use Rattle.std.specs.Prelude.{◌≡◌, IfOk, IfErr};
ghost use Rattle.s4_types.specs.Sizes.{IsFrameCount};
ghost use Rattle.s4_types.specs.declared.refusals.Refusal.TheVariants.{NoMemory};
ghost use Rattle.segment_table.specs.Room.{log_of};
ghost use Rattle.migration.specs.Frames.{IsFilled, fresh_log};

use block_log::{Block, BlockKind, Blocks};
use s4_types::{ObjectId, Ptr, Refusal};
use segment_table::SegmentTable;
use std::alloc::Global;
use std::marker::Model;

/// A table all of whose frames are in their first life, and that is filled from its first frame on.
#[derive(Drop)]
pub(crate) struct NewTable {
    table: SegmentTable,
}

impl Model for NewTable {
    ghost use Rattle.segment_table.specs.Table.{Table};
    ghost use Rattle.migration.specs.Frames.{IsFilled};

    ghost Value = { Table };

    ghost view = { λ t. t.table };

    ghost invariant = { λ t. IsFilled t.table };
}

impl NewTable {
    /// A table of `FEWEST_FRAMES` to `MOST_FRAMES` frames: nothing is held.
    ///
    /// NoMemory alone, where memory was refused.
    pub(crate) fn new(alloc: Global, frames: usize) -> Result<Self, Refusal>
        requires { IsFrameCount frames }
        ensures log { IfOk result (λ t. log_of t ≡ fresh_log frames) }
        ensures refusal { IfErr result (λ e. e ≡ NoMemory) }
    {
        // Nobody shares a new table yet, so that no count of those who do is full.
        let Ok(table) = SegmentTable::new(alloc, frames) else {
            return Err(Refusal::NoMemory);
        };
        Ok(NewTable { table })
    }

    /// The table, as any other.
    pub(crate) fn into_table(self) -> SegmentTable
        ensures same { result ≡ self }
        ensures filled { IsFilled result }
    {
        self.table
    }
}

impl Blocks for NewTable {
    ghost use Rattle.block_log.proofs.Places.{one_place, puts, takes};
    ghost use Rattle.block_log.proofs.Taking.{append_takes, drop_takes, none_taken, adds_up};
    ghost use Rattle.segment_table.specs.Room.{log_of};

    ghost log = { log_of };

    ghost one_place_has_one_name = { one_place };

    ghost an_append_puts_one_block = { puts };

    ghost a_drop_takes_one_block = { takes };

    ghost an_append_takes_one_place = { append_takes };

    ghost a_drop_takes_no_place = { drop_takes };

    ghost no_change_takes_no_place = { none_taken };

    ghost places_taken_add_up = { adds_up };

    fn append(&mut self, kind: BlockKind, object: ObjectId, block: &Block) -> Result<Ptr, Refusal> {
        self.table.append(kind, object, block)
    }

    fn get(&mut self, place: Ptr) -> Block {
        self.table.get(place)
    }

    fn get_bytes(
        &mut self,
        place: Ptr,
        from: usize,
        to: usize,
        into: &mut Vec<u8>,
    ) -> Result<(), Refusal> {
        self.table.get_bytes(place, from, to, into)
    }

    fn hold(&mut self, place: Ptr) {
        self.table.hold(place);
    }

    fn drop_block(&mut self, place: Ptr) {
        self.table.drop_block(place);
    }

    fn names(&self) {
        self.table.names();
    }

    fn blocks_left(&self) -> usize {
        self.table.blocks_left()
    }
}
