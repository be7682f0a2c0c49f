//! The segment table of the drive that a type names.
ghost use Rattle.std.specs.Prelude.{◌≡◌};
ghost use Rattle.block_log.proofs.Places.{one_place, puts, takes};
ghost use Rattle.block_log.proofs.Taking.{append_takes, drop_takes, none_taken, adds_up};
ghost use Rattle.segment_table.specs.Room.{log_of};

use block_log::{Block, BlockKind, Blocks};
use s4_types::{ObjectId, Ptr, Refusal};
use segment_table::SegmentTable;
use segment_word::Naming;
use std::marker::{Model, PhantomData};

/// A segment table whose frames are those of the drive that `J` names. That stays so through every
/// call over `Blocks`, since the type says it. Contracts see the segment table.
#[derive(Drop)]
pub struct NamedTable<J: Naming> {
    pub(crate) table: SegmentTable,
    of: PhantomData<J>,
}

impl<J: Naming> Model for NamedTable<J> {
    ghost use Rattle.std.specs.Prelude.{◌≡◌};
    ghost use Rattle.segment_table.specs.Table.{Table};

    ghost Value = { Table };

    ghost view = { λ t. t.table };

    ghost invariant = { λ t. t.table.seat.table ≡ J.frames };
}

impl<J: Naming> NamedTable<J> {
    /// A table under the name of its drive.
    pub(crate) fn new(table: SegmentTable) -> Self
        requires { table.seat.table ≡ J.frames }
        ensures { result ≡ table }
    {
        NamedTable {
            table,
            of: PhantomData,
        }
    }
}

impl<J: Naming> Blocks for NamedTable<J> {
    ghost log = { log_of };

    ghost one_place_has_one_name = { one_place };

    ghost an_append_puts_one_block = { puts };

    ghost a_drop_takes_one_block = { takes };

    ghost an_append_takes_one_place = { append_takes };

    ghost a_drop_takes_no_place = { drop_takes };

    ghost no_change_takes_no_place = { none_taken };

    ghost places_taken_add_up = { adds_up };

    #[tactic(auto, using(crate::proofs::InPlace::appended_here))]
    fn append(&mut self, kind: BlockKind, object: ObjectId, block: &Block) -> Result<Ptr, Refusal> {
        self.table.append(kind, object, block)
    }

    fn get(&mut self, place: Ptr) -> Block {
        self.table.get(place)
    }

    fn get_bytes(
        &mut self,
        place: Ptr,
        from: usize,
        to: usize,
        into: &mut Vec<u8>,
    ) -> Result<(), Refusal> {
        self.table.get_bytes(place, from, to, into)
    }

    fn hold(&mut self, place: Ptr) {
        self.table.hold(place);
    }

    fn drop_block(&mut self, place: Ptr) {
        self.table.drop_block(place);
    }

    fn names(&self) {
        self.table.names();
    }

    fn blocks_left(&self) -> usize {
        self.table.blocks_left()
    }
}
