//! A store over frames: what it holds in one of them.
ghost use Rattle.std.specs.Prelude.{◌≡◌};

use crate::named_table::NamedTable;
use crate::store::Store;
use block_log::Block;
use codec::BlockRole;
use s4_types::limits::FRAME_BLOCKS;
use s4_types::{ObjectId, Ptr, Refusal};
use segment_table::{OverFrames, SegmentTable};
use segment_word::{Memory, Naming, Pin};

impl Store<SegmentTable> {
    /// The store, under the name of the drive whose frames it is over.
    pub fn named<J: Naming>(self) -> Store<NamedTable<J>>
        requires frames { self.table.seat.table ≡ J.frames }
        ensures same { result ≡ self }
    {
        let Store {
            alloc,
            objects,
            table,
            latest,
            cache,
        } = self;
        Store {
            alloc,
            objects,
            table: NamedTable::new(table),
            latest,
            cache,
        }
    }
}

impl<J: Naming> OverFrames for Store<NamedTable<J>> {
    ghost name = { λ s. J.frames };

    ghost table = { λ s. s.table };

    fn frame_rules(&self) {
        self.table.table.frame_rules();
    }

    fn frame_count(&self) -> u16 {
        self.table.table.frame_count()
    }

    fn is_draining(&mut self, frame: u16) -> bool {
        self.table.table.is_draining(frame)
    }

    fn generation(&mut self, frame: u16) -> Option<u32> {
        self.table.table.generation(frame)
    }

    fn name_count(&self, frame: u16, block: u8) -> u32 {
        self.table.table.name_count(frame, block)
    }

    fn held_count(&self, frame: u16) -> u8 {
        self.table.table.held_count(frame)
    }

    fn state_word(&mut self, frame: u16) -> u64 {
        self.table.table.state_word(frame)
    }

    fn saved_word(&mut self, frame: u16) -> u64 {
        self.table.table.saved_word(frame)
    }

    fn save_blocks(&mut self, frame: u16, blocks: &mut [Block; FRAME_BLOCKS]) {
        self.table.table.save_blocks(frame, blocks);
    }

    fn held_in(&mut self, object: ObjectId, frame: u16) -> Result<Vec<Ptr>, Refusal> {
        self.table.table.held_in(object, frame)
    }

    fn listings(&self) {
        self.table.table.listings();
    }

    fn role(&mut self, place: Ptr) -> Option<BlockRole> {
        self.table.table.role(place)
    }

    fn block(&mut self, place: Ptr) -> Block {
        self.table.table.block(place)
    }

    fn pin(&mut self, place: Ptr) -> Result<Pin, Refusal> {
        self.table.table.pin(place)
    }

    fn recall(&mut self, memory: &mut Memory) {
        self.table.table.recall(memory);
    }
}
