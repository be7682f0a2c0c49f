//! The frames of a drive.
use crate::drive::Drive;
use block_log::Block;
use codec::BlockRole;
use s4_types::limits::FRAME_BLOCKS;
use s4_types::{ObjectId, Ptr, Refusal};
use segment_table::OverFrames;
use segment_word::{Memory, Naming, Pin};

impl<J: Naming> OverFrames for Drive<J> {
    ghost name = { λ d. J.frames };

    ghost table = { λ d. d.store.table };

    fn frame_rules(&self) {
        self.store.frame_rules();
    }

    fn frame_count(&self) -> u16 {
        self.store.frame_count()
    }

    fn is_draining(&mut self, frame: u16) -> bool {
        self.store.is_draining(frame)
    }

    fn generation(&mut self, frame: u16) -> Option<u32> {
        self.store.generation(frame)
    }

    fn name_count(&self, frame: u16, block: u8) -> u32 {
        self.store.name_count(frame, block)
    }

    fn held_count(&self, frame: u16) -> u8 {
        self.store.held_count(frame)
    }

    fn state_word(&mut self, frame: u16) -> u64 {
        self.store.state_word(frame)
    }

    fn saved_word(&mut self, frame: u16) -> u64 {
        self.store.saved_word(frame)
    }

    fn save_blocks(&mut self, frame: u16, blocks: &mut [Block; FRAME_BLOCKS]) {
        self.store.save_blocks(frame, blocks);
    }

    fn held_in(&mut self, object: ObjectId, frame: u16) -> Result<Vec<Ptr>, Refusal> {
        self.store.held_in(object, frame)
    }

    fn listings(&self) {
        self.store.listings();
    }

    fn role(&mut self, place: Ptr) -> Option<BlockRole> {
        self.store.role(place)
    }

    fn block(&mut self, place: Ptr) -> Block {
        self.store.block(place)
    }

    fn pin(&mut self, place: Ptr) -> Result<Pin, Refusal> {
        self.store.pin(place)
    }

    fn recall(&mut self, memory: &mut Memory) {
        self.store.recall(memory);
    }
}
