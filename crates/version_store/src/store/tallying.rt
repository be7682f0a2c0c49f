//! How often rows name each block of each frame, counted anew.
ghost use Rattle.std.specs.Prelude.{◌≡◌, ℕ, ◌*◌, length, replicate, IfOk, IfErr};
ghost use Rattle.s4_types.specs.declared.refusals.Refusal.TheVariants.{NoMemory};
ghost use Rattle.object_map.specs.Rows.{row_of};
ghost use Rattle.segment_table.specs.Room.{log_of};
ghost use Rattle.version_store.specs.Store.{fields_of, IsStore};
ghost use Rattle.version_store.specs.Tallies.{NoRowFrom, AreTallies};
ghost use Rattle.version_store.specs.private.Tallying.{pointers_by};

use crate::named_table::NamedTable;
use crate::row_places::{pointers_to, tally};
use crate::store::Store;
use block_log::Blocks;
use block_log::laws::one_place_has_one_name;
use checkpoint::laws::a_checkpoint_is_in_its_blocks;
use s4_types::limits::PAYLOAD_BLOCKS;
use s4_types::{ObjectId, Ptr, Refusal};
use segment_table::OverFrames;
use segment_word::Naming;

impl<B: Blocks> Store<B> {
    /// All places that an object's row names, as pointers, each as often as it does, and its holes
    /// among them; none where it has no row.
    ///
    /// NoMemory alone, where the memory for them or for the entries of its journal is refused.
    fn pointers_to(&mut self, object: ObjectId) -> Result<Vec<Option<Ptr>>, Refusal>
        requires { IsStore (fields_of B.log self.old) }
        ensures pointers { IfOk result
            (λ pointers. pointers.items
            ≡ pointers_by (B.log self.old.table).held object (row_of self.old.rows object)) }
        ensures refusal { IfErr result (λ e. e ≡ NoMemory) }
        ensures same { fields_of B.log self.new ≡ fields_of B.log self.old }
    {
        let Some(row) = self.row(object) else {
            return Ok(Vec::new(self.alloc));
        };
        pointers_to(self.alloc, &mut self.table, object, &row)
    }
}

impl<J: Naming> Store<NamedTable<J>> {
    /// 15 numbers for each frame, all 0. NoMemory alone.
    fn no_tallies(&self) -> Result<Vec<u32>, Refusal>
        ensures zeros { IfOk result
            (λ tallies. tallies.items ≡ replicate (15 * length self.now.table.seat.frames) 0) }
        ensures refusal { IfErr result (λ e. e ≡ NoMemory) }
    {
        let count = PAYLOAD_BLOCKS * self.frame_count() as usize;
        Ok(vec![in self.alloc; 0u32; count]?)
    }

    /// How often rows name each block of each frame, at the frame's generation: 15 numbers for each
    /// frame, those of frame 0 first, and of each frame block 1 first. They are counted anew: of
    /// each object that has a row, all blocks of its journal and of its checkpoints are read, and
    /// nothing that the table counts. So it is a check of what the table counts.
    ///
    /// NoMemory alone, where the memory for the numbers is refused, or that for what an object's
    /// row names.
    pub fn recount(&mut self) -> Result<Vec<u32>, Refusal>
        requires { IsStore (fields_of log_of self.old) }
        ensures tallies { IfOk result
            (λ tallies. (n : ℕ)
            → NoRowFrom (fields_of log_of self.old) n
            → AreTallies self.old.table (fields_of log_of self.old) n tallies.items) }
        ensures refusal { IfErr result (λ e. e ≡ NoMemory) }
        ensures same { fields_of log_of self.new ≡ fields_of log_of self.old }
    {
        one_place_has_one_name();
        a_checkpoint_is_in_its_blocks();
        self.frame_rules();
        let mut tallies = self.no_tallies()?;
        let mut last = ObjectId::new(0);
        while let Some(object) = self.next_row(last) {
            let pointers = self.pointers_to(object)?;
            tally(tallies.as_mut_slice(), pointers.as_slice());
            last = object;
        }
        Ok(tallies)
    }
}
