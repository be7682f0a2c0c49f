ghost use Rattle.std.specs.Prelude.{◌≡◌, ◌≢◌, ℕ, ◌+◌, ◌-◌, ◌^◌, ◌<◌, ◌≤◌, ◌++◌, true, length, take};
ghost use Rattle.std.specs.Prelude.{drop, Option, Some, None, IsSome, IfSome, IfOk, OnOk, IfErr};
ghost use Rattle.s4_types.specs.Pointer.{IsPlace};
ghost use Rattle.s4_types.specs.declared.limits.TheConstants.{BLOCK_BYTES};
ghost use Rattle.s4_types.specs.declared.refusals.Refusal.TheVariants.{NoMemory, NoSpace};
ghost use Rattle.block_log.specs.Log.{Log, Stored, appended, dropped, held_more, is_data};
ghost use Rattle.block_log.specs.Log.{NamesAreOfData};
ghost use Rattle.block_log.specs.Laws.{OnePlaceHasOneName, AnAppendPutsOneBlock};
ghost use Rattle.block_log.specs.Laws.{ADropTakesOneBlock, AnAppendTakesOnePlace};
ghost use Rattle.block_log.specs.Laws.{ADropTakesNoPlace, NoChangeTakesNoPlace};
ghost use Rattle.block_log.specs.Laws.{PlacesTakenAddUp};

use crate::kinds::BlockKind;
use s4_types::limits::BLOCK_BYTES;
use s4_types::{ObjectId, Ptr, Refusal};

/// 512 bytes, the unit of the log.
pub type Block = [u8; BLOCK_BYTES];

/// A table of blocks that pointers refer to.
pub trait Blocks {
    // What the held pointers refer to, where the next appends go, how many places were ever taken,
    // and how often data is named.
    ghost log: { Self → Log };

    /// Appends a block, and answers the pointer by which it is held from now on. No held pointer
    /// equals it. A data block has one name then.
    ///
    /// NoSpace exactly where no place is left; then nothing has changed.
    fn append(&mut self, kind: BlockKind, object: ObjectId, block: &Block) -> Result<Ptr, Refusal>
        requires { 1 ≤ object }
        ensures appended { IfOk result (λ p. appended (log self.old) (record { kind = kind; object = object; bytes = block.now }) ≡ Some (p, log self.new)) }
        ensures fresh { IfOk result (λ p. (log self.old).held p ≡ None) }
        ensures full { IfErr result (λ e. (e ≡ NoSpace) × ((length (log self.old).ahead ≡ 0) × (log self.new ≡ log self.old))) };

    /// The block that a held pointer refers to.
    fn get(&mut self, place: Ptr) -> Block
        requires { IsSome ((log self.old).held place) }
        ensures bytes { IfSome ((log self.old).held place) (λ block. result ≡ block.bytes) }
        ensures same { log self.new ≡ log self.old };

    /// Adds the bytes `from..to` of the 512 of the block that a held pointer refers to.
    ///
    /// NoMemory alone, where `into` has no room and more is refused; it may have some of the bytes
    /// then. Where it has room, nothing is asked for.
    fn get_bytes(
        &mut self,
        place: Ptr,
        from: usize,
        to: usize,
        into: &mut Vec<u8>,
    ) -> Result<(), Refusal>
        requires held { IsSome ((log self.old).held place) }
        requires range { (from ≤ to) × (to ≤ BLOCK_BYTES) }
        ensures bytes { OnOk result
            (IfSome ((log self.old).held place)
            (λ block. into.new.items
            ≡ into.old.items ++ take (to - from) (drop from block.bytes))) }
        ensures added { OnOk result (length into.new.items ≡ length into.old.items + (to - from)) }
        ensures refusal { IfErr result (λ e. e ≡ NoMemory) }
        ensures same { log self.new ≡ log self.old };

    /// A held data block has one name more.
    fn hold(&mut self, place: Ptr)
        requires of_data { is_data ((log self.old).held place) ≡ true }
        requires room { (log self.old).named place + 1 < 2 ^ 32 }
        ensures { log self.new ≡ held_more (log self.old) place };

    /// A data block has one name less, and is held no longer without any; any other block is held
    /// no longer. Where nothing is held, nothing changes.
    fn drop_block(&mut self, place: Ptr)
        ensures { log self.new ≡ dropped (log self.old) place };

    /// Shows that the held data blocks have names, and nothing else has.
    fn names(&self)
        ensures { NamesAreOfData (log self.now) };

    /// How many blocks can be appended before there is no space: at most 15,360.
    fn blocks_left(&self) -> usize
        ensures { result ≡ length (log self.now).ahead };

    // Laws of logs, for the functions over any table. Places that the test finds to be one are equal.
    ghost one_place_has_one_name: { OnePlaceHasOneName };

    // An append to a place that isn't held puts one block there and leaves all else.
    ghost an_append_puts_one_block: { AnAppendPutsOneBlock };

    // Dropping a held block that is not of data takes it alone.
    ghost a_drop_takes_one_block: { ADropTakesOneBlock };

    // An append takes the first place ahead, and a drop takes none, whatever is held there.
    ghost an_append_takes_one_place: { AnAppendTakesOnePlace };

    ghost a_drop_takes_no_place: { ADropTakesNoPlace };

    // Where nothing changes, no place is taken, and two changes in turn take as many as both
    // together.
    ghost no_change_takes_no_place: { NoChangeTakesNoPlace };

    ghost places_taken_add_up: { PlacesTakenAddUp };
}
