ghost use Rattle.std.specs.Prelude.{◌≡◌, ◌<◌, ◌≤◌, Some, None, length, slice_get};
ghost use Rattle.block_log.specs.Log.{Log};
ghost use Rattle.inode.specs.Growth.{log_grown, data_block};

use block_log::{Block, BlockKind, Blocks};
use s4_types::{ObjectId, Ptr};

/// Appends a data block of an object, for which there is a place.
pub(crate) fn append_data<B: Blocks>(table: &mut B, object: ObjectId, block: &Block) -> Ptr
    requires object { 1 ≤ object }
    requires room { 0 < length (B.log table.old).ahead }
    ensures log { B.log table.new ≡ log_grown (B.log table.old) (data_block object block.now) }
    ensures place { slice_get (B.log table.old).ahead 0 ≡ Some result }
    ensures fresh { (B.log table.old).held result ≡ None }
{
    match table.append(BlockKind::Data, object, block) {
        Ok(place) => place,
        Err(_) => unreachable!(),
    }
}
