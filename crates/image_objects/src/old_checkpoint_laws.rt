//! A law of checkpoints in images of the first version: the function does nothing, and its contract
//! is the law.
ghost use Rattle.image_objects.specs.OldCheckpoints.{AnOldCheckpointIsOneBlock};

use codec::part_laws::blocks_have_their_parts;

/// Where no block is used for more pointers of a checkpoint, a checkpoint of an object that the
/// first version may have is what its one block encodes in that version.
pub fn an_old_checkpoint_is_one_block()
    ensures { AnOldCheckpointIsOneBlock }
{
    blocks_have_their_parts();
}
