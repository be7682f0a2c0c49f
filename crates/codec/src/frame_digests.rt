ghost use Rattle.std.specs.Prelude.{◌≡◌, List};
ghost use Rattle.codec.specs.Summary.{frame_digest};

use block_log::Block;
use s4_types::limits::PAYLOAD_BLOCKS;
use sha2::{Digest, Sha256};

/// SHA-256 of the head of a frame's summary, followed by its payload blocks.
pub(crate) fn digest_of(head: &[u8], payload: &[Block; PAYLOAD_BLOCKS]) -> [u8; 32]
    ensures { result ≡ frame_digest head.now payload.now }
{
    let mut hasher = Sha256::new();
    hasher.update(head);
    for block in payload {
        hasher.update(block);
    }
    hasher.finalize()
}
