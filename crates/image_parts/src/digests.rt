ghost use Rattle.std.specs.Prelude.{◌≤◌, MatchBool, length};
ghost use Rattle.image_parts.specs.Causes.{HasDigest};

use sha2::{Digest, Sha256};

/// Bytes of a digest.
pub(crate) const DIGEST_BYTES: usize = 32;

/// Whether the last 32 bytes are the digest of all before them. Linear in the bytes.
pub fn has_digest(bytes: &[u8]) -> bool
    requires { 32 ≤ length bytes.now }
    ensures { MatchBool result (HasDigest bytes.now) (HasDigest bytes.now → ⊥) }
{
    let (front, digest) = bytes.split_at(bytes.len() - DIGEST_BYTES);
    Sha256::digest(front).as_slice() == digest
}
