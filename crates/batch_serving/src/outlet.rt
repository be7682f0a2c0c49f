//! What the replies of a session go out to.
ghost use Rattle.std.specs.Prelude.{◌≡◌, ℕ, ◌+◌, ◌^◌, ◌<◌, List, Option, OnErr, OnOk, true};
ghost use Rattle.std.specs.Io.KnownBytes.{append_known};
ghost use Rattle.serving.specs.Streams.{AppendsPart, failures_after};
ghost use Rattle.batch_serving.specs.Saying.{HasSaid};

use crate::keeping::Keeping;
use serving::{Backend, Clock, StreamFailed};

/// What the replies of a session go out to. Whoever sends them owes that they are replies, and that
/// all that the backend has done is kept: so this holds on every thread that sends.
pub trait Outlet<B: Backend, C: Clock, K: Keeping<B>> {
    // What a backend was that may answer here, before its first step.
    ghost begins: { Self → B → Type 0 };

    // The bytes that were sent, where they are known: from the beginning on, or never.
    ghost passed: { Self → Option (List ℕ) };

    // How often it has failed.
    ghost failures: { Self → ℕ };

    /// Sends all the bytes, or fails and has sent a beginning of them.
    fn send(
        &mut self,
        bytes: &[u8],
        backend: &B,
        clock: &C,
        keeping: &K,
    ) -> Result<(), StreamFailed>
        requires failures { failures self.old + 1 < 2 ^ 64 }
        // With what was sent they are the replies to all that the backend was asked.
        requires said { HasSaid B.steps C.draws (begins self.old) (passed self.old) bytes.now
            backend.now clock.now }
        // It was waited until all of that is kept.
        requires kept { (from : K) × K.waits from backend.now true keeping.now }
        ensures begins { (first : B) → begins self.old first → begins self.new first }
        ensures ok { OnOk result (passed self.new ≡ append_known (passed self.old) bytes.now) }
        ensures err { OnErr result (AppendsPart (passed self.old) (passed self.new) bytes.now) }
        ensures failures { failures self.new ≡ failures_after (failures self.old) result };
}
