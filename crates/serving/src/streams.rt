ghost use Rattle.std.specs.Prelude.{◌≡◌, ℕ, ◌+◌, ◌^◌, ◌<◌, ◌≤◌, List, length, Option, IfOk, OnOk};
ghost use Rattle.std.specs.Prelude.{OnErr};
ghost use Rattle.std.specs.Io.KnownBytes.{Appends, ReadConsumes};
ghost use Rattle.serving.specs.Streams.{AppendsPart, failures_after};

/// A reader or a writer failed, and counted it.
#[derive(Clone, Copy)]
pub struct StreamFailed;

/// What a session reads from. It counts its failures.
pub trait Source {
    // The bytes that are left to come, where they are known.
    ghost remaining: { Self → Option (List ℕ) };

    // How often it has failed.
    ghost failures: { Self → ℕ };

    // How many more reads give bytes, at most.
    ghost turns: { Self → ℕ };

    /// Reads some bytes to the front of `into`, and says how many. None come only at the end, or
    /// where `into` has no room.
    fn read(&mut self, into: &mut [u8]) -> Result<usize, StreamFailed>
        requires { failures self.old + 1 < 2 ^ 64 }
        ensures bound { IfOk result (λ count. count ≤ length into.new) }
        ensures bytes { ReadConsumes (remaining self.old) (remaining self.new) result into.new }
        ensures failures { failures self.new ≡ failures_after (failures self.old) result }
        ensures turns { IfOk result (λ count. 0 < count → turns self.new < turns self.old) };
}

/// What a session writes to. It counts its failures, and holds nothing back.
pub trait Sink {
    // The bytes that were written to it, where they are known.
    ghost passed: { Self → Option (List ℕ) };

    // How often it has failed.
    ghost failures: { Self → ℕ };

    /// Writes all the bytes through, or fails and has written a beginning of them.
    fn put(&mut self, bytes: &[u8]) -> Result<(), StreamFailed>
        requires { failures self.old + 1 < 2 ^ 64 }
        ensures ok { OnOk result (Appends (passed self.old) (passed self.new) bytes.now) }
        ensures err { OnErr result (AppendsPart (passed self.old) (passed self.new) bytes.now) }
        ensures failures { failures self.new ≡ failures_after (failures self.old) result };
}
