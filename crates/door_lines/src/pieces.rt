//! What lines come from, piece by piece.
ghost use Rattle.std.specs.Prelude.{◌≡◌, ◌+◌, ◌^◌, ◌<◌, ◌≤◌, ℕ, List, Option, None, length, take};
ghost use Rattle.std.specs.Prelude.{IfOk, OnErr};
ghost use Rattle.serving.specs.Streams.{failures_after};
ghost use Rattle.door_lines.specs.Reading.{GivesPiece, KeepsPieces};

use serving::{ReadSource, Source, StreamFailed};
use std::io::Read;

/// What lines come from. It says of each read what that gave: a FIFO gives in one read all that was
/// written to it, where there is room, and a write of at most 4,096 bytes is never there in part.
pub trait PieceSource {
    // What each read gives that is left to come, where it is known.
    ghost pieces: { Self → Option (List (List ℕ)) };

    // How often it has failed.
    ghost failures: { Self → ℕ };

    // How many more reads give bytes, at most.
    ghost turns: { Self → ℕ };

    /// Reads once, to the front of `into`, and says how many bytes that gave. None come only at the
    /// end.
    fn read_piece(&mut self, into: &mut [u8]) -> Result<usize, StreamFailed>
        requires { failures self.old + 1 < 2 ^ 64 }
        ensures bound { IfOk result (λ count. count ≤ length into.new) }
        ensures piece { IfOk result
            (λ count. GivesPiece (pieces self.old) (pieces self.new) (take count into.new)) }
        ensures kept { OnErr result (KeepsPieces (pieces self.old) (pieces self.new)) }
        ensures failures { failures self.new ≡ failures_after (failures self.old) result }
        ensures turns { IfOk result (λ count. 0 < count → turns self.new < turns self.old) };
}

impl<R: Read> PieceSource for ReadSource<R> {
    // No clause of the standard library says what one read gives.
    ghost pieces = { λ _. None };

    ghost failures = { λ s. ⟦<ReadSource<R> as Source>⟧.failures s };

    ghost turns = { λ s. ⟦<ReadSource<R> as Source>⟧.turns s };

    fn read_piece(&mut self, into: &mut [u8]) -> Result<usize, StreamFailed> {
        self.read(into)
    }
}
