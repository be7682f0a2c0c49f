//! Lines that are taken off a source, one after the other.
ghost use Rattle.std.specs.Prelude.{◌≡◌, ◌+◌, ◌^◌, ◌<◌, ℕ, List, [], false, IfErr, IfOk, IfSome, OnErr, OnOk, length};
ghost use Rattle.door_lines.specs.Lines.{held_of};
ghost use Rattle.door_lines.specs.Reading.{Ends, Takes, failures_by};
ghost use Rattle.door_lines.specs.private.Scanning.{Finishes, Fails, Fills, IsScanned};

use crate::line::{Begun, DoorLine};
use crate::pieces::PieceSource;
use std::marker::Model;

/// Bytes that are asked of the source at once.
pub const PIECE_BYTES: usize = 512;

/// Why there is no next line.
#[derive(Clone, Copy)]
pub enum DoorEnd {
    /// The source has ended. What it had after its last whole line says nothing.
    Ended,
    /// The source failed.
    ReadFailed,
}

/// Reads the lines of a door. Contracts see the bytes that it has read and not used yet, and whether
/// the last read gave as many as it could.
#[derive(Drop)]
pub struct DoorReader {
    piece: [u8; PIECE_BYTES],
    begin: usize,
    end: usize,
}

impl Model for DoorReader {
    ghost use Rattle.std.specs.Prelude.{◌==◌, ◌-◌, ◌≤◌, drop, take};
    ghost use Rattle.door_lines.specs.Reading.{Held};

    ghost Value = { Held };

    ghost view = { λ r. record {
      rest = take (r.end - r.begin) (drop r.begin r.piece);
      is_full = r.end == 512;
    } };

    ghost invariant = { λ r. (r.begin ≤ r.end) × (r.end ≤ 512) };
}

impl DoorReader {
    /// A reader that has read nothing.
    pub fn new() -> Self
        ensures { result ≡ record { rest = []; is_full = false } }
    {
        DoorReader {
            piece: [0; PIECE_BYTES],
            begin: 0,
            end: 0,
        }
    }

    /// The next line. Where a read ends within a line, and could have given more, what has begun of
    /// it is dropped. After an error the reader isn't used again.
    #[tactic(auto, using(crate::proofs::Going::begun))]
    pub fn next_line<S: PieceSource>(&mut self, source: &mut S) -> Result<DoorLine, DoorEnd>
        requires { S.failures source.old + 1 < 2 ^ 64 }
        ensures line { IfOk result
            (Takes self.old self.new (S.pieces source.old) (S.pieces source.new)) }
        // Where there is none, no whole line was left, and a failure is the source's.
        ensures end { IfErr result (Ends self.old (S.pieces source.old) (S.pieces source.new)) }
        ensures failures { S.failures source.new ≡ S.failures source.old + failures_by result }
    {
        let mut line = Begun::new();
        loop {
            if self.finish(&mut line) {
                return Ok(line.says());
            }
            match self.refill(source) {
                Ok(()) => {}
                Err(end) => return Err(end),
            }
        }
    }

    /// Adds to a line what was read of it, and answers whether it is whole now. Then its newline is
    /// passed over. What has begun of it is dropped where the read could have given more.
    fn finish(&mut self, line: &mut Begun) -> bool
        ensures { (front : List ℕ) → line.old ≡ held_of front
            → Finishes self.old front result self.new line.new }
    {
        let pending = &self.piece[self.begin..self.end];
        match scan(pending, line) {
            Some(at) => {
                self.begin += at + 1;
                true
            }
            None => {
                self.begin = self.end;
                if self.end < PIECE_BYTES {
                    *line = Begun::new();
                }
                false
            }
        }
    }

    /// Reads the next piece, where all that was read is used.
    #[tactic(auto, using(crate::proofs::Filling::filled, crate::proofs::Filling::over, crate::proofs::Filling::failed))]
    fn refill<S: PieceSource>(&mut self, source: &mut S) -> Result<(), DoorEnd>
        requires { S.failures source.old + 1 < 2 ^ 64 }
        ensures read { OnOk result (Fills (S.pieces source.old) (S.pieces source.new) self.new) }
        ensures turns { OnOk result (S.turns source.new < S.turns source.old) }
        ensures end { IfErr result (Fails (S.pieces source.old) (S.pieces source.new)) }
        ensures failures { S.failures source.new ≡ S.failures source.old + failures_by result }
    {
        self.begin = 0;
        self.end = 0;
        match source.read_piece(&mut self.piece) {
            Ok(0) => Err(DoorEnd::Ended),
            Ok(count) => {
                self.end = count;
                Ok(())
            }
            Err(_) => Err(DoorEnd::ReadFailed),
        }
    }
}

/// Adds bytes to a line until it ends, and says where its newline is.
#[tactic(auto, using(crate::proofs::Cutting::unbroken_more, crate::proofs::Cutting::scanned_more))]
fn scan(bytes: &[u8], line: &mut Begun) -> Option<usize>
    ensures within { IfSome result (λ at. at < length bytes.now) }
    ensures held { (front : List ℕ) → line.old ≡ held_of front → IsScanned front bytes.now result line.new }
{
    for at in 0..bytes.len() {
        let byte = bytes[at];
        if byte == b'\n' {
            return Some(at);
        }
        line.push(byte);
    }
    None
}
