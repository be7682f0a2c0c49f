ghost use Rattle.std.specs.Prelude.{◌≡◌, ℕ, ◌<◌, List, [], Option, Some, length};

use crate::streams::{Sink, Source, StreamFailed};
use std::alloc::Global;

/// A source over bytes in memory, which gives them in pieces of at most `piece` bytes.
#[derive(Drop)]
pub struct MemorySource<'a> {
    rest: &'a [u8],
    piece: usize,
    failures: u64,
    ghost some: { 0 < piece },
}

impl<'a> MemorySource<'a> {
    /// A source of these bytes, in pieces of at most `piece` bytes.
    pub fn new(bytes: &'a [u8], piece: usize) -> Self
        requires { 0 < piece }
        ensures bytes { result.rest.now ≡ bytes.entry.now }
        ensures failures { result.failures ≡ 0 }
    {
        MemorySource {
            rest: bytes,
            piece,
            failures: 0,
        }
    }
}

impl Source for MemorySource<'_> {
    ghost remaining = { λ s. Some s.rest.now };

    ghost failures = { λ s. s.failures };

    ghost turns = { λ s. length s.rest.now };

    fn read(&mut self, into: &mut [u8]) -> Result<usize, StreamFailed> {
        let count = self.piece.min(into.len()).min(self.rest.len());
        let (piece, rest) = self.rest.split_at(count);
        into[..count].copy_from_slice(piece);
        self.rest = rest;
        Ok(count)
    }
}

/// A sink that keeps the bytes in memory. A growth that is refused is its failure.
#[derive(Drop)]
pub struct MemorySink {
    bytes: Vec<u8>,
    failures: u64,
}

impl MemorySink {
    /// A sink that holds nothing yet.
    pub fn new(alloc: Global) -> Self
        ensures bytes { result.bytes.items ≡ [] }
        ensures failures { result.failures ≡ 0 }
    {
        MemorySink {
            bytes: Vec::new(alloc),
            failures: 0,
        }
    }

    /// All the bytes that it took.
    pub fn as_slice(&self) -> &[u8]
        ensures { result.now ≡ self.now.bytes.items }
    {
        self.bytes.as_slice()
    }
}

impl Sink for MemorySink {
    ghost passed = { λ s. Some s.bytes.items };

    ghost failures = { λ s. s.failures };

    fn put(&mut self, bytes: &[u8]) -> Result<(), StreamFailed> {
        if self.bytes.extend_from_slice(bytes).is_err() {
            self.failures += 1;
            return Err(StreamFailed);
        }
        Ok(())
    }
}
