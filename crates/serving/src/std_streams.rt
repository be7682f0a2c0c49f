ghost use Rattle.std.specs.Prelude.{◌≡◌, ◌≤◌, length, take, IsTrue, IfSome, unwrap_or};
ghost use Rattle.std.specs.Io.KnownBytes.{Appends};

use crate::streams::{Sink, Source, StreamFailed};
use std::io::{ErrorKind, Read, Write};

/// A source over a reader of the standard library. A read that was interrupted is tried again.
#[derive(Drop)]
pub struct ReadSource<R> {
    reader: R,
    failures: u64,
    // How many more reads it makes before it fails.
    turns: u64,
}

impl<R: Read> ReadSource<R> {
    pub fn new(reader: R) -> Self
        ensures reader { result.reader ≡ reader }
        ensures failures { result.failures ≡ 0 }
    {
        ReadSource {
            reader,
            failures: 0,
            turns: u64::MAX,
        }
    }
}

impl<R: Read> Source for ReadSource<R> {
    ghost remaining = { λ s. R.remaining s.reader };

    ghost failures = { λ s. s.failures };

    ghost turns = { λ s. s.turns };

    fn read(&mut self, into: &mut [u8]) -> Result<usize, StreamFailed> {
        while self.turns > 0 {
            self.turns -= 1;
            match self.reader.read(into) {
                Ok(count) => return Ok(count),
                Err(error) => {
                    if error.kind() != ErrorKind::Interrupted {
                        break;
                    }
                }
            }
        }
        self.failures += 1;
        Err(StreamFailed)
    }
}

/// A sink over a writer of the standard library. What it takes is written and flushed at once, by
/// one write where the writer takes all of it.
#[derive(Drop)]
pub struct WriteSink<W> {
    writer: W,
    failures: u64,
}

impl<W: Write> WriteSink<W> {
    pub fn new(writer: W) -> Self
        ensures writer { result.writer ≡ writer }
        ensures failures { result.failures ≡ 0 }
    {
        WriteSink {
            writer,
            failures: 0,
        }
    }

    /// What it writes to.
    pub fn writer(&self) -> &W
        ensures { result.now ≡ self.now.writer }
    {
        &self.writer
    }
}

impl<W: Write> Sink for WriteSink<W> {
    ghost passed = { λ s. W.contents s.writer };

    ghost failures = { λ s. s.failures };

    fn put(&mut self, bytes: &[u8]) -> Result<(), StreamFailed> {
        let (_, is_through) = write_through(&mut self.writer, bytes);
        if !is_through {
            self.failures += 1;
            return Err(StreamFailed);
        }
        Ok(())
    }
}

// Writes the bytes and flushes the writer. Says how many it took, and whether it took all and was
// flushed.
fn write_through<W: Write>(writer: &mut W, bytes: &[u8]) -> (usize, bool)
    ensures within { result.0 ≤ length bytes.now }
    ensures taken { Appends (W.contents writer.old) (W.contents writer.new)
        (take result.0 bytes.now) }
    ensures whole { IsTrue result.1 → result.0 ≡ length bytes.now }
{
    let mut count = 0;
    for _ in 0..u64::MAX {
        if count == bytes.len() {
            return (count, writer.flush().is_ok());
        }
        let Some(more) = write_some(writer, &bytes[count..]) else {
            break;
        };
        count += more;
    }
    (count, false)
}

// Writes some of the bytes and says how many: none of them where the writer was interrupted.
fn write_some<W: Write>(writer: &mut W, bytes: &[u8]) -> Option<usize>
    ensures within { IfSome result (λ count. count ≤ length bytes.now) }
    ensures taken { Appends (W.contents writer.old) (W.contents writer.new)
        (take (unwrap_or result 0) bytes.now) }
{
    match writer.write(bytes) {
        Ok(0) => None,
        Ok(count) => Some(count),
        Err(error) if error.kind() == ErrorKind::Interrupted => Some(0),
        Err(_) => None,
    }
}
