//! Where the program writes: standard output, and standard error for what people are told meanwhile.
ghost use Rattle.std.specs.Prelude.{◌≡◌, Bool};

use crate::times::{AskedTimes, say_time};
use s4_images::CommandOutput;
use s4_types::Moment;
use serving::{Sink, StreamFailed, WriteSink};
use std::io::{self, ErrorKind, Write};

/// Where the program writes what a command prints.
pub trait ProgramOutput: CommandOutput {
    // Whether its reader has gone.
    ghost is_gone: { Self → Bool };

    /// Takes the times of which it says what they are, once a drive is open.
    fn asks(&mut self, times: AskedTimes)
        ensures passed { Self.passed self.new ≡ Self.passed self.old }
        ensures failures { Self.failures self.new ≡ Self.failures self.old };

    /// Whether its reader has gone, so that nobody waits for what isn't written.
    fn is_gone(&self) -> bool
        ensures { result ≡ is_gone self.now };
}

/// A writer that keeps in mind whether its reader has gone.
#[derive(Drop)]
pub struct PipeEnd<W> {
    writer: W,
    is_gone: bool,
}

impl<W: Write> Write for PipeEnd<W> {
    ghost contents = { λ end. W.contents end.writer };

    fn write(&mut self, bytes: &[u8]) -> io::Result<usize> {
        match self.writer.write(bytes) {
            Ok(count) => Ok(count),
            Err(error) => {
                self.is_gone = error.kind() == ErrorKind::BrokenPipe;
                Err(error)
            }
        }
    }

    fn flush(&mut self) -> io::Result<()> {
        self.writer.flush()
    }
}

/// An output over a writer, and one for errors, of the standard library.
#[derive(Drop)]
pub struct Terminal<O, E> {
    output: WriteSink<PipeEnd<O>>,
    errors: E,
    times: AskedTimes,
}

impl<O: Write, E: Write> Terminal<O, E> {
    pub fn new(output: O, errors: E) -> Self
        ensures failures { result.output.failures ≡ 0 }
    {
        Terminal {
            output: WriteSink::new(PipeEnd {
                writer: output,
                is_gone: false,
            }),
            errors,
            times: [None, None],
        }
    }
}

impl<O: Write, E: Write> Sink for Terminal<O, E> {
    ghost passed = { λ t. O.contents t.output.writer.writer };

    ghost failures = { λ t. t.output.failures };

    fn put(&mut self, bytes: &[u8]) -> Result<(), StreamFailed> {
        self.output.put(bytes)
    }
}

impl<O: Write, E: Write> CommandOutput for Terminal<O, E> {
    fn drive_opened(&mut self, clock: Moment) {
        let [first, second] = self.times;
        self.times = [None, None];
        say_time(&mut self.errors, first, clock);
        say_time(&mut self.errors, second, clock);
    }
}

impl<O: Write, E: Write> ProgramOutput for Terminal<O, E> {
    ghost is_gone = { λ t. t.output.writer.is_gone };

    fn asks(&mut self, times: AskedTimes) {
        self.times = times;
    }

    fn is_gone(&self) -> bool {
        self.output.writer().is_gone
    }
}
