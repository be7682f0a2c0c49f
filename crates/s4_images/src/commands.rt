//! Commands over the drive that an image tells.
ghost use Rattle.std.specs.Prelude.{◌≡◌, ⊤, ℕ, ◌+◌, ◌^◌, ◌<◌, List, Option, IfErr, IfOk};
ghost use Rattle.drive.specs.Fields.{DriveFields};
ghost use Rattle.s4_images.specs.Commands.{FailsOver, OverImage};
ghost use Rattle.s4_images.specs.declared.commands.Verdict.{Verdict as Found};
ghost use Rattle.s4_images.specs.declared.faults.Failure.{Failure as Failed};

use crate::faults::Failure;
use crate::using::{DriveUse, use_image};
use drive::Drive;
use image_commands::Files;
use s4_types::Moment;
use segment_word::Naming;
use serving::Sink;
use std::alloc::Global;
use std::thread::Threads;

/// What a command found, as the program's status tells it.
#[derive(Clone, Copy)]
pub enum Verdict {
    /// What was asked for.
    Fine,
    /// Something that differs.
    Differs,
}

/// Where a command over an image writes. It hears of the drive's clock, once.
pub trait CommandOutput: Sink {
    /// Hears that the drive is open, whose clock is there, and that the command begins. It writes
    /// none of the command's bytes.
    fn drive_opened(&mut self, clock: Moment)
        ensures passed { Self.passed self.new ≡ Self.passed self.old }
        ensures failures { Self.failures self.new ≡ Self.failures self.old };
}

/// What prints something of a drive.
pub trait DriveCommand {
    // What was found over a drive once the command is done, and what the output has after it then:
    // by the output before and after.
    ghost shows: { Self → DriveFields → Found → Option (List ℕ) → Option (List ℕ) → Type 0 };

    // What holds of a failure, by the drive before.
    ghost fails: { Self → DriveFields → Failed → Type 0 } = { λ _ _ _. ⊤ };

    /// Prints it.
    fn perform<J: Naming, W: Sink>(
        &self,
        alloc: Global,
        drive: &mut Drive<J>,
        writer: &mut W,
    ) -> Result<Verdict, Failure>
        requires writer { W.failures writer.old + 1 < 2 ^ 64 }
        ensures shows { IfOk result
            (λ verdict. shows self.now drive.old verdict (W.passed writer.old)
            (W.passed writer.new)) }
        ensures fails { IfErr result (fails self.now drive.old) };
}

/// Performs a command over the drive that the image in a file tells.
pub fn over_image<T: Threads, F: Files, C: DriveCommand, W: CommandOutput>(
    rt: &T,
    alloc: Global,
    files: &F,
    image: &str,
    command: &C,
    writer: &mut W,
) -> Result<Verdict, Failure>
    requires writer { W.failures writer.old + 1 < 2 ^ 64 }
    ensures shows { IfOk result
        (λ verdict. OverImage (F.contents files.now image.now)
        (λ drive. C.shows command.now drive verdict (W.passed writer.old)
        (W.passed writer.new))) }
    ensures fails { IfErr result
        (FailsOver (F.contents files.now image.now) (C.fails command.now)) }
{
    use_image(rt, alloc, files, image, command, writer)
}

impl<C: DriveCommand, W: CommandOutput> DriveUse<Verdict, W> for C {
    ghost takes = { λ _ writer. W.failures writer + 1 < 2 ^ 64 };

    ghost gives = { λ it d verdict before after. C.shows it d verdict (W.passed before) (W.passed after) };

    ghost fails = { C.fails };

    fn apply<J: Naming>(
        &self,
        alloc: Global,
        drive: &mut Drive<J>,
        writer: &mut W,
    ) -> Result<Verdict, Failure> {
        writer.drive_opened(drive.clock());
        self.perform(alloc, drive, writer)
    }
}
