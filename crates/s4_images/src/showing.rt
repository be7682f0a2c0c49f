//! Commands that print something of an image, each by one call.
ghost use Rattle.std.specs.Prelude.{◌≡◌, ℕ, ◌+◌, ◌^◌, ◌<◌, Bool, List, IfErr, IfOk};
ghost use Rattle.drive.specs.Fields.{state_in};
ghost use Rattle.moment_words.specs.Texts as styles;
ghost use Rattle.s4_images.specs.Commands.{FailsOver, OverImage};
ghost use Rattle.s4_images.specs.Failures.{IsInStyle};

use crate::commands::{CommandOutput, DriveCommand, Verdict};
use crate::faults::Failure;
use crate::using::{DriveUse, use_image};
use drive::Drive;
use image_commands::Files;
use moment_words::style_of;
use segment_word::Naming;
use std::alloc::Global;
use std::thread::Threads;

/// A command that names its image.
pub trait ImageCommand: Copy {
    // The path of the image's file.
    ghost file: { Self → List ℕ };

    // Whether moments are printed as numbers also where they could be dates.
    ghost as_numbers: { Self → Bool };

    /// The image's file.
    fn image(&self) -> &str
        ensures { result.now ≡ file self.now };

    /// Whether moments are printed as numbers also where they could be dates.
    fn has_numbers(&self) -> bool
        ensures { result ≡ as_numbers self.now };
}

/// Performs a command over the drive that its image tells. The moments of a failure are printed as
/// the other lines of the command print theirs: as dates where the drive's clock counts
/// microseconds of Unix time, unless numbers are asked for.
pub fn show_image<T: Threads, F: Files, C: DriveCommand + ImageCommand, W: CommandOutput>(
    rt: &T,
    alloc: Global,
    files: &F,
    command: &C,
    writer: &mut W,
) -> Result<Verdict, Failure>
    requires writer { W.failures writer.old + 1 < 2 ^ 64 }
    ensures shows { IfOk result
        (λ verdict. OverImage (F.contents files.now (C.file command.now))
        (λ drive. C.shows command.now drive verdict (W.passed writer.old)
        (W.passed writer.new))) }
    ensures style { IfErr result
        (FailsOver (F.contents files.now (C.file command.now))
        (λ drive. IsInStyle
        (styles.style_of (state_in drive).clock (C.as_numbers command.now)))) }
{
    use_image(
        rt,
        alloc,
        files,
        command.image(),
        &Styled { command },
        writer,
    )
}

/// A command whose failures have their moments as its lines do: in the style of the drive's clock
/// before.
#[derive(Clone, Copy)]
struct Styled<'a, C: ImageCommand> {
    command: &'a C,
}

impl<C: DriveCommand + ImageCommand, W: CommandOutput> DriveUse<Verdict, W> for Styled<'_, C> {
    ghost takes = { λ _ writer. W.failures writer + 1 < 2 ^ 64 };

    ghost gives = { λ it d verdict before after. C.shows it.command.now d verdict (W.passed before) (W.passed after) };

    ghost fails = { λ it drive. IsInStyle (styles.style_of (state_in drive).clock (C.as_numbers it.command.now)) };

    fn apply<J: Naming>(
        &self,
        alloc: Global,
        drive: &mut Drive<J>,
        writer: &mut W,
    ) -> Result<Verdict, Failure> {
        let clock = drive.clock();
        writer.drive_opened(clock);
        let style = style_of(clock.number(), self.command.has_numbers());
        match self.command.perform(alloc, drive, writer) {
            Ok(verdict) => Ok(verdict),
            Err(failure) => Err(failure.in_style(style)),
        }
    }
}
