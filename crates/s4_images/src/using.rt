//! What is done with the drive that an image tells, whatever that is.
ghost use Rattle.std.specs.Prelude.{◌≡◌, ⊤, IfErr, IfOk};
ghost use Rattle.segment_table.specs.Room.{log_of};
ghost use Rattle.version_store.specs.Store.{fields_of};
ghost use Rattle.drive.specs.Fields.{DriveFields};
ghost use Rattle.drive.specs.Opened.{base_of};
ghost use Rattle.s4_images.specs.Commands.{FailsOver, OverImage, OverOpened};
ghost use Rattle.s4_images.specs.declared.faults.Failure.{Failure as Failed};

use crate::faults::Failure;
use drive::{Drive, OpenedDrive};
use image_commands::{Files, read_image};
use segment_word::Naming;
use std::alloc::Global;
use std::marker::Brand;
use std::thread::Threads;
use verifier::open;

/// What is done with a drive by one call, which gives an `A` and may write to an `O`.
pub trait DriveUse<A, O> {
    // What has to hold of the output before.
    ghost takes: { Self → O → Type 0 } = { λ _ _. ⊤ };

    // What holds of what is given, by the drive before, and by the output before and after.
    ghost gives: { Self → DriveFields → A → O → O → Type 0 };

    // What holds of a failure, by the drive before.
    ghost fails: { Self → DriveFields → Failed → Type 0 } = { λ _ _ _. ⊤ };

    /// Does it. The drive may be changed for it: nothing of it is kept.
    fn apply<J: Naming>(
        &self,
        alloc: Global,
        drive: &mut Drive<J>,
        output: &mut O,
    ) -> Result<A, Failure>
        requires output { takes self.now output.old }
        ensures gives { IfOk result
            (λ given. gives self.now drive.old given output.old output.new) }
        ensures fails { IfErr result (fails self.now drive.old) };
}

/// Does this with the drive that the image in a file tells.
pub fn use_image<T: Threads, F: Files, A, O, U: DriveUse<A, O>>(
    rt: &T,
    alloc: Global,
    files: &F,
    image: &str,
    it: &U,
    output: &mut O,
) -> Result<A, Failure>
    requires output { U.takes it.now output.old }
    ensures gives { IfOk result
        (λ given. OverImage (F.contents files.now image.now)
        (λ drive. U.gives it.now drive given output.old output.new)) }
    ensures fails { IfErr result
        (FailsOver (F.contents files.now image.now) (U.fails it.now)) }
{
    let image = read_image(rt, alloc, files, image)?;
    let opened = open(alloc, image)?;
    use_opened::<Brand, A, O, U>(alloc, opened, it, output)
}

/// The same with a drive that was just opened. It is let go then.
pub(crate) fn use_opened<J: Naming, A, O, U: DriveUse<A, O>>(
    alloc: Global,
    opened: OpenedDrive,
    it: &U,
    output: &mut O,
) -> Result<A, Failure>
    requires accepts { opened.accepts ≡ J.accepts }
    requires frames { opened.store.table.seat.table ≡ J.frames }
    requires base { base_of (fields_of log_of opened.store) opened.timeline opened.next
        opened.audit ≡ J.base }
    requires output { U.takes it.now output.old }
    ensures gives { IfOk result
        (λ given. OverOpened opened
        (λ drive. U.gives it.now drive given output.old output.new)) }
    ensures fails { IfErr result
        (λ failure. OverOpened opened (λ drive. U.fails it.now drive failure)) }
{
    let mut drive = opened.named::<J>();
    let given = it.apply(alloc, &mut drive, output);
    drop(drive);
    given
}
