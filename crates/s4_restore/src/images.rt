//! `restore` over the image in a file.
ghost use Rattle.std.specs.Prelude.{◌≡◌, ℕ, ◌+◌, ◌^◌, ◌<◌, true, List, IfErr, IfOk, OnErr};
ghost use Rattle.std.specs.Prelude.{OnOk};
ghost use Rattle.std.specs.Io.KnownBytes.{Keeps};
ghost use Rattle.image_commands.specs.declared.files.Placed.TheVariants.{Lasting};
ghost use Rattle.s4_images.specs.declared.commands.Verdict.TheVariants.{Fine};
ghost use Rattle.s4_restore.specs.Images.{PerformsRestore, PutsRestored, RestoresImage};
ghost use Rattle.s4_restore.specs.Images.{WouldRestoreImage};
ghost use Rattle.s4_restore.specs.Searching.{FailsInStyle};

use crate::counting::Counted;
use crate::maps::{MapFault, read_map};
use crate::preparing::{order_of, prepare_image};
use history_restore::StandIn;
use image_commands::{Files, Placed};
use restore_orders::{Order, Preview};
use s4_command::RestoreAsked;
use s4_images::{CommandOutput, Failure, Verdict, change_image, over_image, use_image};
use std::alloc::Global;
use std::thread::Threads;

/// Prints what [`restore_image`] does, and leaves the image as it is; or fails as that does. The
/// moments of a failure are dates where the drive's clock counts microseconds of Unix time.
pub fn dry_run_image<T: Threads, F: Files, W: CommandOutput>(
    rt: &T,
    alloc: Global,
    files: &F,
    asked: &RestoreAsked<'_>,
    stand_ins: &[StandIn],
    writer: &mut W,
) -> Result<Verdict, Failure>
    requires writer { W.failures writer.old + 1 < 2 ^ 64 }
    ensures verdict { IfOk result (λ verdict. verdict ≡ Fine) }
    ensures style { IfErr result
        (FailsInStyle (F.contents files.now asked.entry.now.image.now)) }
    ensures would_restore { OnOk result
        (WouldRestoreImage (F.contents files.now asked.entry.now.image.now) asked.entry.now stand_ins.now
        (W.passed writer.old) (W.passed writer.new)) }
{
    let made = prepare_image(rt, alloc, files, asked, stand_ins, writer)?;
    let order = order_of(files, asked, stand_ins, &made);
    let counted = Counted { order: &order };
    over_image(rt, alloc, files, asked.image, &counted, writer)
}

/// Restores the drive of an image, saves it there, and prints what was done to each object. What an
/// earlier restore made anew is compared and turned back under the number that it got, where it is
/// among these stand-ins and there. What is needed for that is found before, by trials that aren't
/// saved: by which means room is made, if it has to be, and where that is asked for how many
/// versions are hidden of objects whose journals are full, as few as serve, and what is left out.
/// The window is widened where the moment would expire on the way. Where nothing is to be changed
/// the file isn't replaced.
///
/// An error where the moment can't be read, where an object that is named has no row, where a
/// stand-in's number was never given, or where something can't be restored and isn't to be left
/// out: then it names all of that. Where anything fails all files are as they were.
#[tactic(auto, using(s4_images::proofs::Kept::untouched))]
pub fn restore_image<T: Threads, F: Files, W: CommandOutput>(
    rt: &T,
    alloc: Global,
    files: &mut F,
    asked: &RestoreAsked<'_>,
    stand_ins: &[StandIn],
    writer: &mut W,
) -> Result<Placed, Failure>
    requires writer { W.failures writer.old + 1 < 2 ^ 64 }
    ensures restores { OnOk result
        (RestoresImage (F.contents files.old asked.entry.now.image.now)
        (F.contents files.new asked.entry.now.image.now) asked.entry.now stand_ins.now (W.passed writer.old)
        (W.passed writer.new)) }
    ensures kept { OnErr result
        ((path : List ℕ) → Keeps (F.contents files.old path) (F.contents files.new path)) }
{
    let made = prepare_image(rt, alloc, files, asked, stand_ins, writer)?;
    let order = order_of(files, asked, stand_ins, &made);
    put_restored(rt, alloc, files, asked.image, &order, writer)
}

// Restores the drive of an image by an order and saves it there, or leaves the file where nothing
// is to be changed. Prints what was done.
#[tactic(auto, using(s4_images::proofs::Kept::untouched))]
fn put_restored<T: Threads, F: Files, W: CommandOutput>(
    rt: &T,
    alloc: Global,
    files: &mut F,
    image: &str,
    order: &Order<'_>,
    writer: &mut W,
) -> Result<Placed, Failure>
    requires writer { W.failures writer.old + 1 < 2 ^ 64 }
    ensures put { OnOk result
        (PutsRestored (F.contents files.old image.now) (F.contents files.new image.now) order.now
        (W.passed writer.old) (W.passed writer.new)) }
    ensures kept { OnErr result
        ((path : List ℕ) → Keeps (F.contents files.old path) (F.contents files.new path)) }
{
    let preview = Preview { order };
    let changes = use_image(rt, alloc, files, image, &preview, &mut ())?;
    let counted = Counted { order };
    if changes {
        return change_image(rt, alloc, files, image, &counted, writer);
    }
    let _verdict = over_image(rt, alloc, files, image, &counted, writer)?;
    Ok(Placed::Lasting)
}

/// Why a restore failed.
#[derive(Debug, Drop)]
pub enum RestoreFailure {
    /// What an earlier restore printed can't be taken.
    OfMap(MapFault),
    /// The drive in the image can't be restored, or not saved.
    OfImage(Failure),
}

/// Does what is asked for, by the stand-ins that the map has which is named: as [`dry_run_image`]
/// where nothing is to be changed, else as [`restore_image`]. Where it fails all files are as they
/// were.
#[tactic(auto, using(s4_images::proofs::Kept::untouched))]
pub fn perform_restore<T: Threads, F: Files, W: CommandOutput>(
    rt: &T,
    alloc: Global,
    files: &mut F,
    asked: &RestoreAsked<'_>,
    writer: &mut W,
) -> Result<Placed, RestoreFailure>
    requires writer { W.failures writer.old + 1 < 2 ^ 64 }
    ensures dry { IfOk result (λ placed. asked.entry.now.dry_run ≡ true → placed ≡ Lasting) }
    ensures performs { OnOk result
        (PerformsRestore (F.contents files.old) (F.contents files.new) asked.entry.now
        (W.passed writer.old) (W.passed writer.new)) }
    ensures kept { OnErr result
        ((path : List ℕ) → Keeps (F.contents files.old path) (F.contents files.new path)) }
{
    let stand_ins = match read_map(alloc, files, asked.map) {
        Ok(stand_ins) => stand_ins,
        Err(fault) => return Err(RestoreFailure::OfMap(fault)),
    };
    if asked.dry_run {
        return match dry_run_image(rt, alloc, files, asked, stand_ins.as_slice(), writer) {
            Ok(_) => Ok(Placed::Lasting),
            Err(failure) => Err(RestoreFailure::OfImage(failure)),
        };
    }
    match restore_image(rt, alloc, files, asked, stand_ins.as_slice(), writer) {
        Ok(placed) => Ok(placed),
        Err(failure) => Err(RestoreFailure::OfImage(failure)),
    }
}
