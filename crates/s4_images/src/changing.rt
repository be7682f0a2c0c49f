//! Commands that change the drive of an image, and save it.
ghost use Rattle.std.specs.Prelude.{◌≡◌, ℕ, ◌+◌, ◌^◌, ◌<◌, false, List, Option, IfOk, OnErr, OnOk};
ghost use Rattle.std.specs.Io.KnownBytes.{Keeps};
ghost use Rattle.segment_table.specs.Room.{log_of};
ghost use Rattle.version_store.specs.Store.{fields_of};
ghost use Rattle.drive.specs.Fields.{DriveFields};
ghost use Rattle.drive.specs.Opened.{base_of};
ghost use Rattle.s4_images.specs.Commands.{ChangesImage, SavesChanged, SavesOpened, SavesRead};

use crate::commands::CommandOutput;
use crate::faults::Failure;
use crate::using::{DriveUse, use_opened};
use drive::{Drive, OpenedDrive};
use image_commands::{Files, Place, Placed, longest_image, read_image, writing};
use segment_word::Naming;
use serving::Sink;
use std::alloc::Global;
use std::marker::Brand;
use std::thread::Threads;
use verifier::{Image, open, save};

/// What changes a drive, and prints what it did.
pub trait DriveChange {
    // What the drive is once the change is made, and what the output has after it: by the drive
    // before and after it, and the output.
    ghost changes: { Self → DriveFields → DriveFields → Option (List ℕ) → Option (List ℕ) → Type 0 };

    /// Makes the change. Where it fails, the drive may be changed in part: it isn't saved then.
    fn make<J: Naming, W: Sink>(
        &self,
        alloc: Global,
        drive: &mut Drive<J>,
        writer: &mut W,
    ) -> Result<(), Failure>
        requires writer { W.failures writer.old + 1 < 2 ^ 64 }
        ensures changes { OnOk result (changes self.now drive.old drive.new (W.passed writer.old) (W.passed writer.new)) };
}

/// Changes the drive that the image in a file tells, and saves it in that file. Where anything
/// fails all files are as they were. That it can be replaced is known before the change: another
/// program that serves it, a file that can't be made beside it, or a disk without room for the
/// longest image is a failure then.
#[tactic(auto, using(crate::proofs::Kept::untouched))]
pub fn change_image<T: Threads, F: Files, C: DriveChange, W: CommandOutput>(
    rt: &T,
    alloc: Global,
    files: &mut F,
    image: &str,
    change: &C,
    writer: &mut W,
) -> Result<Placed, Failure>
    requires writer { W.failures writer.old + 1 < 2 ^ 64 }
    ensures changed { OnOk result
        (ChangesImage (F.contents files.old image.now) (F.contents files.new image.now)
        (λ drive later. C.changes change.now drive later (W.passed writer.old)
        (W.passed writer.new))) }
    ensures kept { OnErr result
        ((path : List ℕ) → Keeps (F.contents files.old path) (F.contents files.new path)) }
{
    // The claim comes first, so that nobody replaces what is read; what can't be read is the first
    // failure all the same.
    let claim = files.claim(alloc, image);
    let read = read_image(rt, alloc, files, image)?;
    match claim {
        Ok(claim) => change_claimed(alloc, files, image, claim, read, change, writer),
        Err(obstacle) => {
            drop(read);
            Err(Failure::from(writing(obstacle, image)))
        }
    }
}

// The same of an image that was claimed and read.
#[tactic(auto, using(crate::proofs::Kept::untouched))]
fn change_claimed<F: Files, C: DriveChange, W: CommandOutput>(
    alloc: Global,
    files: &mut F,
    image: &str,
    claim: F::Claim,
    read: Image,
    change: &C,
    writer: &mut W,
) -> Result<Placed, Failure>
    requires writer { W.failures writer.old + 1 < 2 ^ 64 }
    requires claimed { F.leads claim image.now }
    ensures changed { OnOk result
        (SavesRead read (F.contents files.new image.now)
        (λ drive later. C.changes change.now drive later (W.passed writer.old)
        (W.passed writer.new))) }
    ensures kept { OnErr result
        ((path : List ℕ) → Keeps (F.contents files.old path) (F.contents files.new path)) }
{
    let length = longest_image(read.frames());
    let opened = open(alloc, read)?;
    match Place::beside(alloc, files, image, claim, length) {
        Ok(place) => change_opened::<Brand, F, C, W>(alloc, files, place, opened, change, writer),
        Err(fault) => {
            drop(opened);
            Err(Failure::from(fault))
        }
    }
}

// Changes a drive that was just opened, and puts its image in its place.
fn change_opened<'a, J: Naming, F: Files, C: DriveChange, W: CommandOutput>(
    alloc: Global,
    files: &mut F,
    place: Place<'a, F>,
    opened: OpenedDrive,
    change: &C,
    writer: &mut W,
) -> Result<Placed, Failure>
    requires accepts { opened.accepts ≡ J.accepts }
    requires frames { opened.store.table.seat.table ≡ J.frames }
    requires base { base_of (fields_of log_of opened.store) opened.timeline opened.next
        opened.audit ≡ J.base }
    requires writer { W.failures writer.old + 1 < 2 ^ 64 }
    requires claimed { F.leads place.claim place.path.now }
    ensures changed { OnOk result
        (SavesOpened opened (F.contents files.new place.entry.path.now)
        (λ drive later. C.changes change.now drive later (W.passed writer.old)
        (W.passed writer.new))) }
    ensures kept { OnErr result
        ((path : List ℕ)
        → F.is_beside place.entry.beside path ≡ false
        → Keeps (F.contents files.old path) (F.contents files.new path)) }
{
    match use_opened::<J, Vec<u8>, W, Saving<'_, C>>(alloc, opened, &Saving { change }, writer) {
        Ok(bytes) => {
            let placed = place.put(files, bytes.as_slice())?;
            Ok(placed)
        }
        Err(failure) => {
            place.leave(files);
            Err(failure)
        }
    }
}

/// A change, with what the drive is saved as after it.
#[derive(Clone, Copy)]
struct Saving<'a, C: DriveChange> {
    change: &'a C,
}

impl<C: DriveChange, W: CommandOutput> DriveUse<Vec<u8>, W> for Saving<'_, C> {
    ghost takes = { λ _ writer. W.failures writer + 1 < 2 ^ 64 };

    ghost gives = { λ it d bytes before after. SavesChanged (λ later. C.changes it.change.now d later (W.passed before) (W.passed after)) bytes.items };

    fn apply<J: Naming>(
        &self,
        alloc: Global,
        drive: &mut Drive<J>,
        writer: &mut W,
    ) -> Result<Vec<u8>, Failure> {
        writer.drive_opened(drive.clock());
        self.change.make(alloc, drive, writer)?;
        let bytes = save(alloc, drive)?;
        Ok(bytes)
    }
}
