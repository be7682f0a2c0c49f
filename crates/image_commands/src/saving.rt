//! Drives that are written to files, and `new`.
ghost use Rattle.std.specs.Prelude.{◌≡◌, ◌+◌, ◌*◌, ℕ, true, false, List, [], None, IfErr, IfOk};
ghost use Rattle.std.specs.Prelude.{OnErr, OnOk};
ghost use Rattle.std.specs.Io.KnownBytes.{Keeps};
ghost use Rattle.s4_types.specs.Sizes.{IsFrameCount};
ghost use Rattle.s4_types.specs.declared.refusals.Refusal.TheVariants.{NoMemory};
ghost use Rattle.s4_model.specs.State.{new_base};
ghost use Rattle.image_commands.specs.Files.{AreKnown, KeepsAll, KeepsOthers};
ghost use Rattle.image_commands.specs.Faults.{KeepsMade, KeepsNew, SaysNoPlace, SaysUnmade};
ghost use Rattle.image_commands.specs.Faults.{SaysUnplaced, SaysUnwritable};
ghost use Rattle.image_commands.specs.Making.{HasNew, IsEmptyStore, SpellsNew};
ghost use Rattle.image_commands.specs.Verifying.{longest_without_audit};

use crate::faults::{Fault, writing};
use crate::files::{Files, NotReplaced, Placed};
use crate::obstacles::Obstacle;
use drive::NewDrive;
use image_parts::image_length;
use s4_types::Refusal;
use s4_types::limits::{PAYLOAD_BLOCKS, RUNS_IN_ALL};
use s4d_command::New;
use segment_word::Naming;
use std::alloc::Global;
use std::marker::Brand;
use verifier::save;

/// Writes the image of a new drive, by a name that no file has or in place of a file without bytes.
/// What has bytes is refused, since it may be a drive.
pub fn make_file<'a, F: Files>(
    alloc: Global,
    files: &mut F,
    asked: New<'a>,
) -> Result<Placed, Fault<'a>>
    requires frames { IsFrameCount asked.frames }
    ensures image { OnOk result
        (HasNew asked.entry.frames asked.entry.window
        (F.contents files.new asked.entry.image.now)) }
    // What has bytes is refused.
    ensures empty { OnOk result (AreKnown (F.contents files.old asked.entry.image.now) []) }
    ensures others { OnOk result
        (KeepsOthers F.apart asked.entry.image.now (F.contents files.old) (F.contents files.new)) }
    ensures kept { OnErr result (KeepsAll (F.contents files.old) (F.contents files.new)) }
    ensures fault { IfErr result
        (SaysUnmade (F.contents files.old asked.entry.image.now) asked.entry.image.now) }
    ensures named { IfErr result
        (KeepsMade asked.entry.frames asked.entry.window (F.contents files.new)) }
{
    let made = match NewDrive::new(alloc, asked.frames as usize, asked.window) {
        Ok(made) => made,
        Err(refusal) => return Err(Fault::Refused(refusal)),
    };
    let bytes = match save_new::<Brand>(alloc, made, asked) {
        Ok(bytes) => bytes,
        Err(refusal) => return Err(Fault::Refused(refusal)),
    };
    match claim_empty(alloc, files, asked.image) {
        Ok(claim) => put_image(alloc, files, asked.image, claim, bytes.as_slice()),
        Err(fault) => Err(fault),
    }
}

/// Claims the path of a new image, where no file is, or one without bytes. What has bytes is
/// refused, since it may be a drive.
pub fn claim_empty<'a, F: Files>(
    alloc: Global,
    files: &F,
    path: &'a str,
) -> Result<F::Claim, Fault<'a>>
    ensures claimed { IfOk result (λ claim. F.leads claim path.now) }
    ensures empty { OnOk result (AreKnown (F.contents files.now path.now) []) }
    ensures fault { IfErr result (SaysNoPlace (F.contents files.now path.now) path.now) }
{
    let claim = match files.claim(alloc, path) {
        Ok(claim) => claim,
        Err(obstacle) => return Err(writing(obstacle, path)),
    };
    match files.has_bytes(&claim) {
        Ok(false) => Ok(claim),
        Ok(true) => Err(Fault::HasBytes(path)),
        Err(error) => Err(writing(Obstacle::from(error), path)),
    }
}

/// Puts these bytes at a claimed path. Where that fails and they are all in the file beside it, the
/// fault names that.
pub fn put_image<'a, F: Files>(
    alloc: Global,
    files: &mut F,
    path: &'a str,
    claim: F::Claim,
    bytes: &[u8],
) -> Result<Placed, Fault<'a>>
    requires claimed { F.leads claim path.now }
    ensures image { OnOk result (AreKnown (F.contents files.new path.now) bytes.now) }
    ensures others { OnOk result
        (KeepsOthers F.apart path.now (F.contents files.old) (F.contents files.new)) }
    ensures kept { OnErr result (KeepsAll (F.contents files.old) (F.contents files.new)) }
    ensures fault { IfErr result (SaysUnplaced path.now) }
    ensures named { IfErr result (KeepsNew (F.contents files.new) bytes.now) }
{
    match Place::beside(alloc, files, path, claim, 0) {
        Ok(place) => place.put(files, bytes),
        Err(fault) => Err(fault),
    }
}

// The image of a drive that was just made.
fn save_new<J: Naming>(alloc: Global, made: NewDrive, asked: New<'_>) -> Result<Vec<u8>, Refusal>
    requires frames { made.store.table.seat.table ≡ J.frames }
    requires accepts { made.accepts ≡ J.accepts }
    requires base { new_base made.window ≡ J.base }
    requires window { made.window ≡ asked.window }
    requires store { IsEmptyStore asked.frames made.store }
    ensures image { IfOk result
        (λ bytes. SpellsNew asked.entry.frames asked.entry.window bytes.items) }
    ensures refusal { IfErr result (λ e. e ≡ NoMemory) }
{
    let mut drive = made.named::<J>();
    let saved = save(alloc, &mut drive);
    drop(drive);
    saved
}

/// An image's path that is claimed, and the file beside it that takes its place.
#[derive(Drop)]
pub struct Place<'a, F: Files> {
    pub path: &'a str,
    pub claim: F::Claim,
    pub beside: F::Beside,
}

impl<'a, F: Files> Place<'a, F> {
    /// Makes a file of this length in bytes beside an image: what is put there later has room on
    /// the disk.
    pub fn beside(
        alloc: Global,
        files: &mut F,
        path: &'a str,
        claim: F::Claim,
        length: usize,
    ) -> Result<Self, Fault<'a>>
        requires claimed { F.leads claim path.now }
        ensures path { IfOk result (λ place. place.path.now ≡ path.now) }
        ensures claimed { IfOk result (λ place. F.leads place.claim place.path.now) }
        ensures others { KeepsAll (F.contents files.old) (F.contents files.new) }
        ensures reserved { IfOk result
            (λ place. (other : List ℕ)
            → F.is_beside place.beside other ≡ true → F.reserves claim other ≡ true) }
        ensures unknown { IfOk result
            (λ place. (other : List ℕ)
            → F.is_beside place.beside other ≡ true → F.contents files.old other ≡ None) }
        ensures fault { IfErr result (SaysUnwritable path.now) }
    {
        match files.make_beside(alloc, &claim, length) {
            Ok(beside) => Ok(Place {
                path,
                claim,
                beside,
            }),
            Err(obstacle) => Err(writing(obstacle, path)),
        }
    }

    /// Leaves the image as it is.
    pub fn leave(self, files: &mut F)
        ensures others { (other : List ℕ)
            → F.is_beside self.entry.beside other ≡ false
            → Keeps (F.contents files.old other) (F.contents files.new other) }
    {
        files.remove_beside(self.beside);
    }

    /// Replaces the image by these bytes. Where that fails and they are all in the file beside it,
    /// the fault names that.
    pub fn put(self, files: &mut F, bytes: &[u8]) -> Result<Placed, Fault<'a>>
        requires claimed { F.leads self.claim self.path.now }
        ensures image { OnOk result
            (AreKnown (F.contents files.new self.entry.path.now) bytes.now) }
        ensures elsewhere { OnOk result
            ((other : List ℕ)
            → F.apart self.entry.path.now other
            → F.is_beside self.entry.beside other ≡ false
            → Keeps (F.contents files.old other) (F.contents files.new other)) }
        ensures others { OnErr result
            ((other : List ℕ)
            → F.is_beside self.entry.beside other ≡ false
            → Keeps (F.contents files.old other) (F.contents files.new other)) }
        ensures fault { IfErr result (SaysUnplaced self.entry.path.now) }
        ensures kept { IfErr result (λ fault. KeepsNew (F.contents files.new) bytes.now fault) }
    {
        let Place {
            path,
            claim,
            beside,
        } = self;
        match files.replace(claim, beside, bytes) {
            Ok(placed) => Ok(placed),
            Err(
                NotReplaced {
                    obstacle,
                    kept: Some(kept),
                },
            ) => Err(Fault::KeptIn(path, obstacle, kept)),
            Err(NotReplaced { obstacle, .. }) => Err(writing(obstacle, path)),
        }
    }
}

/// How many bytes the longest image of this many frames has that has no audit rows: all frames are
/// used, each block of payload is a row's own, and there are as many runs of hidden moments as a
/// drive may have. An image with audit rows may be longer.
pub fn longest_image(frames: u16) -> usize
    ensures { result ≡ longest_without_audit frames }
{
    let rows = u32::from(frames) * PAYLOAD_BLOCKS as u32;
    image_length(frames, frames, rows, RUNS_IN_ALL as u32, 0)
}
