//! `migrate`: a new image of one of an earlier version.
ghost use Rattle.std.specs.Prelude.{◌≡◌, ◌⊎◌, ℕ, [], List, IfErr, IfOk, OnErr, OnOk};
ghost use Rattle.std.specs.Prelude.{string_bytes};
ghost use Rattle.std.specs.Io.KnownBytes.{Keeps};
ghost use Rattle.s4_types.specs.declared.refusals.Cause.{Cause as Found};
ghost use Rattle.s4_types.specs.declared.refusals.Refusal.TheVariants.{Damaged, NoMemory};
ghost use Rattle.s4_types.specs.declared.refusals.Refusal.TheVariants.{NoRoom};
ghost use Rattle.verifier.specs.Images.{ImageFields};
ghost use Rattle.verifier.specs.Opened.{IsReadOf};
ghost use Rattle.image_commands.specs.Faults.{KeepsNew, SaysNoPlace, SaysUnplaced};
ghost use Rattle.image_commands.specs.Files.{AreKnown};
ghost use Rattle.image_commands.specs.Verifying.{image_line};
ghost use Rattle.image_parts.specs.Image.{image_in};
ghost use Rattle.verifier.specs.Grammar.{SpellsDrive};
ghost use Rattle.earlier_images.specs.Grammar.{FirstEarlierFault};
ghost use Rattle.migration.specs.Migrated.{IsTooMuch, LaysOut, Migrates};
ghost use Rattle.s4d.specs.Migrating.{HasLine, HasMigrated, SaysEarlierUnread, SaysUnmigrated};
ghost use Rattle.s4d.specs.Migrating.{SaysUntaken, parts_line};

use image_commands::{
    Asked, Fault, Files, Obstacle, Placed, claim_empty, number_line, put_image, read_whole, writing,
};
use image_parts::split_parts;
use migration::migrated;
use s4_types::Refusal;
use s4d_command::Migrate;
use std::alloc::{AllocError, Global};
use verifier::laws::{
    an_encoded_drive_is_read, what_has_a_fault_spells_nothing, what_has_no_fault_is_an_image,
};

/// A new image that is in its place.
#[derive(Drop)]
pub struct Migrated {
    pub placed: Placed,
    /// The line of its numbers.
    pub line: String,
}

/// The bytes of a new image, and the line of its numbers.
#[derive(Drop)]
struct Saved {
    bytes: Vec<u8>,
    line: String,
}

/// Makes a new image of one of an earlier version, by a name that no file has or in place of a file
/// without bytes. What has bytes is refused, since it may be a drive.
///
/// The earlier image is claimed until the new one is in its place: nobody changes it meanwhile, and
/// one that another program serves is refused. Whatever happens it stays as it is.
pub fn migrate_file<'a, F: Files>(
    alloc: Global,
    files: &mut F,
    asked: Migrate<'a>,
) -> Result<Migrated, Fault<'a>>
    ensures image { OnOk result
        (HasMigrated (F.contents files.old asked.entry.earlier.now)
        (F.contents files.new asked.entry.image.now)) }
    ensures line { IfOk result
        (λ made. HasLine (F.contents files.new asked.entry.image.now) (string_bytes made.line)) }
    // What has bytes is refused.
    ensures empty { OnOk result (AreKnown (F.contents files.old asked.entry.image.now) []) }
    ensures earlier { Keeps (F.contents files.old asked.entry.earlier.now)
        (F.contents files.new asked.entry.earlier.now) }
    ensures others { OnOk result
        ((path : List ℕ)
        → F.apart asked.entry.image.now path
        → Keeps (F.contents files.old path) (F.contents files.new path)) }
    ensures kept { OnErr result
        ((path : List ℕ) → Keeps (F.contents files.old path) (F.contents files.new path)) }
    ensures fault { IfErr result
        (SaysUnmigrated (F.contents files.old) (F.contents files.new) asked.entry) }
{
    what_has_no_fault_is_an_image();
    // It comes first: a name that is taken is refused at once, the earlier image's own too.
    let place = match claim_apart(alloc, files, asked) {
        Ok(place) => place,
        Err(fault) => return Err(fault),
    };
    let claim = match claim_earlier(alloc, files, asked.earlier) {
        Ok(claim) => claim,
        Err(fault) => return Err(fault),
    };
    let bytes = match read_earlier(alloc, files, &claim, asked.earlier) {
        Ok(bytes) => bytes,
        Err(fault) => return Err(fault),
    };
    let saved = match save_migrated(alloc, bytes) {
        Ok(saved) => saved,
        Err(refusal) => return Err(Fault::Refused(refusal)),
    };
    put_new(alloc, files, asked.image, place, saved)
}

// Claims the path of the new image, where no file is, or one without bytes. What is written to it
// is never what the earlier image has.
#[tactic(auto, using(image_commands::proofs::Said::no_place))]
fn claim_apart<'a, F: Files>(
    alloc: Global,
    files: &F,
    asked: Migrate<'a>,
) -> Result<F::Claim, Fault<'a>>
    ensures claimed { IfOk result (λ claim. F.leads claim asked.entry.image.now) }
    ensures empty { OnOk result (AreKnown (F.contents files.now asked.entry.image.now) []) }
    ensures apart { OnOk result (F.apart asked.entry.image.now asked.entry.earlier.now) }
    ensures fault { IfErr result
        (SaysNoPlace (F.contents files.now asked.entry.image.now) asked.entry.image.now) }
{
    let claim = match claim_empty(alloc, files, asked.image) {
        Ok(claim) => claim,
        Err(fault) => return Err(fault),
    };
    match files.are_same(asked.image, asked.earlier) {
        Ok(false) => Ok(claim),
        Ok(true) => Err(Fault::CannotWrite(asked.image, Obstacle::Shared)),
        Err(error) => Err(writing(Obstacle::from(error), asked.image)),
    }
}

// Claims the earlier image. Where not even its folder is there, it can't be read.
fn claim_earlier<'a, F: Files>(
    alloc: Global,
    files: &F,
    path: &'a str,
) -> Result<F::Claim, Fault<'a>>
    ensures claimed { IfOk result (λ claim. F.leads claim path.now) }
    ensures fault { IfErr result (SaysUntaken path.now) }
{
    match files.claim(alloc, path) {
        Ok(claim) => Ok(claim),
        Err(Obstacle::NoFolder) => Err(Fault::CannotRead(path, Obstacle::NotThere)),
        Err(obstacle) => Err(writing(obstacle, path)),
    }
}

// All bytes of the earlier image's file, which is claimed, so that nobody else serves it meanwhile.
fn read_earlier<'a, F: Files>(
    alloc: Global,
    files: &F,
    claim: &F::Claim,
    path: &'a str,
) -> Result<Vec<u8>, Fault<'a>>
    requires claimed { F.leads claim.now path.now }
    ensures bytes { IfOk result (λ bytes. AreKnown (F.contents files.now path.now) bytes.items) }
    ensures fault { IfErr result (SaysEarlierUnread (F.contents files.now path.now) path.now) }
{
    read_whole(alloc, files, Asked::Earlier, path)
}

// The bytes of the new image of an earlier one, and the line of its numbers.
//
// At most three copies of the blocks are there at once, all within `migrated`: the earlier image's
// bytes, and of the new one its bytes beside the table that they are written from. The new image
// isn't read back for its line: what its objects take would be more than all of these.
fn save_migrated(alloc: Global, bytes: Vec<u8>) -> Result<Saved, Refusal>
    ensures migrates { IfOk result (λ saved. Migrates bytes.items saved.bytes.items) }
    ensures layout { IfOk result (λ saved. LaysOut bytes.items saved.bytes.items) }
    ensures line { IfOk result
        (λ saved. (image : ImageFields)
        × IsReadOf saved.bytes.items image × (string_bytes saved.line ≡ image_line image)) }
    ensures refusal { IfErr result
        (λ e. (e ≡ NoMemory)
        ⊎ (((e ≡ NoRoom) × IsTooMuch bytes.items)
        ⊎ ((cause : Found) × (e ≡ Damaged cause) × FirstEarlierFault bytes.items (Some cause)))) }
{
    what_has_no_fault_is_an_image();
    an_encoded_drive_is_read();
    let new = match migrated(alloc, bytes.as_slice()) {
        Ok(new) => new,
        Err(refusal) => return Err(refusal),
    };
    drop(bytes);
    let line = line_of(alloc, new.as_slice())?;
    Ok(Saved { bytes: new, line })
}

// The line that `verify` writes of the image that bytes encode. Its numbers are in the header.
fn line_of(alloc: Global, bytes: &[u8]) -> Result<String, AllocError>
    requires spelled { SpellsDrive bytes.now (image_in bytes.now) }
    ensures line { IfOk result (λ line. string_bytes line ≡ parts_line (image_in bytes.now)) }
{
    what_has_a_fault_spells_nothing();
    let Ok(parts) = split_parts(bytes) else {
        unreachable!()
    };
    let header = parts.header();
    let objects = header.rows as usize;
    let (clock, window, floor) = (header.clock, header.window, header.floor);
    number_line(alloc, header.frames, objects, clock, window, floor)
}

// Puts the new image in its place, which is claimed.
fn put_new<'a, F: Files>(
    alloc: Global,
    files: &mut F,
    path: &'a str,
    claim: F::Claim,
    saved: Saved,
) -> Result<Migrated, Fault<'a>>
    requires claimed { F.leads claim path.now }
    ensures image { OnOk result (AreKnown (F.contents files.new path.now) saved.bytes.items) }
    ensures line { IfOk result (λ made. string_bytes made.line ≡ string_bytes saved.line) }
    ensures others { OnOk result
        ((other : List ℕ)
        → F.apart path.now other
        → Keeps (F.contents files.old other) (F.contents files.new other)) }
    ensures kept { OnErr result
        ((other : List ℕ) → Keeps (F.contents files.old other) (F.contents files.new other)) }
    ensures fault { IfErr result (SaysUnplaced path.now) }
    ensures named { IfErr result (KeepsNew (F.contents files.new) saved.bytes.items) }
{
    let Saved { bytes, line } = saved;
    match put_image(alloc, files, path, claim, bytes.as_slice()) {
        Ok(placed) => Ok(Migrated { placed, line }),
        Err(fault) => Err(fault),
    }
}
