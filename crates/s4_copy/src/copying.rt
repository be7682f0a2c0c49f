//! `copy`.
ghost use Rattle.std.specs.Prelude.{◌≡◌, ◌⊎◌, ◌+◌, ◌^◌, ◌<◌, ◌≤◌, [], length, Some};
ghost use Rattle.std.specs.Prelude.{IfErr, IfOk, OnErr, OnOk};
ghost use Rattle.std.specs.Io.KnownBytes.{Keeps};
ghost use Rattle.s4_types.specs.declared.refusals.Refusal.TheVariants.{NoRoom};
ghost use Rattle.image_parts.specs.Image.{image_in};
ghost use Rattle.verifier.specs.Grammar.{SpellsDrive};
ghost use Rattle.image_commands.specs.Faults.{SaysNoPlace};
ghost use Rattle.image_commands.specs.Files.{AreKnown, KeepsAll, KeepsOthers};
ghost use Rattle.migration.specs.Copies.{IsTooMuchToCopy};
ghost use Rattle.s4_copy.specs.Copying.{CopiesImage, IsCopy, IsMade, Tells};
ghost use Rattle.s4_copy.specs.Failures.{HasNoParts, KeepsCopy, RefusesCopy, SaysUncopied};
ghost use Rattle.s4_copy.specs.Failures.{SaysUnmade, SaysUnprinted};

use crate::asking::{check_named, frames_asked, moment_asked, objects_of};
use crate::counting::versions_left_out;
use crate::faults::{CopyFailure, failure_of};
use crate::reports::{Report, printed};
use image_commands::{
    Asked, Fault, Files, Obstacle, Placed, claim_empty, put_image, read_whole, write_out, writing,
};
use image_parts::{ImageParts, split_parts};
use s4_command::CopyAsked;
use s4_images::CommandOutput;
use s4_types::{Moment, Refusal};
use serving::Sink;
use std::alloc::Global;
use std::thread::Threads;
use verifier::laws::{what_has_a_fault_spells_nothing, what_has_no_fault_is_an_image};

/// The bytes of a copy, and its numbers.
#[derive(Drop)]
struct Made {
    bytes: Vec<u8>,
    report: Report,
    /// The image's clock.
    clock: Moment,
}

/// Makes the copy of an image that is asked for, in a file that isn't there, or that has no bytes,
/// and prints its numbers before that file is put in place. What has bytes is refused, since it may
/// be a drive. Where it fails all files are as they were.
///
/// The copy's file is looked at first, then the image's: that it can be read, and split into its
/// parts. NoObject comes then exactly where an object that is named has no row, with the first of
/// them; NoTimes exactly where a time is asked for and moments are numbers; a cause of damage where
/// the bytes are no image; NoRoom exactly where the copy would have more frames than it may have;
/// and Busy, where a count was full, only for a copy that lacks objects. NoMemory may come at each
/// of these.
pub fn copy_image<'a, T: Threads, F: Files, W: CommandOutput>(
    rt: &T,
    alloc: Global,
    files: &mut F,
    asked: &CopyAsked<'a>,
    writer: &mut W,
) -> Result<Placed, CopyFailure<'a>>
    requires writer { W.failures writer.old + 1 < 2 ^ 64 }
    ensures copied { OnOk result
        (CopiesImage (F.contents files.old asked.now.image.now)
        (F.contents files.new asked.now.copy.now) asked.now (W.passed writer.old)
        (W.passed writer.new)) }
    ensures empty { OnOk result (AreKnown (F.contents files.old asked.now.copy.now) []) }
    ensures others { OnOk result
        (KeepsOthers F.apart asked.now.copy.now (F.contents files.old) (F.contents files.new)) }
    ensures image { Keeps (F.contents files.old asked.now.image.now)
        (F.contents files.new asked.now.image.now) }
    ensures refused { IfErr result
        (SaysUncopied (F.contents files.old asked.now.image.now)
        (F.contents files.old asked.now.copy.now) asked.now (W.failures writer.old)
        (W.failures writer.new)) }
    ensures kept { OnErr result (KeepsAll (F.contents files.old) (F.contents files.new)) }
    ensures named { IfErr result
        (KeepsCopy (F.contents files.old asked.now.image.now) (F.contents files.new) asked.now
        (W.passed writer.old) (W.passed writer.new)) }
{
    // It comes first: a name that is taken is refused at once, the image's own too.
    let claim = match claim_apart(alloc, files, asked) {
        Ok(claim) => claim,
        Err(fault) => return Err(CopyFailure::OfCopy(fault)),
    };
    let made = match make_copy(rt, alloc, files, asked, writer) {
        Ok(made) => made,
        Err(failure) => return Err(failure),
    };
    match put_image(alloc, files, asked.copy, claim, made.as_slice()) {
        Ok(placed) => Ok(placed),
        Err(fault) => Err(CopyFailure::OfCopy(fault)),
    }
}

// Claims the path of the copy, where no file is, or one without bytes. What is written to it is
// never what the image has.
fn claim_apart<'a, F: Files>(
    alloc: Global,
    files: &F,
    asked: &CopyAsked<'a>,
) -> Result<F::Claim, Fault<'a>>
    ensures claimed { IfOk result (λ claim. F.leads claim asked.now.copy.now) }
    ensures empty { OnOk result (AreKnown (F.contents files.now asked.now.copy.now) []) }
    ensures apart { OnOk result (F.apart asked.now.copy.now asked.now.image.now) }
    ensures fault { IfErr result
        (SaysNoPlace (F.contents files.now asked.now.copy.now) asked.now.copy.now) }
{
    let claim = match claim_empty(alloc, files, asked.copy) {
        Ok(claim) => claim,
        Err(fault) => return Err(fault),
    };
    match files.are_same(asked.copy, asked.image) {
        Ok(false) => Ok(claim),
        Ok(true) => Err(writing(Obstacle::Shared, asked.copy)),
        Err(error) => Err(writing(Obstacle::from(error), asked.copy)),
    }
}

// The bytes of the copy, whose numbers are printed. None of its failures is of the copy's file.
fn make_copy<'a, T: Threads, F: Files, W: CommandOutput>(
    rt: &T,
    alloc: Global,
    files: &F,
    asked: &CopyAsked<'a>,
    writer: &mut W,
) -> Result<Vec<u8>, CopyFailure<'a>>
    requires writer { W.failures writer.old + 1 < 2 ^ 64 }
    ensures copied { IfOk result
        (λ new. CopiesImage (F.contents files.now asked.now.image.now)
        (Some new.items) asked.now (W.passed writer.old) (W.passed writer.new)) }
    ensures refused { IfErr result
        (SaysUnprinted (F.contents files.now asked.now.image.now) asked.now
        (W.failures writer.old) (W.failures writer.new)) }
{
    let bytes = read_whole(alloc, files, Asked::Present, asked.image)?;
    let made = copy_of(rt, alloc, bytes.as_slice(), asked)?;
    writer.drive_opened(made.clock);
    let text = printed(alloc, asked.json, &made.report)?;
    write_out(writer, text.as_bytes())?;
    Ok(made.bytes)
}

// The copy of the image that bytes are.
fn copy_of<'a, T: Threads>(
    rt: &T,
    alloc: Global,
    bytes: &[u8],
    asked: &CopyAsked<'a>,
) -> Result<Made, CopyFailure<'a>>
    ensures made { IfOk result
        (λ made. IsMade asked.now bytes.now made.bytes.items made.report) }
    ensures refused { IfErr result (SaysUnmade asked.now bytes.now) }
{
    let parts = parts_of(bytes)?;
    let named = asked.without.as_slice();
    check_named(alloc, &parts, named)?;
    let since = moment_asked(&parts.header(), asked.created_since)?;
    let objects = objects_of(alloc, named)?;
    let wanted = migration::CopyAsked {
        frames: frames_asked(asked.frames),
        objects: &objects,
        since,
    };
    match copy_wanted(rt, alloc, bytes, &parts, &wanted) {
        Ok(made) => Ok(made),
        Err(refusal) => Err(failure_of(refusal)),
    }
}

// The copy of the image that bytes are, which have these parts, once it is known what is wanted.
fn copy_wanted<T: Threads>(
    rt: &T,
    alloc: Global,
    bytes: &[u8],
    parts: &ImageParts<'_>,
    wanted: &migration::CopyAsked<'_>,
) -> Result<Made, Refusal>
    requires parts { parts.now ≡ image_in bytes.now }
    ensures copy { IfOk result
        (λ made. IsCopy wanted.now bytes.now made.bytes.items made.report) }
    ensures refused { IfErr result
        (λ e. ((e ≡ NoRoom) × IsTooMuchToCopy wanted.now bytes.now)
        ⊎ RefusesCopy wanted.now bytes.now e) }
{
    what_has_no_fault_is_an_image();
    let new = migration::copied(rt, alloc, bytes, wanted)?;
    let mut report = report_of(parts, new.as_slice());
    report.versions_left_out = versions_left_out(rt, alloc, bytes, wanted, report.left_out)?;
    Ok(Made {
        bytes: new,
        report,
        clock: parts.header().clock,
    })
}

// The parts of an image. No part was looked at yet.
fn parts_of(bytes: &[u8]) -> Result<ImageParts<'_>, Refusal>
    ensures parts { IfOk result (λ parts. parts ≡ image_in bytes.now) }
    ensures refused { IfErr result (HasNoParts bytes.now) }
{
    match split_parts(bytes) {
        Ok(parts) => Ok(parts),
        Err(cause) => Err(Refusal::Damaged(cause)),
    }
}

// The numbers of a copy, by the image's parts, without the versions that are left out.
fn report_of(parts: &ImageParts<'_>, new: &[u8]) -> Report
    requires spelled { SpellsDrive new.now (image_in new.now) }
    requires fewer { length (image_in new.now).rows ≤ length parts.now.rows }
    ensures { Tells parts.now (image_in new.now) result }
{
    what_has_a_fault_spells_nothing();
    let Ok(made) = split_parts(new) else {
        unreachable!()
    };
    let (was, is) = (parts.header(), made.header());
    Report {
        frames: is.frames,
        objects: is.rows,
        left_out: was.rows - is.rows,
        versions_left_out: 0,
    }
}
