//! What is needed to restore the drive of an image, found by trials of which nothing is kept.
ghost use Rattle.std.specs.Prelude.{◌≡◌, ◌⊎◌, [], false, IfErr, IfOk, IsTrue, Some};
ghost use Rattle.s4_images.specs.Failures.{HasNoMoments};
ghost use Rattle.s4_restore.specs.Images.{IsOrderOf, IsPrepared};
ghost use Rattle.s4_restore.specs.Searching.{FailsInStyle, IsAskedBy, IsFound, IsFoundBy};
ghost use Rattle.restore_search.specs.Searching.{numbers_of};

use crate::searching::{Findings, Trials, found_by, found_plainly};
use history_restore::StandIn;
use image_commands::Files;
use restore_orders::{Means, Order};
use restore_search::{Lack, Lacking, Room, numbers_of};
use s4_command::RestoreAsked;
use s4_images::{CommandOutput, Failure};
use s4_types::{ObjectId, Refusal};
use std::alloc::{AllocError, Global};
use std::thread::Threads;

/// What is needed beside what is asked for.
#[derive(Drop)]
pub struct Preparation {
    /// By which means room is made first.
    pub means: Means,
    /// The objects whose journals are full, and how much room each takes.
    pub full: Vec<Room>,
    /// The objects that can't be restored.
    pub skipped: Vec<ObjectId>,
}

/// The order that has this preparation.
pub(crate) fn order_of<'a, F: Files>(
    _files: &F,
    asked: &'a RestoreAsked<'_>,
    stand_ins: &'a [StandIn],
    made: &'a Preparation,
) -> Order<'a>
    ensures { IsPrepared (F.contents _files.now asked.entry.now.image.now) asked.entry.now stand_ins.now
        made.now.means made.now.full.items made.now.skipped.items
        → IsOrderOf (F.contents _files.now asked.entry.now.image.now) asked.entry.now stand_ins.now result }
{
    order_with(
        asked,
        stand_ins,
        made.means,
        made.full.as_slice(),
        made.skipped.as_slice(),
    )
}

/// What is asked for, with what was found to be needed.
pub(crate) fn order_with<'a>(
    asked: &'a RestoreAsked<'_>,
    stand_ins: &'a [StandIn],
    means: Means,
    full: &'a [Room],
    skipped: &'a [ObjectId],
) -> Order<'a>
    ensures asks { IsAskedBy asked.entry.now stand_ins.now result }
    ensures means { result.means ≡ means }
    ensures full { result.full.now ≡ full.now }
    ensures skipped { result.skipped.now ≡ skipped.now }
{
    Order {
        at: asked.at,
        objects: asked.objects.as_slice(),
        name: asked.name,
        stand_ins,
        time: asked.now,
        leap: asked.leap.unwrap_or(0),
        to_nothing: asked.to_nothing,
        keep_newer: asked.keep_newer,
        json: asked.json,
        means,
        full,
        skipped,
    }
}

/// What is needed to restore the drive of an image. A failure where an object can't be restored,
/// with all such objects. The writer hears of the drive before it is tried, and nothing is written.
pub(crate) fn prepare_image<T: Threads, F: Files, W: CommandOutput>(
    rt: &T,
    alloc: Global,
    files: &F,
    asked: &RestoreAsked<'_>,
    stand_ins: &[StandIn],
    writer: &mut W,
) -> Result<Preparation, Failure>
    ensures prepared { IfOk result
        (λ made. IsPrepared (F.contents files.now asked.entry.now.image.now) asked.entry.now stand_ins.now
        made.means made.full.items made.skipped.items) }
    ensures style { IfErr result
        (FailsInStyle (F.contents files.now asked.entry.now.image.now)) }
    ensures passed { W.passed writer.new ≡ W.passed writer.old }
    ensures failures { W.failures writer.new ≡ W.failures writer.old }
{
    let trials = Trials {
        rt,
        alloc,
        files,
        asked,
        stand_ins,
    };
    let findings = find_needed(&trials, writer)?;
    if is_allowed(asked.skip, findings.lacking.as_slice()) {
        return prepared(alloc, findings);
    }
    let lacking = findings.lacking.as_slice();
    let objects = lacking_text(alloc, lacking)?;
    Err(Failure::NoRoomFor {
        objects,
        advice: advice(asked.flush, lacking),
    })
}

// Whether nothing is lacking, or what is may be left out.
fn is_allowed(skip: bool, lacking: &[Lacking]) -> bool
    ensures { IsTrue result → skip ≡ false → lacking.now ≡ [] }
{
    skip || lacking.is_empty()
}

// What is needed where objects that can't be restored are left as they are.
fn prepared(alloc: Global, findings: Findings) -> Result<Preparation, Failure>
    ensures made { IfOk result
        (λ made. (made.means ≡ findings.means) × (made.full ≡ findings.full)
        × (made.skipped.items ≡ numbers_of findings.lacking.items)) }
    ensures style { IfErr result HasNoMoments }
{
    let skipped = numbers_of(alloc, findings.lacking.as_slice())?;
    Ok(Preparation {
        means: findings.means,
        full: findings.full,
        skipped,
    })
}

// Finds what is needed to restore all objects that can be restored. First nothing is hidden or
// skipped.
fn find_needed<T: Threads, F: Files, W: CommandOutput>(
    trials: &Trials<'_, T, F>,
    writer: &mut W,
) -> Result<Findings, Failure>
    ensures found { IfOk result
        (IsFound (F.contents trials.now.files.now trials.now.asked.now.image.now)
        trials.now.asked.now trials.now.stand_ins.now) }
    ensures style { IfErr result
        (FailsInStyle (F.contents trials.now.files.now trials.now.asked.now.image.now)) }
    ensures passed { W.passed writer.new ≡ W.passed writer.old }
    ensures failures { W.failures writer.new ≡ W.failures writer.old }
{
    if let Some(found) = found_plainly(trials, Means::Nothing, writer)? {
        return Ok(found);
    }
    if let Some(found) = found_plainly(trials, Means::Cleaning, writer)? {
        return Ok(found);
    }
    if let Some(found) = found_plainly(trials, Means::Moves, writer)? {
        return Ok(found);
    }
    found_leaving(trials, writer)
}

// What is needed where no means serve alone: those by which the fewest objects can't be restored.
fn found_leaving<T: Threads, F: Files, W: CommandOutput>(
    trials: &Trials<'_, T, F>,
    writer: &mut W,
) -> Result<Findings, Failure>
    ensures found { IfOk result
        (λ found. IsFoundBy (F.contents trials.now.files.now trials.now.asked.now.image.now)
        trials.now.asked.now trials.now.stand_ins.now found.means found) }
    ensures style { IfErr result
        (FailsInStyle (F.contents trials.now.files.now trials.now.asked.now.image.now)) }
    ensures passed { W.passed writer.new ≡ W.passed writer.old }
    ensures failures { W.failures writer.new ≡ W.failures writer.old }
{
    let cleaned = found_by(trials, Means::Cleaning, writer)?;
    if serves_all(&cleaned) {
        return found_or_none(cleaned);
    }
    let moved = found_by(trials, Means::Moves, writer)?;
    if serves_all(&moved) {
        return found_or_none(moved);
    }
    // room isn't made where as much can be restored without
    let plain = found_by(trials, Means::Nothing, writer)?;
    found_or_none(better(plain, better(cleaned, moved)))
}

// What was found, where anything was. Without any means of making room a trial is always to be had.
fn found_or_none(found: Option<Findings>) -> Result<Findings, Failure>
    ensures found { IfOk result (λ findings. found ≡ Some findings) }
    ensures style { IfErr result HasNoMoments }
{
    match found {
        Some(findings) => Ok(findings),
        None => Err(Failure::from(Refusal::NoRoom)),
    }
}

// The findings with which fewer objects can't be restored; the first where as many can't.
fn better(first: Option<Findings>, second: Option<Findings>) -> Option<Findings>
    ensures { (result ≡ first) ⊎ (result ≡ second) }
{
    let Some(one) = first else {
        return second;
    };
    match second {
        Some(other) if other.lacking.len() < one.lacking.len() => Some(other),
        _ => Some(one),
    }
}

fn serves_all(found: &Option<Findings>) -> bool {
    match found {
        Some(findings) => findings.lacking.is_empty(),
        None => false,
    }
}

// The objects that can't be restored, and why each.
fn lacking_text(alloc: Global, lacking: &[Lacking]) -> Result<String, AllocError> {
    let mut text = String::new(alloc);
    for one in lacking {
        if !text.is_empty() {
            text.push_str(", ")?;
        }
        let number = one.object.number();
        let why = match one.lack {
            Lack::Version => "its moment is hidden",
            Lack::Journal => "its journal is full",
            Lack::Runs => "its moments are hidden in 64 runs",
            Lack::Blocks => "no room for its blocks",
        };
        let piece = format!(in alloc; "{number} ({why})")?;
        text.push_str(piece.as_str())?;
    }
    Ok(text)
}

// What can be done about these.
fn advice(flush: bool, lacking: &[Lacking]) -> &'static str {
    if !flush && lacking.iter().any(|one| one.lack == Lack::Journal) {
        return "--flush hides as few moments of full journals as serve, --skip restores the others";
    }
    "--skip restores the others"
}
