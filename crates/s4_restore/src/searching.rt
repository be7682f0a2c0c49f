//! How many versions have to be hidden, and what has to be left out, by trials over an image that
//! keep nothing.
ghost use Rattle.std.specs.Prelude.{◌≡◌, map, IfErr, IfOk, IfSome, IsPermutation, MatchBool};
ghost use Rattle.std.specs.Prelude.{MatchOption};
ghost use Rattle.s4_images.specs.Failures.{HasNoMoments};
ghost use Rattle.restore_search.specs.Searching.{IsFine, numbers_of, room_found, room_tried};
ghost use Rattle.s4_restore.specs.Searching.{DoesNotServe, FailsInStyle, IsFoundBy, IsPlain};
ghost use Rattle.s4_restore.specs.Searching.{IsServed, LacksNothing, Shows};

use crate::preparing::order_with;
use history_restore::StandIn;
use image_commands::Files;
use restore_orders::Means;
use restore_search::{
    Lacking, Room, Search, Survey, ascending, learn, numbers_of, rooms_found, rooms_tried,
};
use restore_trials::survey_image;
use s4_command::RestoreAsked;
use s4_images::{CommandOutput, Failure};
use s4_types::Refusal;
use std::alloc::Global;
use std::thread::Threads;

/// How many trials are made at most by the same means: some for each object of the largest drive.
const MOST_SURVEYS: u32 = 61_440;

/// What is asked for, and over which image that is tried.
#[derive_where(Clone, Copy)]
pub(crate) struct Trials<'a, T: Threads, F: Files> {
    pub rt: &'a T,
    pub alloc: Global,
    pub files: &'a F,
    pub asked: &'a RestoreAsked<'a>,
    pub stand_ins: &'a [StandIn],
}

/// What is needed, with why objects can't be restored.
#[derive(Drop)]
pub struct Findings {
    pub means: Means,
    pub full: Vec<Room>,
    pub lacking: Vec<Lacking>,
}

/// What is needed where room is made by these means and nothing is hidden or left out; none where
/// something can't be restored then.
pub(crate) fn found_plainly<T: Threads, F: Files, W: CommandOutput>(
    trials: &Trials<'_, T, F>,
    means: Means,
    writer: &mut W,
) -> Result<Option<Findings>, Failure>
    ensures found { IfOk result
        (λ found. MatchOption found
        (DoesNotServe (F.contents trials.now.files.now trials.now.asked.now.image.now)
        trials.now.asked.now trials.now.stand_ins.now means)
        (IsPlain (F.contents trials.now.files.now trials.now.asked.now.image.now)
        trials.now.asked.now trials.now.stand_ins.now means)) }
    ensures style { IfErr result
        (FailsInStyle (F.contents trials.now.files.now trials.now.asked.now.image.now)) }
    ensures passed { W.passed writer.new ≡ W.passed writer.old }
    ensures failures { W.failures writer.new ≡ W.failures writer.old }
{
    let (asked, stand_ins) = (trials.asked, trials.stand_ins);
    let order = order_with(asked, stand_ins, means, &[], &[]);
    let (files, image) = (trials.files, asked.image);
    let found = survey_image(trials.rt, trials.alloc, files, image, &order, writer)?;
    let Some(survey) = found else {
        return Ok(None);
    };
    if !lacks_nothing(&survey) {
        return Ok(None);
    }
    // no room was to be made in a journal, so none is left that wasn't
    if !survey.is_fine() {
        return Err(Failure::from(Refusal::NoRoom));
    }
    Ok(Some(Findings {
        means,
        full: Vec::new(trials.alloc),
        lacking: Vec::new(trials.alloc),
    }))
}

// Whether a trial in which no room was to be made in journals found nothing lacking.
fn lacks_nothing(survey: &Survey) -> bool
    ensures { MatchBool result (LacksNothing survey.now) (LacksNothing survey.now → ⊥) }
{
    survey.hidden.is_empty() && survey.refused.is_empty()
}

/// What is needed where room is made by these means, found trial by trial: the last of them finds
/// that all else is restored. None where no room can be made by these means, or where the trials
/// weren't enough.
pub(crate) fn found_by<T: Threads, F: Files, W: CommandOutput>(
    trials: &Trials<'_, T, F>,
    means: Means,
    writer: &mut W,
) -> Result<Option<Findings>, Failure>
    ensures found { IfOk result
        (λ found. IfSome found
        (IsFoundBy (F.contents trials.now.files.now trials.now.asked.now.image.now)
        trials.now.asked.now trials.now.stand_ins.now means)) }
    ensures style { IfErr result
        (FailsInStyle (F.contents trials.now.files.now trials.now.asked.now.image.now)) }
    ensures passed { W.passed writer.new ≡ W.passed writer.old }
    ensures failures { W.failures writer.new ≡ W.failures writer.old }
{
    let mut search = Search::new(trials.alloc);
    for _ in 0..MOST_SURVEYS {
        let found = survey_with(trials, means, &search, writer)?;
        let Some(survey) = found else {
            return Ok(None);
        };
        match learn(&mut search, trials.alloc, &survey, trials.asked.flush) {
            Ok(true) => {}
            Ok(false) => {
                let findings = findings_of(trials.alloc, means, search)?;
                return Ok(Some(findings));
            }
            Err(_) => return Err(Failure::from(Refusal::NoMemory)),
        }
    }
    Ok(None)
}

// What was found, where no more is to be learnt.
fn findings_of(alloc: Global, means: Means, search: Search) -> Result<Findings, Failure>
    ensures means { IfOk result (λ findings. findings.means ≡ means) }
    ensures full { IfOk result
        (λ findings. findings.full.items ≡ map room_found search.hidings.items) }
    ensures lacking { IfOk result
        (λ findings. IsPermutation search.lacking.items findings.lacking.items) }
    ensures style { IfErr result HasNoMoments }
{
    let Search { hidings, lacking } = search;
    let full = rooms_found(alloc, hidings.as_slice())?;
    let lacking = ascending(lacking)?;
    Ok(Findings {
        means,
        full,
        lacking,
    })
}

// A trial with what is known to be needed.
fn survey_with<T: Threads, F: Files, W: CommandOutput>(
    trials: &Trials<'_, T, F>,
    means: Means,
    search: &Search,
    writer: &mut W,
) -> Result<Option<Survey>, Failure>
    ensures shows { IfOk result
        (λ found. IfSome found
        (Shows (F.contents trials.now.files.now trials.now.asked.now.image.now)
        trials.now.asked.now trials.now.stand_ins.now means search.now.hidings.items)) }
    ensures serves { IfOk result (λ found. IfSome found (λ survey. IsFine survey
        → IsServed (F.contents trials.now.files.now trials.now.asked.now.image.now)
        trials.now.asked.now trials.now.stand_ins.now means (map room_tried search.now.hidings.items)
        (numbers_of search.now.lacking.items))) }
    ensures style { IfErr result
        (FailsInStyle (F.contents trials.now.files.now trials.now.asked.now.image.now)) }
    ensures passed { W.passed writer.new ≡ W.passed writer.old }
    ensures failures { W.failures writer.new ≡ W.failures writer.old }
{
    let full = rooms_tried(trials.alloc, search.hidings.as_slice())?;
    let skipped = numbers_of(trials.alloc, search.lacking.as_slice())?;
    let (asked, stand_ins) = (trials.asked, trials.stand_ins);
    let order = order_with(asked, stand_ins, means, full.as_slice(), skipped.as_slice());
    let (files, image) = (trials.files, asked.image);
    survey_image(trials.rt, trials.alloc, files, image, &order, writer)
}
