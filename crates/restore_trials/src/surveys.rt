//! Trials to restore by an order, of which nothing is kept: each goes on after an object that can't
//! be restored.
ghost use Rattle.std.specs.Prelude.{◌≡◌, ◌++◌, ◌∷◌, [], true, false, None, Option, IfErr, IfOk};
ghost use Rattle.std.specs.Prelude.{OnOk};
ghost use Rattle.std.specs.List.{AllByRecursion};
ghost use Rattle.s4_types.specs.declared.spans.Span.{Span};
ghost use Rattle.segment_table.specs.Room.{log_of};
ghost use Rattle.version_store.specs.Store.{fields_of};
ghost use Rattle.drive.specs.Fields.{state_in, store_of};
ghost use Rattle.drive.specs.Opened.{base_of};
ghost use Rattle.history_restore.specs.Planning.{IsPlanned, aims_planned};
ghost use Rattle.history_restore.specs.Presence.{HasNone, HasObject};
ghost use Rattle.moment_words.specs.Texts as styles;
ghost use Rattle.s4_images.specs.Commands.{FailsOver, OverImage, OverOpened};
ghost use Rattle.s4_images.specs.Failures.{IsInStyle};
ghost use Rattle.s4_images.specs.declared.faults.Failure.TheVariants.{LeavesNothing};
ghost use Rattle.restore_orders.specs.Choosing.{AreChosen};
ghost use Rattle.restore_orders.specs.MakingRoom.{MakesRoom};
ghost use Rattle.restore_search.specs.Searching.{IsFine};
ghost use Rattle.restore_trials.specs.Surveys.{AreMade, Finds, IsHiddenAlone, IsRefusedFrom};
ghost use Rattle.restore_trials.specs.Surveys.{IsServedFrom, Serves};

use crate::trying::{lacking_of, push, try_all};
use drive::{Drive, OpenedDrive, Session};
use history_restore::{Aim, ObjectPlan, chosen_plans, has_object, plan_object, widen_window};
use image_commands::{Files, read_image};
use moment_words::style_of;
use restore_orders::{
    Moments, Order, aims_by, asked_at, changes_ahead, check_left, compact_for, prepare, readable,
};
use restore_search::{Lack, Lacking, Room, Survey};
use s4_images::{CommandOutput, Failure};
use s4_types::{Moment, Refusal, Role};
use segment_word::Naming;
use std::alloc::Global;
use std::marker::Brand;
use std::thread::Threads;
use verifier::open;

/// What a trial over the image finds; none where room can't be made by the order's means. Where
/// nothing is lacking, all that the order chooses was restored in it. Its failures have moments as
/// dates where the image's are. The writer hears of the drive before it is tried, and nothing is
/// written.
pub fn survey_image<T: Threads, F: Files, W: CommandOutput>(
    rt: &T,
    alloc: Global,
    files: &F,
    image: &str,
    order: &Order<'_>,
    writer: &mut W,
) -> Result<Option<Survey>, Failure>
    ensures finds { IfOk result
        (λ found. OverImage (F.contents files.now image.now) (λ d. Finds d order.now found)) }
    ensures serves { IfOk result
        (λ found. OverImage (F.contents files.now image.now) (λ d. Serves d order.now found)) }
    ensures style { IfErr result
        (FailsOver (F.contents files.now image.now)
        (λ d. IsInStyle (styles.style_of (state_in d).clock false))) }
    ensures passed { W.passed writer.new ≡ W.passed writer.old }
    ensures failures { W.failures writer.new ≡ W.failures writer.old }
{
    let image = read_image(rt, alloc, files, image)?;
    let opened = open(alloc, image)?;
    survey_opened::<Brand, W>(alloc, opened, order, writer)
}

// The same of a drive that was just opened.
fn survey_opened<J: Naming, W: CommandOutput>(
    alloc: Global,
    opened: OpenedDrive,
    order: &Order<'_>,
    writer: &mut W,
) -> Result<Option<Survey>, Failure>
    requires accepts { opened.accepts ≡ J.accepts }
    requires frames { opened.store.table.seat.table ≡ J.frames }
    requires base { base_of (fields_of log_of opened.store) opened.timeline opened.next
        opened.audit ≡ J.base }
    ensures finds { IfOk result (λ found. OverOpened opened (λ d. Finds d order.now found)) }
    ensures serves { IfOk result (λ found. OverOpened opened (λ d. Serves d order.now found)) }
    ensures style { IfErr result
        (λ failure. OverOpened opened
        (λ d. IsInStyle (styles.style_of (state_in d).clock false) failure)) }
    ensures passed { W.passed writer.new ≡ W.passed writer.old }
    ensures failures { W.failures writer.new ≡ W.failures writer.old }
{
    let mut drive = opened.named::<J>();
    writer.drive_opened(drive.clock());
    survey_in_style(alloc, &mut drive, order)
}

// What a trial over a drive finds. The moments of a failure are in the style of the drive's clock.
fn survey_in_style<J: Naming>(
    alloc: Global,
    drive: &mut Drive<J>,
    order: &Order<'_>,
) -> Result<Option<Survey>, Failure>
    ensures finds { IfOk result (Finds drive.old order.now) }
    ensures serves { IfOk result (Serves drive.old order.now) }
    ensures style { IfErr result (IsInStyle (styles.style_of (state_in drive.old).clock false)) }
{
    let style = style_of(drive.clock().number(), false);
    match survey_drive(alloc, drive, order) {
        Ok(found) => Ok(found),
        Err(failure) => Err(failure.in_style(style)),
    }
}

// What a trial over a drive finds.
fn survey_drive<J: Naming>(
    alloc: Global,
    drive: &mut Drive<J>,
    order: &Order<'_>,
) -> Result<Option<Survey>, Failure>
    ensures finds { IfOk result (Finds drive.old order.now) }
    ensures serves { IfOk result (Serves drive.old order.now) }
{
    let mut session = drive.session(Role::Admin)?;
    let now = asked_at(drive, order.time, order.leap)?;
    let at = readable(drive, order.at)?;
    let mut hidden = Vec::new(alloc);
    let chosen = plans_found(alloc, drive, &mut session, order, at, &mut hidden)?;
    let had = has_object(drive);
    match compact_for(alloc, drive, &mut session, order.means) {
        Ok(()) => {}
        Err(Refusal::NoRoom) => return Ok(None),
        Err(refusal) => return Err(Failure::from(refusal)),
    }
    let chosen = chosen.as_slice();
    let moments = Moments { at, asked: now };
    let found = survey_cleared(alloc, drive, &mut session, order, &moments, chosen, hidden)?;
    check_found(drive, order, had, &found)?;
    Ok(Some(found))
}

// An error exactly where a trial that found nothing lacking left no object, some were there, and the
// order has to leave one.
fn check_found<J: Naming>(
    drive: &mut Drive<J>,
    order: &Order<'_>,
    had: bool,
    found: &Survey,
) -> Result<(), Failure>
    ensures left { OnOk result
        (IsFine found.now → had ≡ true → order.now.to_nothing ≡ false
        → HasObject (state_in drive.old)) }
    ensures none { IfErr result
        (λ failure. (failure ≡ LeavesNothing) × IsFine found.now
        × (had ≡ true) × (order.now.to_nothing ≡ false) × HasNone (state_in drive.old)) }
    ensures state { state_in drive.new ≡ state_in drive.old }
    ensures store { store_of drive.new ≡ store_of drive.old }
{
    if !found.is_fine() {
        return Ok(());
    }
    check_left(drive, had, order.to_nothing)
}

// What a trial finds over a drive in which room was made by the order's means.
fn survey_cleared<J: Naming>(
    alloc: Global,
    drive: &mut Drive<J>,
    session: &mut Session<J>,
    order: &Order<'_>,
    moments: &Moments,
    chosen: &[ObjectPlan],
    hidden: Vec<Lacking>,
) -> Result<Survey, Failure>
    ensures refused { IfOk result
        (λ found. AllByRecursion (IsRefusedFrom drive.old order.now moments.now chosen.now)
        found.refused.items) }
    ensures hidden { IfOk result (λ found. found.hidden ≡ hidden) }
    ensures serves { IfOk result
        (λ found. found.refused.items ≡ [] → found.unmade.items ≡ []
        → IsServedFrom drive.old order.now moments.now chosen.now drive.new) }
{
    let changes = changes_ahead(chosen, order.full);
    let _widened = widen_window(drive, session, moments.at, changes, moments.asked)?;
    let mut refused = Vec::new(alloc);
    let unmade = make_rooms(alloc, drive, session, moments, order.full)?;
    if unmade.is_empty() {
        try_all(alloc, drive, session, moments, chosen, &mut refused)?;
    }
    Ok(Survey {
        hidden,
        refused,
        unmade,
    })
}

// The plans of what an order restores, and of it what has its moment hidden.
fn plans_found<J: Naming>(
    alloc: Global,
    drive: &mut Drive<J>,
    session: &mut Session<J>,
    order: &Order<'_>,
    at: Moment,
    hidden: &mut Vec<Lacking>,
) -> Result<Vec<ObjectPlan>, Failure>
    ensures planned { IfOk result
        (λ chosen. AllByRecursion (IsPlanned (state_in drive.old) at) chosen.items) }
    ensures hidden { OnOk result
        (AllByRecursion (IsHiddenAlone (state_in drive.old) at) hidden.old.items
        → AllByRecursion (IsHiddenAlone (state_in drive.old) at) hidden.new.items) }
    ensures chosen { IfOk result
        (λ chosen. hidden.new.items ≡ []
        → AreChosen (state_in drive.old) (store_of drive.old) order.now at chosen.items) }
    ensures state { state_in drive.new ≡ state_in drive.old }
    ensures store { store_of drive.new ≡ store_of drive.old }
{
    let aims = aims_by(alloc, drive, session, order, at)?;
    let plans = plan_aims(alloc, drive, session, aims.as_slice(), at, hidden)?;
    match chosen_plans(alloc, plans.as_slice(), order.keep_newer) {
        Ok(chosen) => Ok(chosen),
        Err(_) => Err(Failure::from(Refusal::NoMemory)),
    }
}

// The plans of these, without what has its moment hidden, which is added.
fn plan_aims<J: Naming>(
    alloc: Global,
    drive: &mut Drive<J>,
    session: &mut Session<J>,
    aims: &[Aim],
    at: Moment,
    hidden: &mut Vec<Lacking>,
) -> Result<Vec<ObjectPlan>, Failure>
    ensures planned { IfOk result
        (λ plans. AllByRecursion (IsPlanned (state_in drive.old) at) plans.items) }
    ensures hidden { OnOk result
        (AllByRecursion (IsHiddenAlone (state_in drive.old) at) hidden.old.items
        → AllByRecursion (IsHiddenAlone (state_in drive.old) at) hidden.new.items) }
    ensures all { IfOk result
        (λ plans. hidden.new.items ≡ [] → aims_planned plans.items ≡ aims.now) }
    ensures state { state_in drive.new ≡ state_in drive.old }
    ensures store { store_of drive.new ≡ store_of drive.old }
{
    let mut plans = Vec::new(alloc);
    for aim in aims {
        plan_aim(alloc, drive, session, aim, at, &mut plans, hidden)?;
    }
    Ok(plans)
}

// Adds the plan of one of these, or that its moment is hidden.
fn plan_aim<J: Naming>(
    alloc: Global,
    drive: &mut Drive<J>,
    session: &mut Session<J>,
    aim: &Aim,
    at: Moment,
    plans: &mut Vec<ObjectPlan>,
    hidden: &mut Vec<Lacking>,
) -> Result<(), Failure>
    ensures planned { OnOk result
        (AllByRecursion (IsPlanned (state_in drive.old) at) plans.old.items
        → AllByRecursion (IsPlanned (state_in drive.old) at) plans.new.items) }
    ensures hidden { OnOk result
        (AllByRecursion (IsHiddenAlone (state_in drive.old) at) hidden.old.items
        → AllByRecursion (IsHiddenAlone (state_in drive.old) at) hidden.new.items) }
    ensures all { OnOk result
        (hidden.new.items ≡ []
        → (hidden.old.items ≡ [])
        × (aims_planned plans.new.items ≡ aims_planned plans.old.items ++ aim.now ∷ [])) }
    ensures state { state_in drive.new ≡ state_in drive.old }
    ensures store { store_of drive.new ≡ store_of drive.old }
{
    match plan_object(alloc, drive, session, aim, at) {
        Ok(plan) => push(plans, ObjectPlan { aim: *aim, plan }),
        Err(Refusal::Flushed) => push(hidden, lacking_of(aim, Lack::Version)),
        Err(refusal) => Err(Failure::from(refusal)),
    }
}

// Makes room in journals where it can be, as the run does; where it couldn't and why.
fn make_rooms<J: Naming>(
    alloc: Global,
    drive: &mut Drive<J>,
    session: &mut Session<J>,
    moments: &Moments,
    full: &[Room],
) -> Result<Vec<Lacking>, Failure>
    ensures made { IfOk result
        (λ unmade. unmade.items ≡ [] → AreMade drive.old moments.now full.now drive.new) }
{
    let mut unmade = Vec::new(alloc);
    for room in full {
        if let Some(lack) = make_room(alloc, drive, session, moments, room)? {
            let object = room.object;
            push(&mut unmade, Lacking { object, lack })?;
        }
    }
    Ok(unmade)
}

// Makes room in a journal; why it can't be made, if it can't.
fn make_room<J: Naming>(
    alloc: Global,
    drive: &mut Drive<J>,
    session: &mut Session<J>,
    moments: &Moments,
    room: &Room,
) -> Result<Option<Lack>, Failure>
    ensures made { IfOk result
        (λ lack. lack ≡ None
        → (hidden : Option Span) × MakesRoom drive.old moments.now.asked moments.now.at room.now hidden drive.new) }
{
    match prepare(alloc, drive, session, *moments, room) {
        Ok(Some(_hidden)) => Ok(None),
        Ok(None) => Ok(Some(Lack::Journal)),
        Err(Failure::TooManySpans { .. }) => Ok(Some(Lack::Runs)),
        Err(Failure::NoRoom { .. }) => Ok(Some(Lack::Blocks)),
        Err(failure) => Err(failure),
    }
}
