//! What an order restores.
ghost use Rattle.std.specs.Prelude.{◌≡◌, ◌<◌, Some, IfErr, IfOk, MatchBool, OnOk};
ghost use Rattle.s4_model.specs.Visible.{IsVisible};
ghost use Rattle.drive.specs.Fields.{state_in, store_of};
ghost use Rattle.s4_images.specs.Moments.{IsRefusedAt, moment_said};
ghost use Rattle.restore_orders.specs.Choosing.{AreAimedAt, AreAimsOf, AreAsked, AreChosen};
ghost use Rattle.restore_orders.specs.Choosing.{AreGiven, HaveRows, objects_or};

use crate::orders::Order;
use crate::restoring::failure_of;
use drive::{Drive, Session};
use history_restore::{
    Aim, ObjectPlan, StandIn, aims_without, all_aims, asked_aims, chosen_plans, plan_each,
};
use moment_words::MomentWord;
use s4_images::{Failure, check_object, moment_asked, object_asked};
use s4_types::{Moment, ObjectId};
use segment_word::Naming;
use std::alloc::{AllocError, Global};

/// The moment that a word says. An error where it says none, or where it can be read of no object:
/// it is to come, expired, or hidden of all.
pub fn readable<J: Naming>(drive: &Drive<J>, word: MomentWord) -> Result<Moment, Failure>
    ensures moment { IfOk result (λ at. at ≡ moment_said (state_in drive.now) word) }
    ensures readable { OnOk result
        (IsVisible (state_in drive.now) 0 (moment_said (state_in drive.now) word)) }
    ensures refused { IfErr result (IsRefusedAt (state_in drive.now) 0 (Some word)) }
{
    moment_asked(drive, ObjectId::new(0), Some(word))
}

/// The plans of the objects that an order restores.
pub(crate) fn chosen_by<J: Naming>(
    alloc: Global,
    drive: &mut Drive<J>,
    session: &mut Session<J>,
    order: &Order<'_>,
    at: Moment,
) -> Result<Vec<ObjectPlan>, Failure>
    ensures chosen { IfOk result
        (λ chosen. AreChosen (state_in drive.old) (store_of drive.old) order.now at chosen.items) }
    ensures state { state_in drive.new ≡ state_in drive.old }
    ensures store { store_of drive.new ≡ store_of drive.old }
{
    let aims = aims_by(alloc, drive, session, order, at)?;
    let plans = match plan_each(alloc, drive, session, aims.as_slice(), at) {
        Ok(plans) => plans,
        Err(failure) => return Err(failure_of(drive, at, failure)),
    };
    let chosen = chosen_plans(alloc, plans.as_slice(), order.keep_newer)?;
    Ok(chosen)
}

/// What an order is to restore, without what it skips.
pub fn aims_by<J: Naming>(
    alloc: Global,
    drive: &mut Drive<J>,
    session: &mut Session<J>,
    order: &Order<'_>,
    at: Moment,
) -> Result<Vec<Aim>, Failure>
    ensures aims { IfOk result
        (λ aims. AreAimedAt (state_in drive.old) (store_of drive.old) order.now at aims.items) }
    ensures state { state_in drive.new ≡ state_in drive.old }
    ensures store { store_of drive.new ≡ store_of drive.old }
{
    check_given(drive, order.stand_ins)?;
    let objects = objects_by(alloc, drive, order, at)?;
    check_objects(drive, objects.as_slice())?;
    let whole = match aims_of(
        alloc,
        drive,
        session,
        order.stand_ins,
        objects.as_slice(),
        at,
    ) {
        Ok(whole) => whole,
        Err(failure) => return Err(failure_of(drive, at, failure)),
    };
    let aims = aims_without(alloc, whole.as_slice(), order.skipped)?;
    Ok(aims)
}

// The aims of the objects that are named, or of all where none is.
fn aims_of<J: Naming>(
    alloc: Global,
    drive: &mut Drive<J>,
    session: &mut Session<J>,
    stand_ins: &[StandIn],
    objects: &[ObjectId],
    at: Moment,
) -> Result<Vec<Aim>, history_restore::Failure>
    ensures aims { IfOk result
        (λ aims. AreAimsOf (state_in drive.old) (store_of drive.old) at stand_ins.now objects.now
        aims.items) }
    ensures state { state_in drive.new ≡ state_in drive.old }
    ensures store { store_of drive.new ≡ store_of drive.old }
{
    if objects.is_empty() {
        return all_aims(alloc, drive, session, stand_ins, at);
    }
    asked_aims(alloc, drive, session, stand_ins, objects, at)
}

// The objects that an order has, by their numbers or by a name; none for all.
fn objects_by<J: Naming>(
    alloc: Global,
    drive: &mut Drive<J>,
    order: &Order<'_>,
    at: Moment,
) -> Result<Vec<ObjectId>, Failure>
    ensures objects { IfOk result
        (λ objects. AreAsked (state_in drive.old) (store_of drive.old) order.now at objects.items) }
    ensures state { state_in drive.new ≡ state_in drive.old }
    ensures store { store_of drive.new ≡ store_of drive.old }
{
    let found = object_asked(drive, None, order.name, at)?;
    let objects = objects_or(alloc, found, order.objects)?;
    Ok(objects)
}

// The object that was found by its name, or else those of these numbers.
fn objects_or(
    alloc: Global,
    found: Option<ObjectId>,
    numbers: &[u64],
) -> Result<Vec<ObjectId>, AllocError>
    ensures { IfOk result (λ objects. objects.items ≡ objects_or found numbers.now) }
{
    match found {
        None => objects_of(alloc, numbers),
        Some(object) => {
            let mut objects = Vec::new(alloc);
            objects.push(object)?;
            Ok(objects)
        }
    }
}

// The objects of these numbers.
fn objects_of(alloc: Global, numbers: &[u64]) -> Result<Vec<ObjectId>, AllocError>
    ensures { IfOk result (λ objects. objects.items ≡ numbers.now) }
{
    let mut objects = Vec::new(alloc);
    for number in numbers {
        objects.push(ObjectId::new(*number))?;
    }
    Ok(objects)
}

// An error where no object has one of the numbers that are asked for.
fn check_objects<J: Naming>(drive: &Drive<J>, objects: &[ObjectId]) -> Result<(), Failure>
    ensures rows { OnOk result (HaveRows (store_of drive.now) objects.now) }
{
    for object in objects {
        check_object(drive, Some(object.number()))?;
    }
    Ok(())
}

// Whether a number is above 0 and below the next one.
fn was_given(number: u64, next: u64) -> bool
    ensures { MatchBool result ((0 < number) × (number < next))
        ((0 < number) × (number < next) → ⊥) }
{
    0 < number && number < next
}

// An error where a stand-in's number was never given.
fn check_given<J: Naming>(drive: &Drive<J>, stand_ins: &[StandIn]) -> Result<(), Failure>
    ensures given { OnOk result (AreGiven (state_in drive.now) stand_ins.now) }
{
    let next = drive.next().number();
    for stand_in in stand_ins {
        let object = stand_in.number.number();
        if !was_given(object, next) {
            return Err(Failure::NoObject { object });
        }
    }
    Ok(())
}
