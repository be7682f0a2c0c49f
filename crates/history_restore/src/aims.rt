//! Under which numbers objects are restored: their own, or those under which they were made anew.
ghost use Rattle.std.specs.Prelude.{◌≡◌, filter, not, IfOk, IfErr, None};
ghost use Rattle.s4_types.specs.declared.refusals.Refusal.TheVariants.{NoMemory};
ghost use Rattle.s4_model.specs.Refusals.{is_absent};
ghost use Rattle.drive.specs.Fields.{state_in, store_of};
ghost use Rattle.history_restore.specs.Aims.{AreAims, AreAskedAims, aim_by, aims_by, counting};
ghost use Rattle.history_restore.specs.Aims.{counts, has_stand_in, is_asked, is_not_skipped};
ghost use Rattle.history_restore.specs.Aims.{is_there, object_for, own_aim, was_there};
ghost use Rattle.history_restore.specs.Planning.{IsUnplanned};

use crate::comparing::compare;
use crate::failures::{Failure, unread};
use crate::whole::is_among;
use drive::{Drive, Session};
use history_view::all_objects;
use s4_types::{Moment, ObjectId, Refusal, Version};
use segment_word::Naming;
use std::alloc::{AllocError, Global};

/// What an earlier restore says of an object: it was made anew under this number.
#[derive(Clone, Copy)]
pub struct StandIn {
    pub object: ObjectId,
    pub number: ObjectId,
}

/// An object, and the number under which it is compared and restored.
#[derive(Clone, Copy)]
pub struct Aim {
    /// The object, whose version at the moment is wanted.
    pub object: ObjectId,
    /// Its own number, or that of its stand-in.
    pub target: ObjectId,
}

/// An object under its own number.
pub fn own_aim(object: ObjectId) -> Aim
    ensures { result ≡ own_aim object }
{
    Aim {
        object,
        target: object,
    }
}

fn is_there(version: &Version) -> bool
    ensures { result ≡ not (is_absent version.now) }
{
    match version {
        Version::Absent => false,
        Version::Live { .. } => true,
    }
}

/// Whether an object was there at a moment, and whether anything is there under a number.
fn was_and_is<J: Naming>(
    alloc: Global,
    drive: &mut Drive<J>,
    session: &mut Session<J>,
    aim: &Aim,
    at: Moment,
) -> Result<(bool, bool), Failure>
    ensures was { IfOk result
        (λ there. there.0 ≡ was_there (state_in drive.old) aim.now.object at) }
    ensures is { IfOk result (λ there. there.1 ≡ is_there (state_in drive.old) aim.now.target) }
    ensures unplanned { IfErr result (IsUnplanned (state_in drive.old) at) }
    ensures state { state_in drive.new ≡ state_in drive.old }
    ensures store { store_of drive.new ≡ store_of drive.old }
{
    match compare(alloc, drive, session, aim, at) {
        Ok(compared) => Ok((is_there(&compared.earlier), is_there(&compared.latest))),
        Err(refusal) => Err(unread(&own_aim(aim.object), refusal)),
    }
}

/// Whether a stand-in counts: its object was there at the moment and isn't any more, and what was
/// made anew for it is there.
fn does_count<J: Naming>(
    alloc: Global,
    drive: &mut Drive<J>,
    session: &mut Session<J>,
    stand_in: StandIn,
    at: Moment,
) -> Result<bool, Failure>
    ensures found { IfOk result (λ found. found ≡ counts (state_in drive.old) at stand_in) }
    ensures unplanned { IfErr result (IsUnplanned (state_in drive.old) at) }
    ensures state { state_in drive.new ≡ state_in drive.old }
    ensures store { store_of drive.new ≡ store_of drive.old }
{
    let aim = own_aim(stand_in.object);
    let (was, is) = was_and_is(alloc, drive, session, &aim, at)?;
    if !was || is {
        return Ok(false);
    }
    let aim = Aim {
        object: stand_in.object,
        target: stand_in.number,
    };
    let (_, is) = was_and_is(alloc, drive, session, &aim, at)?;
    Ok(is)
}

/// Of these stand-ins those that count.
fn counting<J: Naming>(
    alloc: Global,
    drive: &mut Drive<J>,
    session: &mut Session<J>,
    stand_ins: &[StandIn],
    at: Moment,
) -> Result<Vec<StandIn>, Failure>
    ensures found { IfOk result
        (λ found. found.items ≡ counting (state_in drive.old) at stand_ins.now) }
    ensures unplanned { IfErr result (IsUnplanned (state_in drive.old) at) }
    ensures state { state_in drive.new ≡ state_in drive.old }
    ensures store { store_of drive.new ≡ store_of drive.old }
{
    let mut found = Vec::new(alloc);
    for stand_in in stand_ins {
        if does_count(alloc, drive, session, *stand_in, at)? {
            let Ok(()) = found.push(*stand_in) else {
                return Err(unread(&own_aim(stand_in.object), Refusal::NoMemory));
            };
        }
    }
    Ok(found)
}

/// Whether an object has a stand-in among these.
fn has_stand_in(stand_ins: &[StandIn], object: ObjectId) -> bool
    ensures { result ≡ has_stand_in stand_ins.now object }
{
    stand_ins.iter().any(|one| one.object == object)
}

/// The object that a number is the stand-in of; the number's own where it is none.
#[tactic(auto, using(crate::proofs::Aimed::object_here, crate::proofs::Aimed::object_next, crate::proofs::Aimed::object_own))]
fn object_for(stand_ins: &[StandIn], number: ObjectId) -> ObjectId
    ensures { result ≡ object_for stand_ins.now number }
{
    for stand_in in stand_ins {
        if stand_in.number == number {
            return stand_in.object;
        }
    }
    number
}

/// The object that a number is the stand-in of, by those of these that count; the number's own
/// where it is none.
#[tactic(auto, using(crate::proofs::Aimed::counted_here, crate::proofs::Aimed::counted_next, crate::proofs::Aimed::counted_own))]
fn object_at<J: Naming>(
    alloc: Global,
    drive: &mut Drive<J>,
    session: &mut Session<J>,
    stand_ins: &[StandIn],
    number: ObjectId,
    at: Moment,
) -> Result<ObjectId, Failure>
    ensures object { IfOk result
        (λ object. object ≡ object_for (counting (state_in drive.old) at stand_ins.now) number) }
    ensures unplanned { IfErr result (IsUnplanned (state_in drive.old) at) }
    ensures state { state_in drive.new ≡ state_in drive.old }
    ensures store { store_of drive.new ≡ store_of drive.old }
{
    for stand_in in stand_ins {
        if stand_in.number == number && does_count(alloc, drive, session, *stand_in, at)? {
            return Ok(stand_in.object);
        }
    }
    Ok(number)
}

/// What a number is restored as: the object that it is the stand-in of, where that counts, or by
/// itself. Nothing is done.
///
/// An error as of [`all_aims`].
pub fn aim_at<J: Naming>(
    alloc: Global,
    drive: &mut Drive<J>,
    session: &mut Session<J>,
    stand_ins: &[StandIn],
    number: ObjectId,
    at: Moment,
) -> Result<Aim, Failure>
    ensures aim { IfOk result
        (λ aim. aim ≡ aim_by (counting (state_in drive.old) at stand_ins.now) number) }
    ensures unplanned { IfErr result (IsUnplanned (state_in drive.old) at) }
    ensures state { state_in drive.new ≡ state_in drive.old }
    ensures store { store_of drive.new ≡ store_of drive.old }
{
    let object = object_at(alloc, drive, session, stand_ins, number, at)?;
    Ok(Aim {
        object,
        target: number,
    })
}

/// There was no memory for a list of all.
fn no_list() -> Failure
    ensures refusal { result.refusal ≡ NoMemory }
    ensures flush { result.flush ≡ None }
{
    unread(&own_aim(ObjectId::new(0)), Refusal::NoMemory)
}

/// The aims of rows, by the stand-ins that count.
fn aims_by(alloc: Global, stand_ins: &[StandIn], rows: &[ObjectId]) -> Result<Vec<Aim>, AllocError>
    ensures { IfOk result (λ aims. aims.items ≡ aims_by stand_ins.now rows.now) }
{
    let mut aims = Vec::new(alloc);
    for number in rows {
        if !has_stand_in(stand_ins, *number) {
            aims.push(Aim {
                object: object_for(stand_ins, *number),
                target: *number,
            })?;
        }
    }
    Ok(aims)
}

/// Of these aims those of objects that are asked for.
fn asked_among(alloc: Global, aims: &[Aim], asked: &[ObjectId]) -> Result<Vec<Aim>, AllocError>
    ensures { IfOk result (λ chosen. chosen.items ≡ filter (is_asked asked.now) aims.now) }
{
    let mut chosen = Vec::new(alloc);
    for aim in aims {
        if is_among(asked, aim.object) {
            chosen.push(*aim)?;
        }
    }
    Ok(chosen)
}

/// Of these aims those that are restored under numbers which aren't skipped, in their order.
pub fn aims_without(
    alloc: Global,
    aims: &[Aim],
    skipped: &[ObjectId],
) -> Result<Vec<Aim>, AllocError>
    ensures { IfOk result (λ left. left.items ≡ filter (is_not_skipped skipped.now) aims.now) }
{
    let mut left = Vec::new(alloc);
    for aim in aims {
        if !is_among(skipped, aim.target) {
            left.push(*aim)?;
        }
    }
    Ok(left)
}

/// The aims of rows, by those of these stand-ins that count.
fn aims_of_rows<J: Naming>(
    alloc: Global,
    drive: &mut Drive<J>,
    session: &mut Session<J>,
    stand_ins: &[StandIn],
    rows: &[ObjectId],
    at: Moment,
) -> Result<Vec<Aim>, Failure>
    ensures aims { IfOk result
        (λ aims. aims.items ≡ aims_by (counting (state_in drive.old) at stand_ins.now) rows.now) }
    ensures unplanned { IfErr result (IsUnplanned (state_in drive.old) at) }
    ensures state { state_in drive.new ≡ state_in drive.old }
    ensures store { store_of drive.new ≡ store_of drive.old }
{
    let found = counting(alloc, drive, session, stand_ins, at)?;
    match aims_by(alloc, found.as_slice(), rows) {
        Ok(aims) => Ok(aims),
        Err(_) => Err(no_list()),
    }
}

/// The aims of all objects that have a row, by the ascending numbers under which they are restored.
/// An object that was made anew by an earlier restore has the number of what was made, its
/// stand-in, as long as that is there; a stand-in has no aim by itself.
///
/// Future, Expired or Flushed where the moment can't be read of the object of a stand-in; NoMemory
/// where memory was refused, of object 0 where that was for a list of all; Busy where a read would
/// have needed a pin.
pub fn all_aims<J: Naming>(
    alloc: Global,
    drive: &mut Drive<J>,
    session: &mut Session<J>,
    stand_ins: &[StandIn],
    at: Moment,
) -> Result<Vec<Aim>, Failure>
    ensures aims { IfOk result
        (λ aims. AreAims (state_in drive.old) (store_of drive.old) at stand_ins.now aims.items) }
    ensures unplanned { IfErr result (IsUnplanned (state_in drive.old) at) }
    ensures state { state_in drive.new ≡ state_in drive.old }
    ensures store { store_of drive.new ≡ store_of drive.old }
{
    let Ok(rows) = all_objects(alloc, drive) else {
        return Err(no_list());
    };
    aims_of_rows(alloc, drive, session, stand_ins, rows.as_slice(), at)
}

/// The aims of those objects that are asked for and have a row, by the ascending numbers under
/// which they are restored.
///
/// An error as of [`all_aims`].
pub fn asked_aims<J: Naming>(
    alloc: Global,
    drive: &mut Drive<J>,
    session: &mut Session<J>,
    stand_ins: &[StandIn],
    asked: &[ObjectId],
    at: Moment,
) -> Result<Vec<Aim>, Failure>
    ensures aims { IfOk result
        (λ aims. AreAskedAims (state_in drive.old) (store_of drive.old) at stand_ins.now asked.now
        aims.items) }
    ensures unplanned { IfErr result (IsUnplanned (state_in drive.old) at) }
    ensures state { state_in drive.new ≡ state_in drive.old }
    ensures store { store_of drive.new ≡ store_of drive.old }
{
    let whole = all_aims(alloc, drive, session, stand_ins, at)?;
    match asked_among(alloc, whole.as_slice(), asked) {
        Ok(aims) => Ok(aims),
        Err(_) => Err(no_list()),
    }
}
