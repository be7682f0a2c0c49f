//! Moments are hidden where an object's journal has no room for what restores it, as few versions
//! as serve.
ghost use Rattle.std.specs.Prelude.{◌≡◌, ℕ, ◌+◌, ◌^◌, ◌<◌, None, IfOk, IfSome, IsTrue, OnOk};
ghost use Rattle.drive.specs.Fields.{state_in, store_of};
ghost use Rattle.restore_orders.specs.MakingRoom.{HasFewer, Hides, HidesAll, IsAimedAt, MakesRoom};
ghost use Rattle.restore_orders.specs.MakingRoom.{RestoresWithRoom};

use crate::dating::Moments;
use crate::lines::hidden_text;
use crate::restoring::{Wanted, restore};
use drive::{Drive, Session};
use history_cleaner::clean_object;
use history_restore::{Aim, make_room, newest_versions};
use image_commands::write_out;
use restore_search::Room;
use s4_images::Failure;
use s4_types::{ObjectId, Refusal, Span};
use segment_word::Naming;
use serving::Sink;
use std::alloc::Global;

/// Makes room in journals, and then restores objects of a drive under these numbers. Prints what is
/// hidden, and what was done to each.
pub(crate) fn restore_with_room<J: Naming, W: Sink>(
    alloc: Global,
    drive: &mut Drive<J>,
    session: &mut Session<J>,
    wanted: &Wanted<'_>,
    full: &[Room],
    writer: &mut W,
) -> Result<(), Failure>
    requires writer { W.failures writer.old + 1 < 2 ^ 64 }
    ensures restores { OnOk result
        (RestoresWithRoom drive.old drive.new wanted.now.moments.asked wanted.now.moments.at wanted.now.json
        wanted.now.aims.now full.now (W.passed writer.old) (W.passed writer.new)) }
    ensures failures { OnOk result (W.failures writer.new ≡ W.failures writer.old) }
{
    hide_all(alloc, drive, session, wanted, full, writer)?;
    restore(alloc, drive, session, wanted, writer)
}

// Hides what has to be of each of these, one after the other, and makes room in their journals.
fn hide_all<J: Naming, W: Sink>(
    alloc: Global,
    drive: &mut Drive<J>,
    session: &mut Session<J>,
    wanted: &Wanted<'_>,
    full: &[Room],
    writer: &mut W,
) -> Result<(), Failure>
    requires writer { W.failures writer.old + 1 < 2 ^ 64 }
    ensures hides { OnOk result
        (HidesAll drive.old wanted.now.moments.asked wanted.now.moments.at wanted.now.json wanted.now.aims.now full.now
        drive.new (W.passed writer.old) (W.passed writer.new)) }
    ensures failures { OnOk result (W.failures writer.new ≡ W.failures writer.old) }
{
    match full {
        [] => Ok(()),
        [room, rest @ ..] => {
            hide(alloc, drive, session, wanted, room, writer)?;
            hide_all(alloc, drive, session, wanted, rest, writer)
        }
    }
}

// Hides what has to be of an object, makes room in its journal, and prints what is hidden.
fn hide<J: Naming, W: Sink>(
    alloc: Global,
    drive: &mut Drive<J>,
    session: &mut Session<J>,
    wanted: &Wanted<'_>,
    room: &Room,
    writer: &mut W,
) -> Result<(), Failure>
    requires writer { W.failures writer.old + 1 < 2 ^ 64 }
    ensures hides { OnOk result
        (Hides drive.old wanted.now.moments.asked wanted.now.moments.at wanted.now.json wanted.now.aims.now room.now
        drive.new (W.passed writer.old) (W.passed writer.new)) }
    ensures failures { OnOk result (W.failures writer.new ≡ W.failures writer.old) }
{
    if !is_aimed_at(wanted.aims, room.object) {
        return Err(full(room.object));
    }
    let made = prepare(alloc, drive, session, wanted.moments, room)?;
    let Some(hidden) = made else {
        return Err(full(room.object));
    };
    let line = hidden_text(alloc, wanted.json, hidden)?;
    write_out(writer, line.as_bytes())?;
    Ok(())
}

// Whether something is restored under a number.
fn is_aimed_at(aims: &[Aim], number: ObjectId) -> bool
    ensures { IsTrue result → IsAimedAt aims.now number }
{
    aims.iter().any(|aim| aim.target == number)
}

// The failure of an object whose journal is full, and of which no more can be hidden.
fn full(object: ObjectId) -> Failure {
    Failure::JournalFull {
        object: object.number(),
    }
}

/// Cleans the journal of an object, hides that many of its newest versions by a change that is asked
/// for at the moment `moments.asked`, and cleans it again. Gives the moments that are hidden, if there
/// are any; none at all where there are fewer versions after the moment, of which none is hidden
/// then.
pub fn prepare<J: Naming>(
    alloc: Global,
    drive: &mut Drive<J>,
    session: &mut Session<J>,
    moments: Moments,
    room: &Room,
) -> Result<Option<Option<Span>>, Failure>
    ensures made { IfOk result
        (λ made. IfSome made (λ hidden. MakesRoom drive.old moments.asked moments.at room.now hidden drive.new)) }
    ensures fewer { IfOk result (λ made. made ≡ None → HasFewer drive.old moments.at room.now drive.new) }
{
    let object = room.object;
    if let Err(refusal) = clean_object(alloc, drive, object) {
        return Err(unhidden(object, refusal));
    }
    if room.count == 0 {
        return Ok(Some(None));
    }
    let Some(span) = newest_versions(alloc, drive, object, moments.at, room.count)? else {
        return Ok(None);
    };
    let (first, last) = (span.first, span.last);
    match make_room(alloc, drive, session, object, first, last, moments.asked) {
        Ok(()) => Ok(Some(Some(span))),
        Err(refusal) => Err(unhidden(object, refusal)),
    }
}

// Why no room can be made in an object's journal.
fn unhidden(object: ObjectId, refusal: Refusal) -> Failure {
    let object = object.number();
    match refusal {
        Refusal::TooManySpans => Failure::TooManySpans { object },
        Refusal::NoRoom => Failure::NoRoom { object },
        refusal => Failure::from(refusal),
    }
}
