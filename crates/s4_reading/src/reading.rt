//! `cat`: the bytes of an object at a moment.
ghost use Rattle.std.specs.Prelude.{◌+◌, ◌^◌, ◌<◌, IfOk, OnOk};
ghost use Rattle.s4_model.specs.VersionAt.{version_of};
ghost use Rattle.s4_model.specs.Visible.{IsVisible};
ghost use Rattle.drive.specs.Fields.{state_in};
ghost use Rattle.image_commands.specs.ReadingPast.{GivesVersion};
ghost use Rattle.s4_images.specs.Moments.{moment_asked};
ghost use Rattle.s4_reading.specs.Reading.{Gives};

use drive::Drive;
use history_view::version_at;
use image_commands::write_version;
use moment_words::MomentWord;
use s4_command::CatAsked;
use s4_images::{Failure, Verdict, as_number, moment_asked, moment_or_clock, object_asked};
use s4_types::{Moment, ObjectId, Role, Version};
use segment_word::Naming;
use serving::Sink;
use std::alloc::Global;

/// Prints the bytes that an object of a drive has at the moment that is asked for.
pub(crate) fn write_contents<J: Naming, W: Sink>(
    alloc: Global,
    drive: &mut Drive<J>,
    asked: &CatAsked<'_>,
    writer: &mut W,
) -> Result<Verdict, Failure>
    requires writer { W.failures writer.old + 1 < 2 ^ 64 }
    ensures gives { IfOk result
        (λ verdict. Gives drive.old asked.now verdict (W.passed writer.old)
        (W.passed writer.new)) }
{
    let at = moment_or_clock(drive, asked.at)?;
    let Some(object) = object_asked(drive, asked.object, asked.name, at)? else {
        return Err(Failure::NoneAsked);
    };
    write_object(alloc, drive, object, asked.at, writer)?;
    Ok(Verdict::Fine)
}

// Prints the bytes of an object of a drive at a moment.
fn write_object<J: Naming, W: Sink>(
    alloc: Global,
    drive: &mut Drive<J>,
    object: ObjectId,
    at: Option<MomentWord>,
    writer: &mut W,
) -> Result<(), Failure>
    requires writer { W.failures writer.old + 1 < 2 ^ 64 }
    ensures readable { OnOk result
        (IsVisible (state_in drive.old) object (moment_asked (state_in drive.old) at)) }
    ensures version { OnOk result
        (GivesVersion
        (version_of (state_in drive.old) object (moment_asked (state_in drive.old) at))
        (W.passed writer.old) (W.passed writer.new)) }
{
    let moment = moment_asked(drive, object, at)?;
    let mut session = drive.session(Role::Client)?;
    let version = version_at(alloc, drive, &mut session, object, moment)?;
    let written = write_found(&version, object, moment, writer);
    drop(version);
    written
}

// Prints the bytes of an object that is there.
fn write_found<W: Sink>(
    version: &Version,
    object: ObjectId,
    moment: Moment,
    writer: &mut W,
) -> Result<(), Failure>
    requires writer { W.failures writer.old + 1 < 2 ^ 64 }
    ensures version { OnOk result
        (GivesVersion version.now (W.passed writer.old) (W.passed writer.new)) }
{
    if let Version::Absent = version {
        return Err(not_there(object, moment));
    }
    write_version(version, writer)?;
    Ok(())
}

// The failure of an object that isn't there at a moment.
fn not_there(object: ObjectId, moment: Moment) -> Failure {
    Failure::NotThere {
        object: object.number(),
        moment: as_number(moment),
    }
}
