//! `at`: what an object was at a moment.
ghost use Rattle.std.specs.Prelude.{◌≡◌, ◌⊎◌, ◌+◌, ◌^◌, ◌<◌, IfErr, OnOk};
ghost use Rattle.segment_table.specs.Room.{log_of};
ghost use Rattle.version_store.specs.Store.{fields_of};
ghost use Rattle.drive.specs.Opened.{base_of};
ghost use Rattle.s4_types.specs.declared.refusals.Refusal.TheVariants.{NoObject};
ghost use Rattle.s4_types.specs.declared.versions.Version.TheVariants.{Absent};
ghost use Rattle.image_commands.specs.Faults.{SaysUnwritten};
ghost use Rattle.image_commands.specs.ReadingPast.{GivesObject, GivesVersion, RefusesVersion};
ghost use Rattle.image_commands.specs.ReadingPast.{SaysRefused, SaysUngiven, version_from};

use crate::faults::Fault;
use crate::files::Files;
use crate::verifying::{read_image, write_out};
use drive::OpenedDrive;
use history_view::version_at;
use s4_types::{Moment, ObjectId, Refusal, Role, Version};
use s4d_command::At;
use segment_word::Naming;
use serving::Sink;
use std::alloc::Global;
use std::marker::Brand;
use std::thread::Threads;
use verifier::open;

/// Writes the whole bytes of an object at a moment.
pub fn write_object<'a, T: Threads, F: Files, W: Sink>(
    rt: &T,
    alloc: Global,
    files: &F,
    asked: At<'a>,
    writer: &mut W,
) -> Result<(), Fault<'a>>
    requires writer { W.failures writer.old + 1 < 2 ^ 64 }
    ensures object { OnOk result
        (GivesObject (F.contents files.now asked.entry.image.now) asked.entry.object
        asked.entry.moment (W.passed writer.old) (W.passed writer.new)) }
    ensures fault { IfErr result
        (SaysUngiven (F.contents files.now asked.entry.image.now) asked.entry.image.now
        asked.entry.object asked.entry.moment (W.failures writer.old) (W.failures writer.new)) }
{
    let image = match read_image(rt, alloc, files, asked.image) {
        Ok(image) => image,
        Err(fault) => return Err(fault),
    };
    match open(alloc, image) {
        Ok(opened) => write_past::<Brand, W>(alloc, opened, asked, writer),
        Err(refusal) => Err(Fault::Refused(refusal)),
    }
}

// The same of a drive that was just opened.
fn write_past<'a, J: Naming, W: Sink>(
    alloc: Global,
    opened: OpenedDrive,
    asked: At<'a>,
    writer: &mut W,
) -> Result<(), Fault<'a>>
    requires accepts { opened.accepts ≡ J.accepts }
    requires frames { opened.store.table.seat.table ≡ J.frames }
    requires base { base_of (fields_of log_of opened.store) opened.timeline opened.next opened.audit ≡ J.base }
    requires writer { W.failures writer.old + 1 < 2 ^ 64 }
    ensures version { OnOk result
        (GivesVersion (version_from J.base asked.entry.object asked.entry.moment)
        (W.passed writer.old) (W.passed writer.new)) }
    ensures fault { IfErr result
        (λ fault. SaysRefused (RefusesVersion J.base asked.entry.object asked.entry.moment) fault
        ⊎ SaysUnwritten (W.failures writer.old) (W.failures writer.new) fault) }
{
    let mut drive = opened.named::<J>();
    let mut session = match drive.session(Role::Client) {
        Ok(session) => session,
        Err(refusal) => return Err(Fault::Refused(refusal)),
    };
    let object = ObjectId::new(asked.object);
    let moment = Moment::new(asked.moment);
    let past = version_at(alloc, &mut drive, &mut session, object, moment);
    drop(session);
    drop(drive);
    match past {
        Ok(version) => {
            let written = write_version(&version, writer);
            drop(version);
            written
        }
        Err(refusal) => Err(Fault::Refused(refusal)),
    }
}

/// Writes the bytes of a version. NoObject where it is absent.
pub fn write_version<'a, W: Sink>(version: &Version, writer: &mut W) -> Result<(), Fault<'a>>
    requires writer { W.failures writer.old + 1 < 2 ^ 64 }
    ensures version { OnOk result
        (GivesVersion version.now (W.passed writer.old) (W.passed writer.new)) }
    ensures fault { IfErr result
        (λ fault. ((version.now ≡ Absent) × (fault ≡ Fault.Refused NoObject))
        ⊎ SaysUnwritten (W.failures writer.old) (W.failures writer.new) fault) }
{
    match version {
        Version::Live { bytes, .. } => write_out(writer, bytes.as_slice()),
        Version::Absent => Err(Fault::Refused(Refusal::NoObject)),
    }
}
