//! `export`: the objects of a moment as files in a folder.
ghost use Rattle.std.specs.Prelude.{◌≡◌, IfOk, OnOk};
ghost use Rattle.segment_table.specs.Room.{log_of};
ghost use Rattle.version_store.specs.Store.{fields_of};
ghost use Rattle.drive.specs.Fields.{state_in, store_of};
ghost use Rattle.drive.specs.Opened.{base_of};
ghost use Rattle.history_export.specs.Exports.{Exports};
ghost use Rattle.s4_images.specs.Commands.{OverImage, OverOpened};
ghost use Rattle.s4_folders.specs.Exporting.{Exported};

use drive::{Drive, OpenedDrive};
use history_export::{Folder, SystemFolder, export};
use image_commands::{Files, read_image};
use s4_command::ExportAsked;
use s4_images::{CommandOutput, Failure, moment_asked};
use s4_types::{Moment, ObjectId, Role};
use segment_word::Naming;
use std::alloc::Global;
use std::io;
use std::marker::Brand;
use std::thread::Threads;
use verifier::open;

/// Folders, each found by its path.
pub trait Folders {
    /// What is at a path.
    type Opened: Folder + Drop;

    /// The folder at a path. It is made where it isn't there.
    fn folder(&self, alloc: Global, path: &str) -> io::Result<Self::Opened>
        ensures opened { IfOk result (λ folder. Self.Opened.path folder ≡ path.now) };
}

impl Folders for HostRuntime {
    type Opened = SystemFolder;

    fn folder(&self, alloc: Global, path: &str) -> io::Result<SystemFolder> {
        SystemFolder::at(self, alloc, path)
    }
}

/// Writes the objects that an image's drive has at a moment into the folder at a path. The folder
/// is made once it is known that the image is one, and that the moment can be read. Nothing is
/// written to the output, which hears of the drive's clock.
pub fn export_image<T: Threads, F: Files, D: Folders, W: CommandOutput>(
    rt: &T,
    alloc: Global,
    files: &F,
    folders: &D,
    asked: &ExportAsked<'_>,
    output: &mut W,
) -> Result<(), Failure>
    ensures exports { OnOk result
        (OverImage (F.contents files.now asked.now.image.now)
        (λ drive. Exported D.Opened.path D.Opened.files drive asked.now)) }
{
    let image = read_image(rt, alloc, files, asked.image)?;
    let opened = open(alloc, image)?;
    export_opened::<Brand, D, W>(alloc, opened, folders, asked, output)
}

// The same of a drive that was just opened.
fn export_opened<J: Naming, D: Folders, W: CommandOutput>(
    alloc: Global,
    opened: OpenedDrive,
    folders: &D,
    asked: &ExportAsked<'_>,
    output: &mut W,
) -> Result<(), Failure>
    requires accepts { opened.accepts ≡ J.accepts }
    requires frames { opened.store.table.seat.table ≡ J.frames }
    requires base { base_of (fields_of log_of opened.store) opened.timeline opened.next
        opened.audit ≡ J.base }
    ensures exports { OnOk result
        (OverOpened opened (λ drive. Exported D.Opened.path D.Opened.files drive asked.now)) }
{
    let mut drive = opened.named::<J>();
    output.drive_opened(drive.clock());
    export_drive(alloc, &mut drive, folders, asked)
}

// The same of a drive.
fn export_drive<J: Naming, D: Folders>(
    alloc: Global,
    drive: &mut Drive<J>,
    folders: &D,
    asked: &ExportAsked<'_>,
) -> Result<(), Failure>
    ensures exports { OnOk result (Exported D.Opened.path D.Opened.files drive.old asked.now) }
{
    let moment = match moment_asked(drive, ObjectId::new(0), asked.at) {
        Ok(moment) => moment,
        Err(failure) => return Err(failure),
    };
    let Ok(mut folder) = folders.folder(alloc, asked.folder) else {
        return Err(Failure::NoFolder);
    };
    export_into(alloc, drive, &mut folder, moment)
}

// Writes the objects of a moment into a folder.
fn export_into<J: Naming, D: Folder>(
    alloc: Global,
    drive: &mut Drive<J>,
    folder: &mut D,
    at: Moment,
) -> Result<(), Failure>
    ensures exports { OnOk result
        (Exports (state_in drive.old) (store_of drive.old) at (D.files folder.old)
        (D.files folder.new)) }
    ensures path { D.path folder.new ≡ D.path folder.old }
{
    let mut session = drive.session(Role::Client)?;
    match export(alloc, drive, &mut session, folder, at) {
        Ok(()) => Ok(()),
        Err(error) => Err(Failure::from(error)),
    }
}
