//! `export`: the objects of a moment as files of a folder.
ghost use Rattle.std.specs.Prelude.{◌≡◌, [], IfErr, OnOk};
ghost use Rattle.std.specs.Option.{option_map};
ghost use Rattle.s4_model.specs.Visible.{IsVisible};
ghost use Rattle.s4_model.specs.VersionAt.{version_of};
ghost use Rattle.drive.specs.Fields.{state_in, store_of};
ghost use Rattle.history_view.specs.Contents.{content_of};
ghost use Rattle.history_export.specs.Folders.{AreFiles, with_bytes, with_file};
ghost use Rattle.history_export.specs.Manifest.{manifest_name};
ghost use Rattle.history_export.specs.Exports.{Exports, HasExported, Explains, IsOfWriting};
ghost use Rattle.history_export.specs.Exports.{exported, with_line, with_named, with_object};

use crate::faults::{ExportError, ExportedFile, reading, writing};
use crate::folders::Folder;
use crate::manifest::{MANIFEST, file_name, manifest_line};
use crate::versions::version_seen;
use drive::{Drive, Session};
use history_view::{Listed, content_of, next_listed};
use s4_types::{Moment, ObjectId};
use segment_word::Naming;
use std::alloc::Global;

/// Writes each object that is live at a moment into an empty folder, as a file of its bytes, and
/// what each file is into a manifest, one line of JSON for each, by ascending number. An object of
/// which that moment is hidden is left out; so all are where the moment can't be read of any.
///
/// NotEmpty where anything is in the folder. In memory there is one object at a time.
pub fn export<J: Naming, F: Folder>(
    alloc: Global,
    drive: &mut Drive<J>,
    session: &mut Session<J>,
    folder: &mut F,
    at: Moment,
) -> Result<(), ExportError>
    ensures exports { OnOk result
        (Exports (state_in drive.old) (store_of drive.old) at (F.files folder.old)
        (F.files folder.new)) }
    ensures path { F.path folder.new ≡ F.path folder.old }
    ensures refused { IfErr result (Explains (F.files folder.old)) }
    ensures state { state_in drive.new ≡ state_in drive.old }
    ensures store { store_of drive.new ≡ store_of drive.old }
{
    begin_folder(folder)?;
    export_objects(alloc, drive, session, folder, at)
}

/// Makes an empty manifest in a folder that has nothing. NotEmpty where anything is in it.
pub fn begin_folder<F: Folder>(folder: &mut F) -> Result<(), ExportError>
    ensures empty { OnOk result (AreFiles (F.files folder.old) []) }
    ensures begun { OnOk result
        (F.files folder.new ≡ option_map (with_file manifest_name []) (F.files folder.old)) }
    ensures path { F.path folder.new ≡ F.path folder.old }
    ensures refused { IfErr result (Explains (F.files folder.old)) }
{
    check_empty(folder)?;
    make_file(folder, ExportedFile::Manifest, MANIFEST, &[])
}

// An error where anything is in the folder, or where that can't be read.
fn check_empty<F: Folder>(folder: &F) -> Result<(), ExportError>
    ensures empty { OnOk result (AreFiles (F.files folder.now) []) }
    ensures refused { IfErr result (Explains (F.files folder.now)) }
{
    match folder.is_empty() {
        Ok(true) => Ok(()),
        Ok(false) => Err(ExportError::NotEmpty),
        Err(error) => Err(reading(error.kind())),
    }
}

// Makes a file of this name and these bytes.
fn make_file<F: Folder>(
    folder: &mut F,
    file: ExportedFile,
    name: &str,
    bytes: &[u8],
) -> Result<(), ExportError>
    ensures made { OnOk result
        (F.files folder.new ≡ option_map (with_file name.now bytes.now) (F.files folder.old)) }
    ensures path { F.path folder.new ≡ F.path folder.old }
    ensures refused { IfErr result IsOfWriting }
{
    match folder.make_file(name, bytes) {
        Ok(()) => Ok(()),
        Err(error) => Err(writing(error.kind(), file)),
    }
}

/// Adds a line to the manifest.
pub fn add_line<F: Folder>(folder: &mut F, line: &[u8]) -> Result<(), ExportError>
    ensures grown { OnOk result
        (F.files folder.new ≡ option_map (with_bytes manifest_name line.now) (F.files folder.old)) }
    ensures path { F.path folder.new ≡ F.path folder.old }
    ensures refused { IfErr result IsOfWriting }
{
    match folder.append(MANIFEST, line) {
        Ok(()) => Ok(()),
        Err(error) => Err(writing(error.kind(), ExportedFile::Manifest)),
    }
}

// Writes each object into a folder that has an empty manifest, and tells it in the manifest.
fn export_objects<J: Naming, F: Folder>(
    alloc: Global,
    drive: &mut Drive<J>,
    session: &mut Session<J>,
    folder: &mut F,
    at: Moment,
) -> Result<(), ExportError>
    requires begun { AreFiles (F.files folder.old) (exported (state_in drive.old) at []) }
    ensures exported { OnOk result
        (HasExported (state_in drive.old) (store_of drive.old) at (F.files folder.new)) }
    ensures path { F.path folder.new ≡ F.path folder.old }
    ensures refused { IfErr result IsOfWriting }
    ensures state { state_in drive.new ≡ state_in drive.old }
    ensures store { store_of drive.new ≡ store_of drive.old }
{
    let mut last = ObjectId::new(0);
    while let Some(row) = next_listed(drive, last, at, false) {
        export_object(alloc, drive, session, folder, &row, at)?;
        last = row.object;
    }
    Ok(())
}

// Writes an object, and tells it in the manifest.
fn export_object<J: Naming, F: Folder>(
    alloc: Global,
    drive: &mut Drive<J>,
    session: &mut Session<J>,
    folder: &mut F,
    row: &Listed,
    at: Moment,
) -> Result<(), ExportError>
    requires visible { IsVisible (state_in drive.old) row.now.object at }
    ensures files { OnOk result
        (F.files folder.new
        ≡ option_map
        (with_object row.now
        (content_of (version_of (state_in drive.old) row.now.object at)))
        (F.files folder.old)) }
    ensures path { F.path folder.new ≡ F.path folder.old }
    ensures refused { IfErr result IsOfWriting }
    ensures state { state_in drive.new ≡ state_in drive.old }
    ensures store { store_of drive.new ≡ store_of drive.old }
{
    let version = version_seen(alloc, drive, session, row.object, at)?;
    let content = content_of(&version);
    let line = manifest_line(alloc, row, content)?;
    add_object(alloc, folder, row.object, content, line.as_bytes())
}

/// Writes an object of these bytes, and adds its line to the manifest.
pub fn add_object<F: Folder>(
    alloc: Global,
    folder: &mut F,
    object: ObjectId,
    content: &[u8],
    line: &[u8],
) -> Result<(), ExportError>
    ensures files { OnOk result
        (F.files folder.new
        ≡ option_map (with_line object content.now line.now) (F.files folder.old)) }
    ensures path { F.path folder.new ≡ F.path folder.old }
    ensures refused { IfErr result IsOfWriting }
{
    let name = file_name(alloc, object)?;
    add_named(folder, object, name.as_str(), content, line)
}

/// Writes an object of these bytes under a name, and adds its line to the manifest. An error is
/// told of the object.
pub fn add_named<F: Folder>(
    folder: &mut F,
    object: ObjectId,
    name: &str,
    content: &[u8],
    line: &[u8],
) -> Result<(), ExportError>
    ensures files { OnOk result
        (F.files folder.new
        ≡ option_map (with_named name.now content.now line.now) (F.files folder.old)) }
    ensures path { F.path folder.new ≡ F.path folder.old }
    ensures refused { IfErr result IsOfWriting }
{
    make_file(folder, ExportedFile::Object(object), name, content)?;
    add_line(folder, line)
}
