//! How the file beside an image takes its place, or a name of its own.
ghost use Rattle.std.specs.Prelude.{◌≡◌, ℕ, List, [], IfErr, IfOk, IsTrue, OnErr, OnOk, is_ok};
ghost use Rattle.std.specs.Prelude.{false, not, string_bytes};
ghost use Rattle.host_calls.specs.Replay.{replay};
ghost use Rattle.host_calls.specs.Worlds.{AddsNone, AddsOnly, HasBytes, SameNames};
ghost use Rattle.image_commands.specs.Crashes.{IsShort};
ghost use Rattle.kept_files.specs.Places.{AreRestAsBefore};

use crate::making::Beside;
use host_calls::{Calls, link_file, remove_file, rename_file, sync_names};
use image_commands::{ImageClaim, MOST_BESIDE, Obstacle, folder_of, whole_path};
use std::alloc::Global;
use std::path::Path;
use std::{fs, io};

/// Gives the file at a path the image's path, where that still leads to what was claimed.
pub fn take_place<C: Calls>(
    rt: &HostRuntime,
    calls: &mut C,
    claim: &ImageClaim,
    from: &str,
) -> Result<(), Obstacle>
    ensures named { OnOk result ((replay (C.history calls.new)).named (string_bytes claim.now.path)
        ≡ (replay (C.history calls.old)).named from.now) }
    ensures refused { OnErr result
        (SameNames (replay (C.history calls.old)) (replay (C.history calls.new))) }
    ensures crash { AddsOnly C.was ((replay (C.history calls.old)).named from.now)
        (replay (C.history calls.old)) (replay (C.history calls.new)) }
    ensures short { IfErr result (λ obstacle. IsShort obstacle
        → AddsNone C.was (replay (C.history calls.old)) (replay (C.history calls.new))) }
    ensures failed { (replay (C.history calls.new)).failed
        ≡ (replay (C.history calls.old)).failed }
{
    if !claim.is_as_claimed(rt)? {
        return Err(Obstacle::Moved);
    }
    match rename_file(calls, from, claim.path()) {
        Ok(()) => Ok(()),
        Err(error) => Err(Obstacle::from(error)),
    }
}

/// Writes the names of the folder that a path is in to the disk, by that folder as it was opened
/// before, where it was by its path.
pub fn sync_folder_of<C: Calls>(
    calls: &mut C,
    folder: &Option<C::Folder>,
    path: &str,
) -> Result<(), Obstacle>
    ensures lasting { OnOk result ((replay (C.history calls.old)).failed ≡ false
        → (replay (C.history calls.new)).others path.now ≡ []) }
    ensures names { SameNames (replay (C.history calls.old)) (replay (C.history calls.new)) }
    ensures crash { AddsNone C.was (replay (C.history calls.old)) (replay (C.history calls.new)) }
    ensures failed { OnOk result ((replay (C.history calls.old)).failed ≡ false
        → (replay (C.history calls.new)).failed ≡ false) }
{
    let place = folder_of(Path::new(path));
    match folder {
        Some(folder) if calls.place(folder) == place => sync_names(calls, folder)?,
        _ => {
            let opened = calls.open_folder(place)?;
            sync_names(calls, &opened)?;
        }
    }
    Ok(())
}

/// Gives the file beside an image, which can't take its place, the first name of a whole one that is
/// free, at which whoever comes next looks for it. Where it gets none it keeps the one that it has.
/// Gives its path.
#[tactic(auto, using(crate::proofs::Steps::adds_then, crate::proofs::Steps::none_adds_only, crate::proofs::Steps::bytes_named))]
pub fn set_aside<C: Calls>(
    rt: &HostRuntime,
    calls: &mut C,
    alloc: Global,
    claim: &ImageClaim,
    beside: Beside<C::File, C::Folder>,
) -> String
    ensures whole { (bytes : List ℕ)
        → HasBytes (replay (C.history calls.old)) (string_bytes beside.path) bytes
        → HasBytes (replay (C.history calls.new)) (string_bytes result) bytes }
    ensures image { (replay (C.history calls.new)).named (string_bytes claim.now.path)
        ≡ (replay (C.history calls.old)).named (string_bytes claim.now.path) }
    ensures crash { AddsOnly C.was
        ((replay (C.history calls.old)).named (string_bytes beside.path))
        (replay (C.history calls.old)) (replay (C.history calls.new)) }
{
    for number in 0..MOST_BESIDE {
        if let Ok(path) = whole_path(alloc, claim.path(), number)
            && let Ok(true) = is_set_aside(
                rt,
                calls,
                claim.path(),
                beside.path.as_str(),
                path.as_str(),
            )
        {
            // What is at the path is whole, whether this fails or not.
            let _ = sync_names(calls, &beside.folder);
            return path;
        }
    }
    beside.path
}

/// Gives a file beside an image another name, where that is free, and says whether it was. The image
/// keeps its own.
#[tactic(auto, using(crate::proofs::Steps::none_adds_only, crate::proofs::Steps::rest_named))]
fn is_set_aside<C: Calls>(
    rt: &HostRuntime,
    calls: &mut C,
    image: &str,
    from: &str,
    to: &str,
) -> io::Result<bool>
    ensures named { IfOk result (λ is. IsTrue is → (replay (C.history calls.new)).named to.now
        ≡ (replay (C.history calls.old)).named from.now) }
    ensures stays { IfOk result (λ is. is ≡ false
        → (replay (C.history calls.new)).named from.now
        ≡ (replay (C.history calls.old)).named from.now) }
    ensures refused { OnErr result ((replay (C.history calls.new)).named from.now
        ≡ (replay (C.history calls.old)).named from.now) }
    ensures image { (replay (C.history calls.new)).named image.now
        ≡ (replay (C.history calls.old)).named image.now }
    ensures crash { AddsOnly C.was ((replay (C.history calls.old)).named from.now)
        (replay (C.history calls.old)) (replay (C.history calls.new)) }
{
    if from == image || to == image {
        return Ok(false);
    }
    is_renamed(rt, calls, from, to)
}

/// Gives a file another name, where that is free, and says whether it was. No other file that gets
/// the name meanwhile is lost, where the file system knows links.
#[tactic(auto, using(crate::proofs::Steps::adds_then, crate::proofs::Steps::none_adds_only, crate::proofs::Steps::others_of, crate::proofs::Steps::rest_equal, crate::proofs::Steps::rest_of, crate::proofs::Steps::rest_of_first, crate::proofs::Steps::rest_of_second, crate::proofs::Steps::rest_then))]
fn is_renamed<C: Calls>(rt: &HostRuntime, calls: &mut C, from: &str, to: &str) -> io::Result<bool>
    ensures named { IfOk result (λ is. IsTrue is → (replay (C.history calls.new)).named to.now
        ≡ (replay (C.history calls.old)).named from.now) }
    ensures stays { IfOk result (λ is. is ≡ false
        → (replay (C.history calls.new)).named from.now
        ≡ (replay (C.history calls.old)).named from.now) }
    ensures refused { OnErr result ((replay (C.history calls.new)).named from.now
        ≡ (replay (C.history calls.old)).named from.now) }
    ensures others { AreRestAsBefore from.now to.now (replay (C.history calls.old))
        (replay (C.history calls.new)) }
    ensures crash { AddsOnly C.was ((replay (C.history calls.old)).named from.now)
        (replay (C.history calls.old)) (replay (C.history calls.new)) }
{
    // It has that name.
    if from == to {
        return Ok(false);
    }
    match link_file(calls, from, to) {
        Ok(()) => {
            // Where this fails it has both names.
            let _ = remove_file(calls, from);
            Ok(true)
        }
        Err(error) if error.kind() == io::ErrorKind::AlreadyExists => Ok(false),
        Err(_) => match is_free(rt, to) {
            true => {
                rename_file(calls, from, to)?;
                Ok(true)
            }
            false => Ok(false),
        },
    }
}

/// Whether nothing is at a path.
fn is_free(rt: &HostRuntime, path: &str) -> bool {
    match fs::symlink_metadata(rt, path) {
        Ok(_) => false,
        Err(error) => error.kind() == io::ErrorKind::NotFound,
    }
}
