//! The file beside an image, which is to take its place.
ghost use Rattle.std.specs.Prelude.{◌≡◌, ◌≢◌, IfOk, IfSome, IsSome, IsTrue, OnOk, string_bytes};
ghost use Rattle.host_calls.specs.Files.{is_locked, made_mode};
ghost use Rattle.host_calls.specs.Replay.{replay};
ghost use Rattle.host_calls.specs.Worlds.{HasBytes, IsAt};
ghost use Rattle.kept_files.specs.Places.{AreOthersAsBefore, IsAsBefore, IsWritten};
ghost use Rattle.kept_files.specs.declared.making.TheConstants.{PRIVATE};

use host_calls::{
    Calls, fill_file, give_file, link_file, lock_file, make_file, remove_file, set_file_mode,
};
use image_commands::{ImageClaim, MOST_BESIDE, Obstacle, folder_of, is_file_of, part_path};
use std::alloc::Global;
use std::fs::{Metadata, TryLockError};
use std::io;
use std::os::unix::fs::MetadataExt;
use std::path::Path;

/// Who may read and write the file beside an image until it has the image's own mode: nobody else.
const PRIVATE: u32 = 0o600;

/// Who may read and write a new image, by the mask of who made it.
const ORDINARY: u32 = 0o666;

/// A file beside an image, locked, and the folder that both are in.
#[derive(Drop)]
pub struct Beside<F, D> {
    pub path: String,
    pub file: F,
    pub folder: D,
}

/// A file that was made, locked, and its path.
#[derive(Drop)]
struct Made<F> {
    path: String,
    file: F,
}

/// Makes the file beside a claimed image, by the first name of a service's that no file has, with
/// the image's mode and owner, and with these bytes. An obstacle leaves none.
#[tactic(auto, using(crate::proofs::Steps::before_then, crate::proofs::Steps::before_of, crate::proofs::Steps::other_is))]
pub fn filled_beside<C: Calls>(
    rt: &HostRuntime,
    calls: &mut C,
    alloc: Global,
    claim: &ImageClaim,
    bytes: &[u8],
) -> Result<Beside<C::File, C::Folder>, Obstacle>
    ensures written { IfOk result
        (λ beside. IsWritten (replay (C.history calls.new)) (C.number beside.file)
        (string_bytes beside.path) bytes.now) }
    ensures image { IsAsBefore (string_bytes claim.now.path) (replay (C.history calls.old))
        (replay (C.history calls.new)) }
{
    let beside = new_beside(rt, calls, alloc, claim)?;
    match fill_beside(calls, claim, &beside, bytes) {
        Ok(()) => Ok(beside),
        Err(obstacle) => {
            // It is of no use to anybody, also where it can't be removed.
            let _ = remove_file(calls, beside.path.as_str());
            Err(obstacle)
        }
    }
}

/// Gives the file beside an image its mode and owner, and these bytes.
#[tactic(auto, using(crate::proofs::Steps::others_of, crate::proofs::Steps::others_equal, crate::proofs::Steps::others_then))]
fn fill_beside<C: Calls>(
    calls: &mut C,
    claim: &ImageClaim,
    beside: &Beside<C::File, C::Folder>,
    bytes: &[u8],
) -> Result<(), Obstacle>
    requires { IsAt (replay (C.history calls.old)) (C.number beside.now.file)
        (string_bytes beside.now.path) }
    ensures written { OnOk result
        (IsWritten (replay (C.history calls.new)) (C.number beside.now.file)
        (string_bytes beside.now.path) bytes.now) }
    ensures others { AreOthersAsBefore (string_bytes beside.now.path)
        (replay (C.history calls.old)) (replay (C.history calls.new)) }
{
    keep_image_owner(calls, &beside.file, claim)?;
    fill_file(calls, &beside.file, bytes)?;
    Ok(())
}

/// Gives a file the owner, the group and the mode of a claimed image, where that is there.
fn keep_image_owner<C: Calls>(
    calls: &mut C,
    file: &C::File,
    claim: &ImageClaim,
) -> Result<(), Obstacle>
    ensures { replay (C.history calls.new) ≡ replay (C.history calls.old) }
{
    let Some(image) = claim.image() else {
        return Ok(());
    };
    let about = image.metadata()?;
    match keep_owner(calls, file, &about) {
        Ok(()) => Ok(()),
        Err(_) => Err(Obstacle::NotKept),
    }
}

/// Gives a file the owner, the group and the mode of another.
fn keep_owner<C: Calls>(calls: &mut C, file: &C::File, other: &Metadata) -> io::Result<()>
    ensures { replay (C.history calls.new) ≡ replay (C.history calls.old) }
{
    let mine = calls.metadata(file)?;
    if mine.uid() != other.uid() || mine.gid() != other.gid() {
        give_file(calls, file, other.uid(), other.gid())?;
    }
    set_file_mode(calls, file, other.permissions())
}

/// Makes an empty file beside an image. So nobody else writes it, and no file that was there is
/// lost.
#[tactic(auto, using(crate::proofs::Steps::before_equal, crate::proofs::Steps::before_then))]
fn new_beside<C: Calls>(
    rt: &HostRuntime,
    calls: &mut C,
    alloc: Global,
    claim: &ImageClaim,
) -> Result<Beside<C::File, C::Folder>, Obstacle>
    ensures at { IfOk result
        (λ beside. IsAt (replay (C.history calls.new)) (C.number beside.file)
        (string_bytes beside.path)) }
    ensures apart { IfOk result
        (λ beside. string_bytes claim.now.path ≢ string_bytes beside.path) }
    ensures image { IsAsBefore (string_bytes claim.now.path) (replay (C.history calls.old))
        (replay (C.history calls.new)) }
{
    // It is opened now, so that a folder of which that is refused is known before anything changes.
    let folder = calls.open_folder(folder_of(Path::new(claim.path())))?;
    for number in 0..MOST_BESIDE {
        if let Some(made) = numbered_beside(rt, calls, alloc, claim, number)? {
            let Made { path, file } = made;
            return Ok(Beside { path, file, folder });
        }
    }
    Err(Obstacle::NoName)
}

/// Makes it by the name of this number, where that is free.
#[tactic(auto, using(crate::proofs::Steps::part_apart, crate::proofs::Steps::other_is, crate::proofs::Steps::before_equal))]
fn numbered_beside<C: Calls>(
    rt: &HostRuntime,
    calls: &mut C,
    alloc: Global,
    claim: &ImageClaim,
    number: u32,
) -> Result<Option<Made<C::File>>, Obstacle>
    ensures at { IfOk result (λ made. IfSome made
        (λ had. IsAt (replay (C.history calls.new)) (C.number had.file)
        (string_bytes had.path))) }
    ensures apart { IfOk result (λ made. IfSome made
        (λ had. string_bytes claim.now.path ≢ string_bytes had.path)) }
    ensures image { IsAsBefore (string_bytes claim.now.path) (replay (C.history calls.old))
        (replay (C.history calls.new)) }
{
    let path = part_path(alloc, claim.path(), number)?;
    match made_beside(rt, calls, claim, path.as_str())? {
        Some(file) => Ok(Some(Made { path, file })),
        None => Ok(None),
    }
}

/// Makes it at a path without links, and locks it. None where that isn't free.
#[tactic(auto, using(crate::proofs::Steps::others_equal, crate::proofs::Steps::others_then))]
fn made_beside<C: Calls>(
    rt: &HostRuntime,
    calls: &mut C,
    claim: &ImageClaim,
    path: &str,
) -> Result<Option<C::File>, Obstacle>
    ensures at { IfOk result (λ made. IfSome made
        (λ file. IsAt (replay (C.history calls.new)) (C.number file) path.now)) }
    ensures others { AreOthersAsBefore path.now (replay (C.history calls.old))
        (replay (C.history calls.new)) }
{
    match can_be_linked(calls, claim, path)? {
        true => made_locked(rt, calls, claim, path),
        false => Ok(None),
    }
}

/// Whether a name beside an image is free. An image that is mounted by itself can't be renamed over,
/// and the system says that of a link of the image, too: so one is made by that name, and removed.
/// What else a link is refused for proves nothing.
#[tactic(auto, using(crate::proofs::Steps::others_of, crate::proofs::Steps::others_equal, crate::proofs::Steps::others_then))]
fn can_be_linked<C: Calls>(calls: &mut C, claim: &ImageClaim, path: &str) -> Result<bool, Obstacle>
    ensures { AreOthersAsBefore path.now (replay (C.history calls.old))
        (replay (C.history calls.new)) }
{
    if claim.image().is_none() {
        return Ok(true);
    }
    match link_file(calls, claim.path(), path) {
        Ok(()) => {
            remove_file(calls, path)?;
            Ok(true)
        }
        Err(error) => match error.kind() {
            io::ErrorKind::AlreadyExists => Ok(false),
            io::ErrorKind::CrossesDevices => Err(Obstacle::Mounted),
            _ => Ok(true),
        },
    }
}

/// A file that was made at a path without links, and is locked. None where a file is there, or
/// another program took this one for a leftover before it was locked.
#[tactic(auto, using(crate::proofs::Steps::others_of, crate::proofs::Steps::others_equal, crate::proofs::Steps::others_then))]
fn made_locked<C: Calls>(
    rt: &HostRuntime,
    calls: &mut C,
    claim: &ImageClaim,
    path: &str,
) -> Result<Option<C::File>, Obstacle>
    ensures at { IfOk result (λ made. IfSome made
        (λ file. IsAt (replay (C.history calls.new)) (C.number file) path.now)) }
    ensures locked { IfOk result (λ made. IfSome made
        (λ file. IsTrue (is_locked (C.number file) (C.history calls.new)))) }
    // Nobody else may read it while it has the bytes of an image that nobody else may read.
    ensures private { IsSome claim.now.image → IfOk result (λ made. IfSome made
        (λ file. made_mode (C.number file) (C.history calls.new) ≡ PRIVATE)) }
    ensures others { AreOthersAsBefore path.now (replay (C.history calls.old))
        (replay (C.history calls.new)) }
{
    match make_file(calls, path, mode_beside(claim)) {
        Ok(file) => lock_made(rt, calls, file, path),
        Err(error) if error.kind() == io::ErrorKind::AlreadyExists => Ok(None),
        Err(error) => Err(Obstacle::from(error)),
    }
}

/// The mode that a file beside an image is made with.
fn mode_beside(claim: &ImageClaim) -> u32
    ensures { IsSome claim.now.image → result ≡ PRIVATE }
{
    match claim.image() {
        Some(_) => PRIVATE,
        None => ORDINARY,
    }
}

/// A file that was just made, locked. None where it isn't at its path any more.
#[tactic(auto, using(crate::proofs::Steps::others_of, crate::proofs::Steps::others_equal, crate::proofs::Steps::others_then))]
fn lock_made<C: Calls>(
    rt: &HostRuntime,
    calls: &mut C,
    file: C::File,
    path: &str,
) -> Result<Option<C::File>, Obstacle>
    requires { IsAt (replay (C.history calls.old)) (C.number file) path.now }
    ensures at { IfOk result (λ made. IfSome made
        (λ same. IsAt (replay (C.history calls.new)) (C.number same) path.now)) }
    ensures locked { IfOk result (λ made. IfSome made
        (λ same. IsTrue (is_locked (C.number same) (C.history calls.new)))) }
    ensures mode { IfOk result (λ made. IfSome made
        (λ same. made_mode (C.number same) (C.history calls.new)
        ≡ made_mode (C.number file) (C.history calls.old))) }
    ensures others { AreOthersAsBefore path.now (replay (C.history calls.old))
        (replay (C.history calls.new)) }
{
    match lock(rt, calls, &file, path) {
        Ok(true) => Ok(Some(file)),
        Ok(false) => Ok(None),
        Err(error) => {
            let _ = remove_file(calls, path);
            Err(Obstacle::from(error))
        }
    }
}

/// Locks a file against other programs, and says whether it is at its path then. Not so where
/// another program has it.
fn lock<C: Calls>(rt: &HostRuntime, calls: &mut C, file: &C::File, path: &str) -> io::Result<bool>
    ensures locked { IfOk result
        (λ is. IsTrue is → IsTrue (is_locked (C.number file.now) (C.history calls.new))) }
    ensures same { replay (C.history calls.new) ≡ replay (C.history calls.old) }
    ensures mode { made_mode (C.number file.now) (C.history calls.new)
        ≡ made_mode (C.number file.now) (C.history calls.old) }
{
    match lock_file(calls, file) {
        Ok(()) => is_file_of(rt, &calls.metadata(file)?, path),
        Err(TryLockError::WouldBlock) => Ok(false),
        Err(TryLockError::Error(error)) => Err(error),
    }
}
