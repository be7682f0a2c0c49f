//! The path of an image among the files of the system.
ghost use Rattle.std.specs.Prelude.{◌≡◌, ◌≢◌, ◌↔◌, ◌&&◌, ℕ, List, [], IfErr, IfOk, None, Some};
ghost use Rattle.std.specs.Prelude.{false, is_ok, not, string_bytes, true};
ghost use Rattle.std.specs.List.{All};
ghost use Rattle.host_calls.specs.Replay.{replay};
ghost use Rattle.image_commands.specs.Crashes.{IsShort};
ghost use Rattle.kept_files.specs.Causes.{cause_of_sync};
ghost use Rattle.kept_files.specs.Places.{AreOthersAsBefore, IsAsBefore};

use crate::making::{Beside, filled_beside};
use crate::obstacles::{KeepCause, KeepObstacle};
use crate::placing::{set_aside, sync_folder_of, take_place};
use host_calls::{Calls, HostCalls, lock_file, remove_file, sync_file};
use image_commands::{ImageClaim, LeftFile, Obstacle};
use image_keeping::{Folder, FolderError};
use std::alloc::Global;
use std::io;

/// The path of an image that is claimed by a service, and the file beside it.
pub struct FileFolder<C: Calls + Drop> {
    alloc: Global,
    rt: HostRuntime,
    calls: C,
    /// Of the file that has the image's name, or of the name where no file has it.
    claim: ImageClaim,
    /// The folder that it is in, where it was put there.
    folder: Option<C::Folder>,
    /// The file beside it, which was filled.
    beside: Option<Beside<C::File, C::Folder>>,
    /// Whether no sync failed.
    is_usable: bool,
    /// What services left beside it, which is removed once an image is kept.
    left: Vec<LeftFile>,
    /// The path of the file that has an image which couldn't take its place.
    whole: Option<String>,
    /// What was in the way of the last call that failed.
    cause: Option<KeepCause>,
}

// Written by hand, so that an owner lets it go by one call.
impl<C: Calls + Drop> Drop for FileFolder<C> {
    fn drop(self) {
        let FileFolder {
            alloc: _,
            rt: _,
            calls: _,
            claim: _,
            folder: _,
            beside: _,
            is_usable: _,
            left: _,
            whole: _,
            cause: _,
        } = self;
    }
}

impl FileFolder<HostCalls> {
    /// The folder of a claimed image on this system.
    pub fn of_host(alloc: Global, rt: HostRuntime, claim: ImageClaim) -> Self
        ensures claim { result.claim ≡ claim }
        ensures usable { result.is_usable ≡ true }
        ensures sound { (replay result.calls.log.events).failed ≡ false }
        ensures left { result.left.items ≡ [] }
    {
        FileFolder::new(alloc, rt, HostCalls::new(rt), claim)
    }
}

impl<C: Calls + Drop> FileFolder<C> {
    /// The folder of a claimed image, over these calls.
    pub fn new(alloc: Global, rt: HostRuntime, calls: C, claim: ImageClaim) -> Self
        ensures calls { result.calls ≡ calls }
        ensures claim { result.claim ≡ claim }
        ensures beside { result.beside ≡ None }
        ensures usable { result.is_usable ≡ true }
        ensures left { result.left.items ≡ [] }
        ensures whole { result.whole ≡ None }
        ensures cause { result.cause ≡ None }
    {
        FileFolder {
            alloc,
            rt,
            calls,
            claim,
            folder: None,
            beside: None,
            is_usable: true,
            left: Vec::new(alloc),
            whole: None,
            cause: None,
        }
    }

    /// The same folder, beside whose image services left these files: they are removed once an
    /// image is kept.
    pub fn removing(self, left: Vec<LeftFile>) -> Self
        ensures { result ≡ record self { left = left } }
    {
        let mut folder = self;
        folder.left = left;
        folder
    }

    /// Whether the image is still where it was claimed, and kept since.
    pub fn is_in_place(&self) -> bool {
        self.claim.is_as_claimed(&self.rt).unwrap_or(false)
    }

    /// What was in the way of the last call that failed, and where the image is all the same.
    pub fn obstacle(&self) -> Option<KeepObstacle> {
        let cause = self.cause?;
        let whole = match &self.whole {
            Some(path) => String::from_str(self.alloc, path.as_str()).ok(),
            None => None,
        };
        Some(KeepObstacle { cause, whole })
    }
}

/// What an obstacle is for whoever keeps images: no room, which may come, or something else.
fn error_of(obstacle: Obstacle) -> FolderError
    ensures { (result ≡ FolderError.NoRoom) ↔ IsShort obstacle }
{
    if obstacle.is_short() {
        FolderError::NoRoom
    } else {
        FolderError::Failed
    }
}

/// The same. What was in the way is noted.
fn refusal(obstacle: Obstacle, noted: &mut Option<KeepCause>) -> FolderError
    ensures error { (result ≡ FolderError.NoRoom) ↔ IsShort obstacle }
    ensures noted { noted.new ≡ Some (KeepCause.Refused obstacle) }
{
    *noted = Some(KeepCause::Refused(obstacle));
    error_of(obstacle)
}

/// Whether a sync has ended well. Else what was in the way is noted, and only then.
fn has_lasted(synced: Result<(), Obstacle>, noted: &mut Option<KeepCause>) -> bool
    ensures well { result ≡ is_ok synced }
    ensures unchanged { IfOk synced (λ done. noted.new ≡ noted.old) }
    ensures noted { IfErr synced (λ obstacle. noted.new ≡ Some (cause_of_sync obstacle)) }
{
    match synced {
        Ok(()) => true,
        Err(obstacle) => {
            *noted = Some(KeepCause::of_sync(obstacle));
            false
        }
    }
}

/// What was in the way of a call, by its error.
fn obstacle_in(done: io::Result<()>) -> Result<(), Obstacle>
    ensures { is_ok result ≡ is_ok done }
{
    match done {
        Ok(()) => Ok(()),
        Err(error) => Err(Obstacle::from(error)),
    }
}

/// What a sync is answered by that ended well, or didn't.
fn answer_of(has_ended_well: bool) -> Result<(), FolderError>
    ensures { is_ok result ≡ has_ended_well }
{
    if has_ended_well {
        Ok(())
    } else {
        Err(FolderError::Failed)
    }
}

/// Removes the file beside an image that an earlier try left, where there is one.
#[tactic(auto, using(crate::proofs::Steps::before_equal))]
fn remove_earlier<C: Calls>(calls: &mut C, image: &str, beside: Option<Beside<C::File, C::Folder>>)
    ensures { IsAsBefore image.now (replay (C.history calls.old)) (replay (C.history calls.new)) }
{
    if let Some(beside) = beside {
        // It is of no use to anybody, also where it can't be removed.
        remove_apart(calls, image, beside.path.as_str());
    }
}

/// Removes what services left beside an image. Where a file stays, its name is passed over.
fn remove_left<C: Calls>(calls: &mut C, image: &str, left: &mut Vec<LeftFile>)
    ensures left { left.new.items ≡ [] }
    ensures image { IsAsBefore image.now (replay (C.history calls.old))
        (replay (C.history calls.new)) }
    ensures others { (path : List ℕ)
        → All (λ one. path ≢ string_bytes one.path) left.old.items
        → IsAsBefore path (replay (C.history calls.old)) (replay (C.history calls.new)) }
{
    while let Some(leftover) = left.pop() {
        remove_apart(calls, image, leftover.path());
    }
}

/// Removes the file at a path that isn't the image's, where it can.
#[tactic(auto, using(crate::proofs::Steps::before_of, crate::proofs::Steps::before_equal, crate::proofs::Steps::others_of, crate::proofs::Steps::others_equal))]
fn remove_apart<C: Calls>(calls: &mut C, image: &str, path: &str)
    ensures image { IsAsBefore image.now (replay (C.history calls.old))
        (replay (C.history calls.new)) }
    ensures others { AreOthersAsBefore path.now (replay (C.history calls.old))
        (replay (C.history calls.new)) }
{
    if path == image {
        return;
    }
    let _ = remove_file(calls, path);
}

impl<C: Calls + Drop> Folder for FileFolder<C> {
    ghost use Rattle.std.specs.Prelude.{IsErrOf, IsSome, IsSomeAnd, IsTrue, OnErr, OnOk};
    ghost use Rattle.std.specs.Prelude.{string_bytes};
    ghost use Rattle.std.specs.List.{All};
    ghost use Rattle.image_keeping.specs.Leaving.{Adds, AddsNothing, LeavesAll, Only};
    ghost use Rattle.host_calls.specs.Replay.{Leaves, MayLeave};
    ghost use Rattle.host_calls.specs.Worlds.{HasBytes, IsSettled, SameNames};
    ghost use Rattle.kept_files.specs.Besides.{BesideLeaves, IsBesideWritten, is_beside_locked};

    // What was called, and answered, says what a crash leaves.
    ghost is_known = { true };

    ghost may_leave = { λ f. MayLeave C.was (replay (C.history f.calls))
        (string_bytes f.claim.path) };

    ghost named = { λ f. Leaves C.was ((replay (C.history f.calls)).named
        (string_bytes f.claim.path)) };

    ghost beside = { λ f. BesideLeaves C.was (replay (C.history f.calls)) f.beside };

    ghost written = { λ f. IsBesideWritten C.number (replay (C.history f.calls)) f.beside };

    ghost is_locked = { λ f. is_beside_locked C.number (C.history f.calls) f.beside };

    ghost is_usable = { λ f. f.is_usable && not (replay (C.history f.calls)).failed };

    #[tactic(auto, using(crate::proofs::Steps::before_adds, crate::proofs::Steps::before_then))]
    fn write_beside(&mut self, bytes: &[u8]) -> Result<(), FolderError>
        requires { IsTrue (self.old.is_usable && not (replay (C.history self.old.calls)).failed) }
        ensures written { OnOk result (IsBesideWritten C.number
            (replay (C.history self.new.calls)) self.new.beside bytes.now) }
        ensures crash { AddsNothing
            (MayLeave C.was (replay (C.history self.old.calls)) (string_bytes self.old.claim.path))
            (MayLeave C.was (replay (C.history self.new.calls)) (string_bytes self.new.claim.path)) }
        ensures usable { IsTrue (self.new.is_usable
            && not (replay (C.history self.new.calls)).failed) }
        ensures claim { self.new.claim ≡ self.old.claim }
        ensures image { IsAsBefore (string_bytes self.old.claim.path)
            (replay (C.history self.old.calls)) (replay (C.history self.new.calls)) }
        ensures left { self.new.left ≡ self.old.left }
        ensures whole { self.new.whole ≡ self.old.whole }
    {
        // What an earlier try left is of no use, and what was in its way may not be there any more.
        self.cause = None;
        remove_earlier(&mut self.calls, self.claim.path(), self.beside.take());
        match filled_beside(&self.rt, &mut self.calls, self.alloc, &self.claim, bytes) {
            Ok(beside) => {
                self.beside = Some(beside);
                Ok(())
            }
            Err(obstacle) => Err(refusal(obstacle, &mut self.cause)),
        }
    }

    fn sync_beside(&mut self) -> Result<(), FolderError>
        requires { IsTrue (self.old.is_usable && not (replay (C.history self.old.calls)).failed) }
        ensures durable { OnOk result ((bytes : List ℕ)
            → IsBesideWritten C.number (replay (C.history self.old.calls)) self.old.beside bytes
            → Only bytes
            (BesideLeaves C.was (replay (C.history self.new.calls)) self.new.beside)) }
        ensures there { OnOk result ((bytes : List ℕ)
            → IsBesideWritten C.number (replay (C.history self.old.calls)) self.old.beside bytes
            → BesideLeaves C.was (replay (C.history self.new.calls)) self.new.beside bytes) }
        ensures written { (bytes : List ℕ)
            → IsBesideWritten C.number (replay (C.history self.old.calls)) self.old.beside bytes
            → IsBesideWritten C.number (replay (C.history self.new.calls)) self.new.beside bytes }
        ensures crash { AddsNothing
            (MayLeave C.was (replay (C.history self.old.calls)) (string_bytes self.old.claim.path))
            (MayLeave C.was (replay (C.history self.new.calls)) (string_bytes self.new.claim.path)) }
        ensures usable { (self.new.is_usable && not (replay (C.history self.new.calls)).failed)
            ≡ is_ok result }
        ensures claim { self.new.claim ≡ self.old.claim }
        ensures names { (path : List ℕ)
            → IsSettled ((replay (C.history self.old.calls)).named path)
            ((replay (C.history self.new.calls)).named path) }
        ensures left { self.new.left ≡ self.old.left }
        ensures whole { self.new.whole ≡ self.old.whole }
    {
        let Some(beside) = &self.beside else {
            self.is_usable = false;
            return Err(FolderError::Failed);
        };
        let synced = obstacle_in(sync_file(&mut self.calls, &beside.file));
        self.is_usable = has_lasted(synced, &mut self.cause);
        answer_of(self.is_usable)
    }

    fn lock_beside(&mut self) -> Result<(), FolderError>
        requires { IsTrue (self.old.is_usable && not (replay (C.history self.old.calls)).failed) }
        ensures locked { OnOk result (IsTrue (is_beside_locked C.number
            (C.history self.new.calls) self.new.beside)) }
        ensures same { replay (C.history self.new.calls) ≡ replay (C.history self.old.calls) }
        ensures others { (self.new.beside ≡ self.old.beside) × (self.new.claim ≡ self.old.claim)
            × (self.new.is_usable ≡ self.old.is_usable) × (self.new.left ≡ self.old.left)
            × (self.new.whole ≡ self.old.whole) }
    {
        // It is locked since it was made, so that it is no leftover of anybody.
        match &self.beside {
            Some(beside) => match lock_file(&mut self.calls, &beside.file) {
                Ok(()) => Ok(()),
                Err(_) => Err(refusal(Obstacle::InUse, &mut self.cause)),
            },
            None => Err(FolderError::Failed),
        }
    }

    #[tactic(auto, using(crate::proofs::Steps::bytes_named))]
    fn rename(&mut self) -> Result<(), FolderError>
        requires usable { IsTrue (self.old.is_usable
            && not (replay (C.history self.old.calls)).failed) }
        requires locked { IsTrue (is_beside_locked C.number (C.history self.old.calls)
            self.old.beside) }
        ensures named { OnOk result (AddsNothing
            (BesideLeaves C.was (replay (C.history self.old.calls)) self.old.beside)
            (Leaves C.was ((replay (C.history self.new.calls)).named
            (string_bytes self.new.claim.path)))) }
        ensures there { OnOk result (LeavesAll
            (BesideLeaves C.was (replay (C.history self.old.calls)) self.old.beside)
            (Leaves C.was ((replay (C.history self.new.calls)).named
            (string_bytes self.new.claim.path)))) }
        ensures crash { Adds
            (BesideLeaves C.was (replay (C.history self.old.calls)) self.old.beside)
            (MayLeave C.was (replay (C.history self.old.calls)) (string_bytes self.old.claim.path))
            (MayLeave C.was (replay (C.history self.new.calls)) (string_bytes self.new.claim.path)) }
        ensures refused { IsErrOf result FolderError.NoRoom → AddsNothing
            (MayLeave C.was (replay (C.history self.old.calls)) (string_bytes self.old.claim.path))
            (MayLeave C.was (replay (C.history self.new.calls)) (string_bytes self.new.claim.path)) }
        ensures usable { OnOk result (IsTrue (self.new.is_usable
            && not (replay (C.history self.new.calls)).failed)) }
        ensures again { IsErrOf result FolderError.NoRoom → IsTrue (self.new.is_usable
            && not (replay (C.history self.new.calls)).failed) }
        // The image's path stays the same one, and where the file beside it doesn't take its place, the
        // one that is there does.
        ensures path { self.new.claim.path ≡ self.old.claim.path }
        ensures image { OnErr result ((replay (C.history self.new.calls)).named
            (string_bytes self.old.claim.path)
            ≡ (replay (C.history self.old.calls)).named (string_bytes self.old.claim.path)) }
        // Nobody has what is new but the file of this path.
        ensures whole { IsErrOf result FolderError.Failed → IsSomeAnd self.new.whole
            (λ path. (bytes : List ℕ)
            → IsBesideWritten C.number (replay (C.history self.old.calls)) self.old.beside bytes
            → HasBytes (replay (C.history self.new.calls)) (string_bytes path) bytes) }
        // It is tried again.
        ensures short { IsErrOf result FolderError.NoRoom
            → (self.new.beside ≡ self.old.beside) × (self.new.whole ≡ self.old.whole) }
        ensures done { OnOk result (self.new.whole ≡ self.old.whole) }
        ensures left { self.new.left ≡ self.old.left }
    {
        let Some(beside) = self.beside.take() else {
            return Err(FolderError::Failed);
        };
        match take_place(&self.rt, &mut self.calls, &self.claim, beside.path.as_str()) {
            Ok(()) => {
                // Its lock is held since it was made. That of the file which had the name goes with
                // that one, now that nobody finds it there.
                let Beside { file, folder, .. } = beside;
                self.claim.hold(self.calls.into_file(file));
                self.folder = Some(folder);
                Ok(())
            }
            Err(obstacle) => {
                if obstacle.is_short() {
                    // It is tried again.
                    self.beside = Some(beside);
                    return Err(refusal(obstacle, &mut self.cause));
                }
                // Nobody has what is new but this file.
                let (alloc, claim) = (self.alloc, &self.claim);
                let path = set_aside(&self.rt, &mut self.calls, alloc, claim, beside);
                self.whole = Some(path);
                Err(refusal(obstacle, &mut self.cause))
            }
        }
    }

    fn sync_folder(&mut self) -> Result<(), FolderError>
        requires { IsTrue (self.old.is_usable && not (replay (C.history self.old.calls)).failed) }
        ensures durable { OnOk result (AddsNothing
            (Leaves C.was ((replay (C.history self.old.calls)).named
            (string_bytes self.old.claim.path)))
            (MayLeave C.was (replay (C.history self.new.calls))
            (string_bytes self.new.claim.path))) }
        ensures there { OnOk result (LeavesAll
            (Leaves C.was ((replay (C.history self.old.calls)).named
            (string_bytes self.old.claim.path)))
            (MayLeave C.was (replay (C.history self.new.calls))
            (string_bytes self.new.claim.path))) }
        ensures crash { AddsNothing
            (MayLeave C.was (replay (C.history self.old.calls)) (string_bytes self.old.claim.path))
            (MayLeave C.was (replay (C.history self.new.calls)) (string_bytes self.new.claim.path)) }
        ensures usable { (self.new.is_usable && not (replay (C.history self.new.calls)).failed)
            ≡ is_ok result }
        ensures whole { self.new.whole ≡ self.old.whole }
        ensures claim { self.new.claim ≡ self.old.claim }
        ensures image { (replay (C.history self.new.calls)).named (string_bytes self.old.claim.path)
            ≡ (replay (C.history self.old.calls)).named (string_bytes self.old.claim.path) }
        // Nothing is removed before an image is kept.
        ensures left { OnErr result (self.new.left ≡ self.old.left) }
        ensures kept { OnErr result (SameNames (replay (C.history self.old.calls))
            (replay (C.history self.new.calls))) }
        ensures removed { OnOk result (self.new.left.items ≡ []) }
        ensures others { OnOk result ((path : List ℕ)
            → All (λ one. path ≢ string_bytes one.path) self.old.left.items
            → (replay (C.history self.new.calls)).named path
            ≡ (replay (C.history self.old.calls)).named path) }
    {
        let names = sync_folder_of(&mut self.calls, &self.folder, self.claim.path());
        self.is_usable = has_lasted(names, &mut self.cause);
        if !self.is_usable {
            return Err(FolderError::Failed);
        }
        remove_left(&mut self.calls, self.claim.path(), &mut self.left);
        Ok(())
    }
}
