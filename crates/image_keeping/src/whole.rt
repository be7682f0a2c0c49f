//! The plainest keeper: each time the whole image is written beside the one before, and takes its
//! place.
ghost use Rattle.std.specs.Prelude.{◌≡◌, ◌↔◌, ◌&&◌, false, not, IsErrOf, IsTrue, OnOk};
ghost use Rattle.image_keeping.specs.Leaving.{Adds, AddsNothing, IsBeforeOrAfter, LeavesAll, Only};

use crate::folder::{Folder, FolderError};
use crate::keeper::{KeepError, Keeper};

/// Keeps an image by whole files.
#[derive(Drop)]
pub struct WholeImage<F> {
    folder: F,
    has_failed: bool,
}

impl<F: Folder> WholeImage<F> {
    /// A keeper of the image in this folder.
    pub fn new(folder: F) -> Self
        ensures folder { result.folder ≡ folder }
        ensures failed { result.has_failed ≡ false }
    {
        WholeImage {
            folder,
            has_failed: false,
        }
    }

    /// The folder.
    pub fn folder(&self) -> &F
        ensures { result.now ≡ self.now.folder }
    {
        &self.folder
    }
}

impl<F: Folder> Keeper for WholeImage<F> {
    ghost is_known = { F.is_known };

    ghost may_leave = { λ k. F.may_leave k.folder };

    ghost is_usable = { λ k. F.is_usable k.folder && not k.has_failed };

    fn keep(&mut self, image: &[u8]) -> Result<(), KeepError> {
        match keep_in(&mut self.folder, image) {
            Ok(()) => Ok(()),
            Err(KeepError::Short) => Err(KeepError::Short),
            Err(KeepError::Failed) => {
                self.has_failed = true;
                Err(KeepError::Failed)
            }
        }
    }
}

/// Writes an image beside the one before, and has it last before it takes that one's place.
fn keep_in<F: Folder>(folder: &mut F, image: &[u8]) -> Result<(), KeepError>
    requires { IsTrue (F.is_usable folder.old) }
    ensures kept { OnOk result (Only image.now (F.may_leave folder.new)) }
    ensures there { OnOk result (IsTrue F.is_known → F.may_leave folder.new image.now) }
    ensures usable { OnOk result (IsTrue (F.is_usable folder.new)) }
    ensures crash { IsBeforeOrAfter image.now (F.may_leave folder.old) (F.may_leave folder.new) }
    ensures short { IsErrOf result KeepError.Short → AddsNothing (F.may_leave folder.old) (F.may_leave folder.new) }
    ensures again { IsErrOf result KeepError.Short → IsTrue (F.is_usable folder.new) }
{
    match prepare(folder, image) {
        Ok(()) => put_in_place(folder),
        Err(error) => Err(error),
    }
}

/// Writes the image beside the one before. At `Ok` it lasts there, and is locked.
fn prepare<F: Folder>(folder: &mut F, image: &[u8]) -> Result<(), KeepError>
    requires { IsTrue (F.is_usable folder.old) }
    ensures beside { OnOk result (Only image.now (F.beside folder.new)) }
    ensures there { OnOk result (IsTrue F.is_known → F.beside folder.new image.now) }
    ensures locked { OnOk result (IsTrue (F.is_locked folder.new)) }
    ensures usable { OnOk result (IsTrue (F.is_usable folder.new)) }
    ensures crash { AddsNothing (F.may_leave folder.old) (F.may_leave folder.new) }
    ensures again { IsErrOf result KeepError.Short → IsTrue (F.is_usable folder.new) }
{
    if let Err(error) = folder.write_beside(image) {
        return Err(before_rename(error));
    }
    if folder.sync_beside().is_err() {
        return Err(KeepError::Failed);
    }
    match folder.lock_beside() {
        Ok(()) => Ok(()),
        Err(error) => Err(before_rename(error)),
    }
}

/// Gives what was written beside the image before its name, and has that last.
fn put_in_place<F: Folder>(folder: &mut F) -> Result<(), KeepError>
    requires usable { IsTrue (F.is_usable folder.old) }
    requires locked { IsTrue (F.is_locked folder.old) }
    ensures kept { OnOk result (AddsNothing (F.beside folder.old) (F.may_leave folder.new)) }
    ensures there { OnOk result
        (IsTrue F.is_known → LeavesAll (F.beside folder.old) (F.may_leave folder.new)) }
    ensures usable { OnOk result (IsTrue (F.is_usable folder.new)) }
    ensures crash { Adds (F.beside folder.old) (F.may_leave folder.old) (F.may_leave folder.new) }
    ensures short { IsErrOf result KeepError.Short → AddsNothing (F.may_leave folder.old) (F.may_leave folder.new) }
    ensures again { IsErrOf result KeepError.Short → IsTrue (F.is_usable folder.new) }
{
    if let Err(error) = folder.rename() {
        return Err(before_rename(error));
    }
    match folder.sync_folder() {
        Ok(()) => Ok(()),
        Err(_) => Err(KeepError::Failed),
    }
}

/// What a refusal means that comes before anything has changed at the path.
fn before_rename(error: FolderError) -> KeepError
    ensures { (result ≡ KeepError.Short) ↔ (error ≡ FolderError.NoRoom) }
{
    match error {
        FolderError::NoRoom => KeepError::Short,
        FolderError::Failed => KeepError::Failed,
    }
}
