//! A folder in memory, of which one call fails.
ghost use Rattle.std.specs.Prelude.{◌≡◌, ◌&&◌, ◌==◌, [], ◌∷◌, ◌++◌, IfOk, None, OnErr, OnOk, Some, map, true, if◌then◌else◌};
ghost use Rattle.image_keeping.specs.Leaving.{Adds, AddsNothing, LeavesAll};
ghost use Rattle.image_keeping.specs.Memory.{beside_of, calls_after, named_of, outcomes_of};

use crate::folder::{Folder, FolderError};
use std::alloc::{AllocError, Global};

/// A folder in memory. It has each outcome of a crash as data.
pub struct MemoryFolder {
    alloc: Global,
    /// The file that has the path's name.
    named: Vec<u8>,
    named_lasts: bool,
    /// Those that the path may have all the same after a crash, since the folder wasn't synced
    /// after them, and whether each of them was synced.
    earlier: Vec<Vec<u8>>,
    earlier_last: bool,
    /// The file beside the path.
    beside: Vec<u8>,
    beside_lasts: bool,
    is_locked: bool,
    is_usable: bool,
    /// How many calls there will be before one fails, and how.
    calls: u64,
    error: FolderError,
}

// Written by hand, so that an owner lets it go by one call.
impl Drop for MemoryFolder {
    fn drop(self) {
        let MemoryFolder {
            alloc: _,
            named: _,
            named_lasts: _,
            earlier: _,
            earlier_last: _,
            beside: _,
            beside_lasts: _,
            is_locked: _,
            is_usable: _,
            calls: _,
            error: _,
        } = self;
    }
}

impl MemoryFolder {
    /// A folder whose path has these bytes, which last. The call after this number of others fails
    /// in this way.
    pub fn new(
        alloc: Global,
        image: &[u8],
        calls: u64,
        error: FolderError,
    ) -> Result<Self, AllocError>
        ensures usable { IfOk result (λ f. f.is_usable ≡ true) }
        ensures named { IfOk result (λ f. (f.named_lasts ≡ true) × (f.named.items ≡ image.now)) }
        ensures earlier { IfOk result (λ f. (f.earlier_last ≡ true) × (f.earlier.items ≡ [])) }
        ensures fault { IfOk result (λ f. (f.calls ≡ calls) × (f.error ≡ error)) }
    {
        let named = copy_of(alloc, image)?;
        Ok(MemoryFolder {
            alloc,
            named,
            named_lasts: true,
            earlier: Vec::new(alloc),
            earlier_last: true,
            beside: Vec::new(alloc),
            beside_lasts: false,
            is_locked: false,
            is_usable: true,
            calls,
            error,
        })
    }

    /// What the path has.
    pub fn named(&self) -> &[u8]
        ensures { result.now ≡ self.now.named.items }
    {
        self.named.as_slice()
    }

    /// What the path may have in place of that after a crash.
    pub fn earlier(&self) -> &[Vec<u8>]
        ensures { result.now ≡ self.now.earlier.items }
    {
        self.earlier.as_slice()
    }

    /// Gives the file beside the path its name.
    fn take_name(&mut self) -> Result<(), AllocError>
        ensures named { OnOk result (AddsNothing (beside_of self.old) (named_of self.new)) }
        ensures there { OnOk result (LeavesAll (beside_of self.old) (named_of self.new)) }
        ensures crash { Adds (beside_of self.old) (outcomes_of self.old) (outcomes_of self.new) }
        ensures none { OnErr result (AddsNothing (outcomes_of self.old) (outcomes_of self.new)) }
        ensures usable { self.new.is_usable ≡ self.old.is_usable }
    {
        let named = copy_of(self.alloc, self.beside.as_slice())?;
        let before = copy_of(self.alloc, self.named.as_slice())?;
        push_file(&mut self.earlier, before)?;
        self.earlier_last = both(self.earlier_last, self.named_lasts);
        self.named = named;
        self.named_lasts = self.beside_lasts;
        Ok(())
    }

    /// Why this call fails, if it does. No other does after it.
    fn refusal(&mut self) -> Option<FolderError>
        ensures fault { result ≡ (if self.old.calls == 0 then Some self.old.error else None) }
        ensures calls { self.new ≡ record self.old { calls = calls_after self.old.calls } }
    {
        if self.calls == 0 {
            self.calls = u64::MAX;
            return Some(self.error);
        }
        self.calls -= 1;
        None
    }
}

/// A copy of these bytes.
fn copy_of(alloc: Global, bytes: &[u8]) -> Result<Vec<u8>, AllocError>
    ensures { IfOk result (λ copy. copy.items ≡ bytes.now) }
{
    let mut copy = Vec::new(alloc);
    copy.extend_from_slice(bytes)?;
    Ok(copy)
}

/// Adds a file at the end.
fn push_file(files: &mut Vec<Vec<u8>>, file: Vec<u8>) -> Result<(), AllocError>
    ensures ok { OnOk result (map (λ v. v.items) files.new.items
        ≡ map (λ v. v.items) files.old.items ++ file.items ∷ []) }
    ensures err { OnErr result (files.new.items ≡ files.old.items) }
{
    files.push(file)?;
    Ok(())
}

fn both(one: bool, other: bool) -> bool
    ensures { result ≡ (one && other) }
{
    one && other
}

impl Folder for MemoryFolder {
    ghost use Rattle.image_keeping.specs.Memory.{beside_of, named_of, outcomes_of};

    ghost is_known = { true };

    ghost may_leave = { outcomes_of };

    ghost named = { named_of };

    ghost beside = { beside_of };

    ghost written = { λ f bytes. f.beside.items ≡ bytes };

    ghost is_locked = { λ f. f.is_locked };

    ghost is_usable = { λ f. f.is_usable };

    fn write_beside(&mut self, bytes: &[u8]) -> Result<(), FolderError> {
        if let Some(error) = self.refusal() {
            return Err(error);
        }
        let Ok(beside) = copy_of(self.alloc, bytes) else {
            return Err(FolderError::NoRoom);
        };
        self.beside = beside;
        self.beside_lasts = false;
        self.is_locked = false;
        Ok(())
    }

    fn sync_beside(&mut self) -> Result<(), FolderError> {
        if let Some(error) = self.refusal() {
            self.is_usable = false;
            return Err(error);
        }
        self.beside_lasts = true;
        Ok(())
    }

    fn lock_beside(&mut self) -> Result<(), FolderError> {
        if let Some(error) = self.refusal() {
            return Err(error);
        }
        self.is_locked = true;
        Ok(())
    }

    // What failed may have been done all the same.
    fn rename(&mut self) -> Result<(), FolderError> {
        match self.refusal() {
            Some(FolderError::NoRoom) => Err(FolderError::NoRoom),
            Some(FolderError::Failed) => match self.take_name() {
                Ok(()) => Err(FolderError::Failed),
                Err(_) => Err(FolderError::NoRoom),
            },
            None => match self.take_name() {
                Ok(()) => Ok(()),
                Err(_) => Err(FolderError::NoRoom),
            },
        }
    }

    fn sync_folder(&mut self) -> Result<(), FolderError> {
        if let Some(error) = self.refusal() {
            self.is_usable = false;
            return Err(error);
        }
        self.earlier.clear();
        self.earlier_last = true;
        Ok(())
    }
}
