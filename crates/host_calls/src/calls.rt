//! Calls of the system that change files, each noted with its answer.
ghost use Rattle.std.specs.Prelude.{◌≡◌, ◌<◌, ◌≤◌, ℕ, List, [], ◌∷◌, length, take, true, false};
ghost use Rattle.std.specs.Prelude.{is_ok, IfOk, MatchResult};
ghost use Rattle.host_calls.specs.Events.{Event, Made, Written, Cut, Synced, Renamed, Linked};
ghost use Rattle.host_calls.specs.Events.{Removed, FolderSynced, Locked, Owned, ModeSet};
ghost use Rattle.host_calls.specs.Events.{Done, refusal_of, unsynced_by};

use std::fs::{File, Metadata, Permissions, TryLockError};
use std::io;

/// Calls of the system. Each method makes one. Those that change something note it.
pub trait Calls {
    // Each call so far with its answer, the newest first.
    ghost history: { Self → List Event };

    // What a crash might have left at a path before the first call.
    ghost was: { List ℕ → List ℕ → Type 0 };

    // The number of a file: 0 of one that was not made here.
    ghost number: { Self.File → ℕ };

    // The path by which a folder was opened.
    ghost place: { Self.Folder → List ℕ };

    /// An open file.
    type File: Drop;

    /// An open folder.
    type Folder: Drop;

    /// Makes a file that can be written, with this mode, at a path where none is.
    fn make(&mut self, path: &str, mode: u32) -> io::Result<Self::File>
        ensures number { IfOk result (λ f. 0 < number f) }
        ensures noted { MatchResult result
            (λ f. history self.new ≡ Made path.now mode (number f) true ∷ history self.old)
            (λ _. history self.new ≡ Made path.now mode 0 false ∷ history self.old) };

    /// Writes bytes at an offset, and says how many it took.
    fn write_at(&mut self, file: &Self::File, at: u64, bytes: &[u8]) -> io::Result<usize>
        ensures count { IfOk result (λ n. n ≤ length bytes.now) }
        ensures noted { MatchResult result
            (λ n. history self.new
            ≡ Written (number file.now) at (take n bytes.now) true ∷ history self.old)
            (λ _. history self.new ≡ Written (number file.now) at [] false ∷ history self.old) };

    /// Gives a file a length.
    fn set_len(&mut self, file: &Self::File, length: u64) -> io::Result<()>
        ensures { history self.new
            ≡ Cut (number file.now) length (is_ok result) ∷ history self.old };

    /// Writes all bytes of a file to the disk.
    fn sync(&mut self, file: &Self::File) -> io::Result<()>
        ensures { history self.new ≡ Synced (number file.now) (is_ok result) ∷ history self.old };

    /// Gives what is at a path another one, in place of what is there.
    fn rename(&mut self, from: &str, to: &str) -> io::Result<()>
        ensures { MatchResult result
            (λ _. history self.new ≡ Renamed from.now to.now Done ∷ history self.old)
            (λ e. history self.new ≡ Renamed from.now to.now (refusal_of e) ∷ history self.old) };

    /// Gives what is at a path another one as well, at which nothing is.
    fn link(&mut self, from: &str, to: &str) -> io::Result<()>
        ensures { history self.new ≡ Linked from.now to.now (is_ok result) ∷ history self.old };

    /// Removes what is at a path.
    fn remove(&mut self, path: &str) -> io::Result<()>
        ensures { history self.new ≡ Removed path.now (is_ok result) ∷ history self.old };

    /// Writes the names of a folder to the disk.
    fn sync_folder(&mut self, folder: &Self::Folder) -> io::Result<()>
        ensures { MatchResult result
            (λ _. history self.new ≡ FolderSynced (place folder.now) Done ∷ history self.old)
            (λ e. history self.new
            ≡ FolderSynced (place folder.now) (unsynced_by e) ∷ history self.old) };

    /// Locks a file that was made, unless another program has.
    fn try_lock(&mut self, file: &Self::File) -> Result<(), TryLockError>
        ensures { history self.new ≡ Locked (number file.now) (is_ok result) ∷ history self.old };

    /// Gives a file this owner and this group.
    fn set_owner(&mut self, file: &Self::File, owner: u32, group: u32) -> io::Result<()>
        ensures { history self.new ≡ Owned (number file.now) (is_ok result) ∷ history self.old };

    /// Gives a file this mode.
    fn set_mode(&mut self, file: &Self::File, mode: Permissions) -> io::Result<()>
        ensures { history self.new ≡ ModeSet (number file.now) (is_ok result) ∷ history self.old };

    /// Opens a file that is there, to be read and written.
    fn open(&self, path: &str) -> io::Result<Self::File>
        ensures { IfOk result (λ f. number f ≡ 0) };

    /// Opens a folder.
    fn open_folder(&self, path: &str) -> io::Result<Self::Folder>
        ensures { IfOk result (λ f. place f ≡ path.now) };

    /// The path by which a folder was opened.
    fn place<'a>(&self, folder: &'a Self::Folder) -> &'a str
        ensures { result.now ≡ place folder.now };

    /// What the system says of an open file.
    fn metadata(&self, file: &Self::File) -> io::Result<Metadata>;

    /// The same open file, to be read.
    fn copy_of(&self, file: &Self::File) -> io::Result<File>;

    /// The open file itself, with its lock, once nothing more is called on it.
    fn into_file(&self, file: Self::File) -> File;

    /// Locks a file that was opened, unless another program has. It changes no file, and isn't
    /// noted.
    fn try_lock_opened(&self, file: &Self::File) -> Result<(), TryLockError>;
}
