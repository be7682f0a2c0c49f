//! The path of an image, and the file beside it that takes its place.
ghost use Rattle.std.specs.Prelude.{◌≡◌, ℕ, Bool, List, IsErrOf, IsTrue, OnOk, is_ok};
ghost use Rattle.image_keeping.specs.Leaving.{Adds, AddsNothing, LeavesAll, Only};

/// Why a call of a folder didn't do what it is for.
#[derive(Clone, Copy)]
pub enum FolderError {
    /// There is no room for it, in memory or on the disk.
    NoRoom,
    /// Something else.
    Failed,
}

/// An image's path, and the file beside it.
///
/// A file's bytes last once it was synced, and its name once the folder was. Until then a crash may
/// leave what was there before.
pub trait Folder {
    // Whether it is known what a crash leaves. Where it isn't, nothing below says that a crash may
    // leave something.
    ghost is_known: { Bool };

    // The bytes that the path may have after a crash now.
    ghost may_leave: { Self → List ℕ → Type 0 };

    // Those that the file which has the path's name now may have after a crash.
    ghost named: { Self → List ℕ → Type 0 };

    // Those that the file beside it may have.
    ghost beside: { Self → List ℕ → Type 0 };

    // Whether the file beside it is read as these bytes.
    ghost written: { Self → List ℕ → Type 0 };

    // Whether nobody else takes the file beside it, once it has the path's name, for one that may be
    // changed.
    ghost is_locked: { Self → Bool };

    // No sync has failed. After one has, what was written may be lost with no further error.
    ghost is_usable: { Self → Bool };

    /// Makes the file beside the path anew, with these bytes.
    fn write_beside(&mut self, bytes: &[u8]) -> Result<(), FolderError>
        requires { IsTrue (is_usable self.old) }
        ensures written { OnOk result (written self.new bytes.now) }
        ensures crash { AddsNothing (may_leave self.old) (may_leave self.new) }
        ensures usable { IsTrue (is_usable self.new) };

    /// Has the bytes of the file beside the path last.
    fn sync_beside(&mut self) -> Result<(), FolderError>
        requires { IsTrue (is_usable self.old) }
        ensures durable { OnOk result
            ((bytes : List ℕ) → written self.old bytes → Only bytes (beside self.new)) }
        ensures there { OnOk result
            (IsTrue is_known → (bytes : List ℕ) → written self.old bytes → beside self.new bytes) }
        ensures written { (bytes : List ℕ) → written self.old bytes → written self.new bytes }
        ensures crash { AddsNothing (may_leave self.old) (may_leave self.new) }
        ensures usable { is_usable self.new ≡ is_ok result };

    /// Locks the file beside the path, so that it is served by nobody else once it has its name.
    fn lock_beside(&mut self) -> Result<(), FolderError>
        requires { IsTrue (is_usable self.old) }
        ensures locked { OnOk result (IsTrue (is_locked self.new)) }
        ensures beside { AddsNothing (beside self.old) (beside self.new) }
        ensures there { IsTrue is_known → LeavesAll (beside self.old) (beside self.new) }
        ensures crash { AddsNothing (may_leave self.old) (may_leave self.new) }
        ensures usable { IsTrue (is_usable self.new) };

    /// Gives the file beside the path the path's name.
    fn rename(&mut self) -> Result<(), FolderError>
        requires usable { IsTrue (is_usable self.old) }
        requires locked { IsTrue (is_locked self.old) }
        ensures named { OnOk result (AddsNothing (beside self.old) (named self.new)) }
        ensures there { OnOk result (IsTrue is_known → LeavesAll (beside self.old) (named self.new)) }
        ensures crash { Adds (beside self.old) (may_leave self.old) (may_leave self.new) }
        ensures refused { IsErrOf result FolderError.NoRoom → AddsNothing (may_leave self.old) (may_leave self.new) }
        ensures usable { OnOk result (IsTrue (is_usable self.new)) }
        // After another failure nothing more is asked of it.
        ensures again { IsErrOf result FolderError.NoRoom → IsTrue (is_usable self.new) };

    /// Has the path's name last.
    fn sync_folder(&mut self) -> Result<(), FolderError>
        requires { IsTrue (is_usable self.old) }
        ensures durable { OnOk result (AddsNothing (named self.old) (may_leave self.new)) }
        ensures there { OnOk result (IsTrue is_known → LeavesAll (named self.old) (may_leave self.new)) }
        ensures crash { AddsNothing (may_leave self.old) (may_leave self.new) }
        ensures usable { is_usable self.new ≡ is_ok result };
}
