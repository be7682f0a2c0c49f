//! The files that the commands read and write.
ghost use Rattle.std.specs.Prelude.{◌≡◌, ◌≤◌, ◌⊎◌, ℕ, Bool, true, false, List, [], Option, None, IfErr, IfOk};
ghost use Rattle.std.specs.Prelude.{IfSome, IsFalse, IsTrue, OnErr, OnOk, string_bytes};
ghost use Rattle.std.specs.Io.KnownBytes.{Keeps};
ghost use Rattle.image_commands.specs.Files.{AreKnown, HasSome};
ghost use Rattle.image_commands.specs.Leaving.{IsAllThere, IsUnread};
ghost use Rattle.image_commands.specs.declared.beside.TheConstants.{MOST_BESIDE};

use crate::leftovers::LeftFault;
use crate::obstacles::Obstacle;
use std::alloc::Global;
use std::io::{self, Read, Write};

/// Files, each found by its path. An error of the kind `OutOfMemory` says that a growth was
/// refused.
pub trait Files {
    // The bytes of the file at a path, where they are known.
    ghost contents: { Self → List ℕ → Option (List ℕ) };

    // Whether a path names what was claimed.
    ghost leads: { Self.Claim → List ℕ → Type 0 };

    // Whether a path names where a file beside an image may be made, or was left.
    ghost reserves: { Self.Claim → List ℕ → Bool };

    // Whether a path names the file beside an image.
    ghost is_beside: { Self.Beside → List ℕ → Bool };

    // Whether a path names a file that was left beside an image.
    ghost is_left: { Self.Leftover → List ℕ → Bool };

    // Whether a path names where a service makes a file beside an image, before that is whole.
    ghost is_part: { Self.Claim → List ℕ → Bool };

    // Whether what was claimed is the image at a path, which a service replaces again and again.
    ghost serves: { Self.Claim → List ℕ → Type 0 };

    // Whether a service left a file by this number beside the image at the first path, which lies at
    // the second one, and which no other program has.
    ghost lies: { Self → List ℕ → ℕ → List ℕ → Type 0 };

    // Whether two paths never lead to one file: what is written to the one is never what the other
    // has.
    ghost apart: { List ℕ → List ℕ → Type 0 };

    // Whether a path names what was opened to be written.
    ghost opens: { Self.Opened → List ℕ → Type 0 };

    // Whether a path names what a writer writes.
    ghost writes: { Self.Writer → List ℕ → Type 0 };

    /// What an opened file is read by.
    type Reader: Read + Send + Drop;

    /// A file that was opened to be written, and has all that it had.
    type Opened: Drop;

    /// What a file that was emptied is written by.
    type Writer: Write + Send + Drop;

    /// Where an image is, or will be. While this is kept no other program claims it.
    type Claim: Send + Drop;

    /// A file beside an image, which is to take its place. While this is kept it is no leftover of
    /// any program.
    type Beside: Send + Drop;

    /// A file that may have been left beside an image. While this is kept no other program has it.
    type Leftover: Send + Drop;

    /// Opens a file, to be read from its beginning.
    fn open(&self, path: &str) -> io::Result<Self::Reader>
        ensures bytes { IfOk result (λ r. Self.Reader.remaining r ≡ contents self.now path.now) };

    /// Opens a file to be written, and makes it where nothing is there. What it has stays until it
    /// is emptied.
    fn open_output(&mut self, path: &str) -> io::Result<Self::Opened>
        ensures opened { IfOk result (λ o. opens o path.now) }
        ensures kept { (other : List ℕ) → Keeps (contents self.old other) (contents self.new other) };

    /// Empties a file that was opened to be written. Where the system doesn't, each write to it
    /// fails.
    fn empty(&mut self, opened: Self::Opened) -> Self::Writer
        ensures empty { AreKnown (Self.Writer.contents result) [] }
        ensures same { (path : List ℕ) → opens opened path → writes result path }
        ensures others { (path other : List ℕ) → opens opened path → apart other path → Keeps (contents self.old other) (contents self.new other) };

    /// Whether a path still refers to what a writer wrote, or to a stream, when all is written: the
    /// file has what it took then.
    fn finish(&mut self, path: &str, writer: &Self::Writer) -> bool
        ensures written { IsTrue result
            → Keeps (Self.Writer.contents writer.now) (contents self.new path.now) }
        ensures others { (other : List ℕ) → apart other path.now → Keeps (contents self.old other) (contents self.new other) };

    /// Whether two paths name one file, or will where neither is there: then what is written to the
    /// one is what the other has. Never so of terminals, sockets and other streams that have two
    /// ends.
    fn are_same(&self, first: &str, second: &str) -> io::Result<bool>
        ensures apart { IfOk result (λ same. IsFalse same → apart first.now second.now) };

    /// Claims the image at a path, or the path where nothing is there: where it is a link, the file
    /// that it refers to. An obstacle where that is no regular file, may not be written, or is
    /// claimed by another program.
    fn claim(&self, alloc: Global, path: &str) -> Result<Self::Claim, Obstacle>
        ensures claimed { IfOk result (λ c. leads c path.now) };

    /// The claim of an image that a service replaces again and again. From now on files beside it
    /// have names of their own, which begin as the image's.
    fn keep_on(&self, claim: Self::Claim) -> Self::Claim
        ensures claimed { (path : List ℕ) → leads claim path → leads result path }
        ensures serves { (path : List ℕ) → leads claim path → serves result path }
        ensures reserved { (path : List ℕ) → reserves result path ≡ reserves claim path };

    /// Whether a claimed image is still where it was claimed: neither removed nor replaced by
    /// somebody else. False where that isn't known.
    fn is_in_place(&self, claim: &Self::Claim) -> bool;

    /// Whether what was claimed is a file that has bytes.
    fn has_bytes(&self, claim: &Self::Claim) -> io::Result<bool>
        ensures empty { IfOk result
            (λ has. IsFalse has → (path : List ℕ) → leads claim.now path
            → AreKnown (contents self.now path) []) }
        ensures some { IfOk result (λ has. IsTrue has → (path : List ℕ) → leads claim.now path → HasSome (contents self.now path)) };

    /// Whether a path names where a file beside a claimed image may be made, or was left.
    fn is_reserved(&self, claim: &Self::Claim, path: &str) -> io::Result<bool>
        ensures reserved { IfOk result (λ is. IsFalse is → reserves claim.now path.now ≡ false) };

    /// Makes a file of this length in bytes beside an image, by a name that no file has, with the
    /// image's mode and owner. An obstacle, too, where it is known already that it can't take the
    /// image's place.
    fn make_beside(
        &mut self,
        alloc: Global,
        claim: &Self::Claim,
        length: usize,
    ) -> Result<Self::Beside, Obstacle>
        ensures others { (path : List ℕ) → Keeps (contents self.old path) (contents self.new path) }
        ensures reserved { IfOk result
            (λ b. (path : List ℕ) → is_beside b path ≡ true → reserves claim.now path ≡ true) }
        ensures unknown { IfOk result (λ b. (path : List ℕ) → is_beside b path ≡ true → contents self.old path ≡ None) };

    /// Removes the file beside an image.
    fn remove_beside(&mut self, beside: Self::Beside)
        ensures others { (path : List ℕ) → is_beside beside path ≡ false → Keeps (contents self.old path) (contents self.new path) };

    /// The file of this number that was left beside a claimed image: of a service's by a number
    /// from `MOST_BESIDE` on one that need not be whole. None only where nothing is at its path, or
    /// another program has it. A fault where what is there can't be opened, or is no regular file;
    /// all files are as before.
    fn leftover(
        &self,
        alloc: Global,
        claim: &Self::Claim,
        number: u32,
    ) -> Result<Option<Self::Leftover>, LeftFault>
        ensures reserved { IfOk result (λ opened. IfSome opened (λ left. (path : List ℕ) → is_left left path ≡ true → reserves claim.now path ≡ true)) }
        ensures part { IfOk result
            (λ opened. IfSome opened (λ left. MOST_BESIDE ≤ number → (path : List ℕ)
            → is_left left path ≡ true → is_part claim.now path ≡ true)) }
        ensures all { IfOk result
            (λ opened. (image : List ℕ) → serves claim.now image
            → IsAllThere is_left (lies self.now image number) opened) }
        ensures unread { IfErr result IsUnread };

    /// The path of a leftover.
    fn leftover_path(&self, leftover: Self::Leftover) -> String
        ensures { (is_left leftover (string_bytes result) ≡ true) ⊎ (contents self.now (string_bytes result) ≡ None) };

    /// Opens a leftover, to be read from its beginning.
    fn open_leftover(&self, leftover: &Self::Leftover) -> io::Result<Self::Reader>
        ensures bytes { IfOk result (λ r. (path : List ℕ) → is_left leftover.now path ≡ true → Self.Reader.remaining r ≡ contents self.now path) };

    /// Removes a leftover.
    fn remove_leftover(&mut self, leftover: Self::Leftover)
        ensures others { (path : List ℕ) → is_left leftover path ≡ false → Keeps (contents self.old path) (contents self.new path) };

    /// Fills the file beside an image with these bytes and puts it in the image's place. Whoever
    /// reads the path, at whatever time, finds all bytes of the old file or all of the new one. An
    /// error leaves the old file; where the new one has all bytes then, it stays beside the old
    /// one, and its path is answered. So it is where the path leads no more to what was claimed.
    fn replace(
        &mut self,
        claim: Self::Claim,
        beside: Self::Beside,
        bytes: &[u8],
    ) -> Result<Placed, NotReplaced>
        ensures replaced { OnOk result
            ((path : List ℕ) → leads claim path → AreKnown (contents self.new path) bytes.now) }
        ensures elsewhere { OnOk result
            ((path other : List ℕ) → leads claim path → apart path other
            → is_beside beside other ≡ false
            → Keeps (contents self.old other) (contents self.new other)) }
        ensures others { OnErr result
            ((path : List ℕ)
            → is_beside beside path ≡ false
            → Keeps (contents self.old path) (contents self.new path)) }
        ensures kept { IfErr result (λ why. IfSome why.kept (λ path. AreKnown (contents self.new (string_bytes path)) bytes.now)) };
}

/// How an image was put in its place.
#[derive(Clone, Copy, PartialEq, Eq)]
pub enum Placed {
    /// It stays there, whatever becomes of the machine.
    Lasting,
    /// It is there, but that its folder has it on the disk wasn't seen.
    NotLasting,
}

/// Why an image was not replaced.
#[derive(Drop)]
pub struct NotReplaced {
    pub obstacle: Obstacle,
    /// The path of the file that has all of the new image's bytes, where there is one.
    pub kept: Option<String>,
}
