//! What keeps an image.
ghost use Rattle.std.specs.Prelude.{◌≡◌, ℕ, Bool, List, IsErrOf, IsFalse, IsTrue, OnOk};
ghost use Rattle.image_keeping.specs.Leaving.{AddsNothing, IsBeforeOrAfter, Only};

/// Why an image isn't kept.
#[derive(Clone, Copy, PartialEq, Eq)]
pub enum KeepError {
    /// There was no room for it. What was kept still is, and it may be tried again.
    Short,
    /// What was kept before may be lost, or this be kept all the same. Nothing more may be asked.
    Failed,
}

/// What keeps one image.
pub trait Keeper {
    // Whether it is known what a crash leaves.
    ghost is_known: { Bool };

    // What a crash may leave at the image's path now. What is kept is said of this, and not by a
    // keeper.
    ghost may_leave: { Self → List ℕ → Type 0 };

    // More may be asked of it.
    ghost is_usable: { Self → Bool };

    /// Keeps an image in place of the one before.
    fn keep(&mut self, image: &[u8]) -> Result<(), KeepError>
        requires { IsTrue (is_usable self.old) }
        // Then a crash leaves the image, and nothing else.
        ensures kept { OnOk result (Only image.now (may_leave self.new)) }
        ensures there { OnOk result (IsTrue is_known → may_leave self.new image.now) }
        ensures usable { OnOk result (IsTrue (is_usable self.new)) }
        // At any moment a crash leaves what it might have left before, or the image.
        ensures crash { IsBeforeOrAfter image.now (may_leave self.old) (may_leave self.new) }
        ensures short { IsErrOf result KeepError.Short → AddsNothing (may_leave self.old) (may_leave self.new) }
        ensures again { IsErrOf result KeepError.Short → IsTrue (is_usable self.new) }
        ensures failed { IsErrOf result KeepError.Failed → IsFalse (is_usable self.new) };
}
