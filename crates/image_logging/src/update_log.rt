//! The log beside an image.
ghost use Rattle.std.specs.Prelude.{◌≡◌, ℕ, Bool, List, IsErrOf, IsFalse, IsTrue, OnOk};
ghost use Rattle.image_logging.specs.Leaving.{AddsLog, AddsNoLog, AreBound, IsEmpty, WithRecord};

use image_keeping::KeepError;

/// A log of records, which is bound to an image by that one's digest.
pub trait UpdateLog {
    // By which digest the log may be bound after a crash now, and which records it may have then.
    ghost may_leave: { Self → List ℕ → List (List ℕ) → Type 0 };

    // More may be asked of it.
    ghost is_usable: { Self → Bool };

    /// The digest of the image that the log is bound to, also after a crash.
    fn bound(&self) -> &[u8]
        requires { IsTrue (is_usable self.now) }
        ensures { AreBound (may_leave self.now) result.now };

    /// Whether it has grown so long that a new image is to take its place.
    fn is_long(&self) -> bool;

    /// Adds a record.
    fn put(&mut self, payload: &[u8]) -> Result<(), KeepError>
        requires { IsTrue (is_usable self.old) }
        // Then a crash leaves the log with it.
        ensures kept { OnOk result
            (AddsNoLog (WithRecord (may_leave self.old) payload.now) (may_leave self.new)) }
        ensures usable { OnOk result (IsTrue (is_usable self.new)) }
        // At any moment a crash leaves what it might have left before, or that.
        ensures crash { AddsLog (WithRecord (may_leave self.old) payload.now) (may_leave self.old)
            (may_leave self.new) }
        ensures short { IsErrOf result KeepError.Short
            → AddsNoLog (may_leave self.old) (may_leave self.new) }
        ensures again { IsErrOf result KeepError.Short → IsTrue (is_usable self.new) }
        ensures failed { IsErrOf result KeepError.Failed → IsFalse (is_usable self.new) };

    /// Makes a log without records, of the image with this digest, in place of this one.
    fn start(&mut self, digest: &[u8]) -> Result<(), KeepError>
        requires { IsTrue (is_usable self.old) }
        ensures kept { OnOk result (AddsNoLog (IsEmpty digest.now) (may_leave self.new)) }
        ensures usable { OnOk result (IsTrue (is_usable self.new)) }
        ensures crash { AddsLog (IsEmpty digest.now) (may_leave self.old) (may_leave self.new) }
        ensures short { IsErrOf result KeepError.Short
            → AddsNoLog (may_leave self.old) (may_leave self.new) }
        ensures again { IsErrOf result KeepError.Short → IsTrue (is_usable self.new) }
        ensures failed { IsErrOf result KeepError.Failed → IsFalse (is_usable self.new) };
}
