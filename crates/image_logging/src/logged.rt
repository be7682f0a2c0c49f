//! An image that is kept by what changed since it was written.
ghost use Rattle.std.specs.Prelude.{◌≡◌, ◌&&◌, ◌||◌, false, true};
ghost use Rattle.std.specs.Prelude.{IfOk, IfErr, IfSome, IsErrOf, IsTrue, OnOk, Some};
ghost use Rattle.image_keeping.specs.Leaving.{AddsNothing, IsBeforeOrAfter, Only};
ghost use Rattle.image_logging.specs.Leaving.{AreOthers, AreRead, AreTheirs, LeaveOnly};
ghost use Rattle.image_logging.specs.Leaving.{LeavesFront};
ghost use Rattle.image_logging.specs.Reading.{digest_of, front_of, made};

use crate::reading::DIGEST_BYTES;
use crate::update_log::UpdateLog;
use image_keeping::{KeepError, Keeper};
use image_parts::push_digest;
use image_update::laws::an_encoding_is_read_again;
use image_update::{NoDifference, difference_between, encode};
use std::alloc::Global;

/// Keeps an image by a record of what changed, after those before; and by a new image, where the
/// log isn't that of the image or has grown long.
pub struct LoggedImage<K: Keeper, L: UpdateLog> {
    whole: K,
    log: L,
    /// The front that was kept last, where the log is bound to the image.
    front: Vec<u8>,
    is_bound: bool,
    /// Nothing more may be asked of one of the two.
    has_failed: bool,
    ghost usable: { IsTrue (has_failed || (K.is_usable whole && L.is_usable log)) },
    ghost read: { AreRead (K.may_leave whole) (L.may_leave log) },
    ghost theirs: { has_failed ≡ false → is_bound ≡ true
        → AreTheirs (K.may_leave whole) (L.may_leave log) },
    ghost only: { has_failed ≡ false → is_bound ≡ true
        → LeaveOnly (K.may_leave whole) (L.may_leave log) front.items },
}

// Written by hand, so that an owner lets it go by one call.
impl<K: Keeper + Drop, L: UpdateLog + Drop> Drop for LoggedImage<K, L> {
    fn drop(self) {
        let LoggedImage {
            whole: _,
            log: _,
            front: _,
            is_bound: _,
            has_failed: _,
        } = self;
    }
}

impl<K: Keeper, L: UpdateLog> LoggedImage<K, L> {
    /// A keeper of an image and of the log beside it, of which a front is read whatever a crash
    /// leaves. What it keeps first is a new image.
    pub fn new(alloc: Global, whole: K, log: L) -> Self
        requires whole { IsTrue (K.is_usable whole) }
        requires log { IsTrue (L.is_usable log) }
        requires read { AreRead (K.may_leave whole) (L.may_leave log) }
        ensures whole { result.whole ≡ whole }
        ensures log { result.log ≡ log }
        ensures usable { result.has_failed ≡ false }
    {
        LoggedImage {
            whole,
            log,
            front: Vec::new(alloc),
            is_bound: false,
            has_failed: false,
        }
    }

    /// Keeps a front in place of the one before.
    ///
    /// `Short` where memory or space is short, `Failed` where the image's keeper or the log has
    /// failed, now or before.
    pub fn keep(&mut self, alloc: Global, front: Vec<u8>) -> Result<(), KeepError>
        // Then this front is read of whatever a crash leaves, and no other.
        ensures kept { OnOk result (Only front.items
            (LeavesFront (K.may_leave self.new.whole) (L.may_leave self.new.log))) }
        ensures usable { OnOk result (self.new.has_failed ≡ false) }
        // Whatever it answers, what is read was read before, or is this front.
        ensures crash { IsBeforeOrAfter front.items
            (LeavesFront (K.may_leave self.old.whole) (L.may_leave self.old.log))
            (LeavesFront (K.may_leave self.new.whole) (L.may_leave self.new.log)) }
        ensures read { AreRead (K.may_leave self.new.whole) (L.may_leave self.new.log) }
        ensures short { IsErrOf result KeepError.Short → AddsNothing
            (LeavesFront (K.may_leave self.old.whole) (L.may_leave self.old.log))
            (LeavesFront (K.may_leave self.new.whole) (L.may_leave self.new.log)) }
        ensures again { IsErrOf result KeepError.Short → self.new.has_failed ≡ false }
        ensures failed { IsErrOf result KeepError.Failed → self.new.has_failed ≡ true }
        // Nothing is asked once one of them has failed.
        ensures over { self.old.has_failed ≡ true
            → IsErrOf result KeepError.Failed }
    {
        if self.has_failed {
            return Err(KeepError::Failed);
        }
        if !self.is_bound || self.log.is_long() {
            return self.replace(front);
        }
        match record_between(alloc, self.front.as_slice(), front.as_slice())? {
            Some(payload) => self.add(payload.as_slice(), front),
            None => self.replace(front),
        }
    }

    /// Adds a record that makes this front of the one before.
    fn add(&mut self, payload: &[u8], front: Vec<u8>) -> Result<(), KeepError>
        requires usable { self.old.has_failed ≡ false }
        requires bound { self.old.is_bound ≡ true }
        requires makes { made payload.now self.old.front.items ≡ Some front.items }
        ensures kept { OnOk result (Only front.items
            (LeavesFront (K.may_leave self.new.whole) (L.may_leave self.new.log))) }
        ensures usable { OnOk result (self.new.has_failed ≡ false) }
        ensures crash { IsBeforeOrAfter front.items
            (LeavesFront (K.may_leave self.old.whole) (L.may_leave self.old.log))
            (LeavesFront (K.may_leave self.new.whole) (L.may_leave self.new.log)) }
        ensures short { IsErrOf result KeepError.Short → AddsNothing
            (LeavesFront (K.may_leave self.old.whole) (L.may_leave self.old.log))
            (LeavesFront (K.may_leave self.new.whole) (L.may_leave self.new.log)) }
        ensures again { IsErrOf result KeepError.Short → self.new.has_failed ≡ false }
        ensures failed { IsErrOf result KeepError.Failed → self.new.has_failed ≡ true }
    {
        match self.log.put(payload) {
            Ok(()) => {
                self.front = front;
                Ok(())
            }
            Err(KeepError::Short) => Err(KeepError::Short),
            Err(KeepError::Failed) => {
                self.has_failed = true;
                Err(KeepError::Failed)
            }
        }
    }

    /// Keeps a new image in place of the one before, and starts its log.
    fn replace(&mut self, front: Vec<u8>) -> Result<(), KeepError>
        requires usable { self.old.has_failed ≡ false }
        ensures kept { OnOk result (Only front.items
            (LeavesFront (K.may_leave self.new.whole) (L.may_leave self.new.log))) }
        ensures usable { OnOk result (self.new.has_failed ≡ false) }
        ensures crash { IsBeforeOrAfter front.items
            (LeavesFront (K.may_leave self.old.whole) (L.may_leave self.old.log))
            (LeavesFront (K.may_leave self.new.whole) (L.may_leave self.new.log)) }
        ensures short { IsErrOf result KeepError.Short → AddsNothing
            (LeavesFront (K.may_leave self.old.whole) (L.may_leave self.old.log))
            (LeavesFront (K.may_leave self.new.whole) (L.may_leave self.new.log)) }
        ensures again { IsErrOf result KeepError.Short → self.new.has_failed ≡ false }
        ensures failed { IsErrOf result KeepError.Failed → self.new.has_failed ≡ true }
    {
        let image = image_of(front)?;
        // A log that is the new image's too would be read after it.
        if self.is_bound_to(image.as_slice()) {
            return Err(KeepError::Short);
        }
        self.keep_whole(image.as_slice())?;
        self.start_log(image)
    }

    /// Whether the log is this image's, by its digest.
    fn is_bound_to(&self, image: &[u8]) -> bool
        requires usable { self.now.has_failed ≡ false }
        ensures { result ≡ false → AreOthers (L.may_leave self.now.log) image.now }
    {
        self.log.bound() == digest_in(image)
    }

    /// Keeps a new image in place of the one before. The log isn't its own then.
    fn keep_whole(&mut self, image: &[u8]) -> Result<(), KeepError>
        requires usable { self.old.has_failed ≡ false }
        requires others { AreOthers (L.may_leave self.old.log) image.now }
        ensures kept { OnOk result (Only image.now (K.may_leave self.new.whole)) }
        ensures usable { OnOk result (self.new.has_failed ≡ false) }
        ensures crash { IsBeforeOrAfter image.now (K.may_leave self.old.whole)
            (K.may_leave self.new.whole) }
        ensures short { IsErrOf result KeepError.Short
            → AddsNothing (K.may_leave self.old.whole) (K.may_leave self.new.whole) }
        ensures again { IsErrOf result KeepError.Short → self.new.has_failed ≡ false }
        ensures failed { IsErrOf result KeepError.Failed → self.new.has_failed ≡ true }
        ensures log { self.new.log ≡ self.old.log }
    {
        match self.whole.keep(image) {
            Ok(()) => {
                self.is_bound = false;
                Ok(())
            }
            Err(KeepError::Short) => Err(KeepError::Short),
            Err(KeepError::Failed) => {
                self.has_failed = true;
                Err(KeepError::Failed)
            }
        }
    }

    /// Makes a log of the image that was kept last. Where there is no room for it the next front is
    /// kept by a new image.
    fn start_log(&mut self, image: Vec<u8>) -> Result<(), KeepError>
        requires usable { self.old.has_failed ≡ false }
        requires kept { Only image.items (K.may_leave self.old.whole) }
        requires others { AreOthers (L.may_leave self.old.log) image.items }
        // The image's front is read, whatever becomes of the log.
        ensures only { LeaveOnly (K.may_leave self.new.whole) (L.may_leave self.new.log)
            (front_of image.items) }
        ensures usable { OnOk result (self.new.has_failed ≡ false) }
        ensures failed { IfErr result (λ e. e ≡ KeepError.Failed) }
        ensures over { IsErrOf result KeepError.Failed → self.new.has_failed ≡ true }
    {
        match self.log.start(digest_in(image.as_slice())) {
            Ok(()) => {
                self.front = without_digest(image);
                self.is_bound = true;
                Ok(())
            }
            Err(KeepError::Short) => {
                self.is_bound = false;
                Ok(())
            }
            Err(KeepError::Failed) => {
                self.has_failed = true;
                Err(KeepError::Failed)
            }
        }
    }
}

/// The image of a front: with its digest after it. Short where memory is refused.
fn image_of(front: Vec<u8>) -> Result<Vec<u8>, KeepError>
    ensures front { IfOk result (λ image. front_of image.items ≡ front.items) }
    ensures short { IfErr result (λ e. e ≡ KeepError.Short) }
{
    let mut image = front;
    match push_digest(&mut image) {
        Ok(()) => Ok(image),
        Err(_) => Err(KeepError::Short),
    }
}

/// The front of an image.
fn without_digest(image: Vec<u8>) -> Vec<u8>
    ensures { result.items ≡ front_of image.items }
{
    let mut front = image;
    front.truncate(front.len().saturating_sub(DIGEST_BYTES));
    front
}

/// The digest that an image ends with.
fn digest_in(image: &[u8]) -> &[u8]
    ensures { result.now ≡ digest_of image.now }
{
    let (_, digest) = image.split_at(image.len().saturating_sub(DIGEST_BYTES));
    digest
}

/// The record that makes the new front of the old one. None where it would be longer than a record
/// may be. Short where memory is refused.
fn record_between(alloc: Global, old: &[u8], new: &[u8]) -> Result<Option<Vec<u8>>, KeepError>
    ensures makes { IfOk result
        (λ found. IfSome found (λ payload. made payload.items old.now ≡ Some new.now)) }
    ensures short { IfErr result (λ e. e ≡ KeepError.Short) }
{
    an_encoding_is_read_again();
    let difference = match difference_between(alloc, old, new) {
        Ok(difference) => difference,
        Err(NoDifference::TooLarge) => return Ok(None),
        Err(NoDifference::NoMemory) => return Err(KeepError::Short),
    };
    match encode(alloc, &difference) {
        Ok(payload) => Ok(Some(payload)),
        Err(_) => Err(KeepError::Short),
    }
}
