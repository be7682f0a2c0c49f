//! How the drive of a service is kept at its end.
ghost use Rattle.std.specs.Prelude.{◌≡◌, ◌⊎◌, ℕ, List, false, true};
ghost use Rattle.std.specs.Prelude.{IsErrOf, OnOk};
ghost use Rattle.image_keeping.specs.Leaving.{AddsNothing, IsKept};
ghost use Rattle.kept_drive.specs.Collecting.{HasSeenMore, WasHad};
ghost use Rattle.kept_drive.specs.Images.{IsClosed};

use crate::collecting::DriveLock;
use crate::keeping::KeptImage;
use crate::preparing::prepare_last;
use crate::receipts::KeptReceipt;
use group_commit::{FlushError, Over};
use image_keeping::{KeepError, Keeper};
use s4_types::Moment;
use segment_word::Naming;
use std::alloc::Global;

impl<J: Naming, K: Keeper> KeptImage<J, K> {
    /// Keeps the drive as it is when this session meets it, at its own clock, which may be below the
    /// reach: so a service that goes on from there begins no later than it ended. A drive that has
    /// seen nothing at all, as a new one, is kept as it is once it has seen `start`, where the
    /// service began.
    ///
    /// It is the last that is asked of the keeper. Its monitor has come to its end before: no reply
    /// goes out any more which shows a step that isn't taken yet.
    ///
    /// `Short` where memory or space is short: it may be tried again. `Failed` where the keeper has
    /// failed, now or before, or was asked for the last time.
    pub fn close<L: DriveLock<J>>(
        &mut self,
        alloc: Global,
        lock: &L,
        start: Moment,
        _over: &Over<KeptReceipt<J, K>>,
    ) -> Result<(), FlushError>
        // Whatever a crash leaves is the drive as it was collected, at its own clock.
        ensures kept { OnOk result
            (IsKept (K.may_leave self.new.keeper)
            (IsClosed (WasHad J.frames J.base) J.base self.new.session.told.seen start)) }
        // Whatever it answers, a crash leaves what it might have left before, or that.
        ensures crash { (c : List ℕ) → K.may_leave self.new.keeper c
            → K.may_leave self.old.keeper c
            ⊎ IsClosed (WasHad J.frames J.base) J.base self.new.session.told.seen start c }
        ensures short { IsErrOf result FlushError.Short
            → AddsNothing (K.may_leave self.old.keeper) (K.may_leave self.new.keeper) }
        ensures again { IsErrOf result FlushError.Short → self.new.has_failed ≡ false }
        ensures closed { OnOk result (self.new.has_failed ≡ true) }
        ensures failed { IsErrOf result FlushError.Failed → self.new.has_failed ≡ true }
        // Nothing is asked of a keeper that has failed, or was asked for the last time.
        ensures over { self.old.has_failed ≡ true
            → IsErrOf result FlushError.Failed × (self.new ≡ self.old) }
        ensures grows { HasSeenMore self.old.session self.new.session }
        ensures reach { self.new.reach ≡ self.old.reach }
    {
        if self.has_failed {
            return Err(FlushError::Failed);
        }
        let Ok(image) = prepare_last(alloc, lock, &mut self.session, start) else {
            return Err(FlushError::Short);
        };
        match self.keeper.keep(image.as_slice()) {
            Ok(()) => {
                self.has_failed = true;
                Ok(())
            }
            Err(KeepError::Short) => Err(FlushError::Short),
            Err(KeepError::Failed) => {
                self.has_failed = true;
                Err(FlushError::Failed)
            }
        }
    }
}
