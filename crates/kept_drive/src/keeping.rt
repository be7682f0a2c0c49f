//! The image of a drive that is kept, and how the next one is kept in its place.
ghost use Rattle.std.specs.Prelude.{◌≡◌, ◌≤◌, ◌⊎◌, ◌||◌, ℕ, List, false, length, true};
ghost use Rattle.std.specs.Prelude.{IfOk, IsErrOf, IsTrue, OnOk};
ghost use Rattle.image_keeping.specs.Leaving.{AddsNothing, IsKept};
ghost use Rattle.kept_drive.specs.Collecting.{HasSeenMore, WasHad};
ghost use Rattle.kept_drive.specs.Images.{IsFlushed};

use crate::collecting::DriveLock;
use crate::preparing::prepare;
use crate::receipts::KeptReceipt;
use drive::Session;
use group_commit::FlushError;
use image_keeping::{KeepError, Keeper};
use s4_types::Moment;
use segment_word::Naming;
use std::alloc::Global;
use std::marker::PhantomData;

/// The image of a drive that is kept. Those that flush have it one after the other.
pub struct KeptImage<J: Naming, K: Keeper> {
    pub(crate) keeper: K,
    /// What meets the drive at each flush: it has seen all that was collected.
    pub(crate) session: Session<J>,
    /// The clock of the image that a flush gave to the keeper last.
    reach: u64,
    /// Nothing more may be asked of the keeper: it has failed, or was asked for the last time.
    pub(crate) has_failed: bool,
    ghost usable: { IsTrue (has_failed || K.is_usable keeper) },
}

// Written by hand, so that an owner lets it go by one call.
impl<J: Naming, K: Keeper + Drop> Drop for KeptImage<J, K> {
    fn drop(self) {
        let KeptImage {
            keeper: _,
            session: _,
            reach: _,
            has_failed: _,
        } = self;
    }
}

impl<J: Naming, K: Keeper> KeptImage<J, K> {
    /// Where nothing was kept yet: a first flush, before the first session, gives the first
    /// receipt. What a flush keeps isn't below this clock, at which the service begins.
    pub fn new(keeper: K, session: Session<J>, clock: Moment) -> Self
        requires { IsTrue (K.is_usable keeper) }
        ensures keeper { result.keeper ≡ keeper }
        ensures session { result.session ≡ session }
        ensures reach { result.reach ≡ clock }
        ensures usable { result.has_failed ≡ false }
    {
        KeptImage {
            keeper,
            session,
            reach: clock.number(),
            has_failed: false,
        }
    }

    /// The keeper.
    pub fn keeper(&self) -> &K
        ensures { result.now ≡ self.now.keeper }
    {
        &self.keeper
    }

    /// Keeps the drive as it is when this session meets it, after it has seen the reach, which the
    /// drive itself never sees. The drive's lock is held while it is collected alone.
    ///
    /// `Short` where memory or space is short, `Failed` where the keeper has failed, now or before.
    pub fn flush<L: DriveLock<J>>(
        &mut self,
        alloc: Global,
        lock: &L,
    ) -> Result<KeptReceipt<J, K>, FlushError>
        // Whatever a crash leaves is the drive as it was collected.
        ensures kept { OnOk result
            (IsKept (K.may_leave self.new.keeper)
            (IsFlushed (WasHad J.frames J.base) J.base self.new.session.told.seen
            self.old.reach self.new.reach)) }
        ensures number { IfOk result (λ r. r.number ≡ length self.new.session.told.seen) }
        ensures reach { IfOk result (λ r. r.reach ≡ self.new.reach) }
        ensures usable { OnOk result (self.new.has_failed ≡ false) }
        // Whatever it answers, a crash leaves what it might have left before, or that.
        ensures crash { (c : List ℕ) → K.may_leave self.new.keeper c
            → K.may_leave self.old.keeper c
            ⊎ IsFlushed (WasHad J.frames J.base) J.base self.new.session.told.seen
            self.old.reach self.new.reach c }
        ensures short { IsErrOf result FlushError.Short
            → AddsNothing (K.may_leave self.old.keeper) (K.may_leave self.new.keeper) }
        ensures again { IsErrOf result FlushError.Short → self.new.has_failed ≡ false }
        ensures failed { IsErrOf result FlushError.Failed → self.new.has_failed ≡ true }
        // Nothing is asked of a keeper that has failed.
        ensures over { self.old.has_failed ≡ true
            → IsErrOf result FlushError.Failed × (self.new ≡ self.old) }
        ensures grows { HasSeenMore self.old.session self.new.session }
        ensures later { self.old.reach ≤ self.new.reach }
    {
        if self.has_failed {
            return Err(FlushError::Failed);
        }
        let Ok(prepared) = prepare(alloc, lock, &mut self.session, self.reach) else {
            return Err(FlushError::Short);
        };
        self.reach = prepared.reach;
        match self.keeper.keep(prepared.image.as_slice()) {
            Ok(()) => Ok(KeptReceipt {
                number: prepared.number,
                reach: prepared.reach,
                of: PhantomData,
            }),
            Err(KeepError::Short) => Err(FlushError::Short),
            Err(KeepError::Failed) => {
                self.has_failed = true;
                Err(FlushError::Failed)
            }
        }
    }
}
