//! How a flush collects the drive of a service, and what it says where it can't.
ghost use Rattle.std.specs.Prelude.{◌≡◌};
ghost use Rattle.s4serve.specs.Collecting.{Collects, CollectsLast};

use crate::ended::EndReceipt;
use crate::keeping::Explaining;
use crate::service::{Service, Serving};
use crate::telling::{News, Telling};
use drive::{Drive, Session};
use group_commit::{Flush, FlushError, LastFlush, Over};
use image_keeping::Keeper;
use kept_drive::{Announce, Collected, DriveLock, Flushing, KeptReceipt, collect, collect_last};
use s4_types::{Moment, Refusal};
use segment_word::Naming;
use server::{Pace, Running, SharedDrive, Visit, show};
use serving::Clock;
use std::alloc::Global;
use std::marker::PhantomData;
use std::sync::{Mutex, Wait};

/// Collects the drive that it is shown.
#[derive(Drop)]
struct Collecting {
    alloc: Global,
    /// The reach of what was kept before.
    last: u64,
}

impl<J: Naming> Visit<J> for Collecting {
    type Given = Result<Collected, Refusal>;

    ghost gives = { λ visit drive old new given.
        Collects J.frames J.base visit.last drive old new given };

    fn visit(
        &self,
        drive: &mut Drive<J>,
        session: &mut Session<J>,
        number: u64,
    ) -> Result<Collected, Refusal> {
        drive.rules();
        collect(self.alloc, drive, session, number, self.last)
    }
}

/// Collects the drive that it is shown a last time.
#[derive(Drop)]
struct CollectingLast {
    alloc: Global,
    /// Where the service began.
    start: Moment,
}

impl<J: Naming> Visit<J> for CollectingLast {
    type Given = Result<Vec<u8>, Refusal>;

    ghost gives = { λ visit drive old new given.
        CollectsLast J.frames J.base visit.start drive old new given };

    fn visit(
        &self,
        drive: &mut Drive<J>,
        session: &mut Session<J>,
        _: u64,
    ) -> Result<Vec<u8>, Refusal> {
        drive.rules();
        collect_last(self.alloc, drive, session, self.start)
    }
}

/// The drive of a service, under its lock.
#[derive(Drop)]
pub struct UnderLock<'a, J: Running, C: Clock, R: Wait> {
    pub rt: &'a R,
    pub drive: &'a Mutex<SharedDrive<J, C>>,
    pub pace: Option<&'a Pace>,
}

impl<J: Running, C: Clock, R: Wait> DriveLock<J> for UnderLock<'_, J, C, R> {
    fn collect(
        &self,
        alloc: Global,
        session: &mut Session<J>,
        last: u64,
    ) -> Result<Collected, Refusal> {
        show(
            self.rt,
            self.drive,
            self.pace,
            &Collecting { alloc, last },
            session,
        )
    }

    fn collect_last(
        &self,
        alloc: Global,
        session: &mut Session<J>,
        start: Moment,
    ) -> Result<Vec<u8>, Refusal> {
        show(
            self.rt,
            self.drive,
            self.pace,
            &CollectingLast { alloc, start },
            session,
        )
    }
}

/// Who says that the image of this path can't be kept yet.
#[derive(Drop)]
pub struct Announcing<'a, D: Telling> {
    pub outside: &'a D,
    pub image: &'a str,
}

impl<D: Telling> Announce for Announcing<'_, D> {
    fn announce_shortage(&mut self, left: Option<u64>) {
        let news = match left {
            Some(seconds) => News::ShortAtEnd(self.image, seconds),
            None => News::Short(self.image),
        };
        self.outside.tell(news);
    }
}

/// What whoever waits at the monitor of a service flushes with.
pub type ServiceFlush<'a, J, C, K, R, D> = Flushing<
    'a,
    J,
    K,
    UnderLock<'a, J, C, R>,
    R,
    Announcing<'a, D>,
>;

/// The same, for one who waits.
pub fn flusher<'a, J: Serving, C: Clock, K: Keeper, R: Wait, D: Telling>(
    rt: &'a R,
    alloc: Global,
    service: &'a Service<J, C, K>,
    outside: &'a D,
) -> ServiceFlush<'a, J, C, K, R, D> {
    Flushing {
        rt,
        alloc,
        drive: UnderLock {
            rt,
            drive: &service.drive,
            pace: Some(&service.pace),
        },
        kept: &service.kept,
        announcing: Announcing {
            outside,
            image: service.image.as_str(),
        },
    }
}

/// What keeps the drive of a service a last time, at its end.
#[derive(Drop)]
pub struct Closing<'a, J: Serving, C: Clock, K: Keeper, R: Wait, D: Telling> {
    /// What flushed it before.
    pub flushing: ServiceFlush<'a, J, C, K, R, D>,
    /// Where the service began.
    pub start: Moment,
    ghost began: { start ≡ J.start },
}

impl<J: Serving, C: Clock, K: Keeper + Explaining + Drop, R: Wait, D: Telling> LastFlush<
    KeptReceipt<J, K>,
    EndReceipt<J, K>,
> for Closing<'_, J, C, K, R, D> {
    /// Where the image was removed or replaced since it was kept, all is left in a file beside it.
    /// That is at the reach, so that it is the later one of the two.
    fn flush_last(
        &mut self,
        over: &Over<KeptReceipt<J, K>>,
    ) -> Result<EndReceipt<J, K>, FlushError> {
        let flushing = &self.flushing;
        let mut kept = flushing.kept.lock(flushing.rt);
        if kept.keeper().is_in_place() {
            kept.close(flushing.alloc, &flushing.drive, self.start, over)?;
            return Ok(EndReceipt { of: PhantomData });
        }
        let _ = kept.flush(flushing.alloc, &flushing.drive)?;
        Ok(EndReceipt { of: PhantomData })
    }

    fn announce_shortage(&mut self, left: Option<u64>) {
        self.flushing.announce_shortage(left);
    }
}
