//! What a session flushes with, for all that wait.
use crate::collecting::DriveLock;
use crate::keeping::KeptImage;
use crate::receipts::KeptReceipt;
use group_commit::{Flush, FlushError};
use image_keeping::Keeper;
use segment_word::Naming;
use std::alloc::Global;
use std::sync::{Mutex, Wait};

/// By whom the administrator hears that memory or space is short.
pub trait Announce {
    /// Memory or space is short, and a flush is tried again each second from now on: so often more
    /// where the service is to stop, else without end.
    fn announce_shortage(&mut self, left: Option<u64>);
}

/// What a session flushes with, for all that wait. The kept image has a lock of its own, which only
/// the one that flushes takes, before the drive's; whoever has the drive's doesn't take it.
#[derive(Drop)]
pub struct Flushing<'a, J: Naming, K: Keeper, L, R, A> {
    pub rt: &'a R,
    pub alloc: Global,
    pub drive: L,
    pub kept: &'a Mutex<KeptImage<J, K>>,
    pub announcing: A,
}

impl<J: Naming, K: Keeper + Drop, L: DriveLock<J>, R: Wait, A: Announce> Flush<KeptReceipt<J, K>>
    for Flushing<'_, J, K, L, R, A> {
    fn flush(&mut self) -> Result<KeptReceipt<J, K>, FlushError> {
        self.kept.lock(self.rt).flush(self.alloc, &self.drive)
    }

    fn announce_shortage(&mut self, left: Option<u64>) {
        self.announcing.announce_shortage(left);
    }
}
