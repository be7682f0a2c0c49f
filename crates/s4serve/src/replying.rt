//! How the replies of a session go out: each with a receipt that covers it.
ghost use Rattle.std.specs.Prelude.{◌≡◌};
ghost use Rattle.server.specs.Attending.{IsSeated};

use crate::reaching::SessionOutput;
use crate::sessions::Seat;
use batch_serving::{AtMonitor, Outlet};
use group_commit::{Flush, Steps};
use image_keeping::Keeper;
use kept_drive::KeptReceipt;
use server::{Gate, Running, Undrawn};
use serving::{Clock, StreamFailed};
use std::sync::Wait;
use std::time;

/// What the replies of a session that waits at the monitor go out to, each with the receipt that it
/// was given.
#[derive(Drop)]
pub struct Replying<O> {
    output: O,
}

impl<O> Replying<O> {
    pub fn new(output: O) -> Self
        ensures { result.output ≡ output }
    {
        Replying { output }
    }
}

impl<
    's,
    'k,
    J: Running,
    C: Clock,
    R: Wait + time::Clock,
    G: Gate,
    K: Keeper,
    Q: Drop,
    F: Flush<KeptReceipt<J, K>>,
    P: Steps,
    O: SessionOutput<K>,
> Outlet<Seat<'s, J, C, R, G>, Undrawn, AtMonitor<'k, KeptReceipt<J, K>, Q, R, F, P>>
    for Replying<O> {
    // A session of the door's role that was just had.
    ghost begins = { λ to seat. IsSeated J.base (O.role to.output) seat.seat };

    ghost passed = { λ to. O.sent to.output };

    ghost failures = { λ to. O.failures to.output };

    fn send(
        &mut self,
        bytes: &[u8],
        _backend: &Seat<'s, J, C, R, G>,
        _clock: &Undrawn,
        keeping: &AtMonitor<'k, KeptReceipt<J, K>, Q, R, F, P>,
    ) -> Result<(), StreamFailed> {
        // A client may never read them: nobody waits for that without end.
        keeping.monitor.begin_sending(keeping.rt);
        let sent = match &keeping.receipt {
            Some(receipt) => self.output.send(bytes, receipt),
            None => unreachable!(),
        };
        keeping.monitor.end_sending(keeping.rt);
        sent
    }
}
