//! One session of a service.
ghost use Rattle.std.specs.Prelude.{◌≡◌, ◌+◌, ◌^◌, ◌<◌, IfSome, List, []};
ghost use Rattle.batch_serving.specs.Batches.{Serves, reading_failures, writing_failures};
ghost use Rattle.batch_serving.specs.Waiting.{HasWaited};
ghost use Rattle.server.specs.Attending.{IsSeated};
ghost use Rattle.server.specs.Drawing.{DrawsNothing};
ghost use Rattle.server.specs.declared.clocks.Undrawn.{Undrawn as Nothing};
ghost use Rattle.s4serve.specs.Seats.{IsSeatAt, ServedFields, ServedSteps};
ghost use Rattle.s4serve.specs.Traces.{HasWaitedForAll, TracedSteps, untraced};

use crate::reaching::SessionOutput;
use crate::replying::Replying;
use batch_serving::{AtMonitor, BatchEnd, Step, serve_batch};
use group_commit::{Flush, Receipt, Steps};
use image_keeping::Keeper;
use kept_drive::KeptReceipt;
use s4_types::{Moment, Reply, Request};
use server::{Gate, Locked, Running, Undrawn};
use serving::{Backend, Clock, Source};
use std::alloc::Global;
use std::marker::Model;
use std::sync::Wait;
use std::time;

/// A session with the drive of a service. Contracts see what they see of a session beside others,
/// and the greatest clock that its drive had with one of its steps.
pub struct Seat<'a, J: Running, C: Clock, R: Wait, G: Gate> {
    locked: Locked<'a, J, C, R, G>,
    reached: u64,
}

// Written by hand, so that an owner lets it go by one call.
impl<J: Running, C: Clock, R: Wait, G: Gate> Drop for Seat<'_, J, C, R, G> {
    fn drop(self) {
        let Seat {
            locked: _,
            reached: _,
        } = self;
    }
}

impl<'a, J: Running, C: Clock, R: Wait, G: Gate> Model for Seat<'a, J, C, R, G> {
    ghost use Rattle.s4serve.specs.Seats.{ServedFields};

    ghost Value = { ServedFields };

    ghost view = { λ s. record { seat = s.locked; reached = s.reached } };
}

impl<'a, J: Running, C: Clock, R: Wait, G: Gate> Seat<'a, J, C, R, G> {
    /// A session that was just had.
    pub fn new(locked: Locked<'a, J, C, R, G>) -> Self
        ensures seat { result.seat ≡ locked.entry }
        ensures reached { result.reached ≡ locked.entry.clock }
    {
        let (_, reached) = locked.place();
        Seat { locked, reached }
    }
}

impl<J: Running, C: Clock, R: Wait, G: Gate> Backend for Seat<'_, J, C, R, G> {
    ghost use Rattle.s4serve.specs.Seats.{ServedSteps};

    ghost steps = { ServedSteps J.base J.reserve J.moments };

    fn request(&mut self, request: Request, drawn: Moment) -> Reply {
        let reply = self.locked.request(request, drawn);
        let (_, clock) = self.locked.place();
        self.reached = self.reached.max(clock);
        reply
    }
}

impl<J: Running, C: Clock, R: Wait, G: Gate> Step for Seat<'_, J, C, R, G> {
    ghost use Rattle.s4serve.specs.Seats.{IsSeatAt};

    ghost is_at = { IsSeatAt };

    fn place(&self) -> (u64, u64) {
        let (number, _) = self.locked.place();
        (number, self.reached)
    }
}

/// Serves a session until its input ends or something fails, and says how it ended.
///
/// Each reply that is written is one of a step of the shared drive: a request was answered at a
/// history, the session has seen all changes that were accepted in it, and a receipt covers as many
/// changes and that history's clock. So it is with each step that the session took before.
pub fn serve_seat<
    J: Running,
    C: Clock,
    R: Wait + time::Clock,
    G: Gate,
    K: Keeper,
    Q: Drop,
    F: Flush<KeptReceipt<J, K>>,
    P: Steps,
    S: Source,
    O: SessionOutput<K>,
>(
    alloc: Global,
    reader: &mut S,
    writer: &mut Replying<O>,
    seat: &mut Seat<'_, J, C, R, G>,
    keeping: &mut AtMonitor<'_, KeptReceipt<J, K>, Q, R, F, P>,
) -> BatchEnd
    requires reader { S.failures reader.old + 1 < 2 ^ 64 }
    requires writer { O.failures writer.old.output + 1 < 2 ^ 64 }
    requires begins { IsSeated J.base (O.role writer.old.output) seat.old.seat }
    requires unsent { IfSome (O.sent writer.old.output) (λ bytes. bytes ≡ []) }
    ensures session { (before after : Nothing)
        × Serves (ServedSteps J.base J.reserve J.moments) DrawsNothing
        (λ from seat is_kept to. HasWaited IsSeatAt ⟦<KeptReceipt<J, K> as Receipt>⟧.number
        ⟦<KeptReceipt<J, K> as Receipt>⟧.reach is_kept seat from.receipt to.receipt) [] result
        seat.old before keeping.old (S.remaining reader.old) (O.sent writer.old.output)
        seat.new after keeping.new (S.remaining reader.new) (O.sent writer.new.output) }
    // Nothing was written before a receipt covered each step that the session had taken by then.
    ensures covered { (before after : Nothing) × (steps : List ServedFields)
        × Serves (TracedSteps J.base J.reserve J.moments) DrawsNothing
        (λ from seat is_kept to. HasWaitedForAll ⟦<KeptReceipt<J, K> as Receipt>⟧.number
        ⟦<KeptReceipt<J, K> as Receipt>⟧.reach is_kept seat from.receipt to.receipt) [] result
        (untraced seat.old) before keeping.old (S.remaining reader.old) (O.sent writer.old.output)
        (record { now = seat.new; steps = steps }) after keeping.new
        (S.remaining reader.new) (O.sent writer.new.output) }
    ensures reading { S.failures reader.new ≡ S.failures reader.old + reading_failures result }
    ensures writing { O.failures writer.new.output
        ≡ O.failures writer.old.output + writing_failures result }
{
    serve_batch(alloc, reader, writer, seat, &mut Undrawn, keeping)
}
