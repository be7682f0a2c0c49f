//! Who serves sessions.
ghost use Rattle.std.specs.Prelude.{◌≡◌, ◌+◌, ◌^◌, ◌<◌, [], IfNone, IfSome, List};
ghost use Rattle.batch_serving.specs.Batches.{Serves};
ghost use Rattle.server.specs.Attending.{IsSeated};
ghost use Rattle.server.specs.Drawing.{DrawsNothing};
ghost use Rattle.server.specs.declared.clocks.Undrawn.{Undrawn as Nothing};
ghost use Rattle.s4serve.specs.Doors.{AreAtDoor};
ghost use Rattle.s4serve.specs.Seats.{ServedFields};
ghost use Rattle.s4serve.specs.Traces.{HasWaitedForAll, TracedSteps, untraced};

use crate::at_doors::{ToFifo, open_at};
use crate::collecting::{ServiceFlush, flusher};
use crate::heard::StopLine;
use crate::parts::OwnPart;
use crate::reaching::SessionOutput;
use crate::replying::Replying;
use crate::service::{Service, Serving};
use crate::sessions::{Seat, serve_seat};
use crate::telling::Telling;
use crate::waiting::Taken;
use batch_serving::{AtMonitor, BatchEnd, DueSource};
use door_files::Fifos;
use group_commit::{Flush, Open as AnyStep, Receipt, Steps};
use image_keeping::Keeper;
use kept_drive::KeptReceipt;
use s4_types::Role;
use server::{Locked, Open};
use serving::{Clock, ReadSource, Sink, Source, WriteSink};
use std::alloc::Global;
use std::sync::Wait;
use std::time;

/// Serves sessions of a role, one after another, whatever becomes of each.
pub fn work<J: Serving, C: Clock, K: Keeper + Drop, R: Wait + time::Clock, D: Fifos + Telling>(
    rt: &R,
    alloc: Global,
    service: &Service<J, C, K>,
    outside: &D,
    role: Role,
) {
    for _ in rt.forever() {
        if let Some((taken, own)) = service.lines.take(rt, role) {
            attend(rt, alloc, service, outside, &taken, own);
        }
    }
}

/// Serves the session that a line asks for, where its streams are there.
fn attend<J: Serving, C: Clock, K: Keeper + Drop, R: Wait + time::Clock, D: Fifos + Telling>(
    rt: &R,
    alloc: Global,
    service: &Service<J, C, K>,
    outside: &D,
    taken: &Taken,
    own: OwnPart<J>,
)
    requires { own.number ≡ taken.now.number }
{
    let (doors, line) = (service.doors.as_slice(), &taken.line);
    let Ok((input, output)) = open_at(outside, alloc, doors, line.door, &line.name) else {
        return;
    };
    serve_at(rt, alloc, service, outside, taken, own, input, output);
}

/// Serves the session that a line asks for, over the streams that it names at its own door, and in
/// that door's role.
fn serve_at<J: Serving, C: Clock, K: Keeper + Drop, R: Wait + time::Clock, D: Fifos + Telling>(
    rt: &R,
    alloc: Global,
    service: &Service<J, C, K>,
    outside: &D,
    taken: &Taken,
    own: OwnPart<J>,
    input: D::Input,
    output: ToFifo<D::Output>,
)
    requires own { own.number ≡ taken.now.number }
    requires streams { AreAtDoor D.reads D.writes service.now.doors.items taken.now.line.door
        taken.now.line.name input output.writer.writer output.role }
    requires failures { ⟦<WriteSink<D::Output> as Sink>⟧.failures output.writer ≡ 0 }
{
    let (number, role) = (taken.number, output.role());
    let reader = ReadSource::new(input);
    let mut writer = Replying::new(output);
    serve_one(
        rt,
        alloc,
        service,
        outside,
        role,
        number,
        own,
        reader,
        &mut writer,
    );
}

/// Serves one session that was asked for at a door. Its replies are due until it has ended.
fn serve_one<
    J: Serving,
    C: Clock,
    K: Keeper + Drop,
    R: Wait + time::Clock,
    D: Telling,
    S: Source + Drop,
    O: SessionOutput<K>,
>(
    rt: &R,
    alloc: Global,
    service: &Service<J, C, K>,
    outside: &D,
    role: Role,
    number: u64,
    own: OwnPart<J>,
    source: S,
    writer: &mut Replying<O>,
)
    requires own { own.number ≡ number }
    requires reader { S.failures source + 1 < 2 ^ 64 }
    requires writer { O.failures writer.old.output + 1 < 2 ^ 64 }
    requires role { role ≡ O.role writer.old.output }
    requires unsent { IfSome (O.sent writer.old.output) (λ bytes. bytes ≡ []) }
{
    let mut at_monitor = keeping(rt, alloc, service, outside, &AnyStep);
    let mut reader = DueSource::new(source, rt, &service.monitor);
    let _ = serve_line(
        rt,
        alloc,
        service,
        role,
        number,
        own,
        &mut reader,
        writer,
        &mut at_monitor,
    );
    reader.end_replies();
}

/// Serves a session of this role, its door's, that was just had, by the number of its own part of
/// the books, and says how it ended. None where the drive has no seat for it: nothing is read or
/// written then.
///
/// What it writes are the replies of that session's steps, each of which a receipt covers first.
fn serve_line<
    J: Serving,
    C: Clock,
    K: Keeper + Drop,
    R: Wait + time::Clock,
    F: Flush<KeptReceipt<J, K>>,
    P: Steps,
    S: Source,
    O: SessionOutput<K>,
>(
    rt: &R,
    alloc: Global,
    service: &Service<J, C, K>,
    role: Role,
    number: u64,
    own: OwnPart<J>,
    reader: &mut S,
    writer: &mut Replying<O>,
    keeping: &mut AtMonitor<'_, KeptReceipt<J, K>, StopLine<J>, R, F, P>,
) -> Option<BatchEnd>
    requires own { own.number ≡ number }
    requires reader { S.failures reader.old + 1 < 2 ^ 64 }
    requires writer { O.failures writer.old.output + 1 < 2 ^ 64 }
    requires role { role ≡ O.role writer.old.output }
    requires unsent { IfSome (O.sent writer.old.output) (λ bytes. bytes ≡ []) }
    ensures unread { IfNone result (reader.new ≡ reader.old) }
    ensures unwritten { IfNone result (writer.new ≡ writer.old) }
    ensures covered { IfSome result (λ end. (seat now : ServedFields)
        × IsSeated J.base role seat.seat
        × (before after : Nothing) × (steps : List ServedFields)
        × Serves (TracedSteps J.base J.reserve J.moments) DrawsNothing
        (λ from seat is_kept to. HasWaitedForAll ⟦<KeptReceipt<J, K> as Receipt>⟧.number
        ⟦<KeptReceipt<J, K> as Receipt>⟧.reach is_kept seat from.receipt to.receipt) [] end
        (untraced seat) before keeping.old (S.remaining reader.old) (O.sent writer.old.output)
        (record { now = now; steps = steps }) after keeping.new
        (S.remaining reader.new) (O.sent writer.new.output)) }
{
    let gate = Open;
    let mut seat = seat_for(rt, alloc, service, &gate, role, number, own)?;
    Some(serve_seat(alloc, reader, writer, &mut seat, keeping))
}

/// A seat of this role, by the number of its own part of the books. None where the drive has no
/// more seats.
fn seat_for<'a, J: Serving, C: Clock, K: Keeper, R: Wait>(
    rt: &'a R,
    alloc: Global,
    service: &'a Service<J, C, K>,
    gate: &'a Open,
    role: Role,
    number: u64,
    own: OwnPart<J>,
) -> Option<Seat<'a, J, C, R, Open>>
    requires { own.number ≡ number }
    ensures { IfSome result (λ s. IsSeated J.base role s.seat) }
{
    let had = Locked::beside(
        rt,
        alloc,
        &service.drive,
        &service.pace,
        role,
        own.into_part(),
        gate,
        number as usize,
    );
    match had {
        Ok(locked) => Some(Seat::new(locked)),
        Err(_) => None,
    }
}

/// What a session waits with until what it did is kept.
fn keeping<'a, J: Serving, C: Clock, K: Keeper, R: Wait, D: Telling>(
    rt: &'a R,
    alloc: Global,
    service: &'a Service<J, C, K>,
    outside: &'a D,
    steps: &'a AnyStep,
) -> AtMonitor<'a, KeptReceipt<J, K>, StopLine<J>, R, ServiceFlush<'a, J, C, K, R, D>, AnyStep> {
    AtMonitor {
        rt,
        monitor: &service.monitor,
        flusher: flusher(rt, alloc, service, outside),
        steps,
        receipt: None,
    }
}
