ghost use Rattle.std.specs.Prelude.{◌≡◌, ◌+◌, ◌^◌, ◌<◌, ◌++◌, [], ◌∷◌, MatchResult, OnOk, length};
ghost use Rattle.serving.specs.Session.{failures_by};
ghost use Rattle.batch_serving.specs.Batches.{AllKept, writing_failures};
ghost use Rattle.batch_serving.specs.private.Holding.{Adds, Breaks, Holds, IsWritten, NotWritten};
ghost use Rattle.batch_serving.specs.private.Holding.{StopsAmong};
ghost use Rattle.batch_serving.specs.Saying.{HasSaid};

use crate::ends::BatchEnd;
use crate::keeping::Keeping;
use crate::outlet::Outlet;
use rpc::{Item, push_reply};
use s4_types::Request;
use serving::{Backend, Clock, reply_to};

/// Replies go out once they have this many bytes, though more requests came with them.
pub const BATCH_BYTES: usize = 65_536;

// Answers all items, and writes all replies once they are kept. `out` is where they are encoded.
pub(crate) fn answer_all<W: Outlet<B, C, K>, B: Backend, C: Clock, K: Keeping<B>>(
    items: Vec<Item<Request>>,
    writer: &mut W,
    backend: &mut B,
    clock: &mut C,
    keeping: &mut K,
    out: &mut Vec<u8>,
) -> Result<(), BatchEnd>
    requires room { W.failures writer.old + 1 < 2 ^ 64 }
    requires said { HasSaid B.steps C.draws (W.begins writer.old) (W.passed writer.old) []
        backend.old clock.old }
    ensures answers { MatchResult result
        (λ _. AllKept B.steps C.draws K.waits items.items
        backend.old clock.old keeping.old (W.passed writer.old)
        backend.new clock.new keeping.new (W.passed writer.new))
        (λ end. StopsAmong B.steps C.draws K.waits end items.items
        backend.old clock.old keeping.old (W.passed writer.old)
        backend.new clock.new keeping.new (W.passed writer.new)) }
    ensures said { OnOk result (HasSaid B.steps C.draws (W.begins writer.new) (W.passed writer.new) []
        backend.new clock.new) }
    ensures writing { W.failures writer.new
        ≡ W.failures writer.old + failures_by writing_failures result }
{
    out.clear();
    match answer_items(items, writer, backend, clock, keeping, out) {
        Ok(()) if out.is_empty() => Ok(()),
        Ok(()) => write_out(writer, backend, clock, keeping, out),
        Err(end) => Err(end),
    }
}

// Answers all items. `out` has the replies that aren't written yet.
fn answer_items<W: Outlet<B, C, K>, B: Backend, C: Clock, K: Keeping<B>>(
    items: Vec<Item<Request>>,
    writer: &mut W,
    backend: &mut B,
    clock: &mut C,
    keeping: &mut K,
    out: &mut Vec<u8>,
) -> Result<(), BatchEnd>
    requires room { W.failures writer.old + 1 < 2 ^ 64 }
    requires empty { out.old.items ≡ [] }
    requires said { HasSaid B.steps C.draws (W.begins writer.old) (W.passed writer.old) []
        backend.old clock.old }
    ensures answers { MatchResult result
        (λ _. Holds B.steps C.draws K.waits items.items
        backend.old clock.old keeping.old (W.passed writer.old)
        backend.new clock.new keeping.new (W.passed writer.new) out.new.items)
        (λ end. StopsAmong B.steps C.draws K.waits end items.items
        backend.old clock.old keeping.old (W.passed writer.old)
        backend.new clock.new keeping.new (W.passed writer.new)) }
    ensures said { OnOk result (HasSaid B.steps C.draws (W.begins writer.new) (W.passed writer.new)
        out.new.items backend.new clock.new) }
    ensures writing { W.failures writer.new
        ≡ W.failures writer.old + failures_by writing_failures result }
{
    for item in items {
        match answer(item, writer, backend, clock, keeping, out) {
            Ok(()) => {}
            Err(end) => return Err(end),
        }
    }
    Ok(())
}

// Answers one more item. Where the replies are large by now, they are written.
fn answer<W: Outlet<B, C, K>, B: Backend, C: Clock, K: Keeping<B>>(
    item: Item<Request>,
    writer: &mut W,
    backend: &mut B,
    clock: &mut C,
    keeping: &mut K,
    out: &mut Vec<u8>,
) -> Result<(), BatchEnd>
    requires room { W.failures writer.old + 1 < 2 ^ 64 }
    requires said { HasSaid B.steps C.draws (W.begins writer.old) (W.passed writer.old)
        out.old.items backend.old clock.old }
    ensures answers { MatchResult result
        (λ _. Adds B.steps C.draws K.waits item out.old.items out.new.items
        backend.old clock.old keeping.old (W.passed writer.old)
        backend.new clock.new keeping.new (W.passed writer.new))
        (λ end. Breaks B.steps C.draws K.waits end item out.old.items
        backend.old clock.old keeping.old (W.passed writer.old)
        backend.new clock.new keeping.new (W.passed writer.new)) }
    ensures said { OnOk result (HasSaid B.steps C.draws (W.begins writer.new) (W.passed writer.new)
        out.new.items backend.new clock.new) }
    ensures writing { W.failures writer.new
        ≡ W.failures writer.old + failures_by writing_failures result }
{
    let reply = reply_to(item, backend, clock);
    let Ok(()) = push_reply(out, &reply) else {
        return Err(BatchEnd::NoMemory);
    };
    if out.len() < BATCH_BYTES {
        return Ok(());
    }
    write_out(writer, backend, clock, keeping, out)
}

// Waits until all that the backend has done is kept, and writes the replies.
fn write_out<W: Outlet<B, C, K>, B: Backend, C: Clock, K: Keeping<B>>(
    writer: &mut W,
    backend: &B,
    clock: &C,
    keeping: &mut K,
    out: &mut Vec<u8>,
) -> Result<(), BatchEnd>
    requires room { W.failures writer.old + 1 < 2 ^ 64 }
    requires said { HasSaid B.steps C.draws (W.begins writer.old) (W.passed writer.old)
        out.old.items backend.now clock.now }
    ensures written { MatchResult result
        (λ _. IsWritten K.waits out.old.items
        backend.now keeping.old (W.passed writer.old) keeping.new (W.passed writer.new))
        (λ end. NotWritten K.waits end out.old.items
        backend.now keeping.old (W.passed writer.old) keeping.new (W.passed writer.new)) }
    ensures empty { out.new.items ≡ [] }
    ensures said { OnOk result (HasSaid B.steps C.draws (W.begins writer.new) (W.passed writer.new) []
        backend.now clock.now) }
    ensures writing { W.failures writer.new
        ≡ W.failures writer.old + failures_by writing_failures result }
{
    if keeping.await_kept(backend).is_err() {
        out.clear();
        return Err(BatchEnd::NotKept);
    }
    let wrote = writer.send(out.as_slice(), backend, clock, keeping);
    out.clear();
    match wrote {
        Ok(()) => Ok(()),
        Err(_) => Err(BatchEnd::WriteFailed),
    }
}
