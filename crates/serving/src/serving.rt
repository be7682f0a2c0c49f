ghost use Rattle.std.specs.Prelude.{◌≡◌, ◌≢◌, ◌+◌, ◌^◌, ◌<◌, [], ◌∷◌, ◌⊎◌, MatchResult, OnOk, Some};
ghost use Rattle.std.specs.Prelude.{length};
ghost use Rattle.s4_types.specs.Sizes.{ReplyFits};
ghost use Rattle.serving.specs.Answering.{Answered, AnswersAll, Said, StopsAmong};
ghost use Rattle.serving.specs.Session.{Continues, Finishes, Goes, IsBegun, IsLate, Serves};
ghost use Rattle.serving.specs.Session.{begun_of, failures_by, reading_failures, writing_failures};

use crate::backend::Backend;
use crate::clock::Clock;
use crate::ends::ServeEnd;
use crate::streams::{Sink, Source};
use rpc::{FrameReader, Item, push_reply};
use s4_types::{Refusal, Reply, Request};
use std::alloc::Global;

/// Bytes that are asked of the reader at once.
const PIECE_BYTES: usize = 65_536;

/// Serves one session until its input ends or something fails, and says how it ended.
///
/// Each reply is written whole, by one `put`, before the next item is taken up and before the
/// reader is asked for more. So where the writer fails, the backend was asked nothing after the
/// request whose reply failed.
pub fn serve<R: Source, W: Sink, B: Backend, C: Clock>(
    alloc: Global,
    reader: &mut R,
    writer: &mut W,
    backend: &mut B,
    clock: &mut C,
) -> ServeEnd
    requires reader { R.failures reader.old + 1 < 2 ^ 64 }
    requires writer { W.failures writer.old + 1 < 2 ^ 64 }
    ensures session { Serves B.steps C.draws [] result
        backend.old clock.old (R.remaining reader.old) (W.passed writer.old)
        backend.new clock.new (R.remaining reader.new) (W.passed writer.new) }
    ensures reading { R.failures reader.new ≡ R.failures reader.old + reading_failures result }
    ensures writing { W.failures writer.new ≡ W.failures writer.old + writing_failures result }
{
    let Ok(mut frames) = FrameReader::new(alloc) else {
        return ServeEnd::NoMemory;
    };
    let Ok(mut piece) = vec![in alloc; 0u8; PIECE_BYTES] else {
        return ServeEnd::NoMemory;
    };
    let mut out = Vec::new(alloc);
    loop {
        match serve_piece(
            reader,
            writer,
            backend,
            clock,
            &mut frames,
            piece.as_mut_slice(),
            &mut out,
        ) {
            Ok(()) => {}
            Err(end) => return end,
        }
    }
}

// Reads one piece, and answers all items that are whole with it.
fn serve_piece<R: Source, W: Sink, B: Backend, C: Clock>(
    reader: &mut R,
    writer: &mut W,
    backend: &mut B,
    clock: &mut C,
    frames: &mut FrameReader,
    piece: &mut [u8],
    out: &mut Vec<u8>,
) -> Result<(), ServeEnd>
    requires reader { R.failures reader.old + 1 < 2 ^ 64 }
    requires writer { W.failures writer.old + 1 < 2 ^ 64 }
    requires begun { IsBegun frames.old }
    requires room { 0 < length piece.old }
    ensures session { MatchResult result
        (λ _. Goes B.steps C.draws (begun_of frames.old) frames.new
        backend.old clock.old (R.remaining reader.old) (W.passed writer.old)
        backend.new clock.new (R.remaining reader.new) (W.passed writer.new))
        (λ end. Serves B.steps C.draws (begun_of frames.old) end
        backend.old clock.old (R.remaining reader.old) (W.passed writer.old)
        backend.new clock.new (R.remaining reader.new) (W.passed writer.new)) }
    ensures turns { OnOk result (R.turns reader.new < R.turns reader.old) }
    ensures reading { R.failures reader.new
        ≡ R.failures reader.old + failures_by reading_failures result }
    ensures writing { W.failures writer.new
        ≡ W.failures writer.old + failures_by writing_failures result }
{
    let count = match reader.read(piece) {
        Ok(count) => count,
        Err(_) => return Err(ServeEnd::ReadFailed),
    };
    if count == 0 {
        return Err(end_at(frames));
    }
    answer_piece(&piece[..count], writer, backend, clock, frames, out)
}

// How a session ends whose input has ended.
fn end_at(frames: &FrameReader) -> ServeEnd
    ensures { ((result ≡ ServeEnd.Ended) × (frames.now ≡ Some []))
        ⊎ ((result ≡ ServeEnd.CutFrame) × (frames.now ≢ Some [])) }
{
    if frames.is_between_frames() {
        ServeEnd::Ended
    } else {
        ServeEnd::CutFrame
    }
}

// Answers all items that are whole with this piece.
fn answer_piece<W: Sink, B: Backend, C: Clock>(
    piece: &[u8],
    writer: &mut W,
    backend: &mut B,
    clock: &mut C,
    frames: &mut FrameReader,
    out: &mut Vec<u8>,
) -> Result<(), ServeEnd>
    requires writer { W.failures writer.old + 1 < 2 ^ 64 }
    requires begun { IsBegun frames.old }
    ensures session { MatchResult result
        (λ _. Continues B.steps C.draws (begun_of frames.old) piece.now frames.new
        backend.old clock.old (W.passed writer.old)
        backend.new clock.new (W.passed writer.new))
        (λ end. IsLate end × Finishes B.steps C.draws end (begun_of frames.old) piece.now
        backend.old clock.old (W.passed writer.old)
        backend.new clock.new (W.passed writer.new)) }
    ensures writing { W.failures writer.new
        ≡ W.failures writer.old + failures_by writing_failures result }
{
    let Ok(items) = frames.feed::<Request>(piece) else {
        return Err(ServeEnd::NoMemory);
    };
    match answer_all(items, writer, backend, clock, out) {
        Ok(()) if frames.has_failed() => Err(ServeEnd::Oversized),
        Ok(()) => Ok(()),
        Err(end) => Err(end),
    }
}

fn answer_all<W: Sink, B: Backend, C: Clock>(
    items: Vec<Item<Request>>,
    writer: &mut W,
    backend: &mut B,
    clock: &mut C,
    out: &mut Vec<u8>,
) -> Result<(), ServeEnd>
    requires { W.failures writer.old + 1 < 2 ^ 64 }
    ensures answers { MatchResult result
        (λ _. AnswersAll B.steps C.draws items.items
        backend.old clock.old (W.passed writer.old)
        backend.new clock.new (W.passed writer.new))
        (λ end. StopsAmong B.steps C.draws items.items end
        backend.old clock.old (W.passed writer.old)
        backend.new clock.new (W.passed writer.new)) }
    ensures writing { W.failures writer.new
        ≡ W.failures writer.old + failures_by writing_failures result }
{
    for item in items {
        match answer(item, writer, backend, clock, out) {
            Ok(()) => {}
            Err(end) => return Err(end),
        }
    }
    Ok(())
}

fn answer<W: Sink, B: Backend, C: Clock>(
    item: Item<Request>,
    writer: &mut W,
    backend: &mut B,
    clock: &mut C,
    out: &mut Vec<u8>,
) -> Result<(), ServeEnd>
    requires { W.failures writer.old + 1 < 2 ^ 64 }
    ensures answers { MatchResult result
        (λ _. AnswersAll B.steps C.draws (item ∷ [])
        backend.old clock.old (W.passed writer.old)
        backend.new clock.new (W.passed writer.new))
        (λ end. StopsAmong B.steps C.draws (item ∷ []) end
        backend.old clock.old (W.passed writer.old)
        backend.new clock.new (W.passed writer.new)) }
    ensures writing { W.failures writer.new
        ≡ W.failures writer.old + failures_by writing_failures result }
{
    let reply = reply_to(item, backend, clock);
    say(&reply, writer, out)
}

/// The reply to an item: a request is asked of the backend at the clock's next moment.
pub fn reply_to<B: Backend, C: Clock>(item: Item<Request>, backend: &mut B, clock: &mut C) -> Reply
    ensures answered { Answered B.steps C.draws (item ∷ []) (result ∷ [])
        backend.old clock.old backend.new clock.new }
    ensures fits { ReplyFits result }
{
    match item {
        Item::Whole(request) => {
            let now = clock.draw();
            backend.request(request, now)
        }
        Item::BadFrame => Reply::Refused(Refusal::BadFrame),
    }
}

// Writes the frame of a reply. `out` is where it is encoded.
fn say<W: Sink>(reply: &Reply, writer: &mut W, out: &mut Vec<u8>) -> Result<(), ServeEnd>
    requires room { W.failures writer.old + 1 < 2 ^ 64 }
    requires fits { ReplyFits reply.now }
    ensures said { Said (W.passed writer.old) (W.passed writer.new)
        reply.now result }
    ensures writing { W.failures writer.new
        ≡ W.failures writer.old + failures_by writing_failures result }
{
    out.clear();
    if push_reply(out, reply).is_err() {
        return Err(ServeEnd::NoMemory);
    }
    match writer.put(out.as_slice()) {
        Ok(()) => Ok(()),
        Err(_) => Err(ServeEnd::WriteFailed),
    }
}
