ghost use Rattle.std.specs.Prelude.{◌≡◌, ◌≢◌, ◌+◌, ◌^◌, ◌<◌, [], ◌⊎◌, IfSome, MatchResult, OnOk};
ghost use Rattle.std.specs.Prelude.{Some, length};
ghost use Rattle.serving.specs.Session.{IsBegun, begun_of, failures_by};
ghost use Rattle.batch_serving.specs.Batches.{Continues, Finishes, Goes, IsLate, Serves};
ghost use Rattle.batch_serving.specs.Batches.{reading_failures, writing_failures};
ghost use Rattle.batch_serving.specs.Saying.{HasSaid};

use crate::batches::answer_all;
use crate::ends::BatchEnd;
use crate::keeping::Keeping;
use crate::outlet::Outlet;
use rpc::FrameReader;
use s4_types::Request;
use serving::{Backend, Clock, Source};
use std::alloc::Global;

/// Bytes that are asked of the reader at once.
const PIECE_BYTES: usize = 65_536;

/// Serves one session until its input ends or something fails, and says how it ended.
///
/// All whole requests of a piece are done, then it is waited until that is kept, and then all
/// replies are written, by one `put`; in several such batches, where the replies have `BATCH_BYTES`
/// bytes or more. The reader is asked for more only after that.
pub fn serve_batch<R: Source, W: Outlet<B, C, K>, B: Backend, C: Clock, K: Keeping<B>>(
    alloc: Global,
    reader: &mut R,
    writer: &mut W,
    backend: &mut B,
    clock: &mut C,
    keeping: &mut K,
) -> BatchEnd
    requires reader { R.failures reader.old + 1 < 2 ^ 64 }
    requires writer { W.failures writer.old + 1 < 2 ^ 64 }
    requires begins { W.begins writer.old backend.old }
    requires unsent { IfSome (W.passed writer.old) (λ bytes. bytes ≡ []) }
    ensures session { Serves B.steps C.draws K.waits [] result
        backend.old clock.old keeping.old (R.remaining reader.old) (W.passed writer.old)
        backend.new clock.new keeping.new (R.remaining reader.new) (W.passed writer.new) }
    ensures reading { R.failures reader.new ≡ R.failures reader.old + reading_failures result }
    ensures writing { W.failures writer.new ≡ W.failures writer.old + writing_failures result }
{
    let Ok(mut frames) = FrameReader::new(alloc) else {
        return BatchEnd::NoMemory;
    };
    let Ok(mut piece) = vec![in alloc; 0u8; PIECE_BYTES] else {
        return BatchEnd::NoMemory;
    };
    let mut out = Vec::new(alloc);
    loop {
        match serve_piece(
            reader,
            writer,
            backend,
            clock,
            keeping,
            &mut frames,
            piece.as_mut_slice(),
            &mut out,
        ) {
            Ok(()) => {}
            Err(end) => return end,
        }
    }
}

// Reads one piece, and answers all items that are whole with it.
fn serve_piece<R: Source, W: Outlet<B, C, K>, B: Backend, C: Clock, K: Keeping<B>>(
    reader: &mut R,
    writer: &mut W,
    backend: &mut B,
    clock: &mut C,
    keeping: &mut K,
    frames: &mut FrameReader,
    piece: &mut [u8],
    out: &mut Vec<u8>,
) -> Result<(), BatchEnd>
    requires reader { R.failures reader.old + 1 < 2 ^ 64 }
    requires writer { W.failures writer.old + 1 < 2 ^ 64 }
    requires begun { IsBegun frames.old }
    requires room { 0 < length piece.old }
    requires said { HasSaid B.steps C.draws (W.begins writer.old) (W.passed writer.old) []
        backend.old clock.old }
    ensures session { MatchResult result
        (λ _. Goes B.steps C.draws K.waits (begun_of frames.old) frames.new
        backend.old clock.old keeping.old (R.remaining reader.old) (W.passed writer.old)
        backend.new clock.new keeping.new (R.remaining reader.new) (W.passed writer.new))
        (λ end. Serves B.steps C.draws K.waits (begun_of frames.old) end
        backend.old clock.old keeping.old (R.remaining reader.old) (W.passed writer.old)
        backend.new clock.new keeping.new (R.remaining reader.new) (W.passed writer.new)) }
    ensures turns { OnOk result (R.turns reader.new < R.turns reader.old) }
    ensures said { OnOk result (HasSaid B.steps C.draws (W.begins writer.new) (W.passed writer.new) []
        backend.new clock.new) }
    ensures reading { R.failures reader.new
        ≡ R.failures reader.old + failures_by reading_failures result }
    ensures writing { W.failures writer.new
        ≡ W.failures writer.old + failures_by writing_failures result }
{
    let count = match reader.read(piece) {
        Ok(count) => count,
        Err(_) => return Err(BatchEnd::ReadFailed),
    };
    if count == 0 {
        return Err(end_at(frames));
    }
    answer_piece(
        &piece[..count],
        writer,
        backend,
        clock,
        keeping,
        frames,
        out,
    )
}

// How a session ends whose input has ended.
fn end_at(frames: &FrameReader) -> BatchEnd
    ensures { ((result ≡ BatchEnd.Ended) × (frames.now ≡ Some []))
        ⊎ ((result ≡ BatchEnd.CutFrame) × (frames.now ≢ Some [])) }
{
    if frames.is_between_frames() {
        BatchEnd::Ended
    } else {
        BatchEnd::CutFrame
    }
}

// Answers all items that are whole with this piece.
fn answer_piece<W: Outlet<B, C, K>, B: Backend, C: Clock, K: Keeping<B>>(
    piece: &[u8],
    writer: &mut W,
    backend: &mut B,
    clock: &mut C,
    keeping: &mut K,
    frames: &mut FrameReader,
    out: &mut Vec<u8>,
) -> Result<(), BatchEnd>
    requires writer { W.failures writer.old + 1 < 2 ^ 64 }
    requires begun { IsBegun frames.old }
    requires said { HasSaid B.steps C.draws (W.begins writer.old) (W.passed writer.old) []
        backend.old clock.old }
    ensures session { MatchResult result
        (λ _. Continues B.steps C.draws K.waits (begun_of frames.old) piece.now frames.new
        backend.old clock.old keeping.old (W.passed writer.old)
        backend.new clock.new keeping.new (W.passed writer.new))
        (λ end. IsLate end × Finishes B.steps C.draws K.waits end (begun_of frames.old) piece.now
        backend.old clock.old keeping.old (W.passed writer.old)
        backend.new clock.new keeping.new (W.passed writer.new)) }
    ensures said { OnOk result (HasSaid B.steps C.draws (W.begins writer.new) (W.passed writer.new) []
        backend.new clock.new) }
    ensures writing { W.failures writer.new
        ≡ W.failures writer.old + failures_by writing_failures result }
{
    let Ok(items) = frames.feed::<Request>(piece) else {
        return Err(BatchEnd::NoMemory);
    };
    match answer_all(items, writer, backend, clock, keeping, out) {
        Ok(()) if frames.has_failed() => Err(BatchEnd::Oversized),
        Ok(()) => Ok(()),
        Err(end) => Err(end),
    }
}
