//! A session whose replies go out in batches: how often it waits, and what comes then.
ghost use Rattle.std.specs.Prelude.{⊤, None};

use batch_serving::{BatchEnd, Keeping, Outlet, serve_batch};
use group_commit::NotKept;
use rpc::push_request;
use s4_types::{AdminRequest, Moment, Refusal, Reply, Request};
use serving::{Backend, MemorySink, MemorySource, Sink, StreamFailed, Ticking};
use std::alloc::Global;

/// A backend that refuses all, and counts it.
#[derive(Clone, Copy)]
struct Refusing {
    asked: u64,
}

impl Backend for Refusing {
    ghost steps = { λ old request now reply new. ⊤ };

    fn request(&mut self, _request: Request, _now: Moment) -> Reply {
        self.asked = self.asked.saturating_add(1);
        Reply::Refused(Refusal::NotAdmin)
    }
}

/// What waits for nothing, and counts it.
#[derive(Clone, Copy)]
struct Counting {
    waits: u64,
    /// How much had been asked at the last one.
    asked: u64,
    fails: bool,
}

impl Counting {
    fn new(fails: bool) -> Self {
        Counting {
            waits: 0,
            asked: 0,
            fails,
        }
    }
}

impl Keeping<Refusing> for Counting {
    ghost waits = { λ old backend is_kept new. ⊤ };

    fn await_kept(&mut self, backend: &Refusing) -> Result<(), NotKept> {
        self.waits = self.waits.saturating_add(1);
        self.asked = backend.asked;
        if self.fails { Err(NotKept) } else { Ok(()) }
    }
}

/// A sink to which anything may be sent.
#[derive(Drop)]
struct Anything {
    sink: MemorySink,
}

impl Outlet<Refusing, Ticking, Counting> for Anything {
    ghost begins = { λ to backend. ⊤ };

    ghost passed = { λ to. None };

    ghost failures = { λ to. ⟦<MemorySink as Sink>⟧.failures to.sink };

    fn send(
        &mut self,
        bytes: &[u8],
        _backend: &Refusing,
        _clock: &Ticking,
        _keeping: &Counting,
    ) -> Result<(), StreamFailed> {
        self.sink.put(bytes)
    }
}

/// What came of a session: how it ended, how often and after how many requests it was waited for,
/// and how many bytes it was told.
#[derive(Clone, Copy, PartialEq, Eq)]
struct Came {
    end: BatchEnd,
    waits: u64,
    asked: u64,
    told: usize,
}

/// Serves a session whose input comes in pieces of at most this many bytes, or 1.
fn serve_counted(alloc: Global, frames: &[u8], piece: usize, fails: bool) -> Came {
    let mut source = MemorySource::new(frames, piece.max(1));
    let mut to = Anything {
        sink: MemorySink::new(alloc),
    };
    let mut backend = Refusing { asked: 0 };
    let mut clock = Ticking::new(Moment::new(0), 1);
    let mut keeping = Counting::new(fails);
    let end = serve_batch(
        alloc,
        &mut source,
        &mut to,
        &mut backend,
        &mut clock,
        &mut keeping,
    );
    let told = to.sink.as_slice().len();
    drop(to);
    Came {
        end,
        waits: keeping.waits,
        asked: keeping.asked,
        told,
    }
}

/// Appends the frame of a request.
fn push(frames: &mut Vec<u8>) -> Result<(), Refusal> {
    let request = Request::Control(AdminRequest::SetWindow { window: 7 });
    let pushed = push_request(frames, &request);
    drop(request);
    pushed
}

/// Serves a session that asks this many times.
fn serve_requests(alloc: Global, count: usize, piece: usize, fails: bool) -> Result<Came, Refusal> {
    let mut frames = Vec::new(alloc);
    for _ in 0..count {
        push(&mut frames)?;
    }
    let came = serve_counted(alloc, frames.as_slice(), piece, fails);
    drop(frames);
    Ok(came)
}

/// The bytes of a refusal: its length, 0 for refused, and its number.
const REFUSED_BYTES: usize = 6;

#[test]
fn a_piece_is_waited_for_once(rt: HostRuntime) -> Result<(), Refusal> {
    for (piece, waits) in &[(64, 1), (1, 3)] {
        let wanted = Came {
            end: BatchEnd::Ended,
            waits: *waits,
            asked: 3,
            told: 3 * REFUSED_BYTES,
        };
        let came = serve_requests(rt.alloc(), 3, *piece, false)?;
        assert!(rt; came == wanted, "{piece}");
    }
    Ok(())
}

#[test]
fn nothing_goes_out_that_is_not_kept(rt: HostRuntime) -> Result<(), Refusal> {
    let came = serve_requests(rt.alloc(), 1, 64, true)?;
    assert!(rt; came.end == BatchEnd::NotKept);
    assert!(rt; came.asked == 1 && came.told == 0);
    Ok(())
}
