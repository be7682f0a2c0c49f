//! Frames by the calls that no program here makes. What they give is proved, and here they give
//! something.
use rpc::{Item, decode_reply, encode_reply, encode_request, read_all};
use s4_types::{AdminRequest, Moment, Refusal, Reply, Request};
use std::alloc::Global;
use std::slice;

/// The frame of a Flush of the moments 1 to 2.
static FLUSH: [u8; 21] = [
    0, 0, 0, 17, 10, 0, 0, 0, 0, 0, 0, 0, 1, 0, 0, 0, 0, 0, 0, 0, 2,
];

/// The frame of a change at moment 2.
static CHANGED: [u8; 13] = [0, 0, 0, 9, 1, 0, 0, 0, 0, 0, 0, 0, 2];

fn is_frame(frame: Result<Vec<u8>, Refusal>, bytes: &[u8]) -> bool {
    match frame {
        Ok(frame) => frame.as_slice() == bytes,
        Err(_) => false,
    }
}

fn is_reply(alloc: Global, body: &[u8]) -> bool {
    decode_reply(alloc, body).is_ok()
}

/// Whether the frame of the Flush is the only item of a stream.
fn is_flush_read(alloc: Global) -> Result<bool, Refusal> {
    let stream = Vec::from_slice(alloc, &FLUSH)?;
    let (items, _) = read_all::<Request>(alloc, slice::from_ref(&stream))?;
    Ok(matches!(
        items.as_slice(),
        [Item::Whole(Request::Control(AdminRequest::Flush { .. }))]
    ))
}

/// Whether the frame of a Flush is the one that was worked by hand.
fn is_flush_written(alloc: Global) -> bool {
    let first = Moment::new(1);
    let last = Moment::new(2);
    let flush = Request::Control(AdminRequest::Flush { first, last });
    let frame = encode_request(alloc, &flush);
    drop(flush);
    is_frame(frame, &FLUSH)
}

/// Whether that of a change is.
fn is_change_written(alloc: Global) -> bool {
    let changed = Reply::Changed(Moment::new(2));
    let frame = encode_reply(alloc, &changed);
    drop(changed);
    is_frame(frame, &CHANGED)
}

#[test]
fn frames_are_written_and_read(rt: HostRuntime) {
    assert!(rt; is_flush_written(rt.alloc()));
    assert!(rt; is_change_written(rt.alloc()));
    assert!(rt; is_reply(rt.alloc(), &CHANGED[4..]));
    assert!(rt; matches!(is_flush_read(rt.alloc()), Ok(true)));
}
