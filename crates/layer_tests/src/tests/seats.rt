//! Frames and pins, in one thread and in two.
ghost use Rattle.std.specs.Prelude.{◌≡◌, ◌≢◌, ℕ, ◌+◌, ◌<◌, ◌^◌, length};
ghost use Rattle.segment_word.specs.Frames.Phase.{Free, Sealed};
ghost use Rattle.segment_word.specs.Layout.{frame_at};
ghost use Rattle.segment_word.specs.Counting.{pins_in};

use s4_types::Refusal;
use s4_types::limits::FEWEST_FRAMES;
use segment_word::{DriveSeat, Frames, Pin};
use std::alloc::Global;
use std::thread::{Threads, join};

/// A pin that counts on frame 0, and was told so twice.
fn pinned(frames: &Frames, drive: &mut DriveSeat) -> Result<Pin, Refusal>
    requires table { drive.old.table ≡ frames.now }
    requires inside { 0 < length drive.old.frames }
    requires sealed { (frame_at drive.old.frames 0).phase ≡ Sealed }
    ensures { drive.new ≡ drive.old }
{
    let mut pin = frames.seat()?;
    pin.add(drive.frame(0))?;
    pin.add(drive.frame(0))?;
    Ok(pin)
}

/// The word of frame 0 when it is opened, sealed, counted on twice, once, marked, refused to its
/// release, counted on no more, and released.
const WORDS: [u64; 8] = [
    0x0000_0001_0000_0001,
    0x0000_0001_0000_0002,
    0x0000_0001_0000_000a,
    0x0000_0001_0000_0006,
    0x0000_0001_0000_0007,
    0x0000_0001_0000_0007,
    0x0000_0001_0000_0003,
    0x0000_0002_0000_0000,
];

/// The words of frame 0 through its life.
fn words(frames: &Frames, drive: &mut DriveSeat) -> Result<[u64; 8], Refusal>
    requires table { drive.old.table ≡ frames.now }
    requires inside { 0 < length drive.old.frames }
    requires free { (frame_at drive.old.frames 0).phase ≡ Free }
    requires goes_on { (frame_at drive.old.frames 0).generation + 1 < 2 ^ 32 }
{
    drive.open(0);
    let opened = drive.state(0);
    drive.seal(0);
    let sealed = drive.state(0);
    let one = pinned(frames, drive)?;
    let two = pinned(frames, drive)?;
    let twice = drive.state(0);
    drop(one);
    let once = drive.state(0);
    drive.mark(0);
    let marked = drive.state(0);
    let _ = drive.release(0);
    let refused = drive.state(0);
    drop(two);
    let unread = drive.state(0);
    let _ = drive.release(0);
    let released = drive.state(0);
    Ok([
        opened, sealed, twice, once, marked, refused, unread, released,
    ])
}

#[test]
fn state_words_of_frame_0(rt: HostRuntime) {
    let is_so = match Frames::new(rt.alloc(), FEWEST_FRAMES) {
        Ok((frames, mut drive)) => words(&frames, &mut drive) == Ok(WORDS),
        Err(_) => false,
    };
    assert!(rt; is_so);
}

// 512 bytes that differ from block to block and from frame to frame.
fn pattern(frame: usize, block: usize) -> [u8; 512]
    requires { (frame < 8) × (block < 16) }
{
    let mut bytes = [0; 512];
    for i in 0..512 {
        bytes[i] = ((i + 7 * block + 31 * frame) % 251) as u8;
    }
    bytes
}

// A free frame is opened, filled with its pattern, and sealed.
fn fill(drive: &mut DriveSeat, frame: usize)
    requires inside { (frame < length drive.old.frames) × (frame < 8) }
    requires free { (frame_at drive.old.frames frame).phase ≡ Free }
    requires goes_on { (frame_at drive.old.frames frame).generation + 1 < 2 ^ 32 }
    ensures table { (drive.new.table ≡ drive.old.table)
        × (length drive.new.frames ≡ length drive.old.frames) }
    ensures sealed { (frame_at drive.new.frames frame).phase ≡ Sealed }
    ensures others { (g : ℕ) → g ≢ frame
        → frame_at drive.new.frames g ≡ frame_at drive.old.frames g }
{
    drive.open(frame);
    for block in 0..16 {
        drive.store(frame, block, &pattern(frame, block));
    }
    drive.seal(frame);
}

fn is_intact(mut pin: Pin, frame: usize) -> bool
    requires { (0 < pins_in frame pin.pins) × (frame < 8) }
{
    for _ in 0..20 {
        for block in 0..16 {
            if pin.read_block(frame, block) != pattern(frame, block) {
                return false;
            }
        }
    }
    true
}

/// A thread reads frame 0 while frame 1 is filled. Answers whether it read the pattern, whether
/// both frames have theirs then, and their words.
fn read_beside<R: Threads>(rt: &R, alloc: Global) -> Result<(bool, bool, [u64; 2]), Refusal> {
    let (frames, mut drive) = Frames::new(alloc, FEWEST_FRAMES)?;
    fill(&mut drive, 0);
    let mut pin = frames.seat()?;
    pin.add(drive.frame(0))?;
    drop(frames);
    let (is_intact, mut drive) = join(
        rt,
        move || -> bool
            requires { 0 < pins_in 0 pin.pins }
        { is_intact(pin, 0) },
        move || -> DriveSeat
            requires { (1 < length drive.frames)
                × ((frame_at drive.frames 1).phase ≡ Free)
                × ((frame_at drive.frames 1).generation ≡ 1) }
            ensures { 1 < length result.frames }
        {
            fill(&mut drive, 1);
            drive
        },
    );
    let are_stored = drive.load(0, 15) == pattern(0, 15) && drive.load(1, 15) == pattern(1, 15);
    let words = [drive.state(0), drive.state(1)];
    drop(drive);
    Ok((is_intact, are_stored, words))
}

#[test]
fn reads_while_another_frame_is_written(rt: HostRuntime) -> Result<(), Refusal> {
    let (is_intact, are_stored, words) = read_beside(&rt, rt.alloc())?;
    assert!(rt; is_intact);
    assert!(rt; are_stored);
    assert!(rt; words == [0x0000_0001_0000_0002; 2]);
    Ok(())
}

/// Whether frame 0 is counted on, or memory was refused and no reader is counted.
fn is_counted_or_not(frames: &Frames, drive: &mut DriveSeat) -> bool
    requires table { drive.old.table ≡ frames.now }
    requires inside { 0 < length drive.old.frames }
    requires sealed { (frame_at drive.old.frames 0).phase ≡ Sealed }
{
    let Ok(mut pin) = frames.seat() else {
        return false;
    };
    match pin.add(drive.frame(0)) {
        Ok(()) => drive.state(0) == 0x0000_0001_0000_0006,
        Err(refusal) => {
            refusal == Refusal::NoMemory
                && !pin.counts_on(0)
                && drive.state(0) == 0x0000_0001_0000_0002
        }
    }
}

// Passes under each refusal of memory: `NoMemory` is the answer, and nothing has changed.
#[test]
fn refused_memory_changes_nothing(rt: HostRuntime) {
    let is_so = match Frames::new(rt.alloc(), FEWEST_FRAMES) {
        Ok((frames, mut drive)) => {
            fill(&mut drive, 0);
            is_counted_or_not(&frames, &mut drive)
        }
        Err(refusal) => refusal == Refusal::NoMemory,
    };
    assert!(rt; is_so);
}
