//! The drive that a service serves: the one in its image, which is made before where that is asked.
ghost use Rattle.std.specs.Prelude.{◌≡◌, ◌≤◌, ◌<◌, [], IfNone, IfOk, IfSome, OnOk, length};
ghost use Rattle.std.specs.List.{All};
ghost use Rattle.s4_types.specs.Sizes.{IsFrameCount};
ghost use Rattle.image_commands.specs.Files.{AreKnown};
ghost use Rattle.image_commands.specs.Leaving.{AreAllSpent, AreNoImages, IsLeftFor};
ghost use Rattle.image_commands.specs.Making.{HasNew};
ghost use Rattle.image_commands.specs.Verifying.{IsVerified};
ghost use Rattle.image_commands.specs.declared.beside.TheConstants.{MOST_LEFT};
ghost use Rattle.s4serve.specs.Opening.{IsDriveIn};
ghost use Rattle.s4serve.specs.Reserves.{most_reserve, reserve_of};
ghost use Rattle.s4serve.specs.Starts.{IsStart};

use crate::faults::ServeFault;
use crate::leaving::{claim_left, refuse_making, unread_beside};
use crate::machine::Machine;
use crate::reserves::reserve_over;
use crate::telling::{News, Telling};
use drive::OpenedDrive;
use image_commands::{Fault, Files, Obstacle, Placed, make_file, read_image, writing};
use kept_drive::MOST_AHEAD;
use s4_types::{Cause, Moment, Refusal};
use s4d_command::New;
use s4serve_command::{Creation, ServiceAsked};
use service_time::{Monotonic, ServiceClock, start_of, wait_before};
use std::alloc::Global;
use std::sync::Wait;
use std::thread::{Threads, sleep};
use std::time::{Clock, Duration};
use verifier::{Image, open};

/// Microseconds of a second.
const SECOND: u64 = 1_000_000;

/// The clock of a service that has just begun.
#[derive(Drop)]
pub struct Begun<T: Clock> {
    /// The machine's time then, in microseconds since 1970.
    pub system: u64,
    /// The moment at which it began.
    pub start: Moment,
    pub clock: ServiceClock<Monotonic<T>>,
}

/// A drive that was just opened, the claim of its image, and the clock of its service.
#[derive(Drop)]
pub struct Opened<T: Clock, F: Files> {
    pub claim: F::Claim,
    /// What services left beside the image: it can be removed once the drive is kept.
    pub left: Vec<F::Leftover>,
    pub drive: OpenedDrive,
    /// How many blocks of its room clients leave to administrators.
    pub reserve: usize,
    pub begun: Begun<T>,
}

/// Claims the image that is asked for, opens its drive, and begins the clock of its service. Where
/// a service left a later one beside the image, nothing is opened.
///
/// Where the image's clock is above the machine's time, that is waited for first, but no longer
/// than a crash may have left it ahead.
#[tactic(auto, using(crate::proofs::Served::drive_in))]
pub fn open_image<'a, T: Threads + Wait + Machine + Copy + Drop, F: Files, D: Telling>(
    rt: &T,
    alloc: Global,
    files: &mut F,
    outside: &D,
    asked: &ServiceAsked<'a>,
) -> Result<Opened<T, F>, ServeFault<'a>>
    ensures claimed { IfOk result (λ opened. F.leads opened.claim asked.now.image.now) }
    // It is the drive in the file at the image's path, as that was read.
    ensures image { IfOk result
        (λ opened. IsDriveIn (F.contents files.old asked.now.image.now) opened.drive) }
    // Nothing is lost with what may be removed.
    ensures left { IfOk result
        (λ opened. All (IsLeftFor F.is_left F.is_part (F.contents files.new) opened.claim
        opened.drive.timeline.clock) opened.left.items) }
    // No later image lies beside it.
    ensures all { IfOk result
        (λ opened. AreAllSpent MOST_LEFT (F.lies files.new asked.now.image.now) F.is_left
        (F.contents files.new) opened.drive.timeline.clock opened.left.items) }
    // By the machine's time that was read, over the drive that was opened.
    ensures read { IfOk result (λ opened. T.has_read rt.now opened.begun.system) }
    ensures start { IfOk result
        (λ opened. IsStart opened.drive.timeline.clock opened.drive.timeline.window
        asked.now.leap opened.begun.system opened.begun.start) }
    ensures began { IfOk result (λ opened. opened.begun.clock.began ≡ opened.begun.start) }
    ensures last { IfOk result (λ opened. opened.begun.clock.last ≡ opened.begun.start) }
    // As many as were asked for, or as a drive of so many frames has where that isn't said.
    ensures reserve { IfOk result (λ opened. opened.reserve
        ≡ reserve_of asked.now.reserve (length opened.drive.store.table.seat.frames)) }
    ensures half { IfOk result (λ opened. opened.reserve
        ≤ most_reserve (length opened.drive.store.table.seat.frames)) }
{
    let (claim, image) = claim_image(rt, alloc, files, asked.image)?;
    let reserve = reserve_over(asked.reserve, image.frames())?;
    let (clock, window) = (image.clock(), image.window());
    let (claim, left) = claim_left(rt, alloc, files, asked.image, claim, clock)?;
    await_time(rt, outside, asked.image, clock);
    let drive = match open(alloc, image) {
        Ok(drive) => drive,
        Err(refusal) => return Err(ServeFault::Image(Fault::Refused(refusal))),
    };
    let begun = begin_over(rt, asked, clock, window)?;
    Ok(Opened {
        claim,
        left,
        drive,
        reserve,
        begun,
    })
}

/// Makes an image where that is asked. What has bytes is refused, and a path beside which a service
/// left a whole image. Where clients are to leave more of its room than may be, nothing is made.
pub fn make_asked<'a, T: Threads, F: Files>(
    rt: &T,
    alloc: Global,
    files: &mut F,
    asked: &ServiceAsked<'a>,
) -> Result<(), ServeFault<'a>>
    requires { IfSome asked.now.create (λ creation. IsFrameCount creation.frames) }
    ensures image { OnOk result (IfSome asked.now.create (λ creation.
        HasNew creation.frames creation.keep (F.contents files.new asked.now.image.now))) }
    ensures same { IfNone asked.now.create (files.new ≡ files.old) }
    // Before one was made, no whole one lay there.
    ensures made { OnOk result
        (IfSome asked.now.create (λ creation. AreNoImages MOST_LEFT
        (F.lies files.old asked.now.image.now) (F.contents files.old))) }
    ensures reserve { OnOk result (IfSome asked.now.create
        (λ creation. reserve_of asked.now.reserve creation.frames ≤ most_reserve creation.frames)) }
    ensures refused { IfSome asked.now.create (λ creation.
        most_reserve creation.frames < reserve_of asked.now.reserve creation.frames
        → files.new ≡ files.old) }
{
    match asked.create {
        Some(creation) => {
            reserve_over(asked.reserve, creation.frames as u16)?;
            refuse_making(rt, alloc, files, asked.image)?;
            create(alloc, files, asked.image, creation)
        }
        None => Ok(()),
    }
}

/// Waits until the machine's time isn't below the clock of an image any more, at most as long as a
/// crash may have left that ahead. Says so, and how far ahead it still is.
fn await_time<T: Wait + Machine, D: Telling>(rt: &T, outside: &D, image: &str, clock: Moment) {
    // Where the time can't be read no service begins.
    let system = rt.read_time().unwrap_or(u64::MAX);
    let wait = wait_before(clock.number(), system, MOST_AHEAD);
    if wait == 0 {
        return;
    }
    outside.tell(News::Waits(image, wait.div_ceil(SECOND)));
    sleep(rt, Duration::from_micros(wait));
    let further = clock.number().saturating_sub(system).saturating_sub(wait);
    if further > 0 {
        outside.tell(News::Ahead(image, further.div_ceil(SECOND)));
    }
}

/// Makes the image of a new drive. It has no bytes before.
fn create<'a, F: Files>(
    alloc: Global,
    files: &mut F,
    image: &'a str,
    creation: Creation,
) -> Result<(), ServeFault<'a>>
    requires { IsFrameCount creation.frames }
    ensures image { OnOk result
        (HasNew creation.frames creation.keep (F.contents files.new image.entry.now)) }
    ensures empty { OnOk result (AreKnown (F.contents files.old image.entry.now) []) }
{
    let made = make_file(
        alloc,
        files,
        New {
            image,
            frames: creation.frames,
            window: creation.keep,
        },
    );
    match made {
        Ok(Placed::Lasting) => Ok(()),
        Ok(Placed::NotLasting) => Err(ServeFault::Image(writing(Obstacle::NotLasting, image))),
        Err(fault) => Err(ServeFault::Image(fault)),
    }
}

/// Claims an image, and reads it. The claim comes first, so that nobody replaces what is read; what
/// can't be read is the first fault all the same.
fn claim_image<'a, T: Threads, F: Files>(
    rt: &T,
    alloc: Global,
    files: &F,
    path: &'a str,
) -> Result<(F::Claim, Image), ServeFault<'a>>
    ensures claimed { IfOk result (λ claimed. F.leads claimed.0 path.entry.now) }
    ensures verified { IfOk result
        (λ claimed. IsVerified (F.contents files.now path.entry.now) claimed.1) }
{
    let claim = files.claim(alloc, path);
    let image = match read_image(rt, alloc, files, path) {
        Ok(image) => image,
        Err(fault) => {
            drop(claim);
            return Err(unread(rt, alloc, files, path, fault));
        }
    };
    match claim {
        Ok(claim) => Ok((claim, image)),
        Err(obstacle) => Err(ServeFault::Image(writing(obstacle, path))),
    }
}

/// Why an image isn't read, with what can be done where it may be one of an earlier version, or
/// where a service left one beside it.
fn unread<'a, T: Threads, F: Files>(
    rt: &T,
    alloc: Global,
    files: &F,
    path: &'a str,
    fault: Fault<'a>,
) -> ServeFault<'a> {
    match fault {
        Fault::Refused(Refusal::Damaged(Cause::Header)) => ServeFault::NoHeader,
        other => unread_beside(rt, alloc, files, path, other),
    }
}

/// Begins the clock of a service over a drive with this clock and this window. The machine's time
/// and its monotonic clock are read one right after the other, so that the moments of the service
/// are the machine's time.
fn begin_over<'a, T: Machine + Copy + Drop>(
    rt: &T,
    asked: &ServiceAsked<'a>,
    clock: Moment,
    window: u64,
) -> Result<Begun<T>, ServeFault<'a>>
    ensures read { IfOk result (λ begun. T.has_read rt.now begun.system) }
    ensures start { IfOk result
        (λ begun. IsStart clock window asked.now.leap begun.system begun.start) }
    ensures began { IfOk result (λ begun. begun.clock.began ≡ begun.start) }
    ensures last { IfOk result (λ begun. begun.clock.last ≡ begun.start) }
{
    let Some(system) = rt.read_time() else {
        return Err(ServeFault::NoTime);
    };
    let leap = asked.leap.unwrap_or(0);
    let start = match start_of(clock.number(), window, system, leap) {
        Ok(start) => Moment::new(start),
        Err(fault) => return Err(ServeFault::Start(asked.image, fault)),
    };
    match ServiceClock::new(start, Monotonic::new(*rt)) {
        Some(clock) => Ok(Begun {
            system,
            start,
            clock,
        }),
        None => Err(ServeFault::NoTime),
    }
}
