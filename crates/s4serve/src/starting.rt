//! How a service begins, and how it ends.
ghost use Rattle.std.specs.Prelude.{◌≡◌, ◌≤◌, ◌++◌, ℕ, List, Option, [], ◌∷◌, false, length, map, true};
ghost use Rattle.std.specs.Prelude.{Contains, IfOk, IfSome, IsTrue, OnErr, OnOk, string_bytes};
ghost use Rattle.std.specs.List.{AllZip};
ghost use Rattle.image_keeping.specs.Leaving.{IsKept};
ghost use Rattle.s4_types.specs.Sizes.{IsFrameCount};
ghost use Rattle.segment_table.specs.Room.{log_of};
ghost use Rattle.version_store.specs.Store.{fields_of};
ghost use Rattle.drive.specs.Fields.{DriveFields};
ghost use Rattle.drive.specs.Opened.{base_of};
ghost use Rattle.serving.specs.Drawing.{Drawn};
ghost use Rattle.door_files.specs.Paths.{door_path};
ghost use Rattle.kept_drive.specs.Collecting.{WasHad};
ghost use Rattle.kept_drive.specs.Images.{IsFlushed};
ghost use Rattle.s4serve.specs.Ended.{HasBeenEnded, HasBegun};
ghost use Rattle.s4serve.specs.Doors.{ReadsDoor, asked_door};
ghost use Rattle.s4serve.specs.Reserves.{most_reserve, reserve_of};
ghost use Rattle.s4serve.specs.Serving.{HasBeenStopped, HasServed, IsFound};
ghost use Rattle.s4serve.specs.Starts.{IsStart};

use crate::collecting::{Closing, UnderLock, flusher};
use crate::ended::EndReceipt;
use crate::faults::{DoorObstacle, ServeFault};
use crate::heard::StopLine;
use crate::keeping::{Explaining, KeptFiles};
use crate::machine::Machine;
use crate::opening::{Begun, Opened, make_asked, open_image};
use crate::parts::ALL_PARTS;
use crate::service::{Door, Service, Serving};
use crate::spawning::Starting;
use crate::telling::{News, Telling};
use crate::waiting::Lines;
use door_files::{Fifos, open_door};
use drive::OpenedDrive;
use group_commit::{Ended, Monitor};
use image_commands::Fault;
use image_keeping::Keeper;
use kept_drive::{KeptImage, KeptReceipt};
use kept_files::KeepObstacle;
use s4_types::{Moment, Role};
use s4serve_command::ServiceAsked;
use server::{Blanks, Pace, Part, Running, SharedDrive, enter};
use service_time::{Monotonic, ServiceClock};
use std::alloc::{AllocError, Global};
use std::io;
use std::marker::{Brand, Send, Sync};
use std::sync::{Arc, Mutex, Wait};
use std::thread::Threads;
use std::time::Clock;

/// How long a service that is stopped tries to keep its drive where memory or room is short, in
/// microseconds, where that isn't said.
const PATIENCE: u64 = 60_000_000;

/// Microseconds of a second.
const SECOND: u64 = 1_000_000;

/// A service that is about to begin: its drive, just opened, and what is had before.
#[derive(Drop)]
struct Ready<K, C> {
    keeper: K,
    drive: OpenedDrive,
    /// How many blocks of its room clients leave to administrators.
    reserve: usize,
    /// The machine's time, in microseconds since 1970.
    system: u64,
    /// When it begins, and the clock that draws moments from then on.
    start: Moment,
    clock: C,
    blanks: Blanks,
}

/// What a service has besides once its drive was kept a first time.
#[derive(Drop)]
struct FirstKept<J: Running, K: Keeper> {
    kept: KeptImage<J, K>,
    receipt: KeptReceipt<J, K>,
    /// The image's path.
    path: String,
}

/// Serves the drive in an image until the service is stopped.
pub fn serve_image<
    'a,
    H: Threads + Wait + Machine + Copy + Send + Sync + Drop + 'static,
    F: KeptFiles + Copy,
    D: Fifos + Telling + Copy + Send + Sync + Drop + 'static,
>(
    rt: &H,
    alloc: Global,
    files: F,
    outside: D,
    asked: &ServiceAsked<'a>,
) -> Result<(), ServeFault<'a>>
    requires frames { IfSome asked.now.create (λ creation. IsFrameCount creation.frames) }
    // The drive in its image, as that was found or made, was served from where a service may begin
    // until administrators stopped it, and was kept at that end.
    ensures served { OnOk result ((known : Option (List ℕ))
        × IsFound asked.now.create (F.contents files asked.now.image.now) known
        × HasServed known F.Kept.may_leave F.Kept.was_moved (H.has_read rt.now) asked.now) }
{
    let mut own = files;
    make_asked(rt, alloc, &mut own, asked)?;
    let opened = open_image(rt, alloc, &mut own, &outside, asked)?;
    let inputs = open_inputs(alloc, &outside, asked.doors.as_slice())?;
    let Opened {
        claim,
        left,
        drive,
        reserve,
        begun,
    } = opened;
    let Begun {
        system,
        start,
        clock,
    } = begun;
    let ready = Ready {
        keeper: own.keeper(alloc, claim, left),
        drive,
        reserve,
        system,
        start,
        clock,
        blanks: Blanks::new(ALL_PARTS),
    };
    serve_ready::<Brand, H, F::Kept, ServiceClock<Monotonic<H>>, D>(
        rt, alloc, outside, asked, ready, inputs,
    )
}

/// Names the drive of a service, keeps it a first time before any session, and serves it.
fn serve_ready<
    'a,
    J: Serving + Send + Sync + 'static,
    H: Threads + Wait + Machine + Copy + Send + Sync + Drop + 'static,
    K: Keeper + Explaining + Send + Drop + 'static,
    C: serving::Clock + Send + Drop + 'static,
    D: Fifos + Telling + Copy + Send + Sync + Drop + 'static,
>(
    rt: &H,
    alloc: Global,
    outside: D,
    asked: &ServiceAsked<'a>,
    ready: Ready<K, C>,
    inputs: Vec<D::Input>,
) -> Result<(), ServeFault<'a>>
    requires accepts { ready.drive.accepts ≡ J.accepts }
    requires frames { ready.drive.store.table.seat.table ≡ J.frames }
    requires base { base_of (fields_of log_of ready.drive.store) ready.drive.timeline ready.drive.next
        ready.drive.audit ≡ J.base }
    requires begins { (d : DriveFields) → J.begins d }
    requires moments { (moments : List ℕ) (later : _) → Drawn C.draws ready.clock moments later
        → J.moments moments }
    requires upkeep { J.has_upkeep ≡ true }
    requires ledgers { (ready.blanks.requests ≡ J.asked) × (ready.blanks.changes ≡ J.name) }
    requires parts { (ready.blanks.parts ≡ J.parts) × (J.parts ≡ ALL_PARTS) }
    requires usable { IsTrue (K.is_usable ready.keeper) }
    // It begins where a service may begin over this drive, by the machine's time that was read, and
    // has the doors that were asked for, whose inputs are these.
    requires read { H.has_read rt.now ready.system }
    requires start { IsStart ready.drive.timeline.clock ready.drive.timeline.window asked.now.leap
        ready.system ready.start }
    requires starts { J.start ≡ ready.start }
    requires doors { J.doors ≡ map asked_door asked.now.doors.items }
    requires inputs { AllZip (ReadsDoor D.reads) asked.now.doors.items inputs.items }
    // Clients leave as many blocks of this drive's room as were asked for, or as a drive of so many
    // frames has where that isn't said: no more than half of it where nothing is held.
    requires reserve { J.reserve
        ≡ reserve_of asked.now.reserve (length ready.drive.store.table.seat.frames) }
    requires half { J.reserve ≤ most_reserve (length ready.drive.store.table.seat.frames) }
    requires left { ready.reserve ≡ J.reserve }
    // Where it was stopped, it had been kept there first, an administrator had asked for that, and
    // it is kept at its end.
    ensures began { OnOk result (HasBegun K.may_leave J.frames J.base J.start) }
    ensures stopped { OnOk result (HasBeenStopped J.doors) }
    ensures ended { OnOk result (HasBeenEnded K.may_leave K.was_moved J.frames J.base J.start) }
{
    let Ready {
        keeper,
        drive,
        reserve,
        system: _,
        start,
        clock,
        blanks,
    } = ready;
    let (shared, rest) = SharedDrive::new(drive.named::<J>(), clock, blanks, reserve);
    let drive = Mutex::new(shared);
    let first = keep_first(rt, alloc, &drive, keeper, start, asked.image)?;
    serve_kept(rt, alloc, outside, asked, drive, first, start, rest, inputs)
}

/// Serves a drive that was kept a first time, as it is once it has seen where the service begins.
fn serve_kept<
    'a,
    J: Serving + Send + Sync + 'static,
    H: Threads + Wait + Machine + Copy + Send + Sync + Drop + 'static,
    K: Keeper + Explaining + Send + Drop + 'static,
    C: serving::Clock + Send + Drop + 'static,
    D: Fifos + Telling + Copy + Send + Sync + Drop + 'static,
>(
    rt: &H,
    alloc: Global,
    outside: D,
    asked: &ServiceAsked<'a>,
    drive: Mutex<SharedDrive<J, C>>,
    first: FirstKept<J, K>,
    start: Moment,
    rest: Part<J>,
    inputs: Vec<D::Input>,
) -> Result<(), ServeFault<'a>>
    requires upkeep { J.has_upkeep ≡ true }
    requires parts { rest.parts ≡ ALL_PARTS }
    requires start { start ≡ J.start }
    requires doors { J.doors ≡ map asked_door asked.now.doors.items }
    requires inputs { AllZip (ReadsDoor D.reads) asked.now.doors.items inputs.items }
    // Whatever a crash leaves from now on is the drive, once it has seen what comes after that.
    requires kept { IsKept (K.may_leave first.kept.keeper)
        (IsFlushed (WasHad J.frames J.base) J.base first.kept.session.told.seen
        J.start first.kept.reach) }
    ensures stopped { OnOk result (HasBeenStopped J.doors) }
    ensures ended { OnOk result (HasBeenEnded K.may_leave K.was_moved J.frames J.base J.start) }
{
    let image = asked.image;
    let patience = asked.patience.unwrap_or(PATIENCE) / SECOND;
    let doors = doors_of::<J>(alloc, asked.doors.as_slice())?;
    let lines = Lines::new(alloc, rest)?;
    let service = Service {
        pace: Pace::new(rt, alloc, &drive),
        drive,
        monitor: Monitor::new(first.receipt, patience),
        kept: Mutex::new(first.kept),
        lines,
        doors,
        image: first.path,
    };
    let Ok(service) = Arc::new(alloc, service) else {
        return Err(ServeFault::NoMemory);
    };
    let starting = Starting {
        rt,
        alloc,
        service: &service,
        outside: &outside,
    };
    if starting.start_threads(inputs).is_err() {
        return Err(ServeFault::NoThreads);
    }
    outside.tell(News::Serves(image));
    let ended = await_end(rt, alloc, &service, &outside, image, start)?;
    ended.kept().shows();
    ended.by().shows();
    Ok(())
}

/// Has a session that meets the drive at each flush, and keeps the drive a first time.
fn keep_first<'a, J: Running, C: serving::Clock, K: Keeper + Explaining + Drop, R: Wait>(
    rt: &R,
    alloc: Global,
    drive: &Mutex<SharedDrive<J, C>>,
    keeper: K,
    start: Moment,
    image: &'a str,
) -> Result<FirstKept<J, K>, ServeFault<'a>>
    requires usable { IsTrue (K.is_usable keeper) }
    // Whatever a crash leaves is the drive, once it has seen what comes after the start.
    ensures kept { IfOk result (λ first. IsKept (K.may_leave first.kept.keeper)
        (IsFlushed (WasHad J.frames J.base) J.base first.kept.session.told.seen
        start first.kept.reach)) }
    ensures number { IfOk result
        (λ first. first.receipt.number ≡ length first.kept.session.told.seen) }
    ensures reach { IfOk result (λ first. first.receipt.reach ≡ first.kept.reach) }
    ensures usable { IfOk result (λ first. first.kept.has_failed ≡ false) }
    ensures path { IfOk result (λ first. string_bytes first.path ≡ image.entry.now) }
{
    let session = match enter(rt, drive, None, Role::Client) {
        Ok(session) => session,
        Err(refusal) => return Err(ServeFault::Image(Fault::Refused(refusal))),
    };
    // What is kept has seen the start: moments below are no times, as those of a new drive.
    let mut kept = KeptImage::new(keeper, session, start);
    let (receipt, path) = flush_first(rt, alloc, drive, &mut kept, image)?;
    Ok(FirstKept {
        kept,
        receipt,
        path,
    })
}

/// Keeps a drive a first time. Gives the receipt, and the image's path.
fn flush_first<'a, 'b, J: Running, C: serving::Clock, K: Keeper + Explaining, R: Wait>(
    rt: &'b R,
    alloc: Global,
    drive: &'b Mutex<SharedDrive<J, C>>,
    kept: &mut KeptImage<J, K>,
    image: &'a str,
) -> Result<(KeptReceipt<J, K>, String), ServeFault<'a>>
    ensures kept { OnOk result (IsKept (K.may_leave kept.new.keeper)
        (IsFlushed (WasHad J.frames J.base) J.base kept.new.session.told.seen
        kept.old.reach kept.new.reach)) }
    ensures number { IfOk result (λ had. had.0.number ≡ length kept.new.session.told.seen) }
    ensures reach { IfOk result (λ had. had.0.reach ≡ kept.new.reach) }
    ensures usable { OnOk result (kept.new.has_failed ≡ false) }
    ensures path { IfOk result (λ had. string_bytes had.1 ≡ image.entry.now) }
{
    let lock = UnderLock {
        rt,
        drive,
        pace: None,
    };
    let receipt = match kept.flush(alloc, &lock) {
        Ok(receipt) => receipt,
        Err(_) => return Err(ServeFault::Unkept(image, kept.keeper().obstacle())),
    };
    let path = String::from_str(alloc, image)?;
    Ok((receipt, path))
}

/// Waits until the service that began at `start` is to end, and keeps what was accepted, at the
/// drive's own clock. Gives what that flush showed, and who asked for the end.
fn await_end<
    'a,
    J: Serving,
    C: serving::Clock,
    K: Keeper + Explaining + Drop,
    R: Wait + Clock,
    D: Telling,
>(
    rt: &R,
    alloc: Global,
    service: &Service<J, C, K>,
    outside: &D,
    image: &'a str,
    start: Moment,
) -> Result<Ended<EndReceipt<J, K>, StopLine<J>>, ServeFault<'a>>
    requires { start ≡ J.start }
{
    let mut last = Closing {
        flushing: flusher(rt, alloc, service, outside),
        start,
    };
    match service.monitor.end(rt, &mut last) {
        Ok(ended) => Ok(ended),
        Err(_) => Err(ServeFault::NotKept(image, obstacle_of(rt, service))),
    }
}

/// What was in the way of the flush that failed. Nobody flushes any more.
fn obstacle_of<J: Serving, C: serving::Clock, K: Keeper + Explaining>(
    rt: &impl Wait,
    service: &Service<J, C, K>,
) -> KeepObstacle {
    service.kept.lock(rt).keeper().obstacle()
}

/// Opens the inputs of the doors that are asked for.
fn open_inputs<'a, D: Fifos>(
    alloc: Global,
    outside: &D,
    asked: &[s4serve_command::Door<'a>],
) -> Result<Vec<D::Input>, ServeFault<'a>>
    // As many as doors were asked for, each by its folder, in their order.
    ensures inputs { IfOk result
        (λ inputs. AllZip (ReadsDoor D.reads) asked.now inputs.items) }
{
    let mut inputs = Vec::new(alloc);
    for door in asked {
        let input = input_of(alloc, outside, door.folder)?;
        if inputs.push(input).is_err() {
            return Err(ServeFault::NoMemory);
        }
    }
    Ok(inputs)
}

/// The doors that a service was asked to have, each with its role and its folder, in their order.
fn doors_of<J: Serving>(
    alloc: Global,
    asked: &[s4serve_command::Door<'_>],
) -> Result<Vec<Door<J>>, AllocError>
    requires are { J.doors ≡ map asked_door asked.now }
    ensures doors { IfOk result (λ doors. doors.items ≡ J.doors) }
{
    let mut doors = Vec::new(alloc);
    for door in asked {
        add_door::<J>(alloc, &mut doors, *door)?;
    }
    Ok(doors)
}

/// Adds a door to those of a service, which was asked to have it.
fn add_door<J: Serving>(
    alloc: Global,
    doors: &mut Vec<Door<J>>,
    asked: s4serve_command::Door<'_>,
) -> Result<(), AllocError>
    requires { Contains J.doors (asked_door asked) }
    ensures added { OnOk result (doors.new.items ≡ doors.old.items ++ asked_door asked.entry ∷ []) }
    ensures same { OnErr result (doors.new.items ≡ doors.old.items) }
{
    let folder = String::from_str(alloc, asked.folder)?;
    let role = asked.role;
    let door = Door::<J>::new(role, folder);
    doors.push(door)?;
    Ok(())
}

/// Opens the door of this folder.
fn input_of<'a, D: Fifos>(
    alloc: Global,
    outside: &D,
    folder: &'a str,
) -> Result<D::Input, ServeFault<'a>>
    ensures { IfOk result (λ input. D.reads input (door_path folder.entry.now)) }
{
    match open_door(outside, alloc, folder) {
        Ok(input) => Ok(input),
        Err(error) => match error.kind() {
            io::ErrorKind::OutOfMemory => Err(ServeFault::NoMemory),
            kind => Err(ServeFault::Door(folder, DoorObstacle::of(kind))),
        },
    }
}
