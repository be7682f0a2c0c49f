//! What services left beside an image, and where no service begins for that.
ghost use Rattle.std.specs.Prelude.{◌≡◌, ◌+◌, ℕ, List, [], Option, IfErr, IfOk, OnOk};
ghost use Rattle.std.specs.List.{All};
ghost use Rattle.image_commands.specs.Files.{AreKnown};
ghost use Rattle.image_commands.specs.Leaving.{AreAllSpent, AreNoImages, IsKeptWhereWhole};
ghost use Rattle.image_commands.specs.Leaving.{IsLeftFor, NamesWhole};
ghost use Rattle.image_commands.specs.declared.beside.TheConstants.{MOST_LEFT};
ghost use Rattle.s4serve.specs.Leaving.{NamesLater, NamesLeft};

use crate::faults::ServeFault;
use image_commands::{
    Fault, Files, LeftFault, Obstacle, claim_empty, refuse_whole, remove_leftovers, spent_leftovers,
};
use s4_types::Moment;
use std::alloc::Global;
use std::thread::Threads;

/// A fault where no image can be made at a path: what is there has bytes, or can't be claimed; or a
/// whole one that a service left lies beside it, or one that can't be opened or read. A new one
/// would hide that.
pub fn refuse_making<'a, T: Threads, F: Files>(
    rt: &T,
    alloc: Global,
    files: &F,
    image: &'a str,
) -> Result<(), ServeFault<'a>>
    ensures empty { OnOk result (AreKnown (F.contents files.now image.entry.now) []) }
    ensures none { OnOk result
        (AreNoImages MOST_LEFT (F.lies files.now image.entry.now) (F.contents files.now)) }
    ensures left { IfErr result (NamesLeft (F.contents files.now)) }
{
    let claim = match claim_empty(alloc, files, image) {
        Ok(claim) => claim,
        Err(fault) => return Err(ServeFault::Image(fault)),
    };
    match refuse_beside(rt, alloc, files, claim) {
        Ok(()) => Ok(()),
        Err(LeftFault::NoMemory) => Err(ServeFault::NoMemory),
        Err(LeftFault::Unread(path, obstacle)) => Err(unread_left(image, path, obstacle)),
        Err(fault) => Err(ServeFault::LeftBeside(image, fault)),
    }
}

// The fault of a service beside whose image a file lies that can't be opened or read.
fn unread_left<'a>(image: &'a str, path: String, obstacle: Obstacle) -> ServeFault<'a>
    ensures { result ≡ ServeFault.LeftUnread image.entry (LeftFault.Unread path obstacle) }
{
    ServeFault::LeftUnread(image, LeftFault::Unread(path, obstacle))
}

/// Why an image isn't read: where it isn't there, and a whole one that a service left lies beside
/// its path, or one that can't be opened or read, that is named.
pub fn unread_beside<'a, T: Threads, F: Files>(
    rt: &T,
    alloc: Global,
    files: &F,
    image: &'a str,
    fault: Fault<'a>,
) -> ServeFault<'a>
    ensures left { NamesLeft (F.contents files.now) result }
{
    match fault {
        Fault::CannotRead(_, Obstacle::NotThere) => match refuse_left(rt, alloc, files, image) {
            Err(LeftFault::Whole(path)) => ServeFault::Gone(image, LeftFault::Whole(path)),
            Err(LeftFault::Unread(path, obstacle)) => unread_left(image, path, obstacle),
            _ => ServeFault::Image(fault),
        },
        fault => ServeFault::Image(fault),
    }
}

// A fault where a path has no image with bytes, and a whole one that a service left lies beside it,
// or one that can't be opened or read.
fn refuse_left<T: Threads, F: Files>(
    rt: &T,
    alloc: Global,
    files: &F,
    path: &str,
) -> Result<(), LeftFault>
    ensures left { IfErr result (NamesWhole 0 (F.contents files.now)) }
{
    match claim_empty(alloc, files, path) {
        Ok(claim) => refuse_beside(rt, alloc, files, claim),
        Err(fault) => {
            drop(fault);
            Ok(())
        }
    }
}

// A fault where a whole image that a service left lies beside a claimed path, or one that can't be
// opened or read.
fn refuse_beside<T: Threads, F: Files>(
    rt: &T,
    alloc: Global,
    files: &F,
    claim: F::Claim,
) -> Result<(), LeftFault>
    ensures none { OnOk result
        ((path : List ℕ) → F.leads claim path
        → AreNoImages MOST_LEFT (F.lies files.now path) (F.contents files.now)) }
    ensures left { IfErr result (NamesWhole 0 (F.contents files.now)) }
{
    let of_service = files.keep_on(claim);
    let refused = refuse_whole(rt, alloc, files, &of_service);
    drop(of_service);
    refused
}

/// Removes what commands left beside a claimed image and is none. Gives the claim of a service, and
/// what others left: it can be removed once the drive is kept. A fault where an image with a later
/// clock than the claimed one's lies beside it, or a file that can't be opened or read.
pub fn claim_left<'a, T: Threads, F: Files>(
    rt: &T,
    alloc: Global,
    files: &mut F,
    image: &'a str,
    claim: F::Claim,
    clock: Moment,
) -> Result<(F::Claim, Vec<F::Leftover>), ServeFault<'a>>
    ensures claimed { IfOk result
        (λ had. (path : List ℕ) → F.leads claim path → F.leads had.0 path) }
    ensures left { IfOk result
        (λ had. All (IsLeftFor F.is_left F.is_part (F.contents files.new) had.0 clock)
        had.1.items) }
    // What is none of them doesn't lie there.
    ensures all { IfOk result
        (λ had. (path : List ℕ) → F.leads claim path
        → AreAllSpent MOST_LEFT (F.lies files.new path) F.is_left (F.contents files.new) clock
        had.1.items) }
    ensures kept { (path : List ℕ)
        → IsKeptWhereWhole (F.contents files.old path) (F.contents files.new path) }
    ensures later { IfErr result (NamesLater clock (F.contents files.new)) }
{
    remove_leftovers(rt, alloc, files, &claim);
    let claim = files.keep_on(claim);
    match spent_leftovers(rt, alloc, files, &claim, clock) {
        Ok(left) => Ok((claim, left)),
        Err(fault) => {
            drop(claim);
            Err(later(image, fault))
        }
    }
}

// The fault of a service over an image beside which a later one lies, or one that isn't known.
fn later<'a>(image: &'a str, fault: LeftFault) -> ServeFault<'a>
    ensures { (clock : ℕ) (files : List ℕ → Option (List ℕ)) → NamesWhole (clock + 1) files fault
        → NamesLater clock files result }
{
    match fault {
        LeftFault::NoMemory => ServeFault::NoMemory,
        LeftFault::Unread(path, obstacle) => unread_left(image, path, obstacle),
        fault => ServeFault::Later(image, fault),
    }
}
