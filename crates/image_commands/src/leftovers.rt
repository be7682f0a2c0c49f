//! Files that a program which was killed left beside an image, or a service that couldn't put one
//! in its place.
ghost use Rattle.std.specs.Prelude.{◌≡◌, ◌+◌, ◌<◌, ◌++◌, ◌∷◌, ℕ, true, false, List, [], IfErr};
ghost use Rattle.std.specs.Prelude.{IfOk, IfSome, IsTrue, OnOk};
ghost use Rattle.std.specs.List.{All};
ghost use Rattle.std.specs.Io.KnownBytes.{Keeps};
ghost use Rattle.image_commands.specs.Leaving.{AreAllSpent, AreNoImages, HasClock, IsAllThere};
ghost use Rattle.image_commands.specs.Leaving.{IsKeptWhereWhole, IsLeftFor, IsNoImage, IsSpent};
ghost use Rattle.image_commands.specs.Leaving.{NamesWhole, is_spent};
ghost use Rattle.image_commands.specs.declared.beside.TheConstants.{MOST_BESIDE, MOST_LEFT};

use crate::beside::{MOST_BESIDE, MOST_LEFT};
use crate::files::Files;
use crate::obstacles::Obstacle;
use crate::verifying::{clock_in, is_damaged};
use s4_types::Moment;
use std::alloc::Global;
use std::thread::Threads;
use thiserror::Error;

/// Why no service begins over what lies beside an image. Each prints what is so.
#[derive(Debug, Drop, Error)]
pub enum LeftFault {
    /// The file of this path has an image that may be the only one with what sessions changed.
    #[error("a whole image that a service left is in {0}")]
    Whole(String),
    /// What the file of this path has isn't known, and why.
    #[error("cannot read {0}, which a service left: {1}")]
    Unread(String, Obstacle),
    #[error("NoMemory")]
    NoMemory,
}

/// Removes the files that were left beside a claimed image, that no program has and that are no
/// images. One that is an image stays: it may be the only one that has what its sessions changed.
pub fn remove_leftovers<T: Threads, F: Files>(
    rt: &T,
    alloc: Global,
    files: &mut F,
    claim: &F::Claim,
)
    ensures others { (path : List ℕ)
        → F.reserves claim.now path ≡ false
        → Keeps (F.contents files.old path) (F.contents files.new path) }
    ensures whole { (path : List ℕ)
        → IsKeptWhereWhole (F.contents files.old path) (F.contents files.new path) }
{
    for number in 0..MOST_BESIDE {
        remove_leftover(rt, alloc, files, claim, number);
    }
}

// Removes the one of this number.
fn remove_leftover<T: Threads, F: Files>(
    rt: &T,
    alloc: Global,
    files: &mut F,
    claim: &F::Claim,
    number: u32,
)
    ensures others { (path : List ℕ)
        → F.reserves claim.now path ≡ false
        → Keeps (F.contents files.old path) (F.contents files.new path) }
    ensures whole { (path : List ℕ)
        → IsKeptWhereWhole (F.contents files.old path) (F.contents files.new path) }
{
    // What can't be opened may be an image, and stays.
    let Ok(Some(leftover)) = files.leftover(alloc, claim, number) else {
        return;
    };
    if is_no_image(rt, alloc, files, &leftover) {
        files.remove_leftover(leftover);
    }
}

// Whether a leftover was read, and is no image.
fn is_no_image<T: Threads, F: Files>(
    rt: &T,
    alloc: Global,
    files: &F,
    leftover: &F::Leftover,
) -> bool
    ensures damaged { IsTrue result → (path : List ℕ)
        → F.is_left leftover.now path ≡ true → IsNoImage (F.contents files.now path) }
{
    match files.open_leftover(leftover) {
        Ok(mut reader) => is_damaged(rt, alloc, &mut reader),
        Err(_) => false,
    }
}

/// Whether nothing is lost with a file that was left beside an image with this clock. The file has
/// a clock where it is an image.
pub fn is_spent(left: Option<Moment>, image: Moment) -> bool
    ensures { result ≡ is_spent left image }
{
    match left {
        None => true,
        Some(clock) => clock <= image,
    }
}

/// The files that services left beside a claimed image with this clock, and with which nothing is
/// lost: they may be removed once the image's drive is kept. No other program has them while they
/// are kept.
///
/// A fault where a whole one has a later clock: what it has may have been acknowledged, and the
/// image doesn't have it. Another one where what is there can't be opened or read.
pub fn spent_leftovers<T: Threads, F: Files>(
    rt: &T,
    alloc: Global,
    files: &F,
    claim: &F::Claim,
    clock: Moment,
) -> Result<Vec<F::Leftover>, LeftFault>
    ensures spent { IfOk result
        (λ spent. All (IsLeftFor F.is_left F.is_part (F.contents files.now) claim.now clock)
        spent.items) }
    // What is none of them doesn't lie there.
    ensures all { IfOk result
        (λ spent. (image : List ℕ) → F.serves claim.now image
        → AreAllSpent MOST_LEFT (F.lies files.now image) F.is_left (F.contents files.now) clock
        spent.items) }
    ensures later { IfErr result (NamesWhole (clock + 1) (F.contents files.now)) }
{
    let mut spent = Vec::new(alloc);
    match add_spent(rt, alloc, files, claim, clock, &mut spent) {
        Ok(()) => Ok(spent),
        Err(fault) => Err(fault),
    }
}

// Adds them.
fn add_spent<T: Threads, F: Files>(
    rt: &T,
    alloc: Global,
    files: &F,
    claim: &F::Claim,
    clock: Moment,
    spent: &mut Vec<F::Leftover>,
) -> Result<(), LeftFault>
    requires { spent.old.items ≡ [] }
    ensures spent { OnOk result
        (All (IsLeftFor F.is_left F.is_part (F.contents files.now) claim.now clock)
        spent.new.items) }
    ensures all { OnOk result
        ((image : List ℕ) → F.serves claim.now image
        → AreAllSpent MOST_LEFT (F.lies files.now image) F.is_left (F.contents files.now) clock
        spent.new.items) }
    ensures later { IfErr result (NamesWhole (clock + 1) (F.contents files.now)) }
{
    for number in 0..MOST_LEFT {
        add_numbered(rt, alloc, files, claim, clock, number, spent)?;
    }
    Ok(())
}

// Adds the one of this number.
fn add_numbered<T: Threads, F: Files>(
    rt: &T,
    alloc: Global,
    files: &F,
    claim: &F::Claim,
    clock: Moment,
    number: u32,
    spent: &mut Vec<F::Leftover>,
) -> Result<(), LeftFault>
    ensures spent { OnOk result
        (All (IsLeftFor F.is_left F.is_part (F.contents files.now) claim.now clock)
        spent.old.items
        → All (IsLeftFor F.is_left F.is_part (F.contents files.now) claim.now clock)
        spent.new.items) }
    ensures all { OnOk result
        ((image : List ℕ) → F.serves claim.now image
        → AreAllSpent number (F.lies files.now image) F.is_left (F.contents files.now) clock
        spent.old.items
        → AreAllSpent (number + 1) (F.lies files.now image) F.is_left (F.contents files.now) clock
        spent.new.items) }
    ensures later { IfErr result (NamesWhole (clock + 1) (F.contents files.now)) }
{
    match numbered_spent(rt, alloc, files, claim, clock, number) {
        Ok(Some(leftover)) => push_left(spent, leftover),
        Ok(None) => Ok(()),
        Err(fault) => Err(fault),
    }
}

// Adds one.
fn push_left<L: Drop>(left: &mut Vec<L>, one: L) -> Result<(), LeftFault>
    ensures ok { OnOk result (left.new.items ≡ left.old.items ++ one ∷ []) }
    ensures fault { IfErr result (λ fault. fault ≡ LeftFault.NoMemory) }
{
    match left.push(one) {
        Ok(()) => Ok(()),
        Err(_) => Err(LeftFault::NoMemory),
    }
}

// The one of this number.
fn numbered_spent<T: Threads, F: Files>(
    rt: &T,
    alloc: Global,
    files: &F,
    claim: &F::Claim,
    clock: Moment,
    number: u32,
) -> Result<Option<F::Leftover>, LeftFault>
    ensures spent { IfOk result
        (λ spent. IfSome spent
        (IsLeftFor F.is_left F.is_part (F.contents files.now) claim.now clock)) }
    ensures all { IfOk result
        (λ spent. (image : List ℕ) → F.serves claim.now image
        → IsAllThere F.is_left (F.lies files.now image number) spent) }
    ensures whole { number < MOST_BESIDE → IfOk result
        (λ spent. IfSome spent (λ left. (path : List ℕ) → F.is_left left path ≡ true
        → IsSpent clock (F.contents files.now path))) }
    ensures later { IfErr result (NamesWhole (clock + 1) (F.contents files.now)) }
{
    match files.leftover(alloc, claim, number) {
        // A service that was killed while it wrote it had acknowledged nothing of it.
        Ok(Some(leftover)) if number >= MOST_BESIDE => Ok(Some(leftover)),
        Ok(Some(leftover)) => match spent_leftover(rt, alloc, files, leftover, clock) {
            Ok(leftover) => Ok(Some(leftover)),
            Err(fault) => Err(fault),
        },
        Ok(None) => Ok(None),
        Err(unopened) => Err(unopened),
    }
}

// A leftover with which nothing is lost beside an image with this clock.
fn spent_leftover<T: Threads, F: Files>(
    rt: &T,
    alloc: Global,
    files: &F,
    leftover: F::Leftover,
    clock: Moment,
) -> Result<F::Leftover, LeftFault>
    ensures same { IfOk result (λ left. left ≡ leftover) }
    ensures spent { IfOk result
        (λ left. (path : List ℕ) → F.is_left left path ≡ true
        → IsSpent clock (F.contents files.now path)) }
    ensures later { IfErr result (NamesWhole (clock + 1) (F.contents files.now)) }
{
    match clock_of_left(rt, alloc, files, &leftover) {
        Ok(left) => match is_spent(left, clock) {
            true => Ok(leftover),
            false => Err(LeftFault::Whole(files.leftover_path(leftover))),
        },
        Err(obstacle) => Err(LeftFault::Unread(files.leftover_path(leftover), obstacle)),
    }
}

// The clock of an image that was left; none where it is none.
fn clock_of_left<T: Threads, F: Files>(
    rt: &T,
    alloc: Global,
    files: &F,
    leftover: &F::Leftover,
) -> Result<Option<Moment>, Obstacle>
    ensures clock { IfOk result
        (λ clock. (path : List ℕ) → F.is_left leftover.now path ≡ true
        → HasClock (F.contents files.now path) clock) }
{
    match files.open_leftover(leftover) {
        Ok(mut reader) => clock_in(rt, alloc, &mut reader),
        Err(error) => Err(Obstacle::of_reading(error.kind())),
    }
}

/// A fault where a whole image that a service left, and that no program has, lies beside a claimed
/// path: an image that was made there would hide it. Another one where what is there can't be
/// opened or read.
pub fn refuse_whole<T: Threads, F: Files>(
    rt: &T,
    alloc: Global,
    files: &F,
    claim: &F::Claim,
) -> Result<(), LeftFault>
    ensures none { OnOk result
        ((image : List ℕ) → F.serves claim.now image
        → AreNoImages MOST_LEFT (F.lies files.now image) (F.contents files.now)) }
    ensures whole { IfErr result (NamesWhole 0 (F.contents files.now)) }
{
    for number in 0..MOST_LEFT {
        refuse_numbered(rt, alloc, files, claim, number)?;
    }
    Ok(())
}

// A fault where the one of this number is whole, or can't be opened or read.
fn refuse_numbered<T: Threads, F: Files>(
    rt: &T,
    alloc: Global,
    files: &F,
    claim: &F::Claim,
    number: u32,
) -> Result<(), LeftFault>
    ensures none { OnOk result
        ((image path : List ℕ) → F.serves claim.now image → F.lies files.now image number path
        → IsNoImage (F.contents files.now path)) }
    ensures whole { IfErr result (NamesWhole 0 (F.contents files.now)) }
{
    match files.leftover(alloc, claim, number) {
        Ok(Some(leftover)) => refuse_leftover(rt, alloc, files, leftover),
        Ok(None) => Ok(()),
        Err(unread) => Err(unread),
    }
}

// A fault where a leftover is whole, or can't be read.
fn refuse_leftover<T: Threads, F: Files>(
    rt: &T,
    alloc: Global,
    files: &F,
    leftover: F::Leftover,
) -> Result<(), LeftFault>
    ensures none { OnOk result
        ((path : List ℕ) → F.is_left leftover path ≡ true
        → IsNoImage (F.contents files.now path)) }
    ensures whole { IfErr result (NamesWhole 0 (F.contents files.now)) }
{
    match clock_of_left(rt, alloc, files, &leftover) {
        Ok(None) => {
            drop(leftover);
            Ok(())
        }
        Ok(Some(_)) => Err(LeftFault::Whole(files.leftover_path(leftover))),
        Err(obstacle) => Err(LeftFault::Unread(files.leftover_path(leftover), obstacle)),
    }
}
