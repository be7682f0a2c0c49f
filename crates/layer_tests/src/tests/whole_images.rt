//! Each call of a folder fails in turn, and each outcome of a crash is looked at.
use image_keeping::{FolderError, KeepError, Keeper, MemoryFolder, WholeImage};
use std::alloc::{AllocError, Global};
use std::test::Fail;

/// What keeping `new` in place of `old` answers where the call after this number of others fails
/// so, and how many outcomes a crash then has.
fn kept(
    alloc: Global,
    calls: u64,
    error: FolderError,
) -> Result<(Result<(), KeepError>, usize), AllocError> {
    let folder = MemoryFolder::new(alloc, b"old", calls, error)?;
    let mut keeper = WholeImage::new(folder);
    let answer = keeper.keep(b"new");
    let outcomes = keeper.folder().earlier().len() + 1;
    drop(keeper);
    Ok((answer, outcomes))
}

/// The answers where one of six calls finds no room.
const WITHOUT_ROOM: [Result<(), KeepError>; 6] = [
    Err(KeepError::Short),
    Err(KeepError::Failed),
    Err(KeepError::Short),
    Err(KeepError::Short),
    Err(KeepError::Failed),
    Ok(()),
];

/// How many outcomes a crash has where one of them fails.
const OUTCOMES: [usize; 6] = [1, 1, 1, 2, 2, 1];

#[test]
fn each_call_fails_in_turn(rt: HostRuntime) -> Result<(), Fail> {
    for calls in 0..6 {
        let (answer, _) = kept(rt.alloc(), calls as u64, FolderError::NoRoom)?;
        assert!(rt; answer == WITHOUT_ROOM[calls], "no room after {calls}");
        let (answer, outcomes) = kept(rt.alloc(), calls as u64, FolderError::Failed)?;
        let is_so = answer.is_ok() == (calls == 5) && outcomes == OUTCOMES[calls];
        assert!(rt; is_so, "failed after {calls}");
    }
    Ok(())
}

/// Whether two images are kept one after the other, and the second is there then, and how many
/// other outcomes a crash has.
fn kept_twice(alloc: Global) -> Result<(bool, usize), AllocError> {
    let folder = MemoryFolder::new(alloc, b"", u64::MAX, FolderError::Failed)?;
    let mut keeper = WholeImage::new(folder);
    let are_kept = keeper.keep(b"one").is_ok() && keeper.keep(b"two").is_ok();
    let is_there = keeper.folder().named() == b"two".as_slice();
    let others = keeper.folder().earlier().len();
    drop(keeper);
    Ok((are_kept && is_there, others))
}

#[test]
fn the_image_is_kept(rt: HostRuntime) -> Result<(), Fail> {
    let (is_kept, others) = kept_twice(rt.alloc())?;
    assert!(rt; is_kept);
    assert!(rt; others == 0);
    Ok(())
}
