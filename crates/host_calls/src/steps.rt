//! What each call leaves of the files that others made.
ghost use Rattle.std.specs.Prelude.{◌≡◌, ◌≢◌, ◌≤◌, ◌+◌, ◌⊎◌, ℕ, List, [], false, length, not};
ghost use Rattle.std.specs.Prelude.{IfErr, IfOk, OnErr, OnOk, is_ok};
ghost use Rattle.std.specs.Prelude.{IsTrue};
ghost use Rattle.host_calls.specs.Events.{Short, refusal_of};
ghost use Rattle.host_calls.specs.Files.{is_locked, made_mode};
ghost use Rattle.host_calls.specs.Replay.{World, folder_path, replay};
ghost use Rattle.host_calls.specs.Worlds.{AddsNone, AddsOnly, GoesOn, HasBytes, HasLasting, IsAt};
ghost use Rattle.host_calls.specs.Worlds.{ChangesOnly, IsSettled, IsWriting, SameAt, SameNames};
ghost use Rattle.host_calls.specs.Worlds.{SamePlaces};

use crate::calls::Calls;
use std::fs::{Permissions, TryLockError};
use std::io;

/// Makes a file at a path where none is.
#[tactic(auto, using(crate::proofs::Effects::at_made, crate::proofs::Effects::file_made, crate::proofs::Effects::others_made, crate::proofs::Effects::mode_made), unfolding(crate::specs::Replay::replay))]
pub fn make_file<C: Calls>(calls: &mut C, path: &str, mode: u32) -> io::Result<C::File>
    ensures at { IfOk result
        (λ f. IsAt (replay (C.history calls.new)) (C.number f) path.now) }
    ensures empty { OnOk result (HasBytes (replay (C.history calls.new)) path.now []) }
    ensures mode { IfOk result (λ f. made_mode (C.number f) (C.history calls.new) ≡ mode) }
    ensures others { (other : List ℕ) → other ≢ path.now
        → SameAt (replay (C.history calls.old)) (replay (C.history calls.new)) other }
    ensures failed { (replay (C.history calls.new)).failed
        ≡ (replay (C.history calls.old)).failed }
{
    calls.make(path, mode)
}

/// Writes more of these bytes, of which so many are written, and says how many. After an error no
/// more are.
#[tactic(auto, using(crate::proofs::Effects::goes_more, crate::proofs::Effects::goes_nowhere, crate::proofs::Effects::written_failed), unfolding(crate::specs::Replay::replay))]
fn write_more<C: Calls>(
    calls: &mut C,
    file: &C::File,
    bytes: &[u8],
    done: usize,
) -> io::Result<usize>
    requires { done ≤ length bytes.now }
    ensures count { IfOk result (λ more. done + more ≤ length bytes.now) }
    ensures written { IfOk result
        (λ more. GoesOn (C.number file.now) done (done + more) bytes.now
        (replay (C.history calls.old)) (replay (C.history calls.new))) }
    ensures unwritten { OnErr result (GoesOn (C.number file.now) done done bytes.now
        (replay (C.history calls.old)) (replay (C.history calls.new))) }
    ensures failed { (replay (C.history calls.new)).failed
        ≡ (replay (C.history calls.old)).failed }
{
    let more = calls.write_at(file, done as u64, &bytes[done..])?;
    Ok(more)
}

/// Writes these bytes from the front of a file on.
fn write_front<C: Calls>(calls: &mut C, file: &C::File, bytes: &[u8]) -> io::Result<()>
    ensures written { OnOk result
        ((path : List ℕ) → IsAt (replay (C.history calls.old)) (C.number file.now) path
        → IsWriting (C.number file.now) (length bytes.now) bytes.now path
        (replay (C.history calls.old)) (replay (C.history calls.new))) }
    ensures at { (path : List ℕ) → IsAt (replay (C.history calls.old)) (C.number file.now) path
        → IsAt (replay (C.history calls.new)) (C.number file.now) path }
    ensures others { (path other : List ℕ)
        → IsAt (replay (C.history calls.old)) (C.number file.now) path → other ≢ path
        → SameAt (replay (C.history calls.old)) (replay (C.history calls.new)) other }
    ensures failed { (replay (C.history calls.new)).failed
        ≡ (replay (C.history calls.old)).failed }
{
    let mut done = 0;
    for _ in 0..u64::MAX {
        if done == bytes.len() {
            return Ok(());
        }
        match write_more(calls, file, bytes, done) {
            Ok(0) => return Err(io::Error::from(io::ErrorKind::WriteZero)),
            Ok(more) => done += more,
            Err(error) if error.kind() == io::ErrorKind::Interrupted => {}
            Err(error) => return Err(error),
        }
    }
    Err(io::Error::from(io::ErrorKind::Interrupted))
}

/// Gives a file a length.
#[tactic(auto, using(crate::proofs::Effects::cut_stays, crate::proofs::Effects::cut_others, crate::proofs::Effects::cut_failed, crate::proofs::Effects::writing_ends), unfolding(crate::specs::Replay::replay))]
fn cut_at<C: Calls>(calls: &mut C, file: &C::File, bytes: &[u8]) -> io::Result<()>
    ensures filled { OnOk result ((path : List ℕ) (start : World)
        → IsWriting (C.number file.now) (length bytes.now) bytes.now path start
        (replay (C.history calls.old))
        → HasBytes (replay (C.history calls.new)) path bytes.now) }
    ensures at { (path : List ℕ) → IsAt (replay (C.history calls.old)) (C.number file.now) path
        → IsAt (replay (C.history calls.new)) (C.number file.now) path }
    ensures others { (path other : List ℕ)
        → IsAt (replay (C.history calls.old)) (C.number file.now) path → other ≢ path
        → SameAt (replay (C.history calls.old)) (replay (C.history calls.new)) other }
    ensures failed { (replay (C.history calls.new)).failed
        ≡ (replay (C.history calls.old)).failed }
{
    calls.set_len(file, bytes.len() as u64)?;
    Ok(())
}

/// Gives a file that was made these bytes, and no others. After an error it may have any.
#[tactic(auto, using(crate::proofs::Effects::same_then))]
pub fn fill_file<C: Calls>(calls: &mut C, file: &C::File, bytes: &[u8]) -> io::Result<()>
    ensures filled { OnOk result
        ((path : List ℕ) → IsAt (replay (C.history calls.old)) (C.number file.now) path
        → HasBytes (replay (C.history calls.new)) path bytes.now) }
    ensures at { (path : List ℕ) → IsAt (replay (C.history calls.old)) (C.number file.now) path
        → IsAt (replay (C.history calls.new)) (C.number file.now) path }
    ensures others { (path other : List ℕ)
        → IsAt (replay (C.history calls.old)) (C.number file.now) path → other ≢ path
        → SameAt (replay (C.history calls.old)) (replay (C.history calls.new)) other }
    ensures failed { (replay (C.history calls.new)).failed
        ≡ (replay (C.history calls.old)).failed }
{
    write_front(calls, file, bytes)?;
    cut_at(calls, file, bytes)?;
    Ok(())
}

/// Writes a piece at an offset, and says how much of it.
#[tactic(auto, using(crate::proofs::Effects::written_only, crate::proofs::Effects::unwritten_only), unfolding(crate::specs::Replay::replay))]
fn write_piece<C: Calls>(
    calls: &mut C,
    file: &C::File,
    at: usize,
    piece: &[u8],
) -> io::Result<usize>
    ensures count { IfOk result (λ more. more ≤ length piece.now) }
    ensures only { ChangesOnly (C.number file.now) (replay (C.history calls.old))
        (replay (C.history calls.new)) }
{
    let more = calls.write_at(file, at as u64, piece)?;
    Ok(more)
}

/// Gives a file that was made this many zeros, of which so many are at hand, so that the disk has
/// room for them then.
#[tactic(auto, using(crate::proofs::Effects::changes_none, crate::proofs::Effects::changes_then))]
pub fn write_zeros<C: Calls>(
    calls: &mut C,
    file: &C::File,
    zeros: &[u8],
    count: usize,
) -> io::Result<()>
    ensures { ChangesOnly (C.number file.now) (replay (C.history calls.old))
        (replay (C.history calls.new)) }
{
    let mut done = 0;
    for _ in 0..u64::MAX {
        if done >= count {
            return Ok(());
        }
        let part = zeros.len().min(count - done);
        match write_piece(calls, file, done, &zeros[..part]) {
            Ok(0) => return Err(io::Error::from(io::ErrorKind::WriteZero)),
            Ok(more) => done = done.saturating_add(more),
            Err(error) if error.kind() == io::ErrorKind::Interrupted => {}
            Err(error) => return Err(error),
        }
    }
    Err(io::Error::from(io::ErrorKind::Interrupted))
}

/// Writes all bytes of a file that was made to the disk.
#[tactic(auto, using(crate::proofs::Effects::sync_adds, crate::proofs::Effects::sync_place, crate::proofs::Effects::sync_failed, crate::proofs::Effects::sync_settles), unfolding(crate::specs::Replay::replay))]
pub fn sync_file<C: Calls>(calls: &mut C, file: &C::File) -> io::Result<()>
    // After a sync that failed nothing is known to last.
    ensures lasting { OnOk result ((replay (C.history calls.old)).failed ≡ false
        → (path bytes : List ℕ) → IsAt (replay (C.history calls.old)) (C.number file.now) path
        → HasBytes (replay (C.history calls.old)) path bytes
        → HasLasting (replay (C.history calls.new)) path bytes) }
    ensures places { SamePlaces (replay (C.history calls.old)) (replay (C.history calls.new)) }
    ensures kept { (path bytes : List ℕ) → HasBytes (replay (C.history calls.old)) path bytes
        → HasBytes (replay (C.history calls.new)) path bytes }
    ensures names { (path : List ℕ) → IsSettled ((replay (C.history calls.old)).named path)
        ((replay (C.history calls.new)).named path) }
    ensures crash { AddsNone C.was (replay (C.history calls.old)) (replay (C.history calls.new)) }
    ensures failed { (replay (C.history calls.old)).failed ≡ false
        → (replay (C.history calls.new)).failed ≡ not (is_ok result) }
{
    calls.sync(file)?;
    Ok(())
}

/// Gives what is at a path another one, in place of what is there.
#[tactic(auto, using(crate::proofs::Effects::rename_adds, crate::proofs::Effects::rename_failed, crate::proofs::Effects::rename_names, crate::proofs::Effects::rename_others), unfolding(crate::specs::Replay::replay))]
pub fn rename_file<C: Calls>(calls: &mut C, from: &str, to: &str) -> io::Result<()>
    ensures named { OnOk result ((replay (C.history calls.new)).named to.now
        ≡ (replay (C.history calls.old)).named from.now) }
    ensures refused { OnErr result
        (SameNames (replay (C.history calls.old)) (replay (C.history calls.new))) }
    ensures places { OnErr result
        (SamePlaces (replay (C.history calls.old)) (replay (C.history calls.new))) }
    ensures others { (other : List ℕ) → other ≢ from.now → other ≢ to.now
        → SameAt (replay (C.history calls.old)) (replay (C.history calls.new)) other }
    ensures crash { AddsOnly C.was ((replay (C.history calls.old)).named from.now)
        (replay (C.history calls.old)) (replay (C.history calls.new)) }
    ensures short { IfErr result (λ e. refusal_of e ≡ Short
        → AddsNone C.was (replay (C.history calls.old)) (replay (C.history calls.new))) }
    ensures failed { (replay (C.history calls.new)).failed
        ≡ (replay (C.history calls.old)).failed }
{
    calls.rename(from, to)?;
    Ok(())
}

/// Writes the names of a folder to the disk, where its file system does that for a folder.
#[tactic(auto, using(crate::proofs::Effects::folder_adds, crate::proofs::Effects::folder_named, crate::proofs::Effects::folder_lasts, crate::proofs::Effects::folder_failed), unfolding(crate::specs::Replay::replay))]
pub fn sync_names<C: Calls>(calls: &mut C, folder: &C::Folder) -> io::Result<()>
    ensures lasting { OnOk result ((replay (C.history calls.old)).failed ≡ false
        → (path : List ℕ) → C.place folder.now ≡ folder_path path
        → (replay (C.history calls.new)).others path ≡ []) }
    ensures names { SameNames (replay (C.history calls.old)) (replay (C.history calls.new)) }
    ensures crash { AddsNone C.was (replay (C.history calls.old)) (replay (C.history calls.new)) }
    ensures failed { (replay (C.history calls.old)).failed ≡ false
        → (replay (C.history calls.new)).failed ≡ not (is_ok result) }
{
    match calls.sync_folder(folder) {
        Ok(()) => Ok(()),
        Err(error) if error.kind() == io::ErrorKind::InvalidInput => Ok(()),
        Err(error) => Err(error),
    }
}

/// Gives what is at a path another one as well, at which nothing is.
#[tactic(auto, using(crate::proofs::Effects::link_adds, crate::proofs::Effects::link_from, crate::proofs::Effects::link_names, crate::proofs::Effects::link_others, crate::proofs::Effects::link_failed), unfolding(crate::specs::Replay::replay))]
pub fn link_file<C: Calls>(calls: &mut C, from: &str, to: &str) -> io::Result<()>
    ensures named { OnOk result ((replay (C.history calls.new)).named to.now
        ≡ (replay (C.history calls.old)).named from.now) }
    ensures from { (replay (C.history calls.new)).named from.now
        ≡ (replay (C.history calls.old)).named from.now }
    ensures others { (other : List ℕ) → other ≢ to.now
        → SameAt (replay (C.history calls.old)) (replay (C.history calls.new)) other }
    ensures crash { AddsOnly C.was ((replay (C.history calls.old)).named from.now)
        (replay (C.history calls.old)) (replay (C.history calls.new)) }
    ensures failed { (replay (C.history calls.new)).failed
        ≡ (replay (C.history calls.old)).failed }
{
    calls.link(from, to)?;
    Ok(())
}

/// Removes what is at a path.
#[tactic(auto, using(crate::proofs::Effects::remove_adds, crate::proofs::Effects::remove_others, crate::proofs::Effects::remove_failed), unfolding(crate::specs::Replay::replay))]
pub fn remove_file<C: Calls>(calls: &mut C, path: &str) -> io::Result<()>
    ensures others { (other : List ℕ) → other ≢ path.now
        → SameAt (replay (C.history calls.old)) (replay (C.history calls.new)) other }
    ensures crash { AddsNone C.was (replay (C.history calls.old)) (replay (C.history calls.new)) }
    ensures failed { (replay (C.history calls.new)).failed
        ≡ (replay (C.history calls.old)).failed }
{
    calls.remove(path)
}

/// Locks a file that was made, unless another program has.
#[tactic(auto, using(crate::proofs::Effects::mode_stays), unfolding(crate::specs::Replay::replay))]
pub fn lock_file<C: Calls>(calls: &mut C, file: &C::File) -> Result<(), TryLockError>
    ensures locked { OnOk result
        (IsTrue (is_locked (C.number file.now) (C.history calls.new))) }
    ensures same { replay (C.history calls.new) ≡ replay (C.history calls.old) }
    ensures modes { (number : ℕ)
        → made_mode number (C.history calls.new) ≡ made_mode number (C.history calls.old) }
{
    calls.try_lock(file)
}

/// Gives a file this owner and this group.
#[tactic(auto, unfolding(crate::specs::Replay::replay))]
pub fn give_file<C: Calls>(calls: &mut C, file: &C::File, owner: u32, group: u32) -> io::Result<()>
    ensures { replay (C.history calls.new) ≡ replay (C.history calls.old) }
{
    calls.set_owner(file, owner, group)
}

/// Gives a file this mode.
#[tactic(auto, unfolding(crate::specs::Replay::replay))]
pub fn set_file_mode<C: Calls>(calls: &mut C, file: &C::File, mode: Permissions) -> io::Result<()>
    ensures { replay (C.history calls.new) ≡ replay (C.history calls.old) }
{
    calls.set_mode(file, mode)
}
