//! How a file takes bytes, a length and a sync.
ghost use Rattle.std.specs.Prelude.{◌≡◌, ℕ, ◌+◌, ◌<◌, ◌≤◌, ◌^◌, List, length, true};
ghost use Rattle.std.specs.Prelude.{IfOk, IsTrue, OnErr, OnOk};
ghost use Rattle.log_files.specs.Called.{CallsOnly};
ghost use Rattle.log_files.specs.Contents.{contents};
ghost use Rattle.log_files.specs.Taking.{BreaksOff, Cuts, GoesOn, HasCut, HasWritten, Keeps};
ghost use Rattle.log_files.specs.Taking.{Lasts, Overlays, is_sound, number_of};

use crate::unwritten::Unwritten;
use host_calls::Calls;
use std::io;

/// Why nothing is asked of a file that isn't there, or may not have what was written to it.
fn not_usable() -> io::Error {
    io::Error::other("the log isn't written any more")
}

/// Writes more of these bytes at an offset, of which so many are written, and says how many.
#[tactic(auto, using(crate::proofs::Calling::calls_write))]
fn write_more<C: Calls>(
    calls: &mut C,
    file: &C::File,
    unwritten: &mut Unwritten,
    at: usize,
    bytes: &[u8],
    done: usize,
) -> io::Result<usize>
    requires more { done < length bytes.now }
    requires end { at + length bytes.now < 2 ^ 64 }
    ensures some { IfOk result (λ more. 0 < more) }
    ensures count { IfOk result (λ more. done + more ≤ length bytes.now) }
    ensures written { IfOk result (λ more. GoesOn at done (done + more) bytes.now
        (contents (C.number file.now) unwritten.old.writes (C.history calls.old))
        (contents (C.number file.now) unwritten.new.writes (C.history calls.new))) }
    ensures refused { OnErr result (BreaksOff at done bytes.now
        (contents (C.number file.now) unwritten.old.writes (C.history calls.old))
        (contents (C.number file.now) unwritten.new.writes (C.history calls.new))) }
    ensures calls { CallsOnly (C.number file.now) (C.history calls.old) (C.history calls.new) }
{
    let rest = &bytes[done..];
    match calls.write_at(file, (at + done) as u64, rest) {
        Ok(0) => Err(io::Error::from(io::ErrorKind::WriteZero)),
        Ok(more) => Ok(more),
        Err(error) => {
            unwritten.add(rest);
            Err(error)
        }
    }
}

/// Writes all of these bytes at an offset.
#[tactic(auto, using(crate::proofs::Calling::calls_none, crate::proofs::Writing::overlays_none, crate::proofs::Writing::written_none))]
pub(crate) fn write_all<C: Calls>(
    calls: &mut C,
    file: &Option<C::File>,
    unwritten: &mut Unwritten,
    at: usize,
    bytes: &[u8],
) -> io::Result<()>
    ensures written { OnOk result (HasWritten at (length bytes.now) bytes.now
        (contents (number_of C.number file.now) unwritten.old.writes (C.history calls.old))
        (contents (number_of C.number file.now) unwritten.new.writes (C.history calls.new))) }
    ensures overlays { Overlays at bytes.now
        (contents (number_of C.number file.now) unwritten.old.writes (C.history calls.old))
        (contents (number_of C.number file.now) unwritten.new.writes (C.history calls.new)) }
    ensures calls { CallsOnly (number_of C.number file.now) (C.history calls.old)
        (C.history calls.new) }
{
    let Some(taker) = file else {
        return Err(not_usable());
    };
    if bytes.len() > usize::MAX - at {
        return Err(io::Error::from(io::ErrorKind::FileTooLarge));
    }
    let mut done = 0;
    while done < bytes.len() {
        done += write_more(calls, taker, unwritten, at, bytes, done)?;
    }
    Ok(())
}

/// Gives a file a length.
#[tactic(auto, using(crate::proofs::Calling::calls_none))]
pub(crate) fn cut_at<C: Calls>(calls: &mut C, file: &Option<C::File>, len: usize) -> io::Result<()>
    ensures cuts { (writes : List (List ℕ)) → Cuts len
        (contents (number_of C.number file.now) writes (C.history calls.old))
        (contents (number_of C.number file.now) writes (C.history calls.new)) }
    ensures cut { OnOk result ((writes : List (List ℕ)) → HasCut len
        (contents (number_of C.number file.now) writes (C.history calls.old))
        (contents (number_of C.number file.now) writes (C.history calls.new))) }
    ensures calls { CallsOnly (number_of C.number file.now) (C.history calls.old)
        (C.history calls.new) }
{
    let Some(file) = file else {
        return Err(not_usable());
    };
    calls.set_len(file, len as u64)
}

/// Writes what a file has to the disk. Not where a write has failed: it isn't known what it has.
#[tactic(auto, using(crate::proofs::Calling::calls_none))]
pub(crate) fn sync_now<C: Calls>(
    calls: &mut C,
    file: &Option<C::File>,
    is_torn: bool,
) -> io::Result<()>
    ensures keeps { (writes : List (List ℕ))
        → IsTrue (is_sound true is_torn
        (contents (number_of C.number file.now) writes (C.history calls.old)))
        → Keeps (contents (number_of C.number file.now) writes (C.history calls.old))
        (contents (number_of C.number file.now) writes (C.history calls.new)) }
    ensures lasts { OnOk result ((writes : List (List ℕ))
        → IsTrue (is_sound true is_torn
        (contents (number_of C.number file.now) writes (C.history calls.old)))
        → Lasts is_torn (contents (number_of C.number file.now) writes (C.history calls.old))
        (contents (number_of C.number file.now) writes (C.history calls.new))) }
    ensures calls { CallsOnly (number_of C.number file.now) (C.history calls.old)
        (C.history calls.new) }
{
    let Some(file) = file else {
        return Err(not_usable());
    };
    if is_torn {
        return Err(not_usable());
    }
    calls.sync(file)
}
