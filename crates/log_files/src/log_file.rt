//! The file of a log, as a disk.
ghost use Rattle.std.specs.Prelude.{◌≡◌, ◌≢◌, ◌||◌, ◌∷◌, ℕ, List, None, IsErr, IsTrue, OnErr, OnOk};
ghost use Rattle.std.specs.Prelude.{true, false};
ghost use Rattle.host_calls.specs.Events.{Made};
ghost use Rattle.host_calls.specs.Files.{made_mode};
ghost use Rattle.host_calls.specs.Replay.{replay};
ghost use Rattle.host_calls.specs.Worlds.{IsAt, SameAt};
ghost use Rattle.log_files.specs.Contents.{contents, made};
ghost use Rattle.log_files.specs.Taking.{is_sound, number_of};

use crate::counting::count;
use crate::taking::{cut_at, sync_now, write_all};
use crate::unwritten::Unwritten;
use host_calls::Calls;
use sqlite_disk::{Disk, Tally};
use std::io;

/// The file of a log, over these calls. It is written, and never read.
pub struct LogFile<C: Calls> {
    calls: C,
    /// The file, once one was made.
    file: Option<C::File>,
    unwritten: Unwritten,
    /// Whether more may be asked of it.
    is_usable: bool,
    /// Whether a write has failed, or a change of the length.
    is_torn: bool,
    faults: u64,
    tally: Tally,
    ghost sound: { IsTrue (is_sound is_usable is_torn
        (contents (number_of C.number file) unwritten.writes (C.history calls))) },
}

// Written by hand, so that an owner lets it go by one call.
impl<C: Calls + Drop> Drop for LogFile<C> {
    fn drop(self) {
        let LogFile {
            calls: _,
            file: _,
            unwritten: _,
            is_usable: _,
            is_torn: _,
            faults: _,
            tally: _,
        } = self;
    }
}

impl<C: Calls> LogFile<C> {
    /// No file yet: each call fails.
    pub fn new(calls: C) -> Self
        ensures calls { result.calls ≡ calls }
        ensures none { result.file ≡ None }
        ensures unusable { result.is_usable ≡ false }
    {
        LogFile {
            calls,
            file: None,
            unwritten: Unwritten::new(),
            is_usable: false,
            is_torn: false,
            faults: 0,
            tally: Tally {
                caught: 0,
                refused: 0,
            },
        }
    }

    /// Makes an empty file with this mode at a path where none is, which is the log's file from then
    /// on. After an error the one before still is.
    pub fn make(&mut self, path: &str, mode: u32) -> io::Result<()>
        ensures usable { OnOk result (self.new.is_usable ≡ true) }
        ensures empty { OnOk result (contents (number_of C.number self.new.file)
            self.new.unwritten.writes (C.history self.new.calls) ≡ made) }
        ensures mode { OnOk result (made_mode (number_of C.number self.new.file)
            (C.history self.new.calls) ≡ mode) }
        ensures at { OnOk result (IsAt (replay (C.history self.new.calls))
            (number_of C.number self.new.file) path.now) }
        ensures others { (other : List ℕ) → other ≢ path.now
            → SameAt (replay (C.history self.old.calls)) (replay (C.history self.new.calls))
            other }
        ensures failed { (replay (C.history self.new.calls)).failed
            ≡ (replay (C.history self.old.calls)).failed }
        ensures made { OnOk result (C.history self.new.calls ≡ Made path.now mode
            (number_of C.number self.new.file) true ∷ C.history self.old.calls) }
        ensures unmade { OnErr result (C.history self.new.calls ≡ Made path.now mode 0 false
            ∷ C.history self.old.calls) }
        ensures before { OnErr result ((self.new.file ≡ self.old.file)
            × (self.new.is_usable ≡ self.old.is_usable)
            × (contents (number_of C.number self.old.file) self.new.unwritten.writes
            (C.history self.new.calls) ≡ contents (number_of C.number self.old.file)
            self.old.unwritten.writes (C.history self.old.calls))) }
    {
        let file = self.calls.make(path, mode)?;
        self.file = Some(file);
        self.is_usable = true;
        self.is_torn = false;
        Ok(())
    }
}

/// One or the other.
fn either(one: bool, other: bool) -> bool
    ensures { result ≡ (one || other) }
{
    one || other
}

/// What a read is answered by, since the file is only written.
fn not_read<T>() -> io::Result<T>
    ensures { IsErr result }
{
    Err(io::Error::from(io::ErrorKind::Unsupported))
}

impl<C: Calls> Disk for LogFile<C> {
    ghost use Rattle.std.specs.Prelude.{refl, true};
    ghost use Rattle.log_files.specs.Contents.{Leaves};
    ghost use Rattle.log_files.specs.Staying.{seen_stays};

    ghost seen = { λ f. (contents (number_of C.number f.file) f.unwritten.writes
        (C.history f.calls)).seen };

    ghost may_leave = { λ f. Leaves (contents (number_of C.number f.file) f.unwritten.writes
        (C.history f.calls)) };

    ghost is_usable = { λ f. f.is_usable };

    ghost faults = { λ f. f.faults };

    ghost tally_of = { λ f. f.tally };

    // Nothing is read, so no wrong answer is taken.
    ghost is_clean = { λ _. true };

    ghost key_of = { λ _. 0 };

    ghost is_fair = { λ _ _. true };

    ghost is_mixing = { λ _. true };

    ghost seen_may_stay = { λ f. seen_stays (contents (number_of C.number f.file)
        f.unwritten.writes (C.history f.calls)) };

    ghost fair_if_clean = { λ _ _ _. refl };

    fn mixes(&self) -> bool {
        true
    }

    fn key(&self) -> u64 {
        0
    }

    fn tally(&self) -> Tally {
        self.tally
    }

    fn may_be_used(&self) -> bool {
        self.is_usable
    }

    fn len(&mut self) -> io::Result<usize> {
        count(&mut self.faults, &mut 0, not_read())
    }

    fn read_at(&mut self, _at: usize, _buf: &mut [u8]) -> io::Result<()> {
        count(&mut self.faults, &mut 0, not_read())
    }

    fn read_checked(&mut self, _: u64, _: u64, _: usize, _: &mut [u8]) -> io::Result<()> {
        count(&mut self.faults, &mut 0, not_read())
    }

    fn write_at(&mut self, at: usize, bytes: &[u8]) -> io::Result<()> {
        let outcome = write_all(&mut self.calls, &self.file, &mut self.unwritten, at, bytes);
        self.is_torn = either(self.is_torn, outcome.is_err());
        count(&mut self.faults, &mut self.tally.refused, outcome)
    }

    fn set_len(&mut self, len: usize) -> io::Result<()> {
        let outcome = cut_at(&mut self.calls, &self.file, len);
        self.is_torn = either(self.is_torn, outcome.is_err());
        count(&mut self.faults, &mut self.tally.refused, outcome)
    }

    fn sync(&mut self) -> io::Result<()> {
        let outcome = sync_now(&mut self.calls, &self.file, self.is_torn);
        self.is_usable = outcome.is_ok();
        count(&mut self.faults, &mut self.tally.refused, outcome)
    }
}
