//! The calls of this system: each method makes one, and then notes it with its answer.
ghost use Rattle.std.specs.Prelude.{◌≡◌, [], ◌∷◌, ⊤, string_bytes};
ghost use Rattle.host_calls.specs.Events.{refusal_of, unsynced_by};
ghost use Rattle.host_calls.specs.Note.{answer_of};

use crate::calls::Calls;
use crate::record::Record;
use std::fs::{self, File, Metadata, OpenOptions, Permissions, TryLockError};
use std::io;
use std::os::unix::fs::{FileExt, OpenOptionsExt, fchown};

const MADE: u64 = 1;

const WRITTEN: u64 = 2;

const CUT: u64 = 3;

const SYNCED: u64 = 4;

const RENAMED: u64 = 5;

const LINKED: u64 = 6;

const REMOVED: u64 = 7;

const FOLDER_SYNCED: u64 = 8;

const LOCKED: u64 = 9;

const OWNED: u64 = 10;

const MODE_SET: u64 = 11;

/// The answer of a call that failed.
const FAILED: u64 = 0;

/// That of one that was made.
const DONE: u64 = 1;

/// That of one for which memory or room is short.
const SHORT: u64 = 2;

/// That of one that the file system doesn't have.
const UNSUPPORTED: u64 = 3;

/// The calls of this system, with a record of those that change files.
#[derive(Drop)]
pub struct HostCalls {
    rt: HostRuntime,
    /// The number of the next file.
    next: u64,
    log: Record,
}

/// An open file of this system.
#[derive(Drop)]
pub struct HostFile {
    file: File,
    number: u64,
}

/// An open folder of this system.
#[derive(Drop)]
pub struct HostFolder {
    folder: File,
    path: String,
}

impl HostCalls {
    /// No calls yet.
    pub fn new(rt: HostRuntime) -> HostCalls
        ensures { result.log.events ≡ [] }
    {
        HostCalls {
            rt,
            next: 1,
            log: Record::new(),
        }
    }
}

/// The answer of a rename that gave this error.
fn refusal(error: &io::Error) -> u64
    ensures { answer_of result ≡ refusal_of error.now }
{
    match error.kind() {
        io::ErrorKind::OutOfMemory
        | io::ErrorKind::StorageFull
        | io::ErrorKind::QuotaExceeded
        | io::ErrorKind::FileTooLarge => SHORT,
        _ => FAILED,
    }
}

/// The answer of a sync of a folder that gave this error.
fn unsynced(error: &io::Error) -> u64
    ensures { answer_of result ≡ unsynced_by error.now }
{
    match error.kind() {
        io::ErrorKind::InvalidInput => UNSUPPORTED,
        _ => FAILED,
    }
}

impl Calls for HostCalls {
    type File = HostFile;

    type Folder = HostFolder;

    ghost history = { λ h. h.log.events };

    // What was there isn't known.
    ghost was = { λ _ _. ⊤ };

    ghost number = { λ f. f.number };

    ghost place = { λ f. string_bytes f.path };

    fn make(&mut self, path: &str, mode: u32) -> io::Result<HostFile> {
        let mut how = OpenOptions::new();
        how.write(true).create_new(true).mode(mode);
        let file = match how.open(&self.rt, path) {
            Ok(file) => file,
            Err(error) => {
                self.log
                    .note(&[MADE, 0, u64::from(mode), FAILED], path.as_bytes(), &[]);
                return Err(error);
            }
        };
        let number = self.next.max(1);
        self.next = number.wrapping_add(1);
        self.log.note(&[MADE, number, u64::from(mode), DONE], path.as_bytes(), &[]);
        Ok(HostFile { file, number })
    }

    fn write_at(&mut self, file: &HostFile, at: u64, bytes: &[u8]) -> io::Result<usize> {
        let answer = file.file.write_at(bytes, at);
        match answer {
            Ok(n) => self
                .log
                .note(&[WRITTEN, file.number, at, DONE], &bytes[..n], &[]),
            Err(_) => self.log.note(&[WRITTEN, file.number, at, FAILED], &[], &[]),
        }
        answer
    }

    fn set_len(&mut self, file: &HostFile, length: u64) -> io::Result<()> {
        let answer = file.file.set_len(length);
        let code = u64::from(answer.is_ok());
        self.log.note(&[CUT, file.number, length, code], &[], &[]);
        answer
    }

    fn sync(&mut self, file: &HostFile) -> io::Result<()> {
        let answer = file.file.sync_all();
        let code = u64::from(answer.is_ok());
        self.log.note(&[SYNCED, file.number, 0, code], &[], &[]);
        answer
    }

    fn rename(&mut self, from: &str, to: &str) -> io::Result<()> {
        let answer = fs::rename(&self.rt, from, to);
        let code = match &answer {
            Ok(()) => DONE,
            Err(error) => refusal(error),
        };
        self.log
            .note(&[RENAMED, 0, 0, code], from.as_bytes(), to.as_bytes());
        answer
    }

    fn link(&mut self, from: &str, to: &str) -> io::Result<()> {
        let answer = fs::hard_link(&self.rt, from, to);
        let code = u64::from(answer.is_ok());
        self.log
            .note(&[LINKED, 0, 0, code], from.as_bytes(), to.as_bytes());
        answer
    }

    fn remove(&mut self, path: &str) -> io::Result<()> {
        let answer = fs::remove_file(&self.rt, path);
        let code = u64::from(answer.is_ok());
        self.log.note(&[REMOVED, 0, 0, code], path.as_bytes(), &[]);
        answer
    }

    fn sync_folder(&mut self, folder: &HostFolder) -> io::Result<()> {
        let answer = folder.folder.sync_all();
        let code = match &answer {
            Ok(()) => DONE,
            Err(error) => unsynced(error),
        };
        self.log.note(
            &[FOLDER_SYNCED, 0, 0, code],
            folder.path.as_str().as_bytes(),
            &[],
        );
        answer
    }

    fn try_lock(&mut self, file: &HostFile) -> Result<(), TryLockError> {
        let answer = file.file.try_lock();
        let code = u64::from(answer.is_ok());
        self.log.note(&[LOCKED, file.number, 0, code], &[], &[]);
        answer
    }

    fn set_owner(&mut self, file: &HostFile, owner: u32, group: u32) -> io::Result<()> {
        let answer = fchown(&file.file, Some(owner), Some(group));
        let code = u64::from(answer.is_ok());
        self.log.note(&[OWNED, file.number, 0, code], &[], &[]);
        answer
    }

    fn set_mode(&mut self, file: &HostFile, mode: Permissions) -> io::Result<()> {
        let answer = file.file.set_permissions(mode);
        let code = u64::from(answer.is_ok());
        self.log.note(&[MODE_SET, file.number, 0, code], &[], &[]);
        answer
    }

    fn open(&self, path: &str) -> io::Result<HostFile> {
        let mut how = OpenOptions::new();
        let file = how.read(true).write(true).open(&self.rt, path)?;
        Ok(HostFile { file, number: 0 })
    }

    fn open_folder(&self, path: &str) -> io::Result<HostFolder> {
        let folder = File::open(&self.rt, path)?;
        let path = String::from_str(self.rt.alloc(), path)?;
        Ok(HostFolder { folder, path })
    }

    fn place<'a>(&self, folder: &'a HostFolder) -> &'a str {
        folder.path.as_str()
    }

    fn metadata(&self, file: &HostFile) -> io::Result<Metadata> {
        file.file.metadata()
    }

    fn copy_of(&self, file: &HostFile) -> io::Result<File> {
        file.file.try_clone()
    }

    fn into_file(&self, file: HostFile) -> File {
        file.file
    }

    fn try_lock_opened(&self, file: &HostFile) -> Result<(), TryLockError> {
        file.file.try_lock()
    }
}
