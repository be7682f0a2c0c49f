//! What each call does to the files of this system.
use crate::calls::Calls;
use crate::host::{HostCalls, HostFile};
use std::fs::{self, Permissions};
use std::io::{self, Read};
use std::os::unix::fs::{MetadataExt, PermissionsExt};
use std::test::Fail;

/// Whether the file at a path has these bytes.
fn has(rt: &HostRuntime, path: &str, bytes: &[u8]) -> bool {
    match fs::read(rt, path) {
        Ok(found) => found.as_slice() == bytes,
        Err(_) => false,
    }
}

/// Whether nothing is at a path.
fn is_free(rt: &HostRuntime, path: &str) -> bool {
    fs::symlink_metadata(rt, path).is_err()
}

#[test]
fn a_file_is_made_written_cut_and_synced(rt: HostRuntime) -> Result<(), Fail> {
    let mut calls = HostCalls::new(rt);
    let file = calls.make("made", 0o640)?;
    assert!(rt; calls.make("made", 0o640).is_err(), "it is there");
    assert_eq!(rt; fs::metadata(&rt, "made")?.mode() & 0o700, 0o600);
    assert_eq!(rt; calls.write_at(&file, 2, b"abc")?, 3);
    assert!(rt; has(&rt, "made", b"\0\0abc"));
    calls.set_len(&file, 4)?;
    assert!(rt; has(&rt, "made", b"\0\0ab"));
    calls.sync(&file)?;
    calls.remove("made")?;
    assert!(rt; is_free(&rt, "made"));
    assert!(rt; calls.remove("made").is_err(), "it isn't there");
    Ok(())
}

#[test]
fn names_are_given_and_taken(rt: HostRuntime) -> Result<(), Fail> {
    let mut calls = HostCalls::new(rt);
    fs::write(&rt, "first", b"one")?;
    fs::write(&rt, "second", b"two")?;
    calls.link("first", "linked")?;
    assert!(rt; calls.link("first", "second").is_err(), "one is there");
    assert!(rt; has(&rt, "first", b"one") && has(&rt, "linked", b"one"));
    calls.rename("first", "second")?;
    assert!(rt; is_free(&rt, "first") && has(&rt, "second", b"one"));
    assert!(rt; calls.rename("first", "second").is_err(), "none is there");
    let folder = calls.open_folder(".")?;
    calls.sync_folder(&folder)?;
    calls.remove("linked")?;
    calls.remove("second")?;
    Ok(())
}

/// Whether another open of a file can't lock it.
fn is_locked(calls: &HostCalls, path: &str) -> io::Result<bool> {
    let again = calls.open(path)?;
    Ok(calls.try_lock_opened(&again).is_err())
}

/// Whether what is read of a file is what it has.
fn is_read(calls: &HostCalls, file: &HostFile, byte: u8) -> io::Result<bool> {
    let mut found = [0];
    let count = calls.copy_of(file)?.read(&mut found)?;
    Ok(count == 1 && found[0] == byte)
}

#[test]
fn a_file_is_locked_and_gets_a_mode(rt: HostRuntime) -> Result<(), Fail> {
    let mut calls = HostCalls::new(rt);
    let file = calls.make("held", 0o600)?;
    assert!(rt; !is_locked(&calls, "held")?);
    assert!(rt; calls.try_lock(&file).is_ok());
    assert!(rt; is_locked(&calls, "held")?);
    calls.set_mode(&file, Permissions::from_mode(0o644))?;
    let about = calls.metadata(&file)?;
    assert_eq!(rt; about.mode() & 0o777, 0o644);
    calls.set_owner(&file, about.uid(), about.gid())?;
    assert_eq!(rt; calls.write_at(&file, 0, b"x")?, 1);
    let opened = calls.open("held")?;
    assert!(rt; is_read(&calls, &opened, b'x')?);
    // The file itself goes on, with its lock.
    let plain = calls.into_file(file);
    assert_eq!(rt; plain.metadata()?.len(), 1);
    assert!(rt; is_locked(&calls, "held")?);
    drop(plain);
    assert!(rt; !is_locked(&calls, "held")?);
    calls.remove("held")?;
    Ok(())
}
