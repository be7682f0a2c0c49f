//! What a log's file does to a file of this system.
use crate::log_file::LogFile;
use host_calls::HostCalls;
use sqlite_disk::Disk;
use std::fs;
use std::test::Fail;

/// Whether the file at a path has these bytes.
fn has(rt: &HostRuntime, path: &str, bytes: &[u8]) -> bool {
    match fs::read(rt, path) {
        Ok(found) => found.as_slice() == bytes,
        Err(_) => false,
    }
}

#[test]
fn a_file_is_made_written_and_synced(rt: HostRuntime) -> Result<(), Fail> {
    let mut file = LogFile::new(HostCalls::new(rt));
    assert!(rt; !file.may_be_used(), "there is none");
    file.make("first", 0o600)?;
    assert!(rt; file.may_be_used() && file.mixes());
    file.write_at(3, b"abc")?;
    file.write_at(1, b"xy")?;
    assert!(rt; has(&rt, "first", b"\0xyabc"));
    file.sync()?;
    file.set_len(4)?;
    assert!(rt; has(&rt, "first", b"\0xya"));
    let mut back = [0; 1];
    assert!(rt; file.len().is_err() && file.read_at(0, &mut back).is_err());
    assert_eq!(rt; file.tally().refused, 0);
    // The next file takes its place.
    assert!(rt; file.make("first", 0o600).is_err(), "it is there");
    file.make("next", 0o600)?;
    file.write_at(0, b"z")?;
    assert!(rt; has(&rt, "first", b"\0xya") && has(&rt, "next", b"z"));
    fs::remove_file(&rt, "first")?;
    fs::remove_file(&rt, "next")?;
    Ok(())
}

#[test]
fn a_write_that_fails_ends_a_file(rt: HostRuntime) -> Result<(), Fail> {
    let mut file = LogFile::new(HostCalls::new(rt));
    file.make("torn", 0o600)?;
    assert!(rt; file.write_at(usize::MAX, b"ab").is_err());
    assert!(rt; file.may_be_used());
    assert!(rt; file.sync().is_err(), "it isn't known what it has");
    assert!(rt; !file.may_be_used());
    fs::remove_file(&rt, "torn")?;
    Ok(())
}
