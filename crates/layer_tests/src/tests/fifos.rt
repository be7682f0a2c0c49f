//! FIFOs of this system, and what is none.
use crate::tests::has_bytes;
use door_files::Fifos;
use std::alloc::{AllocError, Global};
use std::os::fd::AsRawFd;
use std::test::Fail;
use std::{fs, io};

/// The path of a file of this program, which is a link to it.
fn link_to<T: AsRawFd>(alloc: Global, file: &T) -> Result<String, AllocError> {
    let number = file.as_raw_fd();
    format!(in alloc; "/proc/self/fd/{number}")
}

/// Whether no FIFO is opened by this path, in any direction.
fn is_refused(rt: &HostRuntime, path: &str) -> bool {
    rt.open_endless(path).is_err() && rt.open_input(path).is_err() && rt.open_output(path).is_err()
}

/// Whether none is by a link to a file of this program.
fn is_link_refused<T: AsRawFd>(rt: &HostRuntime, file: &T) -> Result<bool, AllocError> {
    let link = link_to(rt.alloc(), file)?;
    Ok(is_refused(rt, link.as_str()))
}

/// Whether none is by a link to a pipe of this program.
fn is_pipe_refused(rt: &HostRuntime) -> Result<bool, Fail> {
    let (reader, writer) = io::pipe(rt)?;
    let is_refused = is_link_refused(rt, &reader);
    drop(reader);
    drop(writer);
    Ok(is_refused?)
}

#[test]
fn what_is_no_fifo_is_refused(rt: HostRuntime) -> Result<(), Fail> {
    let file = "session.in";
    fs::write(&rt, file, b"bytes")?;
    for path in &[file, ".", "/dev/null", "none.in"] {
        assert!(rt; is_refused(&rt, path), "{path}");
    }
    assert!(rt; is_pipe_refused(&rt)?);
    assert!(rt; has_bytes(&rt, file, b"bytes"));
    fs::remove_file(&rt, file)?;
    Ok(())
}
