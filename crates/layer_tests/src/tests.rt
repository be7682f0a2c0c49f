//! The layers, from frames and records up to the wire and to images, and those of a service.
mod commits;
mod differences;
mod fifos;
mod file_folders;
mod lines;
mod moments;
mod moved_images;
mod numbers;
mod records;
mod seats;
mod service_times;
mod summaries;
mod whole_images;
mod wire;

use std::fs;

/// Whether a file has these bytes.
fn has_bytes(rt: &HostRuntime, path: &str, bytes: &[u8]) -> bool {
    match fs::read(rt, path) {
        Ok(read) => read.as_slice() == bytes,
        Err(_) => false,
    }
}
