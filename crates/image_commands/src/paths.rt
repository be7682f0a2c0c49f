//! Where paths of this system lead.
ghost use Rattle.std.specs.Prelude.{◌≡◌, IfOk, string_bytes};
ghost use Rattle.std.specs.Path.{path_bytes, path_parent};
ghost use Rattle.image_commands.specs.Beside.{folder_by, path_in_folder};

use crate::obstacles::Obstacle;
use std::alloc::{AllocError, Global};
use std::fs::{self, Metadata};
use std::io;
use std::os::unix::fs::{FileTypeExt, MetadataExt};
use std::path::Path;

/// How many links the system follows on the way to a file.
const MOST_LINKS: u32 = 40;

/// What the system says of the file at a path, where it says anything.
pub fn found(rt: &HostRuntime, path: &str) -> Option<Metadata> {
    fs::metadata(rt, path).ok()
}

/// Whether both are one file, but for streams with two ends.
pub fn are_one_file(one: &Metadata, other: &Metadata) -> bool {
    let kind = one.file_type();
    one.dev() == other.dev()
        && one.ino() == other.ino()
        && !kind.is_char_device()
        && !kind.is_socket()
}

/// Whether a path without links leads to the file of which the system says this.
pub fn is_file_of(rt: &HostRuntime, about: &Metadata, path: &str) -> io::Result<bool> {
    match fs::symlink_metadata(rt, path) {
        Ok(now) => Ok(are_one_file(about, &now)),
        Err(error) if error.kind() == io::ErrorKind::NotFound => Ok(false),
        Err(error) => Err(error),
    }
}

/// Whether both paths name one file, of two that aren't there.
pub fn are_one_path(rt: &HostRuntime, first: &str, second: &str) -> io::Result<bool> {
    let (first, second) = (end_of_links(rt, first)?, end_of_links(rt, second)?);
    let (first, second) = (Path::new(first.as_str()), Path::new(second.as_str()));
    Ok(first.file_name() == second.file_name() && are_in_one_folder(rt, first, second))
}

/// Whether the folders of both paths are there, and one.
pub fn are_in_one_folder(rt: &HostRuntime, first: Path<'_>, second: Path<'_>) -> bool {
    match (found(rt, folder_of(first)), found(rt, folder_of(second))) {
        (Some(one), Some(other)) => are_one_file(&one, &other),
        _ => false,
    }
}

/// The folder that a path is in.
pub fn folder_of<'a>(path: Path<'a>) -> &'a str
    ensures { result.now ≡ folder_by (path_bytes path.entry) (path_parent (path_bytes path.entry)) }
{
    match path.parent() {
        Some(folder) if !folder.as_str().is_empty() => folder.as_str(),
        Some(_) => ".",
        None => path.as_str(),
    }
}

/// The path of this name in the folder that another path is in.
pub fn path_beside(alloc: Global, path: &str, name: &str) -> Result<String, AllocError>
    ensures { IfOk result (λ beside. string_bytes beside ≡ path_in_folder path.now name.now) }
{
    let folder = Path::new(folder_of(Path::new(path)));
    Ok(folder.join(alloc, name)?.into_string())
}

/// The path of a file without links, or the one where it would be made.
pub fn end_of_path(rt: &HostRuntime, path: &str) -> io::Result<String> {
    match fs::canonicalize(rt, path) {
        Ok(found) => Ok(found.into_string()),
        Err(error) if error.kind() == io::ErrorKind::OutOfMemory => Err(error),
        Err(_) => end_of_links(rt, path),
    }
}

// The path to which a chain of links leads, whether a file is there or not.
fn end_of_links(rt: &HostRuntime, path: &str) -> io::Result<String> {
    let mut path = String::from_str(rt.alloc(), path)?;
    for _ in 0..MOST_LINKS {
        match next_link(rt, path.as_str())? {
            Some(next) => path = next,
            None => return Ok(path),
        }
    }
    Ok(path)
}

// Where the link at a path names, if one is there.
fn next_link(rt: &HostRuntime, path: &str) -> io::Result<Option<String>> {
    match fs::read_link(rt, path) {
        Ok(next) => {
            let next = path_beside(rt.alloc(), path, next.as_path().as_str())?;
            Ok(Some(next))
        }
        Err(error) if error.kind() == io::ErrorKind::OutOfMemory => Err(error),
        Err(_) => Ok(None),
    }
}

/// The path without links, and whether anything is there. An obstacle where a link leads nowhere,
/// or no file can have the path.
pub fn real_path(rt: &HostRuntime, alloc: Global, path: &str) -> Result<(String, bool), Obstacle> {
    match fs::canonicalize(rt, path) {
        Ok(found) => Ok((found.into_string(), true)),
        Err(error) if error.kind() == io::ErrorKind::NotFound => {
            Ok((new_path(rt, alloc, path)?, false))
        }
        Err(error) => Err(Obstacle::from(error)),
    }
}

// The path of a file that isn't there.
fn new_path(rt: &HostRuntime, alloc: Global, path: &str) -> Result<String, Obstacle> {
    let is_link = fs::symlink_metadata(rt, path).is_ok();
    match Path::new(path).file_name() {
        Some(name) if !is_link && path.ends_with(name) => Ok(String::from_str(alloc, path)?),
        _ => Err(Obstacle::NoFile),
    }
}
