//! The folders that exports are written to.
ghost use Rattle.std.specs.Prelude.{◌≡◌, ℕ, List, [], Option, None, IfOk, OnOk, MatchBool};
ghost use Rattle.std.specs.Prelude.{string_bytes};
ghost use Rattle.std.specs.Option.{option_map};
ghost use Rattle.history_export.specs.Folders.{NamedFile, AreFiles, HasFiles, with_file};
ghost use Rattle.history_export.specs.Folders.{with_bytes};

use std::alloc::Global;
use std::fs::{self, File, OpenOptions};
use std::io::{self, Write};
use std::path::Path;

/// A folder of files. An error of the kind `OutOfMemory` says that a growth was refused.
pub trait Folder {
    // The path at which the folder was opened.
    ghost path: { Self → List ℕ };

    // The files of the folder, by their order, where they are known.
    ghost files: { Self → Option (List NamedFile) };

    /// Whether nothing is in the folder.
    fn is_empty(&self) -> io::Result<bool>
        ensures empty { IfOk result (λ is_empty. MatchBool is_empty (AreFiles (files self.now) []) (HasFiles (files self.now))) };

    /// Makes a file of these bytes, and the folder within this one that its name has in front of a
    /// `/`. An error where anything in the folder has the name.
    fn make_file(&mut self, name: &str, bytes: &[u8]) -> io::Result<()>
        ensures made { OnOk result
            (files self.new ≡ option_map (with_file name.now bytes.now) (files self.old)) }
        ensures path { path self.new ≡ path self.old };

    /// Adds bytes at the end of a file.
    fn append(&mut self, name: &str, bytes: &[u8]) -> io::Result<()>
        ensures grown { OnOk result
            (files self.new ≡ option_map (with_bytes name.now bytes.now) (files self.old)) }
        ensures path { path self.new ≡ path self.old };
}

// A file that stays open for what comes at its end, and its name.
struct Grown {
    name: String,
    file: File,
}

// Written by hand, so that an owner lets it go by one call.
impl Drop for Grown {
    fn drop(self) {
        let Grown { name: _, file: _ } = self;
    }
}

/// A folder of this system. The file that something was added to last stays open, so that each of
/// many lines costs no walk to it.
pub struct SystemFolder {
    rt: HostRuntime,
    alloc: Global,
    path: String,
    grown: Option<Grown>,
}

// Written by hand, so that an owner lets it go by one call.
impl Drop for SystemFolder {
    fn drop(self) {
        let SystemFolder {
            rt: _,
            alloc: _,
            path: _,
            grown: _,
        } = self;
    }
}

impl SystemFolder {
    /// The folder at a path. It is made where it isn't there, and so are the folders above it.
    ///
    /// An error where it can't be made, or where something else is at the path.
    pub fn at(rt: &HostRuntime, alloc: Global, path: &str) -> io::Result<Self>
        ensures path { IfOk result (λ folder. string_bytes folder.path ≡ path.now) }
    {
        fs::create_dir_all(rt, path)?;
        Ok(SystemFolder {
            rt: *rt,
            alloc,
            path: String::from_str(alloc, path)?,
            grown: None,
        })
    }

    // The path of a file in the folder.
    fn path_of(&self, name: &str) -> io::Result<String> {
        let path = Path::new(self.path.as_str()).join(self.alloc, name)?;
        Ok(path.into_string())
    }

    // Makes a folder within this one, where it isn't there.
    fn make_folder(&self, name: &str) -> io::Result<()> {
        let path = self.path_of(name)?;
        fs::create_dir_all(&self.rt, path.as_str())
    }

    // A file of the folder, opened for what comes at its end.
    fn opened(&self, name: &str) -> io::Result<Grown> {
        let path = self.path_of(name)?;
        let file = OpenOptions::new()
            .append(true)
            .open(&self.rt, path.as_str())?;
        let name = String::from_str(self.alloc, name)?;
        Ok(Grown { name, file })
    }
}

impl Folder for SystemFolder {
    ghost path = { λ folder. string_bytes folder.path };

    // No clause of the standard library says what a folder of the system holds.
    ghost files = { λ _. None };

    fn is_empty(&self) -> io::Result<bool> {
        let mut found = fs::read_dir(&self.rt, self.path.as_str())?;
        match found.next() {
            None => Ok(true),
            Some(Ok(_)) => Ok(false),
            // A name that is no text is that of a file.
            Some(Err(error)) if error.kind() == io::ErrorKind::InvalidFilename => Ok(false),
            Some(Err(error)) => Err(error),
        }
    }

    fn make_file(&mut self, name: &str, bytes: &[u8]) -> io::Result<()> {
        if let Some((folder, _)) = name.rsplit_once('/') {
            self.make_folder(folder)?;
        }
        let path = self.path_of(name)?;
        let mut file = File::create_new(&self.rt, path.as_str())?;
        file.write_all(bytes)
    }

    fn append(&mut self, name: &str, bytes: &[u8]) -> io::Result<()> {
        let mut grown = match self.grown.take() {
            Some(grown) if grown.name.as_str() == name => grown,
            _ => self.opened(name)?,
        };
        let written = grown.file.write_all(bytes);
        self.grown = Some(grown);
        written
    }
}
