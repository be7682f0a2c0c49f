//! Where the FIFOs of a door are.
ghost use Rattle.std.specs.Prelude.{◌≡◌, ℕ, List, IfOk, string_bytes};
ghost use Rattle.door_files.specs.Paths.{door_path, input_path, output_path};

use door_lines::SessionName;
use std::alloc::{AllocError, Global};
use std::io::{self, Read, Write};

/// FIFOs, each found by its path. Opening one waits for nobody, and makes nothing.
pub trait Fifos {
    // Whether a path names what is read.
    ghost reads: { Self.Input → List ℕ → Type 0 };

    // Whether a path names what is written.
    ghost writes: { Self.Output → List ℕ → Type 0 };

    type Input: Read + Send + Drop + 'static;

    type Output: Write + Send + Drop;

    /// Opens one to be read that doesn't end where nobody has it open any more.
    fn open_endless(&self, path: &str) -> io::Result<Self::Input>
        ensures { IfOk result (λ input. reads input path.now) };

    /// Opens one to be read. It ends where nobody else has it open to write.
    fn open_input(&self, path: &str) -> io::Result<Self::Input>
        ensures { IfOk result (λ input. reads input path.now) };

    /// Opens one to be written. Where nobody has it open to read, each write fails.
    fn open_output(&self, path: &str) -> io::Result<Self::Output>
        ensures { IfOk result (λ output. writes output path.now) };
}

/// Opens the door in a folder.
pub fn open_door<F: Fifos>(fifos: &F, alloc: Global, folder: &str) -> io::Result<F::Input>
    ensures { IfOk result (λ door. F.reads door (door_path folder.now)) }
{
    let path = path_of_door(alloc, folder)?;
    fifos.open_endless(path.as_str())
}

/// Opens the two streams of a session that was asked for at the door in a folder.
pub fn open_session<F: Fifos>(
    fifos: &F,
    alloc: Global,
    folder: &str,
    name: &SessionName,
) -> io::Result<(F::Input, F::Output)>
    ensures { IfOk result (λ streams. F.reads streams.0 (input_path folder.now name.now)
        × F.writes streams.1 (output_path folder.now name.now)) }
{
    let input = fifos.open_input(path_of_input(alloc, folder, name.as_str())?.as_str())?;
    let output = fifos.open_output(path_of_output(alloc, folder, name.as_str())?.as_str())?;
    Ok((input, output))
}

fn path_of_door(alloc: Global, folder: &str) -> Result<String, AllocError>
    ensures { IfOk result (λ path. string_bytes path ≡ door_path folder.now) }
{
    format!(in alloc; "{folder}/door")
}

fn path_of_input(alloc: Global, folder: &str, name: &str) -> Result<String, AllocError>
    ensures { IfOk result (λ path. string_bytes path ≡ input_path folder.now name.now) }
{
    format!(in alloc; "{folder}/{name}.in")
}

fn path_of_output(alloc: Global, folder: &str, name: &str) -> Result<String, AllocError>
    ensures { IfOk result (λ path. string_bytes path ≡ output_path folder.now name.now) }
{
    format!(in alloc; "{folder}/{name}.out")
}
