//! Why an export failed.
ghost use Rattle.std.specs.Prelude.{◌≡◌, ◌⊎◌};
ghost use Rattle.std.specs.declared.io.ErrorKind.TheVariants.{OutOfMemory};
ghost use Rattle.s4_types.specs.declared.refusals.Refusal.TheVariants.{NoMemory};
ghost use Rattle.history_export.specs.declared.faults.ExportError.TheVariants.{Refused};

use crate::manifest::MANIFEST;
use s4_types::{ObjectId, Refusal};
use std::alloc::AllocError;
use std::fmt::{self, Display, Formatter};
use std::io;
use thiserror::Error;

/// A file that an export makes. It prints the file's name.
#[derive(Clone, Copy, Debug)]
pub enum ExportedFile {
    Manifest,
    Object(ObjectId),
}

impl Display for ExportedFile {
    fn fmt<W: fmt::Write>(&self, f: &mut Formatter<W>) -> fmt::Result {
        match self {
            ExportedFile::Manifest => f.write_str(MANIFEST),
            ExportedFile::Object(object) => {
                let number = object.number();
                write!(f, "object-{number}")
            }
        }
    }
}

/// Why an export failed. What was written by then stays in the folder.
#[derive(Clone, Copy, Debug, Error)]
pub enum ExportError {
    /// Something is in the folder already. Nothing was written.
    #[error("the folder is not empty")]
    NotEmpty,
    /// What is in the folder can't be read. Nothing was written.
    #[error("cannot read the folder")]
    CannotRead,
    /// This file can't be made, or not written to its end.
    #[error("cannot write {0}")]
    CannotWrite(ExportedFile),
    /// A growth was refused; or a version can't be read, for lack of memory or of a seat.
    #[error("{0}")]
    Refused(Refusal),
}

impl From<AllocError> for ExportError {
    ghost from_gives = { λ _ e. e ≡ Refused NoMemory };

    fn from(_error: AllocError) -> ExportError {
        ExportError::Refused(Refusal::NoMemory)
    }
}

impl From<Refusal> for ExportError {
    ghost from_gives = { λ refusal e. e ≡ Refused refusal };

    fn from(refusal: Refusal) -> ExportError {
        ExportError::Refused(refusal)
    }
}

/// The error of a folder that can't be read: NoMemory where a growth was refused.
pub(crate) fn reading(kind: io::ErrorKind) -> ExportError
    ensures memory { kind ≡ OutOfMemory → result ≡ ExportError.Refused NoMemory }
    ensures only { (result ≡ ExportError.Refused NoMemory) ⊎ (result ≡ ExportError.CannotRead) }
{
    match kind {
        io::ErrorKind::OutOfMemory => ExportError::Refused(Refusal::NoMemory),
        _ => ExportError::CannotRead,
    }
}

/// The error of a file that can't be written: NoMemory where a growth was refused.
pub(crate) fn writing(kind: io::ErrorKind, file: ExportedFile) -> ExportError
    ensures memory { kind ≡ OutOfMemory → result ≡ ExportError.Refused NoMemory }
    ensures only { (result ≡ ExportError.Refused NoMemory)
        ⊎ (result ≡ ExportError.CannotWrite file) }
{
    match kind {
        io::ErrorKind::OutOfMemory => ExportError::Refused(Refusal::NoMemory),
        _ => ExportError::CannotWrite(file),
    }
}
