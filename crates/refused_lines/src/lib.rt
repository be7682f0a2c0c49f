//! Why a line of words gives no command, where a program says it to people.
//!
//! The layer above may rely on this: what `clap` refuses, what was asked for, which is help or the
//! version, and a refusal of memory are told apart.
#![tactic(auto)]

ghost use Rattle.std.specs.Prelude.{◌≡◌};
ghost use Rattle.clap.specs.Kinds.{Kinds, HasKind};
ghost use Rattle.clap.specs.Values.{kind_of};
ghost use Rattle.refused_lines.specs.Refusals.{IsRefusedBy, meaning_of};

use clap::error::ErrorKind;
use std::alloc::AllocError;
use std::fmt::Display;
use thiserror::Error;

/// Why a line of words gave no command. Each prints its lines.
#[derive(Debug, Drop, Error)]
#[error_bound(F: Display)]
pub enum NoCommand<F> {
    /// Help or the version was asked for: this is its text.
    #[error("{0}")]
    Asked(clap::Error),
    /// The words give no command: this says why.
    #[error("{0}")]
    Refused(clap::Error),
    /// The parser took the words, and they give no command: this says why.
    #[error("{0}")]
    Fault(F),
    /// A growth of memory was refused.
    #[error("a growth of memory was refused")]
    NoMemory,
}

impl<F> From<AllocError> for NoCommand<F> {
    ghost use Rattle.std.specs.Prelude.{◌≡◌};
    ghost use Rattle.refused_lines.specs.declared.NoCommand.TheVariants.{NoMemory};

    ghost from_gives = { λ _ e. e ≡ NoMemory };

    fn from(_error: AllocError) -> Self {
        NoCommand::NoMemory
    }
}

/// What a refusal of the parser means.
pub fn refused<F>(error: clap::Error) -> NoCommand<F>
    ensures meaning { result ≡ meaning_of (kind_of error) error }
    ensures memory { kind_of error ≡ ErrorKind.OutOfMemory → result ≡ NoCommand.NoMemory }
    ensures refused { (kinds : Kinds) → HasKind kinds error → IsRefusedBy kinds result }
{
    match error.kind() {
        ErrorKind::OutOfMemory => NoCommand::NoMemory,
        ErrorKind::DisplayHelp | ErrorKind::DisplayVersion => NoCommand::Asked(error),
        _ => NoCommand::Refused(error),
    }
}
