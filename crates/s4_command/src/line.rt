//! The program's command line, as `clap` builds it from the rows of its commands.
ghost use Rattle.std.specs.Prelude.{◌≡◌, IfOk};
ghost use Rattle.clap.specs.Simple.{app_of};
ghost use Rattle.s4_command.specs.CommandLine.{line, program};

use crate::rows::ROWS;
use clap::Command;
use s4d_command::arguments::add_commands;
use std::alloc::{AllocError, Global};

/// The version of the program, as the file VERSION has it.
const VERSION: &str = "0.1.0";

// The program with no command but `help`.
fn empty_program<'a>(alloc: Global) -> Command<'a>
    ensures { app_of result ≡ program }
{
    Command::new(alloc, "s4")
        .about(
            "Looks into the past of a drive, and brings it back. Only restore and compact change an image",
        )
        .version(VERSION)
        .propagate_version(true)
        .subcommand_required(true)
}

/// The whole command line.
pub(crate) fn command_line<'a>(alloc: Global) -> Result<Command<'a>, AllocError>
    ensures { IfOk result (λ c. app_of c ≡ line) }
{
    add_commands(alloc, empty_program(alloc), ROWS)
}
