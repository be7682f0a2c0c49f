//! The program's command line, as `clap` builds it from the rows of its commands.
ghost use Rattle.std.specs.Prelude.{◌≡◌, IfOk};
ghost use Rattle.clap.specs.Simple.{app_of};
ghost use Rattle.s4d_command.specs.CommandLine.{line, program};

use crate::arguments::Argument::{Flag, Operand, Operands, Setting};
use crate::arguments::{Argument, CommandRow, add_commands};
use clap::Command;
use std::alloc::{AllocError, Global};

/// How far back a drive's history reaches, in moments.
const WINDOW: Argument = Setting("window", "100");

/// How far the clock moves for each request, in moments.
const TICK: Argument = Setting("tick", "1");

/// The file of an image.
const IMAGE: Argument = Operand("image");

/// The commands. Help is no command of the program, so nothing says what they do.
const ROWS: &[CommandRow] = &[
    CommandRow {
        name: "pipe",
        about: "Serves one session of a new drive",
        // (the frames are `DEFAULT_FRAMES`)
        arguments: &[Setting("frames", "24"), WINDOW, TICK, Operand("role")],
    },
    CommandRow {
        name: "new",
        about: "Writes the image of a new drive",
        arguments: &[WINDOW, IMAGE, Operand("frames")],
    },
    CommandRow {
        name: "verify",
        about: "Prints what is wrong with an image",
        arguments: &[IMAGE],
    },
    CommandRow {
        name: "run",
        about: "Serves sessions of an image's drive",
        arguments: &[
            TICK,
            Flag("no-upkeep", "Nothing is cleaned or gathered"),
            IMAGE,
            Operands("sessions"),
        ],
    },
    CommandRow {
        name: "at",
        about: "Prints what an object was at a moment",
        arguments: &[IMAGE, Operand("object"), Operand("moment")],
    },
    CommandRow {
        name: "migrate",
        about: "Makes an image of one of an earlier version",
        arguments: &[Operand("earlier"), IMAGE],
    },
];

// The program with no command.
fn empty_program<'a>(alloc: Global) -> Command<'a>
    ensures { app_of result ≡ program }
{
    Command::new(alloc, "s4d")
        .disable_help_flag(true)
        .disable_help_subcommand(true)
}

/// The whole command line.
pub(crate) fn command_line<'a>(alloc: Global) -> Result<Command<'a>, AllocError>
    ensures { IfOk result (λ c. app_of c ≡ line) }
{
    add_commands(alloc, empty_program(alloc), ROWS)
}
