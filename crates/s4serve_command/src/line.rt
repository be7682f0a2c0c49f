//! The program's command line, as `clap` builds it from its arguments.
ghost use Rattle.std.specs.Prelude.{◌≡◌, false};
ghost use Rattle.clap.specs.Simple.{app_of};
ghost use Rattle.clap.specs.declared.builder.command.Command.TheViews.{out-Command as fields_of};
ghost use Rattle.s4d_command.specs.CommandLine.{IsLine};
ghost use Rattle.s4serve_command.specs.CommandLine.{line, program};

use clap::Command;
use s4d_command::arguments::Argument::{NeededValues, Value, Word};
use s4d_command::arguments::{Argument, add_arguments};
use std::alloc::{AllocError, Global};

/// The version of the program, as the file VERSION has it.
const VERSION: &str = "0.1.0";

/// The arguments, in the order of their help.
const ARGUMENTS: &[Argument] = &[
    Value(
        "create",
        "FRAMES",
        "Makes a new drive of this many frames, 24 to 1024, at IMAGE",
    ),
    Value(
        "keep",
        "DURATION",
        "How long a drive that is made keeps the past: 90s, 15m, 2h, 30d or 4w",
    ),
    Value(
        "leap",
        "DURATION",
        "Begins though the image's clock is this much earlier; half the window, or a week where that is less, without it",
    ),
    Value(
        "patience",
        "DURATION",
        "How long a service that is stopped tries to keep what isn't, where room is short; 60s without it",
    ),
    Value(
        "reserve",
        "BLOCKS",
        "Blocks of the drive's room that clients leave to administrators; a sixteenth of all, 60 at least, without it",
    ),
    NeededValues(
        "door",
        "ROLE=DIR",
        "A folder at whose FIFO `door` clients or administrators come: client=DIR or admin=DIR; 4 at most",
    ),
    Word("image", "IMAGE", "The file of a drive"),
];

// The program with no argument but those for help and its version.
fn empty_program<'a>(alloc: Global) -> Command<'a>
    ensures line { app_of result ≡ program }
    ensures own { (fields_of result).has_globals ≡ false }
{
    Command::new(alloc, "s4serve")
        .about("Serves a drive whose changes are kept before they are acknowledged")
        .version(VERSION)
}

/// The whole command line.
pub(crate) fn command_line<'a>(alloc: Global) -> Result<Command<'a>, AllocError>
    ensures { IsLine result line }
{
    add_arguments(alloc, empty_program(alloc), ARGUMENTS)
}
