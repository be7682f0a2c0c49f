//! Commands over the drive that an image in a file tells, whatever they do: one prints something of
//! it, another changes and saves it.
//!
//! The layer above may rely on this: where `over_image` gives a verdict, what a `DriveCommand`
//! says it shows holds of the drive that the file's bytes are opened as, and of the output. So
//! does what a `DriveUse` says of that which `use_image` gives, whatever it is; nothing of the
//! drive is kept. Where `change_image` succeeds, the file has what the drive is saved as after
//! what a `DriveChange` says it changes, and where it fails all files are as they were.
//! `moment_asked` gives the moment that a command asks for only where it can be read, and
//! `object_asked` the object of the number or of the name that a command has. A time is refused
//! exactly where the drive's moments are numbers. `show_image` does
//! what `over_image` does for a command that names its image, and prints the moments of its
//! failures as the command prints moments. That is proved over any `Files` that say what they
//! hold. `write_lines` writes the line of each thing that a form `Prints`. A `Failure` says on
//! one line what is wrong and what can be done; the text of each moment in it is proved, and
//! the rest is tested through the program.
#![tactic(auto)]

mod changing;
mod commands;
mod faults;
mod moments;
mod printing;
mod showing;
mod using;

pub use changing::{DriveChange, change_image};
pub use commands::{CommandOutput, DriveCommand, Verdict, over_image};
pub use faults::{Failure, as_number};
pub use moments::{
    check_object, moment_asked, moment_given, moment_or_clock, moment_said, object_asked,
    object_in_either, unreadable,
};
pub use printing::{Prints, write_line, write_lines};
pub use showing::{ImageCommand, show_image};
pub use using::{DriveUse, use_image};
