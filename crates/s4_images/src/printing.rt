//! Lines of what a command prints.
ghost use Rattle.std.specs.Prelude.{◌≡◌, ℕ, ◌+◌, ◌^◌, ◌<◌, List, IfOk, OnOk, string_bytes};
ghost use Rattle.std.specs.List.{flat_map};
ghost use Rattle.std.specs.Io.KnownBytes.{Appends};

use crate::faults::Failure;
use image_commands::write_out;
use serving::Sink;
use std::alloc::{AllocError, Global};

/// A form in which some things are printed, each as a line.
pub trait Prints<R> {
    // The line of one of these.
    ghost line: { Self → R → List ℕ };

    /// The line of one of these.
    fn line(&self, alloc: Global, one: &R) -> Result<String, AllocError>
        ensures { IfOk result (λ text. string_bytes text ≡ line self.now one.now) };
}

/// Writes a line.
pub fn write_line<R, P: Prints<R>, W: Sink>(
    alloc: Global,
    form: &P,
    one: &R,
    writer: &mut W,
) -> Result<(), Failure>
    requires writer { W.failures writer.old + 1 < 2 ^ 64 }
    ensures line { OnOk result
        (Appends (W.passed writer.old) (W.passed writer.new) (P.line form.now one.now)) }
    ensures failures { OnOk result (W.failures writer.new ≡ W.failures writer.old) }
{
    let line = form.line(alloc, one)?;
    write_out(writer, line.as_bytes())?;
    Ok(())
}

/// Writes the line of each of these, one after the other.
pub fn write_lines<R, P: Prints<R>, W: Sink>(
    alloc: Global,
    form: &P,
    all: &[R],
    writer: &mut W,
) -> Result<(), Failure>
    requires writer { W.failures writer.old + 1 < 2 ^ 64 }
    ensures lines { OnOk result
        (Appends (W.passed writer.old) (W.passed writer.new)
        (flat_map (P.line form.now) all.now)) }
    ensures failures { OnOk result (W.failures writer.new ≡ W.failures writer.old) }
{
    for one in all {
        write_line(alloc, form, one, writer)?;
    }
    Ok(())
}
