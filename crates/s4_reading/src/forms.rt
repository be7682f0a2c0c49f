//! The form in which rows are printed.
ghost use Rattle.std.specs.Prelude.{◌≡◌, ◌+◌, ◌^◌, ◌<◌, ◌++◌, if◌then◌else◌, [], OnOk};
ghost use Rattle.std.specs.List.{flat_map};
ghost use Rattle.std.specs.Io.KnownBytes.{Appends};
ghost use Rattle.drive.specs.Fields.{state_in};
ghost use Rattle.s4_reading.specs.Forms.{form_over};

use drive::Drive;
use image_commands::write_out;
use moment_words::{MomentStyle, style_of};
use s4_images::{Failure, Prints, write_lines};
use segment_word::Naming;
use serving::Sink;
use std::alloc::Global;

/// How rows are printed, each as a line.
#[derive(Clone, Copy)]
pub(crate) struct Form {
    /// How moments are.
    pub style: MomentStyle,
    /// Whether lines are for programs.
    pub json: bool,
}

impl Form {
    /// The form for a drive, where moments are asked for as numbers or not, and lines for programs
    /// or not.
    pub(crate) fn over<J: Naming>(drive: &Drive<J>, as_numbers: bool, json: bool) -> Form
        ensures { result ≡ form_over (state_in drive.now) as_numbers json }
    {
        Form {
            style: style_of(drive.clock().number(), as_numbers),
            json,
        }
    }

    /// The line above rows for people; no line above those for programs.
    pub(crate) fn head(&self, head: &'static str) -> &'static str
        ensures { result.now ≡ (if self.now.json then [] else head.now) }
    {
        if self.json { "" } else { head }
    }
}

/// Writes a head, and below it the line of each of these rows.
pub(crate) fn write_table<R, P: Prints<R>, W: Sink>(
    alloc: Global,
    form: &P,
    head: &str,
    rows: &[R],
    writer: &mut W,
) -> Result<(), Failure>
    requires writer { W.failures writer.old + 1 < 2 ^ 64 }
    ensures table { OnOk result
        (Appends (W.passed writer.old) (W.passed writer.new)
        (head.now ++ flat_map (P.line form.now) rows.now)) }
    ensures failures { OnOk result (W.failures writer.new ≡ W.failures writer.old) }
{
    write_out(writer, head.as_bytes())?;
    write_lines(alloc, form, rows, writer)?;
    Ok(())
}
