//! The line of an object with its versions.
ghost use Rattle.std.specs.Prelude.{◌≡◌, ◌+◌, ◌^◌, ◌<◌, [], All, IfErr, IfOk, OnOk, option_map};
ghost use Rattle.std.specs.Prelude.{string_bytes};
ghost use Rattle.std.specs.Io.KnownBytes.{Appends};
ghost use Rattle.s4_model.specs.Visible.{IsVisible};
ghost use Rattle.drive.specs.Fields.{state_in, store_of};
ghost use Rattle.history_versions.specs.Lines.{joined, line_with_versions, opened, piece_at};
ghost use Rattle.history_versions.specs.Lines.{separated, separator, versions_text};
ghost use Rattle.history_versions.specs.Stops.{IsStop};

use crate::output::write_out;
use crate::pieces::piece_at;
use drive::{Drive, Session};
use history_diff::Stop;
use history_export::beginnings;
use history_text::listed_json;
use history_view::Listed;
use moment_words::MomentStyle;
use s4_types::{Moment, ObjectId};
use segment_word::Naming;
use serving::Sink;
use std::alloc::Global;

/// What is asked of the versions of objects.
#[derive(Clone, Copy)]
pub struct VersionsAsked {
    /// The last moment: versions that can't be read before or then aren't asked for.
    pub until: Moment,
    /// Whether each is to have all its bytes.
    pub contents: bool,
    /// How moments are printed.
    pub style: MomentStyle,
}

// A line without its end.
fn opened(line: &[u8]) -> &[u8]
    ensures { result.now ≡ opened line.now }
{
    &line[..line.len().saturating_sub(2)]
}

/// Writes the line of an object that is listed, with each of its versions that can be read up to a
/// moment, the oldest first. The drive's state stays, whatever is answered.
///
/// WriteFailed where the writer fails; NoMemory, or Refused with NoMemory or Busy, where memory for
/// a version is refused. It has written a beginning of the line then. No moment is refused.
pub fn write_with_versions<J: Naming, W: Sink>(
    alloc: Global,
    drive: &mut Drive<J>,
    session: &mut Session<J>,
    row: &Listed,
    asked: &VersionsAsked,
    writer: &mut W,
) -> Result<(), Stop>
    requires writer { W.failures writer.old + 1 < 2 ^ 64 }
    ensures line { OnOk result
        (Appends (W.passed writer.old) (W.passed writer.new)
        (line_with_versions (state_in drive.old) (store_of drive.old) asked.now row.now)) }
    ensures refusal { IfErr result IsStop }
    ensures failures { OnOk result (W.failures writer.new ≡ W.failures writer.old) }
    ensures state { state_in drive.new ≡ state_in drive.old }
    ensures store { store_of drive.new ≡ store_of drive.old }
{
    let line = listed_json(alloc, row, asked.style)?;
    write_out(writer, opened(line.as_bytes()))?;
    write_out(writer, b",\"versions\":[")?;
    write_versions(alloc, drive, session, row.object, asked, writer)?;
    write_out(writer, b"]}\n")?;
    Ok(())
}

// Writes the versions of an object.
fn write_versions<J: Naming, W: Sink>(
    alloc: Global,
    drive: &mut Drive<J>,
    session: &mut Session<J>,
    object: ObjectId,
    asked: &VersionsAsked,
    writer: &mut W,
) -> Result<(), Stop>
    requires writer { W.failures writer.old + 1 < 2 ^ 64 }
    ensures versions { OnOk result
        (Appends (W.passed writer.old) (W.passed writer.new)
        (versions_text (state_in drive.old) (store_of drive.old) asked.now object)) }
    ensures refusal { IfErr result IsStop }
    ensures failures { OnOk result (W.failures writer.new ≡ W.failures writer.old) }
    ensures state { state_in drive.new ≡ state_in drive.old }
    ensures store { store_of drive.new ≡ store_of drive.old }
{
    drive.rules();
    let moments = beginnings(alloc, drive, object)?;
    write_pieces(
        alloc,
        drive,
        session,
        object,
        moments.as_slice(),
        asked,
        writer,
    )
}

// Writes what is printed for these moments, with commas.
fn write_pieces<J: Naming, W: Sink>(
    alloc: Global,
    drive: &mut Drive<J>,
    session: &mut Session<J>,
    object: ObjectId,
    moments: &[Moment],
    asked: &VersionsAsked,
    writer: &mut W,
) -> Result<(), Stop>
    requires visible { All (IsVisible (state_in drive.old) object) moments.now }
    requires writer { W.failures writer.old + 1 < 2 ^ 64 }
    ensures pieces { OnOk result
        (Appends (W.passed writer.old) (W.passed writer.new)
        (joined (piece_at (state_in drive.old) asked.now object) [] moments.now)) }
    ensures refusal { IfErr result IsStop }
    ensures failures { OnOk result (W.failures writer.new ≡ W.failures writer.old) }
    ensures state { state_in drive.new ≡ state_in drive.old }
    ensures store { store_of drive.new ≡ store_of drive.old }
{
    let mut before: &[u8] = b"";
    for moment in moments {
        let piece = piece_at(alloc, drive, session, object, *moment, asked)?;
        before = write_piece(&piece, before, writer)?;
    }
    Ok(())
}

// Writes a piece after what separates it from the one before, and says what separates the next.
fn write_piece<W: Sink>(
    piece: &Option<String>,
    before: &'static [u8],
    writer: &mut W,
) -> Result<&'static [u8], Stop>
    requires writer { W.failures writer.old + 1 < 2 ^ 64 }
    ensures piece { OnOk result
        (Appends (W.passed writer.old) (W.passed writer.new)
        (separated before.now (option_map string_bytes piece.now))) }
    ensures next { IfOk result
        (λ next. next.now ≡ separator before.now (option_map string_bytes piece.now)) }
    ensures refusal { IfErr result IsStop }
    ensures failures { OnOk result (W.failures writer.new ≡ W.failures writer.old) }
{
    let Some(text) = piece else {
        return Ok(before);
    };
    write_out(writer, before)?;
    write_out(writer, text.as_bytes())?;
    Ok(b",")
}
