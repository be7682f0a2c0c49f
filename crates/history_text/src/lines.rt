//! The lines that people read.
ghost use Rattle.std.specs.Prelude.{◌≡◌, IfOk, string_bytes};
ghost use Rattle.moment_words.specs.Texts as texts;
ghost use Rattle.history_text.specs.Lines.{column, moment_column, list_head, listed_line};
ghost use Rattle.history_text.specs.Lines.{state_text, kind_text, added_text, blocks_text};
ghost use Rattle.history_text.specs.Lines.{attributes_text, pair_text, detail_text, log_head};
ghost use Rattle.history_text.specs.Lines.{change_line, hidden_of, hidden_line, log_line};
ghost use Rattle.history_text.specs.Lines.{stat_head, kind_count, between_text, kinds_text};
ghost use Rattle.history_text.specs.Lines.{stat_line, frames_text, counts_text, moments_text};
ghost use Rattle.history_text.specs.Lines.{hidden_text, numbers_lines};

use crate::attributes::printed_attribute;
use crate::json::kind_word;
use crate::numbers::DriveNumbers;
use codec::Pair;
use history_view::{Blocks, Kind, KindCounts, Listed, LogRow, ObjectChange, ObjectStat};
use moment_words::{MomentStyle, moment_text};
use s4_types::{Moment, ObjectId, Span};
use std::alloc::{AllocError, Global};

/// Bytes of a block.
const BLOCK_BYTES: u64 = s4_types::limits::BLOCK_BYTES as u64;

fn state_text(is_live: bool) -> &'static str
    ensures { result.now ≡ state_text is_live }
{
    if is_live { "live   " } else { "deleted" }
}

fn column(alloc: Global, number: u64) -> Result<String, AllocError>
    ensures { IfOk result (λ text. string_bytes text ≡ column 10 number) }
{
    format!(in alloc; "{number:10}")
}

/// A moment in its column.
pub(crate) fn moment_column(
    alloc: Global,
    moment: Moment,
    style: MomentStyle,
) -> Result<String, AllocError>
    ensures { IfOk result (λ text. string_bytes text ≡ moment_column style moment) }
{
    match style {
        MomentStyle::Number => column(alloc, moment.number()),
        MomentStyle::Date => moment_text(alloc, moment.number(), MomentStyle::Date),
    }
}

/// The line above the objects.
pub fn list_head(style: MomentStyle) -> &'static str
    ensures { result.now ≡ list_head style }
{
    match style {
        MomentStyle::Number => {
            "    OBJECT  STATE      SIZE     CREATED     CHANGED  ATTRIBUTE\n"
        }
        MomentStyle::Date => {
            "    OBJECT  STATE      SIZE  CREATED                      CHANGED                      ATTRIBUTE\n"
        }
    }
}

/// The line of an object.
pub fn listed_line(alloc: Global, row: &Listed, style: MomentStyle) -> Result<String, AllocError>
    ensures { IfOk result (λ line. string_bytes line ≡ listed_line style row.now) }
{
    let (object, size, state) = (row.object.number(), row.size, state_text(row.is_live));
    let created = moment_column(alloc, row.created, style)?;
    let changed = moment_column(alloc, row.changed, style)?;
    let attribute = printed_attribute(alloc, row.attribute.as_slice())?;
    format!(in alloc; "{object:10}  {state}  {size:6}  {created}  {changed}  {attribute}\n")
}

fn kind_text(kind: Kind) -> &'static str
    ensures { result.now ≡ kind_text kind }
{
    match kind {
        Kind::Made => "made      ",
        Kind::Deleted => "deleted   ",
        Kind::Continued => "continued ",
        Kind::Attribute => "attribute ",
        Kind::Cut => "cut       ",
        Kind::Written => "written   ",
        Kind::Lengthened => "lengthened",
        Kind::Touched => "touched   ",
    }
}

fn added_text(alloc: Global, change: &ObjectChange) -> Result<String, AllocError>
    ensures { IfOk result (λ text. string_bytes text ≡ added_text change.now) }
{
    let (before, after) = (change.size_before, change.size_after);
    if after <= before {
        return Ok(String::new(alloc));
    }
    let count = after - before;
    format!(in alloc; "  {count} bytes added at {before}")
}

fn blocks_text(alloc: Global, blocks: Option<Blocks>) -> Result<String, AllocError>
    ensures { IfOk result (λ text. string_bytes text ≡ blocks_text blocks) }
{
    let Some(blocks) = blocks else {
        return Ok(String::new(alloc));
    };
    let first = BLOCK_BYTES * blocks.first as u64;
    let last = BLOCK_BYTES * blocks.last as u64 + (BLOCK_BYTES - 1);
    format!(in alloc; "  blocks {first}-{last}")
}

/// The end of a line that has attributes, those before and those after a change.
pub fn attributes_text(alloc: Global, before: &[u8], after: &[u8]) -> Result<String, AllocError>
    ensures { IfOk result (λ text. string_bytes text ≡ attributes_text before.now after.now) }
{
    let before = printed_attribute(alloc, before)?;
    let after = printed_attribute(alloc, after)?;
    format!(in alloc; "  {before} -> {after}")
}

fn pair_text(alloc: Global, pair: &Option<Pair>) -> Result<String, AllocError>
    ensures { IfOk result (λ text. string_bytes text ≡ pair_text pair.now) }
{
    match pair {
        Some(pair) => attributes_text(alloc, pair.before.as_slice(), pair.after.as_slice()),
        None => Ok(String::new(alloc)),
    }
}

fn detail_text(alloc: Global, change: &ObjectChange) -> Result<String, AllocError>
    ensures { IfOk result (λ text. string_bytes text ≡ detail_text change.now) }
{
    let added = added_text(alloc, change)?;
    let blocks = blocks_text(alloc, change.blocks)?;
    let pair = pair_text(alloc, &change.pair)?;
    format!(in alloc; "{added}{blocks}{pair}")
}

/// The line above the rows of a log.
pub fn log_head(style: MomentStyle) -> &'static str
    ensures { result.now ≡ log_head style }
{
    match style {
        MomentStyle::Number => "    MOMENT      OBJECT  CHANGE      BEFORE   AFTER\n",
        MomentStyle::Date => {
            "MOMENT                           OBJECT  CHANGE      BEFORE   AFTER\n"
        }
    }
}

fn change_line(
    alloc: Global,
    object: ObjectId,
    change: &ObjectChange,
    style: MomentStyle,
) -> Result<String, AllocError>
    ensures { IfOk result (λ line. string_bytes line ≡ change_line style object change.now) }
{
    let moment = moment_column(alloc, change.moment, style)?;
    let (object, kind) = (object.number(), kind_text(change.kind));
    let (before, after) = (change.size_before, change.size_after);
    let detail = detail_text(alloc, change)?;
    format!(in alloc; "{moment}  {object:10}  {kind}  {before:6}  {after:6}{detail}\n")
}

// Whose moments are hidden, where they aren't those of all objects.
pub(crate) fn hidden_of(alloc: Global, object: ObjectId) -> Result<String, AllocError>
    ensures { IfOk result (λ text. string_bytes text ≡ hidden_of object) }
{
    let number = object.number();
    if number == 0 {
        return Ok(String::new(alloc));
    }
    format!(in alloc; " of object {number}")
}

fn hidden_line(alloc: Global, run: &Span, style: MomentStyle) -> Result<String, AllocError>
    ensures { IfOk result (λ line. string_bytes line ≡ hidden_line style run.now) }
{
    let first = moment_column(alloc, run.first, style)?;
    let last = moment_text(alloc, run.last.number(), style)?;
    let object = hidden_of(alloc, run.object)?;
    format!(in alloc; "{first}-{last} hidden by a flush{object}\n")
}

/// The line of a row of a log.
pub fn log_line(alloc: Global, row: &LogRow, style: MomentStyle) -> Result<String, AllocError>
    ensures { IfOk result (λ line. string_bytes line ≡ log_line style row.now) }
{
    match row {
        LogRow::Changed { object, change } => change_line(alloc, *object, change, style),
        LogRow::Hidden(run) => hidden_line(alloc, run, style),
    }
}

/// The line above what the changes of objects come to.
pub fn stat_head(style: MomentStyle) -> &'static str
    ensures { result.now ≡ stat_head style }
{
    match style {
        MomentStyle::Number => "    OBJECT     CHANGES       FIRST        LAST  KINDS\n",
        MomentStyle::Date => {
            "    OBJECT     CHANGES  FIRST                        LAST                         KINDS\n"
        }
    }
}

// How many changes are of one kind, after its word; nothing where none is.
fn kind_count(alloc: Global, kind: Kind, count: u64) -> Result<String, AllocError>
    ensures { IfOk result (λ text. string_bytes text ≡ kind_count kind count) }
{
    if count == 0 {
        return Ok(String::new(alloc));
    }
    let word = kind_word(kind);
    format!(in alloc; "  {word} {count}")
}

// How many changes are of each kind between the one that makes an object and the one that deletes
// it.
fn between_text(alloc: Global, kinds: &KindCounts) -> Result<String, AllocError>
    ensures { IfOk result (λ text. string_bytes text ≡ between_text kinds.now) }
{
    let written = kind_count(alloc, Kind::Written, kinds.written)?;
    let lengthened = kind_count(alloc, Kind::Lengthened, kinds.lengthened)?;
    let cut = kind_count(alloc, Kind::Cut, kinds.cut)?;
    let attribute = kind_count(alloc, Kind::Attribute, kinds.attribute)?;
    let touched = kind_count(alloc, Kind::Touched, kinds.touched)?;
    format!(in alloc; "{written}{lengthened}{cut}{attribute}{touched}")
}

fn kinds_text(alloc: Global, kinds: &KindCounts) -> Result<String, AllocError>
    ensures { IfOk result (λ text. string_bytes text ≡ kinds_text kinds.now) }
{
    let made = kind_count(alloc, Kind::Made, kinds.made)?;
    let between = between_text(alloc, kinds)?;
    let deleted = kind_count(alloc, Kind::Deleted, kinds.deleted)?;
    format!(in alloc; "{made}{between}{deleted}")
}

/// The line of what the changes of an object come to.
pub fn stat_line(alloc: Global, stat: &ObjectStat, style: MomentStyle) -> Result<String, AllocError>
    ensures { IfOk result (λ line. string_bytes line ≡ stat_line style stat.now) }
{
    let (object, changes) = (stat.object.number(), stat.changes);
    let first = moment_column(alloc, stat.first, style)?;
    let last = moment_column(alloc, stat.last, style)?;
    let kinds = kinds_text(alloc, &stat.kinds)?;
    format!(in alloc; "{object:10}  {changes:10}  {first}  {last}{kinds}\n")
}

fn frames_text(alloc: Global, numbers: &DriveNumbers) -> Result<String, AllocError>
    ensures { IfOk result (λ text. string_bytes text ≡ frames_text numbers.now) }
{
    let (frames, free, retired) = (numbers.frames, numbers.free, numbers.retired);
    format!(in alloc; "frames {frames}\nfree {free}\nretired {retired}\n")
}

fn counts_text(alloc: Global, numbers: &DriveNumbers) -> Result<String, AllocError>
    ensures { IfOk result (λ text. string_bytes text ≡ counts_text numbers.now) }
{
    let (room, live, deleted) = (numbers.room, numbers.live, numbers.deleted);
    format!(in alloc; "room {room}\nlive {live}\ndeleted {deleted}\n")
}

fn moments_text(
    alloc: Global,
    numbers: &DriveNumbers,
    style: MomentStyle,
) -> Result<String, AllocError>
    ensures { IfOk result (λ text. string_bytes text ≡ moments_text style numbers.now) }
{
    let (next, window) = (numbers.next, numbers.window);
    let clock = moment_text(alloc, numbers.clock, style)?;
    let floor = moment_text(alloc, numbers.floor, style)?;
    format!(in alloc; "next {next}\nclock {clock}\nwindow {window}\nfloor {floor}\n")
}

fn hidden_text(alloc: Global, numbers: &DriveNumbers) -> Result<String, AllocError>
    ensures { IfOk result (λ text. string_bytes text ≡ hidden_text numbers.now) }
{
    let (hidden, objects) = (numbers.hidden, numbers.hidden_objects);
    format!(in alloc; "hidden {hidden}\nhidden_objects {objects}\n")
}

/// The lines of a drive's numbers.
pub fn numbers_lines(
    alloc: Global,
    numbers: &DriveNumbers,
    style: MomentStyle,
) -> Result<String, AllocError>
    ensures { IfOk result (λ lines. string_bytes lines ≡ numbers_lines style numbers.now) }
{
    let frames = frames_text(alloc, numbers)?;
    let counts = counts_text(alloc, numbers)?;
    let moments = moments_text(alloc, numbers, style)?;
    let hidden = hidden_text(alloc, numbers)?;
    format!(in alloc; "{frames}{counts}{moments}{hidden}")
}
