//! What a compaction prints.
ghost use Rattle.std.specs.Prelude.{◌≡◌, false, IfOk, string_bytes};
ghost use Rattle.serde_json.specs.View.{view};
ghost use Rattle.serde_json.specs.Written.{has_float};
ghost use Rattle.s4_compact.specs.Compacting.{cleaning_word, ending_word, pass_word, advice};
ghost use Rattle.s4_compact.specs.Compacting.{room_text, work_text, end_text, held_text};
ghost use Rattle.s4_compact.specs.Compacting.{report_text, report_data, report_line, printed};

use drive_compaction::{Compaction, Ending, FullPass};
use history_text::{json_line, no_members, object_of, with_number, with_text};
use serde_json::Value;
use std::alloc::{AllocError, Global};

/// What a compaction came to, as it is printed.
#[derive(Clone, Copy)]
pub struct Report {
    /// Whether objects were cleaned.
    pub cleans: bool,
    /// What was done, and what is left in the end.
    pub compaction: Compaction,
    /// How the full pass ended that follows it.
    pub pass: FullPass,
    /// How many data blocks are held, then.
    pub data_blocks: usize,
    /// How many blocks are held for the past alone, then.
    pub past: usize,
}

// How far the cleaner came.
fn cleaning_word(report: &Report) -> &'static str
    ensures { result.now ≡ cleaning_word report.now }
{
    if !report.cleans {
        return "none";
    }
    if report.compaction.work.is_cleaned {
        "whole"
    } else {
        "stopped"
    }
}

// Why the turns ended.
fn ending_word(ending: Ending) -> &'static str
    ensures { result.now ≡ ending_word ending }
{
    match ending {
        Ending::Done => "done",
        Ending::OutOfRoom => "no room",
        Ending::Limit => "limit",
    }
}

// How the full pass ended.
fn pass_word(pass: FullPass) -> &'static str
    ensures { result.now ≡ pass_word pass }
{
    match pass {
        FullPass::Made => "made",
        FullPass::CostsRoom => "costs room",
        FullPass::Refused => "refused",
    }
}

// Whether hiding moments would give more room.
fn advice(alloc: Global, past: usize) -> Result<String, AllocError>
    ensures { IfOk result (λ text. string_bytes text ≡ advice past) }
{
    if past == 0 {
        return format!(in alloc; "only a larger image gives more room\n");
    }
    format!(in alloc; "{past} blocks are held for the past alone; hiding its moments frees them\n")
}

// How much room there was and is.
fn room_text(alloc: Global, report: &Report) -> Result<String, AllocError>
    ensures { IfOk result (λ text. string_bytes text ≡ room_text report.now) }
{
    let (before, after) = (report.compaction.room_before, report.compaction.room_after);
    let (free, freed) = (report.compaction.free_before, report.compaction.free_after);
    format!(in alloc;
        "room_before {before}\nroom_after {after}\nfree_before {free}\nfree_after {freed}\n"
    )
}

// What was done for it.
fn work_text(alloc: Global, report: &Report) -> Result<String, AllocError>
    ensures { IfOk result (λ text. string_bytes text ≡ work_text report.now) }
{
    let (turns, work) = (report.compaction.turns, report.compaction.work);
    let (rewritten, removed) = (work.rewritten, work.removed);
    let (frames, moves) = (work.frames, work.moves);
    format!(in alloc;
        "turns {turns}\nrewritten {rewritten}\nremoved {removed}\nemptied {frames}\nmoves {moves}\n"
    )
}

// How it ended.
fn end_text(alloc: Global, report: &Report) -> Result<String, AllocError>
    ensures { IfOk result (λ text. string_bytes text ≡ end_text report.now) }
{
    let (cleaning, ending) = (cleaning_word(report), ending_word(report.compaction.ending));
    format!(in alloc; "cleaning {cleaning}\nending {ending}\n")
}

// How the full pass ended, and what is held then.
fn held_text(alloc: Global, report: &Report) -> Result<String, AllocError>
    ensures { IfOk result (λ text. string_bytes text ≡ held_text report.now) }
{
    let (pass, held, past) = (pass_word(report.pass), report.data_blocks, report.past);
    format!(in alloc; "full_pass {pass}\ndata {held}\npast {past}\n")
}

// The lines that people read.
fn report_text(alloc: Global, report: &Report) -> Result<String, AllocError>
    ensures { IfOk result (λ text. string_bytes text ≡ report_text report.now) }
{
    let room = room_text(alloc, report)?;
    let work = work_text(alloc, report)?;
    let end = end_text(alloc, report)?;
    let held = held_text(alloc, report)?;
    let advice = advice(alloc, report.past)?;
    format!(in alloc; "{room}{work}{end}{held}{advice}")
}

fn report_value(alloc: Global, report: &Report) -> Result<Value, AllocError>
    ensures { IfOk result (λ value. view value ≡ report_data report.now) }
{
    let (compaction, work) = (report.compaction, report.compaction.work);
    let (room_before, room_after) = (compaction.room_before as u64, compaction.room_after as u64);
    let made = with_number(alloc, no_members(alloc), "room_before", room_before);
    let made = with_number(alloc, made, "room_after", room_after);
    let made = with_number(
        alloc,
        made,
        "free_before",
        u64::from(compaction.free_before),
    );
    let made = with_number(alloc, made, "free_after", u64::from(compaction.free_after));
    let made = with_number(alloc, made, "turns", u64::from(compaction.turns));
    let made = with_number(alloc, made, "rewritten", work.rewritten);
    let made = with_number(alloc, made, "removed", work.removed);
    let made = with_number(alloc, made, "emptied", work.frames);
    let made = with_number(alloc, made, "moves", work.moves);
    let made = with_text(alloc, made, "cleaning", cleaning_word(report));
    let made = with_text(alloc, made, "ending", ending_word(compaction.ending));
    let made = with_text(alloc, made, "full_pass", pass_word(report.pass));
    let made = with_number(alloc, made, "data", report.data_blocks as u64);
    object_of(with_number(alloc, made, "past", report.past as u64))
}

// The line that programs read.
fn report_line(alloc: Global, report: &Report) -> Result<String, AllocError>
    ensures { IfOk result (λ line. string_bytes line ≡ report_line report.now) }
{
    let value = report_value(alloc, report)?;
    json_line(alloc, &value)
}

/// What is printed: lines for people, or with `json` one object.
pub(crate) fn printed(alloc: Global, json: bool, report: &Report) -> Result<String, AllocError>
    ensures { IfOk result (λ text. string_bytes text ≡ printed json report.now) }
{
    if json {
        return report_line(alloc, report);
    }
    report_text(alloc, report)
}
