//! A restore says how many versions age by it.
ghost use Rattle.std.specs.Prelude.{◌≡◌, ◌+◌, ◌^◌, ◌<◌, [], Some, false, IfOk, OnOk, string_bytes};
ghost use Rattle.serde_json.specs.View.{view};
ghost use Rattle.drive.specs.Fields.{state_in};
ghost use Rattle.moment_words.specs.Texts as styles;
ghost use Rattle.s4_images.specs.Failures.{IsInStyle};
ghost use Rattle.s4_images.specs.declared.commands.Verdict.TheVariants.{Fine};
ghost use Rattle.restore_orders.specs.Orders.{RestoresBy};
ghost use Rattle.s4_restore.specs.Counting.{RestoresCounted, WouldRestoreCounted, aged_data};
ghost use Rattle.s4_restore.specs.Counting.{aged_json, aged_line, aged_text};

use drive::Drive;
use history_aging::{aged_count, ended_versions};
use history_text::{json_line, no_members, object_of, with_number, with_text};
use image_commands::write_out;
use moment_words::style_of;
use restore_orders::Order;
use s4_images::{DriveChange, DriveCommand, Failure, Verdict};
use s4_types::Refusal;
use segment_word::Naming;
use serde_json::Value;
use serving::{MemorySink, Sink};
use std::alloc::{AllocError, Global};

/// An order, of which it is also said how many versions age by it.
#[derive(Clone, Copy)]
pub(crate) struct Counted<'a> {
    pub order: &'a Order<'a>,
}

impl DriveChange for Counted<'_> {
    ghost changes = { λ it d later. RestoresCounted d later it.order.now };

    fn make<J: Naming, W: Sink>(
        &self,
        alloc: Global,
        drive: &mut Drive<J>,
        writer: &mut W,
    ) -> Result<(), Failure> {
        restore_counted(alloc, drive, self.order, writer)
    }
}

// The same of a drive that isn't saved.
impl DriveCommand for Counted<'_> {
    ghost shows = { λ it d verdict output output'. (verdict ≡ Fine) × WouldRestoreCounted d it.order.now output output' };

    ghost fails = { λ it d. IsInStyle (styles.style_of (state_in d).clock false) };

    fn perform<J: Naming, W: Sink>(
        &self,
        alloc: Global,
        drive: &mut Drive<J>,
        writer: &mut W,
    ) -> Result<Verdict, Failure> {
        let style = style_of(drive.clock().number(), false);
        match restore_counted(alloc, drive, self.order, writer) {
            Ok(()) => Ok(Verdict::Fine),
            Err(failure) => Err(failure.in_style(style)),
        }
    }
}

// Restores a drive, and prints what was done and how many versions age by it.
fn restore_counted<J: Naming, W: Sink>(
    alloc: Global,
    drive: &mut Drive<J>,
    order: &Order<'_>,
    writer: &mut W,
) -> Result<(), Failure>
    requires writer { W.failures writer.old + 1 < 2 ^ 64 }
    ensures restores { OnOk result
        (RestoresCounted drive.old drive.new order.now (W.passed writer.old)
        (W.passed writer.new)) }
{
    // once it is restored what has aged may be gone
    let ends = ended_versions(alloc, drive)?;
    let lines = restored_lines(alloc, drive, order)?;
    let count = aged_count(ends.as_slice(), drive.floor());
    let line = aged_text(alloc, order.json, count as u64)?;
    write_out(writer, lines.as_slice())?;
    write_out(writer, line.as_bytes())?;
    Ok(())
}

// Restores a drive, and gives the lines of what was done.
fn restored_lines<J: Naming>(
    alloc: Global,
    drive: &mut Drive<J>,
    order: &Order<'_>,
) -> Result<MemorySink, Failure>
    ensures lines { IfOk result
        (λ lines. RestoresBy drive.old drive.new order.now (Some []) (Some lines.bytes.items)) }
{
    let mut lines = MemorySink::new(alloc);
    match order.make(alloc, drive, &mut lines) {
        Ok(()) => Ok(lines),
        // The lines are in memory, so what fails there is a growth.
        Err(Failure::WriteFailed) => Err(Failure::from(Refusal::NoMemory)),
        Err(failure) => Err(failure),
    }
}

// ---- the line

fn aged_value(alloc: Global, count: u64) -> Result<Value, AllocError>
    ensures { IfOk result (λ value. view value ≡ aged_data count) }
{
    let made = with_text(alloc, no_members(alloc), "done", "aged");
    object_of(with_number(alloc, made, "versions", count))
}

fn aged_json(alloc: Global, count: u64) -> Result<String, AllocError>
    ensures { IfOk result (λ line. string_bytes line ≡ aged_json count) }
{
    let value = aged_value(alloc, count)?;
    json_line(alloc, &value)
}

fn aged_line(alloc: Global, count: u64) -> Result<String, AllocError>
    ensures { IfOk result (λ line. string_bytes line ≡ aged_line count) }
{
    if count == 1 {
        return format!(in alloc; "1 version ages by this\n");
    }
    format!(in alloc; "{count} versions age by this\n")
}

// The line of how many versions age, if any do.
fn aged_text(alloc: Global, json: bool, count: u64) -> Result<String, AllocError>
    ensures { IfOk result (λ line. string_bytes line ≡ aged_text json count) }
{
    if count == 0 {
        return Ok(String::new(alloc));
    }
    if json {
        return aged_json(alloc, count);
    }
    aged_line(alloc, count)
}
