//! `check`: every version that can be read is read.
ghost use Rattle.std.specs.Prelude.{◌≡◌, ◌+◌, ◌^◌, ◌<◌, false, OnOk, IfOk, string_bytes};
ghost use Rattle.std.specs.Io.KnownBytes.{Appends};
ghost use Rattle.hex.specs.Hex.{encode_lower};
ghost use Rattle.serde_json.specs.View.{view};
ghost use Rattle.serde_json.specs.Written.{has_float};
ghost use Rattle.history_text.specs.Json.{json_line};
ghost use Rattle.s4_reading.specs.Checking.{Checks, counts_data, counts_text, printed_report};

use crate::watching::Meter;
use drive::Drive;
use history_export::{CheckReport, Checked, check_all};
use history_text::{json_line, no_members, object_of, with_hex, with_number};
use image_commands::write_out;
use s4_command::CheckAsked;
use s4_images::{DriveCommand, Failure, ImageCommand, Verdict};
use s4_types::Role;
use segment_word::Naming;
use serde_json::Value;
use serving::Sink;
use std::alloc::{AllocError, Global};

/// `check`: reads every version of a drive that can be read, shows on the meter how far that has
/// come, and prints how many these are and their digest.
#[derive(Clone, Copy)]
pub struct Checking<'a, M: Meter> {
    pub asked: &'a CheckAsked<'a>,
    /// Where it is shown how far the check has come.
    pub meter: &'a M,
}

impl<M: Meter> ImageCommand for Checking<'_, M> {
    ghost file = { λ it. it.asked.now.image.now };

    ghost as_numbers = { λ it. false };

    fn image(&self) -> &str {
        self.asked.image
    }

    fn has_numbers(&self) -> bool {
        false
    }
}

impl<M: Meter> DriveCommand for Checking<'_, M> {
    ghost shows = { λ it d verdict. Checks d it.asked.now verdict };

    fn perform<J: Naming, W: Sink>(
        &self,
        alloc: Global,
        drive: &mut Drive<J>,
        writer: &mut W,
    ) -> Result<Verdict, Failure> {
        let mut session = drive.session(Role::Client)?;
        let mut meter = *self.meter;
        let checked = check_all(alloc, drive, &mut session, &mut meter);
        meter.end();
        let report = checked?;
        write_report(alloc, &report, self.asked.json, writer)?;
        Ok(Verdict::Fine)
    }
}

// Writes how many versions were read, and their digest.
fn write_report<W: Sink>(
    alloc: Global,
    report: &CheckReport,
    json: bool,
    writer: &mut W,
) -> Result<(), Failure>
    requires writer { W.failures writer.old + 1 < 2 ^ 64 }
    ensures text { OnOk result
        (Appends (W.passed writer.old) (W.passed writer.new) (printed_report json report.now)) }
{
    let text = printed_report(alloc, report, json)?;
    write_out(writer, text.as_bytes())?;
    Ok(())
}

// Lines for people, or one object for programs.
fn printed_report(alloc: Global, report: &CheckReport, json: bool) -> Result<String, AllocError>
    ensures { IfOk result (λ text. string_bytes text ≡ printed_report json report.now) }
{
    if json {
        return report_json(alloc, report);
    }
    let digits = hex::encode(alloc, report.digest.as_slice())?;
    counts_text(alloc, report.checked, digits.as_str())
}

fn counts_text(alloc: Global, checked: Checked, digits: &str) -> Result<String, AllocError>
    ensures { IfOk result (λ text. string_bytes text ≡ counts_text checked digits.now) }
{
    let (versions, bytes) = (checked.versions, checked.bytes);
    format!(in alloc; "versions {versions}\nbytes {bytes}\nsha256 {digits}\n")
}

fn report_value(alloc: Global, report: &CheckReport) -> Result<Value, AllocError>
    ensures { IfOk result
        (λ value. view value ≡ counts_data report.now.checked (encode_lower report.now.digest)) }
{
    let made = with_number(
        alloc,
        no_members(alloc),
        "versions",
        report.checked.versions,
    );
    let made = with_hex(alloc, made, "sha256", report.digest.as_slice());
    object_of(with_number(alloc, made, "bytes", report.checked.bytes))
}

fn report_json(alloc: Global, report: &CheckReport) -> Result<String, AllocError>
    ensures { IfOk result
        (λ line. string_bytes line
        ≡ json_line (counts_data report.now.checked (encode_lower report.now.digest))) }
{
    let value = report_value(alloc, report)?;
    let line = json_line(alloc, &value);
    drop(value);
    line
}
