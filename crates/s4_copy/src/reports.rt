//! What a copy prints.
ghost use Rattle.std.specs.Prelude.{◌≡◌, false, IfOk, string_bytes};
ghost use Rattle.serde_json.specs.View.{view};
ghost use Rattle.serde_json.specs.Written.{has_float};
ghost use Rattle.s4_copy.specs.Copying.{printed, report_data, report_line, report_text};

use history_text::{json_line, no_members, object_of, with_number};
use serde_json::Value;
use std::alloc::{AllocError, Global};

/// The numbers of a copy, as they are printed.
#[derive(Clone, Copy)]
pub struct Report {
    /// How many frames it has.
    pub frames: u16,
    /// How many objects are in it, those that are deleted and still have a past among them.
    pub objects: u32,
    /// How many of the image aren't in it.
    pub left_out: u32,
    /// How many versions of these could be read, as `check` counts them. The count stops at
    /// 2^64 - 1, far above what a drive can have.
    pub versions_left_out: u64,
}

// The lines that people read.
fn report_text(alloc: Global, report: &Report) -> Result<String, AllocError>
    ensures { IfOk result (λ text. string_bytes text ≡ report_text report.now) }
{
    let (frames, objects) = (report.frames, report.objects);
    let (left_out, versions) = (report.left_out, report.versions_left_out);
    format!(in alloc;
        "frames {frames}\nobjects {objects}\nleft_out {left_out}\nversions_left_out {versions}\n"
    )
}

fn report_value(alloc: Global, report: &Report) -> Result<Value, AllocError>
    ensures { IfOk result (λ value. view value ≡ report_data report.now) }
{
    let made = with_number(alloc, no_members(alloc), "frames", u64::from(report.frames));
    let made = with_number(alloc, made, "objects", u64::from(report.objects));
    let made = with_number(alloc, made, "left_out", u64::from(report.left_out));
    object_of(with_number(alloc, made, "versions_left_out", report.versions_left_out))
}

// The line that programs read.
fn report_line(alloc: Global, report: &Report) -> Result<String, AllocError>
    ensures { IfOk result (λ line. string_bytes line ≡ report_line report.now) }
{
    let value = report_value(alloc, report)?;
    let line = json_line(alloc, &value);
    drop(value);
    line
}

/// What is printed: lines for people, or with `json` one object.
pub(crate) fn printed(alloc: Global, json: bool, report: &Report) -> Result<String, AllocError>
    ensures { IfOk result (λ text. string_bytes text ≡ printed json report.now) }
{
    if json {
        return report_line(alloc, report);
    }
    report_text(alloc, report)
}
