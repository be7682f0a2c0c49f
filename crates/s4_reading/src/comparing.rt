//! `diff`: what differs between two moments.
ghost use Rattle.std.specs.Prelude.{◌≡◌, ◌+◌, ◌^◌, ◌<◌, IfOk};
ghost use Rattle.drive.specs.Fields.{state_in};
ghost use Rattle.history_diff.specs.Diffing.{TellsDifferences};
ghost use Rattle.s4_reading.specs.Comparing.{Compares, comparison_asked, detail_asked, differs_by};

use drive::Drive;
use history_diff::{Detail, DiffFault, Stop, write_differences};
use moment_words::style_of;
use s4_command::DiffAsked;
use s4_images::{
    Failure, Verdict, moment_given, moment_or_clock, moment_said, object_in_either, unreadable,
};
use s4_types::{ObjectId, Refusal};
use segment_word::Naming;
use serving::Sink;
use std::alloc::Global;

/// Prints what differs in a drive between two moments. `Differs` where anything does.
pub(crate) fn write_compared<J: Naming, W: Sink>(
    alloc: Global,
    drive: &mut Drive<J>,
    asked: &DiffAsked<'_>,
    writer: &mut W,
) -> Result<Verdict, Failure>
    requires writer { W.failures writer.old + 1 < 2 ^ 64 }
    ensures compares { IfOk result
        (λ verdict. Compares drive.old asked.now verdict (W.passed writer.old)
        (W.passed writer.new)) }
{
    let first = moment_said(drive, asked.from)?;
    let second = moment_or_clock(drive, asked.to)?;
    let object = object_in_either(drive, asked.object, asked.name, first, second)?;
    write_differing(alloc, drive, object, asked, writer)
}

// Prints what differs of an object, or of all, between the two moments.
fn write_differing<J: Naming, W: Sink>(
    alloc: Global,
    drive: &mut Drive<J>,
    object: Option<ObjectId>,
    asked: &DiffAsked<'_>,
    writer: &mut W,
) -> Result<Verdict, Failure>
    requires writer { W.failures writer.old + 1 < 2 ^ 64 }
    ensures told { IfOk result
        (λ verdict. TellsDifferences (state_in drive.old)
        (comparison_asked (state_in drive.old) asked.now object) (differs_by verdict)
        (W.passed writer.old) (W.passed writer.new)) }
{
    let comparison = comparison_asked(drive, asked, object)?;
    match write_differences(alloc, drive, &comparison, writer) {
        Ok(differs) => Ok(verdict_of(differs)),
        Err(fault) => Err(failure_of(drive, &comparison, &fault)),
    }
}

fn comparison_asked<J: Naming>(
    drive: &Drive<J>,
    asked: &DiffAsked<'_>,
    object: Option<ObjectId>,
) -> Result<history_diff::DiffAsked, Failure>
    ensures { IfOk result
        (λ comparison. comparison ≡ comparison_asked (state_in drive.now) asked.now object) }
{
    let before = moment_said(drive, asked.from)?;
    let after = moment_given(drive, asked.to)?;
    Ok(history_diff::DiffAsked {
        object,
        before,
        after,
        json: asked.json,
        detail: detail_asked(asked),
        raw: asked.raw,
        style: style_of(drive.clock().number(), asked.moments),
    })
}

fn detail_asked(asked: &DiffAsked<'_>) -> Detail
    ensures { result ≡ detail_asked asked.now }
{
    match (asked.patch, asked.text) {
        (true, _) => Detail::Bytes,
        (false, true) => Detail::Lines,
        (false, false) => Detail::Ranges,
    }
}

fn verdict_of(differs: bool) -> Verdict
    ensures { differs_by result ≡ differs }
{
    if differs {
        Verdict::Differs
    } else {
        Verdict::Fine
    }
}

// The failure of what stopped the comparison.
fn failure_of<J: Naming>(
    drive: &Drive<J>,
    comparison: &history_diff::DiffAsked,
    fault: &DiffFault,
) -> Failure {
    match fault {
        DiffFault::Unreadable(moment) => {
            let judged = comparison.object.unwrap_or(ObjectId::new(0));
            unreadable(drive, judged, *moment)
        }
        DiffFault::Stopped(Stop::Refused(refusal)) => Failure::from(*refusal),
        DiffFault::Stopped(Stop::NoMemory) => Failure::from(Refusal::NoMemory),
        DiffFault::Stopped(Stop::WriteFailed) => Failure::WriteFailed,
    }
}
