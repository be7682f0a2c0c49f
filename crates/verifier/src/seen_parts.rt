//! The numbers, spans and audit rows of a drive as they are once it has seen a moment.
ghost use Rattle.std.specs.Prelude.{◌≡◌, ◌++◌, filter, map, IfOk, IfErr};
ghost use Rattle.s4_types.specs.declared.refusals.Refusal.TheVariants.{NoMemory};
ghost use Rattle.s4_model.specs.Audit.{audit_of, rows_from as the_rows_from, AreAuditRows};
ghost use Rattle.s4_model.specs.State.{seen};
ghost use Rattle.window.specs.Runs.{cut as the_cut, is_live};
ghost use Rattle.drive.specs.Fields.{state_in};
ghost use Rattle.verifier.specs.Saved.{AreSpansOf};

use drive::Drive;
use s4_types::{AuditRow, Moment, Refusal, Span};
use segment_word::Naming;
use std::alloc::Global;

/// The clock of a drive once it has seen a moment.
pub(crate) fn clock_seen<J: Naming>(drive: &Drive<J>, moment: Moment) -> Moment
    ensures { result ≡ (seen (state_in drive.now) moment).clock }
{
    Moment::new(drive.clock().number().max(moment.number()))
}

/// The floor of a drive once it has seen a moment.
pub(crate) fn floor_seen<J: Naming>(drive: &Drive<J>, moment: Moment) -> Moment
    ensures { result ≡ (seen (state_in drive.now) moment).floor }
{
    let clock = clock_seen(drive, moment).number();
    let reached = clock.saturating_sub(drive.window());
    Moment::new(drive.floor().number().max(reached))
}

/// Leaves out the spans that end below a floor.
fn sift(spans: &mut Vec<Span>, floor: Moment)
    ensures { spans.new.items ≡ filter (is_live floor) spans.old.items }
{
    let lowest = floor.number();
    spans.retain(|span| lowest <= span.last.number());
}

/// What is left of a span without its moments below a floor.
fn cut(span: &Span, floor: Moment) -> Span
    ensures { result ≡ the_cut floor span.now }
{
    Span {
        object: span.object,
        first: Moment::new(span.first.number().max(floor.number())),
        last: span.last,
    }
}

/// Puts spans after others, each without its moments below a floor.
fn push_cut(all: &mut Vec<Span>, spans: &[Span], floor: Moment) -> Result<(), Refusal>
    ensures ok { IfOk result (λ _. all.new.items ≡ all.old.items ++ map (the_cut floor) spans.now) }
    ensures err { IfErr result (λ refusal. refusal ≡ NoMemory) }
{
    for span in spans {
        all.push(cut(span, floor))?;
    }
    Ok(())
}

/// Spans without their moments below a floor.
fn spans_from(alloc: Global, spans: Vec<Span>, floor: Moment) -> Result<Vec<Span>, Refusal>
    ensures ok { IfOk result
        (λ left. left.items ≡ map (the_cut floor) (filter (is_live floor) spans.items)) }
    ensures err { IfErr result (λ refusal. refusal ≡ NoMemory) }
{
    let mut reaching = spans;
    sift(&mut reaching, floor);
    let mut left = Vec::with_capacity(alloc, reaching.len())?;
    push_cut(&mut left, reaching.as_slice(), floor)?;
    Ok(left)
}

/// The spans of a drive once it has seen a moment.
///
/// NoMemory alone, where the memory for them is refused.
pub(crate) fn spans_seen<J: Naming>(
    alloc: Global,
    drive: &Drive<J>,
    moment: Moment,
) -> Result<Vec<Span>, Refusal>
    ensures spans { IfOk result
        (λ spans. AreSpansOf (seen (state_in drive.now) moment) spans.items) }
    ensures refusal { IfErr result (λ e. e ≡ NoMemory) }
{
    let spans = drive.spans()?;
    spans_from(alloc, spans, floor_seen(drive, moment))
}

/// Rows of an audit from a moment on, in memory of their own.
fn rows_from(alloc: Global, rows: &[AuditRow], from: Moment) -> Result<Vec<AuditRow>, Refusal>
    ensures ok { IfOk result (λ left. left.items ≡ the_rows_from from rows.now) }
    ensures err { IfErr result (λ refusal. refusal ≡ NoMemory) }
{
    let lowest = from.number();
    let mut left = Vec::new(alloc);
    left.extend_from_slice(rows)?;
    left.retain(|row| lowest <= row.moment.number());
    Ok(left)
}

/// The rows of a drive's audit once it has seen a moment.
///
/// NoMemory alone, where the memory for them is refused.
pub(crate) fn audit_seen<J: Naming>(
    alloc: Global,
    drive: &Drive<J>,
    moment: Moment,
) -> Result<Vec<AuditRow>, Refusal>
    ensures rows { IfOk result
        (λ rows. rows.items ≡ audit_of (seen (state_in drive.now) moment)) }
    ensures kept { IfOk result
        (λ rows. AreAuditRows (seen (state_in drive.now) moment).floor
        (seen (state_in drive.now) moment).clock (state_in drive.now).next rows.items) }
    ensures refusal { IfErr result (λ e. e ≡ NoMemory) }
{
    let rows = drive.audit_rows()?;
    rows_from(alloc, rows.as_slice(), floor_seen(drive, moment))
}
