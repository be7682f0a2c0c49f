//! Counting the runs of hidden moments, by which lists of spans are limited.
ghost use Rattle.std.specs.Prelude.{◌≡◌, ℕ, ◌==◌, ◌&&◌, ◌||◌, nat_lt, OnOk, IfOk, IfErr};
ghost use Rattle.std.specs.List.{list_any};
ghost use Rattle.s4_model.specs.Visible.{is_within};
ghost use Rattle.s4_model.specs.Runs.{is_covered, is_first, run_count, run_count_of_all};
ghost use Rattle.s4_model.specs.RunCounting.{AllEndBy, noted};
ghost use Rattle.s4_types.specs.declared.limits.TheConstants.{RUNS_IN_A_LIST, RUNS_IN_ALL};
ghost use Rattle.s4_types.specs.declared.refusals.Refusal.TheVariants.{NoMemory};

use crate::hidden;
use s4_types::limits::{RUNS_IN_A_LIST, RUNS_IN_ALL};
use s4_types::{Moment, ObjectId, Refusal, Span};
use std::alloc::Global;

/// Whether a span of the list has the moment in it.
fn is_listed(spans: &[Span], list: ObjectId, at: Moment) -> bool
    ensures { result ≡ list_any (λ span. span.object == list && is_within span at) spans.now }
{
    spans
        .iter()
        .any(|span| span.object == list && hidden::is_within(*span, at))
}

/// Whether a list of spans covers a moment at or above the floor.
fn is_covered(floor: Moment, spans: &[Span], list: ObjectId, at: Moment) -> bool
    ensures { result ≡ is_covered floor spans.now list at }
{
    floor <= at && is_listed(spans, list, at)
}

/// Whether a run of the list begins at a moment.
fn begins_run(floor: Moment, spans: &[Span], list: ObjectId, at: Moment) -> bool
    ensures { result ≡ is_first (is_covered floor spans.now list) at }
{
    if !is_covered(floor, spans, list, at) {
        return false;
    }
    let number = at.number();
    !(number > 0 && is_covered(floor, spans, list, Moment::new(number - 1)))
}

/// Notes the first moment of a run, once.
fn note_first(firsts: &mut Vec<u64>, first: u64, begins: bool) -> Result<(), Refusal>
    ensures ok { OnOk result (firsts.new.items ≡ noted firsts.old.items first begins) }
    ensures err { IfErr result (λ refusal. refusal ≡ NoMemory) }
{
    if begins && !firsts.contains(&first) {
        firsts.push(first)?;
    }
    Ok(())
}

/// How many runs a list of spans has. Each begins at the first moment of a span, or at the floor.
fn run_count(alloc: Global, floor: Moment, spans: &[Span], list: ObjectId) -> Result<usize, Refusal>
    ensures ok { IfOk result (λ count. (clock : ℕ) → AllEndBy clock spans.now →
        count ≡ run_count (is_covered floor spans.now list) clock) }
    ensures err { IfErr result (λ refusal. refusal ≡ NoMemory) }
{
    let mut firsts = Vec::new(alloc);
    for span in spans {
        let first = span.first.number().max(floor.number());
        let begins = begins_run(floor, spans, list, Moment::new(first));
        note_first(&mut firsts, first, begins)?;
    }
    Ok(firsts.len())
}

/// Whether all lists together, of all objects and of those below `next`, have more runs than they
/// may.
fn are_too_many(
    alloc: Global,
    floor: Moment,
    spans: &[Span],
    next: ObjectId,
) -> Result<bool, Refusal>
    ensures ok { IfOk result (λ too_many. (clock : ℕ) → AllEndBy clock spans.now →
        too_many ≡ nat_lt RUNS_IN_ALL (run_count_of_all floor spans.now clock next)) }
    ensures err { IfErr result (λ refusal. refusal ≡ NoMemory) }
{
    let mut total = 0usize;
    for list in 0..next.number() {
        let count = run_count(alloc, floor, spans, ObjectId::new(list))?;
        if count > RUNS_IN_ALL - total {
            return Ok(true);
        }
        total += count;
    }
    Ok(false)
}

/// Whether one list, or all lists together, have more runs than they may.
pub fn are_runs_too_many(
    alloc: Global,
    floor: Moment,
    spans: &[Span],
    list: ObjectId,
    next: ObjectId,
) -> Result<bool, Refusal>
    ensures ok { IfOk result (λ too_many. (clock : ℕ) → AllEndBy clock spans.now →
        too_many ≡ (nat_lt RUNS_IN_A_LIST (run_count (is_covered floor spans.now list) clock)
        || nat_lt RUNS_IN_ALL (run_count_of_all floor spans.now clock next))) }
    ensures err { IfErr result (λ refusal. refusal ≡ NoMemory) }
{
    if run_count(alloc, floor, spans, list)? > RUNS_IN_A_LIST {
        return Ok(true);
    }
    are_too_many(alloc, floor, spans, next)
}
