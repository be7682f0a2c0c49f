//! Runs of hidden moments in order, of all lists in one slice.
ghost use Rattle.std.specs.Prelude.{◌≡◌, ℕ, ◌==◌, ◌≤◌, ◌||◌, nat_le, nat_lt, count_by, true, false};
ghost use Rattle.std.specs.Prelude.{◌∷◌, ◌++◌, filter, map, length, IfOk, IfErr, MatchBool};
ghost use Rattle.std.specs.Prelude.{MatchOption};
ghost use Rattle.std.specs.List.Sorted.{IsPartitionPoint};
ghost use Rattle.s4_model.specs.Visible.{is_within};
ghost use Rattle.window.specs.Runs.{is_before, Ascend, AllEndFrom, cut, joined_span, with_span};
ghost use Rattle.window.specs.Runs.{is_live, earliest, span_is_of, cover, BeginInOrder, IsLeft};
ghost use Rattle.s4_types.specs.declared.refusals.Refusal.TheVariants.{NoMemory};

use s4_types::{Moment, ObjectId, Refusal, Span};
use std::alloc::Global;

/// Whether one run is before another: its list is, or both are of one list and a moment is left out
/// between them.
fn is_before(x: &Span, y: &Span) -> bool
    ensures { result ≡ is_before x.now y.now }
{
    let gap = y.first.number().saturating_sub(x.last.number());
    x.object < y.object || (x.object == y.object && gap > 1)
}

/// The one run that two make.
fn joined(x: &Span, y: &Span) -> Span
    ensures { result ≡ joined_span x.now y.now }
{
    let first = x.first.number().min(y.first.number());
    let last = x.last.number().max(y.last.number());
    Span {
        object: x.object,
        first: Moment::new(first),
        last: Moment::new(last),
    }
}

// Runs with a span and others after them.
fn ended(mut all: Vec<Span>, span: Span, behind: &[Span]) -> Result<Vec<Span>, Refusal>
    ensures ok { IfOk result (λ ended. ended.items ≡ all.items ++ span ∷ behind.now) }
    ensures err { IfErr result (λ refusal. refusal ≡ NoMemory) }
{
    all.push(span)?;
    all.extend_from_slice(behind)?;
    Ok(all)
}

/// How many runs are before a span. Logarithmic in the runs.
fn count_before(runs: &[Span], span: &Span) -> usize
    requires { Ascend runs.now }
    ensures bound { result ≤ length runs.now }
    ensures point { IsPartitionPoint (λ run. is_before run span.now ≡ true)
        (λ run. is_before run span.now ≡ false) runs.now result }
{
    runs.partition_point(|run| is_before(run, span))
}

/// Runs with one more span, joined with those that it overlaps or touches. The others are copied at
/// once, and memory is taken once.
pub fn with_span(alloc: Global, runs: &[Span], added: &Span) -> Result<Vec<Span>, Refusal>
    requires { Ascend runs.now }
    ensures ok { IfOk result (λ all. all.items ≡ with_span added.now runs.now) }
    ensures err { IfErr result (λ refusal. refusal ≡ NoMemory) }
{
    let (before, behind) = runs.split_at(count_before(runs, added));
    let mut all = Vec::with_capacity(alloc, runs.len() + 1)?;
    all.extend_from_slice(before)?;
    let mut span = *added;
    for (i, run) in behind.iter().enumerate() {
        if is_before(&span, run) {
            return ended(all, span, &behind[i..]);
        }
        span = joined(&span, run);
    }
    ended(all, span, &[])
}

/// Leaves out the runs that end below the floor.
pub fn sift(runs: &mut Vec<Span>, floor: Moment)
    ensures { runs.new.items ≡ filter (is_live floor) runs.old.items }
{
    let lowest = floor.number();
    runs.retain(|run| lowest <= run.last.number());
}

/// Leaves out the runs that end below the floor: there is none where a span that was added to them
/// reaches it.
pub fn sift_with(runs: &mut Vec<Span>, added: &Span, floor: Moment)
    requires { floor ≤ added.now.last → AllEndFrom floor runs.old.items }
    ensures { runs.new.items ≡ filter (is_live floor) runs.old.items }
{
    if added.last.number() < floor.number() {
        sift(runs, floor);
    }
}

/// What is left of a run that reaches a floor without its moments below it.
fn cut(run: &Span, floor: Moment) -> Span
    ensures { result ≡ cut floor run.now }
{
    Span {
        object: run.object,
        first: Moment::new(run.first.number().max(floor.number())),
        last: run.last,
    }
}

/// Puts runs after others, each without its moments below a floor that it reaches. Linear in the
/// runs.
pub fn push_cut(all: &mut Vec<Span>, runs: &[Span], floor: Moment) -> Result<(), Refusal>
    ensures ok { IfOk result (λ _. all.new.items ≡ all.old.items ++ map (cut floor) runs.now) }
    ensures err { IfErr result (λ refusal. refusal ≡ NoMemory) }
{
    for run in runs {
        all.push(cut(run, floor))?;
    }
    Ok(())
}

/// The earliest end of these runs, or the last moment where there is none.
#[tactic(auto, using(crate::proofs::Live::earliest_bound))]
pub fn earliest(runs: &[Span]) -> Moment
    ensures { result ≡ earliest runs.now }
{
    let mut end = Moment::new(u64::MAX);
    for run in runs {
        end = end.min(run.last);
    }
    end
}

/// Whether a run has the moment in it.
fn is_within(run: &Span, at: Moment) -> bool
    ensures { result ≡ is_within run.now at }
{
    run.first <= at && at <= run.last
}

/// The runs from those of a list on. Logarithmic in the runs.
fn from_list(runs: &[Span], list: ObjectId) -> &[Span]
    requires { Ascend runs.now }
    ensures { result.now ≡ filter (λ run. nat_le list run.object) runs.now }
{
    let before = runs.partition_point(|run| run.object < list);
    &runs[before..]
}

/// The runs up to those of a list. Logarithmic in the runs.
fn up_to_list(runs: &[Span], list: ObjectId) -> &[Span]
    requires { Ascend runs.now }
    ensures { result.now ≡ filter (λ run. nat_le run.object list) runs.now }
{
    let count = runs.partition_point(|run| run.object <= list);
    &runs[..count]
}

/// The runs of one list, which are together. Logarithmic in the runs.
pub fn of_list(runs: &[Span], list: ObjectId) -> &[Span]
    requires { Ascend runs.now }
    ensures { result.now ≡ filter (span_is_of list) runs.now }
{
    up_to_list(from_list(runs, list), list)
}

/// How many runs there are of one list. Logarithmic in the runs.
pub fn count_of_list(runs: &[Span], list: ObjectId) -> usize
    requires { Ascend runs.now }
    ensures { result ≡ count_by (span_is_of list) runs.now }
{
    of_list(runs, list).len()
}

/// Whether one of these runs, of whatever list, has the moment in it.
pub fn cover(runs: &[Span], at: Moment) -> bool
    ensures { result ≡ cover runs.now at }
{
    runs.iter().any(|run| is_within(run, at))
}

/// The first of these runs and the others, if it begins by a moment. If not, no run has that moment
/// in it.
fn begun(runs: &[Span], at: Moment) -> Option<(&Span, &[Span])>
    requires { BeginInOrder runs.now }
    ensures { MatchOption result (cover runs.now at ≡ false)
        (λ p. (runs.now ≡ p.0.now ∷ p.1.now) × (p.0.now.first ≤ at)) }
{
    let (run, rest) = runs.split_first()?;
    if run.first.number() <= at.number() {
        Some((run, rest))
    } else {
        None
    }
}

/// Whether some moment from one to another is in no run of two lists. Goes through both once, side
/// by side.
pub fn is_any_left(all: &[Span], own: &[Span], from: Moment, to: Moment) -> bool
    requires ordered { from ≤ to }
    requires of_all { BeginInOrder all.now }
    requires of_one { BeginInOrder own.now }
    ensures { MatchBool result (IsLeft all.now own.now from to)
        (IsLeft all.now own.now from to → ⊥) }
{
    let (mut all_left, mut own_left, mut at) = (all, own, from);
    loop {
        let run = if let Some((run, rest)) = begun(all_left, at) {
            all_left = rest;
            run
        } else if let Some((run, rest)) = begun(own_left, at) {
            own_left = rest;
            run
        } else {
            return true;
        };
        let last = run.last.number();
        if to.number() <= last {
            return false;
        }
        at = Moment::new(at.number().max(last + 1));
    }
}
