//! The window of a drive: what can be read, and each step of clock, floor and hidden runs.
ghost use Rattle.std.specs.Prelude.{◌≡◌, ◌⊎◌, ℕ, true, false, ◌+◌, ◌-◌, ◌<◌, ◌≤◌, max, Some};
ghost use Rattle.std.specs.Prelude.{MatchBool, MatchResult, IfOk, IfErr, filter, length, List, []};
ghost use Rattle.std.specs.List.{AllByRecursion};
ghost use Rattle.s4_types.specs.declared.limits.TheConstants.{RUNS_IN_ALL};
ghost use Rattle.s4_types.specs.declared.changes.Accepted.{Accepted};
ghost use Rattle.s4_types.specs.declared.changes.Change.TheVariants.{SetWindow};
ghost use Rattle.s4_types.specs.declared.requests.Request.TheVariants.{Control};
ghost use Rattle.s4_types.specs.declared.requests.AdminRequest.TheVariants.{Flush, FlushO};
ghost use Rattle.s4_types.specs.declared.refusals.Refusal.TheVariants.{NoMemory, BadSpan};
ghost use Rattle.s4_types.specs.declared.refusals.Refusal.TheVariants.{TooManySpans};
ghost use Rattle.s4_model.specs.State.{State, state_of, new_history, seen, took};
ghost use Rattle.s4_model.specs.Refusals.{last_number, is_bad_span, is_one_span_too_many};
ghost use Rattle.s4_model.specs.Refusals.{moment_refusal};
ghost use Rattle.s4_model.specs.Visible.{span_of, spans_of, IsVisible, IsSeenBetween, is_hidden};
ghost use Rattle.s4_model.specs.Sound.{IsOfGiven};
ghost use Rattle.window.specs.Chunks.{holder, is_longer, AllNumbered};
ghost use Rattle.window.specs.Timeline.{StandsFor, CoverAlike, spans_kept, IsMade, IsPlanned};
ghost use Rattle.window.specs.Timeline.{HasMoved};
ghost use Rattle.window.specs.Runs.{is_live, with_span, Ascend, AllBeginFrom, AllEndBefore};
ghost use Rattle.window.specs.Runs.{AreFewInEachList};
ghost use Rattle.s4_model.specs.Effect.{is_of_versions};

use crate::chunks::{self, Chunk, Fresh};
use crate::runs;
use s4_types::limits::{RUNS_IN_A_LIST, RUNS_IN_ALL};
use s4_types::{Moment, ObjectId, Refusal, Span};
use std::alloc::Global;
use std::marker::Model;

/// The clock, the window, the floor and the runs of hidden moments of a drive.
///
/// Contracts speak of every state of a history that the window represents.
pub struct Window {
    alloc: Global,
    clock: Moment,
    window: u64,
    floor: Moment,
    /// All runs reach the floor and end before the clock, and no list has more than
    /// `RUNS_IN_A_LIST`.
    chunks: Vec<Chunk>,
    /// How many runs there are.
    count: usize,
    /// No run ends before it.
    earliest: Moment,
}

// Written by hand, so that an owner lets it go by one call.
impl Drop for Window {
    fn drop(self) {
        let Window {
            alloc: _,
            clock: _,
            window: _,
            floor: _,
            chunks: _,
            count: _,
            earliest: _,
        } = self;
    }
}

impl Model for Window {
    ghost use Rattle.window.specs.Timeline.{Timeline};
    ghost use Rattle.window.specs.Chunks.{flat, AreSoundChunks};

    ghost Value = { Timeline };

    ghost view = { λ w. record { clock = w.clock; window = w.window; floor = w.floor; runs = flat w.chunks.items; chunks = w.chunks.items } };

    ghost invariant = { λ w. AreSoundChunks w.clock w.floor w.earliest w.count w.chunks.items };
}

/// A span that may be hidden, with the runs that it makes: [`Window::plan_flush`] gives it, and
/// [`Window::flush`] takes it.
#[derive(Drop)]
pub struct FlushPlan {
    span: Span,
    fresh: Fresh,
    /// How many runs there are then.
    count: usize,
    /// How many of them are of the span's list.
    own: usize,
}

impl Model for FlushPlan {
    ghost use Rattle.window.specs.Timeline.{Plan};

    ghost Value = { Plan };

    ghost view = { λ p. record { span = p.span; fresh = p.fresh; count = p.count; own = p.own } };
}

impl FlushPlan {
    /// Whether it makes one chunk that is too long.
    fn is_too_long(&self) -> bool
        ensures { result ≡ is_longer 512 self.now.fresh }
    {
        self.fresh.is_too_long()
    }
}

impl Window {
    /// The window of a new drive: it reaches `window` moments back, and nothing is hidden.
    pub fn new(alloc: Global, window: u64) -> Self
        ensures numbers { (result.clock ≡ 0) × (result.window ≡ window) × (result.floor ≡ 0) }
        ensures runs { result.runs ≡ [] }
        ensures stands { StandsFor result (state_of (new_history window)) }
    {
        Window {
            alloc,
            clock: Moment::new(0),
            window,
            floor: Moment::new(0),
            chunks: Vec::new(alloc),
            count: 0,
            earliest: Moment::new(u64::MAX),
        }
    }

    /// The window of a drive that was saved: its clock, how many moments it reaches back, its
    /// floor, and the runs that were hidden from the floor on, as [`Window::spans`] gives them.
    /// `NoMemory` where a growth was refused, and no other error. Linear in the runs.
    pub fn from_parts(
        alloc: Global,
        clock: Moment,
        window: u64,
        floor: Moment,
        spans: &[Span],
    ) -> Result<Window, Refusal>
        requires ordered { Ascend spans.now }
        requires from_floor { AllBeginFrom floor spans.now }
        requires past { AllEndBefore clock spans.now }
        requires few { length spans.now ≤ RUNS_IN_ALL }
        requires few_in_each_list { AreFewInEachList spans.now }
        ensures numbers { IfOk result
            (λ w. (w.clock ≡ clock) × (w.window ≡ window) × (w.floor ≡ floor)) }
        ensures runs { IfOk result (λ w. w.runs ≡ spans.now) }
        ensures saved_again { IfOk result (λ w. spans_kept w ≡ spans.now) }
        ensures stands { IfOk result (λ w. (s : State) → s.clock ≡ clock → s.window ≡ window → s.floor ≡ floor → spans_of s ≡ spans.now
            → AllByRecursion (IsOfGiven s.next) spans.now → StandsFor w s) }
        ensures refusal { IfErr result (λ e. e ≡ NoMemory) }
    {
        // Looking at the last list shows that the numbers of all have 64 bits.
        let _last = chunks::last_list(spans);
        let chunks = chunks::divide(alloc, spans)?;
        let earliest = chunks::earliest(chunks.as_slice());
        Ok(Window {
            alloc,
            clock,
            window,
            floor,
            chunks,
            count: spans.len(),
            earliest,
        })
    }

    /// What is saved of the hidden runs: those of all lists without their moments below the floor,
    /// by list and first moment. [`Window::from_parts`] makes this window of them again. `NoMemory`
    /// where a growth was refused, and no other error. Linear in the runs.
    pub fn spans(&self, alloc: Global) -> Result<Vec<Span>, Refusal>
        ensures exact { IfOk result (λ v. v.items ≡ spans_kept self.now) }
        ensures ordered { IfOk result (λ v. Ascend v.items) }
        ensures from_floor { IfOk result (λ v. AllBeginFrom self.now.floor v.items) }
        ensures past { IfOk result (λ v. AllEndBefore self.now.clock v.items) }
        ensures numbered { IfOk result (λ v. AllNumbered v.items) }
        ensures few { IfOk result (λ v. length v.items ≤ RUNS_IN_ALL) }
        ensures few_in_each_list { IfOk result (λ v. AreFewInEachList v.items) }
        ensures alike { IfOk result (λ v. CoverAlike self.now.floor v.items self.now.runs) }
        ensures given { IfOk result
            (λ v. (s : State) → StandsFor self.now s → AllByRecursion (IsOfGiven s.next) v.items) }
        ensures refusal { IfErr result (λ e. e ≡ NoMemory) }
    {
        chunks::cut_runs(alloc, self.chunks.as_slice(), self.floor)
    }

    /// The clock: the last moment given or seen.
    pub fn clock(&self) -> Moment
        ensures { result ≡ self.now.clock }
    {
        self.clock
    }

    /// How many moments history reaches back from the clock.
    pub fn window(&self) -> u64
        ensures { result ≡ self.now.window }
    {
        self.window
    }

    /// The floor: moments below it are lost.
    pub fn floor(&self) -> Moment
        ensures { result ≡ self.now.floor }
    {
        self.floor
    }

    /// Sees a moment: the clock moves on to it if that is later, and the floor with the clock.
    pub fn observe(&mut self, now: Moment)
        ensures { (s : State) → StandsFor self.old s → StandsFor self.new (seen s now) }
    {
        self.set_clock(self.clock.max(now));
    }

    /// The moment of a change that neither sets the window nor hides moments: the greater of `now`
    /// and the clock plus one, which is then the clock.
    pub fn stamp(&mut self, now: Moment) -> Moment
        requires { self.old.clock < last_number }
        ensures moment { result ≡ max now (self.old.clock + 1) }
        ensures taken { (s : State) (a : Accepted) → StandsFor self.old s → a.moment ≡ result
            → is_of_versions a.change ≡ true → StandsFor self.new (took s a) }
    {
        self.advance(now)
    }

    /// Sets the window, at a moment as [`Window::stamp`] gives it. The floor is taken with the new
    /// window, and a larger one never lowers it.
    pub fn set(&mut self, window: u64, now: Moment) -> Moment
        requires { self.old.clock < last_number }
        ensures moment { result ≡ max now (self.old.clock + 1) }
        ensures taken { (s : State) (a : Accepted) → StandsFor self.old s → a.moment ≡ result
            → a.change ≡ SetWindow window → StandsFor self.new (took s a) }
    {
        self.window = window;
        self.advance(now)
    }

    /// Whether a span may be hidden at all: `BadSpan` where it ends before it begins, or after the
    /// clock.
    pub fn check_span(&self, first: Moment, last: Moment) -> Result<(), Refusal>
        ensures ok { IfOk result (λ _. (first ≤ last) × (last ≤ self.now.clock)) }
        ensures of_all { (s : State) → StandsFor self.now s → MatchResult result (λ _. is_bad_span s (Control (Flush first last)) ≡ false)
            (λ refusal. (refusal ≡ BadSpan) × (is_bad_span s (Control (Flush first last)) ≡ true)) }
        ensures of_one { (s : State) (object : ℕ) → StandsFor self.now s
            → is_bad_span s (Control (FlushO object first last))
            ≡ is_bad_span s (Control (Flush first last)) }
    {
        if first <= last && last <= self.clock {
            Ok(())
        } else {
            Err(Refusal::BadSpan)
        }
    }

    /// Judges a span, of all objects under number 0 or of one object, and takes the memory that
    /// hiding it needs; nothing is hidden yet. `TooManySpans` where its list would have more than
    /// `RUNS_IN_A_LIST` that reach the floor, or all lists together more than `RUNS_IN_ALL`;
    /// `NoMemory` where a growth was refused. Costs a search and the at most 512 runs that are in
    /// one chunk with the span's list; in one of 384 flushes or more, where they become more, all
    /// runs.
    pub fn plan_flush(&self, span: Span) -> Result<FlushPlan, Refusal>
        requires ordered { span.first ≤ span.last }
        requires past { span.last ≤ self.now.clock }
        ensures planned { IfOk result (λ plan. (plan.span ≡ span) × IsPlanned self.now plan) }
        ensures judged { (s : State) → StandsFor self.now s → span.object < s.next → MatchResult result
            (λ _. is_one_span_too_many s span ≡ false)
            (λ refusal. (refusal ≡ NoMemory)
            ⊎ ((refusal ≡ TooManySpans) × (is_one_span_too_many s span ≡ true))) }
    {
        // Reading a field shows what a window keeps.
        let _ = &self.alloc;
        let plan = self.plan_first(span)?;
        if plan.own > RUNS_IN_A_LIST || plan.count > RUNS_IN_ALL {
            return Err(Refusal::TooManySpans);
        }
        self.shortened(plan)
    }

    /// The plan, or all chunks anew where it makes one that is too long.
    fn shortened(&self, plan: FlushPlan) -> Result<FlushPlan, Refusal>
        requires { IsPlanned self.now plan }
        ensures planned { IfOk result (λ p. (p.span ≡ plan.span) × IsPlanned self.now p) }
        ensures err { IfErr result (λ refusal. refusal ≡ NoMemory) }
    {
        if plan.is_too_long() {
            self.plan_all(plan.span)
        } else {
            Ok(plan)
        }
    }

    /// What a span makes of the chunk of its list, or of all runs where there are no chunks yet.
    fn plan_first(&self, span: Span) -> Result<FlushPlan, Refusal>
        requires ordered { span.first ≤ span.last }
        requires past { span.last ≤ self.now.clock }
        ensures made { IfOk result (λ plan. (plan.span ≡ span) × IsMade self.now plan) }
        ensures err { IfErr result (λ refusal. refusal ≡ NoMemory) }
    {
        match chunks::holder(self.chunks.as_slice(), span.object) {
            Some(chunk) => self.plan_one(chunk, span),
            None => self.plan_all(span),
        }
    }

    /// What a span makes of the chunk of its list.
    fn plan_one(&self, chunk: &Chunk, span: Span) -> Result<FlushPlan, Refusal>
        requires ordered { span.first ≤ span.last }
        requires past { span.last ≤ self.now.clock }
        requires held { holder span.object self.now.chunks ≡ Some chunk.now }
        ensures made { IfOk result (λ plan. (plan.span ≡ span) × IsMade self.now plan) }
        ensures err { IfErr result (λ refusal. refusal ≡ NoMemory) }
    {
        let mut runs = runs::with_span(self.alloc, chunk.runs.as_slice(), &span)?;
        runs::sift_with(&mut runs, &span, self.floor);
        let others = self.count.saturating_sub(chunk.runs.len());
        let count = others.saturating_add(runs.len());
        let own = runs::count_of_list(runs.as_slice(), span.object);
        let earliest = chunk.earliest.min(span.last);
        let fresh = Chunk {
            up_to: chunk.up_to,
            earliest,
            runs,
        };
        Ok(FlushPlan {
            span,
            fresh: Fresh::One(fresh),
            count,
            own,
        })
    }

    // All runs that reach the floor, one more span among them. Linear in all runs.
    fn live_with(&self, span: &Span) -> Result<Vec<Span>, Refusal>
        ensures ok { IfOk result
            (λ runs. runs.items
            ≡ filter (is_live self.now.floor) (with_span span.now self.now.runs)) }
        ensures err { IfErr result (λ refusal. refusal ≡ NoMemory) }
    {
        let all = chunks::all_runs(self.alloc, self.chunks.as_slice())?;
        let mut runs = runs::with_span(self.alloc, all.as_slice(), span)?;
        runs::sift_with(&mut runs, span, self.floor);
        Ok(runs)
    }

    /// What a span makes of all runs, in new chunks. Linear in all runs.
    fn plan_all(&self, span: Span) -> Result<FlushPlan, Refusal>
        requires ordered { span.first ≤ span.last }
        requires past { span.last ≤ self.now.clock }
        ensures made { IfOk result (λ plan. (plan.span ≡ span) × IsMade self.now plan) }
        ensures err { IfErr result (λ refusal. refusal ≡ NoMemory) }
    {
        let runs = self.live_with(&span)?;
        let fresh = Fresh::All(chunks::divide(self.alloc, runs.as_slice())?);
        let own = runs::count_of_list(runs.as_slice(), span.object);
        Ok(FlushPlan {
            span,
            fresh,
            count: runs.len(),
            own,
        })
    }

    /// Hides a planned span, at a moment as [`Window::stamp`] gives it. The window must not have
    /// changed since the plan was made from it.
    pub fn flush(&mut self, plan: FlushPlan, now: Moment) -> Moment
        requires clock { self.old.clock < last_number }
        requires planned { IsPlanned self.old plan }
        ensures moment { result ≡ max now (self.old.clock + 1) }
        ensures taken { (s : State) (a : Accepted) → StandsFor self.old s
            → plan.span.object < s.next → a.moment ≡ result → span_of a ≡ Some plan.span
            → StandsFor self.new (took s a) }
    {
        let span = plan.span;
        // The span may end at the clock as it was, and each run that is kept ends before the clock.
        let moment = self.next_moment(now);
        chunks::renew(&mut self.chunks, span.object, plan.fresh);
        self.count = plan.count;
        self.earliest = self.earliest.min(self.floor.max(span.last));
        self.clock = moment;
        self.set_clock(moment);
        moment
    }

    /// Whether a moment of an object can be read: `Future` above the clock, `Expired` below the
    /// floor, `Flushed` where a span hides it, the first of these that applies.
    pub fn visible(&self, object: ObjectId, at: Moment) -> Result<(), Refusal>
        ensures { (s : State) → StandsFor self.now s
            → MatchResult result (λ _. IsVisible s object at)
            (λ refusal. moment_refusal s object at ≡ Some refusal) }
    {
        if self.clock < at {
            return Err(Refusal::Future);
        }
        if at < self.floor {
            return Err(Refusal::Expired);
        }
        if self.is_hidden(object, at) {
            return Err(Refusal::Flushed);
        }
        Ok(())
    }

    /// Whether some moment of an object, of those from `first` to `last`, can be read. Logarithmic
    /// in all runs, and then linear in those of the list of all objects and of the object's own.
    pub fn sees(&self, object: ObjectId, first: Moment, last: Moment) -> bool
        ensures { (s : State) → StandsFor self.now s
            → MatchBool result (IsSeenBetween s object first last)
            (IsSeenBetween s object first last → ⊥) }
    {
        let from = Moment::new(first.number().max(self.floor.number()));
        let to = Moment::new(last.number().min(self.clock.number()));
        if to < from {
            return false;
        }
        let chunks = self.chunks.as_slice();
        let list_of_all = ObjectId::new(0);
        let all = chunks::of_list(chunks, list_of_all);
        let own = chunks::of_list(chunks, object);
        runs::is_any_left(all, own, from, to)
    }

    /// Whether the list of all objects or the object's own covers a moment.
    fn is_hidden(&self, object: ObjectId, at: Moment) -> bool
        ensures { (s : State) → StandsFor self.now s → s.floor ≤ at
            → result ≡ is_hidden s object at }
    {
        let chunks = self.chunks.as_slice();
        chunks::covers(chunks, ObjectId::new(0), at) || chunks::covers(chunks, object, at)
    }

    /// The moment of a change.
    fn next_moment(&self, now: Moment) -> Moment
        requires { self.now.clock < last_number }
        ensures { result ≡ max now (self.now.clock + 1) }
    {
        Moment::new(now.number().max(self.clock.number() + 1))
    }

    /// Moves on to the moment of a change.
    fn advance(&mut self, now: Moment) -> Moment
        requires { self.old.clock < last_number }
        ensures moment { result ≡ max now (self.old.clock + 1) }
        ensures moved { HasMoved self.old self.new result }
    {
        let moment = self.next_moment(now);
        self.set_clock(moment);
        moment
    }

    /// Sets the clock, which never falls, the floor by it, and forgets the runs that end below the
    /// floor.
    #[tactic(auto, using(crate::proofs::Forgetting::sound_later))]
    fn set_clock(&mut self, clock: Moment)
        requires { self.old.clock ≤ clock }
        ensures { HasMoved self.old self.new clock }
    {
        self.clock = clock;
        let reach = clock.number().saturating_sub(self.window);
        let floor = self.floor.max(Moment::new(reach));
        self.raise_floor(floor);
    }

    /// Sets the floor, and forgets the runs that end below it. Looks at the chunks only when the
    /// floor passes the earliest end of a run, and at the runs of those that have such a run.
    fn raise_floor(&mut self, floor: Moment)
        ensures kept { (self.new.clock ≡ self.old.clock)
            × (self.new.window ≡ self.old.window) × (self.new.floor ≡ floor) }
        ensures forgot { self.new.runs ≡ filter (is_live floor) self.old.runs }
    {
        self.floor = floor;
        if self.earliest.number() < floor.number() {
            chunks::forget(&mut self.chunks, floor);
            self.count = chunks::count(self.chunks.as_slice());
            self.earliest = chunks::earliest(self.chunks.as_slice());
        }
    }
}
