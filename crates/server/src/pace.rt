//! The lock of what sessions, cleaner and copier wait for, and its one condition variable. Each
//! method is one section of the lock. Nothing that is answered rests on it.
use crate::accounts::Running;
use crate::agenda::{History, is_short};
use crate::effects::{Effect, is_nearly_full};
use crate::progress::{Begun, Lack, Progress};
use crate::shared::SharedDrive;
use drive::Drive;
use s4_types::{Moment, ObjectId, Reply};
use segment_word::Naming;
use serving::Clock;
use std::alloc::Global;
use std::sync::atomic::{AtomicU64, Ordering};
use std::sync::{Condvar, CondvarTimeouts, Mutex, MutexGuard, Wait};
use std::time;

/// How long sessions wait for the cleaner before they begin, in milliseconds: it may have no
/// thread.
const START_MILLISECONDS: u64 = 100;

/// How upkeep gets on and what it is needed for: sessions, cleaner and copier of one drive share
/// it.
pub struct Pace {
    progress: Mutex<Progress>,
    /// Whoever waits for progress is woken by this.
    news: Condvar,
    /// How many of cleaner and copier wait for the drive's lock, as the struct has it. Sessions
    /// look at this copy while they try that lock, and decide no sleep by it.
    wanting: AtomicU64,
}

// Written by hand, so that an owner lets it go by one call.
impl Drop for Pace {
    fn drop(self) {
        let Pace {
            progress: _,
            news: _,
            wanting: _,
        } = self;
    }
}

impl Pace {
    /// Before the first round of that drive.
    pub fn new<J: Running, C: Clock>(
        rt: &impl Wait,
        alloc: Global,
        drive: &Mutex<SharedDrive<J, C>>,
    ) -> Self {
        let shared = drive.lock(rt);
        Pace {
            progress: Mutex::new(Progress::new(alloc, &shared.drive, shared.clients_leave())),
            news: Condvar::new(),
            wanting: AtomicU64::new(0),
        }
    }

    /// Ends a section of the lock: whoever may go on is notified before it is let go.
    fn end_section(&self, mut progress: MutexGuard<'_, Progress>) {
        if progress.take_news() {
            self.news.notify_all();
        }
    }

    /// Sessions wait until the cleaner is at work, and not for long.
    pub(crate) fn await_start<R: Wait + time::Clock>(&self, rt: &R) {
        let progress = self.progress.lock(rt);
        let most = time::Duration::from_millis(START_MILLISECONDS);
        let (_progress, _) = self
            .news
            .wait_timeout_while(rt, progress, most, |progress| !progress.is_going());
    }

    /// A change of an object is asked, and the drive's lock is held. Answers what it lacks, where it
    /// is to wait for a round.
    pub(crate) fn count<J: Naming>(
        &self,
        rt: &impl Wait,
        drive: &Drive<J>,
        object: ObjectId,
    ) -> Option<Lack> {
        let is_nearly_full = is_nearly_full(drive, object);
        let mut progress = self.progress.lock(rt);
        progress.look(drive);
        let lack = progress.count(is_nearly_full);
        self.end_section(progress);
        lack
    }

    /// A change that lacks this waits until the cleaner has gone a whole round from now on, or the
    /// one that frees what was hidden last; for room no longer than while there is little. Not where
    /// no cleaner is at work.
    pub(crate) fn await_round(&self, rt: &impl Wait, lack: Lack) {
        let mut progress = self.progress.lock(rt);
        let round = progress.want_round();
        if progress.take_news() {
            self.news.notify_all();
        }
        let _progress = self
            .news
            .wait_while(rt, progress, |progress| progress.is_to_come(round, lack));
    }

    /// A request was answered, and the drive's lock is held. What it has changed is to be visited;
    /// where it has hidden moments that could be read, the cleaner is called.
    pub(crate) fn note<J: Naming>(
        &self,
        rt: &impl Wait,
        drive: &Drive<J>,
        effect: &Effect,
        reply: &Reply,
    ) {
        match (effect, reply) {
            (Effect::Changes(_), Reply::Created(made, moment)) => {
                self.note_change(rt, *made, *moment);
            }
            (Effect::Changes(object), Reply::Changed(moment)) => {
                self.note_change(rt, *object, *moment);
            }
            (Effect::Deletes(object), Reply::Changed(moment)) => {
                self.note_delete(rt, *object, *moment, is_short(drive, *object));
            }
            (Effect::Hides(object, last), Reply::Changed(_)) if *last >= drive.floor() => {
                self.hide(rt, *object);
            }
            _ => {}
        }
    }

    /// An object was changed at this moment.
    fn note_change(&self, rt: &impl Wait, object: ObjectId, moment: Moment) {
        let mut progress = self.progress.lock(rt);
        progress.note_change(object, moment);
    }

    /// An object was deleted at this moment, whose entries may fit one journal block.
    fn note_delete(&self, rt: &impl Wait, object: ObjectId, moment: Moment, is_short: bool) {
        let mut progress = self.progress.lock(rt);
        progress.note_delete(object, moment, is_short);
    }

    /// Moments of an object were hidden, or of all where its number is 0.
    fn hide(&self, rt: &impl Wait, object: ObjectId) {
        let mut progress = self.progress.lock(rt);
        progress.hide(object);
        self.end_section(progress);
    }

    /// A round begins.
    pub(crate) fn begin_round(&self, rt: &impl Wait) -> Begun {
        let mut progress = self.progress.lock(rt);
        let begun = progress.begin_round();
        self.end_section(progress);
        begun
    }

    /// An object had its turn, and the drive's lock is held. It has this history left, or none.
    pub(crate) fn settle<J: Naming>(
        &self,
        rt: &impl Wait,
        drive: &Drive<J>,
        object: ObjectId,
        left: Option<History>,
    ) {
        let mut progress = self.progress.lock(rt);
        progress.settle(object, left);
        progress.look(drive);
        self.end_section(progress);
    }

    /// An object could not be cleaned, and the drive's lock is held.
    pub(crate) fn keep<J: Naming>(&self, rt: &impl Wait, drive: &Drive<J>, object: ObjectId) {
        let mut progress = self.progress.lock(rt);
        progress.keep(object);
        progress.look(drive);
        self.end_section(progress);
    }

    /// The drive was looked at, and its lock is held.
    pub(crate) fn look<J: Naming>(&self, rt: &impl Wait, drive: &Drive<J>) {
        let mut progress = self.progress.lock(rt);
        progress.look(drive);
        self.end_section(progress);
    }

    /// The same, and this many frames were free.
    pub(crate) fn count_free<J: Naming>(&self, rt: &impl Wait, drive: &Drive<J>, frames: u16) {
        let mut progress = self.progress.lock(rt);
        progress.look(drive);
        progress.count_free(frames);
        self.end_section(progress);
    }

    /// A walk over all objects has come to its end, and the drive's lock is held.
    pub(crate) fn end_walk<J: Naming>(&self, rt: &impl Wait, drive: &Drive<J>) {
        let mut progress = self.progress.lock(rt);
        progress.look(drive);
        progress.end_walk();
        self.end_section(progress);
    }

    /// A round of this many turns has ended, and there is none after the last.
    pub(crate) fn end_round(&self, rt: &impl Wait, turns: u64, is_last: bool) {
        let mut progress = self.progress.lock(rt);
        progress.end_round(turns, is_last);
        self.end_section(progress);
    }

    /// The cleaner waits until another round is needed, or all others have ended.
    pub(crate) fn await_call(&self, rt: &impl Wait) {
        let progress = self.progress.lock(rt);
        let _progress = self
            .news
            .wait_while(rt, progress, |progress| progress.is_idle());
    }

    /// All sessions have ended, so cleaner and copier are to end too.
    pub fn end_sessions(&self, rt: &impl Wait) {
        let mut progress = self.progress.lock(rt);
        progress.end_sessions();
        self.end_section(progress);
    }

    /// Whether there is too little room for the copier's moves.
    pub(crate) fn is_tight(&self, rt: &impl Wait) -> bool {
        self.progress.lock(rt).is_tight()
    }

    /// The copier takes a step: how much there was so far that it may see.
    pub(crate) fn begin_step(&self, rt: &impl Wait) -> u64 {
        self.progress.lock(rt).stirred()
    }

    /// The copier took a step that saw so much, and waits until it has another one to take, or all
    /// sessions have ended. Answers whether they have.
    pub(crate) fn await_step(&self, rt: &impl Wait, seen: u64, has_moved: bool) -> bool {
        let mut progress = self.progress.lock(rt);
        progress.plan_step(seen, has_moved);
        let progress = self
            .news
            .wait_while(rt, progress, |progress| progress.rests());
        progress.is_served()
    }

    /// The copier has ended, or had no seat.
    pub(crate) fn end_moves(&self, rt: &impl Wait) {
        let mut progress = self.progress.lock(rt);
        progress.end_moves();
        self.end_section(progress);
    }

    /// Whether cleaner or copier waits for the drive's lock: to be asked while one tries to have
    /// it.
    pub(crate) fn is_drive_wanted(&self) -> bool {
        self.wanting.load(Ordering::SeqCst) > 0
    }

    /// A session is about to wait for the drive's lock. Where cleaner or copier waits for it, that
    /// one has it first, once.
    pub(crate) fn ask_drive(&self, rt: &impl Wait) {
        let mut progress = self.progress.lock(rt);
        let taken = progress.taken();
        if progress.is_wanted_since(taken) {
            progress.begin_giving_way();
            progress = self.news.wait_while(rt, progress, |progress| {
                progress.is_wanted_since(taken)
            });
            progress.end_giving_way();
        }
        progress.ask_drive();
    }

    /// That session has the drive's lock.
    pub(crate) fn enter_drive(&self, rt: &impl Wait) {
        let mut progress = self.progress.lock(rt);
        progress.enter_drive();
        self.end_section(progress);
    }

    /// Cleaner or copier is about to take the drive's lock. Where a session waits for it, that one
    /// has it first, once.
    pub(crate) fn want_drive(&self, rt: &impl Wait) {
        let mut progress = self.progress.lock(rt);
        let entered = progress.entered();
        if progress.is_asked_since(entered) {
            progress.begin_giving_way();
            progress = self.news.wait_while(rt, progress, |progress| {
                progress.is_asked_since(entered)
            });
            progress.end_giving_way();
        }
        let wanting = progress.want_drive();
        self.wanting.store(wanting, Ordering::SeqCst);
    }

    /// It has the drive's lock.
    pub(crate) fn take_drive(&self, rt: &impl Wait) {
        let mut progress = self.progress.lock(rt);
        let wanting = progress.take_drive();
        self.wanting.store(wanting, Ordering::SeqCst);
        self.end_section(progress);
    }
}
