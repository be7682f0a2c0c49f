//! What sessions, cleaner and copier wait for: one struct, which one lock guards.
ghost use Rattle.std.specs.Prelude.{◌≡◌, ◌≢◌, ◌-◌, ◌/◌, ◌&&◌, true, false, MatchOption};
ghost use Rattle.server.specs.Agenda.{PutsFloor, AddsFloor, PutsHistory, Deletes, Forgets, has_key};
ghost use Rattle.server.specs.Rounds.{Begins, GivesDue, is_of_removals, is_pinched, is_tight};

use crate::agenda::{Agenda, History};
use drive::Drive;
use s4_types::limits::{MOVE_BLOCKS, PAYLOAD_BLOCKS, RESERVE_BLOCKS};
use s4_types::{Moment, ObjectId};
use segment_table::OverFrames;
use segment_word::Naming;
use std::alloc::Global;
use std::mem::replace;

/// Room that is none: the smallest Write takes as much.
const LITTLE_ROOM: u64 = 2;

/// Blocks that a round writes for an object at least, by which the reserve is judged: a checkpoint
/// of one block, and a journal block.
const ROUND_BLOCKS: u64 = 2;

/// Rounds in the time of one window that are worth their cost, and rounds that remove objects
/// alone.
const ROUNDS_IN_A_WINDOW: u64 = 4;

const REMOVALS_IN_A_WINDOW: u64 = 16;

/// Moments after which another round is worth its cost, however long the window is: a minute where
/// moments are microseconds.
const MOST_AGEING: u64 = 60_000_000;

/// Changes after which the copier looks again where it found nothing: as many blocks fill a frame.
const CHANGES_BETWEEN: u64 = PAYLOAD_BLOCKS as u64;

/// A round of the cleaner that begins.
#[derive(Drop)]
pub(crate) struct Begun {
    /// All sessions have ended, and the copier too.
    pub is_last: bool,
    /// The objects that it is to visit, by ascending number; None where it is to visit all.
    pub objects: Option<Vec<ObjectId>>,
    /// It is to go on with a walk over all objects.
    pub walks: bool,
}

/// What a change lacks that waits for the cleaner.
#[derive(Clone, Copy, PartialEq, Eq)]
pub(crate) enum Lack {
    /// Blocks: it waits for a round, and no longer than there is little room.
    Room,
    /// Bytes of its object's chain: it waits for a round.
    Chain,
}

/// How sessions, cleaner and copier get on.
///
/// **The rule of every wait.** Whoever waits, waits for a predicate of this struct alone, in a loop
/// over it under the struct's lock. Whoever changes the struct does so under that lock, and
/// notifies the one condition variable before it lets the lock go, where the change may end a wait.
/// Nothing beside the struct is read to decide on a sleep. The lock may be taken while the drive's
/// is held, and never the other way round; nobody waits here while it holds the drive.
#[derive(Drop)]
pub(crate) struct Progress {
    /// The last round that began, and the last that ended. Rounds are numbered from 1 on.
    begun: u64,
    ended: u64,
    /// The last round that somebody needs. It never falls, so that no call is lost.
    wanted: u64,
    /// The round that frees what was hidden last.
    frees: u64,
    /// A cleaner is at work, and its last round has not ended.
    is_going: bool,
    /// All sessions have ended.
    is_served: bool,
    /// The copier has ended, or had no seat.
    is_moved: bool,
    /// The objects that rounds are to visit.
    agenda: Agenda,
    /// Blocks of the drive.
    blocks: u64,
    /// What the drive had when it was last looked at: blocks that changes may still take, and
    /// moments.
    room: u64,
    clock: u64,
    window: u64,
    floor: u64,
    /// Blocks of that room that clients leave to administrators.
    kept: u64,
    /// The clock when the last round began.
    visited: u64,
    /// Blocks that are left of the reserve, and the clock when there last was room for a change.
    reserve: u64,
    roomy: u64,
    /// Changes that were asked so far, and how many of them there are to be before a round is due.
    asked: u64,
    due: u64,
    /// Changes and rounds so far, by which the copier sees whether anything may have become sparse,
    /// and the number of them at which it takes its next step.
    stirred: u64,
    next_step: u64,
    /// The copier waits, and was not called since.
    is_resting: bool,
    /// Sessions that wait for the drive's lock, and how often one of them has had it.
    asking: u64,
    entered: u64,
    /// How many of cleaner and copier wait for the drive's lock, and how often one has had it.
    wanting: u64,
    taken: u64,
    /// How many wait until a session, or until cleaner or copier, has had the drive's lock.
    gives_way: u64,
    /// Something has changed that may end a wait, and nobody was notified yet.
    is_news: bool,
}

impl Progress {
    /// Before the first round of a drive, of whose room clients leave so many blocks.
    pub(crate) fn new<J: Naming>(alloc: Global, drive: &Drive<J>, kept: usize) -> Self {
        Progress {
            begun: 0,
            ended: 0,
            wanted: 0,
            frees: 0,
            is_going: false,
            is_served: false,
            is_moved: false,
            agenda: Agenda::new(alloc),
            blocks: drive.frame_count() as u64 * PAYLOAD_BLOCKS as u64,
            room: drive.room() as u64,
            clock: drive.clock().number(),
            window: drive.window(),
            floor: drive.floor().number(),
            kept: kept as u64,
            visited: 0,
            reserve: RESERVE_BLOCKS as u64,
            roomy: drive.clock().number(),
            asked: 0,
            due: 0,
            stirred: 0,
            next_step: 0,
            is_resting: false,
            asking: 0,
            entered: 0,
            wanting: 0,
            taken: 0,
            gives_way: 0,
            is_news: false,
        }
    }

    /// Whether somebody is to be notified, which is done then.
    pub(crate) fn take_news(&mut self) -> bool {
        replace(&mut self.is_news, false)
    }

    /// A cleaner is at work.
    pub(crate) fn is_going(&self) -> bool {
        self.is_going
    }

    /// The drive was looked at, under its lock.
    pub(crate) fn look<J: Naming>(&mut self, drive: &Drive<J>) {
        let was_little = self.is_little();
        self.room = drive.room() as u64;
        self.is_news |= was_little && !self.is_little();
        self.clock = drive.clock().number();
        self.window = drive.window();
        self.floor = drive.floor().number();
        if self.clients_room() >= LITTLE_ROOM {
            self.roomy = self.clock;
            self.reserve = RESERVE_BLOCKS as u64;
        }
        self.call_copier();
    }

    /// How many blocks changes of clients may still take.
    fn clients_room(&self) -> u64 {
        self.room.saturating_sub(self.kept)
    }

    /// How many blocks the copier may still take: it leaves half of what clients leave.
    fn copiers_room(&self) -> u64
        ensures { result ≡ self.now.room - self.now.kept / 2 }
    {
        self.room.saturating_sub(self.kept / 2)
    }

    /// This many frames are free, and of the reserve no more is left.
    pub(crate) fn count_free(&mut self, frames: u16) {
        self.reserve = u64::from(frames) * PAYLOAD_BLOCKS as u64;
    }

    /// A round is needed.
    fn want(&mut self, round: u64)
        ensures { self.new.agenda ≡ self.old.agenda }
    {
        if self.wanted < round {
            self.wanted = round;
            self.is_news = true;
        }
    }

    /// Whether there is too little room for the copier, and too few blocks are left for the objects
    /// that have history. Then all of that is to have aged before a round visits them: such a round
    /// writes least and frees most. Deleted objects alone may be removed, which writes nothing.
    fn is_pinched(&self) -> bool
        ensures { result ≡ is_pinched self.now }
    {
        let written = self.agenda.count().saturating_mul(ROUND_BLOCKS);
        self.is_tight()
            && written > self.reserve.saturating_add(self.room)
            && self.roomy.saturating_add(self.window) > self.clock
    }

    /// Whether enough history may have aged since the last round for another one to gain something:
    /// a part of the window, or a minute of it. The clock moves with requests alone, so nothing ages
    /// while none come; the first that comes after a pause has all of it, and finds a round ripe.
    fn is_ripe(&self) -> bool {
        let rounds = if self.is_pinched() {
            REMOVALS_IN_A_WINDOW
        } else {
            ROUNDS_IN_A_WINDOW
        };
        let ageing = (self.window / rounds).min(MOST_AGEING);
        self.clock >= self.visited.saturating_add(ageing)
            && (!self.is_pinched() || self.agenda.has_removal(self.floor))
    }

    /// A change of an object is asked, whose chain may be nearly full. The cleaner is called where
    /// room is below a quarter or the chain is nearly full, and twice as many changes were asked
    /// since its last round as that had turns, and another is worth its cost.
    ///
    /// Answers what the change lacks, where it is to wait for a round first.
    pub(crate) fn count(&mut self, is_nearly_full: bool) -> Option<Lack> {
        self.asked = self.asked.saturating_add(1);
        self.stir(1);
        let is_ripe = self.is_ripe();
        let is_wanting = self.clients_room() < self.blocks / 4 || is_nearly_full;
        if self.asked >= self.due && is_ripe && is_wanting {
            self.due = u64::MAX;
            self.want(self.begun.saturating_add(1));
        }
        let may_gain = is_ripe || self.ended < self.frees || self.needs_walk();
        if may_gain && is_nearly_full {
            Some(Lack::Chain)
        } else if may_gain && self.is_short() {
            Some(Lack::Room)
        } else {
            None
        }
    }

    /// Whether so little room is left that a change begins to wait for the cleaner.
    fn is_short(&self) -> bool {
        self.clients_room() < self.blocks / 8
    }

    /// Whether so little room is left that a change waits on which does so for room: less than that,
    /// or too little for a move, so that the largest change finds enough.
    fn is_little(&self) -> bool {
        self.is_short() || self.is_tight()
    }

    /// Whether so little room is left that a walk over all objects is to end first, which may make
    /// some: what it writes takes room, too.
    fn needs_walk(&self) -> bool {
        let is_scant = self.clients_room() < self.blocks / 16 || self.is_tight();
        self.agenda.is_walking() && is_scant
    }

    /// All objects were visited.
    pub(crate) fn end_walk(&mut self)
        ensures { self.new.agenda ≡ record self.old.agenda { is_walking = false } }
    {
        self.agenda.end_walk();
        self.is_news = true;
    }

    /// An object was changed at this moment.
    pub(crate) fn note_change(&mut self, object: ObjectId, moment: Moment)
        ensures { AddsFloor self.old.agenda object moment self.new.agenda }
    {
        self.agenda.add(object, moment);
    }

    /// Moments of an object were hidden, or of all where its number is 0. The round that begins
    /// next frees what they held.
    pub(crate) fn hide(&mut self, object: ObjectId)
        ensures all { object ≡ 0 → self.new.agenda ≡ record self.old.agenda { is_hidden = true } }
        ensures known { object ≢ 0 → has_key self.old.agenda.floors.entries object ≡ true
            → PutsFloor self.old.agenda object 0 self.new.agenda }
        ensures unknown { object ≢ 0 → has_key self.old.agenda.floors.entries object ≡ false
            → self.new.agenda ≡ self.old.agenda }
    {
        self.agenda.hide(object);
        self.frees = self.begun.saturating_add(1);
        self.want(self.frees);
    }

    /// An object was deleted at this moment, whose entries may fit one journal block.
    pub(crate) fn note_delete(&mut self, object: ObjectId, moment: Moment, is_short: bool)
        ensures { Deletes self.old.agenda object moment is_short self.new.agenda }
    {
        self.agenda.delete(object, moment, is_short);
    }

    /// An object had its turn, and has this history left, or none.
    pub(crate) fn settle(&mut self, object: ObjectId, left: Option<History>)
        ensures { MatchOption left (Forgets self.old.agenda object self.new.agenda)
            (λ history. PutsHistory self.old.agenda object history self.new.agenda) }
    {
        self.agenda.settle(object, left);
    }

    /// An object could not be cleaned.
    pub(crate) fn keep(&mut self, object: ObjectId)
        ensures { PutsFloor self.old.agenda object 0 self.new.agenda }
    {
        self.agenda.keep(object);
    }

    /// The round that a change waits for which lacks room: the one that frees what was hidden last,
    /// or a whole one from now on.
    pub(crate) fn want_round(&mut self) -> u64 {
        let round = if self.ended < self.frees {
            self.frees
        } else {
            self.begun.saturating_add(1)
        };
        self.want(round);
        round
    }

    /// Whether that round is still to come, or the end of a walk that is needed, for a change that
    /// lacks this still: a cleaner is at work, and hasn't come to it.
    pub(crate) fn is_to_come(&self, round: u64, lack: Lack) -> bool {
        self.is_going
            && (self.ended < round || self.needs_walk())
            && (self.is_little() || lack == Lack::Chain)
    }

    /// Sessions and copier have ended.
    fn is_over(&self) -> bool
        ensures { result ≡ self.now.is_served && self.now.is_moved }
    {
        self.is_served && self.is_moved
    }

    /// A round begins.
    pub(crate) fn begin_round(&mut self) -> Begun
        ensures { Begins self.old result self.new }
    {
        let is_last = self.is_over();
        self.is_going = true;
        self.is_news = true;
        self.begun = self.begun.saturating_add(1);
        self.visited = self.clock;
        Begun {
            is_last,
            objects: if is_last { None } else { self.objects() },
            walks: self.agenda.is_walking(),
        }
    }

    /// The objects of a round that begins now, by ascending number; None where it is to visit all.
    fn objects(&mut self) -> Option<Vec<ObjectId>>
        ensures due { GivesDue self.old result self.new.agenda }
        ensures kept { self.new ≡ record self.old { agenda = self.new.agenda } }
    {
        let floor = Moment::new(self.floor);
        if self.is_pinched() && self.ended >= self.frees && !self.agenda.is_walking() {
            Some(self.agenda.begin_removals(floor))
        } else {
            self.agenda.begin_round(floor)
        }
    }

    /// A round of this many turns has ended, and there is none after the last. Another one is needed
    /// where a walk is to go on.
    pub(crate) fn end_round(&mut self, turns: u64, is_last: bool) {
        if self.agenda.is_walking() && !is_last {
            self.want(self.begun.saturating_add(1));
        }
        self.due = self.asked.saturating_add(turns.saturating_mul(2));
        self.ended = self.begun;
        self.is_going = !is_last;
        self.is_news = true;
        self.stir(CHANGES_BETWEEN);
    }

    /// Whether no round is needed, and more may come.
    pub(crate) fn is_idle(&self) -> bool {
        self.begun >= self.wanted && !self.is_over()
    }

    /// All sessions have ended.
    pub(crate) fn end_sessions(&mut self) {
        self.is_served = true;
        self.is_news = true;
    }

    /// The copier has ended.
    pub(crate) fn end_moves(&mut self) {
        self.is_moved = true;
        self.is_news = true;
    }

    /// Whether there is too little room for the copier's moves.
    pub(crate) fn is_tight(&self) -> bool
        ensures { result ≡ is_tight self.now }
    {
        self.copiers_room() < MOVE_BLOCKS as u64
    }

    /// Whether the copier is to make room: it has enough for a move, and beside that less than a
    /// quarter of the drive is left.
    fn is_scarce(&self) -> bool {
        let scarce = (self.blocks / 4).saturating_add(MOVE_BLOCKS as u64);
        !self.is_tight() && self.clients_room() < scarce
    }

    /// Whether the copier has a step to take.
    fn has_step(&self) -> bool {
        self.is_scarce() && self.stirred >= self.next_step
    }

    /// This many changes came, or as much was freed.
    fn stir(&mut self, changes: u64) {
        self.stirred = self.stirred.saturating_add(changes);
        self.call_copier();
    }

    /// Wakes the copier where it has come to have a step to take.
    fn call_copier(&mut self) {
        if self.is_resting && self.has_step() {
            self.is_resting = false;
            self.is_news = true;
        }
    }

    /// How much there was so far that the copier's next step may see.
    pub(crate) fn stirred(&self) -> u64 {
        self.stirred
    }

    /// The copier took a step that saw so much. It takes the next one at once where it has moved an
    /// object, and else once a frame may have become sparse.
    pub(crate) fn plan_step(&mut self, seen: u64, has_moved: bool) {
        let changes = if has_moved { 0 } else { CHANGES_BETWEEN };
        self.next_step = seen.saturating_add(changes);
    }

    /// Whether the copier goes on waiting.
    pub(crate) fn rests(&mut self) -> bool {
        self.is_resting = !self.is_served && !self.has_step();
        self.is_resting
    }

    /// All sessions have ended.
    pub(crate) fn is_served(&self) -> bool {
        self.is_served
    }

    /// How often cleaner or copier has had the drive's lock that it waited for.
    pub(crate) fn taken(&self) -> u64 {
        self.taken
    }

    /// Whether cleaner or copier waits for the drive's lock still as it did then.
    pub(crate) fn is_wanted_since(&self, taken: u64) -> bool {
        self.wanting > 0 && self.taken == taken
    }

    /// A session waits for the drive's lock.
    pub(crate) fn ask_drive(&mut self) {
        self.asking = self.asking.saturating_add(1);
    }

    /// It has it.
    pub(crate) fn enter_drive(&mut self) {
        self.asking = self.asking.saturating_sub(1);
        self.entered = self.entered.wrapping_add(1);
        self.is_news |= self.gives_way > 0;
    }

    /// How often a session has had the drive's lock that it waited for.
    pub(crate) fn entered(&self) -> u64 {
        self.entered
    }

    /// Whether a session waits for the drive's lock still as it did then.
    pub(crate) fn is_asked_since(&self, entered: u64) -> bool {
        self.asking > 0 && self.entered == entered
    }

    /// Cleaner or copier waits for the drive's lock. Answers how many do.
    pub(crate) fn want_drive(&mut self) -> u64 {
        self.wanting = self.wanting.saturating_add(1);
        self.wanting
    }

    /// It has it. Answers how many still wait.
    pub(crate) fn take_drive(&mut self) -> u64 {
        self.wanting = self.wanting.saturating_sub(1);
        self.taken = self.taken.wrapping_add(1);
        self.is_news |= self.gives_way > 0;
        self.wanting
    }

    /// Somebody begins to wait for another's turn with the drive.
    pub(crate) fn begin_giving_way(&mut self) {
        self.gives_way = self.gives_way.saturating_add(1);
    }

    /// It has waited.
    pub(crate) fn end_giving_way(&mut self) {
        self.gives_way = self.gives_way.saturating_sub(1);
    }
}
