//! A drive with its sessions, its cleaner's rounds and a pile of plans, as scripts are played over
//! it.
ghost use Rattle.std.specs.Prelude.{◌≡◌, ◌<◌, ◌≤◌};
ghost use Rattle.s4_types.specs.Sizes.{IsFrameCount};
ghost use Rattle.s4_model.specs.State.{new_base};
ghost use Rattle.checkpoint.specs.declared.cache.TheConstants.{CACHED_INODES};
ghost use Rattle.segment_table.specs.Room.{log_of};
ghost use Rattle.version_store.specs.Store.{fields_of};
ghost use Rattle.drive.specs.Opened.{base_of};

use crate::player::{Player, Start};
use codec::{Entry, Inode};
use drive::{Drive, NewDrive, OpenedDrive, Session};
use history_cleaner::{Cleaner, PassReport, Rounds, Turn, clean_audit, empty_frames, full_pass};
use interleaving::{Actor, Answer, Reading, Step, run};
use object_map::Row;
use s4_types::{Moment, ObjectId, Ptr, Refusal, Role};
use segment_copier::{Candidate, Copier, candidate};
use segment_table::OverFrames;
use segment_word::Naming;
use std::alloc::Global;
use std::marker::Brand;
use std::slice::from_ref;
use std::thread::Threads;
use time_read::ReadPlan;
use verifier::{open, save, verify};

/// The numbers of a drive.
#[derive(Clone, Copy)]
pub(crate) struct Numbers {
    pub(crate) clock: u64,
    pub(crate) floor: u64,
    pub(crate) window: u64,
    /// The number that the next object gets.
    pub(crate) next: u64,
    pub(crate) room: u64,
}

/// A drive with its sessions, under any name; sessions are told by their places, from 0 on. No call
/// has a clause, so that what calls them is proved without their contracts.
pub(crate) trait Played {
    /// A session comes, after those that are there.
    fn come(&mut self, role: Role) -> Result<(), Refusal>;

    /// A session leaves; those after it move up.
    fn leave(&mut self, place: usize);

    /// A session leaves beside another one.
    fn leave_beside(&mut self, place: usize, other: usize) -> Result<(), Refusal>;

    /// Takes one step in a run of its own. Idle where its session isn't there.
    fn take(&mut self, step: &Step) -> Result<Answer, Refusal>;

    /// A plan of a read is laid on the pile.
    fn keep(&mut self, place: usize, reading: &Reading) -> Result<(), Refusal>;

    /// The last plan of the pile is fetched, if there is one.
    fn fetch(&mut self) -> Result<Option<Vec<u8>>, Refusal>;

    /// The last plan of the pile, or all, are given up.
    fn drop_plans(&mut self, is_all: bool);

    fn pass(&mut self) -> Result<PassReport, Refusal>;

    /// The rows of the audit below the floor are dropped.
    fn clean_audit(&mut self);

    fn turn(&mut self) -> Turn;

    fn empty(&mut self) -> Result<u32, Refusal>;

    fn chosen(&mut self) -> Result<Option<Candidate>, Refusal>;

    fn numbers(&self) -> Numbers;

    fn sees(&self, object: u64, first: u64, last: u64) -> bool;

    fn above(&self, object: u64) -> Option<ObjectId>;

    fn row(&self, object: u64) -> Option<Row>;

    fn entries(&mut self, object: u64) -> Result<Vec<Entry>, Refusal>;

    fn inode(&mut self, object: u64, at: u64) -> Option<Inode>;

    fn inode_counted(&mut self, object: u64, at: u64) -> Result<Option<(Inode, u32)>, Refusal>;

    fn held(&mut self, object: u64, frame: u16) -> Result<Vec<Ptr>, Refusal>;

    fn places(&self, frame: u16, block: u8) -> u32;

    fn held_count(&self, frame: u16) -> u8;

    /// How often each block is named, counted anew: 15 numbers for each frame.
    fn recount(&mut self) -> Result<Vec<u32>, Refusal>;

    fn generation(&mut self, frame: u16) -> Option<u32>;

    fn is_draining(&mut self, frame: u16) -> bool;

    /// The frame's state word with the readers that it counts, if it is there.
    fn word(&mut self, frame: u16) -> Option<u64>;

    fn rules(&self);

    fn save(&mut self) -> Result<Vec<u8>, Refusal>;
}

/// The drive with what is beside it.
struct Party<J: Naming> {
    alloc: Global,
    drive: Drive<J>,
    actors: Vec<Actor<J, Copier>>,
    rounds: Rounds,
    pile: Vec<ReadPlan>,
}

// Written by hand, so that an owner lets it go by one call.
impl<J: Naming> Drop for Party<J> {
    fn drop(self) {
        let Party {
            alloc: _,
            drive: _,
            actors: _,
            rounds: _,
            pile: _,
        } = self;
    }
}

impl<J: Naming> Party<J> {
    fn new(alloc: Global, drive: Drive<J>) -> Self {
        Party {
            alloc,
            drive,
            actors: Vec::new(alloc),
            rounds: Rounds::new(),
            pile: Vec::new(alloc),
        }
    }
}

/// A plan of a read by a session is laid on a pile.
fn lay<J: Naming>(
    drive: &mut Drive<J>,
    session: &mut Session<J>,
    reading: &Reading,
    pile: &mut Vec<ReadPlan>,
) -> Result<(), Refusal> {
    let plan = drive.resolve(
        session,
        reading.object,
        reading.offset,
        reading.length,
        reading.at,
        reading.now,
    )?;
    pile.push(plan)?;
    Ok(())
}

impl<J: Naming> Played for Party<J> {
    fn come(&mut self, role: Role) -> Result<(), Refusal> {
        let session = self.drive.session(role)?;
        self.actors.push(Actor::new(session))?;
        Ok(())
    }

    fn leave(&mut self, place: usize) {
        if place < self.actors.len() {
            drop(self.actors.remove(place));
        }
    }

    fn leave_beside(&mut self, place: usize, other: usize) -> Result<(), Refusal> {
        if place >= self.actors.len() || other >= self.actors.len() || place == other {
            return Ok(());
        }
        let ends = self.actors.remove(place).into_session();
        let stays = if other > place { other - 1 } else { other };
        let mut session = self.actors.remove(stays).into_session();
        self.drive.end_beside(&mut session, ends);
        self.actors.insert(stays, Actor::new(session))?;
        Ok(())
    }

    fn take(&mut self, step: &Step) -> Result<Answer, Refusal> {
        let actors = self.actors.as_mut_slice();
        let steps = from_ref(step);
        let mut answers = run::<J, Cleaner, Copier>(self.alloc, &mut self.drive, actors, steps)?;
        Ok(answers.pop().unwrap_or(Answer::Idle))
    }

    fn keep(&mut self, place: usize, reading: &Reading) -> Result<(), Refusal> {
        if place >= self.actors.len() {
            return Ok(());
        }
        let mut session = self.actors.remove(place).into_session();
        let kept = lay(&mut self.drive, &mut session, reading, &mut self.pile);
        self.actors.insert(place, Actor::new(session))?;
        kept
    }

    fn fetch(&mut self) -> Result<Option<Vec<u8>>, Refusal> {
        match self.pile.pop() {
            Some(plan) => Ok(Some(plan.fetch(self.alloc)?)),
            None => Ok(None),
        }
    }

    fn drop_plans(&mut self, is_all: bool) {
        if is_all {
            self.pile.clear();
        } else {
            drop(self.pile.pop());
        }
    }

    fn pass(&mut self) -> Result<PassReport, Refusal> {
        full_pass(self.alloc, &mut self.drive)
    }

    fn clean_audit(&mut self) {
        clean_audit(&mut self.drive);
    }

    fn turn(&mut self) -> Turn {
        self.rounds.turn(self.alloc, &mut self.drive)
    }

    fn empty(&mut self) -> Result<u32, Refusal> {
        empty_frames(&mut self.drive)
    }

    fn chosen(&mut self) -> Result<Option<Candidate>, Refusal> {
        candidate(&mut self.drive)
    }

    fn numbers(&self) -> Numbers {
        Numbers {
            clock: self.drive.clock().number(),
            floor: self.drive.floor().number(),
            window: self.drive.window(),
            next: self.drive.next().number(),
            room: self.drive.room() as u64,
        }
    }

    fn sees(&self, object: u64, first: u64, last: u64) -> bool {
        let (first, last) = (Moment::new(first), Moment::new(last));
        self.drive.sees(ObjectId::new(object), first, last)
    }

    fn above(&self, object: u64) -> Option<ObjectId> {
        self.drive.next_row(ObjectId::new(object))
    }

    fn row(&self, object: u64) -> Option<Row> {
        self.drive.row(ObjectId::new(object))
    }

    fn entries(&mut self, object: u64) -> Result<Vec<Entry>, Refusal> {
        self.drive.entries(ObjectId::new(object))
    }

    fn inode(&mut self, object: u64, at: u64) -> Option<Inode> {
        self.drive.inode_at(ObjectId::new(object), Moment::new(at))
    }

    fn inode_counted(&mut self, object: u64, at: u64) -> Result<Option<(Inode, u32)>, Refusal> {
        self.drive
            .inode_at_counted(ObjectId::new(object), Moment::new(at))
    }

    fn held(&mut self, object: u64, frame: u16) -> Result<Vec<Ptr>, Refusal> {
        self.drive.held_in(ObjectId::new(object), frame)
    }

    fn places(&self, frame: u16, block: u8) -> u32 {
        self.drive.places(frame, block)
    }

    fn held_count(&self, frame: u16) -> u8 {
        self.drive.held_count(frame)
    }

    fn recount(&mut self) -> Result<Vec<u32>, Refusal> {
        self.drive.recount()
    }

    fn generation(&mut self, frame: u16) -> Option<u32> {
        self.drive.generation(frame)
    }

    fn is_draining(&mut self, frame: u16) -> bool {
        self.drive.is_draining(frame)
    }

    fn word(&mut self, frame: u16) -> Option<u64> {
        if frame >= self.drive.frame_count() {
            return None;
        }
        Some(self.drive.state_word(frame))
    }

    fn rules(&self) {
        self.drive.rules();
    }

    fn save(&mut self) -> Result<Vec<u8>, Refusal> {
        save(self.alloc, &mut self.drive)
    }
}

/// Plays on over a drive, which ends after it.
fn play_over<J: Naming, R: Threads>(
    rt: &R,
    alloc: Global,
    drive: Drive<J>,
    player: &mut Player<'_>,
) -> Result<Start, Refusal> {
    let mut party = Party::new(alloc, drive);
    let start = player.play(rt, &mut party);
    drop(party);
    start
}

fn play_made<J: Naming, R: Threads>(
    rt: &R,
    alloc: Global,
    made: NewDrive,
    player: &mut Player<'_>,
) -> Result<Start, Refusal>
    requires frames { made.store.table.seat.table ≡ J.frames }
    requires accepts { made.accepts ≡ J.accepts }
    requires base { new_base made.window ≡ J.base }
{
    play_over(rt, alloc, made.named::<J>(), player)
}

fn play_opened<J: Naming, R: Threads>(
    rt: &R,
    alloc: Global,
    opened: OpenedDrive,
    player: &mut Player<'_>,
) -> Result<Start, Refusal>
    requires frames { opened.store.table.seat.table ≡ J.frames }
    requires accepts { opened.accepts ≡ J.accepts }
    requires base { base_of (fields_of log_of opened.store) opened.timeline opened.next
        opened.audit ≡ J.base }
{
    play_over(rt, alloc, opened.named::<J>(), player)
}

/// A new drive. What is refused for lack of memory is asked for once more.
fn new_drive(alloc: Global, frames: usize, window: u64, inodes: usize) -> Result<NewDrive, Refusal>
    requires frames { IsFrameCount frames }
    requires some { 0 < inodes }
    requires few { inodes ≤ CACHED_INODES }
{
    match NewDrive::with_cache(alloc, frames, window, inodes) {
        Err(_) => NewDrive::with_cache(alloc, frames, window, inodes),
        made => made,
    }
}

/// Plays on over a new drive.
pub(crate) fn play_new<R: Threads>(
    rt: &R,
    alloc: Global,
    frames: usize,
    window: u64,
    inodes: usize,
    player: &mut Player<'_>,
) -> Result<Start, Refusal>
    requires frames { IsFrameCount frames }
    requires some { 0 < inodes }
    requires few { inodes ≤ CACHED_INODES }
{
    let made = new_drive(alloc, frames, window, inodes)?;
    play_made::<Brand, R>(rt, alloc, made, player)
}

/// The drive of an image.
fn opened_drive<R: Threads>(rt: &R, alloc: Global, image: &[u8]) -> Result<OpenedDrive, Refusal> {
    open(alloc, verify(rt, alloc, image)?)
}

/// Plays on over the drive of an image. What is refused for lack of memory is asked for once more.
pub(crate) fn play_image<R: Threads>(
    rt: &R,
    alloc: Global,
    image: &[u8],
    player: &mut Player<'_>,
) -> Result<Start, Refusal> {
    let opened = match opened_drive(rt, alloc, image) {
        Err(_) => opened_drive(rt, alloc, image)?,
        Ok(opened) => opened,
    };
    play_opened::<Brand, R>(rt, alloc, opened, player)
}
