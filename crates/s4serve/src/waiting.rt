//! Lines of doors that wait until a worker takes them.
ghost use Rattle.std.specs.Prelude.{◌≡◌, ◌++◌, ◌<◌, [], ◌∷◌, IfErr, IfNone, IfOk};
ghost use Rattle.std.specs.Prelude.{IfSome, OnErr, OnOk, length};
ghost use Rattle.s4serve.specs.Doors.{HasRole};
ghost use Rattle.s4serve.specs.Lines.{lines_for, other_role};
ghost use Rattle.s4serve.specs.declared.parts.TheConstants.{ALL_PARTS};

use crate::parts::{OwnPart, Parts};
use crate::service::Serving;
use door_lines::SessionName;
use s4_types::Role;
use server::Part;
use std::alloc::{AllocError, Global};
use std::collections::VecDeque;
use std::sync::{Condvar, Mutex, Wait};

/// How many lines wait at once for those who serve a role, at most.
pub const MOST_WAITING: usize = 64;

/// A line that asks for a session.
#[derive(Drop)]
pub struct Line {
    /// The number of its door, from 0 on.
    pub door: usize,
    /// The name of its streams.
    pub name: SessionName,
}

/// A line that a worker has taken, and the number of the part of the books that came with it.
#[derive(Drop)]
pub struct Taken {
    pub line: Line,
    pub number: u64,
}

/// The lines that no worker has taken yet, in the order in which they came.
///
/// **The rule of every wait.** Whoever waits, waits for a predicate of this struct alone, in a loop
/// over it under the struct's lock. Whoever changes the struct does so under that lock, and
/// notifies the one condition variable after that. Whoever holds the lock takes no other.
#[derive(Drop)]
pub(crate) struct Waiting {
    pub clients: VecDeque<Line>,
    pub administrators: VecDeque<Line>,
}

impl Waiting {
    /// No lines, and room for all that may wait.
    pub(crate) fn new(alloc: Global) -> Result<Self, AllocError>
        ensures clients { IfOk result (λ w. w.clients.items ≡ []) }
        ensures administrators { IfOk result (λ w. w.administrators.items ≡ []) }
    {
        Ok(Waiting {
            clients: VecDeque::with_capacity(alloc, MOST_WAITING)?,
            administrators: VecDeque::with_capacity(alloc, MOST_WAITING)?,
        })
    }

    /// A line has come to a door of this role. It is given back where `MOST_WAITING` wait already.
    pub(crate) fn put(&mut self, role: Role, line: Line) -> Result<(), Line>
        ensures waits { OnOk result (lines_for role self.new ≡ lines_for role self.old ++ line ∷ []) }
        ensures few { OnOk result (length (lines_for role self.old) < MOST_WAITING) }
        ensures back { IfErr result (λ given. given ≡ line) }
        ensures same { OnErr result (lines_for role self.new ≡ lines_for role self.old) }
        ensures others { lines_for (other_role role) self.new ≡ lines_for (other_role role) self.old }
    {
        match role {
            Role::Client => put_last(&mut self.clients, line),
            Role::Admin => put_last(&mut self.administrators, line),
        }
    }

    /// The line that came first of those that wait for who serves this role. It waits no more.
    pub(crate) fn take(&mut self, role: Role) -> Option<Line>
        ensures taken { IfSome result
            (λ line. lines_for role self.old ≡ line ∷ lines_for role self.new) }
        ensures none { IfNone result (lines_for role self.old ≡ []) }
        ensures others { lines_for (other_role role) self.new ≡ lines_for (other_role role) self.old }
    {
        match role {
            Role::Client => self.clients.pop_front(),
            Role::Admin => self.administrators.pop_front(),
        }
    }
}

/// A line comes last of these, where fewer than `MOST_WAITING` are there.
fn put_last(lines: &mut VecDeque<Line>, line: Line) -> Result<(), Line>
    ensures waits { OnOk result (lines.new.items ≡ lines.old.items ++ line ∷ []) }
    ensures few { OnOk result (length lines.old.items < MOST_WAITING) }
    ensures back { IfErr result (λ given. given ≡ line) }
    ensures same { OnErr result (lines.new.items ≡ lines.old.items) }
{
    if lines.len() >= MOST_WAITING {
        return Err(line);
    }
    match lines.push_back(line) {
        Ok(()) => Ok(()),
        Err(failed) => Err(failed.value),
    }
}

/// What workers wait for: the lines, under one lock, and what wakes whoever waits. With each comes
/// a part of the books, which nothing else gives.
#[derive(Drop)]
pub struct Lines<J: Serving> {
    waiting: Mutex<Waiting>,
    news: Condvar,
    /// The parts of the books that no session has had.
    parts: Mutex<Parts<J>>,
}

impl<J: Serving> Lines<J> {
    /// No lines, and all parts of the books of a service.
    pub fn new(alloc: Global, all: Part<J>) -> Result<Self, AllocError>
        requires { all.parts ≡ ALL_PARTS }
    {
        let waiting = Waiting::new(alloc)?;
        Ok(Lines {
            waiting: Mutex::new(waiting),
            news: Condvar::new(),
            parts: Mutex::new(Parts::new(all)),
        })
    }

    /// A line has come to its door, which has this role. It is given back where too many wait
    /// already.
    pub fn put(&self, rt: &impl Wait, role: Role, line: Line) -> Result<(), Line>
        requires role { HasRole J.doors line.door role }
        ensures back { IfErr result (λ given. given ≡ line) }
    {
        let put = self.waiting.lock(rt).put(role, line);
        self.news.notify_all();
        put
    }

    /// The next line of those for who serves this role, once there is one, and its own part of the
    /// books. None once all parts are given, which no service lives to see.
    pub fn take(&self, rt: &impl Wait, role: Role) -> Option<(Taken, OwnPart<J>)>
        ensures { IfSome result (λ had. had.1.number ≡ had.0.number) }
    {
        let line = self.next(rt, role);
        let own = self.parts.lock(rt).one()?;
        let number = own.number();
        Some((Taken { line, number }, own))
    }

    /// Waits for the next line of those for who serves this role.
    fn next(&self, rt: &impl Wait, role: Role) -> Line {
        let mut waiting = self.waiting.lock(rt);
        for _ in rt.forever() {
            match waiting.take(role) {
                Some(line) => return line,
                None => waiting = self.news.wait(rt, waiting),
            }
        }
        unreachable!()
    }
}
