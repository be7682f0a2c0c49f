//! A drive: its parts, and how its sessions are had and brought up to date.
ghost use Rattle.std.specs.Prelude.{◌≡◌, [], IfOk, IfErr};
ghost use mathlib.Core.List.{IsPrefix};
ghost use Rattle.s4_types.specs.History.{accepted};
ghost use Rattle.s4_types.specs.declared.refusals.Refusal.TheVariants.{Busy};
ghost use Rattle.segment_word.specs.AcceptViews.{caught_up};
ghost use Rattle.segment_word.specs.AcceptRule.{FitsLedger, ShareNone};

use crate::session::Session;
use audit_log::AuditLog;
use s4_types::{ObjectId, Refusal, Role};
use segment_word::Naming;
use segment_word::accepts::{HistorySeat, Sessions};
use std::alloc::Global;
use std::marker::Model;
use version_store::{NamedTable, Store};
use window::Window;

/// A drive: its one history, the objects that represent it, and the rows of its audit.
///
/// Contracts see the history with the seat that each change was accepted for, the objects over
/// their blocks, and which rows of the audit are kept: from the floor on these are the audit, and
/// no answer shows whether others are kept below it. `J` names the drive and what its history
/// begins with; a session of another drive has another type.
pub struct Drive<J: Naming> {
    pub(crate) alloc: Global,
    pub(crate) history: HistorySeat<J>,
    pub(crate) sessions: Sessions<J>,
    pub(crate) store: Store<NamedTable<J>>,
    pub(crate) window: Window,
    pub(crate) next: ObjectId,
    pub(crate) audit: AuditLog,
}

// Written by hand, so that an owner lets it go by one call.
impl<J: Naming> Drop for Drive<J> {
    fn drop(self) {
        let Drive {
            alloc: _,
            history: _,
            sessions: _,
            store: _,
            window: _,
            next: _,
            audit: _,
        } = self;
    }
}

impl<J: Naming> Model for Drive<J> {
    ghost use Rattle.std.specs.Prelude.{◌≡◌};
    ghost use Rattle.s4_model.specs.State.{state_of};
    ghost use Rattle.segment_table.specs.Room.{log_of};
    ghost use Rattle.version_store.specs.Store.{fields_of};
    ghost use Rattle.drive.specs.Fields.{DriveFields};
    ghost use Rattle.s4_model.specs.Audit.{KeepsAudit};
    ghost use Rattle.drive.specs.Keeping.{IsKeptDrive};

    ghost Value = { DriveFields };

    ghost view = { λ d. record { ledger = d.history; store = d.store; audit = d.audit.rows } };

    ghost invariant = { λ d. (d.history.history.base ≡ J.base) × IsKeptDrive (state_of d.history.history) (fields_of log_of d.store) d.window d.next × KeepsAudit (state_of d.history.history) d.audit.rows };
}

impl<J: Naming> Drive<J> {
    /// A session of a role. It has seen all accepted changes, and none is its own yet. `SEATS` can
    /// be had at a time, and one that was dropped again.
    ///
    /// Busy where all seats are in use, or where the count of those that share the memory is full.
    pub fn session(&mut self, role: Role) -> Result<Session<J>, Refusal>
        ensures seen { IfOk result (λ s. s.told.seen ≡ accepted self.old.ledger.history) }
        ensures mine { IfOk result (λ s. s.told.mine ≡ []) }
        ensures role { IfOk result (λ s. s.role ≡ role) }
        ensures busy { IfErr result (λ e. e ≡ Busy) }
        ensures same { self.new ≡ self.old }
    {
        let mut seat = self.sessions.seat()?;
        self.history.meet(&mut seat);
        Ok(Session { seat, role })
    }

    /// The session has seen all accepted changes afterwards.
    pub fn meet(&mut self, session: &mut Session<J>)
        ensures session { session.new ≡ record session.old { told = caught_up self.old.ledger session.old.told } }
        ensures grows { IsPrefix session.old.told.seen session.new.told.seen }
        ensures before { FitsLedger self.old.ledger session.old.told }
        ensures after { FitsLedger self.new.ledger session.new.told }
        ensures same { self.new ≡ self.old }
    {
        self.history.meet(&mut session.seat);
    }

    /// Ends a session, and gives its seat back. No number is its own and also that of the session
    /// that stays, which is as before.
    pub fn end_beside(&self, stays: &mut Session<J>, ends: Session<J>)
        ensures none { ShareNone stays.old.told ends.told }
        ensures same { stays.new ≡ stays.old }
    {
        self.history.end_beside(&mut stays.seat, ends.into_seat());
    }
}
