//! A drive of objects that are there already, before and when it gets its name.
ghost use Rattle.std.specs.Prelude.{◌≡◌, ◌⊎◌, ◌≤◌, ◌+◌, ◌-◌, ℕ, IfOk, IfErr};
ghost use Rattle.std.specs.List.{AllByRecursion};
ghost use Rattle.s4_types.specs.declared.refusals.Refusal.TheVariants.{NoMemory, Busy};
ghost use Rattle.s4_model.specs.Audit.{IsAuditRow};
ghost use Rattle.s4_model.specs.Sound.{EndsBefore, IsOfGiven};
ghost use Rattle.segment_word.specs.AcceptViews.{begun};
ghost use Rattle.segment_table.specs.Room.{log_of};
ghost use Rattle.version_store.specs.Store.{fields_of, IsStore};
ghost use Rattle.drive.specs.Opened.{base_of, NoneFrom};

use crate::drive::Drive;
use crate::laws::a_base_is_what_its_objects_stand_for;
use audit_log::AuditLog;
use s4_types::{ObjectId, Refusal};
use segment_table::SegmentTable;
use segment_word::Naming;
use segment_word::accepts::Accepts;
use std::alloc::Global;
use std::marker::Model;
use version_store::Store;
use version_store::laws::the_present_stays;
use window::Window;

/// A drive that was opened and has no name yet. Contracts see the table of its accept word, its
/// objects, its window, the next object's number and the rows of its audit.
pub struct OpenedDrive {
    alloc: Global,
    accepts: Accepts,
    store: Store<SegmentTable>,
    window: Window,
    next: ObjectId,
    audit: AuditLog,
}

// Written by hand, so that an owner lets it go by one call.
impl Drop for OpenedDrive {
    fn drop(self) {
        let OpenedDrive {
            alloc: _,
            accepts: _,
            store: _,
            window: _,
            next: _,
            audit: _,
        } = self;
    }
}

impl Model for OpenedDrive {
    ghost use Rattle.std.specs.Prelude.{◌≤◌};
    ghost use Rattle.std.specs.List.{AllByRecursion};
    ghost use Rattle.s4_model.specs.State.{state_of};
    ghost use Rattle.segment_table.specs.Room.{log_of};
    ghost use Rattle.version_store.specs.Store.{fields_of};
    ghost use Rattle.drive.specs.Opened.{OpenedFields, opened_history};
    ghost use Rattle.drive.specs.Keeping.{IsKeptDrive};

    ghost Value = { OpenedFields };

    ghost view = { λ d. record { accepts = d.accepts; store = d.store; timeline = d.window; next = d.next; audit = d.audit.rows } };

    ghost invariant = { λ d. IsKeptDrive (state_of (opened_history (fields_of log_of d.store) d.window d.next d.audit.rows)) (fields_of log_of d.store) d.window d.next × AllByRecursion (λ row. row.moment ≤ d.window.clock) d.audit.rows };
}

impl OpenedDrive {
    /// A drive of these objects, under this window; `next` is the number that the next object gets.
    /// Its history begins with what they represent, and with these rows of its audit.
    ///
    /// NoMemory where memory was refused, Busy where a count of those that share it was full.
    pub fn from_parts(
        alloc: Global,
        store: Store<SegmentTable>,
        window: Window,
        next: ObjectId,
        audit: AuditLog,
    ) -> Result<Self, Refusal>
        requires store { IsStore (fields_of log_of store) }
        requires past { store.latest ≤ window.clock }
        requires below { window.floor ≤ window.clock }
        requires reach { window.clock - window.window ≤ window.floor }
        requires numbered { 1 ≤ next }
        requires given { next ≤ window.clock + 1 }
        requires unborn { NoneFrom next (fields_of log_of store) }
        requires ended { AllByRecursion (EndsBefore window.clock) window.runs }
        requires owned { AllByRecursion (IsOfGiven next) window.runs }
        requires rows { AllByRecursion (IsAuditRow next) audit.rows }
        requires accepted { AllByRecursion (λ row. row.moment ≤ window.clock) audit.rows }
        ensures store { IfOk result (λ d. d.store ≡ store) }
        ensures timeline { IfOk result (λ d. d.timeline ≡ window) }
        ensures next { IfOk result (λ d. d.next ≡ next) }
        ensures audit { IfOk result (λ d. d.audit ≡ audit.rows) }
        ensures refusal { IfErr result (λ e. (e ≡ NoMemory) ⊎ (e ≡ Busy)) }
    {
        a_base_is_what_its_objects_stand_for();
        the_present_stays();
        let accepts = Accepts::new(alloc)?;
        Ok(OpenedDrive {
            alloc,
            accepts,
            store,
            window,
            next,
            audit,
        })
    }

    /// The drive, under a name that says which one it is and what its history begins with.
    pub fn named<J: Naming>(self) -> Drive<J>
        requires accepts { self.accepts ≡ J.accepts }
        requires frames { self.store.table.seat.table ≡ J.frames }
        requires base { base_of (fields_of log_of self.store) self.timeline self.next
            self.audit ≡ J.base }
        ensures ledger { result.ledger ≡ begun J.base }
        ensures store { result.store ≡ self.store }
        ensures audit { result.audit ≡ self.audit }
        ensures frames { result.store.table.seat.table ≡ J.frames }
    {
        let OpenedDrive {
            alloc,
            accepts,
            store,
            window,
            next,
            audit,
        } = self;
        let (sessions, history) = accepts.named::<J>();
        Drive {
            alloc,
            history,
            sessions,
            store: store.named::<J>(),
            window,
            next,
            audit,
        }
    }
}
