//! Images that were verified.
ghost use Rattle.std.specs.Prelude.{◌≡◌, ◌⊎◌, length, IfOk, IfErr};
ghost use Rattle.s4_types.specs.declared.refusals.Refusal.TheVariants.{NoMemory, Busy};
ghost use Rattle.verifier.specs.Images.{CanBeOpened};
ghost use Rattle.verifier.specs.Opened.{IsOpenedOf};

use audit_log::AuditLog;
use drive::OpenedDrive;
use s4_types::{Moment, ObjectId, Refusal, Span};
use segment_table::{SegmentTable, TableBuilder};
use std::alloc::Global;
use std::marker::Model;
use version_store::{OpenedObject, Store};
use window::Window;

/// What was read of an image that was verified: a drive can be opened from it.
pub struct Image {
    pub(crate) clock: Moment,
    pub(crate) window: u64,
    pub(crate) floor: Moment,
    pub(crate) next: ObjectId,
    pub(crate) table: TableBuilder,
    pub(crate) objects: Vec<OpenedObject>,
    pub(crate) spans: Vec<Span>,
    pub(crate) audit: AuditLog,
}

// Written by hand, so that an owner lets it go by one call.
impl Drop for Image {
    fn drop(self) {
        let Image {
            clock: _,
            window: _,
            floor: _,
            next: _,
            table: _,
            objects: _,
            spans: _,
            audit: _,
        } = self;
    }
}

impl Model for Image {
    ghost use Rattle.verifier.specs.Images.{ImageFields, CanBeOpened};

    ghost Value = { ImageFields };

    ghost view = { λ i. record { clock = i.clock; window = i.window; floor = i.floor; next = i.next; table = i.table; objects = i.objects.items; spans = i.spans.items; audit = i.audit.rows } };

    ghost invariant = { λ i. CanBeOpened (record { clock = i.clock; window = i.window; floor = i.floor; next = i.next; table = i.table; objects = i.objects.items; spans = i.spans.items; audit = i.audit.rows }) };
}

impl Image {
    /// How many frames the drive has.
    pub fn frames(&self) -> u16
        ensures { result ≡ length self.now.table.seat.frames }
    {
        self.table.frame_count()
    }

    /// How many objects have a row.
    pub fn objects(&self) -> usize
        ensures { result ≡ length self.now.objects }
    {
        self.objects.len()
    }

    /// The clock: the last moment given or seen.
    pub fn clock(&self) -> Moment
        ensures { result ≡ self.now.clock }
    {
        self.clock
    }

    /// How many moments history reaches back from the clock.
    pub fn window(&self) -> u64
        ensures { result ≡ self.now.window }
    {
        self.window
    }

    /// Moments below it are lost.
    pub fn floor(&self) -> Moment
        ensures { result ≡ self.now.floor }
    {
        self.floor
    }

    /// The drive that has its parts.
    pub(crate) fn into_drive(self, alloc: Global) -> Result<OpenedDrive, Refusal>
        ensures can { CanBeOpened self }
        ensures opened { IfOk result (λ d. IsOpenedOf self d) }
        ensures refusal { IfErr result (λ e. (e ≡ NoMemory) ⊎ (e ≡ Busy)) }
    {
        let Image {
            clock,
            window,
            floor,
            next,
            table,
            objects,
            spans,
            audit,
        } = self;
        let table = SegmentTable::from_parts(alloc, table)?;
        let store = Store::from_parts(alloc, table, objects, clock)?;
        let window = Window::from_parts(alloc, clock, window, floor, spans.as_slice())?;
        OpenedDrive::from_parts(alloc, store, window, next, audit)
    }
}
