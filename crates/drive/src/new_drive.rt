//! A new drive, before and when it gets its name.
ghost use Rattle.std.specs.Prelude.{◌≡◌, ◌⊎◌, ◌<◌, ◌≤◌, ℕ, None, IfOk, IfErr};
ghost use Rattle.s4_types.specs.Sizes.{IsFrameCount};
ghost use Rattle.s4_types.specs.declared.refusals.Refusal.TheVariants.{NoMemory, Busy};
ghost use Rattle.s4_model.specs.State.{new_base};
ghost use Rattle.segment_word.specs.AcceptViews.{begun};
ghost use Rattle.checkpoint.specs.declared.cache.TheConstants.{CACHED_INODES as MOST_INODES};
ghost use Rattle.object_map.specs.Rows.{row_of};
ghost use Rattle.segment_table.specs.Room.{log_of, new_places};
ghost use Rattle.version_store.specs.Store.{fields_of, IsStore};

use crate::drive::Drive;
use crate::opened_drive::OpenedDrive;
use audit_log::AuditLog;
use checkpoint::CACHED_INODES;
use s4_types::{ObjectId, Refusal};
use segment_table::{OverFrames, SegmentTable};
use segment_word::Naming;
use std::alloc::Global;
use std::marker::Model;
use version_store::Store;
use window::Window;

/// A new drive that has no name yet: an opened one of no objects. Contracts see the table of its
/// accept word, its objects and its window.
#[derive(Drop)]
pub struct NewDrive {
    opened: OpenedDrive,
}

impl Model for NewDrive {
    ghost use Rattle.std.specs.Prelude.{◌≡◌};
    ghost use Rattle.s4_model.specs.State.{new_base};
    ghost use Rattle.segment_table.specs.Room.{log_of};
    ghost use Rattle.version_store.specs.Store.{fields_of};
    ghost use Rattle.drive.specs.Fields.{NewFields};
    ghost use Rattle.drive.specs.Opened.{base_of};

    ghost Value = { NewFields };

    ghost view = { λ d. record { accepts = d.opened.accepts; store = d.opened.store; window = d.opened.timeline.window } };

    ghost invariant = { λ d. base_of (fields_of log_of d.opened.store) d.opened.timeline d.opened.next d.opened.audit ≡ new_base d.opened.timeline.window };
}

impl NewDrive {
    /// A new drive of `FEWEST_FRAMES` to `MOST_FRAMES` frames, whose history reaches `window`
    /// moments back. Nothing is stored in it, and no object has a row. It keeps the inodes of at
    /// most `CACHED_INODES` checkpoints in memory.
    ///
    /// NoMemory where memory was refused, Busy where a count of those that share it was full.
    pub fn new(alloc: Global, frames: usize, window: u64) -> Result<Self, Refusal>
        requires { IsFrameCount frames }
        ensures window { IfOk result (λ d. d.window ≡ window) }
        ensures log { IfOk result (λ d. log_of d.store.table ≡ record { held = λ p. None; ahead = new_places frames; spent = 0; named = λ p. 0 }) }
        ensures empty { IfOk result (λ d. (o : ℕ) → row_of d.store.rows o ≡ None) }
        ensures latest { IfOk result (λ d. d.store.latest ≡ 0) }
        ensures store { IfOk result (λ d. IsStore (fields_of log_of d.store)) }
        ensures refusal { IfErr result (λ e. (e ≡ NoMemory) ⊎ (e ≡ Busy)) }
    {
        Self::with_cache(alloc, frames, window, CACHED_INODES)
    }

    /// [`NewDrive::new`], but the drive keeps the inodes of at most `inodes` checkpoints in memory,
    /// 1 to `CACHED_INODES`. That changes no answer, only which blocks are read for it.
    ///
    /// It is refused as that is.
    pub fn with_cache(
        alloc: Global,
        frames: usize,
        window: u64,
        inodes: usize,
    ) -> Result<Self, Refusal>
        requires frames { IsFrameCount frames }
        requires some { 0 < inodes }
        requires few { inodes ≤ MOST_INODES }
        ensures window { IfOk result (λ d. d.window ≡ window) }
        ensures log { IfOk result (λ d. log_of d.store.table ≡ record { held = λ p. None; ahead = new_places frames; spent = 0; named = λ p. 0 }) }
        ensures empty { IfOk result (λ d. (o : ℕ) → row_of d.store.rows o ≡ None) }
        ensures latest { IfOk result (λ d. d.store.latest ≡ 0) }
        ensures store { IfOk result (λ d. IsStore (fields_of log_of d.store)) }
        ensures refusal { IfErr result (λ e. (e ≡ NoMemory) ⊎ (e ≡ Busy)) }
    {
        let table = SegmentTable::new(alloc, frames)?;
        table.frame_rules();
        let store = Store::new(alloc, table, inodes)?;
        let window = Window::new(alloc, window);
        let audit = AuditLog::new(alloc);
        let opened = OpenedDrive::from_parts(alloc, store, window, ObjectId::new(1), audit)?;
        Ok(NewDrive { opened })
    }

    /// The drive, under a name that says which one it is and what its history begins with.
    pub fn named<J: Naming>(self) -> Drive<J>
        requires accepts { self.accepts ≡ J.accepts }
        requires frames { self.store.table.seat.table ≡ J.frames }
        requires base { new_base self.window ≡ J.base }
        ensures ledger { result.ledger ≡ begun J.base }
        ensures store { result.store ≡ self.store }
        ensures frames { result.store.table.seat.table ≡ J.frames }
    {
        let NewDrive { opened } = self;
        opened.named::<J>()
    }
}
