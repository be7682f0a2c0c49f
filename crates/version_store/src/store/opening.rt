//! A store of objects that are in a table already.
ghost use Rattle.std.specs.Prelude.{◌≡◌, IfOk, IfErr};
ghost use Rattle.std.specs.List.{All};
ghost use Rattle.s4_types.specs.declared.refusals.Refusal.TheVariants.{NoMemory};
ghost use Rattle.version_store.specs.Opening.{numbers_opened, rows_opened, NumbersAscend};
ghost use Rattle.version_store.specs.Opening.{FitsItsRow};
ghost use Rattle.version_store.specs.Store.{fields_of, IsStore};

use crate::opened::{OpenedObject, map_of};
use crate::store::Store;
use block_log::Blocks;
use checkpoint::{CACHED_INODES, InodeCache};
use s4_types::{Moment, Refusal};
use std::alloc::Global;

impl<B: Blocks> Store<B> {
    /// A store of the objects whose blocks a table holds, as they were up to the moment of the last
    /// change. In the table each data block has as many names as the rows give it.
    ///
    /// NoMemory alone, where memory for the rows, or for the inodes that are kept of checkpoints,
    /// is refused; the table is let go then.
    pub fn from_parts(
        alloc: Global,
        table: B,
        objects: Vec<OpenedObject>,
        latest: Moment,
    ) -> Result<Self, Refusal>
    where
        B: Drop,
        requires ascending { NumbersAscend (numbers_opened objects.items) }
        requires beside { All (FitsItsRow (B.log table).held latest) objects.items }
        requires store { IsStore (record { rows = rows_opened objects.items; log = B.log table; latest = latest }) }
        ensures rows { IfOk result (λ s. s.rows ≡ rows_opened objects.items) }
        ensures table { IfOk result (λ s. s.table ≡ table) }
        ensures latest { IfOk result (λ s. s.latest ≡ latest) }
        ensures store { IfOk result (λ s. IsStore (fields_of B.log s)) }
        ensures refusal { IfErr result (λ e. e ≡ NoMemory) }
    {
        let objects = map_of(alloc, objects)?;
        let cache = InodeCache::new(alloc, CACHED_INODES)?;
        Ok(Store {
            alloc,
            objects,
            table,
            latest,
            cache,
        })
    }
}
