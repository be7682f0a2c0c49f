//! The history cleaner as a run of interleaved steps calls it.
use crate::cleaning::clean_object;
use drive::Drive;
use interleaving::Cleans;
use s4_types::{ObjectId, Refusal};
use segment_word::Naming;
use std::alloc::Global;

/// What cleans objects in a run: [`clean_object`].
pub struct Cleaner;

impl<J: Naming> Cleans<J> for Cleaner {
    ghost use Rattle.history_cleaner.specs.Cleaning.{CleansObject};

    ghost cleans = { CleansObject };

    fn clean(alloc: Global, drive: &mut Drive<J>, object: ObjectId) -> Result<(), Refusal> {
        clean_object(alloc, drive, object)
    }
}
