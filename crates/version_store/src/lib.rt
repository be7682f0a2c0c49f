//! A store of objects: the rows of all objects, and the table that their blocks are in.
//!
//! The layers above may rely on this: a store has a version for each object and moment, taking a
//! change gives the versions that the model gives, and it is refused exactly where the journal
//! would be too long or there is too little room, and a creation for lack of memory too, before
//! anything is written. A checkpoint, the sealing of the table's open frame, and the emptying of
//! frames that hold nothing leave each version as it was. An object can be removed, and its journal
//! replaced by a shorter one: all other objects stay, and no block that nothing names any more is
//! held. What the table holds is exactly what the rows name. Of two objects the one with the
//! greater number was made later, and no moment is in the journals of both. A store is made without
//! objects, or of objects whose blocks its table holds already: then it has exactly their rows. The
//! frames below it are told as they are saved, and that changes nothing. Which changes may be asked
//! for, and at which moments, is told elsewhere.
#![tactic(auto)]

mod copies;
mod costs;
mod data_blocks;
pub mod laws;
mod leading;
mod named_table;
mod names;
mod opened;
mod readers;
mod recounts;
mod relocated_blocks;
mod row_places;
mod store;
mod written_anew;

pub use copies::CopiedBlock;
pub use named_table::NamedTable;
pub use opened::OpenedObject;
pub use readers::{BytesAtOnce, BytesPlanned, Reader};
pub use store::Store;
