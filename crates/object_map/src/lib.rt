//! The map of objects: of each its row, which says where its journal and checkpoint stand, and a
//! value beside the row.
//!
//! The layers above may rely on this: a map is seen as its rows and its values by ascending object,
//! and each change of a row raises the row's stamp by one. A given row can be inserted with its own
//! stamp; what is inserted by ascending objects is in the order in which it came. One search finds
//! both. Looking up, adding and changing, and finding the next object, take logarithmic time.
#![tactic(auto)]

mod map;
mod sides;

pub use map::{Kept, ObjectMap, Row};
pub use sides::{Side, Sides};
