//! Compaction: as much room as a drive without sessions gives.
//!
//! The layers above may rely on this: whatever [`compact`] answers, the history and every version
//! that can be read stay. It takes turns of the cleaner and of moves, until a whole one frees
//! nothing: all objects are cleaned, and then each frame is emptied whose moves write fewer blocks
//! than the frames have that hold nothing then, and these are freed. So each leaves more places
//! ahead than there were. Unlike the copier it needs no room beyond the reserve, and counts exactly
//! what a move writes. Where it succeeds, a drive has no less room than before, and no fewer blocks
//! left in its reserve; where the cleaner wrote more than could be freed it is refused. [`compact_by_moves`] makes the room that moves
//! alone give, which may be more. The report has what all turns did, and how they ended.
//! [`past_blocks`] says whether hiding moments would give more. [`pass_over`] makes a full pass, and
//! says whether that costs room; after one [`data_blocks`] counts what readable versions reach.
#![tactic(auto)]

mod choices;
mod cleaning;
mod compacting;
mod counts;
mod emptying;
mod frames;
mod freeing;
mod holding;
mod left;
mod passing;
mod past;
mod turns;

pub use compacting::{Compaction, compact, compact_by_moves};
pub use holding::data_blocks;
pub use left::blocks_left;
pub use passing::{FullPass, pass_over};
pub use past::past_blocks;
pub use turns::{Ending, MOST_TURNS, Work};
