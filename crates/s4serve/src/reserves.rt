//! How many blocks of a drive's room the clients of a service leave to administrators.
ghost use Rattle.std.specs.Prelude.{◌≡◌, ◌≤◌, ◌<◌, IfErr, IfOk};
ghost use Rattle.s4serve.specs.Reserves.{most_reserve, payload_of, reserve_of, usual_reserve};
ghost use Rattle.s4serve.specs.declared.faults.ServeFault.TheVariants.{Reserve};

use crate::faults::ServeFault;
use s4_types::limits::{PAYLOAD_BLOCKS, RESERVE_BLOCKS};

/// Blocks that clients leave at least where nobody says how many. Chosen: half of them is enough
/// for thirty Deletes, each of which takes a block at most.
pub const FEWEST_LEFT: u64 = 60;

/// Where nobody says how many, clients leave one of so many payload blocks. Chosen.
pub const PARTS: u64 = 16;

/// Payload blocks of so many frames.
fn payload_of(frames: u16) -> u64
    ensures { result ≡ payload_of frames }
{
    PAYLOAD_BLOCKS as u64 * frames as u64
}

/// Half of the room that an empty drive of so many frames has.
fn most_reserve(frames: u16) -> u64
    ensures { result ≡ most_reserve frames }
{
    payload_of(frames).saturating_sub(RESERVE_BLOCKS as u64) / 2
}

/// What clients leave of a drive of so many frames where nobody says how much.
fn usual_reserve(frames: u16) -> u64
    ensures { result ≡ usual_reserve frames }
{
    let part = payload_of(frames) / PARTS;
    part.max(FEWEST_LEFT).min(most_reserve(frames))
}

/// What clients leave of a drive of so many frames: as many blocks as are asked for, if that is
/// said. More than half of an empty drive's room is refused.
pub fn reserve_over<'a>(asked: Option<u64>, frames: u16) -> Result<usize, ServeFault<'a>>
    ensures reserve { IfOk result (λ reserve. reserve ≡ reserve_of asked frames) }
    ensures half { IfOk result (λ reserve. reserve ≤ most_reserve frames) }
    ensures refused { IfErr result (λ e. most_reserve frames < reserve_of asked frames) }
    ensures fault { IfErr result
        (λ e. e ≡ Reserve (reserve_of asked frames) (most_reserve frames)) }
{
    let most = most_reserve(frames);
    let reserve = asked.unwrap_or(usual_reserve(frames));
    if reserve > most {
        return Err(ServeFault::Reserve(reserve, most));
    }
    Ok(reserve as usize)
}
