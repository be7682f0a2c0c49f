//! What the drive counts, compared with a count anew.
use crate::looking::tell_change;
use crate::party::Played;
use crate::text::Text;
use crate::words::{block_of, frame_of};
use s4_types::Refusal;
use s4_types::limits::PAYLOAD_BLOCKS;

/// A number that the drive tells otherwise than it was found: how many places name a block, or, for
/// block 0, how many blocks of the frame are held.
#[derive(Clone, Copy)]
pub(crate) struct Miscount {
    frame: u64,
    block: u64,
    found: u64,
    told: u64,
}

impl Miscount {
    /// Tells which number it is, what was found, and what the drive tells.
    pub(crate) fn tell(&self, text: &mut Text) {
        text.number(self.frame);
        text.mark(".");
        text.digits(self.block);
        tell_change(text, self.found, self.told);
    }
}

/// The first number of a frame that the drive tells otherwise than it was found.
fn find_in_frame<D: Played>(drive: &mut D, frame: u64, counts: &[u32]) -> Option<Miscount> {
    let number = frame_of(frame);
    let mut block = 0u64;
    let mut held = 0u64;
    for count in counts {
        block = block.saturating_add(1);
        let (found, told) = (*count as u64, drive.places(number, block_of(block)) as u64);
        if found != told {
            return Some(Miscount {
                frame,
                block,
                found,
                told,
            });
        }
        held = held.saturating_add(if found > 0 { 1 } else { 0 });
    }
    let told = drive.held_count(number) as u64;
    if held == told {
        return None;
    }
    Some(Miscount {
        frame,
        block: 0,
        found: held,
        told,
    })
}

/// Counts anew how many places name each block, and gives the first number that the drive tells
/// otherwise.
pub(crate) fn find_miscount<D: Played>(drive: &mut D) -> Result<Option<Miscount>, Refusal> {
    let counts = drive.recount()?;
    let mut frame = 0u64;
    for counts in counts.as_slice().chunks(PAYLOAD_BLOCKS) {
        if let Some(miscount) = find_in_frame(drive, frame, counts) {
            return Ok(Some(miscount));
        }
        frame = frame.saturating_add(1);
    }
    Ok(None)
}

/// Says whether all is as it is counted anew.
pub(crate) fn tell_recount<D: Played>(text: &mut Text, drive: &mut D) -> Result<(), Refusal> {
    match find_miscount(drive)? {
        None => text.word("alike"),
        Some(miscount) => miscount.tell(text),
    }
    Ok(())
}
