//! The image of a drive, written.
ghost use Rattle.std.specs.Prelude.{◌≡◌, ◌≤◌, ◌<◌, ◌^◌, [], length, IfOk, IfErr};
ghost use Rattle.s4_types.specs.History.{Base, Seen};
ghost use Rattle.s4_model.specs.State.{grown, seen};
ghost use Rattle.s4_model.specs.Promise.{beginning, GoesOn};
ghost use Rattle.s4_types.specs.declared.refusals.Refusal.TheVariants.{NoMemory};
ghost use Rattle.drive.specs.Fields.{history_of, state_in};
ghost use Rattle.verifier.specs.Opened.{TellsBase};
ghost use Rattle.verifier.specs.Saved.{SpellsSaved, as_seen, with_digest};

use crate::audit::push_audit_rows;
use crate::opening_laws::what_is_saved_goes_on;
use crate::saved_frames::{frames_with_blocks, push_frames};
use crate::saved_rows::{push_rows, push_spans, rows_saved};
use crate::seen_parts::{audit_seen, clock_seen, floor_seen, spans_seen};
use checkpoint::laws::a_checkpoint_is_in_its_blocks;
use drive::Drive;
use image_objects::saving_laws::a_store_stands_in_its_image;
use image_parts::{Header, image_length, push_digest, push_header};
use s4_types::{Moment, Refusal};
use segment_table::OverFrames;
use segment_word::Naming;
use std::alloc::Global;
use version_store::laws::the_present_stays;

/// The header of the image of a drive once it has seen a moment, by the numbers of its rows, of its
/// spans and of its audit rows.
fn header_seen<J: Naming>(
    drive: &Drive<J>,
    moment: Moment,
    rows: u32,
    spans: u32,
    audit: u64,
) -> Header
    ensures frames { result.frames ≡ length drive.now.store.table.seat.frames }
    ensures clock { result.clock ≡ (seen (state_in drive.now) moment).clock }
    ensures window { result.window ≡ (state_in drive.now).window }
    ensures floor { result.floor ≡ (seen (state_in drive.now) moment).floor }
    ensures next { result.next ≡ (state_in drive.now).next }
    ensures rows { result.rows ≡ rows }
    ensures spans { result.spans ≡ spans }
    ensures audit { result.audit ≡ audit }
    ensures clock_fits { (seen (state_in drive.now) moment).clock < 2 ^ 64 }
    ensures window_fits { (state_in drive.now).window < 2 ^ 64 }
    ensures next_fits { (state_in drive.now).next < 2 ^ 64 }
    ensures audit_fits { audit < 2 ^ 64 }
{
    Header {
        frames: drive.frame_count(),
        clock: clock_seen(drive, moment),
        window: drive.window(),
        floor: floor_seen(drive, moment),
        next: drive.next(),
        rows,
        spans,
        audit,
    }
}

/// An empty list with room for the whole image of a drive with this header, so that it isn't moved
/// while it grows: no second copy of it is beside the drive. NoMemory alone.
fn room_for_image<J: Naming>(
    alloc: Global,
    drive: &mut Drive<J>,
    header: &Header,
) -> Result<Vec<u8>, Refusal>
    ensures empty { IfOk result (λ out. out.items ≡ []) }
    ensures refusal { IfErr result (λ e. e ≡ NoMemory) }
    ensures same { drive.new ≡ drive.old }
{
    let length = image_length(
        header.frames,
        frames_with_blocks(drive),
        header.rows,
        header.spans,
        header.audit,
    );
    let out = Vec::with_capacity(alloc, length)?;
    Ok(out)
}

/// The front of a drive's image once it has seen a moment: all of the image but its digest, which
/// is SHA-256 of these bytes. The drive itself doesn't see the moment, and stays as it is. It is the
/// drive's clock, window, floor and next number then, its frames with what is used of them, its
/// rows by ascending object, the spans that hide its moments from the floor on, and the rows of its
/// audit.
///
/// NoMemory alone, where the memory for it is refused.
pub fn save_front<J: Naming>(
    alloc: Global,
    drive: &mut Drive<J>,
    moment: Moment,
) -> Result<Vec<u8>, Refusal>
    ensures saved { IfOk result
        (λ front. SpellsSaved (as_seen drive.old moment) (with_digest front.items)) }
    // In the words of the model: what begins with these bytes goes on where this drive would end,
    // had it seen the moment.
    ensures promise { IfOk result
        (λ front. (base : Base) → TellsBase (with_digest front.items) base
        → GoesOn (grown (history_of drive.old) (Seen moment)) (beginning base)) }
    ensures refusal { IfErr result (λ e. e ≡ NoMemory) }
    ensures same { drive.new ≡ drive.old }
{
    a_store_stands_in_its_image();
    a_checkpoint_is_in_its_blocks();
    what_is_saved_goes_on();
    the_present_stays();
    drive.rules();
    let rows = rows_saved(alloc, drive)?;
    let spans = spans_seen(alloc, drive, moment)?;
    let audit = audit_seen(alloc, drive, moment)?;
    let header = header_seen(
        drive,
        moment,
        rows.len() as u32,
        spans.len() as u32,
        audit.len() as u64,
    );
    let mut out = room_for_image(alloc, drive, &header)?;
    push_header(&mut out, &header)?;
    push_frames(drive, &mut out)?;
    push_rows(&mut out, rows.as_slice())?;
    push_spans(&mut out, spans.as_slice())?;
    push_audit_rows(&mut out, audit.as_slice())?;
    Ok(out)
}

/// The image of a drive, which stays as it is: its clock, window, floor and next number, its frames
/// with what is used of them, its rows by ascending object, the spans that hide its moments from
/// the floor on, and the rows of its audit.
///
/// NoMemory alone, where the memory for it is refused.
pub fn save<J: Naming>(alloc: Global, drive: &mut Drive<J>) -> Result<Vec<u8>, Refusal>
    ensures saved { IfOk result (λ bytes. SpellsSaved drive.old bytes.items) }
    // In the words of the model: what begins with what the bytes tell goes on where this drive
    // ended.
    ensures promise { IfOk result
        (λ bytes. (base : Base) → TellsBase bytes.items base
        → GoesOn (history_of drive.old) (beginning base)) }
    ensures refusal { IfErr result (λ e. e ≡ NoMemory) }
    ensures same { drive.new ≡ drive.old }
{
    what_is_saved_goes_on();
    drive.rules();
    let moment = drive.clock();
    let mut out = save_front(alloc, drive, moment)?;
    push_digest(&mut out)?;
    Ok(out)
}
