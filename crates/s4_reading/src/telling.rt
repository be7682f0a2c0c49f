//! `info`: the numbers of an image.
ghost use Rattle.std.specs.Prelude.{◌≡◌, ◌+◌, ◌^◌, ◌<◌, if◌then◌else◌, IfOk, length, count_by};
ghost use Rattle.segment_word.specs.Frames.{is_free};
ghost use Rattle.segment_word.specs.Layout.{frame_at};
ghost use Rattle.segment_table.specs.Room.{can_open};
ghost use Rattle.drive.specs.Fields.{state_in, store_of};
ghost use Rattle.s4_reading.specs.Telling.{CountsHidden, CountsObjects, Informs, IsNumbersOf};
ghost use Rattle.s4_reading.specs.Telling.{is_of_all, is_retired, objects_hidden};
ghost use Rattle.s4_reading.specs.Telling.{text_of_numbers};

use crate::forms::Form;
use drive::Drive;
use history_text::{DriveNumbers, numbers_json, numbers_lines};
use history_view::next_listed;
use s4_command::InfoAsked;
use s4_images::{Failure, Prints, Verdict, write_line};
use s4_types::{Moment, ObjectId, Span};
use segment_table::OverFrames;
use segment_word::Naming;
use serving::Sink;
use std::alloc::{AllocError, Global};

/// Prints the numbers of a drive.
pub(crate) fn write_numbers<J: Naming, W: Sink>(
    alloc: Global,
    drive: &mut Drive<J>,
    asked: &InfoAsked<'_>,
    writer: &mut W,
) -> Result<Verdict, Failure>
    requires writer { W.failures writer.old + 1 < 2 ^ 64 }
    ensures informs { IfOk result
        (λ verdict. Informs drive.old asked.now verdict (W.passed writer.old)
        (W.passed writer.new)) }
{
    let form = Form::over(drive, asked.moments, asked.json);
    let numbers = numbers_of(drive)?;
    write_line(alloc, &form, &numbers, writer)?;
    Ok(Verdict::Fine)
}

// The numbers of a drive.
fn numbers_of<J: Naming>(drive: &mut Drive<J>) -> Result<DriveNumbers, Failure>
    ensures { IfOk result
        (IsNumbersOf (state_in drive.old) (store_of drive.old) drive.old.store.table.seat.frames) }
{
    let frames = drive.frame_count();
    let (free, retired) = count_free(drive, frames);
    let (hidden, hidden_objects) = hidden_of(drive)?;
    let at = drive.clock();
    let (next, window) = (drive.next().number(), drive.window());
    let (clock, floor) = (at.number(), drive.floor().number());
    let room = drive.room() as u64;
    let (live, deleted) = count_objects(drive, at);
    Ok(DriveNumbers {
        frames: u64::from(frames),
        free,
        retired,
        live,
        deleted,
        next,
        clock,
        window,
        floor,
        room,
        hidden,
        hidden_objects,
    })
}

// Whether a frame is free, a retired one too: its word has no phase in the two low bits.
fn is_free_now<J: Naming>(drive: &mut Drive<J>, frame: u16) -> bool
    requires { frame < length drive.old.store.table.seat.frames }
    ensures free { result ≡ is_free (frame_at drive.old.store.table.seat.frames frame).phase }
    ensures same { drive.new ≡ drive.old }
{
    drive.saved_word(frame) % 4 == 0
}

// Whether a frame is free and can be opened again.
fn can_open_now<J: Naming>(drive: &mut Drive<J>, frame: u16) -> bool
    requires { frame < length drive.old.store.table.seat.frames }
    ensures can { result ≡ can_open (frame_at drive.old.store.table.seat.frames frame) }
    ensures same { drive.new ≡ drive.old }
{
    if !is_free_now(drive, frame) {
        return false;
    }
    match drive.generation(frame) {
        Some(generation) => generation < u32::MAX,
        None => false,
    }
}

// Whether a frame is free, at the last generation.
fn is_retired_now<J: Naming>(drive: &mut Drive<J>, frame: u16) -> bool
    requires { frame < length drive.old.store.table.seat.frames }
    ensures retired { result ≡ is_retired (frame_at drive.old.store.table.seat.frames frame) }
    ensures same { drive.new ≡ drive.old }
{
    if !is_free_now(drive, frame) {
        return false;
    }
    match drive.generation(frame) {
        Some(generation) => generation == u32::MAX,
        None => false,
    }
}

// How many frames are free and can be opened, and how many are retired.
fn count_free<J: Naming>(drive: &mut Drive<J>, frames: u16) -> (u64, u64)
    requires all { frames ≡ length drive.old.store.table.seat.frames }
    ensures free { result.0 ≡ count_by can_open drive.old.store.table.seat.frames }
    ensures retired { result.1 ≡ count_by is_retired drive.old.store.table.seat.frames }
    ensures same { drive.new ≡ drive.old }
{
    let (mut free, mut retired) = (0, 0);
    for frame in 0..frames {
        free += one_if(can_open_now(drive, frame));
        retired += one_if(is_retired_now(drive, frame));
    }
    (free, retired)
}

// How many runs of moments are hidden of all objects, and of how many objects some are alone.
fn hidden_of<J: Naming>(drive: &Drive<J>) -> Result<(u64, u64), Failure>
    ensures { IfOk result (λ counts. CountsHidden (state_in drive.now) counts.0 counts.1) }
{
    let runs = drive.spans()?;
    Ok((count_of_all(runs.as_slice()), count_hidden(runs.as_slice())))
}

fn count_of_all(runs: &[Span]) -> u64
    ensures { result ≡ count_by is_of_all runs.now }
{
    let mut count = 0;
    for run in runs {
        if run.object.number() == 0 {
            count += 1;
        }
    }
    count
}

// How many objects the runs are of: those of an object are together, and those of all are first.
fn count_hidden(runs: &[Span]) -> u64
    ensures { result ≡ objects_hidden 0 runs.now }
{
    let (mut count, mut last) = (0, 0);
    for run in runs {
        count += one_if(run.object.number() != last);
        last = run.object.number();
    }
    count
}

// How many objects are live at the clock, and how many were deleted.
fn count_objects<J: Naming>(drive: &mut Drive<J>, clock: Moment) -> (u64, u64)
    requires clock { clock ≡ (state_in drive.old).clock }
    ensures counted { CountsObjects (state_in drive.old) (store_of drive.old) result.0 result.1 }
    ensures ledger { drive.new.ledger ≡ drive.old.ledger }
    ensures store { store_of drive.new ≡ store_of drive.old }
{
    let (mut live, mut all) = (0, 0);
    let mut last = ObjectId::new(0);
    while let Some(row) = next_listed(drive, last, clock, true) {
        // numbers that are read have 64 bits
        let _ = row.object.number();
        live += one_if(row.is_live);
        all += 1;
        last = row.object;
    }
    let deleted = all - live;
    (live, deleted)
}

fn one_if(is_live: bool) -> u64
    ensures { result ≡ (if is_live then 1 else 0) }
{
    if is_live { 1 } else { 0 }
}

impl Prints<DriveNumbers> for Form {
    ghost line = { λ form. text_of_numbers form.json form.style };

    fn line(&self, alloc: Global, numbers: &DriveNumbers) -> Result<String, AllocError> {
        if self.json {
            return numbers_json(alloc, numbers, self.style);
        }
        numbers_lines(alloc, numbers, self.style)
    }
}
