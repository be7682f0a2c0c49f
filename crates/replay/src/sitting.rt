//! Sessions come and go.
use crate::commands::{Asked, Sitting};
use crate::party::Played;
use crate::stage::Stage;
use s4_types::{Refusal, Role};
use std::alloc::Global;

/// A session comes; one of that name leaves first.
pub(crate) fn come<D: Played>(
    stage: &mut Stage,
    drive: &mut D,
    name: &[u8],
    role: Role,
) -> Result<(), Refusal> {
    leave(stage, drive, name);
    drive.come(role)?;
    let seated = stage.sit(name, role);
    if seated.is_err() {
        // (both count their places alike)
        drive.leave(stage.seats.len());
    }
    seated
}

/// A session leaves, if it is there.
fn leave<D: Played>(stage: &mut Stage, drive: &mut D, name: &[u8]) -> bool {
    let place = stage.place_of(name);
    let is_there = place < stage.seats.len();
    stage.rise(place);
    drive.leave(place);
    is_there
}

/// This many sessions come, named by a name and a number from 1 on.
fn come_many<D: Played>(
    stage: &mut Stage,
    drive: &mut D,
    asked: &Asked<'_>,
    role: Role,
) -> Result<(), Refusal> {
    for number in 1..=asked.numbers[0] {
        let name = numbered(stage.alloc, asked.name, number)?;
        come(stage, drive, name.as_slice(), role)?;
    }
    Ok(())
}

/// A name with a number after it.
fn numbered(alloc: Global, name: &[u8], number: u64) -> Result<Vec<u8>, Refusal> {
    let digits = format!(in alloc; "{number}")?;
    let mut numbered = Vec::from_slice(alloc, name)?;
    numbered.extend_from_slice(digits.as_bytes())?;
    Ok(numbered)
}

/// A session ends beside another one.
fn end_beside<D: Played>(
    stage: &mut Stage,
    drive: &mut D,
    asked: &Asked<'_>,
) -> Result<bool, Refusal> {
    let (place, other) = (stage.place_of(asked.name), stage.place_of(asked.other));
    let count = stage.seats.len();
    if place >= count || other >= count || place == other {
        return Ok(false);
    }
    drive.leave_beside(place, other)?;
    stage.plan(other, None);
    stage.rise(place);
    Ok(true)
}

/// Lets sessions come and go.
pub(crate) fn perform_sitting<D: Played>(
    stage: &mut Stage,
    drive: &mut D,
    sitting: Sitting,
    asked: &Asked<'_>,
) -> Result<(), Refusal> {
    let is_done = match sitting {
        Sitting::Come(role) => {
            come(stage, drive, asked.name, role)?;
            true
        }
        Sitting::ComeMany(role) => {
            come_many(stage, drive, asked, role)?;
            true
        }
        Sitting::End => leave(stage, drive, asked.name),
        Sitting::EndBeside => end_beside(stage, drive, asked)?,
    };
    stage.answer.done(is_done);
    Ok(())
}
