//! Steps of sessions and of the drive.
use crate::commands::{Acting, Asked, Asking, Tidying, Upkeep};
use crate::party::Played;
use crate::stage::{Stage, question_by, tell_answer};
use crate::words::frame_of;
use history_cleaner::Turn;
use interleaving::{Act, Answer, Reading, Step};
use s4_types::{
    AdminRequest, Bytes, Moment, ObjectId, ObjectRequest, Question, Refusal, Reply, Request, Role,
};
use segment_copier::Candidate;
use std::alloc::Global;

/// The request that a command encodes.
fn request_of(alloc: Global, asking: Asking, asked: &Asked<'_>) -> Result<Request, Refusal> {
    match asking {
        Asking::Create | Asking::Write | Asking::Append | Asking::SetAttr => {
            let bytes = Bytes::from_slice(alloc, asked.bytes)?;
            Ok(Request::Update(change_with(asking, asked, bytes)))
        }
        _ => Ok(request_without(asking, asked)),
    }
}

/// The change that a command encodes, with its bytes.
fn change_with(asking: Asking, asked: &Asked<'_>, bytes: Bytes) -> ObjectRequest {
    let [number, offset, _] = asked.numbers;
    let object = ObjectId::new(number);
    match asking {
        Asking::Create => ObjectRequest::Create { attribute: bytes },
        Asking::Write => ObjectRequest::Write {
            object,
            offset,
            bytes,
        },
        Asking::Append => ObjectRequest::Append { object, bytes },
        _ => ObjectRequest::SetAttr {
            object,
            attribute: bytes,
        },
    }
}

/// The request that a command encodes, of those that have no bytes.
fn request_without(asking: Asking, asked: &Asked<'_>) -> Request {
    let [number, second, third] = asked.numbers;
    let object = ObjectId::new(number);
    match asking {
        Asking::Delete => Request::Update(ObjectRequest::Delete { object }),
        Asking::Truncate => Request::Update(ObjectRequest::Truncate {
            object,
            size: second,
        }),
        Asking::SetWindow => Request::Control(AdminRequest::SetWindow { window: number }),
        Asking::Flush => Request::Control(AdminRequest::Flush {
            first: Moment::new(number),
            last: Moment::new(second),
        }),
        Asking::FlushObject => Request::Control(AdminRequest::FlushO {
            object,
            first: Moment::new(second),
            last: Moment::new(third),
        }),
        Asking::GetAttr => Request::Query(Question::GetAttr {
            object,
            at: asked.at,
        }),
        Asking::Audit => Request::Query(Question::Audit {
            from: Moment::new(number),
            max: u16::try_from(second).unwrap_or(u16::MAX),
        }),
        _ => Request::Query(question_by(&reading_of(asked))),
    }
}

/// The read that a command encodes.
fn reading_of(asked: &Asked<'_>) -> Reading {
    let [number, offset, length] = asked.numbers;
    Reading {
        object: ObjectId::new(number),
        offset,
        length: u32::try_from(length).unwrap_or(u32::MAX),
        at: asked.at,
        now: asked.now,
    }
}

/// The act that a command encodes, which is no request.
fn act_of(acting: Acting, asked: &Asked<'_>) -> Act {
    match acting {
        Acting::Resolve => Act::Resolve(reading_of(asked)),
        Acting::Fetch => Act::Fetch,
        Acting::Meet => Act::Meet,
        Acting::Plan => Act::Plan {
            frame: frame_of(asked.numbers[0]),
            object: ObjectId::new(asked.numbers[1]),
        },
        Acting::Copy => Act::Copy,
        Acting::Commit => Act::Commit,
    }
}

/// The step of the drive that a command encodes.
fn step_of(upkeep: Upkeep, asked: &Asked<'_>) -> Step {
    let number = asked.numbers[0];
    let object = ObjectId::new(number);
    let frame = frame_of(number);
    match upkeep {
        Upkeep::Seal => Step::Seal,
        Upkeep::Checkpoint => Step::Checkpoint { object },
        Upkeep::Clean => Step::Clean { object },
        Upkeep::Mark => Step::Mark { frame },
        Upkeep::Release => Step::Release { frame },
    }
}

/// Whether an answer is a refusal for lack of memory.
fn lacks_memory(answer: &Answer) -> bool {
    matches!(
        answer,
        Answer::Refused(Refusal::NoMemory) | Answer::Reply(Reply::Refused(Refusal::NoMemory))
    )
}

/// What a step is answered. NoMemory where it can be taken once more.
fn answered<D: Played>(stage: &mut Stage, drive: &mut D, step: &Step) -> Result<Answer, Refusal> {
    let answer = drive.take(step)?;
    if lacks_memory(&answer) {
        drop(answer);
        stage.see_step(step)?;
        return Err(Refusal::NoMemory);
    }
    Ok(answer)
}

/// What somebody is answered.
pub(crate) fn act_by<D: Played>(
    stage: &mut Stage,
    drive: &mut D,
    actor: usize,
    act: Act,
) -> Result<Answer, Refusal> {
    let step = Step::By { actor, act };
    let answer = answered(stage, drive, &step);
    drop(step);
    answer
}

/// Takes a step.
fn take<D: Played>(stage: &mut Stage, drive: &mut D, step: Step) -> Result<(), Refusal> {
    match answered(stage, drive, &step) {
        Ok(answer) => settle(stage, step, answer),
        Err(refusal) => {
            drop(step);
            Err(refusal)
        }
    }
}

/// Compares the answer to a step that was taken with the plain drive's.
fn settle(stage: &mut Stage, step: Step, answer: Answer) -> Result<(), Refusal> {
    // (what was done isn't done once more where memory to tell of it is refused)
    stage.is_spent = true;
    let compared = stage.compare(step, &answer);
    tell_answer(&mut stage.answer, &answer);
    drop(answer);
    compared
}

/// Somebody asks for something.
pub(crate) fn perform_asking<D: Played>(
    stage: &mut Stage,
    drive: &mut D,
    asking: Asking,
    asked: &Asked<'_>,
) -> Result<(), Refusal> {
    let actor = stage.place_of(asked.name);
    let now = asked.now;
    let request = request_of(stage.alloc, asking, asked)?;
    let act = Act::Request { request, now };
    take(stage, drive, Step::By { actor, act })
}

/// Somebody fetches, copies or commits. Where the drive refuses memory the plan is spent, so that
/// this is told and not done once more.
fn spend<D: Played>(
    stage: &mut Stage,
    drive: &mut D,
    step: Step,
    is_move: bool,
) -> Result<(), Refusal> {
    match drive.take(&step) {
        Ok(answer) => {
            stage.excuse(is_move, &answer);
            settle(stage, step, answer)
        }
        Err(refusal) => {
            drop(step);
            Err(refusal)
        }
    }
}

/// Somebody does something else.
pub(crate) fn perform_acting<D: Played>(
    stage: &mut Stage,
    drive: &mut D,
    acting: Acting,
    asked: &Asked<'_>,
) -> Result<(), Refusal> {
    let actor = stage.place_of(asked.name);
    let act = act_of(acting, asked);
    let step = Step::By { actor, act };
    match acting {
        Acting::Fetch => spend(stage, drive, step, false),
        Acting::Copy | Acting::Commit => spend(stage, drive, step, true),
        _ => take(stage, drive, step),
    }
}

/// A step of the drive.
pub(crate) fn perform_upkeep<D: Played>(
    stage: &mut Stage,
    drive: &mut D,
    upkeep: Upkeep,
    asked: &Asked<'_>,
) -> Result<(), Refusal> {
    take(stage, drive, step_of(upkeep, asked))
}

/// A full pass of the cleaner. Where memory is refused it is done once more, and counts what the
/// first one left.
fn pass<D: Played>(stage: &mut Stage, drive: &mut D) -> Result<(), Refusal> {
    stage.is_spent = true;
    let report = match drive.pass() {
        Err(Refusal::NoMemory) => {
            stage.has_lacked = true;
            let report = drive.pass()?;
            stage.is_partial = true;
            report
        }
        report => report?,
    };
    let numbers = [
        report.rewritten as u64,
        report.removed as u64,
        report.released as u64,
    ];
    stage.answer.numbers("Passed", &numbers);
    Ok(())
}

/// The first turn of the next round: an object that was passed over waits for that round.
fn turn_again<D: Played>(drive: &mut D) -> Turn {
    for _ in 0..drive.numbers().next {
        if matches!(drive.turn(), Turn::Ended) {
            break;
        }
    }
    drive.turn()
}

/// A turn of the cleaner's rounds. Where memory is refused the next round's first one is told.
fn turn<D: Played>(stage: &mut Stage, drive: &mut D) -> Result<(), Refusal> {
    stage.is_spent = true;
    let turn = match drive.turn() {
        Turn::PassedOver(_, Refusal::NoMemory) => {
            stage.has_lacked = true;
            turn_again(drive)
        }
        turn => turn,
    };
    match turn {
        Turn::Cleaned(object) => {
            stage.answer.named("Cleaned", object.number());
            Ok(())
        }
        Turn::PassedOver(_, refusal) => Err(refusal),
        Turn::Ended => {
            stage.answer.word("Ended");
            Ok(())
        }
    }
}

/// What the copier chooses is moved by a session that comes for it and leaves.
fn move_chosen<D: Played>(stage: &mut Stage, drive: &mut D) -> Result<(), Refusal> {
    let Some(chosen) = drive.chosen()? else {
        stage.answer.done(false);
        return Ok(());
    };
    drive.come(Role::Admin)?;
    let actor = stage.seats.len();
    let moved = move_by(stage, drive, actor, chosen);
    drive.leave(actor);
    moved
}

/// What an actor does in turn to make a move.
static MOVE: [Acting; 3] = [Acting::Plan, Acting::Copy, Acting::Commit];

/// Whether an answer is Done. Another one is put into the text.
fn is_done(stage: &mut Stage, answer: Answer) -> bool {
    let is_done = matches!(answer, Answer::Done);
    if !is_done {
        tell_answer(&mut stage.answer, &answer);
    }
    drop(answer);
    is_done
}

/// An actor moves an object's blocks out of a frame. The first answer that isn't Done ends that.
fn move_by<D: Played>(
    stage: &mut Stage,
    drive: &mut D,
    actor: usize,
    chosen: Candidate,
) -> Result<(), Refusal> {
    let asked = Asked::of_move(chosen.frame, chosen.object);
    for acting in &MOVE {
        let answer = act_by(stage, drive, actor, act_of(*acting, &asked))?;
        if !is_done(stage, answer) {
            return Ok(());
        }
    }
    stage
        .answer
        .numbers("Moved", &[chosen.frame as u64, chosen.object.number()]);
    Ok(())
}

/// A plan of a read by somebody who is there is laid on the pile.
fn keep_by<D: Played>(
    stage: &mut Stage,
    drive: &mut D,
    place: usize,
    reading: &Reading,
) -> Result<(), Refusal> {
    // (room on the pile is taken before the drive's step)
    stage.pile.reserve(1)?;
    let kept = drive.keep(place, reading);
    stage.plan(place, None);
    match kept {
        Err(Refusal::NoMemory) => stage.see(place, reading.now)?,
        _ => stage.keep(place, reading, kept)?,
    }
    kept
}

/// A plan of a read is laid on the pile.
fn keep<D: Played>(stage: &mut Stage, drive: &mut D, asked: &Asked<'_>) -> Result<(), Refusal> {
    let place = stage.place_of(asked.name);
    let is_there = place < stage.seats.len();
    if is_there {
        keep_by(stage, drive, place, &reading_of(asked))?;
    }
    stage.answer.done(is_there);
    Ok(())
}

/// The last plan of the pile is fetched. It is spent then, also where memory is refused.
fn take_last<D: Played>(stage: &mut Stage, drive: &mut D) -> Result<(), Refusal> {
    stage.is_spent = true;
    let planned = stage.pile.pop().unwrap_or(None);
    let answer = match drive.fetch() {
        Ok(Some(bytes)) => Answer::Bytes(Bytes::from_vec(bytes)),
        Ok(None) => Answer::Idle,
        Err(refusal) => Answer::Refused(refusal),
    };
    stage.excuse(false, &answer);
    stage.compare_fetched(&planned, &answer);
    drop(planned);
    tell_answer(&mut stage.answer, &answer);
    drop(answer);
    Ok(())
}

/// Frames that hold nothing are marked and released.
fn empty<D: Played>(stage: &mut Stage, drive: &mut D) -> Result<(), Refusal> {
    let count = drive.empty()?;
    stage.answer.named("Emptied", count as u64);
    Ok(())
}

/// The last plan of the pile, or all, are given up.
fn drop_plans<D: Played>(stage: &mut Stage, drive: &mut D, is_all: bool) {
    drive.drop_plans(is_all);
    if is_all {
        stage.pile.clear();
    } else {
        drop(stage.pile.pop());
    }
    stage.answer.done(true);
}

/// What is done in more than one step, and with the pile.
pub(crate) fn perform_tidying<D: Played>(
    stage: &mut Stage,
    drive: &mut D,
    tidying: Tidying,
    asked: &Asked<'_>,
) -> Result<(), Refusal> {
    match tidying {
        Tidying::Pass => pass(stage, drive),
        Tidying::Turn => turn(stage, drive),
        Tidying::Empty => empty(stage, drive),
        Tidying::Move => move_chosen(stage, drive),
        Tidying::Keep => keep(stage, drive, asked),
        Tidying::Take => take_last(stage, drive),
        Tidying::Drop => {
            drop_plans(stage, drive, false);
            Ok(())
        }
        Tidying::DropAll => {
            drop_plans(stage, drive, true);
            Ok(())
        }
        Tidying::CleanAudit => {
            drive.clean_audit();
            stage.answer.done(true);
            Ok(())
        }
    }
}
