//! All that can be read, compared with what the plain drive tells, and what the drive counts with a
//! count anew.
use crate::acting::act_by;
use crate::commands::Beside;
use crate::counting::find_miscount;
use crate::party::Played;
use crate::stage::{Stage, is_reply};
use interleaving::{Act, Answer};
use s4_types::limits::READ_BYTES;
use s4_types::{Moment, ObjectId, Question, Refusal, Reply, Request, Role};

/// A look at an object's bytes at a moment from an offset on, as many as one read gives; without an
/// offset at its size, moments and attribute.
fn question(object: u64, at: u64, offset: Option<u64>) -> Question {
    let object = ObjectId::new(object);
    let at = Some(Moment::new(at));
    match offset {
        None => Question::GetAttr { object, at },
        Some(offset) => Question::Read {
            object,
            offset,
            length: READ_BYTES as u32,
            at,
        },
    }
}

/// What the drive answers a session's question.
fn ask<D: Played>(
    stage: &mut Stage,
    drive: &mut D,
    actor: usize,
    question: &Question,
) -> Result<Answer, Refusal> {
    let act = Act::Request {
        request: Request::Query(*question),
        now: Moment::new(0),
    };
    act_by(stage, drive, actor, act)
}

/// The same. What the drive refuses memory is asked once more.
fn ask_twice<D: Played>(
    stage: &mut Stage,
    drive: &mut D,
    actor: usize,
    question: &Question,
) -> Result<Answer, Refusal> {
    match ask(stage, drive, actor, question) {
        Err(_) => ask(stage, drive, actor, question),
        answered => answered,
    }
}

/// What the drive and the plain drive answer a question.
#[derive(Clone, Copy)]
struct Compared {
    is_same: bool,
    /// How many bytes the object has; none where it isn't asked for.
    size: u64,
}

/// Asks both drives a question.
fn ask_both<D: Played>(
    stage: &mut Stage,
    drive: &mut D,
    actor: usize,
    question: &Question,
) -> Result<Compared, Refusal> {
    let answer = ask_twice(stage, drive, actor, question)?;
    let compared = compare(stage, question, &answer);
    drop(answer);
    compared
}

/// Compares what the drive answers a question with the plain drive's reply, if there is one.
fn compare(stage: &mut Stage, question: &Question, answer: &Answer) -> Result<Compared, Refusal> {
    let reply = stage.reply(usize::MAX, Request::Query(*question), Moment::new(0))?;
    let compared = match &reply {
        Some(reply) => Compared {
            is_same: is_reply(answer, reply),
            size: size_in(reply),
        },
        None => Compared {
            is_same: true,
            size: 0,
        },
    };
    drop(reply);
    Ok(compared)
}

/// How many bytes an object has by a reply: none where it is no reply to the question for its
/// attributes.
fn size_in(reply: &Reply) -> u64 {
    match reply {
        Reply::Attr { size, .. } => u64::from(*size),
        _ => 0,
    }
}

/// Whether both drives tell the same of an object at a moment: its size, moments and attribute, and
/// all its bytes, by as many reads as these take, one at least.
fn is_alike<D: Played>(
    stage: &mut Stage,
    drive: &mut D,
    actor: usize,
    object: u64,
    at: u64,
) -> Result<bool, Refusal> {
    let compared = ask_both(stage, drive, actor, &question(object, at, None))?;
    if !compared.is_same {
        return Ok(false);
    }
    let last = compared.size.saturating_sub(1) / READ_BYTES;
    for piece in 0..=last {
        let offset = Some(piece * READ_BYTES);
        if !ask_both(stage, drive, actor, &question(object, at, offset))?.is_same {
            return Ok(false);
        }
    }
    Ok(true)
}

/// The first object, of those that were made and the next one, of which both drives don't tell the
/// same at some moment that can be read or the ones next to those, and that moment.
fn find_unlike_by<D: Played>(
    stage: &mut Stage,
    drive: &mut D,
    actor: usize,
) -> Result<Option<(u64, u64)>, Refusal> {
    let numbers = drive.numbers();
    let first = numbers.floor.saturating_sub(1);
    let last = numbers.clock.saturating_add(1);
    for object in 1..=numbers.next {
        for at in first..=last {
            if !is_alike(stage, drive, actor, object, at)? {
                return Ok(Some((object, at)));
            }
        }
    }
    Ok(None)
}

/// The same, by a session that comes for it and leaves; where there is no seat, by one that is
/// there.
fn find_unlike<D: Played>(stage: &mut Stage, drive: &mut D) -> Result<Option<(u64, u64)>, Refusal> {
    let actor = stage.seats.len();
    if drive.come(Role::Admin).is_err() {
        return find_unlike_by(stage, drive, 0);
    }
    let found = find_unlike_by(stage, drive, actor);
    drive.leave(actor);
    found
}

/// Says whether all is alike, where there is a plain drive.
fn tell_alike<D: Played>(stage: &mut Stage, drive: &mut D) -> Result<(), Refusal> {
    if stage.plain.is_none() {
        stage.answer.done(false);
        return Ok(());
    }
    match find_unlike(stage, drive)? {
        None => stage.answer.word("alike"),
        Some((object, at)) => stage.answer.numbers("unlike", &[object, at]),
    }
    Ok(())
}

/// Compares after a step what is to be compared there.
pub(crate) fn watch<D: Played>(stage: &mut Stage, drive: &mut D) -> Result<(), Refusal> {
    if stage.is_watched {
        return compare_all(stage, drive);
    }
    if stage.is_counted {
        compare_counts(stage, drive)?;
    }
    Ok(())
}

/// Compares all after a line, where memory was refused.
pub(crate) fn watch_line<D: Played>(stage: &mut Stage, drive: &mut D) -> Result<(), Refusal> {
    if stage.has_lacked {
        compare_all(stage, drive)?;
    }
    Ok(())
}

/// Compares what the drive counts with a count anew, and remarks the first number that differs.
fn compare_counts<D: Played>(stage: &mut Stage, drive: &mut D) -> Result<(), Refusal> {
    stage.is_spent = true;
    if let Some(miscount) = find_miscount(drive)? {
        stage.remark.word("counted anew");
        miscount.tell(&mut stage.remark);
    }
    Ok(())
}

/// Compares all: the counts, and what can be read, where there is a plain drive.
fn compare_all<D: Played>(stage: &mut Stage, drive: &mut D) -> Result<(), Refusal> {
    compare_counts(stage, drive)?;
    if stage.plain.is_none() {
        return Ok(());
    }
    if let Some((object, at)) = find_unlike(stage, drive)? {
        stage.remark.numbers("unlike", &[object, at]);
    }
    Ok(())
}

/// Compares what is asked for.
pub(crate) fn perform_comparing<D: Played>(
    stage: &mut Stage,
    drive: &mut D,
    beside: Beside,
) -> Result<(), Refusal> {
    match beside {
        Beside::Alike => tell_alike(stage, drive),
        Beside::Watch => {
            stage.is_watched = true;
            stage.answer.done(true);
            Ok(())
        }
    }
}
