//! What a session knows of where the drive's history has come to.
ghost use Rattle.std.specs.Prelude.{◌≡◌, ◌+◌, ◌<◌};

use crate::tests::{Scene, Stage, ask, create, play_over, sit};
use s4_types::{Moment, ObjectId, Question, Refusal, Request, Role};
use server::{Gate, Locked, Open, Part, Running};
use serving::{Clock, Ticking};
use std::alloc::Global;
use std::process::Abort;
use std::sync::Wait;

/// A question about an object that isn't there.
fn ask_for_none() -> Request {
    Request::Query(Question::GetAttr {
        object: ObjectId::new(9),
        at: None,
    })
}

/// A Read of an object that isn't there.
fn read_none() -> Request {
    Request::Query(Question::Read {
        object: ObjectId::new(9),
        offset: 0,
        length: 1,
        at: None,
    })
}

/// The session's last step led to this number of changes, and to this clock.
fn check_place<J: Running, C: Clock, R: Abort + Wait, G: Gate>(
    rt: &R,
    session: &Locked<'_, J, C, R, G>,
    place: (u64, u64),
    what: &str,
) {
    assert!(rt; session.place() == place, "{what}");
}

/// What one session knows while another asks, and what a third one does then.
fn follow<J: Running, C: Clock, R: Abort + Wait, G: Gate>(
    rt: &R,
    alloc: Global,
    one: &mut Locked<'_, J, C, R, G>,
    two: &mut Locked<'_, J, C, R, G>,
) {
    check_place(rt, one, (0, 0), "nothing was asked");
    ask(one, create(alloc));
    check_place(rt, one, (1, 5), "a change");
    check_place(rt, two, (0, 0), "another session's");
    ask(two, ask_for_none());
    check_place(rt, two, (1, 10), "a question after it");
    ask(two, create(alloc));
    ask(two, read_none());
    check_place(rt, two, (2, 20), "a change, and a Read");
    check_place(rt, one, (1, 5), "its last step is the same");
    one.meet();
    check_place(rt, one, (2, 20), "it met the drive");
}

/// The same with a session and another.
fn follow_two<J: Running, C: Clock, R: Abort + Wait>(
    stage: &Stage<'_, J, C, R>,
    rest: &mut Part<J>,
    one: &mut Locked<'_, J, C, R, Open>,
) -> Result<(), Refusal>
    requires { 1 < rest.old.parts }
    ensures { rest.new.parts + 1 ≡ rest.old.parts }
{
    let mut two = sit(stage, rest, Role::Client, &Open, 2)?;
    follow(stage.rt, stage.alloc, one, &mut two);
    drop(two);
    Ok(())
}

/// A session begins where the drive has come to.
fn begin_there<J: Running, C: Clock, R: Abort + Wait>(
    stage: &Stage<'_, J, C, R>,
    rest: &mut Part<J>,
) -> Result<(), Refusal>
    requires { 1 < rest.old.parts }
{
    let three = sit(stage, rest, Role::Client, &Open, 3)?;
    check_place(stage.rt, &three, (2, 20), "where it was had");
    drop(three);
    Ok(())
}

/// A change counts and moves the clock, what is refused moves the clock alone, and what another
/// session does is known once the session asks or meets the drive.
pub(super) fn go<J: Running, C: Clock, R: Abort + Wait>(
    stage: &Stage<'_, J, C, R>,
    rest: &mut Part<J>,
) -> Result<(), Refusal>
    requires { 3 < rest.old.parts }
{
    let mut one = sit(stage, rest, Role::Client, &Open, 1)?;
    let followed = follow_two(stage, rest, &mut one);
    drop(one);
    followed?;
    begin_there(stage, rest)
}

#[test]
fn a_session_knows_where_its_last_step_led(rt: HostRuntime) -> Result<(), Refusal> {
    let clock = Ticking::new(Moment::new(0), 5);
    play_over(&rt, rt.alloc(), clock, 100, Scene::Places)
}
