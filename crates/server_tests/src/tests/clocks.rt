//! The clock that sessions share.
ghost use Rattle.std.specs.Prelude.{◌<◌};

use crate::tests::{Listed, Scene, Stage, play_over, sit};
use s4_types::{AdminRequest, Moment, Refusal, Reply, Request, Role};
use server::{Open, Part, Running};
use serving::{Backend, Clock, Ticking};
use std::process::Abort;
use std::sync::Wait;

/// A change of a session that gives the moment at which it was accepted.
fn moment_of<B: Backend>(session: &mut B) -> Option<Moment> {
    match session.request(
        Request::Control(AdminRequest::SetWindow { window: 100 }),
        Moment::new(0),
    ) {
        Reply::Changed(moment) => Some(moment),
        _ => None,
    }
}

/// The moments of four changes of this session and another in turn.
fn moments_beside<J: Running, C: Clock, R: Wait, B: Backend>(
    stage: &Stage<'_, J, C, R>,
    rest: &mut Part<J>,
    one: &mut B,
) -> Result<[Option<Moment>; 4], Refusal>
    requires { 1 < rest.old.parts }
{
    let mut two = sit(stage, rest, Role::Admin, &Open, 2)?;
    let first = moment_of(one);
    let second = moment_of(&mut two);
    let third = moment_of(&mut two);
    drop(two);
    Ok([first, second, third, moment_of(one)])
}

/// Four changes of two sessions in turn are accepted at these moments, and refused where there is
/// none.
pub(super) fn change_in_turn<J: Running, C: Clock, R: Abort + Wait>(
    stage: &Stage<'_, J, C, R>,
    rest: &mut Part<J>,
    wanted: [Option<Moment>; 4],
) -> Result<(), Refusal>
    requires { 2 < rest.old.parts }
{
    let mut one = sit(stage, rest, Role::Admin, &Open, 1)?;
    let moments = moments_beside(stage, rest, &mut one);
    drop(one);
    let moments = moments?;
    assert_eq!(stage.rt; moments, wanted);
    Ok(())
}

/// The moment of that number.
fn at(number: u64) -> Option<Moment> {
    Some(Moment::new(number))
}

/// Two sessions draw from one count, which stops at the last moment: nothing is accepted after
/// that.
#[test]
fn all_sessions_draw_from_one_count(rt: HostRuntime) -> Result<(), Refusal> {
    let clock = Ticking::new(Moment::new(10), 5);
    let wanted = [at(15), at(20), at(25), at(30)];
    play_over(&rt, rt.alloc(), clock, 100, Scene::InTurn(wanted))?;
    let clock = Ticking::new(Moment::new(u64::MAX - 1), 1);
    let wanted = [at(u64::MAX), None, None, None];
    play_over(&rt, rt.alloc(), clock, 100, Scene::InTurn(wanted))
}

/// Each change is accepted at the moment that was drawn for it, or at the one after the drive's
/// clock where that is later.
#[test]
fn each_change_has_the_moment_that_was_drawn(rt: HostRuntime) -> Result<(), Refusal> {
    // The clock goes on by uneven steps, stays, and goes back.
    let clock = Listed::new(0, [10, 10, 3, 50]);
    let wanted = [at(10), at(11), at(12), at(50)];
    play_over(&rt, rt.alloc(), clock, 100, Scene::InTurn(wanted))
}
