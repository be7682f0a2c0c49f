//! Runs: lists of steps, replayed.
ghost use Rattle.std.specs.Prelude.{◌≡◌, All, map, IfOk, IfErr, OnOk, OnErr};
ghost use Rattle.s4_types.specs.declared.refusals.Refusal.TheVariants.{NoMemory};
ghost use Rattle.s4_types.specs.declared.requests.Role.TheVariants.{Client};
ghost use Rattle.s4_model.specs.Promise.{KeepsThePast};
ghost use Rattle.drive.specs.Fields.{history_of, state_in, store_of};
ghost use Rattle.drive.specs.Keeping.{DecodesWhereVisible};
ghost use Rattle.interleaving.specs.Running.{GoesAt, Goes, Run};
ghost use Rattle.interleaving.specs.Telling.{reader_of, Replays};
ghost use Rattle.interleaving.specs.Upkeep.{Tidies};

use crate::actors::Actor;
use crate::acts::Act;
use crate::answers::{Answer, answer_to};
use crate::moves::{Cleans, Moves};
use crate::steps::{Step, copy_steps};
use drive::Drive;
use s4_model::laws::clients_keep_the_past;
use s4_types::{ObjectId, Refusal};
use segment_word::Naming;
use std::alloc::Global;

/// An act of the actor of a place: Idle where there is no such actor.
fn by_actor<J: Naming, M: Moves<J>>(
    alloc: Global,
    drive: &mut Drive<J>,
    actors: &mut [Actor<J, M>],
    number: usize,
    act: Act,
) -> Answer
    ensures { GoesAt M.commits number act drive.old actors.old result drive.new actors.new }
{
    if number >= actors.len() {
        return Answer::Idle;
    }
    actors[number].act(alloc, drive, act)
}

/// An object is cleaned.
fn clean<J: Naming, C: Cleans<J>>(
    alloc: Global,
    drive: &mut Drive<J>,
    object: ObjectId,
) -> Result<(), Refusal>
    ensures { Tidies C.cleans object drive.old result drive.new }
{
    C::clean(alloc, drive, object)
}

/// One step.
fn take_step<J: Naming, C: Cleans<J>, M: Moves<J>>(
    alloc: Global,
    drive: &mut Drive<J>,
    actors: &mut [Actor<J, M>],
    step: Step,
) -> Answer
    ensures { Goes C.cleans M.commits step drive.old actors.old result drive.new actors.new }
{
    match step {
        Step::By { actor, act } => by_actor(alloc, drive, actors, actor, act),
        Step::Seal => {
            drive.seal();
            Answer::Done
        }
        Step::Checkpoint { object } => answer_to(drive.checkpoint(object)),
        Step::Clean { object } => answer_to(clean::<J, C>(alloc, drive, object)),
        Step::Mark { frame } => answer_to(drive.mark(frame)),
        Step::Release { frame } => answer_to(drive.release(frame)),
    }
}

/// Takes these steps over a drive, one after another, and gives their answers in order.
///
/// Whatever the steps are, each is answered as its own call answers over the drive and the actors
/// as the steps before left them; and after each of them every object's blocks decode, at each
/// moment that can be read, to exactly the version that the history tells.
///
/// NoMemory alone, where the memory for the steps' copies and their answers is refused. It is asked
/// for before the first step: nothing has changed then.
pub fn run<J: Naming, C: Cleans<J>, M: Moves<J>>(
    alloc: Global,
    drive: &mut Drive<J>,
    actors: &mut [Actor<J, M>],
    steps: &[Step],
) -> Result<Vec<Answer>, Refusal>
    ensures run { IfOk result
        (λ answers. Run C.cleans M.commits J.base J.frames drive.old actors.old steps.now
        answers.items drive.new actors.new) }
    // The same, told by the history alone: requests and reads that are resolved are the model's
    // steps, a fetch gives the bytes that its plan named when it was made, and all other steps
    // leave the history.
    ensures model { IfOk result
        (λ answers. Replays (history_of drive.old) (map reader_of actors.old) steps.now
        answers.items (history_of drive.new) (map reader_of actors.new)) }
    // Where all actors are clients, nothing was lost of the past but by age.
    ensures past { OnOk result
        (All (λ actor. actor.session.role ≡ Client) actors.old
        → KeepsThePast (history_of drive.old) (history_of drive.new)) }
    ensures decodes { DecodesWhereVisible (store_of drive.new) (state_in drive.new) }
    ensures base { (history_of drive.new).base ≡ J.base }
    ensures refusal { IfErr result (λ e. e ≡ NoMemory) }
    ensures untouched { OnErr result ((drive.new ≡ drive.old) × (actors.new ≡ actors.old)) }
{
    clients_keep_the_past();
    drive.rules();
    let todo = copy_steps(alloc, steps)?;
    let mut answers = Vec::with_capacity(alloc, todo.len())?;
    for step in todo {
        let answer = take_step::<J, C, M>(alloc, drive, actors, step);
        drive.rules();
        answers.push_reserved(answer);
    }
    drive.rules();
    Ok(answers)
}
