//! What a trial shows of each object whose journal is full.
ghost use Rattle.std.specs.Prelude.{◌≡◌, false, Bool, List, [], IfOk, IsTrue, OnOk};
ghost use Rattle.restore_search.specs.Searching.{AreSettled, HasFull, IsSameTried, IsSettledOne};
ghost use Rattle.restore_search.specs.Searching.{TakesTurn, Turns, TurnsOne};
ghost use Rattle.restore_search.specs.declared.surveys.Lacking.{Lacking as Lacks};

use crate::searches::Hiding;
use crate::surveys::{Lack, Lacking, Survey};
use s4_types::ObjectId;
use std::alloc::{AllocError, Global};

/// What a trial shows of how many versions of an object have to be hidden.
#[derive(Clone, Copy)]
pub enum Turn {
    /// What is known then.
    Again(Hiding),
    /// However many are hidden it isn't restored, and why.
    Leave(Lack),
}

/// What is searched on after a trial.
#[derive(Drop)]
pub struct Turned {
    pub kept: Vec<Hiding>,
    /// Whether other numbers are to be tried, or objects were left out.
    pub is_other: bool,
}

/// Takes what a trial shows of how many versions have to be hidden of each of these.
pub(crate) fn turn_all(
    alloc: Global,
    hidings: &[Hiding],
    survey: &Survey,
    flush: bool,
    lacking: &mut Vec<Lacking>,
) -> Result<Turned, AllocError>
    ensures turns { IfOk result
        (λ turned. Turns flush hidings.now survey.now lacking.old.items turned.kept.items
        lacking.new.items) }
    ensures settled { IfOk result
        (λ turned. turned.is_other ≡ false → survey.now.unmade.items ≡ []
        → AreSettled hidings.now lacking.old.items turned.kept.items lacking.new.items) }
{
    let mut kept = Vec::new(alloc);
    let mut is_other = false;
    for hiding in hidings {
        let turn = turn_of(hiding, survey, flush);
        let is_turned = turn_one(hiding, turn, &mut kept, lacking)?;
        is_other = is_other || is_turned;
    }
    Ok(Turned { kept, is_other })
}

// Takes what a trial shows of one of these; whether another number is to be tried, or the object is
// left out.
fn turn_one(
    hiding: &Hiding,
    turn: Turn,
    kept: &mut Vec<Hiding>,
    lacking: &mut Vec<Lacking>,
) -> Result<bool, AllocError>
    ensures takes { OnOk result
        (TakesTurn hiding.now.object turn kept.old.items lacking.old.items kept.new.items
        lacking.new.items) }
    ensures same { IfOk result (λ is_turned. is_turned ≡ false → IsSameTried hiding.now turn) }
{
    match turn {
        Turn::Again(next) => {
            let (count, before) = (next.count, hiding.count);
            kept.push(next)?;
            Ok(count != before)
        }
        Turn::Leave(lack) => {
            let object = hiding.object;
            lacking.push(Lacking { object, lack })?;
            Ok(true)
        }
    }
}

// What a trial shows of one object. Where none may be hidden its journal is cleaned alone.
fn turn_of(hiding: &Hiding, survey: &Survey, flush: bool) -> Turn
    ensures turns { TurnsOne flush hiding.now survey.now.refused.items result }
    ensures settled { survey.now.unmade.items ≡ [] → IsSettledOne hiding.now result }
{
    if !survey.unmade.is_empty() {
        return turn_unmade(hiding, survey.unmade.as_slice());
    }
    if !is_full(survey.refused.as_slice(), hiding.object) {
        let most = Some(hiding.count);
        return Turn::Again(Hiding::between(hiding.object, hiding.least, most));
    }
    if !flush {
        return Turn::Leave(Lack::Journal);
    }
    let Some(least) = hiding.count.checked_add(1) else {
        return Turn::Leave(Lack::Journal);
    };
    let most = match hiding.most {
        Some(most) if least <= most => Some(most),
        _ => None,
    };
    Turn::Again(Hiding::between(hiding.object, least, most))
}

// The same where in some journals no room was made.
fn turn_unmade(hiding: &Hiding, unmade: &[Lacking]) -> Turn
    ensures { (flush : Bool) (refused : List Lacks) → TurnsOne flush hiding.now refused result }
{
    match lack_in(unmade, hiding.object) {
        None => Turn::Again(*hiding),
        Some(Lack::Journal) if hiding.least < hiding.count => {
            let most = Some(hiding.count);
            Turn::Again(Hiding::between(hiding.object, hiding.least, most))
        }
        Some(lack) => Turn::Leave(lack),
    }
}

// What an object lacks, if it is among these.
fn lack_in(lacking: &[Lacking], object: ObjectId) -> Option<Lack> {
    for one in lacking {
        if one.object == object {
            return Some(one.lack);
        }
    }
    None
}

// Whether an object's journal is among those that are full.
fn is_full(refused: &[Lacking], object: ObjectId) -> bool
    ensures { IsTrue result → HasFull refused.now object }
{
    for one in refused {
        if one.object == object {
            if let Lack::Journal = one.lack {
                return true;
            }
        }
    }
    false
}
