//! What a search learns from a trial.
ghost use Rattle.std.specs.Prelude.{◌≡◌, [], false, filter, IfOk, OnOk};
ghost use Rattle.restore_search.specs.Searching.{Begins, BeginsOne, IsFine, IsSettled, Learns};
ghost use Rattle.restore_search.specs.Searching.{Leaves, LeavesRest, is_in, is_kept};

use crate::searches::{Hiding, Search};
use crate::surveys::{Lack, Lacking, Survey};
use crate::turning::turn_all;
use s4_types::ObjectId;
use std::alloc::{AllocError, Global};

/// Takes what a trial with [`rooms_tried`](crate::rooms_tried) shows of what is needed; whether
/// anything was learnt, so that another trial is to be made. Nothing is left out before it is known
/// how much has to be hidden, as that makes room for others. Versions are hidden only where `flush`
/// is set. Where nothing was learnt, nothing is lacking, and what is found to be needed is what was
/// tried.
///
/// An error where memory was refused; then the search isn't to be used any more.
pub fn learn(
    search: &mut Search,
    alloc: Global,
    survey: &Survey,
    flush: bool,
) -> Result<bool, AllocError>
    ensures learns { OnOk result (Learns flush search.old survey.now search.new) }
    ensures ends { IfOk result (λ learnt. learnt ≡ false → IsFine survey.now) }
    ensures settled { IfOk result (λ learnt. learnt ≡ false → IsSettled search.old search.new) }
{
    let hidings = search.hidings.as_slice();
    let turned = turn_all(alloc, hidings, survey, flush, &mut search.lacking)?;
    search.hidings = turned.kept;
    if turned.is_other {
        // what was left out just now isn't begun with again
        return Ok(true);
    }
    if begin_all(search, survey.refused.as_slice(), flush)? {
        return Ok(true);
    }
    if survey.is_fine() {
        return Ok(false);
    }
    leave_rest(search, alloc, survey)?;
    Ok(true)
}

// All that a trial found lacking is left out from now on.
fn leave_rest(search: &mut Search, alloc: Global, survey: &Survey) -> Result<(), AllocError>
    ensures leaves { OnOk result (LeavesRest search.old survey.now search.new) }
{
    leave_all(search, survey.hidden.as_slice())?;
    leave_all(search, survey.refused.as_slice())?;
    search.hidings = kept_of(alloc, search.hidings.as_slice(), survey.refused.as_slice())?;
    Ok(())
}

// Of each object whose journal is full it is found from now on how many versions have to be hidden,
// none to begin with; whether there is one.
fn begin_all(search: &mut Search, refused: &[Lacking], flush: bool) -> Result<bool, AllocError>
    ensures begins { OnOk result (Begins search.old refused.now search.new) }
    ensures none { IfOk result (λ is_begun. is_begun ≡ false → search.new ≡ search.old) }
{
    let most = if flush { None } else { Some(0) };
    let mut is_begun = false;
    for one in refused {
        let is_new = begin_one(search, one, most)?;
        is_begun = is_begun || is_new;
    }
    Ok(is_begun)
}

// Begins with one of these, if its journal is full and it isn't searched for yet; whether it is.
fn begin_one(search: &mut Search, one: &Lacking, most: Option<usize>) -> Result<bool, AllocError>
    ensures begins { OnOk result (BeginsOne search.old one.now search.new) }
    ensures none { IfOk result (λ is_begun. is_begun ≡ false → search.new ≡ search.old) }
{
    if one.lack != Lack::Journal || is_searched(search.hidings.as_slice(), one.object) {
        return Ok(false);
    }
    search.hidings.push(Hiding::between(one.object, 0, most))?;
    Ok(true)
}

fn is_searched(hidings: &[Hiding], object: ObjectId) -> bool {
    hidings.iter().any(|hiding| hiding.object == object)
}

// What a trial found lacking is left out from now on.
fn leave_all(search: &mut Search, lacking: &[Lacking]) -> Result<(), AllocError>
    ensures leaves { OnOk result (Leaves search.old lacking.now search.new) }
{
    for one in lacking {
        search.lacking.push(*one)?;
    }
    Ok(())
}

// Whether an object is among these.
fn is_among(lacking: &[Lacking], object: ObjectId) -> bool
    ensures { result ≡ is_in lacking.now object }
{
    lacking.iter().any(|one| one.object == object)
}

// Of these those that are searched on, as they aren't left out.
fn kept_of(
    alloc: Global,
    hidings: &[Hiding],
    refused: &[Lacking],
) -> Result<Vec<Hiding>, AllocError>
    ensures { IfOk result (λ kept. kept.items ≡ filter (is_kept refused.now) hidings.now) }
{
    let mut kept = Vec::new(alloc);
    for hiding in hidings {
        if !is_among(refused, hiding.object) {
            kept.push(*hiding)?;
        }
    }
    Ok(kept)
}
