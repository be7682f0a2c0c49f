//! The moments of the chains of rows, and whether two chains share one.
ghost use Rattle.std.specs.Prelude.{◌≡◌, ◌++◌, MatchBool, IfOk, IfErr};
ghost use Rattle.s4_types.specs.declared.refusals.Refusal.TheVariants.{NoMemory};
ghost use Rattle.image_objects.specs.Moments.{moments_of_chain, StandOnce};

use codec::Entry;
use image_objects::laws::neighbours_tell_what_stands_twice;
use s4_types::Refusal;

/// Adds the moments of entries of a chain, in their order; that of neighbours which have one moment
/// is added once.
///
/// NoMemory alone, after which some of them may have been added. Linear in the entries.
pub fn push_moments(entries: &[Entry], moments: &mut Vec<u64>) -> Result<(), Refusal>
    ensures moments { IfOk result
        (λ _. moments.new.items ≡ moments.old.items ++ moments_of_chain entries.now) }
    ensures refusal { IfErr result (λ e. e ≡ NoMemory) }
{
    let Some(first) = entries.first() else {
        return Ok(());
    };
    let mut last = first.moment().number();
    for entry in entries {
        let moment = entry.moment().number();
        if moment == last {
            continue;
        }
        moments.push(last)?;
        last = moment;
    }
    moments.push(last)?;
    Ok(())
}

/// Whether no number is among these twice. No memory is taken.
pub fn are_apart(mut moments: Vec<u64>) -> bool
    ensures { MatchBool result (StandOnce moments.items) (StandOnce moments.items → ⊥) }
{
    neighbours_tell_what_stands_twice();
    moments.sort_unstable();
    for index in 1..moments.len() {
        if moments[index - 1] == moments[index] {
            return false;
        }
    }
    true
}
