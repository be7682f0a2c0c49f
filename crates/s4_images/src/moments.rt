//! The moment and the object that a command asks for.
ghost use Rattle.std.specs.Prelude.{◌≡◌, ◌≢◌, ℕ, None, Some, IfErr, IfOk, IfSome, OnOk, option_map};
ghost use Rattle.object_map.specs.Rows.{row_of};
ghost use Rattle.s4_model.specs.Visible.{IsVisible};
ghost use Rattle.drive.specs.Fields.{state_in, store_of};
ghost use Rattle.history_view.specs.Names.{IsNameRefusal, IsOnlyNamed};
ghost use Rattle.s4_images.specs.Moments.{IsNamedInEither, IsObjectAsked, IsObjectInEither};
ghost use Rattle.s4_images.specs.Moments.{HasNoMoment, IsRefusedAt, IsTimeRefused};
ghost use Rattle.s4_images.specs.Moments.{TellsUnreadable};
ghost use Rattle.s4_images.specs.Moments.{moment_asked, moment_given, moment_said};

use crate::faults::{Failure, as_number};
use drive::Drive;
use history_view::{NameRefusal, earliest, is_visible, named_object};
use moment_words::{MomentWord, moment_of};
use s4_types::{Moment, ObjectId};
use segment_word::Naming;

/// The moment that a word says, whether it can be read or not. An error for a time exactly where
/// the drive's moments are numbers.
pub fn moment_said<J: Naming>(drive: &Drive<J>, word: MomentWord) -> Result<Moment, Failure>
    ensures moment { IfOk result (λ moment. moment ≡ moment_said (state_in drive.now) word) }
    ensures said { OnOk result (HasNoMoment (state_in drive.now) (Some word) → ⊥) }
    ensures refused { IfErr result (IsTimeRefused (state_in drive.now) (Some word)) }
{
    let clock = drive.clock();
    match moment_of(word, clock.number()) {
        Some(moment) => Ok(Moment::new(moment)),
        None => Err(Failure::NoTimes {
            first: as_number(drive.floor()),
            last: as_number(clock),
        }),
    }
}

/// The moment that is asked for, if one is, whether it can be read or not. An error for a time
/// exactly where the drive's moments are numbers.
pub fn moment_given<J: Naming>(
    drive: &Drive<J>,
    word: Option<MomentWord>,
) -> Result<Option<Moment>, Failure>
    ensures moment { IfOk result (λ given. given ≡ moment_given (state_in drive.now) word) }
    ensures said { OnOk result (HasNoMoment (state_in drive.now) word → ⊥) }
    ensures refused { IfErr result (IsTimeRefused (state_in drive.now) word) }
{
    let Some(word) = word else {
        return Ok(None);
    };
    match moment_said(drive, word) {
        Ok(moment) => Ok(Some(moment)),
        Err(failure) => Err(failure),
    }
}

/// The moment that is asked for, the clock's where none is, whether it can be read or not. An error
/// for a time exactly where the drive's moments are numbers.
pub fn moment_or_clock<J: Naming>(
    drive: &Drive<J>,
    at: Option<MomentWord>,
) -> Result<Moment, Failure>
    ensures moment { IfOk result (λ moment. moment ≡ moment_asked (state_in drive.now) at) }
    ensures said { OnOk result (HasNoMoment (state_in drive.now) at → ⊥) }
    ensures refused { IfErr result (IsTimeRefused (state_in drive.now) at) }
{
    match at {
        Some(word) => moment_said(drive, word),
        None => Ok(drive.clock()),
    }
}

/// The moment that is asked for, the clock's where none is. An error where that moment of the
/// object can't be read; of object 0 where it can't be read of any. And for a time exactly where
/// the drive's moments are numbers.
pub fn moment_asked<J: Naming>(
    drive: &Drive<J>,
    object: ObjectId,
    at: Option<MomentWord>,
) -> Result<Moment, Failure>
    ensures moment { IfOk result (λ moment. moment ≡ moment_asked (state_in drive.now) at) }
    ensures readable { OnOk result
        (IsVisible (state_in drive.now) object (moment_asked (state_in drive.now) at)) }
    ensures refused { IfErr result (IsRefusedAt (state_in drive.now) object at) }
{
    let moment = match moment_or_clock(drive, at) {
        Ok(moment) => moment,
        Err(failure) => return Err(failure),
    };
    if is_visible(drive, object, moment) {
        return Ok(moment);
    }
    Err(unreadable(drive, object, moment))
}

/// The failure of a moment that can't be read: it is to come, or hidden or expired, and then the
/// failure has the first one that can be.
pub fn unreadable<J: Naming>(drive: &Drive<J>, object: ObjectId, moment: Moment) -> Failure
    ensures { TellsUnreadable (state_in drive.now) object moment result }
{
    let clock = drive.clock();
    if clock < moment {
        return Failure::Future {
            asked: as_number(moment),
            clock: as_number(clock),
        };
    }
    Failure::Unreadable {
        asked: as_number(moment),
        earliest: as_number(earliest(drive, object)),
    }
}

/// An error where no object has the number that is asked for.
pub fn check_object<J: Naming>(drive: &Drive<J>, object: Option<u64>) -> Result<(), Failure>
    ensures there { OnOk result (IfSome object (λ o. row_of drive.now.store.rows o ≢ None)) }
{
    let Some(object) = object else {
        return Ok(());
    };
    match drive.row(ObjectId::new(object)) {
        Some(_) => Ok(()),
        None => Err(Failure::NoObject { object }),
    }
}

/// The object that is asked for at a moment: by its number, or else by its attribute then. None
/// where neither is given.
///
/// An error where no object has the number, where the moment can't be read, or where not exactly
/// one object has the attribute then.
pub fn object_asked<J: Naming>(
    drive: &mut Drive<J>,
    object: Option<u64>,
    name: Option<&str>,
    at: Moment,
) -> Result<Option<ObjectId>, Failure>
    ensures asked { IfOk result
        (IsObjectAsked (state_in drive.old) (store_of drive.old) object
        (option_map (λ text. text.now) name.entry) at) }
    ensures ledger { drive.new.ledger ≡ drive.old.ledger }
    ensures store { store_of drive.new ≡ store_of drive.old }
{
    match (object, name) {
        (Some(object), _) => numbered(drive, object),
        (None, Some(name)) => named_alone(drive, name, None, at),
        (None, None) => Ok(None),
    }
}

/// The object that is asked for of two moments: by its number, or else by its attribute at the
/// first of them, or where none has it then, at the second. None where neither is given.
///
/// An error where no object has the number, where a moment can't be read at which the attribute is
/// looked for, or where none has it at either, or several at one.
pub fn object_in_either<J: Naming>(
    drive: &mut Drive<J>,
    object: Option<u64>,
    name: Option<&str>,
    first: Moment,
    second: Moment,
) -> Result<Option<ObjectId>, Failure>
    ensures asked { IfOk result
        (IsObjectInEither (state_in drive.old) (store_of drive.old) object
        (option_map (λ text. text.now) name.entry) first second) }
    ensures ledger { drive.new.ledger ≡ drive.old.ledger }
    ensures store { store_of drive.new ≡ store_of drive.old }
{
    match (object, name) {
        (Some(object), _) => numbered(drive, object),
        (None, Some(name)) => named_in_either(drive, name, first, second),
        (None, None) => Ok(None),
    }
}

// The object of this number, which has a row.
fn numbered<J: Naming>(drive: &Drive<J>, object: u64) -> Result<Option<ObjectId>, Failure>
    ensures { IfOk result
        (λ found. (row_of drive.now.store.rows object ≢ None) × (found ≡ Some object)) }
{
    check_object(drive, Some(object))?;
    Ok(Some(ObjectId::new(object)))
}

// The object of a name at the first moment, or where none has it then, at the second.
fn named_in_either<J: Naming>(
    drive: &mut Drive<J>,
    name: &str,
    first: Moment,
    second: Moment,
) -> Result<Option<ObjectId>, Failure>
    ensures named { IfOk result
        (λ found. (o : ℕ)
        × IsNamedInEither (state_in drive.old) (store_of drive.old) name.now first second o
        × (found ≡ Some o)) }
    ensures ledger { drive.new.ledger ≡ drive.old.ledger }
    ensures store { store_of drive.new ≡ store_of drive.old }
{
    match named_at(drive, name, first)? {
        Ok(object) => Ok(Some(object)),
        Err(NameRefusal::NotNamed) => named_alone(drive, name, Some(first), second),
        Err(refusal) => Err(unnamed(refusal, None, first)),
    }
}

// The one object of a name at a moment. Where none had it at an earlier one that was asked for
// first, and none has it at this one, the failure names both.
fn named_alone<J: Naming>(
    drive: &mut Drive<J>,
    name: &str,
    before: Option<Moment>,
    at: Moment,
) -> Result<Option<ObjectId>, Failure>
    ensures named { IfOk result
        (λ found. (o : ℕ)
        × IsOnlyNamed (state_in drive.old) (store_of drive.old) name.now at o
        × (found ≡ Some o)) }
    ensures ledger { drive.new.ledger ≡ drive.old.ledger }
    ensures store { store_of drive.new ≡ store_of drive.old }
{
    match named_at(drive, name, at)? {
        Ok(object) => Ok(Some(object)),
        Err(refusal) => Err(unnamed(refusal, before, at)),
    }
}

// The object of a name at a moment, which can be read.
fn named_at<J: Naming>(
    drive: &mut Drive<J>,
    name: &str,
    at: Moment,
) -> Result<Result<ObjectId, NameRefusal>, Failure>
    ensures named { IfOk result
        (λ found. IfOk found (IsOnlyNamed (state_in drive.old) (store_of drive.old) name.now at)) }
    ensures refused { IfOk result
        (λ found. IfErr found
        (IsNameRefusal (state_in drive.old) (store_of drive.old) name.now at)) }
    ensures ledger { drive.new.ledger ≡ drive.old.ledger }
    ensures store { store_of drive.new ≡ store_of drive.old }
{
    let any = ObjectId::new(0);
    if !is_visible(drive, any, at) {
        return Err(unreadable(drive, any, at));
    }
    Ok(named_object(drive, name.as_bytes(), at))
}

// The failure of a name that isn't that of one object, at a moment and maybe at one before it.
fn unnamed(refusal: NameRefusal, before: Option<Moment>, at: Moment) -> Failure {
    let moment = as_number(at);
    match (refusal, before) {
        (NameRefusal::NotNamed, None) => Failure::NotNamed { moment },
        (NameRefusal::NotNamed, Some(first)) => Failure::NotNamedInEither {
            first: as_number(first),
            second: moment,
        },
        (NameRefusal::NamedTwice { first, second }, _) => Failure::NamedTwice {
            first: first.number(),
            second: second.number(),
            moment,
        },
    }
}
