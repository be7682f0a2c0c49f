//! Moves that are planned, and their copies.
ghost use Rattle.std.specs.Prelude.{◌≡◌, ◌⊎◌, ℕ, ◌<◌, false, true, is_none, IfOk, IfErr};
ghost use Rattle.std.specs.Prelude.{MatchResult};
ghost use Rattle.std.specs.List.{AllByRecursion};
ghost use Rattle.s4_types.specs.declared.refusals.Refusal.TheVariants.{NoMemory};
ghost use Rattle.segment_word.specs.Counting.{pins_in};
ghost use Rattle.segment_word.specs.Frames.{Pinned};
ghost use Rattle.time_read.specs.Plans.{pins_held};
ghost use Rattle.interleaving.specs.Moving.{IsMoveOf};
ghost use Rattle.interleaving.specs.Acting.{IsUnplanned};
ghost use Rattle.segment_copier.specs.Moves.{data_in, copies_of, memory_of, CountsOnFrame};

use crate::held::data_among;
use drive::{Drive, Session};
use s4_types::{ObjectId, Ptr, Refusal};
use segment_table::OverFrames;
use segment_table::laws::what_is_listed_is_held;
use segment_word::{Memory, Naming, Pin};
use std::alloc::Global;
use std::marker::{Model, PhantomData};
use version_store::CopiedBlock;

/// A move of an object's held blocks out of a frame of the drive that `J` names. While it lives,
/// the frame keeps its generation and its contents, where there is something to move.
pub struct MovePlan<J: Naming> {
    frame: u16,
    object: ObjectId,
    // the stamp of the object's row
    stamp: u64,
    // where the object's data blocks are in the frame, by ascending block
    places: Vec<Ptr>,
    // none where there is nothing to move
    pin: Option<Pin>,
    of: PhantomData<J>,
}

// Written by hand, so that an owner lets it go by one call.
impl<J: Naming> Drop for MovePlan<J> {
    fn drop(self) {
        let MovePlan {
            frame: _,
            object: _,
            stamp: _,
            places: _,
            pin: _,
            of: _,
        } = self;
    }
}

impl<J: Naming> Model for MovePlan<J> {
    ghost use Rattle.std.specs.Prelude.{is_none};
    ghost use Rattle.segment_copier.specs.Moves.{PlannedMove, IsKeptPlan};

    ghost Value = { PlannedMove };

    ghost view = { λ p. record { what = record { frame = p.frame; object = p.object; stamp = p.stamp; is_empty = is_none p.pin }; places = p.places.items; pin = p.pin } };

    ghost invariant = { λ p. IsKeptPlan J.frames p.places.items p.pin };
}

/// A move that was copied. The frame isn't kept as it was any more.
#[derive(Drop)]
pub struct Moved<J: Naming> {
    pub(crate) frame: u16,
    pub(crate) object: ObjectId,
    // the stamp of the object's row when the move was planned
    pub(crate) stamp: u64,
    // the object's data blocks in the frame, by ascending block
    pub(crate) copies: Vec<CopiedBlock>,
    // none where there is nothing to move
    pub(crate) memory: Option<Memory>,
    pub(crate) of: PhantomData<J>,
}

impl<J: Naming> Model for Moved<J> {
    ghost use Rattle.std.specs.Prelude.{is_none};
    ghost use Rattle.segment_copier.specs.Moves.{CopiedMove, IsKeptCopy};

    ghost Value = { CopiedMove };

    ghost view = { λ m. record { what = record { frame = m.frame; object = m.object; stamp = m.stamp; is_empty = is_none m.memory }; copies = m.copies.items; memory = m.memory } };

    ghost invariant = { λ m. IsKeptCopy J.frames m.copies.items m.memory };
}

// Copies the blocks at these places of a frame that the pin counts on.
fn copies_by(alloc: Global, pin: &mut Pin, places: &[Ptr]) -> Result<Vec<CopiedBlock>, Refusal>
    requires inside { AllByRecursion (λ p. (0 < pins_in p.frame pin.old.pins) × (p.block < 16))
        places.now }
    ensures copies { IfOk result (λ copies. copies.items ≡ copies_of pin.old.pins places.now) }
    ensures refusal { IfErr result (λ e. e ≡ NoMemory) }
    ensures same { pin.new ≡ pin.old }
{
    let mut copies = Vec::with_capacity(alloc, places.len())?;
    for place in places {
        let bytes = pin.read_block(place.frame() as usize, place.block() as usize);
        copies.push(CopiedBlock {
            place: *place,
            bytes,
        })?;
    }
    Ok(copies)
}

impl<J: Naming> MovePlan<J> {
    /// Copies the object's data blocks in the frame, as they were when the move was planned,
    /// without the drive and without a lock. The pin ends with this call; what it counted on is
    /// remembered.
    ///
    /// NoMemory alone, where the memory for the copies is refused; it is asked for once.
    pub fn copy(self, alloc: Global) -> Result<Moved<J>, Refusal>
        ensures what { IfOk result (λ moved. moved.what ≡ self.what) }
        ensures copies { IfOk result
            (λ moved. moved.copies ≡ copies_of (pins_held self.pin) self.places) }
        ensures memory { IfOk result (λ moved. moved.memory ≡ memory_of self.pin) }
        ensures refusal { IfErr result (λ e. e ≡ NoMemory) }
    {
        let MovePlan {
            frame,
            object,
            stamp,
            places,
            pin,
            of,
        } = self;
        let Some(mut pin) = pin else {
            return Ok(Moved {
                frame,
                object,
                stamp,
                copies: Vec::new(alloc),
                memory: None,
                of,
            });
        };
        let copies = copies_by(alloc, &mut pin, places.as_slice())?;
        let memory = pin.remember();
        Ok(Moved {
            frame,
            object,
            stamp,
            copies,
            memory: Some(memory),
            of,
        })
    }
}

/// Plans the move of an object's held blocks out of a frame: notes the stamp of the object's row
/// and where its data blocks are there, and pins the frame, also where the object has no data block
/// in it. The plan is empty, and pins nothing, exactly where the frame isn't sealed, or isn't
/// there, or has no held block of the object. Drive and session are as before, whatever is
/// answered.
///
/// NoObject exactly where the object has no row; else NoMemory where memory is refused, and Busy
/// where all seats of pins are in use, the count of those that share the frames is full, the frame
/// has `MOST_READERS`, or other threads changed its word between load and exchange `PIN_TRIES`
/// times.
pub fn plan_move<J: Naming>(
    alloc: Global,
    drive: &mut Drive<J>,
    session: &mut Session<J>,
    frame: u16,
    object: ObjectId,
) -> Result<MovePlan<J>, Refusal>
    ensures told { MatchResult result (λ plan. IsMoveOf drive.old frame object plan.what)
        (IsUnplanned drive.old object) }
    ensures places { IfOk result
        (λ plan. plan.places ≡ data_in drive.old.store.table object frame) }
    ensures pinned { IfOk result
        (λ plan. CountsOnFrame J.frames drive.old.store.table.seat.frames frame plan.what.is_empty
        plan.pin) }
    ensures session { session.new ≡ session.old }
    ensures same { drive.new ≡ drive.old }
{
    what_is_listed_is_held();
    let _ = &session;
    let Some(row) = drive.row(object) else {
        return Err(Refusal::NoObject);
    };
    let held = drive.held_in(object, frame)?;
    let Some(first) = held.as_slice().first() else {
        return Ok(MovePlan {
            frame,
            object,
            stamp: row.stamp,
            places: held,
            pin: None,
            of: PhantomData,
        });
    };
    let pin = drive.pin(*first)?;
    let places = data_among(alloc, drive, held.as_slice())?;
    Ok(MovePlan {
        frame,
        object,
        stamp: row.stamp,
        places,
        pin: Some(pin),
        of: PhantomData,
    })
}
