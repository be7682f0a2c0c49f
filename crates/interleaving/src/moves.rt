//! What cleans objects and moves their blocks. A run is proved for whatever keeps these contracts.
ghost use Rattle.std.specs.Prelude.{◌≡◌, ◌⊎◌, false, true, IfOk, IfErr, OnOk, OnErr, MatchResult};
ghost use Rattle.s4_types.specs.declared.refusals.Refusal.TheVariants.{NoMemory, NoRoom};
ghost use Rattle.drive.specs.Fields.{state_in, store_of};
ghost use Rattle.drive.specs.Keeping.{KeepsVersions};
ghost use Rattle.interleaving.specs.Moving.{IsCurrent, IsMoveOf, HoldsNone};
ghost use Rattle.interleaving.specs.Acting.{IsUnplanned, IsUnmoved};

use drive::{Drive, Session};
use s4_types::{ObjectId, Refusal};
use segment_word::Naming;
use std::alloc::Global;

/// What cleans objects of a drive.
pub trait Cleans<J: Naming> {
    ghost use Rattle.std.specs.Prelude.{ℕ, Result};
    ghost use Rattle.s4_types.specs.declared.refusals.Refusal.{Refusal};
    ghost use Rattle.drive.specs.Fields.{DriveFields};

    /// What else a cleaning of an object comes to, by the drive before it, the answer and the drive
    /// after it.
    ghost cleans: { ℕ → DriveFields → Result (Unit {0}) Refusal → DriveFields → Type 0 };

    /// Cleans an object. The history and every version that is needed stay, whatever is answered.
    ///
    /// NoRoom where there is too little room for what must be written, NoMemory where memory is
    /// refused. Nothing has changed then.
    fn clean(alloc: Global, drive: &mut Drive<J>, object: ObjectId) -> Result<(), Refusal>
        ensures own { cleans object drive.old result drive.new }
        ensures refusal { IfErr result (λ e. (e ≡ NoMemory) ⊎ (e ≡ NoRoom)) }
        ensures unchanged { OnErr result (store_of drive.new ≡ store_of drive.old) }
        ensures ledger { drive.new.ledger ≡ drive.old.ledger }
        ensures needed { KeepsVersions (state_in drive.old) (store_of drive.old) (store_of drive.new) };
}

/// What moves an object's blocks out of a frame, in three steps: a plan is made with the drive,
/// copied without it, and then put in place.
pub trait Moves<J: Naming> {
    ghost use Rattle.std.specs.Prelude.{Result};
    ghost use Rattle.s4_types.specs.declared.refusals.Refusal.{Refusal};
    ghost use Rattle.drive.specs.Fields.{DriveFields};
    ghost use Rattle.interleaving.specs.Moving.{Move};

    /// A move that was planned. While it lives, what it needs of the frame keeps its contents.
    type Plan: Drop;

    /// A move that was copied.
    type Moved: Drop;

    /// The move that a plan is of.
    ghost planned: { Self.Plan → Move };

    /// The move that was copied.
    ghost copied: { Self.Moved → Move };

    /// What else putting a move in place comes to, by the drive before it, the answer and the drive
    /// after it.
    ghost commits: { Move → DriveFields → Result (Unit {0}) Refusal → DriveFields → Type 0 };

    /// Plans the move of an object's held blocks out of a frame. The plan is empty exactly where
    /// the frame isn't sealed, or isn't there, or has no held block of the object.
    ///
    /// NoObject exactly where the object has no row; else NoMemory where memory is refused, and
    /// Busy where no pin is to be had. History, objects and session are as before, whatever is
    /// answered.
    fn plan(
        alloc: Global,
        drive: &mut Drive<J>,
        session: &mut Session<J>,
        frame: u16,
        object: ObjectId,
    ) -> Result<Self::Plan, Refusal>
        ensures told { MatchResult result (λ plan. IsMoveOf drive.old frame object (planned plan))
            (IsUnplanned drive.old object) }
        ensures session { session.new ≡ session.old }
        ensures ledger { drive.new.ledger ≡ drive.old.ledger }
        ensures store { store_of drive.new ≡ store_of drive.old };

    /// Copies what the plan names, without the drive. The plan is spent.
    ///
    /// NoMemory alone, where memory is refused.
    fn copy(alloc: Global, plan: Self::Plan) -> Result<Self::Moved, Refusal>
        ensures copied { IfOk result (λ moved. copied moved ≡ planned plan) }
        ensures refusal { IfErr result (λ e. e ≡ NoMemory) };

    /// Puts a copied move in place: after that the object holds no block in the frame. One that is
    /// empty changes nothing. The history and every version that is needed stay, whatever is
    /// answered.
    ///
    /// Stale exactly where the row's stamp changed since the move was planned, or the row is gone,
    /// or where there is something to move and the frame isn't sealed any more; else NoRoom where
    /// there is too little room for what must be written, NoMemory where memory is refused. Nothing
    /// has changed then.
    fn commit(alloc: Global, drive: &mut Drive<J>, moved: Self::Moved) -> Result<(), Refusal>
        ensures own { commits (copied moved) drive.old result drive.new }
        ensures told { MatchResult result (λ _. IsCurrent drive.old (copied moved))
            (IsUnmoved drive.old (copied moved)) }
        ensures left { OnOk result
            ((copied moved).is_empty ≡ false
            → HoldsNone drive.new.store.table (copied moved).object (copied moved).frame) }
        ensures empty { OnOk result
            ((copied moved).is_empty ≡ true → store_of drive.new ≡ store_of drive.old) }
        ensures unchanged { OnErr result (store_of drive.new ≡ store_of drive.old) }
        ensures ledger { drive.new.ledger ≡ drive.old.ledger }
        ensures needed { KeepsVersions (state_in drive.old) (store_of drive.old) (store_of drive.new) };
}
