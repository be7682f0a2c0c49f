//! Making the table, and its seats for pins.
ghost use Rattle.std.specs.Prelude.{◌≡◌, ◌*◌, ◌<◌, ◌⊎◌, [], All, length, replicate, IfOk, IfErr};
ghost use Rattle.s4_types.specs.Sizes.{IsFrameCount};
ghost use Rattle.s4_types.specs.declared.refusals.Refusal.TheVariants.{NoMemory, Busy};
ghost use Rattle.segment_word.specs.Frames.{nothing_known, no_releases};
ghost use Rattle.segment_word.specs.Steps.{IsSameSeat};
ghost use Rattle.segment_word.specs.Handles.{IsDriveSeat, fresh_frame};

use crate::board::{Board, FrameTable};
use crate::drive::DriveSeat;
use crate::frame_words::FrameWords;
use crate::layout::{EMPTY, RESTING};
use crate::pins::Pin;
use crate::rule::Known;
use crate::steps::{Place, Words, hand};
use atomic_table::{Perch, Table};
use s4_types::Refusal;
use s4_types::limits::SEATS;
use std::alloc::Global;
use std::marker::Model;
use std::snapshot::Snapshot;
use std::sync::Arc;

/// The frames of a drive, from which pins are had. Contracts see the table that they lie in.
#[derive(Drop)]
pub struct Frames {
    board: Arc<Board, Global>,
    alloc: Global,
}

impl Model for Frames {
    ghost use Rattle.std.specs.Arc.{arc_value};
    ghost use Rattle.atomic_table.specs.Seated.{TableId, table_id_coded};

    ghost Value = { TableId };

    ghost coded = { table_id_coded };

    ghost view = { λ f. (arc_value f.board).table.shared.table_id };
}

// The table of these words, and its first seat, which is the drive's. The words go once the table
// has its own.
fn table_of(alloc: Global, words: FrameWords) -> Result<(FrameTable, Place), Refusal>
    ensures words { IfOk result (λ t. t.0.shared.table_id.words ≡ 1025 * length words) }
    ensures seat { IfOk result (λ t. (t.1.table_id ≡ t.0.shared.table_id) × (t.1.id ≡ 0)) }
    ensures knows { IfOk result (λ t. t.1.me ≡ (record nothing_known { frames = words }, [])) }
    ensures limits { IfOk result (λ t. IsFrameCount (length words)) }
    ensures refusal { IfErr result (λ e. e ≡ NoMemory) }
{
    let spelled = words.words.as_slice();
    let (table, seat) = Table::of_words(alloc, spelled, &Snapshot::of(&words.words))?;
    Ok((table, seat))
}

// A perch for each seat that a pin may have, with a seat on it that is split off the drive's.
fn perches(alloc: Global, words: &Words, seat: &mut Place) -> Result<Vec<Perch<(), Known>>, Refusal>
    requires table { (seat.old.table_id ≡ words.now.table_id) × (0 < words.now.table_id.words) }
    requires unlent { seat.old.me.0.pins ≡ [] }
    ensures seat { IsSameSeat seat.old seat.new × (seat.new.me ≡ seat.old.me) }
    ensures rests { IfOk result
        (λ v. All (λ r. (r.table_id ≡ words.now.table_id) × (r.view ≡ nothing_known)) v.items) }
    ensures refusal { IfErr result (λ e. e ≡ NoMemory) }
{
    let mut perches = Vec::with_capacity(alloc, SEATS)?;
    for _ in 0..SEATS {
        let own = hand(words, seat);
        let perch = Perch::new(&own, EMPTY);
        let _ = perch.give(own, EMPTY, RESTING);
        perches.push(perch)?;
    }
    Ok(perches)
}

impl Frames {
    /// The memory of a drive of `FEWEST_FRAMES` to `MOST_FRAMES` frames, all free at generation 1
    /// and full of zeros, and the drive's seat.
    ///
    /// NoMemory where memory was refused, Busy where the count of those that share it was full.
    pub fn new(alloc: Global, count: usize) -> Result<(Frames, DriveSeat), Refusal>
        requires { IsFrameCount count }
        ensures frames { IfOk result (λ r. r.1 ≡ record { table = r.0; frames = replicate count fresh_frame; releases = no_releases }) }
        ensures refusal { IfErr result (λ e. (e ≡ NoMemory) ⊎ (e ≡ Busy)) }
    {
        Self::from_words(alloc, FrameWords::new(alloc, count)?)
    }

    /// The memory of a drive whose frames are these, and the drive's seat.
    ///
    /// NoMemory where memory was refused, Busy where the count of those that share it was full.
    pub fn from_words(alloc: Global, words: FrameWords) -> Result<(Frames, DriveSeat), Refusal>
        ensures frames { IfOk result (λ r. r.1 ≡ record { table = r.0; frames = words; releases = no_releases }) }
        ensures refusal { IfErr result (λ e. (e ≡ NoMemory) ⊎ (e ≡ Busy)) }
    {
        let (table, mut seat) = table_of(alloc, words)?;
        let perches = perches(alloc, &table.shared, &mut seat)?;
        let board = Arc::new(alloc, Board { table, perches })?;
        let Ok(shared) = Arc::try_clone(&board) else {
            return Err(Refusal::Busy);
        };
        let frames = Frames {
            board: shared,
            alloc,
        };
        Ok((frames, DriveSeat { board, seat }))
    }

    /// A pin without frames. Busy where all seats are in use, or the count of those that share the
    /// memory is full.
    pub fn seat(&self) -> Result<Pin, Refusal>
        ensures pin { IfOk result (λ p. (p.table ≡ self.now) × (p.pins ≡ [])) }
        ensures busy { IfErr result (λ e. e ≡ Busy) }
    {
        let Ok(board) = Arc::try_clone(&self.board) else {
            return Err(Refusal::Busy);
        };
        for perch in 0..board.perches.len() {
            let (_, seat) = board.perches[perch].take(EMPTY);
            if let Some(seat) = seat {
                return Ok(Pin::new(board, seat, perch, self.alloc));
            }
        }
        Err(Refusal::Busy)
    }
}
