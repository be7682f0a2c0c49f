//! Making the accept table.
ghost use Rattle.std.specs.Prelude.{◌≡◌, ◌⊎◌, [], IfOk, IfErr};
ghost use Rattle.s4_types.specs.declared.refusals.Refusal.TheVariants.{NoMemory, Busy};
ghost use Rattle.segment_word.specs.AcceptViews.{begun};

use crate::accepts::history::HistorySeat;
use crate::accepts::naming::Naming;
use crate::accepts::rule::{Known, OneHistory};
use crate::accepts::sessions::Sessions;
use crate::accepts::steps::{Place, begin};
use atomic_table::Table;
use s4_types::Refusal;
use s4_types::limits::SEATS;
use std::alloc::Global;
use std::marker::{Model, PhantomData};
use std::sync::Arc;
use std::sync::atomic::AtomicU64;

/// What the drive's seat and all sessions share: the table, and how many seats are free.
#[derive(Drop)]
pub struct AcceptBoard {
    pub table: Table<(), Known, (), OneHistory, Global>,
    pub free: AtomicU64,
    ghost one_word: { table.shared.table_id.words ≡ 1 },
}

/// An accept word that nothing is counted in yet, and that has no name. Contracts see its table.
#[derive(Drop)]
pub struct Accepts {
    board: Arc<AcceptBoard, Global>,
    shared: Arc<AcceptBoard, Global>,
    seat: Place,
}

impl Model for Accepts {
    ghost use Rattle.std.specs.Prelude.{◌≡◌};
    ghost use Rattle.std.specs.Arc.{arc_value};
    ghost use Rattle.atomic_table.specs.Seated.{TableId, table_id_coded};
    ghost use Rattle.segment_word.specs.AcceptHandles.{IsFirstSeat};

    ghost Value = { TableId };

    ghost coded = { table_id_coded };

    ghost view = { λ a. a.seat.table_id };

    ghost invariant = { λ a. ((arc_value a.board).table.shared.table_id ≡ a.seat.table_id) × ((arc_value a.shared).table.shared.table_id ≡ a.seat.table_id) × IsFirstSeat a.seat };
}

impl Accepts {
    /// A word for a history that nothing was accepted in, with `SEATS` for sessions.
    ///
    /// NoMemory where memory was refused, Busy where the count of those that share it was full.
    pub fn new(alloc: Global) -> Result<Accepts, Refusal>
        ensures refusal { IfErr result (λ e. (e ≡ NoMemory) ⊎ (e ≡ Busy)) }
    {
        let (table, seat) = Table::of_words(alloc, &[0], &())?;
        let free = AtomicU64::new(SEATS as u64);
        let board = Arc::new(alloc, AcceptBoard { table, free })?;
        let Ok(shared) = Arc::try_clone(&board) else {
            return Err(Refusal::Busy);
        };
        Ok(Accepts {
            board,
            shared,
            seat,
        })
    }

    /// The seats for sessions, and the drive's seat, whose history is just the base that the name
    /// says.
    pub fn named<J: Naming>(self) -> (Sessions<J>, HistorySeat<J>)
        requires { self ≡ J.accepts }
        ensures { result.1 ≡ begun J.base }
    {
        let Accepts {
            board,
            shared,
            mut seat,
        } = self;
        begin::<J>(&board.table.shared, &mut seat);
        let sessions = Sessions {
            board: shared,
            of: PhantomData,
        };
        (
            sessions,
            HistorySeat {
                board,
                seat,
                of: PhantomData,
            },
        )
    }
}
