//! What shows how much of a drive is kept.
ghost use Rattle.std.specs.Prelude.{◌≡◌};
ghost use Rattle.kept_drive.specs.Receipts.{HasBeenKept};

use group_commit::Receipt;
use image_keeping::Keeper;
use segment_word::Naming;
use std::marker::{Model, PhantomData};

/// What shows how much is kept of the drive that `J` names, by a keeper `K`. None can be made but
/// where a keeper has kept as much.
#[derive(Drop)]
pub struct KeptReceipt<J: Naming, K: Keeper> {
    pub(crate) number: u64,
    pub(crate) reach: u64,
    pub(crate) of: PhantomData<(J, K)>,
}

impl<J: Naming, K: Keeper> Model for KeptReceipt<J, K> {
    ghost use Rattle.kept_drive.specs.Receipts.{HasBeenKept, ReceiptFields};

    ghost Value = { ReceiptFields };

    ghost view = { λ r. record { number = r.number; reach = r.reach } };

    ghost invariant = { λ r. HasBeenKept K.may_leave J.frames J.base
        (record { number = r.number; reach = r.reach }) };
}

impl<J: Naming, K: Keeper> KeptReceipt<J, K> {
    /// Shows what holds of each receipt: there was a keeper of which a crash left nothing but what
    /// a flush keeps of this drive, with this number of changes, at this reach.
    pub fn shows(&self)
        ensures { HasBeenKept K.may_leave J.frames J.base self.now }
    {
        let _ = &self.number;
    }
}

impl<J: Naming, K: Keeper> Receipt for KeptReceipt<J, K> {
    ghost number = { λ r. r.number };

    ghost reach = { λ r. r.reach };

    fn number(&self) -> u64 {
        self.number
    }

    fn reach(&self) -> u64 {
        self.reach
    }

    fn again(&self) -> Self {
        KeptReceipt {
            number: self.number,
            reach: self.reach,
            of: PhantomData,
        }
    }
}
