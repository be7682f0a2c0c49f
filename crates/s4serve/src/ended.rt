//! What shows that a drive was kept at the end of its service.
ghost use Rattle.s4serve.specs.Ended.{HasBeenEnded};

use crate::keeping::Explaining;
use crate::service::Serving;
use image_keeping::Keeper;
use std::marker::{Model, PhantomData};

/// What shows that the drive that `J` names was kept by a keeper `K` at the end of its service; or,
/// where somebody had removed or replaced the image, by a flush after that. None can be made but
/// where a keeper has kept it so.
#[derive(Drop)]
pub struct EndReceipt<J: Serving, K: Keeper + Explaining> {
    pub of: PhantomData<(J, K)>,
}

impl<J: Serving, K: Keeper + Explaining> Model for EndReceipt<J, K> {
    ghost use Rattle.s4serve.specs.Ended.{HasBeenEnded};
    ghost use Rattle.std.specs.Prelude.{⊤};

    ghost Value = { ⊤ };

    ghost view = { λ r. tt };

    ghost invariant = { λ r. HasBeenEnded K.may_leave K.was_moved J.frames J.base J.start };
}

impl<J: Serving, K: Keeper + Explaining> EndReceipt<J, K> {
    /// Shows what holds of each.
    pub fn shows(&self)
        ensures { HasBeenEnded K.may_leave K.was_moved J.frames J.base J.start }
    {
        let _ = &self.of;
    }
}
