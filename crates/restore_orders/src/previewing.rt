//! Whether an order has anything to change.
ghost use Rattle.std.specs.Prelude.{◌≡◌, false, IfOk};
ghost use Rattle.drive.specs.Fields.{state_in};
ghost use Rattle.moment_words.specs.Texts as styles;
ghost use Rattle.s4_images.specs.Failures.{IsInStyle};
ghost use Rattle.restore_orders.specs.Orders.{WouldChange};

use crate::choosing::{chosen_by, readable};
use crate::orders::Order;
use crate::reaching::changes_ahead;
use drive::Drive;
use moment_words::style_of;
use s4_images::{DriveUse, Failure};
use s4_types::Role;
use segment_word::Naming;
use std::alloc::Global;

/// Whether an order would change anything of a drive: an object, or what is hidden.
#[derive(Clone, Copy)]
pub struct Preview<'a> {
    pub order: &'a Order<'a>,
}

impl DriveUse<bool, ()> for Preview<'_> {
    ghost gives = { λ it d changes _ _. WouldChange d it.order.now changes };

    ghost fails = { λ _ d. IsInStyle (styles.style_of (state_in d).clock false) };

    fn apply<J: Naming>(
        &self,
        alloc: Global,
        drive: &mut Drive<J>,
        _output: &mut (),
    ) -> Result<bool, Failure> {
        let style = style_of(drive.clock().number(), false);
        match would_change(alloc, drive, self.order) {
            Ok(changes) => Ok(changes),
            Err(failure) => Err(failure.in_style(style)),
        }
    }
}

fn would_change<J: Naming>(
    alloc: Global,
    drive: &mut Drive<J>,
    order: &Order<'_>,
) -> Result<bool, Failure>
    ensures { IfOk result (WouldChange drive.old order.now) }
{
    let mut session = drive.session(Role::Admin)?;
    let at = readable(drive, order.at)?;
    let chosen = chosen_by(alloc, drive, &mut session, order, at)?;
    let count = changes_ahead(chosen.as_slice(), order.full);
    Ok(count > 0)
}
