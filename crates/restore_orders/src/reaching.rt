//! The moment that is restored is kept in reach until all is done.
ghost use Rattle.std.specs.Prelude.{◌≡◌, ℕ, ◌+◌, ◌^◌, ◌<◌, count_by, OnOk};
ghost use Rattle.drive.specs.Fields.{state_in, store_of};
ghost use Rattle.restore_orders.specs.Reaching.{Reaches, RestoresInReach, changes_ahead, does_hide};

use crate::dating::Moments;
use crate::lines::window_text;
use crate::making_room::restore_with_room;
use crate::orders::Order;
use crate::restoring::Wanted;
use drive::{Drive, Session};
use history_restore::{ObjectPlan, count_changes, planned_aims, widen_window};
use image_commands::write_out;
use restore_search::Room;
use s4_images::Failure;
use segment_word::Naming;
use serving::Sink;
use std::alloc::Global;

/// Restores what was chosen by an order: the window is widened where the moment would expire on the
/// way, and room is made in full journals before. Prints what was done.
pub(crate) fn restore_in_reach<J: Naming, W: Sink>(
    alloc: Global,
    drive: &mut Drive<J>,
    session: &mut Session<J>,
    order: &Order<'_>,
    moments: Moments,
    chosen: &[ObjectPlan],
    writer: &mut W,
) -> Result<(), Failure>
    requires writer { W.failures writer.old + 1 < 2 ^ 64 }
    ensures restores { OnOk result
        (RestoresInReach drive.old drive.new order.now moments.asked moments.at chosen.now (W.passed writer.old)
        (W.passed writer.new)) }
    ensures failures { OnOk result (W.failures writer.new ≡ W.failures writer.old) }
{
    let (at, now) = (moments.at, moments.asked);
    let changes = changes_ahead(chosen, order.full);
    reach(alloc, drive, session, moments, changes, order.json, writer)?;
    let aims = planned_aims(alloc, chosen)?;
    let wanted = Wanted {
        moments: Moments { at, asked: now },
        aims: aims.as_slice(),
        json: order.json,
    };
    restore_with_room(alloc, drive, session, &wanted, order.full, writer)
}

/// How many changes are ahead: those of the plans, and one for each journal of which versions are
/// hidden.
pub fn changes_ahead(chosen: &[ObjectPlan], full: &[Room]) -> u64
    ensures { result ≡ changes_ahead chosen.now full.now }
{
    count_changes(chosen).saturating_add(hiding_in(full) as u64)
}

// Of how many objects versions are hidden.
fn hiding_in(full: &[Room]) -> usize
    ensures { result ≡ count_by does_hide full.now }
{
    full.iter().filter(|room| room.count > 0).count()
}

// Keeps a moment in reach until that many changes are made, and prints what the window was and is
// where it had to be widened.
fn reach<J: Naming, W: Sink>(
    alloc: Global,
    drive: &mut Drive<J>,
    session: &mut Session<J>,
    moments: Moments,
    changes: u64,
    json: bool,
    writer: &mut W,
) -> Result<(), Failure>
    requires writer { W.failures writer.old + 1 < 2 ^ 64 }
    ensures reaches { OnOk result
        (Reaches (state_in drive.old) (store_of drive.old) moments.asked moments.at changes json drive.new
        (W.passed writer.old) (W.passed writer.new)) }
    ensures failures { OnOk result (W.failures writer.new ≡ W.failures writer.old) }
{
    let before = drive.window();
    let widened = widen_window(drive, session, moments.at, changes, moments.asked)?;
    let line = window_text(alloc, json, before, widened)?;
    write_out(writer, line.as_bytes())?;
    Ok(())
}
