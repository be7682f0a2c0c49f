//! What a drive is restored by.
ghost use Rattle.std.specs.Prelude.{◌≡◌, ℕ, ◌+◌, ◌^◌, ◌<◌, false, IfErr, OnOk};
ghost use Rattle.drive.specs.Fields.{state_in};
ghost use Rattle.moment_words.specs.Texts as styles;
ghost use Rattle.s4_images.specs.Failures.{IsInStyle};
ghost use Rattle.s4_images.specs.declared.commands.Verdict.TheVariants.{Fine};
ghost use Rattle.restore_orders.specs.Orders.{RestoresAt, RestoresBy, WouldRestoreBy};

use crate::choosing::{chosen_by, readable};
use crate::dating::{Moments, asked_at, check_left};
use crate::lines::Form;
use crate::means::{Means, compact_for};
use crate::reaching::restore_in_reach;
use drive::{Drive, Session};
use history_restore::{StandIn, has_object};
use moment_words::{MomentWord, style_of};
use restore_search::Room;
use s4_images::{DriveChange, DriveCommand, Failure, Verdict, write_lines};
use s4_types::{Moment, ObjectId, Role};
use segment_word::Naming;
use serving::Sink;
use std::alloc::Global;

/// What a drive is restored by: what is asked for, and what was found to be needed for it.
#[derive(Clone, Copy)]
pub struct Order<'a> {
    /// The moment.
    pub at: MomentWord,
    /// The machine's time in microseconds since 1970, 0 where it isn't known.
    pub time: u64,
    /// How far that may be above the drive's clock, in microseconds, where it would be too far.
    pub leap: u64,
    /// The objects, in any order; none for all, where no name is given.
    pub objects: &'a [u64],
    /// The one object, by its attribute at the moment.
    pub name: Option<&'a str>,
    /// What was made anew by earlier restores, and of what.
    pub stand_ins: &'a [StandIn],
    /// Whether it may leave no object, where some are there.
    pub to_nothing: bool,
    /// Whether objects that were made since stay.
    pub keep_newer: bool,
    /// By which means room is made first.
    pub means: Means,
    /// Whether lines are for programs.
    pub json: bool,
    /// The numbers whose journals are full, in the order in which room is made in them.
    pub full: &'a [Room],
    /// The numbers under which nothing can be restored, and that are left as they are.
    pub skipped: &'a [ObjectId],
}

impl DriveChange for Order<'_> {
    ghost changes = { λ order d later. RestoresBy d later order };

    fn make<J: Naming, W: Sink>(
        &self,
        alloc: Global,
        drive: &mut Drive<J>,
        writer: &mut W,
    ) -> Result<(), Failure> {
        restore_in_style(alloc, drive, self, writer)
    }
}

// The same of a drive that isn't saved.
impl DriveCommand for Order<'_> {
    ghost shows = { λ order d verdict output output'. (verdict ≡ Fine) × WouldRestoreBy d order output output' };

    ghost fails = { λ order d. IsInStyle (styles.style_of (state_in d).clock false) };

    fn perform<J: Naming, W: Sink>(
        &self,
        alloc: Global,
        drive: &mut Drive<J>,
        writer: &mut W,
    ) -> Result<Verdict, Failure> {
        restore_in_style(alloc, drive, self, writer)?;
        Ok(Verdict::Fine)
    }
}

// Restores a drive, and prints what was done. The moments of a failure are dates where the drive's
// clock counts microseconds of Unix time.
fn restore_in_style<J: Naming, W: Sink>(
    alloc: Global,
    drive: &mut Drive<J>,
    order: &Order<'_>,
    writer: &mut W,
) -> Result<(), Failure>
    requires writer { W.failures writer.old + 1 < 2 ^ 64 }
    ensures restores { OnOk result
        (RestoresBy drive.old drive.new order.now (W.passed writer.old) (W.passed writer.new)) }
    ensures style { IfErr result (IsInStyle (styles.style_of (state_in drive.old).clock false)) }
{
    let style = style_of(drive.clock().number(), false);
    match restore_by(alloc, drive, order, writer) {
        Ok(()) => Ok(()),
        Err(failure) => Err(failure.in_style(style)),
    }
}

// Restores a drive, and prints what was done. An error before anything is done where the machine's
// time is too far above the clock, and one after it where no object is left that has to be.
fn restore_by<J: Naming, W: Sink>(
    alloc: Global,
    drive: &mut Drive<J>,
    order: &Order<'_>,
    writer: &mut W,
) -> Result<(), Failure>
    requires writer { W.failures writer.old + 1 < 2 ^ 64 }
    ensures restores { OnOk result
        (RestoresBy drive.old drive.new order.now (W.passed writer.old) (W.passed writer.new)) }
{
    let mut session = drive.session(Role::Admin)?;
    let now = asked_at(drive, order.time, order.leap)?;
    let had = has_object(drive);
    restore_at(alloc, drive, &mut session, order, now, writer)?;
    check_left(drive, had, order.to_nothing)
}

// Restores a drive by changes that are asked for at a moment, and prints what was done. What is
// restored is chosen of the drive as it is before room is made.
fn restore_at<J: Naming, W: Sink>(
    alloc: Global,
    drive: &mut Drive<J>,
    session: &mut Session<J>,
    order: &Order<'_>,
    now: Moment,
    writer: &mut W,
) -> Result<(), Failure>
    requires writer { W.failures writer.old + 1 < 2 ^ 64 }
    ensures restores { OnOk result
        (RestoresAt drive.old drive.new order.now now (W.passed writer.old) (W.passed writer.new)) }
{
    let at = readable(drive, order.at)?;
    let chosen = chosen_by(alloc, drive, session, order, at)?;
    let chosen = chosen.as_slice();
    compact_for(alloc, drive, session, order.means)?;
    let moments = Moments { at, asked: now };
    restore_in_reach(alloc, drive, session, order, moments, chosen, writer)?;
    let form = Form { json: order.json };
    write_lines(alloc, &form, order.skipped, writer)
}
