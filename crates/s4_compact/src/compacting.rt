//! `compact`: room is made in a drive.
ghost use Rattle.std.specs.Prelude.{◌≡◌, ℕ, ◌+◌, ◌^◌, ◌<◌, List, IfErr, OnErr, OnOk};
ghost use Rattle.std.specs.Io.KnownBytes.{Appends, Keeps};
ghost use Rattle.drive.specs.Fields.{state_in, store_of};
ghost use Rattle.drive.specs.Keeping.{KeepsVersions};
ghost use Rattle.drive_compaction.specs.Passing.{PassesOver};
ghost use Rattle.drive_compaction.specs.declared.passing.FullPass.TheVariants.{Made};
ghost use Rattle.s4_images.specs.Commands.{ChangesImage};
ghost use Rattle.s4_compact.specs.Compacting.{printed, Compacts, Finishes};
ghost use Rattle.s4_compact.specs.Trying.{CompactsBest, CompactsImage};

use crate::reports::{Report, printed};
use crate::trying::{Found, best_way, is_enough, try_ways};
use crate::ways::{Way, compact_drive};
use drive::Drive;
use drive_compaction::{FullPass, data_blocks, pass_over, past_blocks};
use image_commands::{Files, Placed, write_out};
use s4_command::CompactAsked;
use s4_images::{CommandOutput, DriveChange, Failure, change_image};
use s4_types::Refusal;
use segment_word::Naming;
use serving::Sink;
use std::alloc::Global;
use std::thread::Threads;

/// Compacts the drive of an image, saves it there, and prints what that came to. Three trials come
/// first, of which nothing is kept: with the cleaner, by moves alone, and with the cleaner after
/// moves alone; after each a full pass is tried. What leaves the most blocks is made, with the
/// cleaner where that is the same. The full pass is made where it leaves no fewer blocks: then just
/// those data blocks are held that can be read. Where it is refused for too little room, or costs
/// some, the drive is saved as the compaction left it. So no image has less room afterwards, nor
/// less of its reserve. Where anything fails all files are as they were.
#[tactic(auto, using(s4_images::proofs::Kept::untouched))]
pub fn compact_image<T: Threads, F: Files, W: CommandOutput>(
    rt: &T,
    alloc: Global,
    files: &mut F,
    asked: &CompactAsked<'_>,
    writer: &mut W,
) -> Result<Placed, Failure>
    requires writer { W.failures writer.old + 1 < 2 ^ 64 }
    ensures compacts { OnOk result (ChangesImage (F.contents files.old asked.now.image.now)
        (F.contents files.new asked.now.image.now) (λ drive later. Compacts drive later asked.now
        (W.passed writer.old) (W.passed writer.new))) }
    ensures tried { OnOk result (CompactsImage (F.contents files.old asked.now.image.now)
        (F.contents files.new asked.now.image.now) asked.now (W.passed writer.old)
        (W.passed writer.new)) }
    ensures kept { OnErr result ((path : List ℕ) → Keeps (F.contents files.old path)
        (F.contents files.new path)) }
{
    let found = try_ways(rt, alloc, files, asked.image)?;
    compact_by(rt, alloc, files, asked, best_way(&found), &found, writer)
}

// Compacts the drive of an image this way, saves it there, and prints what that came to. NoRoom
// where another way's trial left more blocks.
fn compact_by<T: Threads, F: Files, W: CommandOutput>(
    rt: &T,
    alloc: Global,
    files: &mut F,
    asked: &CompactAsked<'_>,
    way: Way,
    found: &Found,
    writer: &mut W,
) -> Result<Placed, Failure>
    requires writer { W.failures writer.old + 1 < 2 ^ 64 }
    ensures by { OnOk result (ChangesImage (F.contents files.old asked.now.image.now)
        (F.contents files.new asked.now.image.now) (λ drive later. CompactsBest way found.now drive
        later asked.now (W.passed writer.old) (W.passed writer.new))) }
    ensures compacts { OnOk result (ChangesImage (F.contents files.old asked.now.image.now)
        (F.contents files.new asked.now.image.now) (λ drive later. Compacts drive later asked.now
        (W.passed writer.old) (W.passed writer.new))) }
    ensures kept { OnErr result ((path : List ℕ) → Keeps (F.contents files.old path)
        (F.contents files.new path)) }
{
    change_image(
        rt,
        alloc,
        files,
        asked.image,
        &Compacting { asked, way, found },
        writer,
    )
}

/// What `compact` asks for, by the way that serves best.
#[derive(Clone, Copy)]
struct Compacting<'a> {
    asked: &'a CompactAsked<'a>,
    way: Way,
    found: &'a Found,
}

impl DriveChange for Compacting<'_> {
    ghost changes = { λ it d later. CompactsBest it.way it.found.now d later it.asked.now };

    fn make<J: Naming, W: Sink>(
        &self,
        alloc: Global,
        drive: &mut Drive<J>,
        writer: &mut W,
    ) -> Result<(), Failure> {
        let Some(trial) = self.found.trial_of(self.way) else {
            return Err(Failure::from(Refusal::NoRoom));
        };
        let compaction = compact_drive(alloc, drive, self.way)?;
        finish(alloc, drive, trial.pass)?;
        let compaction = compaction.as_left(drive);
        if !is_enough(self.way, self.found, compaction.left_after) {
            return Err(Failure::from(Refusal::NoRoom));
        }
        let report = Report {
            cleans: self.way.cleans(),
            compaction,
            pass: trial.pass,
            data_blocks: data_blocks(drive),
            past: past_blocks(drive),
        };
        write_report(alloc, &report, self.asked.json, writer)
    }
}

// What follows a compaction: the full pass, where one that was tried left no fewer blocks. Else the
// drive stays as it is.
fn finish<J: Naming>(alloc: Global, drive: &mut Drive<J>, pass: FullPass) -> Result<(), Refusal>
    ensures finishes { OnOk result (Finishes pass drive.old drive.new) }
    ensures refusal { IfErr result (λ _. pass ≡ Made) }
    ensures ledger { drive.new.ledger ≡ drive.old.ledger }
    ensures needed { KeepsVersions (state_in drive.old) (store_of drive.old) (store_of drive.new) }
{
    match pass {
        FullPass::Made => make_pass(alloc, drive),
        FullPass::CostsRoom | FullPass::Refused => Ok(()),
    }
}

// Makes a full pass. NoRoom where it costs room or is refused.
fn make_pass<J: Naming>(alloc: Global, drive: &mut Drive<J>) -> Result<(), Refusal>
    ensures passed { OnOk result (PassesOver Made drive.old drive.new) }
    ensures ledger { drive.new.ledger ≡ drive.old.ledger }
    ensures needed { KeepsVersions (state_in drive.old) (store_of drive.old) (store_of drive.new) }
{
    match pass_over(alloc, drive)? {
        FullPass::Made => Ok(()),
        FullPass::CostsRoom | FullPass::Refused => Err(Refusal::NoRoom),
    }
}

// Writes what a compaction came to.
fn write_report<W: Sink>(
    alloc: Global,
    report: &Report,
    json: bool,
    writer: &mut W,
) -> Result<(), Failure>
    requires writer { W.failures writer.old + 1 < 2 ^ 64 }
    ensures text { OnOk result (Appends (W.passed writer.old) (W.passed writer.new)
        (printed json report.now)) }
{
    let text = match printed(alloc, json, report) {
        Ok(text) => text,
        Err(_) => return Err(Failure::from(Refusal::NoMemory)),
    };
    write_out(writer, text.as_bytes())?;
    Ok(())
}
