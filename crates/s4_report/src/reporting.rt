//! `report`: a page about a drive.
ghost use Rattle.std.specs.Prelude.{false};
ghost use Rattle.s4_report.specs.Reporting.{ReportsDrive};

use drive::Drive;
use history_diff::Stop;
use history_report::{ReportFault, write_report};
use s4_command::ReportAsked;
use s4_images::{DriveCommand, Failure, ImageCommand, Verdict, moment_given, unreadable};
use s4_types::{ObjectId, Refusal};
use segment_word::Naming;
use serving::Sink;
use std::alloc::Global;

/// `report`: writes the page about a drive.
#[derive(Clone, Copy)]
pub struct Reporting<'a>(pub &'a ReportAsked<'a>);

impl ImageCommand for Reporting<'_> {
    ghost file = { λ it. it.0.now.image.now };

    ghost as_numbers = { λ it. false };

    fn image(&self) -> &str {
        self.0.image
    }

    fn has_numbers(&self) -> bool {
        false
    }
}

impl DriveCommand for Reporting<'_> {
    ghost shows = { λ it d verdict. ReportsDrive d it.0.now verdict };

    fn perform<J: Naming, W: Sink>(
        &self,
        alloc: Global,
        drive: &mut Drive<J>,
        writer: &mut W,
    ) -> Result<Verdict, Failure> {
        let since = moment_given(drive, self.0.since)?;
        match write_report(alloc, drive, since, writer) {
            Ok(()) => Ok(Verdict::Fine),
            Err(fault) => Err(failure_of(drive, &fault)),
        }
    }
}

// The failure of a page that wasn't written to its end.
fn failure_of<J: Naming>(drive: &Drive<J>, fault: &ReportFault) -> Failure {
    match fault {
        ReportFault::Unreadable(moment) => unreadable(drive, ObjectId::new(0), *moment),
        ReportFault::Stopped(Stop::Refused(refusal)) => Failure::from(*refusal),
        ReportFault::Stopped(Stop::NoMemory) => Failure::from(Refusal::NoMemory),
        ReportFault::Stopped(Stop::WriteFailed) => Failure::WriteFailed,
    }
}
