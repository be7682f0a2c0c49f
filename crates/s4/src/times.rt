//! The times that a command asks for, as people are told of them.
use moment_words::{MomentStyle, MomentWord, ShownMoment, moment_of};
use s4_command::Command;
use s4_types::Moment;
use std::io::Write;

/// A time that a command asks for, in microseconds since 1970, and what asks for it.
#[derive(Clone, Copy)]
pub struct AskedTime {
    name: &'static str,
    time: u64,
}

/// The times that a command asks for. Those that were given as numbers aren't among them.
pub type AskedTimes = [Option<AskedTime>; 2];

/// The times that a command asks for.
pub fn times_of(command: &Command<'_>) -> AskedTimes {
    match command {
        Command::List(list) => [time_in("--at", list.at), None],
        Command::Cat(cat) => [time_in("--at", cat.at), None],
        Command::Export(export) => [time_in("--at", export.at), None],
        Command::Restore(restore) => [time_in("--at", Some(restore.at)), None],
        Command::Report(report) => [time_in("--since", report.since), None],
        Command::Log(log) => [time_in("--since", log.since), time_in("--until", log.until)],
        Command::Audit(audit) => [
            time_in("--since", audit.since),
            time_in("--until", audit.until),
        ],
        Command::Diff(diff) => [time_in("FROM", Some(diff.from)), time_in("TO", diff.to)],
        Command::Copy(copy) => [time_in("--without-created-since", copy.created_since), None],
        Command::Info(_) | Command::Check(_) | Command::Compact(_) | Command::Salvage(_) => {
            [None, None]
        }
    }
}

fn time_in(name: &'static str, word: Option<MomentWord>) -> Option<AskedTime> {
    match word {
        Some(MomentWord::Time(time)) => Some(AskedTime { name, time }),
        Some(MomentWord::Moment(_)) => None,
        None => None,
    }
}

/// Says as which moment of a drive, whose clock is there, a time is read.
pub fn say_time<E: Write>(errors: &mut E, asked: Option<AskedTime>, clock: Moment) {
    let Some(AskedTime { name, time }) = asked else {
        return;
    };
    let Some(moment) = moment_of(MomentWord::Time(time), clock.number()) else {
        return;
    };
    let shown = ShownMoment {
        moment,
        style: MomentStyle::Date,
    };
    let at = if moment < time {
        ", where the clock is"
    } else {
        ""
    };
    // A line that can't be written here can't be written anywhere.
    let _ = writeln!(errors, "s4: {name} is {shown}{at}");
}
