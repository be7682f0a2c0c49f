//! A script is played line by line.
ghost use Rattle.std.specs.Prelude.{◌<◌, ◌≤◌};
ghost use Rattle.std.specs.Bool.{OnTrue};
ghost use Rattle.s4_types.specs.Sizes.{IsFrameCount};
ghost use Rattle.checkpoint.specs.declared.cache.TheConstants.{CACHED_INODES as MOST_INODES};

use crate::acting::{perform_acting, perform_asking, perform_tidying, perform_upkeep};
use crate::commands::{Beginning, Command, Line, Verb, line_of};
use crate::comparing::{perform_comparing, watch, watch_line};
use crate::imaging::{new_image, perform_imaging};
use crate::looking::perform_look;
use crate::party::{Played, play_image, play_new};
use crate::sitting::{come, perform_sitting};
use crate::stage::Stage;
use crate::text::Text;
use crate::words::{byte_at, is_said};
use checkpoint::CACHED_INODES;
use s4_types::limits::{FEWEST_FRAMES, MOST_FRAMES};
use s4_types::{Refusal, Role};
use std::alloc::Global;
use std::str::from_utf8;
use std::thread::Threads;
use verifier::verify;

/// A drive that is made.
#[derive(Clone, Copy)]
pub(crate) struct Making {
    frames: usize,
    window: u64,
    inodes: usize,
    /// How many of its last frames are retired, where it is opened from such an image.
    retired: Option<usize>,
    /// Whether no plain drive is beside it.
    is_alone: bool,
}

/// What comes after a drive: the script's end, a new drive, or the one of the image that is kept.
#[derive(Clone, Copy)]
pub(crate) enum Start {
    End,
    New(Making),
    Image,
}

/// How scripts are played.
#[derive(Clone, Copy)]
pub(crate) struct Manner {
    /// Whether each command is printed with its answer.
    pub(crate) is_printed: bool,
    /// Whether the drive's counts are compared with a count anew after each step.
    pub(crate) is_counted: bool,
    /// How many inodes of checkpoints a new drive keeps, where its line doesn't say so.
    pub(crate) inodes: usize,
}

/// What came of a script.
pub(crate) struct Report {
    pub(crate) text: Text,
    pub(crate) lines: u64,
    pub(crate) differing: u64,
    pub(crate) is_broken: bool,
}

// Written by hand, so that an owner lets it go by one call.
impl Drop for Report {
    fn drop(self) {
        let Report {
            text: _,
            lines: _,
            differing: _,
            is_broken: _,
        } = self;
    }
}

/// A script that is played.
pub(crate) struct Player<'a> {
    name: &'a str,
    lines: &'a [&'a [u8]],
    next: usize,
    manner: Manner,
    stage: Stage,
    report: Report,
}

// Written by hand, so that an owner lets it go by one call.
impl<'a> Drop for Player<'a> {
    fn drop(self) {
        drop(self.into_report());
    }
}

/// Whether a drive can be made of this many frames, which keeps this many inodes of checkpoints at
/// most.
fn can_be_made(frames: usize, inodes: usize) -> bool
    ensures frames { OnTrue result (IsFrameCount frames) }
    ensures some { OnTrue result (0 < inodes) }
    ensures few { OnTrue result (inodes ≤ MOST_INODES) }
{
    (FEWEST_FRAMES..=MOST_FRAMES).contains(&frames) && (1..=CACHED_INODES).contains(&inodes)
}

/// Does what a command says, and tells what it is answered.
fn perform<D: Played, R: Threads>(
    rt: &R,
    stage: &mut Stage,
    drive: &mut D,
    command: &Command<'_>,
) -> Result<(), Refusal> {
    let asked = command.asked(drive.numbers().clock);
    match command.given.verb {
        Verb::Begin(_) => {
            stage.answer.done(false);
            Ok(())
        }
        Verb::Look(look) => perform_look(drive, look, &asked, &mut stage.answer),
        Verb::Compare(beside) => perform_comparing(stage, drive, beside),
        Verb::Hold(imaging) => perform_imaging(rt, stage, drive, imaging, &asked),
        Verb::Sit(sitting) => perform_sitting(stage, drive, sitting, &asked),
        Verb::Ask(asking) => perform_asking(stage, drive, asking, &asked),
        Verb::Act(acting) => perform_acting(stage, drive, acting, &asked),
        Verb::Step(upkeep) => perform_upkeep(stage, drive, upkeep, &asked),
        Verb::Tidy(tidying) => perform_tidying(stage, drive, tidying, &asked),
    }
}

/// Whether a command may change the drive.
fn is_step(verb: Verb) -> bool {
    matches!(
        verb,
        Verb::Sit(_) | Verb::Ask(_) | Verb::Act(_) | Verb::Step(_) | Verb::Tidy(_)
    )
}

/// Puts a refusal into the answer, but NoMemory, which stays one.
fn put_refusal(answer: &mut Text, performed: Result<(), Refusal>) -> Result<(), Refusal> {
    match performed {
        Err(refusal) if refusal != Refusal::NoMemory => {
            answer.refusal(refusal);
            Ok(())
        }
        performed => performed,
    }
}

/// Does a command. NoMemory where memory was refused.
fn try_command<D: Played, R: Threads>(
    rt: &R,
    stage: &mut Stage,
    drive: &mut D,
    command: &Command<'_>,
) -> Result<(), Refusal> {
    stage.begin_command()?;
    let performed = perform(rt, stage, drive, command);
    put_refusal(&mut stage.answer, performed)?;
    if is_step(command.given.verb) {
        watch(stage, drive)?;
    }
    stage.answer.check()
}

/// The same; what is refused memory is done once more where it can be. All is compared before that.
fn do_command<D: Played, R: Threads>(
    rt: &R,
    stage: &mut Stage,
    drive: &mut D,
    command: &Command<'_>,
) -> Result<(), Refusal> {
    match try_command(rt, stage, drive, command) {
        Err(Refusal::NoMemory) if !stage.is_spent => {
            stage.has_lacked = true;
            watch_line(stage, drive)?;
            try_command(rt, stage, drive, command)
        }
        done => done,
    }
}

/// Whether an answer passes where none is told.
fn is_good(told: &str) -> bool {
    !told.starts_with("Refused ") && !told.starts_with("Damaged ") && told != "Idle"
}

/// Whether an answer is the one that is expected. What is refused memory is compared once more.
fn is_expected(alloc: Global, told: &str, expected: &[u8]) -> Result<bool, Refusal> {
    match is_said(alloc, told, expected) {
        Err(_) => is_said(alloc, told, expected),
        compared => compared,
    }
}

/// What a line came to: what is expected of its last answer, or of the first that isn't right, and
/// whether that is right.
#[derive(Clone, Copy)]
struct Outcome<'a> {
    expected: Option<&'a [u8]>,
    is_right: bool,
}

/// Whether an answer is the one that is expected, or passes where none is.
fn judged<'a>(stage: &Stage, expected: Option<&'a [u8]>) -> Result<Outcome<'a>, Refusal> {
    let answer = stage.answer.whole()?;
    let is_right = match expected {
        Some(expected) => is_expected(stage.alloc, answer, expected)?,
        None => is_good(answer),
    };
    Ok(Outcome { expected, is_right })
}

/// Does a command, and judges its answer. Where it is done once more, what its line ends with may
/// come the last time alone.
fn judge_command<'a, D: Played, R: Threads>(
    rt: &R,
    stage: &mut Stage,
    drive: &mut D,
    command: &Command<'a>,
    is_awaited: bool,
) -> Result<Outcome<'a>, Refusal> {
    do_command(rt, stage, drive, command)?;
    let expected = if is_awaited { command.expected } else { None };
    let is_excused = match expected {
        Some(_) => stage.is_partial,
        None => stage.is_excused,
    };
    let mut outcome = judged(stage, expected)?;
    outcome.is_right = outcome.is_right || is_excused;
    Ok(outcome)
}

/// Does what a line says, up to the first answer that isn't right. Done where it has no command.
fn do_line<'a, D: Played, R: Threads>(
    rt: &R,
    stage: &mut Stage,
    drive: &mut D,
    line: &Line<'a>,
) -> Result<Outcome<'a>, Refusal> {
    stage.answer.begin()?;
    stage.answer.done(true);
    let mut outcome = Outcome {
        expected: None,
        is_right: true,
    };
    let commands = line.commands.as_slice();
    let times = line.times();
    let last = commands.len().saturating_sub(1);
    for time in 1..=times {
        for number in 0..commands.len() {
            let is_awaited = number < last || time == times;
            outcome = judge_command(rt, stage, drive, &commands[number], is_awaited)?;
            if !outcome.is_right || !stage.remark.is_empty() {
                return Ok(outcome);
            }
        }
    }
    watch_line(stage, drive)?;
    Ok(outcome)
}

impl<'a> Player<'a> {
    /// What came of its script.
    fn into_report(self) -> Report {
        let Player {
            name: _,
            lines: _,
            next: _,
            manner: _,
            stage: _,
            report,
        } = self;
        report
    }

    /// Prints some of a script.
    fn print(&mut self, bytes: &[u8]) {
        if let Ok(text) = from_utf8(bytes) {
            self.report.text.mark(text);
        }
    }

    /// Prints where a script is.
    fn print_place(&mut self) {
        self.report.text.mark(self.name);
        self.report.text.mark(":");
        self.report.text.digits(self.next as u64);
        self.report.text.mark(": ");
    }

    /// A line that says nothing is printed as it is.
    fn pass_over(&mut self, line: &[u8]) {
        if self.manner.is_printed {
            self.print(line);
            self.report.text.mark("\n");
        }
    }

    /// A line that is no command ends its script.
    fn break_off(&mut self, line: &[u8]) -> Option<Start> {
        self.print_place();
        self.report.text.mark("no command: ");
        self.print(line);
        self.report.text.mark("\n");
        self.report.is_broken = true;
        Some(Start::End)
    }

    /// Prints a line and what it was answered.
    fn print_answer(&mut self, line: &Line<'_>) {
        self.print(line.text);
        self.report.text.mark(" -> ");
        self.report.text.join(&self.stage.answer);
    }

    /// Says how a line differs.
    fn print_differing(&mut self, line: &Line<'_>, outcome: Outcome<'_>) {
        self.report.differing = self.report.differing.saturating_add(1);
        self.print_place();
        self.print_answer(line);
        if !self.stage.remark.is_empty() {
            self.report.text.mark(", and ");
            self.report.text.join(&self.stage.remark);
        }
        if let Some(expected) = outcome.expected {
            self.report.text.mark(", and not ");
            self.print(expected);
        }
        self.report.text.mark("\n");
    }

    /// Judges what a line was answered, and forgets what was remarked.
    fn judge(&mut self, line: &Line<'_>, outcome: Outcome<'_>) {
        self.report.lines = self.report.lines.saturating_add(1);
        if self.manner.is_printed {
            self.print_answer(line);
            self.report.text.mark("\n");
        }
        if !outcome.is_right || !self.stage.remark.is_empty() {
            self.print_differing(line, outcome);
            self.stage.remark.clear();
        }
    }

    /// The new drive that a command begins, where it can be made.
    fn making_of(&self, beginning: Beginning, command: &Command<'_>) -> Option<Start> {
        let [frames, window, third] = command.asked(0).numbers;
        let third = usize::try_from(third).unwrap_or(0);
        let making = Making {
            frames: usize::try_from(frames).unwrap_or(0),
            window,
            inodes: match beginning {
                Beginning::Caching => third,
                _ => self.manner.inodes,
            },
            retired: match beginning {
                Beginning::Retired => Some(third),
                _ => None,
            },
            is_alone: matches!(beginning, Beginning::Alone),
        };
        if !can_be_made(making.frames, making.inodes) {
            return None;
        }
        Some(Start::New(making))
    }

    /// The drive that a command begins; none where it is no such command, or is refused, which is
    /// told.
    fn start_of<R: Threads>(
        &self,
        rt: &R,
        beginning: Beginning,
        command: &Command<'_>,
    ) -> Result<Option<Start>, Refusal> {
        if !matches!(beginning, Beginning::Open) {
            return Ok(self.making_of(beginning, command));
        }
        drop(verify(rt, self.stage.alloc, self.stage.image.as_slice())?);
        Ok(Some(Start::Image))
    }

    /// Judges what a line that begins a drive was answered: Done, or a refusal.
    fn judge_start(
        &mut self,
        line: &Line<'_>,
        command: &Command<'_>,
        started: Result<Option<Start>, Refusal>,
    ) -> Result<Option<Start>, Refusal> {
        self.stage.answer.begin()?;
        match started {
            Ok(_) => self.stage.answer.done(true),
            Err(refusal) => self.stage.answer.refusal(refusal),
        }
        let outcome = judged(&self.stage, command.expected)?;
        self.judge(line, outcome);
        Ok(started.unwrap_or(None))
    }

    /// Begins another drive, and judges that.
    fn begin<R: Threads>(
        &mut self,
        rt: &R,
        beginning: Beginning,
        line: &Line<'_>,
        command: &Command<'_>,
    ) -> Result<Option<Start>, Refusal> {
        let started = match self.start_of(rt, beginning, command) {
            Err(Refusal::NoMemory) => self.start_of(rt, beginning, command),
            started => started,
        };
        match started {
            Ok(None) => Ok(self.break_off(line.text)),
            Err(Refusal::NoMemory) => Err(Refusal::NoMemory),
            _ => self.judge_start(line, command, started),
        }
    }

    /// Plays what a line says, and gives what begins then.
    fn play_commands<D: Played, R: Threads>(
        &mut self,
        rt: &R,
        drive: &mut D,
        line: &Line<'_>,
    ) -> Result<Option<Start>, Refusal> {
        if let [command] = line.commands.as_slice()
            && let Verb::Begin(beginning) = command.given.verb
        {
            return self.begin(rt, beginning, line, command);
        }
        let outcome = do_line(rt, &mut self.stage, drive, line)?;
        self.judge(line, outcome);
        Ok(None)
    }

    /// Plays a line, and gives what begins then.
    fn play_line<D: Played, R: Threads>(
        &mut self,
        rt: &R,
        drive: &mut D,
        text: &[u8],
    ) -> Result<Option<Start>, Refusal> {
        if text.is_empty() || byte_at(text, 0) == b'#' {
            self.pass_over(text);
            return Ok(None);
        }
        match read_line(self.stage.alloc, text)? {
            Some(line) => {
                let start = self.play_commands(rt, drive, &line);
                drop(line);
                start
            }
            None => Ok(self.break_off(text)),
        }
    }

    /// Makes a drive and plays on over it, and gives what comes then.
    fn play_made<R: Threads>(&mut self, rt: &R, made: Making) -> Result<Start, Refusal> {
        let window = if made.is_alone {
            None
        } else {
            Some(made.window)
        };
        self.stage.begin(window);
        if let Some(retired) = made.retired {
            let image = new_image(self.stage.alloc, made.frames, made.window, retired)?;
            return play_image(rt, self.stage.alloc, image.as_slice(), self);
        }
        if !can_be_made(made.frames, made.inodes) {
            return Ok(Start::End);
        }
        play_new(
            rt,
            self.stage.alloc,
            made.frames,
            made.window,
            made.inodes,
            self,
        )
    }

    /// Opens the image that is kept and plays on over its drive, and gives what comes then.
    fn play_kept<R: Threads>(&mut self, rt: &R) -> Result<Start, Refusal> {
        self.stage.begin(None);
        let image = Vec::from_slice(self.stage.alloc, self.stage.image.as_slice())?;
        play_image(rt, self.stage.alloc, image.as_slice(), self)
    }

    /// Plays on over the next drive, and gives what comes then.
    fn play_start<R: Threads>(&mut self, rt: &R, start: Start) -> Result<Start, Refusal> {
        match start {
            Start::New(made) => self.play_made(rt, made),
            Start::Image => self.play_kept(rt),
            Start::End => Ok(Start::End),
        }
    }

    /// Plays all, as drives come one after the other.
    fn play_all<R: Threads>(&mut self, rt: &R) -> Result<(), Refusal> {
        let mut start = Start::New(Making {
            frames: FEWEST_FRAMES,
            window: 100,
            inodes: self.manner.inodes,
            retired: None,
            is_alone: false,
        });
        for _ in 0..=self.lines.len() {
            start = self.play_start(rt, start)?;
            if matches!(start, Start::End) {
                break;
            }
        }
        Ok(())
    }

    /// Plays on over a drive, and gives what begins then.
    pub(crate) fn play<D: Played, R: Threads>(
        &mut self,
        rt: &R,
        drive: &mut D,
    ) -> Result<Start, Refusal> {
        welcome(&mut self.stage, drive, b"client", Role::Client)?;
        welcome(&mut self.stage, drive, b"admin", Role::Admin)?;
        watch(&mut self.stage, drive)?;
        let lines = self.lines;
        for place in self.next..lines.len() {
            self.next = place + 1;
            if let Some(start) = self.play_line(rt, drive, lines[place])? {
                return Ok(start);
            }
        }
        Ok(Start::End)
    }
}

/// What a line says. What is refused memory is read once more.
fn read_line<'a>(alloc: Global, text: &'a [u8]) -> Result<Option<Line<'a>>, Refusal> {
    match line_of(alloc, text) {
        Err(_) => line_of(alloc, text),
        line => line,
    }
}

/// Somebody comes to a new drive. Who is refused memory comes once more.
fn welcome<D: Played>(
    stage: &mut Stage,
    drive: &mut D,
    name: &[u8],
    role: Role,
) -> Result<(), Refusal> {
    match come(stage, drive, name, role) {
        Err(_) => come(stage, drive, name, role),
        came => came,
    }
}

/// The lines of a script, without spaces at their ends.
fn lines_of<'a>(alloc: Global, script: &'a str) -> Result<Vec<&'a [u8]>, Refusal> {
    let mut lines = Vec::new(alloc);
    for line in script.lines() {
        lines.push(line.as_bytes().trim_ascii())?;
    }
    Ok(lines)
}

/// Plays a script. Until it begins a drive, one of `FEWEST_FRAMES` and a window of 100 moments is
/// there.
pub(crate) fn play_script<R: Threads>(
    rt: &R,
    alloc: Global,
    name: &str,
    script: &str,
    manner: Manner,
) -> Result<Report, Refusal> {
    let lines = lines_of(alloc, script)?;
    let mut player = Player {
        name,
        lines: lines.as_slice(),
        next: 0,
        manner,
        stage: Stage::new(alloc, manner.is_counted),
        report: Report {
            text: Text::new(alloc),
            lines: 0,
            differing: 0,
            is_broken: false,
        },
    };
    let played = player.play_all(rt);
    let report = player.into_report();
    match played {
        Ok(()) => Ok(report),
        Err(refusal) => {
            drop(report);
            Err(refusal)
        }
    }
}
