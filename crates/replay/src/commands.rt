//! The commands of a script.
use crate::words::{byte_at, bytes_of, count_from, count_of, parts_of, piece, place_of};
use s4_types::{Moment, ObjectId, Refusal, Role};
use std::alloc::Global;

/// What a session asks.
#[derive(Clone, Copy)]
pub(crate) enum Asking {
    Create,
    Delete,
    Write,
    Append,
    Truncate,
    SetAttr,
    SetWindow,
    Flush,
    FlushObject,
    Read,
    GetAttr,
    Audit,
}

/// What a session does beside that.
#[derive(Clone, Copy)]
pub(crate) enum Acting {
    Resolve,
    Fetch,
    Meet,
    Plan,
    Copy,
    Commit,
}

/// Steps of the drive.
#[derive(Clone, Copy)]
pub(crate) enum Upkeep {
    Seal,
    Checkpoint,
    Clean,
    Mark,
    Release,
}

/// What is done with the drive in more than one step, and with the pile of plans.
#[derive(Clone, Copy)]
pub(crate) enum Tidying {
    Pass,
    Turn,
    Empty,
    Move,
    Keep,
    Take,
    Drop,
    DropAll,
    CleanAudit,
}

/// What is looked at.
#[derive(Clone, Copy)]
pub(crate) enum Look {
    Clock,
    Floor,
    Window,
    Next,
    Room,
    Sees,
    Above,
    Row,
    Entries,
    Count,
    Entry,
    LastEntry,
    Inode,
    Distance,
    Held,
    Places,
    HeldCount,
    Recount,
    Frame,
    Word,
    Chosen,
    Rules,
}

/// What is compared with the plain drive.
#[derive(Clone, Copy)]
pub(crate) enum Beside {
    Alike,
    Watch,
}

/// What is done with the image.
#[derive(Clone, Copy)]
pub(crate) enum Imaging {
    Save,
    Saved,
    Zeros,
    Put,
    Cut,
    Add,
    TurnBit,
    Keep,
    Back,
    Sign,
    SignAll,
    Bytes,
    Verify,
    Turned,
    TurnedSigned,
}

/// Who comes and goes.
#[derive(Clone, Copy)]
pub(crate) enum Sitting {
    Come(Role),
    ComeMany(Role),
    End,
    EndBeside,
}

/// What begins another drive.
#[derive(Clone, Copy)]
pub(crate) enum Beginning {
    Drive,
    Alone,
    Caching,
    Retired,
    Open,
}

/// What a command does.
#[derive(Clone, Copy)]
pub(crate) enum Verb {
    Begin(Beginning),
    Sit(Sitting),
    Ask(Asking),
    Act(Acting),
    Step(Upkeep),
    Tidy(Tidying),
    Look(Look),
    Compare(Beside),
    Hold(Imaging),
}

/// How commands are encoded: `$` represents a name, `#` for a number, `%` for bytes, `[at]` and
/// `[now]` for such a word and a number, or for none.
static COMMANDS: [(&str, Verb); 82] = [
    ("drive # window #", Verb::Begin(Beginning::Drive)),
    ("drive # window # alone", Verb::Begin(Beginning::Alone)),
    ("drive # window # inodes #", Verb::Begin(Beginning::Caching)),
    (
        "drive # window # retired #",
        Verb::Begin(Beginning::Retired),
    ),
    ("open", Verb::Begin(Beginning::Open)),
    ("session $ client", Verb::Sit(Sitting::Come(Role::Client))),
    ("session $ admin", Verb::Sit(Sitting::Come(Role::Admin))),
    (
        "sessions $ # client",
        Verb::Sit(Sitting::ComeMany(Role::Client)),
    ),
    (
        "sessions $ # admin",
        Verb::Sit(Sitting::ComeMany(Role::Admin)),
    ),
    ("end $", Verb::Sit(Sitting::End)),
    ("end $ beside $", Verb::Sit(Sitting::EndBeside)),
    ("seal", Verb::Step(Upkeep::Seal)),
    ("checkpoint #", Verb::Step(Upkeep::Checkpoint)),
    ("clean #", Verb::Step(Upkeep::Clean)),
    ("mark #", Verb::Step(Upkeep::Mark)),
    ("release #", Verb::Step(Upkeep::Release)),
    ("pass", Verb::Tidy(Tidying::Pass)),
    ("turn", Verb::Tidy(Tidying::Turn)),
    ("empty", Verb::Tidy(Tidying::Empty)),
    ("move", Verb::Tidy(Tidying::Move)),
    ("take", Verb::Tidy(Tidying::Take)),
    ("drop", Verb::Tidy(Tidying::Drop)),
    ("drop all", Verb::Tidy(Tidying::DropAll)),
    ("clean_audit", Verb::Tidy(Tidying::CleanAudit)),
    ("clock", Verb::Look(Look::Clock)),
    ("floor", Verb::Look(Look::Floor)),
    ("window", Verb::Look(Look::Window)),
    ("next", Verb::Look(Look::Next)),
    ("room", Verb::Look(Look::Room)),
    ("sees # # #", Verb::Look(Look::Sees)),
    ("above #", Verb::Look(Look::Above)),
    ("row #", Verb::Look(Look::Row)),
    ("entries #", Verb::Look(Look::Entries)),
    ("count #", Verb::Look(Look::Count)),
    ("entry # #", Verb::Look(Look::Entry)),
    ("entry # last", Verb::Look(Look::LastEntry)),
    ("inode # #", Verb::Look(Look::Inode)),
    ("entries_to # #", Verb::Look(Look::Distance)),
    ("held # #", Verb::Look(Look::Held)),
    ("places # #", Verb::Look(Look::Places)),
    ("held_count #", Verb::Look(Look::HeldCount)),
    ("recount", Verb::Look(Look::Recount)),
    ("frame #", Verb::Look(Look::Frame)),
    ("word #", Verb::Look(Look::Word)),
    ("chosen", Verb::Look(Look::Chosen)),
    ("rules", Verb::Look(Look::Rules)),
    ("alike", Verb::Compare(Beside::Alike)),
    ("watch", Verb::Compare(Beside::Watch)),
    ("save", Verb::Hold(Imaging::Save)),
    ("saved", Verb::Hold(Imaging::Saved)),
    ("image #", Verb::Hold(Imaging::Zeros)),
    ("put # %", Verb::Hold(Imaging::Put)),
    ("cut #", Verb::Hold(Imaging::Cut)),
    ("add %", Verb::Hold(Imaging::Add)),
    ("turn_bit #", Verb::Hold(Imaging::TurnBit)),
    ("keep", Verb::Hold(Imaging::Keep)),
    ("back", Verb::Hold(Imaging::Back)),
    ("sign", Verb::Hold(Imaging::Sign)),
    ("sign all", Verb::Hold(Imaging::SignAll)),
    ("bytes # #", Verb::Hold(Imaging::Bytes)),
    ("verify", Verb::Hold(Imaging::Verify)),
    ("turned # #", Verb::Hold(Imaging::Turned)),
    ("turned # # sign", Verb::Hold(Imaging::TurnedSigned)),
    ("$ Create % [now]", Verb::Ask(Asking::Create)),
    ("$ Delete # [now]", Verb::Ask(Asking::Delete)),
    ("$ Write # # % [now]", Verb::Ask(Asking::Write)),
    ("$ Append # % [now]", Verb::Ask(Asking::Append)),
    ("$ Truncate # # [now]", Verb::Ask(Asking::Truncate)),
    ("$ SetAttr # % [now]", Verb::Ask(Asking::SetAttr)),
    ("$ SetWindow # [now]", Verb::Ask(Asking::SetWindow)),
    ("$ Flush # # [now]", Verb::Ask(Asking::Flush)),
    ("$ FlushO # # # [now]", Verb::Ask(Asking::FlushObject)),
    ("$ Read # # # [at] [now]", Verb::Ask(Asking::Read)),
    ("$ GetAttr # [at] [now]", Verb::Ask(Asking::GetAttr)),
    ("$ Audit # # [now]", Verb::Ask(Asking::Audit)),
    ("$ Resolve # # # [at] [now]", Verb::Act(Acting::Resolve)),
    ("$ Keep # # # [at] [now]", Verb::Tidy(Tidying::Keep)),
    ("$ Fetch", Verb::Act(Acting::Fetch)),
    ("$ Meet", Verb::Act(Acting::Meet)),
    ("$ Plan # #", Verb::Act(Acting::Plan)),
    ("$ Copy", Verb::Act(Acting::Copy)),
    ("$ Commit", Verb::Act(Acting::Commit)),
];

/// A number as a word encodes it: itself, or how far it is before or after the drive's clock.
#[derive(Clone, Copy)]
enum Number {
    Plain(u64),
    Before(u64),
    After(u64),
}

impl Number {
    /// The number, where the clock is this.
    fn at(self, clock: u64) -> u64 {
        match self {
            Number::Plain(number) => number,
            Number::Before(count) => clock.saturating_sub(count),
            Number::After(count) => clock.saturating_add(count),
        }
    }
}

/// The number that a word encodes.
fn number_of(word: &[u8]) -> Option<Number> {
    match byte_at(word, 0) {
        b'-' => Some(Number::Before(count_from(word, 1)?)),
        b'+' => Some(Number::After(count_from(word, 1)?)),
        _ => Some(Number::Plain(count_of(word)?)),
    }
}

/// What the words of a command give.
#[derive(Clone, Copy)]
pub(crate) struct Given<'a> {
    pub(crate) verb: Verb,
    /// How often it is done.
    pub(crate) times: u64,
    /// How many words were taken.
    taken: usize,
    name: &'a [u8],
    other: &'a [u8],
    /// The word that encodes bytes.
    coded: &'a [u8],
    numbers: [Number; 3],
    counted: usize,
    at: Option<Number>,
    now: Option<Number>,
}

/// A command that is done, and the answer that must come.
pub(crate) struct Command<'a> {
    pub(crate) given: Given<'a>,
    bytes: Vec<u8>,
    pub(crate) expected: Option<&'a [u8]>,
}

// Written by hand, so that an owner lets it go by one call.
impl<'a> Drop for Command<'a> {
    fn drop(self) {
        let Command {
            given: _,
            bytes: _,
            expected: _,
        } = self;
    }
}

/// What a command says beside its verb, where the drive's clock is known.
#[derive(Clone, Copy)]
pub(crate) struct Asked<'a> {
    pub(crate) name: &'a [u8],
    pub(crate) other: &'a [u8],
    pub(crate) bytes: &'a [u8],
    pub(crate) numbers: [u64; 3],
    /// The moment that is looked at; none for the present.
    pub(crate) at: Option<Moment>,
    /// The moment of the server's clock.
    pub(crate) now: Moment,
}

impl<'a> Asked<'a> {
    /// What is said of a move of an object's blocks out of a frame.
    pub(crate) fn of_move(frame: u16, object: ObjectId) -> Self {
        Asked {
            name: b"",
            other: b"",
            bytes: b"",
            numbers: [frame as u64, object.number(), 0],
            at: None,
            now: Moment::new(0),
        }
    }

    /// The first number as a place, and the one that is so many places after it.
    pub(crate) fn places(&self) -> (usize, usize) {
        let [begin, count, _] = self.numbers;
        let begin = place_of(begin);
        (begin, begin.saturating_add(place_of(count)))
    }
}

impl<'a> Command<'a> {
    /// What it says, where the clock is this.
    pub(crate) fn asked(&self, clock: u64) -> Asked<'_> {
        let given = self.given;
        let [first, second, third] = given.numbers;
        let now = given.now.unwrap_or(Number::Plain(0));
        Asked {
            name: given.name,
            other: given.other,
            bytes: self.bytes.as_slice(),
            numbers: [first.at(clock), second.at(clock), third.at(clock)],
            at: moment_at(given.at, clock),
            now: Moment::new(now.at(clock)),
        }
    }
}

/// The moment that is told, where the clock is this.
fn moment_at(number: Option<Number>, clock: u64) -> Option<Moment> {
    Some(Moment::new(number?.at(clock)))
}

impl<'a> Given<'a> {
    fn new(verb: Verb, times: u64, taken: usize) -> Self {
        Given {
            verb,
            times,
            taken,
            name: b"",
            other: b"",
            coded: b"",
            numbers: [Number::Plain(0); 3],
            counted: 0,
            at: None,
            now: None,
        }
    }

    /// Takes one more name.
    fn take_name(&mut self, word: &'a [u8]) {
        if self.name.is_empty() {
            self.name = word;
        } else {
            self.other = word;
        }
    }

    /// Takes one more number, if the word is one.
    fn take_number(&mut self, word: &[u8]) -> bool {
        let Some(number) = number_of(word) else {
            return false;
        };
        let counted = self.counted;
        if let Some(place) = self.numbers.get_mut(counted) {
            *place = number;
        }
        self.counted = counted.saturating_add(1);
        true
    }

    /// Takes a word and the number after it, where they come next.
    fn take_after(&mut self, name: &str, words: &[&[u8]]) -> Option<Number> {
        if word_at(words, self.taken) != name.as_bytes() {
            return None;
        }
        let number = number_of(word_at(words, self.taken.saturating_add(1)))?;
        self.taken = self.taken.saturating_add(2);
        Some(number)
    }

    /// Takes what a part of a pattern represents. Whether it is there.
    fn take(&mut self, part: &str, words: &[&'a [u8]]) -> bool {
        match part {
            "[at]" => self.at = self.take_after("at", words),
            "[now]" => self.now = self.take_after("now", words),
            _ => return self.take_word(part, word_at(words, self.taken)),
        }
        true
    }

    /// Takes a word as a part of a pattern says. Whether it fits. No part fits where no word is
    /// left.
    fn take_word(&mut self, part: &str, word: &'a [u8]) -> bool {
        self.taken = self.taken.saturating_add(1);
        match part {
            "#" => return self.take_number(word),
            "$" => self.take_name(word),
            "%" => self.coded = word,
            _ => return part.as_bytes() == word,
        }
        !word.is_empty()
    }

    /// Takes all words as a pattern says. Whether they fit it.
    fn take_all(&mut self, pattern: &str, words: &[&'a [u8]]) -> bool {
        for part in pattern.split_whitespace() {
            if !self.take(part, words) {
                return false;
            }
        }
        self.taken == words.len()
    }
}

/// What words give, if they encode a command.
fn find<'a>(words: &[&'a [u8]]) -> Option<Given<'a>> {
    let (times, taken) = times_of(words);
    for (pattern, verb) in &COMMANDS {
        let mut given = Given::new(*verb, times, taken);
        if given.take_all(pattern, words) {
            return Some(given);
        }
    }
    None
}

/// The word at a place; none of no bytes where there is none.
fn word_at<'a>(words: &[&'a [u8]], place: usize) -> &'a [u8] {
    match words.get(place) {
        Some(word) => word,
        None => b"",
    }
}

/// How often a command is done, and how many words say so.
fn times_of(words: &[&[u8]]) -> (u64, usize) {
    match count_of(word_at(words, 0)) {
        Some(count) if word_at(words, 1) == "times".as_bytes() => (count, 2),
        _ => (1, 0),
    }
}

/// What a text gives, if it encodes a command.
fn given_by<'a>(alloc: Global, text: &'a [u8]) -> Result<Option<Given<'a>>, Refusal> {
    let words = parts_of(alloc, text, b' ')?;
    Ok(find(words.as_slice()))
}

/// The command that a part of a line encodes, with its answer, if it encodes one. Only the first
/// part can say how often it is done.
fn command_of<'a>(
    alloc: Global,
    part: &'a [u8],
    is_first: bool,
) -> Result<Option<Command<'a>>, Refusal> {
    let (text, expected) = cut_answer(part);
    let Some(given) = given_by(alloc, text)? else {
        return Ok(None);
    };
    if given.times != 1 && !is_first {
        return Ok(None);
    }
    match bytes_of(alloc, given.coded)? {
        Some(bytes) => Ok(Some(Command {
            given,
            bytes,
            expected,
        })),
        None => Ok(None),
    }
}

/// A line of a script: commands that are done in turn, so often, and the line as it is before its
/// last answer.
#[derive(Drop)]
pub(crate) struct Line<'a> {
    pub(crate) commands: Vec<Command<'a>>,
    pub(crate) text: &'a [u8],
}

impl<'a> Line<'a> {
    /// How often its commands are done.
    pub(crate) fn times(&self) -> u64 {
        match self.commands.first() {
            Some(first) => first.given.times,
            None => 1,
        }
    }
}

/// The arrow before an answer.
const ARROW: &[u8] = b" -> ";

/// Where the arrow before an answer stands: the first one outside of quotes.
fn find_arrow(part: &[u8]) -> Option<usize> {
    let mut is_quoted = false;
    for place in 0..part.len() {
        is_quoted = is_quoted != (part[place] == b'"');
        if !is_quoted && piece(part, place, place.saturating_add(ARROW.len())) == ARROW {
            return Some(place);
        }
    }
    None
}

/// What is before the arrow, and the answer after it, if there is one.
fn cut_answer(part: &[u8]) -> (&[u8], Option<&[u8]>) {
    let Some(place) = find_arrow(part) else {
        return (part, None);
    };
    let answer = piece(part, place.saturating_add(ARROW.len()), part.len());
    (piece(part, 0, place), Some(answer.trim_ascii()))
}

/// Puts the commands of parts after others. Whether all are commands.
fn put_commands<'a>(
    alloc: Global,
    commands: &mut Vec<Command<'a>>,
    parts: &[&'a [u8]],
) -> Result<bool, Refusal> {
    for part in parts {
        match command_of(alloc, part, commands.is_empty())? {
            Some(command) => commands.push(command)?,
            None => return Ok(false),
        }
    }
    Ok(true)
}

/// A line without its last answer, where this is its last part.
fn without_answer<'a>(line: &'a [u8], last: &[u8]) -> &'a [u8] {
    let (text, _) = cut_answer(last);
    let answer = last.len().saturating_sub(text.len());
    piece(line, 0, line.len().saturating_sub(answer))
}

/// What a line says, if it has commands.
pub(crate) fn line_of<'a>(alloc: Global, line: &'a [u8]) -> Result<Option<Line<'a>>, Refusal> {
    let parts = parts_of(alloc, line, b';')?;
    let text = without_answer(line, parts.last().copied().unwrap_or(line));
    let mut commands = Vec::new(alloc);
    if !put_commands(alloc, &mut commands, parts.as_slice())? {
        return Ok(None);
    }
    Ok(Some(Line { commands, text }))
}
