//! Plays scripts of plain text over the proved drive, with the history cleaner and the segment
//! copier, and the plain drive beside it: `replay [--print] [--recount] [--inodes N] [FILE..]`.
//! With `--recount` what the drive counts is compared with a count anew after each step; with
//! `--inodes N` a drive keeps the inodes of this many checkpoints at most, where its line doesn't
//! say how many.
//!
//! Each step of a script is taken by `interleaving::run`, which is proved to keep every version;
//! each line says what must be answered. What differs is printed, and then how many lines were
//! played and how many of them differ. The status is 0 where none does, 1 where some do, and 2
//! where the words, a file or a line of a script are none.
#![tactic(auto)]

mod acting;
mod commands;
mod comparing;
mod counting;
mod imaging;
mod looking;
mod party;
mod player;
mod sitting;
mod stage;
mod text;
mod words;

use checkpoint::CACHED_INODES;
use player::{Manner, Report, play_script};
use s4_types::Refusal;
use std::process::ExitCode;
use std::thread::Threads;
use std::{fs, io};
use words::count_of;

/// Why scripts couldn't be played to their end.
#[derive(Clone, Copy)]
enum Fault {
    NoMemory,
    NoOutput,
    /// This many inodes can't be kept.
    NoInodes,
    /// The script of this number among the words can't be read.
    NoScript(usize),
}

/// What all scripts came to.
#[derive(Clone, Copy)]
struct Sum {
    lines: u64,
    differing: u64,
    is_broken: bool,
}

/// Prints what came of a script, and counts it.
fn count(rt: &HostRuntime, sum: &mut Sum, report: &Report) -> Result<(), Fault> {
    sum.lines = sum.lines.saturating_add(report.lines);
    sum.differing = sum.differing.saturating_add(report.differing);
    sum.is_broken = sum.is_broken || report.is_broken;
    let Ok(text) = report.text.whole() else {
        return Err(Fault::NoMemory);
    };
    match print!(rt; "{text}") {
        Ok(()) => Ok(()),
        Err(_) => Err(Fault::NoOutput),
    }
}

/// Plays a script, and counts it.
fn play<T: Threads>(
    threads: &T,
    rt: &HostRuntime,
    sum: &mut Sum,
    name: &str,
    script: io::Result<String>,
    number: usize,
    manner: Manner,
) -> Result<(), Fault> {
    let script = match script {
        Ok(script) => script,
        Err(_) => return Err(Fault::NoScript(number)),
    };
    match play_script(threads, rt.alloc(), name, script.as_str(), manner) {
        Ok(report) => {
            let counted = count(rt, sum, &report);
            drop(report);
            counted
        }
        Err(_) => Err(Fault::NoMemory),
    }
}

/// Plays the scripts of the files that the words name from a place on, or the standard input.
fn play_all<T: Threads>(
    threads: &T,
    rt: &HostRuntime,
    sum: &mut Sum,
    words: &[String],
    first: usize,
    manner: Manner,
) -> Result<(), Fault> {
    if first >= words.len() {
        let script = io::read_to_string(rt.alloc(), rt.stdin());
        return play(threads, rt, sum, "-", script, 0, manner);
    }
    for place in first..words.len() {
        let file = words[place].as_str();
        let script = fs::read_to_string(rt, file);
        let number = place.saturating_sub(first);
        play(threads, rt, sum, file, script, number, manner)?;
    }
    Ok(())
}

/// The status that scripts came to.
fn status_of(sum: &Sum) -> u8 {
    if sum.is_broken {
        2
    } else if sum.differing > 0 {
        1
    } else {
        0
    }
}

/// The word at a place; an empty one where there is none.
fn word_at(words: &[String], place: usize) -> &str {
    match words.get(place) {
        Some(word) => word.as_str(),
        None => "",
    }
}

/// Takes a word where it comes next. Whether it does.
fn take_word(words: &[String], next: &mut usize, name: &str) -> bool {
    let is_there = word_at(words, *next) == name;
    if is_there {
        *next = next.saturating_add(1);
    }
    is_there
}

/// How many inodes a drive keeps by the words that come next.
fn take_inodes(words: &[String], next: &mut usize) -> Result<usize, Fault> {
    if !take_word(words, next, "--inodes") {
        return Ok(CACHED_INODES);
    }
    let number = count_of(word_at(words, *next).as_bytes());
    *next = next.saturating_add(1);
    match number {
        Some(number) if (1..=CACHED_INODES as u64).contains(&number) => Ok(number as usize),
        _ => Err(Fault::NoInodes),
    }
}

/// How scripts are played by the words that come next.
fn take_manner(words: &[String], next: &mut usize) -> Result<Manner, Fault> {
    Ok(Manner {
        is_printed: take_word(words, next, "--print"),
        is_counted: take_word(words, next, "--recount"),
        inodes: take_inodes(words, next)?,
    })
}

/// Plays the scripts that the words name, and prints what they came to.
fn perform<T: Threads>(threads: &T, rt: &HostRuntime, words: &[String]) -> Result<u8, Fault> {
    let mut next = 1;
    let manner = take_manner(words, &mut next)?;
    let mut sum = Sum {
        lines: 0,
        differing: 0,
        is_broken: false,
    };
    play_all(threads, rt, &mut sum, words, next, manner)?;
    let mark = if manner.is_printed { "# " } else { "" };
    match println!(rt; "{mark}{} lines, {} differ", sum.lines, sum.differing) {
        Ok(()) => Ok(status_of(&sum)),
        Err(_) => Err(Fault::NoOutput),
    }
}

/// Says why scripts couldn't be played. There is nobody to tell where that can't be written.
fn tell_fault(rt: &HostRuntime, words: &[String], fault: Fault) {
    let _ = match fault {
        Fault::NoMemory => eprintln!(rt; "replay: out of memory"),
        Fault::NoOutput => eprintln!(rt; "replay: cannot write"),
        Fault::NoInodes => eprintln!(rt;
            "replay: --inodes takes a number from 1 to {CACHED_INODES}"
        ),
        Fault::NoScript(number) => eprintln!(rt;
            "replay: cannot read file {}",
            number.saturating_add(1)
        ),
    };
}

fn words_of(rt: &HostRuntime) -> io::Result<Vec<String>> {
    let words = std::env::args(rt)?.collect(rt.alloc())?;
    Ok(words)
}

fn main(rt: HostRuntime) -> ExitCode {
    let Ok(words) = words_of(&rt) else {
        return ExitCode::from(2);
    };
    match perform(&rt, &rt, words.as_slice()) {
        Ok(status) => ExitCode::from(status),
        Err(fault) => {
            tell_fault(&rt, words.as_slice(), fault);
            ExitCode::from(2)
        }
    }
}
