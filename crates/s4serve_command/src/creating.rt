//! The drive that is made, where one is: both its frames and how long it keeps the past are given.
ghost use Rattle.std.specs.Prelude.{◌≡◌, ◌≤◌, ℕ, IfOk, OnErr, IfSome, IfNone, Some, codes, option_map};
ghost use Rattle.clap.specs.Walk.{first_of, rows_of};
ghost use Rattle.clap.specs.Matches.{found_of};
ghost use Rattle.s4d_command.specs.CommandLine.{IsNumber};
ghost use Rattle.s4serve_command.specs.CommandLine.{IsCreatedAt, IsCreation};

use crate::WordFault;
use clap::ArgMatches;
use s4_types::limits::{FEWEST_FRAMES, MOST_FRAMES};
use s4d_command::reading::{number_of, text_in};
use service_time::duration_of;

/// A drive that is made.
#[derive(Clone, Copy)]
pub struct Creation {
    /// How many frames it has, `FEWEST_FRAMES` to `MOST_FRAMES`.
    pub frames: u64,
    /// For how long it keeps the past, in microseconds: more than 0.
    pub keep: u64,
}

pub(crate) fn creation_in<'a>(matches: &ArgMatches<'a>) -> Result<Option<Creation>, WordFault<'a>>
    ensures asked { IfOk result (IsCreatedAt
        (first_of (codes "create") (rows_of (found_of matches.now)))
        (first_of (codes "keep") (rows_of (found_of matches.now)))) }
    ensures usage { OnErr result ((creation : _) → IsCreatedAt
        (first_of (codes "create") (rows_of (found_of matches.now)))
        (first_of (codes "keep") (rows_of (found_of matches.now))) creation → ⊥) }
{
    let frames = text_in(matches, "create");
    let keep = text_in(matches, "keep");
    creation_at(frames, keep)
}

fn creation_at<'a>(
    frames: Option<&'a str>,
    keep: Option<&'a str>,
) -> Result<Option<Creation>, WordFault<'a>>
    ensures asked { IfOk result (IsCreatedAt (option_map (λ text. text.now) frames.entry)
        (option_map (λ text. text.now) keep.entry)) }
    ensures usage { OnErr result ((creation : _)
        → IsCreatedAt (option_map (λ text. text.now) frames.entry)
        (option_map (λ text. text.now) keep.entry) creation → ⊥) }
{
    match (frames, keep) {
        (None, None) => Ok(None),
        (None, Some(_)) => Err(WordFault::KeepAlone),
        (Some(_), None) => Err(WordFault::CreateAlone),
        (Some(frames), Some(keep)) => match creation_of(frames, keep) {
            Ok(creation) => Ok(Some(creation)),
            Err(refusal) => Err(refusal),
        },
    }
}

fn creation_of<'a>(frames: &'a str, keep: &'a str) -> Result<Creation, WordFault<'a>>
    ensures asked { IfOk result (IsCreation frames.entry.now keep.entry.now) }
    ensures usage { OnErr result ((creation : _)
        → IsCreation frames.entry.now keep.entry.now creation → ⊥) }
{
    let Some(count) = frames_of(frames) else {
        return Err(WordFault::NoFrames { word: frames });
    };
    let Some(micros) = duration_of(keep) else {
        return Err(WordFault::NoDuration {
            name: "keep",
            word: keep,
        });
    };
    if micros == 0 {
        return Err(WordFault::NoWindow);
    }
    Ok(Creation {
        frames: count,
        keep: micros,
    })
}

fn frames_of(word: &str) -> Option<u64>
    ensures none { IfNone result ((n : ℕ) → IsNumber (Some word.now) n → FEWEST_FRAMES ≤ n
        → n ≤ MOST_FRAMES → ⊥) }
    ensures some { IfSome result (IsNumber (Some word.now)) }
    ensures fewest { IfSome result (λ n. FEWEST_FRAMES ≤ n) }
    ensures most { IfSome result (λ n. n ≤ MOST_FRAMES) }
{
    let frames = number_of(word)?;
    if frames < FEWEST_FRAMES as u64 || frames > MOST_FRAMES as u64 {
        return None;
    }
    Some(frames)
}
