//! The sessions of `run`, each a word of the line.
ghost use Rattle.std.specs.Prelude.{IfOk, IfSome, IfNone, IsErrOf};
ghost use Rattle.clap.specs.Walk.{Text, texts};
ghost use Rattle.s4d_command.specs.CommandLine.{IsCut, SpellsSession, SpellsSessions};

use crate::{CommandError, role_of};
use s4_types::Role;
use std::alloc::{AllocError, Global};

/// Sessions of one run, at most.
pub const MOST_SESSIONS: usize = 16;

/// A session of `run`: ROLE:IN:OUT.
#[derive(Clone, Copy)]
pub struct RunSession<'a> {
    /// What it may do.
    pub role: Role,
    /// The file of its requests. The text may be empty, and holds no colon.
    pub input: &'a str,
    /// The file of its replies.
    pub output: &'a str,
}

pub(crate) fn sessions_in<'a>(
    alloc: Global,
    words: &[&'a str],
) -> Result<Vec<RunSession<'a>>, CommandError>
    ensures spelled { IfOk result (λ sessions. SpellsSessions (texts words.now) sessions.items) }
    ensures usage { IsErrOf result CommandError.Usage → (sessions : _)
        → SpellsSessions (texts words.now) sessions → ⊥ }
{
    if words.is_empty() || words.len() > MOST_SESSIONS {
        return Err(CommandError::Usage);
    }
    let mut sessions = Vec::new(alloc);
    for word in words {
        let Some(session) = session_in(word) else {
            return Err(CommandError::Usage);
        };
        if sessions.push(session).is_err() {
            return Err(CommandError::NoMemory);
        }
    }
    Ok(sessions)
}

fn session_in<'a>(word: &'a str) -> Option<RunSession<'a>>
    ensures none { IfNone result ((session : _) → SpellsSession word.entry.now session → ⊥) }
    ensures some { IfSome result (SpellsSession word.entry.now) }
{
    let Some((role, rest)) = cut(word) else {
        return None;
    };
    let Some((input, output)) = cut(rest) else {
        return None;
    };
    match role_of(role) {
        Some(role) => Some(RunSession {
            role,
            input,
            output,
        }),
        None => None,
    }
}

fn cut<'a>(word: &'a str) -> Option<(&'a str, &'a str)>
    ensures none { IfNone result ((front back : Text) → IsCut word.entry.now front back → ⊥) }
    ensures some { IfSome result (λ parts. IsCut word.entry.now parts.0.now parts.1.now) }
{
    word.split_once(':')
}
