//! The lines of a text.
ghost use Rattle.std.specs.Prelude.{◌≡◌, ◌++◌, [], ◌∷◌, map, IfOk, OnOk, string_bytes};
ghost use Rattle.line_diff.specs.Lines.{lines_of, last_line};

use std::alloc::{AllocError, Global};

// A line that a newline ends.
fn ended_line(alloc: Global, text: &str) -> Result<String, AllocError>
    ensures { IfOk result (λ line. string_bytes line ≡ text.now ++ 10 ∷ []) }
{
    let mut line = String::from_str(alloc, text)?;
    line.push_str("\n")?;
    Ok(line)
}

// Adds what follows the last newline, if anything does.
fn push_last(alloc: Global, lines: &mut Vec<String>, rest: &str) -> Result<(), AllocError>
    ensures { OnOk result
        (map string_bytes lines.new.items
        ≡ map string_bytes lines.old.items ++ last_line rest.now) }
{
    if rest.is_empty() {
        return Ok(());
    }
    let line = String::from_str(alloc, rest)?;
    lines.push(line)?;
    Ok(())
}

/// The lines of a text, each with the newline that ends it. What follows the last newline is a line
/// without one.
pub(crate) fn lines_of(alloc: Global, text: &str) -> Result<Vec<String>, AllocError>
    ensures { IfOk result (λ lines. map string_bytes lines.items ≡ lines_of text.now) }
{
    let mut lines = Vec::new(alloc);
    let mut rest = text;
    while let Some((line, after)) = rest.split_once('\n') {
        let line = ended_line(alloc, line)?;
        lines.push(line)?;
        rest = after;
    }
    push_last(alloc, &mut lines, rest)?;
    Ok(lines)
}
