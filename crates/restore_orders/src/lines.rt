//! The lines of what was done, for people and for programs.
ghost use Rattle.std.specs.Prelude.{◌≡◌, ℕ, IfOk, codes, string_bytes};
ghost use Rattle.serde_json.specs.Data.{number, unsigned, string, member, no_members};
ghost use Rattle.serde_json.specs.View.{view, members_view};
ghost use Rattle.history_text.specs.Json.{json_line};
ghost use Rattle.restore_orders.specs.Lines.{done_data, hidden_data, hidden_json, hidden_line};
ghost use Rattle.restore_orders.specs.Lines.{hidden_text, planned_json, planned_line, planned_text};
ghost use Rattle.restore_orders.specs.Lines.{remade_data, restored_text, skipped_text, window_data};
ghost use Rattle.restore_orders.specs.Lines.{window_json, window_line, window_text};

use history_restore::{Plan, Restored};
use history_text::{json_line, no_members, object_of, with_number, with_text};
use s4_images::Prints;
use s4_types::{ObjectId, Span};
use serde_json::{Map, Value};
use std::alloc::{AllocError, Global};

// ---- objects that were restored

// An object's number, and what was done to it.
fn done_members(alloc: Global, object: u64, done: &str) -> Result<Map<String, Value>, AllocError>
    ensures { (o : ℕ) → object ≡ o → IfOk result (λ map. members_view map.entries
        ≡ member (codes "done") (string done.now)
        (member (codes "object") (number (unsigned o)) no_members)) }
{
    let made = with_number(alloc, no_members(alloc), "object", object);
    with_text(alloc, made, "done", done)
}

fn done_value(alloc: Global, object: u64, done: &str) -> Result<Value, AllocError>
    ensures { IfOk result (λ value. view value ≡ done_data object done.now) }
{
    object_of(done_members(alloc, object, done))
}

fn done_json(alloc: Global, object: u64, done: &str) -> Result<String, AllocError>
    ensures { IfOk result (λ line. string_bytes line ≡ json_line (done_data object done.now)) }
{
    let value = done_value(alloc, object, done)?;
    json_line(alloc, &value)
}

/// What a line for programs has of an object that was made anew.
pub fn remade_value(alloc: Global, object: u64, number: u64) -> Result<Value, AllocError>
    ensures { IfOk result (λ value. view value ≡ remade_data object number) }
{
    let made = done_members(alloc, object, "made anew");
    object_of(with_number(alloc, made, "number", number))
}

fn remade_json(alloc: Global, object: u64, number: u64) -> Result<String, AllocError>
    ensures { IfOk result (λ line. string_bytes line ≡ json_line (remade_data object number)) }
{
    let value = remade_value(alloc, object, number)?;
    json_line(alloc, &value)
}

fn planned_json(alloc: Global, object: u64, number: u64, plan: Plan) -> Result<String, AllocError>
    ensures { IfOk result (λ line. string_bytes line ≡ planned_json object number plan) }
{
    match plan {
        Plan::Keep => Ok(String::new(alloc)),
        Plan::Delete => done_json(alloc, object, "deleted"),
        Plan::Remake(_) => remade_json(alloc, object, number),
        Plan::Change(_) => done_json(alloc, object, "changed"),
    }
}

fn planned_line(alloc: Global, object: u64, number: u64, plan: Plan) -> Result<String, AllocError>
    ensures { IfOk result (λ line. string_bytes line ≡ planned_line object number plan) }
{
    match plan {
        Plan::Keep => Ok(String::new(alloc)),
        Plan::Delete => format!(in alloc; "{object:10}  deleted\n"),
        Plan::Remake(_) => format!(in alloc; "{object:10}  made anew as {number}\n"),
        Plan::Change(_) => format!(in alloc; "{object:10}  changed\n"),
    }
}

fn planned_text(
    alloc: Global,
    json: bool,
    object: u64,
    number: u64,
    plan: Plan,
) -> Result<String, AllocError>
    ensures { IfOk result (λ line. string_bytes line ≡ planned_text json object number plan) }
{
    if json {
        return planned_json(alloc, object, number, plan);
    }
    planned_line(alloc, object, number, plan)
}

/// How what was done is printed.
#[derive(Clone, Copy)]
pub(crate) struct Form {
    /// Whether lines are for programs.
    pub json: bool,
}

// What was restored under a number; no line where nothing was to be done.
impl Prints<Restored> for Form {
    ghost line = { λ form. restored_text form.json };

    fn line(&self, alloc: Global, restored: &Restored) -> Result<String, AllocError> {
        let (under, number) = (restored.aim.target.number(), restored.number.number());
        planned_text(alloc, self.json, under, number, restored.plan)
    }
}

// A number under which nothing can be restored.
impl Prints<ObjectId> for Form {
    ghost line = { λ form. skipped_text form.json };

    fn line(&self, alloc: Global, skipped: &ObjectId) -> Result<String, AllocError> {
        let object = skipped.number();
        if self.json {
            return done_json(alloc, object, "not restored");
        }
        format!(in alloc; "{object:10}  not restored\n")
    }
}

// ---- moments that are hidden

fn hidden_value(alloc: Global, span: Span) -> Result<Value, AllocError>
    ensures { IfOk result (λ value. view value ≡ hidden_data span) }
{
    let made = done_members(alloc, span.object.number(), "hidden");
    let made = with_number(alloc, made, "first", span.first.number());
    object_of(with_number(alloc, made, "last", span.last.number()))
}

fn hidden_json(alloc: Global, span: Span) -> Result<String, AllocError>
    ensures { IfOk result (λ line. string_bytes line ≡ hidden_json span) }
{
    let value = hidden_value(alloc, span)?;
    json_line(alloc, &value)
}

fn hidden_line(alloc: Global, span: Span) -> Result<String, AllocError>
    ensures { IfOk result (λ line. string_bytes line ≡ hidden_line span) }
{
    let object = span.object.number();
    let (first, last) = (span.first.number(), span.last.number());
    format!(in alloc; "{object:10}  hidden {first}-{last}\n")
}

/// The line of the moments that are hidden, if there are any.
pub(crate) fn hidden_text(
    alloc: Global,
    json: bool,
    hidden: Option<Span>,
) -> Result<String, AllocError>
    ensures { IfOk result (λ line. string_bytes line ≡ hidden_text json hidden) }
{
    match hidden {
        None => Ok(String::new(alloc)),
        Some(span) if json => hidden_json(alloc, span),
        Some(span) => hidden_line(alloc, span),
    }
}

// ---- the window

fn window_value(alloc: Global, before: u64, window: u64) -> Result<Value, AllocError>
    ensures { IfOk result (λ value. view value ≡ window_data before window) }
{
    let made = with_text(alloc, no_members(alloc), "done", "widened");
    let made = with_number(alloc, made, "from", before);
    object_of(with_number(alloc, made, "to", window))
}

fn window_json(alloc: Global, before: u64, window: u64) -> Result<String, AllocError>
    ensures { IfOk result (λ line. string_bytes line ≡ window_json before window) }
{
    let value = window_value(alloc, before, window)?;
    json_line(alloc, &value)
}

fn window_line(alloc: Global, before: u64, window: u64) -> Result<String, AllocError>
    ensures { IfOk result (λ line. string_bytes line ≡ window_line before window) }
{
    format!(in alloc; "window {before} widened to {window}; SetWindow {before} puts it back\n")
}

/// The line of a window that was widened, if it was.
pub(crate) fn window_text(
    alloc: Global,
    json: bool,
    before: u64,
    widened: Option<u64>,
) -> Result<String, AllocError>
    ensures { IfOk result (λ line. string_bytes line ≡ window_text json before widened) }
{
    match widened {
        None => Ok(String::new(alloc)),
        Some(window) if json => window_json(alloc, before, window),
        Some(window) => window_line(alloc, before, window),
    }
}
