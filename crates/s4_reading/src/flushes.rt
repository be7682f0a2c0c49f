//! The flushes that hid moments which a log asks for.
ghost use Rattle.std.specs.Prelude.{◌≡◌};
ghost use Rattle.s4_reading.specs.Logging.{hides, is_hiding_flush, is_flush, line_of_flush};

use crate::choosing::Chooses;
use crate::forms::Form;
use history_text::{audit_json, flush_line};
use history_view::{LogQuery, cuts};
use s4_images::Prints;
use s4_types::{AuditKind, AuditRow, Moment, Span};
use std::alloc::{AllocError, Global};

fn is_flush(kind: AuditKind) -> bool
    ensures { result ≡ is_flush kind }
{
    match kind {
        AuditKind::Flush | AuditKind::FlushO => true,
        AuditKind::Create
        | AuditKind::Delete
        | AuditKind::Write
        | AuditKind::Truncate
        | AuditKind::SetAttr
        | AuditKind::SetWindow => false,
    }
}

// Whether the moments that a row names, of its object or of all, are among those asked for.
fn hides(query: &LogQuery, row: &AuditRow) -> bool
    ensures { result ≡ hides query.now row.now }
{
    let run = Span {
        object: row.object,
        first: Moment::new(row.first),
        last: Moment::new(row.second),
    };
    cuts(&query.object, query.since, query.until, &run)
}

// The flushes that hid what is asked for, whatever kind, limit and order of the changes is.
impl Chooses for LogQuery {
    ghost chooses = { is_hiding_flush };

    fn chooses(&self, row: &AuditRow) -> bool {
        is_flush(row.kind) && hides(self, row)
    }
}

impl Prints<AuditRow> for Form {
    ghost line = { λ form. line_of_flush form.json form.style };

    fn line(&self, alloc: Global, row: &AuditRow) -> Result<String, AllocError> {
        if self.json {
            return audit_json(alloc, row, self.style);
        }
        flush_line(alloc, row, self.style)
    }
}
