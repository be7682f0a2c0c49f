ghost use Rattle.std.specs.Prelude.{◌≡◌, ℕ, MatchBool};
ghost use Rattle.image_parts.specs.Rows.{KeepsRowRules, KeepRowRules};
ghost use Rattle.image_parts.specs.Image.{header_of};

use crate::headers::Header;
use crate::parts::ImageParts;
use crate::rows::RowPart;
use s4_types::{Moment, ObjectId};

/// Whether a row keeps the rules after one of this object and creation.
fn keeps_rules(header: &Header, object: ObjectId, created: Moment, row: &RowPart) -> bool
    ensures { MatchBool result (KeepsRowRules header.now object created row.now)
        (KeepsRowRules header.now object created row.now → ⊥) }
{
    object.number() < row.object.number()
        && created.number() < row.created.number()
        && row.object.number() < header.next.number()
        && row.created.number() <= header.clock.number()
        && (row.checkpoint != 0 || row.checkpoint_moment.number() == 0)
}

/// Whether each row keeps the rules after the one before it.
pub fn rows_keep_rules(parts: &ImageParts<'_>) -> bool
    ensures { MatchBool result (KeepRowRules (header_of parts.now) parts.now.rows)
        (KeepRowRules (header_of parts.now) parts.now.rows → ⊥) }
{
    let header = parts.header();
    let mut object = ObjectId::new(0);
    let mut created = Moment::new(0);
    for row in parts.rows() {
        if !keeps_rules(&header, object, created, &row) {
            return false;
        }
        object = row.object;
        created = row.created;
    }
    true
}
