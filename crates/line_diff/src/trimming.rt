//! What two lists of lines begin with and end with alike.
ghost use Rattle.std.specs.Prelude.{◌≡◌, ◌≢◌, ◌<◌, map, length, MatchBool, string_bytes};
ghost use Rattle.line_diff.specs.Script.{line_at};
ghost use Rattle.line_diff.specs.private.Trimming.{IsFront, IsBack};

fn is_same(one: &[u8], other: &[u8]) -> bool
    ensures { MatchBool result (one.now ≡ other.now) (one.now ≢ other.now) }
{
    one == other
}

/// Whether two lists have the same line at two positions.
pub(crate) fn same_at(old: &[String], old_at: usize, new: &[String], new_at: usize) -> bool
    requires old { old_at < length old.now }
    requires new { new_at < length new.now }
    ensures { MatchBool result
        (line_at (map string_bytes old.now) old_at ≡ line_at (map string_bytes new.now) new_at)
        (line_at (map string_bytes old.now) old_at ≢ line_at (map string_bytes new.now) new_at) }
{
    is_same(old[old_at].as_bytes(), new[new_at].as_bytes())
}

/// How many lines both lists begin with.
pub(crate) fn common_front(old: &[String], new: &[String]) -> usize
    ensures { IsFront (map string_bytes old.now) (map string_bytes new.now) result }
{
    let end = old.len().min(new.len());
    for index in 0..end {
        if !same_at(old, index, new, index) {
            return index;
        }
    }
    end
}

/// How many lines both lists end with.
pub(crate) fn common_back(old: &[String], new: &[String]) -> usize
    ensures { IsBack (map string_bytes old.now) (map string_bytes new.now) result }
{
    let end = old.len().min(new.len());
    for count in 0..end {
        if !same_at(old, old.len() - count - 1, new, new.len() - count - 1) {
            return count;
        }
    }
    end
}
