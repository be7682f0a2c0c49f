ghost use Rattle.std.specs.Prelude.{◌≡◌};
ghost use Rattle.std.specs.List.{list_all};
ghost use Rattle.codec.specs.Summary.{is_whole, has_no_parts};

use crate::summaries::{BlockRole, Summary};
use block_log::BlockKind;

fn is_whole(role: &BlockRole) -> bool
    ensures { result ≡ is_whole role.now }
{
    match role.kind {
        BlockKind::Journal | BlockKind::Checkpoint | BlockKind::Data => true,
        BlockKind::Pointers => false,
    }
}

fn are_whole(roles: &[BlockRole]) -> bool
    ensures { result ≡ list_all is_whole roles.now }
{
    roles.iter().all(|role| is_whole(role))
}

/// Whether no used block is a part of a checkpoint: so in each image of the first version.
pub fn has_no_parts(summary: &Summary) -> bool
    ensures { result ≡ has_no_parts summary.now }
{
    are_whole(summary.roles())
}
