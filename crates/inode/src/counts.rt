ghost use Rattle.std.specs.Prelude.{◌≡◌, ◌+◌, ◌≤◌};
ghost use Rattle.s4_types.specs.declared.limits.TheConstants.{OBJECT_BYTES};
ghost use Rattle.inode.specs.Touched.{touched_count, cut_count};

use codec::Inode;
use s4_types::limits::BLOCK_BYTES;

/// How many blocks a write of `len` bytes at an offset touches, and appends. None where it has no
/// bytes.
pub fn blocks_of_write(offset: u64, len: usize) -> usize
    requires { offset + len ≤ OBJECT_BYTES }
    ensures { result ≡ touched_count offset len }
{
    if len == 0 {
        return 0;
    }
    let offset = offset as usize;
    (offset + len - 1) / BLOCK_BYTES + 1 - offset / BLOCK_BYTES
}

/// How many blocks a truncation to `size` bytes appends: one where it cuts a block in two that
/// isn't a hole.
pub fn blocks_of_truncate(inode: &Inode, size: u32) -> usize
    requires { inode.now.size ≤ OBJECT_BYTES }
    ensures { result ≡ cut_count inode.now size }
{
    if size >= inode.size || size % 512 == 0 {
        return 0;
    }
    match inode.pointers[size as usize / BLOCK_BYTES] {
        Some(_) => 1,
        None => 0,
    }
}
