//! To which size bytes are cut before others are written over them.
ghost use Rattle.std.specs.Prelude.{◌≡◌, ◌-◌, ◌≤◌, length};
ghost use Rattle.block_runs.specs.Runs.{IsSized, any_between, cut_size, differs, end_block};
ghost use Rattle.block_runs.specs.Runs.{is_cut_whole, kept};

use crate::running::differs;
use s4_types::limits::BLOCK_BYTES;

// Whether one of the bytes from an index on differs from what is there now.
fn differs_from(bytes: &[u8], now: &[u8], first: usize) -> bool
    requires { first ≤ length bytes.now }
    ensures { result ≡ any_between (differs bytes.now now.now) first (length bytes.now - first) }
{
    let mut index = bytes.len();
    while index > first {
        index -= 1;
        if differs(bytes, now, index) {
            return true;
        }
    }
    false
}

// Where the block begins in which this many bytes end.
fn end_block(size: usize) -> usize
    ensures start { result ≡ end_block size }
    ensures within { result ≤ size }
{
    size / BLOCK_BYTES * BLOCK_BYTES
}

// Whether longer bytes are cut in front of the block in which these end. It is written anyway where
// a byte that would stay differs, and need not be written twice.
pub(crate) fn is_cut_whole(bytes: &[u8], now: &[u8]) -> bool
    ensures { result ≡ is_cut_whole bytes.now now.now }
{
    let size = bytes.len();
    size < now.len() && differs_from(bytes, now, end_block(size))
}

// To how many bytes longer ones are cut.
fn cut_size(bytes: &[u8], now: &[u8]) -> usize
    ensures { result ≡ cut_size bytes.now now.now }
{
    if is_cut_whole(bytes, now) {
        end_block(bytes.len())
    } else {
        bytes.len()
    }
}

/// Where bytes that are there now are cut, so that they become these, or up to where they get
/// zeros.
pub fn cut_between(bytes: &[u8], now: &[u8]) -> Option<u64>
    ensures { IsSized bytes.now now.now result }
{
    let size = bytes.len();
    if size < now.len() {
        return Some(cut_size(bytes, now) as u64);
    }
    if now.len() < size && bytes[size - 1] == 0 {
        return Some(size as u64);
    }
    None
}

// What is there to be compared with these bytes: all, or what is in front of the block in which
// they end, where that is cut off.
pub(crate) fn kept<'a>(bytes: &[u8], now: &'a [u8]) -> &'a [u8]
    ensures { result.now ≡ kept bytes.now now.now }
{
    if is_cut_whole(bytes, now) {
        &now[..end_block(bytes.len())]
    } else {
        now
    }
}
