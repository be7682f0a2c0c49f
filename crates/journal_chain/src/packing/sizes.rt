//! What fits a journal block, and how many blocks a push appends, by sizes alone.
ghost use Rattle.std.specs.Prelude.{◌≡◌};
ghost use Rattle.journal_chain.specs.Sizes.{fits, filled_with, filled_after, blocks_needed};

use s4_types::limits::JOURNAL_ENTRY_BYTES;

/// Whether an entry of `size` bytes fits a journal block after entries of `filled` bytes: together
/// they have at most `JOURNAL_ENTRY_BYTES`. Of any two numbers.
pub fn fits(filled: usize, size: usize) -> bool
    ensures { result ≡ fits filled size }
{
    filled <= JOURNAL_ENTRY_BYTES && size <= JOURNAL_ENTRY_BYTES - filled
}

/// The bytes of entries in the newest block after one more entry, which begins a new block if it
/// doesn't fit.
fn filled_with(filled: usize, size: usize) -> usize
    ensures { result ≡ filled_with filled size }
{
    if fits(filled, size) {
        filled + size
    } else {
        size
    }
}

/// The bytes of entries in a chain's head after a push of entries of these sizes, in bytes, oldest
/// first. `filled` is what the head had before it, 0 where the chain had none.
pub fn filled_after(filled: usize, sizes: &[usize]) -> usize
    ensures { result ≡ filled_after filled sizes.now }
{
    let mut newest = filled;
    for size in sizes {
        newest = filled_with(newest, *size);
    }
    newest
}

/// How many journal blocks a push of entries of these sizes, in bytes, oldest first, appends: none
/// for no entry, and at most one an entry. `filled` is the bytes of entries in the chain's head, 0
/// where it has none. The head is counted where it is appended anew, with the first entry after its
/// others.
pub fn blocks_needed(filled: usize, sizes: &[usize]) -> usize
    ensures { result ≡ blocks_needed filled sizes.now }
{
    let Some((first, later)) = sizes.split_first() else {
        return 0;
    };
    let mut blocks = 1;
    let mut filled = filled_with(filled, *first);
    for size in later {
        if !fits(filled, *size) {
            blocks += 1;
        }
        filled = filled_with(filled, *size);
    }
    blocks
}
