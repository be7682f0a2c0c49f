//! The runs of neighbouring blocks that differ.
ghost use Rattle.std.specs.Prelude.{◌≡◌, ◌+◌, ◌^◌, ◌<◌, ◌==◌, ◌&&◌, ◌||◌, length, reverse};
ghost use Rattle.std.specs.Prelude.{IfOk, OnOk};
ghost use Rattle.block_runs.specs.Runs.{blocks_between, differs, runs_to, with_byte};

use crate::cuts::{is_cut_whole, kept};
use s4_types::limits::BLOCK_BYTES;
use std::alloc::{AllocError, Global};

/// Bytes by their place, in bytes: from the first to the last that is written of blocks that are
/// near each other.
#[derive(Clone, Copy)]
pub struct Run {
    pub offset: u64,
    /// The place after them.
    pub end: u64,
}

// Whether two lists differ at an index; past its end a list has zeros.
pub(crate) fn differs(bytes: &[u8], now: &[u8], index: usize) -> bool
    requires { index < length bytes.now }
    ensures { result ≡ differs bytes.now now.now index }
{
    let there = if index < now.len() { now[index] } else { 0 };
    bytes[index] != there
}

// Whether a byte is written over what is kept: it differs, or it is the last of those whose block
// was cut off.
fn is_put(bytes: &[u8], kept: &[u8], is_whole: bool, index: usize) -> bool
    requires { index < length bytes.now }
    ensures { result
        ≡ (differs bytes.now kept.now index || (is_whole && index + 1 == length bytes.now)) }
{
    differs(bytes, kept, index) || (is_whole && index + 1 == bytes.len())
}

// How many blocks lie between that of a byte and that of a later one.
fn blocks_between(index: u64, later: u64) -> u64
    requires { index < 2 ^ 63 }
    ensures { result ≡ blocks_between index later }
{
    let block = BLOCK_BYTES as u64;
    (later / block).saturating_sub(index / block + 1)
}

// Adds a byte in front of the last of these runs, which go down.
fn add_byte(runs: &mut Vec<Run>, gap: u64, index: u64) -> Result<(), AllocError>
    requires { index < 2 ^ 63 }
    ensures { OnOk result
        (reverse runs.new.items ≡ with_byte gap index (reverse runs.old.items)) }
{
    let one = Run {
        offset: index,
        end: index + 1,
    };
    match runs.pop() {
        None => {}
        Some(next) => {
            if blocks_between(index, next.offset) <= gap {
                runs.push(Run {
                    offset: index,
                    end: next.end,
                })?;
                return Ok(());
            }
            runs.push(next)?;
        }
    }
    runs.push(one)?;
    Ok(())
}

/// The runs of bytes that are written over what is there now, once that is cut, where a list that
/// is too short has zeros: ascending, from block to block. Two are one where no more than `gap`
/// blocks that are the same lie between.
pub fn runs_to(alloc: Global, bytes: &[u8], now: &[u8], gap: u64) -> Result<Vec<Run>, AllocError>
    ensures { IfOk result (λ runs. runs.items ≡ runs_to gap bytes.now now.now) }
{
    let is_whole = is_cut_whole(bytes, now);
    let there = kept(bytes, now);
    let mut runs = Vec::new(alloc);
    let mut index = bytes.len();
    while index > 0 {
        index -= 1;
        if is_put(bytes, there, is_whole, index) {
            add_byte(&mut runs, gap, index as u64)?;
        }
    }
    runs.reverse();
    Ok(runs)
}
