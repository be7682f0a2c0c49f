//! Which lines between two anchors may be the same ones.

use crate::places::{Place, further};
use std::alloc::{AllocError, Global};

/// Cells of the table over two runs of lines, at most. Where it would have more, they are taken as
/// different: so time and memory don't grow with the product of their lengths.
const TABLE_CELLS: usize = 65_536;

// How many keys two lists begin with alike.
fn alike_front(old: &[u64], new: &[u64]) -> usize {
    old.iter()
        .zip(new.iter())
        .take_while(|(one, other)| **one == **other)
        .count()
}

// How many keys two lists end with alike.
fn alike_back(old: &[u64], new: &[u64]) -> usize {
    old.iter()
        .rev()
        .zip(new.iter().rev())
        .take_while(|(one, other)| **one == **other)
        .count()
}

// Adds this many places, one after the other.
fn push_run(matches: &mut Vec<Place>, from: Place, lines: usize) -> Result<(), AllocError> {
    for line in 0..lines {
        matches.push(further(from, line))?;
    }
    Ok(())
}

/// Adds places at which the keys from one place to another are the same.
pub(crate) fn push_gap(
    alloc: Global,
    matches: &mut Vec<Place>,
    old: &[u64],
    new: &[u64],
    from: Place,
    to: Place,
) -> Result<(), AllocError> {
    let Some(old) = old.get(from.old..to.old) else {
        return Ok(());
    };
    let Some(new) = new.get(from.new..to.new) else {
        return Ok(());
    };
    let front = alike_front(old, new);
    push_run(matches, from, front)?;
    push_middle(alloc, matches, old, new, from, front)
}

// Adds places after those keys that two lists begin with alike.
fn push_middle(
    alloc: Global,
    matches: &mut Vec<Place>,
    old: &[u64],
    new: &[u64],
    from: Place,
    front: usize,
) -> Result<(), AllocError> {
    let old = old.get(front..).unwrap_or(&[]);
    let new = new.get(front..).unwrap_or(&[]);
    let back = alike_back(old, new);
    let old_count = old.len().saturating_sub(back);
    let new_count = new.len().saturating_sub(back);
    let old_middle = old.get(..old_count).unwrap_or(&[]);
    let new_middle = new.get(..new_count).unwrap_or(&[]);
    let middle = further(from, front);
    push_common(alloc, matches, old_middle, new_middle, middle)?;
    let back_from = Place {
        old: middle.old.saturating_add(old_count),
        new: middle.new.saturating_add(new_count),
    };
    push_run(matches, back_from, back)
}

// A row of the table: for each key of the new list, the last one first, how long the longest run of
// keys is that the new list from there on has in common with the old list from this key on. Below
// is the row of the next old key.
fn table_row(
    alloc: Global,
    old_key: u64,
    new: &[u64],
    below: &[u32],
) -> Result<Vec<u32>, AllocError> {
    let mut row: Vec<u32> = Vec::new(alloc);
    let mut right = 0;
    row.push(right)?;
    for (index, key) in new.iter().rev().enumerate() {
        let slant = cell(below, index).saturating_add(1);
        let under = cell(below, index.saturating_add(1));
        right = if *key == old_key {
            slant
        } else {
            under.max(right)
        };
        row.push(right)?;
    }
    Ok(row)
}

fn cell(row: &[u32], index: usize) -> u32 {
    row.get(index).copied().unwrap_or(0)
}

// The rows for each key of the old list, the last one first.
fn table_of(alloc: Global, old: &[u64], new: &[u64]) -> Result<Vec<Vec<u32>>, AllocError> {
    let mut rows: Vec<Vec<u32>> = Vec::new(alloc);
    for key in old.iter().rev() {
        let below: &[u32] = match rows.last() {
            Some(row) => row.as_slice(),
            None => &[],
        };
        let row = table_row(alloc, *key, new, below)?;
        rows.push(row)?;
    }
    Ok(rows)
}

// How long the longest common run is from these positions on.
fn common_from(rows: &[Vec<u32>], old_left: usize, new_left: usize) -> u32 {
    let row = old_left.checked_sub(1).and_then(|at| rows.get(at));
    match row {
        Some(row) => cell(row.as_slice(), new_left),
        None => 0,
    }
}

// Adds the places of a longest run of keys that two lists have in common, if the table for them
// isn't too large.
fn push_common(
    alloc: Global,
    matches: &mut Vec<Place>,
    old: &[u64],
    new: &[u64],
    from: Place,
) -> Result<(), AllocError> {
    if old.len().saturating_mul(new.len()) > TABLE_CELLS {
        return Ok(());
    }
    let rows = table_of(alloc, old, new)?;
    let mut at = Place { old: 0, new: 0 };
    for _ in 0..old.len().saturating_add(new.len()) {
        let (Some(old_key), Some(new_key)) = (old.get(at.old), new.get(at.new)) else {
            break;
        };
        if *old_key == *new_key {
            matches.push(sum_of(from, at))?;
        }
        let (old_left, new_left) = (old.len() - at.old, new.len() - at.new);
        at = step(
            rows.as_slice(),
            at,
            old_left,
            new_left,
            *old_key == *new_key,
        );
    }
    Ok(())
}

// A place that is counted from another.
fn sum_of(from: Place, at: Place) -> Place {
    Place {
        old: from.old.saturating_add(at.old),
        new: from.new.saturating_add(at.new),
    }
}

// The next place on the way of the longest run.
fn step(rows: &[Vec<u32>], at: Place, old_left: usize, new_left: usize, same: bool) -> Place {
    if same {
        return further(at, 1);
    }
    let without_old = common_from(rows, old_left.saturating_sub(1), new_left);
    let without_new = common_from(rows, old_left, new_left.saturating_sub(1));
    if without_old >= without_new {
        Place {
            old: at.old.saturating_add(1),
            new: at.new,
        }
    } else {
        Place {
            old: at.old,
            new: at.new.saturating_add(1),
        }
    }
}
