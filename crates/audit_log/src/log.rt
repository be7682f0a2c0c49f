ghost use Rattle.std.specs.Prelude.{◌≡◌, ◌<◌, ◌≤◌, [], ◌∷◌, ◌++◌, take, length, slice_range};
ghost use Rattle.std.specs.Prelude.{IfOk, IfErr, OnOk};
ghost use Rattle.std.specs.List.{AllByRecursion};
ghost use Rattle.s4_types.specs.declared.refusals.Refusal.TheVariants.{NoMemory};
ghost use Rattle.s4_model.specs.Audit.{rows_from};
ghost use Rattle.audit_log.specs.Log.{begins_below};
ghost use Rattle.s4_model.specs.Audit.{MomentsAscend};

use s4_types::{AuditRow, AuditRows, Moment, Refusal};
use std::alloc::Global;
use std::collections::VecDeque;
use std::marker::Model;

/// Rows by ascending moments. Contracts see the rows, and for how many more there is room.
#[derive(Drop)]
pub struct AuditLog {
    alloc: Global,
    rows: VecDeque<AuditRow>,
}

impl Model for AuditLog {
    ghost use Rattle.std.specs.Prelude.{◌-◌};
    ghost use Rattle.std.specs.VecDeque.{deque_len, deque_capacity};
    ghost use Rattle.audit_log.specs.Log.{LogFields};
    ghost use Rattle.s4_model.specs.Audit.{MomentsAscend};

    ghost Value = { LogFields };

    ghost view = { λ l. record { rows = l.rows.items; room = deque_capacity l.rows - deque_len l.rows } };

    ghost invariant = { λ l. MomentsAscend l.rows.items };
}

/// Whether the first row is below a moment.
fn begins_below(rows: &VecDeque<AuditRow>, floor: Moment) -> bool
    ensures { result ≡ begins_below floor rows.now.items }
{
    match rows.front() {
        Some(row) => row.moment < floor,
        None => false,
    }
}

/// Drops the rows below a moment, one after the other.
fn cut(rows: &mut VecDeque<AuditRow>, floor: Moment)
    requires { MomentsAscend rows.old.items }
    ensures rows { rows.new.items ≡ rows_from floor rows.old.items }
    ensures ascend { MomentsAscend rows.new.items }
{
    while begins_below(rows, floor) {
        let _row = rows.pop_front();
    }
}

/// A copy of the rows from one place to another.
fn copy_range(
    alloc: Global,
    rows: &VecDeque<AuditRow>,
    start: usize,
    end: usize,
) -> Result<Vec<AuditRow>, Refusal>
    requires ordered { start ≤ end }
    requires inside { end ≤ length rows.now.items }
    ensures ok { IfOk result (λ copied. copied.items ≡ slice_range rows.now.items start end) }
    ensures err { IfErr result (λ refusal. refusal ≡ NoMemory) }
{
    let copied = rows.range(start..end).copied().collect(alloc)?;
    Ok(copied)
}

impl AuditLog {
    /// No rows. Takes no memory.
    pub fn new(alloc: Global) -> Self
        ensures { result.rows ≡ [] }
    {
        AuditLog {
            alloc,
            rows: VecDeque::new(alloc),
        }
    }

    /// Makes room for one more row. NoMemory leaves the rows as they were.
    pub fn reserve(&mut self) -> Result<(), Refusal>
        ensures rows { self.new.rows ≡ self.old.rows }
        ensures room { OnOk result (0 < self.new.room) }
        ensures err { IfErr result (λ refusal. refusal ≡ NoMemory) }
    {
        self.rows.reserve(1)?;
        Ok(())
    }

    /// Adds a row that is later than all others, in room that was made before.
    pub fn push(&mut self, row: AuditRow)
        requires room { 0 < self.old.room }
        requires later { AllByRecursion (λ other. other.moment < row.moment) self.old.rows }
        ensures { self.new.rows ≡ self.old.rows ++ row ∷ [] }
    {
        self.rows.push_back_reserved(row);
    }

    /// Drops the rows below a moment. Takes no memory. Linear in the rows that go.
    pub fn cut(&mut self, floor: Moment)
        ensures { self.new.rows ≡ rows_from floor self.old.rows }
    {
        cut(&mut self.rows, floor);
    }

    /// All rows from a moment on, in memory of their own. NoMemory alone.
    pub fn all_from(&self, from: Moment) -> Result<AuditRows, Refusal>
        ensures ok { IfOk result (λ rows. rows ≡ rows_from from self.now.rows) }
        ensures ascend { IfOk result MomentsAscend }
        ensures err { IfErr result (λ refusal. refusal ≡ NoMemory) }
    {
        let start = self.rows.partition_point(|row| row.moment < from);
        let rows = copy_range(self.alloc, &self.rows, start, self.rows.len())?;
        Ok(AuditRows::from_vec(rows))
    }

    /// The first rows from a moment on, at most this many. NoMemory alone. Logarithmic in the rows
    /// that there are, and linear in those that are answered.
    pub fn rows_from(&self, from: Moment, most: u16) -> Result<AuditRows, Refusal>
        ensures ok { IfOk result (λ rows. rows ≡ take most (rows_from from self.now.rows)) }
        ensures err { IfErr result (λ refusal. refusal ≡ NoMemory) }
    {
        let before = self.rows.partition_point(|row| row.moment < from);
        let rest = self.rows.len() - before;
        let end = before + rest.min(usize::from(most));
        let rows = copy_range(self.alloc, &self.rows, before, end)?;
        Ok(AuditRows::from_vec(rows))
    }
}
