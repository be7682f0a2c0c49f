//! What the payload blocks of one frame are.
ghost use Rattle.std.specs.Prelude.{◌≡◌, ℕ, ◌+◌, ◌-◌, ◌^◌, ◌<◌, ◌≤◌, true, cond, nat_lt, [], ◌∷◌};
ghost use Rattle.std.specs.Prelude.{◌++◌, length, map, option_map, replicate, slice_set, slice_get};
ghost use Rattle.std.specs.Prelude.{slice_index_or, IfOk, IfErr};
ghost use Rattle.s4_types.specs.declared.refusals.Refusal.TheVariants.{NoMemory};
ghost use Rattle.std.specs.List.{count_by, list_any};
ghost use Rattle.segment_table.specs.Counts.{slot_names};
ghost use Rattle.segment_table.specs.Table.{block_slot};
ghost use Rattle.segment_table.specs.Slots.{no_slot, is_held, data_names, with_names, more_names};
ghost use Rattle.segment_table.specs.Slots.{hold_on, let_go, held_role, unheld};

use arrayvec::ArrayVec;
use block_log::BlockKind;
use codec::{BlockRole, BlockRoles};
use s4_types::limits::PAYLOAD_BLOCKS;
use s4_types::{ObjectId, Refusal};
use std::alloc::Global;
use std::cmp::min;
use std::marker::Model;

/// A used payload block: what it is for, whose it is, and how many places name it. It is held while
/// some place does.
#[derive(Clone, Copy)]
pub struct Slot {
    pub role: BlockRole,
    pub named: u32,
}

impl Default for Slot {
    fn default() -> Self {
        Slot {
            role: BlockRole::default(),
            named: 0,
        }
    }
}

/// The used payload blocks of a frame, at most 15, by ascending block from block 1 on.
#[derive(Drop)]
pub struct Slots {
    slots: ArrayVec<Slot, PAYLOAD_BLOCKS>,
    // how many of them are held
    held: u8,
}

impl Model for Slots {
    ghost use Rattle.std.specs.Prelude.{◌≡◌, List, count_by};
    ghost use Rattle.segment_table.specs.declared.slots.Slot.{Slot as Used};
    ghost use Rattle.segment_table.specs.Slots.{is_held};

    ghost Value = { List Used };

    ghost view = { λ s. s.slots.items };

    ghost invariant = { λ s. s.held ≡ count_by (λ slot. is_held slot) s.slots.items };
}

// How many blocks of a frame are held once one of them that was named `before` times is named
// `after` times.
fn held_after(held: u8, before: u32, after: u32) -> u8
    requires some { cond (nat_lt 0 before) 1 0 ≤ held }
    requires few { held < 16 }
    ensures { result + cond (nat_lt 0 before) 1 0 ≡ held + cond (nat_lt 0 after) 1 0 }
{
    match (before > 0, after > 0) {
        (true, false) => held - 1,
        (false, true) => held + 1,
        (true, true) | (false, false) => held,
    }
}

/// No used block in this many frames.
pub fn no_slots(alloc: Global, count: u16) -> Result<Vec<Slots>, Refusal>
    ensures slots { IfOk result (λ v. v.items ≡ replicate count []) }
    ensures refusal { IfErr result (λ e. e ≡ NoMemory) }
{
    let mut slots = Vec::with_capacity(alloc, count as usize)?;
    for _ in 0..count {
        slots.push(Slots::new())?;
    }
    Ok(slots)
}

impl Slots {
    /// No used block.
    pub fn new() -> Self
        ensures { result ≡ [] }
    {
        Slots {
            slots: ArrayVec::new(),
            held: 0,
        }
    }

    /// Used blocks that are for these things, none of them held.
    pub fn unheld(roles: &[BlockRole]) -> Self
        requires { length roles.now ≤ 15 }
        ensures { result ≡ unheld roles.now }
    {
        let mut slots = ArrayVec::new();
        for role in roles {
            slots.push(Slot {
                role: *role,
                named: 0,
            });
        }
        Slots { slots, held: 0 }
    }

    /// How many blocks are used.
    pub fn len(&self) -> usize
        ensures count { result ≡ length self.now }
        ensures most { result ≤ 15 }
    {
        self.slots.len()
    }

    /// The next block is used and held from now on.
    pub fn push(&mut self, role: BlockRole)
        requires { length self.old < 15 }
        ensures { self.new ≡ self.old ++ (record { role = role; named = 1 }) ∷ [] }
    {
        self.slots.push(Slot { role, named: 1 });
        self.held += 1;
    }

    /// What the block of that number, from 1 on, is for, where it is held.
    pub fn held(&self, block: usize) -> Option<BlockRole>
        requires { 1 ≤ block }
        ensures { result ≡ held_role (slice_get self.now (block - 1)) }
    {
        let slot = self.slots.as_slice().get(block - 1)?;
        if slot.named > 0 {
            Some(slot.role)
        } else {
            None
        }
    }

    /// What the block of that number, from 1 on, is for, held or not. None where it isn't used.
    pub fn used(&self, block: usize) -> Option<BlockRole>
        requires { 1 ≤ block }
        ensures { result ≡ option_map (λ slot. slot.role) (slice_get self.now (block - 1)) }
    {
        Some(self.slots.as_slice().get(block - 1)?.role)
    }

    // How many places name the block of that index; 0 where it isn't used.
    fn names(&self, index: usize) -> u32
        ensures names { result ≡ (slice_index_or self.now index no_slot).named }
        ensures few { length self.now ≤ 15 }
    {
        match self.slots.as_slice().get(index) {
            Some(slot) => slot.named,
            None => 0,
        }
    }

    // How many places name the block of that index where it is of data; 0 where it isn't.
    fn data_names(&self, index: usize) -> u32
        ensures { result ≡ data_names (slice_index_or self.now index no_slot) }
    {
        let Some(slot) = self.slots.as_slice().get(index) else {
            return 0;
        };
        match slot.role.kind {
            BlockKind::Data => slot.named,
            BlockKind::Journal | BlockKind::Checkpoint | BlockKind::Pointers => 0,
        }
    }

    // This many places name the block of that index from now on. Where it isn't used, nothing
    // changes.
    fn set_names(&mut self, index: usize, named: u32)
        ensures { self.new ≡ with_names self.old index named }
    {
        let before = self.names(index);
        if let Some(slot) = self.slots.get_mut(index) {
            slot.named = named;
            self.held = held_after(self.held, before, named);
        }
    }

    /// The block of that number, from 1 on, is held from now on: of data one place more names it,
    /// up to 2^32 - 1, and any other is named by one. Where it isn't used, nothing changes.
    pub fn hold(&mut self, block: usize)
        requires { 1 ≤ block }
        ensures { self.new ≡ hold_on self.old (block - 1) }
    {
        let names = self.data_names(block - 1);
        self.set_names(block - 1, names.saturating_add(1));
    }

    /// One place more names the block of that number, from 1 on. Where it isn't used, nothing
    /// changes.
    pub fn name(&mut self, block: usize)
        requires low { 1 ≤ block }
        requires room { (slice_index_or self.old (block - 1) no_slot).named + 1 < 2 ^ 32 }
        ensures { self.new ≡ more_names self.old (block - 1) }
    {
        let names = self.names(block - 1);
        self.set_names(block - 1, names + 1);
    }

    /// One place less names the block of that number, from 1 on, where it is of data; any other
    /// block is held no longer.
    pub fn let_go(&mut self, block: usize)
        requires { 1 ≤ block }
        ensures { self.new ≡ let_go self.old (block - 1) }
    {
        let names = self.data_names(block - 1);
        self.set_names(block - 1, names.saturating_sub(1));
    }

    /// How many places name the block of that number: the names of a data block, and 1 of another
    /// that is held. 0 where it isn't held, isn't used, or isn't a payload block.
    pub fn name_count(&self, block: usize) -> u32
        ensures { result ≡ slot_names (block_slot self.now block) }
    {
        if block == 0 {
            return 0;
        }
        let Some(slot) = self.slots.as_slice().get(block - 1) else {
            return 0;
        };
        match slot.role.kind {
            BlockKind::Data => slot.named,
            BlockKind::Journal | BlockKind::Checkpoint | BlockKind::Pointers => {
                min(slot.named, 1)
            }
        }
    }

    /// How many blocks are held.
    pub fn held_count(&self) -> u8
        ensures { result ≡ count_by is_held self.now }
    {
        self.held
    }

    /// Whether some block is held.
    pub fn any_held(&self) -> bool
        ensures { result ≡ list_any (λ slot. is_held slot) self.now }
    {
        self.held > 0
    }

    /// No block is used from now on.
    pub fn clear(&mut self)
        ensures { self.new ≡ [] }
    {
        self.slots.clear();
        self.held = 0;
    }

    /// What the used blocks are for.
    pub fn roles(&self) -> BlockRoles
        ensures { result.items ≡ map (λ slot. slot.role) self.now }
    {
        let mut roles = BlockRoles::new();
        for slot in self.slots.as_slice() {
            roles.push(slot.role);
        }
        roles
    }
}
