//! The frames of a drive and what their blocks are for, one step at a time.
ghost use Rattle.std.specs.Prelude.{◌≡◌, ℕ, ◌+◌, ◌-◌, ◌^◌, ◌<◌, ◌≤◌, ◌==◌, true, false, ◌++◌};
ghost use Rattle.std.specs.Prelude.{length, map, take, drop, Option, Some, None, IsSome, IfSome};
ghost use Rattle.std.specs.Prelude.{IfNone, IfOk, IfErr, OnOk, MatchBool, option_map, vec_len};
ghost use Rattle.std.specs.Prelude.{vec_capacity};
ghost use Rattle.std.specs.Option.{option_to_list};
ghost use Rattle.s4_types.specs.declared.refusals.Refusal.TheVariants.{NoMemory, InUse};
ghost use Rattle.s4_types.specs.declared.limits.TheConstants.{BLOCK_BYTES};
ghost use Rattle.block_log.specs.Log.{appended, dropped, held_more, is_data, NamesAreOfData};
ghost use Rattle.segment_word.specs.Frames.{is_sealed};
ghost use Rattle.segment_word.specs.Layout.{frame_at};
ghost use Rattle.segment_table.specs.Table.{Table, slots_at, held_at, named_at, is_of, role_of};
ghost use Rattle.segment_table.specs.Room.{is_filling, numbers, rest_of, places_ahead};
ghost use Rattle.segment_table.specs.Room.{places_spent, log_of, pointers_in};
ghost use Rattle.segment_table.specs.Counts.{name_count, held_count};
ghost use Rattle.segment_table.specs.Sealing.{IsSoundTable, IsPartFilled};
ghost use Rattle.segment_table.specs.Changes.{IsFilling, NoneIsFilling, IsReadyFrame, IsPut};
ghost use Rattle.segment_table.specs.Changes.{IsSealed, IsSealedIn, MarksFrame, ReleasesFrame};
ghost use Rattle.segment_table.specs.private.Putting.{IsPutBetween};

use crate::seals;
use crate::slots::Slots;
use block_log::Block;
use codec::BlockRole;
use s4_types::limits::PAYLOAD_BLOCKS;
use s4_types::{ObjectId, Ptr, Refusal};
use segment_word::DriveSeat;
use std::alloc::Global;
use std::marker::Model;

/// The frames of a drive, with the used blocks of each.
#[derive(Drop)]
pub struct Segments {
    pub seat: DriveSeat,
    pub slots: Vec<Slots>,
    /// The numbers of the free frames but the retired ones, the lowest last.
    pub free: Vec<u16>,
    /// The number of the open frame.
    pub current: Option<u16>,
    // room for the payload blocks of a frame while it is sealed
    payload: Box<[Block; PAYLOAD_BLOCKS]>,
}

impl Model for Segments {
    ghost use Rattle.segment_table.specs.Table.{Table};
    ghost use Rattle.std.specs.Prelude.{◌≤◌, length, vec_capacity};
    ghost use Rattle.segment_table.specs.Sealing.{IsSoundTable};

    ghost Value = { Table };

    ghost view = { λ s. record { seat = s.seat; slots = s.slots.items } };

    ghost invariant = { λ s. IsSoundTable (record { seat = s.seat; slots = s.slots.items }) s.free.items s.current × (length s.seat.frames ≤ vec_capacity s.free) };
}

// Puts a number into a list between those that are greater and those that are less.
fn put_back(free: &mut Vec<u16>, frame: u16)
    requires { vec_len free.old < vec_capacity free.old }
    ensures items { IsPutBetween frame free.old.items free.new.items }
    ensures room { vec_capacity free.old ≤ vec_capacity free.new }
{
    let place = free.as_slice().partition_point(|other| *other > frame);
    // there is room, so that it isn't refused
    let _ = free.insert(place, frame);
}

impl Segments {
    /// Takes the seat of a drive with what the blocks of its frames are for.
    pub fn of_parts(
        seat: DriveSeat,
        slots: Vec<Slots>,
        free: Vec<u16>,
        current: Option<u16>,
        payload: Box<[Block; PAYLOAD_BLOCKS]>,
    ) -> Self
        requires sound { IsSoundTable (record { seat = seat; slots = slots.items }) free.items current }
        requires room { length seat.frames ≤ vec_capacity free }
        ensures { result ≡ record { seat = seat; slots = slots.items } }
    {
        Segments {
            seat,
            slots,
            free,
            current,
            payload,
        }
    }

    /// The number of the open frame.
    pub fn open_frame(&self) -> Option<u16>
        ensures { option_to_list result ≡ numbers is_filling 0 self.now.seat.frames }
    {
        self.current
    }

    // Opens the free frame of the lowest number. None where there is none.
    fn open_lowest(&mut self) -> Option<u16>
        requires { NoneIsFilling self.old }
        ensures ready { IfSome result (λ f. IsReadyFrame f self.old self.new) }
        ensures log { log_of self.new ≡ log_of self.old }
        ensures full { IfNone result
            ((self.new ≡ self.old) × (length (places_ahead self.old) ≡ 0)) }
    {
        let frame = self.free.pop()?;
        self.seat.open(frame as usize);
        self.current = Some(frame);
        Some(frame)
    }

    /// The frame that takes the next append. It is opened, where none was open. None where there is
    /// no free frame either.
    pub fn ready_frame(&mut self) -> Option<u16>
        requires { IsPartFilled self.old }
        ensures ready { IfSome result (λ f. IsReadyFrame f self.old self.new) }
        ensures log { log_of self.new ≡ log_of self.old }
        ensures full { IfNone result
            ((self.new ≡ self.old) × (length (places_ahead self.old) ≡ 0)) }
    {
        if let Some(frame) = self.current {
            return Some(frame);
        }
        self.open_lowest()
    }

    // The place of the lowest unused block of the open frame.
    fn next_place(&mut self, frame: u16) -> Ptr
        requires filling { IsFilling frame self.old }
        requires room { length (slots_at self.old.slots frame) < 15 }
        ensures place { result ≡ record { frame = frame; block = length (slots_at self.old.slots frame) + 1; generation = (frame_at self.old.seat.frames frame).generation } }
        ensures same { self.new ≡ self.old }
    {
        let number = frame as usize;
        let generation = self.seat.generation(number);
        let next = self.slots[number].len() + 1;
        Ptr::new(frame, next as u8, generation).unwrap()
    }

    // Puts a block into the lowest unused block of the open frame.
    fn fill(&mut self, frame: u16, role: BlockRole, block: &Block)
        requires filling { IsFilling frame self.old }
        requires room { length (slots_at self.old.slots frame) < 15 }
        requires owned { 1 ≤ role.object }
        ensures put { IsPut frame (record { role = role; named = 1 }) block.now self.old self.new }
        ensures inside { frame < length self.old.slots }
    {
        let number = frame as usize;
        let next = self.slots[number].len() + 1;
        self.seat.store(number, next, block);
        self.slots[number].push(role);
    }

    /// Puts a block into the lowest unused block of the open frame, and answers its place.
    pub fn put(&mut self, frame: u16, role: BlockRole, block: &Block) -> Ptr
        requires filling { IsFilling frame self.old }
        requires room { length (slots_at self.old.slots frame) < 15 }
        requires owned { 1 ≤ role.object }
        ensures put { IsPut frame (record { role = role; named = 1 }) block.now self.old self.new }
        ensures filling { IsFilling frame self.new }
        ensures place { result ≡ record { frame = frame; block = length (slots_at self.old.slots frame) + 1; generation = (frame_at self.old.seat.frames frame).generation } }
        ensures appended { appended (log_of self.old) (record { kind = role.kind; object = role.object; bytes = block.now }) ≡ Some (result, log_of self.new) }
        ensures fresh { held_at self.old result ≡ None }
    {
        let place = self.next_place(frame);
        self.fill(frame, role, block);
        place
    }

    /// Seals the open frame, of which at least one block is used.
    pub fn seal(&mut self, frame: u16)
        requires filling { IsFilling frame self.old }
        requires used { 1 ≤ length (slots_at self.old.slots frame) }
        ensures sealed { IsSealed frame (slots_at self.old.slots frame) self.old.seat
            self.new.seat }
        ensures slots { self.new.slots ≡ self.old.slots }
        ensures filling { NoneIsFilling self.new }
        ensures held { (log_of self.new).held ≡ (log_of self.old).held }
        ensures named { (log_of self.new).named ≡ (log_of self.old).named }
        ensures ahead { rest_of self.old frame ++ places_ahead self.new ≡ places_ahead self.old }
        ensures spent { places_spent self.new ≡ places_spent self.old }
    {
        seals::seal(
            &mut self.seat,
            frame,
            &self.slots[frame as usize],
            &mut *self.payload,
        );
        self.current = None;
    }

    /// Seals the open frame where all its blocks are used.
    pub fn seal_full(&mut self, frame: u16)
        requires filling { IsFilling frame self.old }
        requires used { 1 ≤ length (slots_at self.old.slots frame) }
        ensures role { length (slots_at self.old.slots frame) < 15 → self.new ≡ self.old }
        ensures full { length (slots_at self.old.slots frame) ≡ 15
            → IsSealedIn frame self.old self.new × NoneIsFilling self.new }
        ensures log { log_of self.new ≡ log_of self.old }
    {
        if self.slots[frame as usize].len() == PAYLOAD_BLOCKS {
            self.seal(frame);
        }
    }

    /// The block that a held pointer refers to.
    pub fn get(&mut self, place: Ptr) -> Block
        requires { IsSome (held_at self.old place) }
        ensures bytes { IfSome (held_at self.old place) (λ block. result ≡ block.bytes) }
        ensures same { self.new ≡ self.old }
    {
        self.seat
            .load(place.frame() as usize, place.block() as usize)
    }

    /// Adds the bytes `from..to` of the block that a held pointer refers to.
    pub fn get_bytes(
        &mut self,
        place: Ptr,
        from: usize,
        to: usize,
        into: &mut Vec<u8>,
    ) -> Result<(), Refusal>
        requires held { IsSome (held_at self.old place) }
        requires range { (from ≤ to) × (to ≤ BLOCK_BYTES) }
        ensures bytes { OnOk result
            (IfSome (held_at self.old place)
            (λ block. into.new.items
            ≡ into.old.items ++ take (to - from) (drop from block.bytes))) }
        ensures added { OnOk result (length into.new.items ≡ length into.old.items + (to - from)) }
        ensures refusal { IfErr result (λ e. e ≡ NoMemory) }
        ensures same { self.new ≡ self.old }
    {
        let (frame, block) = (place.frame() as usize, place.block() as usize);
        self.seat.append_bytes(frame, block, from, to, into)
    }

    /// Whether the frame that a pointer names is at the pointer's generation.
    pub fn is_current(&mut self, place: Ptr) -> bool
        ensures found { MatchBool result
            ((place.frame < length self.old.seat.frames)
            × ((frame_at self.old.seat.frames place.frame).generation ≡ place.generation))
            (held_at self.old place ≡ None) }
        ensures same { self.new ≡ self.old }
    {
        let number = place.frame() as usize;
        number < self.slots.len() && self.seat.generation(number) == place.generation()
    }

    /// What the block is for that a pointer at its frame's generation leads to, where it is held.
    pub fn current_role(&self, place: Ptr) -> Option<BlockRole>
        requires inside { place.frame < length self.now.seat.frames }
        requires current { (frame_at self.now.seat.frames place.frame).generation
            ≡ place.generation }
        ensures { result ≡ option_map role_of (held_at self.now place) }
    {
        self.slots[place.frame() as usize].held(place.block() as usize)
    }

    /// A data block has one name less, and is held no longer without any; any other block is held
    /// no longer. Where nothing is held, nothing changes.
    pub fn drop_block(&mut self, place: Ptr)
        ensures log { log_of self.new ≡ dropped (log_of self.old) place }
        ensures seat { self.new.seat ≡ self.old.seat }
        ensures used { (f : ℕ)
            → length (slots_at self.new.slots f) ≡ length (slots_at self.old.slots f) }
        ensures roles { (f : ℕ)
            → map (λ slot. slot.role) (slots_at self.new.slots f)
            ≡ map (λ slot. slot.role) (slots_at self.old.slots f) }
    {
        if self.is_current(place) {
            self.slots[place.frame() as usize].let_go(place.block() as usize);
        }
    }

    /// Shows that the held data blocks have names, and nothing else has.
    #[tactic(auto, using(crate::proofs::Naming::names_are))]
    pub fn names(&self)
        ensures { NamesAreOfData (log_of self.now) }
    {
        let _ = &self.current;
    }

    /// A held data block has one name more.
    pub fn hold(&mut self, place: Ptr)
        requires of_data { is_data (held_at self.old place) ≡ true }
        requires room { named_at self.old place + 1 < 2 ^ 32 }
        ensures log { log_of self.new ≡ held_more (log_of self.old) place }
        ensures seat { self.new.seat ≡ self.old.seat }
        ensures used { (f : ℕ)
            → length (slots_at self.new.slots f) ≡ length (slots_at self.old.slots f) }
        ensures roles { (f : ℕ)
            → map (λ slot. slot.role) (slots_at self.new.slots f)
            ≡ map (λ slot. slot.role) (slots_at self.old.slots f) }
    {
        self.slots[place.frame() as usize].name(place.block() as usize);
    }

    /// How many places name a block of a frame, at the generation that the frame has: 0 where no
    /// such block is held.
    pub fn name_count(&self, frame: u16, block: u8) -> u32
        ensures { result ≡ name_count self.now frame block }
    {
        match self.slots.as_slice().get(frame as usize) {
            Some(slots) => slots.name_count(block as usize),
            None => 0,
        }
    }

    /// How many payload blocks of a frame are held: 0 where no such frame is there.
    #[tactic(auto, using(crate::proofs::Counting::held_count_is, crate::proofs::Counting::no_frame_held))]
    pub fn held_count(&self, frame: u16) -> u8
        ensures { result ≡ held_count self.now frame }
    {
        match self.slots.as_slice().get(frame as usize) {
            Some(slots) => slots.held_count(),
            None => 0,
        }
    }

    // The generation of a frame, where it is there and sealed.
    fn sealed_generation(&mut self, frame: u16) -> Option<u32>
        ensures inside { IfSome result (λ g. frame < length self.old.seat.frames) }
        ensures sealed { IfSome result
            (λ g. is_sealed (frame_at self.old.seat.frames frame).phase ≡ true) }
        ensures generation { IfSome result
            (λ g. g ≡ (frame_at self.old.seat.frames frame).generation) }
        ensures range { IfSome result (λ g. (1 ≤ g) × (g + 1 < 2 ^ 32)) }
        ensures other { IfNone result
            (is_sealed (frame_at self.old.seat.frames frame).phase ≡ false) }
        ensures same { self.new ≡ self.old }
    {
        let number = frame as usize;
        if number < self.slots.len() && self.seat.is_sealed(number) {
            return Some(self.seat.generation(number));
        }
        None
    }

    /// A sealed frame of which no block is held is being emptied from now on.
    pub fn mark(&mut self, frame: u16) -> Result<(), Refusal>
        ensures { MarksFrame frame self.old result self.new }
    {
        let number = frame as usize;
        if self.sealed_generation(frame).is_none() {
            return Err(Refusal::InUse);
        }
        if self.slots[number].any_held() {
            return Err(Refusal::InUse);
        }
        self.seat.mark(number);
        Ok(())
    }

    /// A frame that is being emptied and has no reader is free at its next generation, and can be
    /// opened again.
    pub fn release(&mut self, frame: u16) -> Result<(), Refusal>
        ensures { ReleasesFrame frame self.old result self.new }
    {
        let number = frame as usize;
        if number >= self.slots.len() {
            return Err(Refusal::InUse);
        }
        self.seat.release(number)?;
        self.slots[number].clear();
        if self.seat.generation(number) < u32::MAX {
            put_back(&mut self.free, frame);
        }
        Ok(())
    }

    // Whether a pointer at its frame's generation leads to a held block of this object.
    fn is_of(&self, object: ObjectId, place: Ptr) -> bool
        requires inside { place.frame < length self.now.seat.frames }
        requires current { (frame_at self.now.seat.frames place.frame).generation
            ≡ place.generation }
        ensures { result ≡ is_of object (held_at self.now place) }
    {
        match self.current_role(place) {
            Some(role) => role.object == object,
            None => false,
        }
    }

    /// The pointers to the held blocks of an object in a sealed frame.
    #[tactic(auto, using(crate::proofs::Owned::one_more, crate::proofs::Owned::no_more))]
    pub fn held_in(
        &mut self,
        alloc: Global,
        object: ObjectId,
        frame: u16,
    ) -> Result<Vec<Ptr>, Refusal>
        ensures pointers { IfOk result
            (λ pointers. pointers.items ≡ pointers_in self.old object frame) }
        ensures refusal { IfErr result (λ e. e ≡ NoMemory) }
        ensures same { self.new ≡ self.old }
    {
        let Some(generation) = self.sealed_generation(frame) else {
            return Ok(Vec::new(alloc));
        };
        let mut pointers = Vec::with_capacity(alloc, PAYLOAD_BLOCKS)?;
        for index in 0..PAYLOAD_BLOCKS {
            let place = Ptr::new(frame, index as u8 + 1, generation).unwrap();
            if self.is_of(object, place) {
                pointers.push(place)?;
            }
        }
        Ok(pointers)
    }
}
