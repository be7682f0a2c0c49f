//! What is read of an object by its inode: its bytes at once, or a plan of them.
ghost use Rattle.std.specs.Prelude.{◌≡◌, ◌≤◌, true, length, take, drop, IfOk, IfErr};
ghost use Rattle.s4_types.specs.declared.limits.TheConstants.{OBJECT_BLOCKS, OBJECT_BYTES};
ghost use Rattle.s4_types.specs.declared.refusals.Refusal.{Refusal as Refused};
ghost use Rattle.s4_types.specs.declared.refusals.Refusal.TheVariants.{NoMemory};
ghost use Rattle.inode.specs.Contents.{contents_of, bytes_of};
ghost use Rattle.inode.specs.Tidiness.{PointersLead};
ghost use Rattle.version_store.specs.Planning.{IsReadPlan, IsPlanRefusal};
ghost use Rattle.version_store.specs.Reading.{IsUnreadBy, RestsOn};

use crate::named_table::NamedTable;
use block_log::Blocks;
use codec::Inode;
use s4_types::Refusal;
use segment_word::Naming;
use std::alloc::Global;
use time_read::{BlockRange, ReadPlan};

/// A way to read an object by its inode, over the table that the inode's blocks are in.
pub trait Reader<B: Blocks>: Drop {
    ghost use Rattle.codec.specs.declared.inodes.Inode.{Inode};
    ghost use Rattle.s4_types.specs.declared.refusals.Refusal.{Refusal};

    /// What is read.
    type Read;

    /// This is what is read by an inode over a table.
    ghost reads: { Self → B → Inode → Self.Read → Type 0 };

    /// It may be refused for this.
    ghost refuses: { Self → B → Inode → Refusal → Type 0 };

    /// The blocks whose pointers it needs: with other pointers to all others it reads the same.
    fn needed(&self) -> BlockRange
        ensures reads { (table : B) (read : Self.Read)
            → RestsOn result (λ inode. reads self.now table inode read) }
        ensures refuses { (table : B) (e : Refused)
            → RestsOn result (λ inode. refuses self.now table inode e) };

    /// What is read by an inode. No block changes.
    fn read(self, alloc: Global, table: &mut B, inode: &Inode) -> Result<Self::Read, Refusal>
        requires size { inode.now.size ≤ OBJECT_BYTES }
        requires count { length inode.now.pointers ≡ OBJECT_BLOCKS }
        requires lead { PointersLead (B.log table.old).held inode.now }
        ensures reads { IfOk result (reads self table.new inode.now) }
        ensures refused { IfErr result (refuses self table.new inode.now) }
        ensures same { B.log table.new ≡ B.log table.old };
}

/// Reads the bytes of an object from an offset on, `wanted` of them or as many as there are, at
/// once. Each block is read once.
///
/// NoMemory alone, where the memory for the bytes is refused.
#[derive(Drop)]
pub struct BytesAtOnce {
    pub offset: u64,
    pub wanted: u64,
}

impl<B: Blocks> Reader<B> for BytesAtOnce {
    type Read = Vec<u8>;

    ghost reads = { λ reader table inode bytes. bytes.items
        ≡ take reader.wanted
        (drop reader.offset (bytes_of (contents_of (B.log table).held) inode)) };

    ghost refuses = { λ reader table inode e. e ≡ NoMemory };

    fn needed(&self) -> BlockRange {
        BlockRange::of_bytes(self.offset, self.wanted)
    }

    fn read(self, alloc: Global, table: &mut B, inode: &Inode) -> Result<Vec<u8>, Refusal> {
        inode::read(alloc, table, inode, self.offset, self.wanted)
    }
}

/// Plans to read the bytes of an object from an offset on, `wanted` of them or as many as there
/// are. Blocks of the open frame are copied; the frames of all others are pinned.
///
/// NoMemory where memory is refused: it is asked for once, and once for each block that is copied
/// and each frame that is pinned. Busy only where a block of a sealed frame is needed, and all
/// seats of pins are in use, the count of those that share the frames is full, its frame has
/// `MOST_READERS`, or other threads changed the frame's word between load and exchange `PIN_TRIES`
/// times.
#[derive(Drop)]
pub struct BytesPlanned {
    pub offset: u64,
    pub wanted: u64,
}

impl<J: Naming> Reader<NamedTable<J>> for BytesPlanned {
    type Read = ReadPlan;

    ghost reads = { λ reader table inode plan.
        IsReadPlan table inode reader.offset reader.wanted plan };

    ghost refuses = { λ reader table inode e.
        IsPlanRefusal table inode reader.offset reader.wanted e };

    fn needed(&self) -> BlockRange {
        BlockRange::of_bytes(self.offset, self.wanted)
    }

    fn read(
        self,
        alloc: Global,
        table: &mut NamedTable<J>,
        inode: &Inode,
    ) -> Result<ReadPlan, Refusal> {
        time_read::plan(alloc, &mut table.table, inode, self.offset, self.wanted)
    }
}

/// What a reader has of an object's inode.
///
/// NoObject where the inode is dead; else what the reader is refused for.
pub(crate) fn read_live<B: Blocks, R: Reader<B>>(
    alloc: Global,
    table: &mut B,
    inode: &Inode,
    reader: R,
) -> Result<R::Read, Refusal>
    requires size { inode.now.size ≤ OBJECT_BYTES }
    requires count { length inode.now.pointers ≡ OBJECT_BLOCKS }
    requires lead { PointersLead (B.log table.old).held inode.now }
    ensures reads { IfOk result
        (λ read. (inode.now.alive ≡ true) × R.reads reader table.new inode.now read) }
    ensures refused { IfErr result
        (λ e. IsUnreadBy inode.now (λ i. R.refuses reader table.new i e) e) }
    ensures same { B.log table.new ≡ B.log table.old }
{
    if !inode.alive {
        return Err(Refusal::NoObject);
    }
    reader.read(alloc, table, inode)
}
