//! The salvage of an image.
ghost use Rattle.std.specs.Prelude.{◌≡◌, ◌⊎◌, ◌-◌, ◌<◌, max, length, slice_get, Option, Some, None};
ghost use Rattle.std.specs.Prelude.{IfOk, IfErr, MatchBool, OnOk};
ghost use Rattle.s4_types.specs.Sizes.{IsFrameCount};
ghost use Rattle.s4_types.specs.declared.refusals.Cause.{Cause as Found};
ghost use Rattle.s4_types.specs.declared.refusals.Cause.TheVariants.{Header};
ghost use Rattle.s4_types.specs.declared.refusals.Refusal.TheVariants.{NoMemory, Damaged};
ghost use Rattle.image_parts.specs.Causes.{FirstSplitCause};
ghost use Rattle.image_parts.specs.Image.{image_in};
ghost use Rattle.image_parts.specs.declared.rows.RowPart.{RowPart as Part};
ghost use Rattle.segment_table.specs.Used.{used_at};
ghost use Rattle.image_salvage.specs.Contents.{salvaged_bytes, blocks_gone};
ghost use Rattle.image_salvage.specs.Frames.{Sees};
ghost use Rattle.image_salvage.specs.Rows.{IsSalvagedBy};
ghost use Rattle.image_salvage.specs.Salvaging.{HasFault, HasNothing, IsEarlier, IsSalvageOf};
ghost use Rattle.image_salvage.specs.Salvaging.{SeesBy};
ghost use Rattle.image_salvage.specs.Salvaging.{rows_counted};
ghost use Rattle.image_salvage.specs.Searching.{Finds};
ghost use Rattle.image_salvage.specs.Unlisted.{FindsUnlisted, FindsUnlistedBy};

use crate::contents::{content_of, count_gone};
use crate::frames::{WholeFrames, whole_frames};
use crate::row_search::find_rows;
use crate::rows::{Salvaged, salvage_row};
use crate::searching::{FoundFrames, find_frames};
use crate::unlisted::{FoundObjects, Unlisted, find_unlisted};
use byteorder::{BigEndian, ByteOrder};
use codec::Inode;
use earlier_images::laws::what_has_a_fault_spells_nothing;
use earlier_images::read_earlier;
use image_parts::{ImageParts, RowPart, split_parts};
use s4_types::{Cause, ObjectId, Refusal};
use segment_table::TableBuilder;
use std::alloc::Global;
use std::marker::Model;
use std::thread::Threads;
use verifier::verify;

/// As many bytes as a header and a digest have.
const FRONT_BYTES: usize = 544;

/// Where a header has the number of rows.
const ROWS_AT: usize = 48;

/// What was salvaged of an image: its first fault, its rows, the blocks of its frames, and the
/// objects that no row gives.
#[derive(Drop)]
pub struct SalvagedImage {
    fault: Option<Cause>,
    rows: Vec<RowPart>,
    missing: u64,
    table: TableBuilder,
    lost: Vec<u16>,
    unlisted: Vec<Unlisted>,
}

impl Model for SalvagedImage {
    ghost use Rattle.image_salvage.specs.Salvaging.{SalvageFields};

    ghost Value = { SalvageFields };

    ghost view = { λ s. record { fault = s.fault; rows = s.rows.items; missing = s.missing; table = s.table; lost = s.lost.items; unlisted = s.unlisted.items } };
}

impl SalvagedImage {
    /// Why the bytes are no image: the cause that `verify` gives. None where they are one, so that
    /// nothing is damaged.
    pub fn fault(&self) -> Option<Cause>
        ensures { result ≡ self.now.fault }
    {
        self.fault
    }

    /// How many rows there are. In a damaged image those don't count that name an older block of
    /// their object than there is: a damaged row may do so, and would give an older version, or one
    /// that never was.
    pub fn rows(&self) -> usize
        ensures { result ≡ length self.now.rows }
    {
        self.rows.len()
    }

    /// How many more rows there are, or the header counts, where it is one and the parts don't fill
    /// the bytes.
    pub fn missing_rows(&self) -> u64
        ensures { result ≡ self.now.missing }
    {
        self.missing
    }

    /// What the row of an index gives. Rows may name one object more than once. NoMemory alone,
    /// where the memory for its entries is refused.
    pub fn row(&self, alloc: Global, index: usize) -> Result<Salvaged, Refusal>
        requires { index < length self.now.rows }
        ensures salvaged { IfOk result
            (λ salvaged. (part : Part)
            → slice_get self.now.rows index ≡ Some part
            → IsSalvagedBy (used_at self.now.table) part salvaged) }
        ensures refusal { IfErr result (λ e. e ≡ NoMemory) }
    {
        let Some(part) = self.rows.as_slice().get(index) else {
            unreachable!()
        };
        salvage_row(alloc, &self.table, part)
    }

    /// The numbers of the frames that break a rule: each is open or sealed by its word, and its
    /// summary is none of that frame and generation with the right digest. None is known where the
    /// header is none, or the parts don't fill the bytes.
    pub fn lost_frames(&self) -> &[u16]
        ensures { result.now ≡ self.now.lost }
    {
        self.lost.as_slice()
    }

    /// The live objects that no row gives, ascending, as their newest blocks have them after the
    /// last change that is whole. None is looked for in an image that isn't damaged.
    pub fn unlisted(&self) -> &[Unlisted]
        ensures { result.now ≡ self.now.unlisted }
    {
        self.unlisted.as_slice()
    }

    /// The bytes of an inode of an object, cut to its size, as far as the frames have them: zeros
    /// are in holes, and for the blocks that are gone. NoMemory alone, where the memory for them is
    /// refused.
    pub fn content(
        &self,
        alloc: Global,
        object: ObjectId,
        inode: &Inode,
    ) -> Result<Vec<u8>, Refusal>
        ensures bytes { IfOk result
            (λ bytes. bytes.items ≡ salvaged_bytes (used_at self.now.table) object inode.now) }
        ensures refusal { IfErr result (λ e. e ≡ NoMemory) }
    {
        content_of(alloc, &self.table, object, inode)
    }

    /// How many blocks of an inode of an object are within its size, and gone.
    pub fn gone(&self, object: ObjectId, inode: &Inode) -> usize
        ensures { result ≡ blocks_gone (used_at self.now.table) object inode.now }
    {
        count_gone(&self.table, object, inode)
    }
}

/// The first fault of an image, none where it has none. NoMemory alone.
fn fault_of<R: Threads>(rt: &R, alloc: Global, bytes: &[u8]) -> Result<Option<Cause>, Refusal>
    ensures has { IfOk result (HasFault bytes.now) }
    ensures refusal { IfErr result (λ e. e ≡ NoMemory) }
{
    match verify(rt, alloc, bytes) {
        Ok(_) => Ok(None),
        Err(Refusal::Damaged(cause)) => Ok(Some(cause)),
        Err(refusal) => Err(refusal),
    }
}

/// The rows of an image, in their order. NoMemory alone.
fn rows_of(alloc: Global, parts: &ImageParts<'_>) -> Result<Vec<RowPart>, Refusal>
    ensures rows { IfOk result (λ rows. rows.items ≡ parts.now.rows) }
    ensures refusal { IfErr result (λ e. e ≡ NoMemory) }
{
    let mut rows = Vec::new(alloc);
    for row in parts.rows() {
        rows.push(row)?;
    }
    Ok(rows)
}

/// The blocks by which rows are read, the rows that aren't outdated, and the objects that none of
/// them gives.
#[derive(Drop)]
struct Seen {
    table: TableBuilder,
    rows: Vec<RowPart>,
    unlisted: Vec<Unlisted>,
}

/// The frames that are found in bytes, those of these rows that aren't outdated, and the objects
/// that none of them gives. NoMemory alone.
fn search(alloc: Global, bytes: &[u8], there: &[RowPart]) -> Result<Seen, Refusal>
    ensures finds { IfOk result (λ seen. Finds bytes.now seen.table) }
    ensures unlisted { IfOk result
        (λ seen. FindsUnlisted (used_at seen.table) there.now seen.rows.items seen.unlisted.items) }
    ensures refusal { IfErr result (λ e. e ≡ NoMemory) }
{
    let FoundFrames { table, generations } = find_frames(alloc, bytes)?;
    let FoundObjects { rows, unlisted } = find_unlisted(
        alloc,
        &table,
        generations.as_slice(),
        there,
    )?;
    Ok(Seen {
        table,
        rows,
        unlisted,
    })
}

/// The table by which an image's rows are read: that of the frames that are whole by their words,
/// where it has no fault. Else words aren't believed, and it is that of all frames that are found;
/// nor are outdated rows, and objects are looked for that no other gives. NoMemory alone.
fn seen_by(
    alloc: Global,
    bytes: &[u8],
    whole: TableBuilder,
    fault: Option<Cause>,
    there: Vec<RowPart>,
) -> Result<Seen, Refusal>
    requires sees { Sees (image_in bytes.now).frames whole }
    ensures sees { IfOk result (λ seen. SeesBy bytes.now seen.table fault) }
    ensures unlisted { IfOk result
        (λ seen. FindsUnlistedBy fault (used_at seen.table) there.items seen.rows.items
        seen.unlisted.items) }
    ensures refusal { IfErr result (λ e. e ≡ NoMemory) }
{
    match fault {
        None => Ok(Seen {
            table: whole,
            rows: there,
            unlisted: Vec::new(alloc),
        }),
        Some(_) => search(alloc, bytes, there.as_slice()),
    }
}

/// The salvage of bytes that were split into these parts. NoMemory alone.
fn salvage_parts(
    alloc: Global,
    bytes: &[u8],
    parts: &ImageParts<'_>,
    fault: Option<Cause>,
) -> Result<SalvagedImage, Refusal>
    requires split { FirstSplitCause bytes.now None }
    requires parts { parts.now ≡ image_in bytes.now }
    requires frames { IsFrameCount (length parts.now.frames) }
    requires has { HasFault bytes.now fault }
    ensures salvaged { IfOk result (IsSalvageOf bytes.now) }
    ensures refusal { IfErr result (λ e. e ≡ NoMemory) }
{
    let there = rows_of(alloc, parts)?;
    let count = there.len();
    let WholeFrames { table: whole, lost } = whole_frames(alloc, parts)?;
    let Seen {
        table,
        rows,
        unlisted,
    } = seen_by(alloc, bytes, whole, fault, there)?;
    let outdated = count.saturating_sub(rows.len()) as u64;
    Ok(SalvagedImage {
        fault,
        rows,
        missing: outdated,
        table,
        lost,
        unlisted,
    })
}

/// How many rows the header counts of bytes that can't be split for this cause: known where the
/// length alone is wrong.
#[tactic(auto, unfolding(image_parts::specs::Header::number_in))]
fn rows_counted(bytes: &[u8], cause: Cause) -> u32
    ensures { result ≡ rows_counted bytes.now cause }
{
    match cause {
        Cause::Length if bytes.len() >= FRONT_BYTES => BigEndian::read_u32(&bytes[ROWS_AT..]),
        _ => 0,
    }
}

/// How many rows are missing of those that are found, or of as many as the header counts, if that
/// is more, where this many are believed.
fn rows_missing(bytes: &[u8], cause: Cause, found: usize, believed: usize) -> u64
    ensures { result ≡ max (rows_counted bytes.now cause) found - believed }
{
    let counted = u64::from(rows_counted(bytes, cause));
    let all = counted.max(found as u64);
    all.saturating_sub(believed as u64)
}

/// The salvage of bytes that can't be split into parts, for this cause: frames and rows are found
/// by themselves. NoMemory, or Damaged with the cause where neither a row is found nor an object
/// without one.
fn salvage_bytes(alloc: Global, bytes: &[u8], cause: Cause) -> Result<SalvagedImage, Refusal>
    requires split { FirstSplitCause bytes.now (Some cause) }
    ensures salvaged { IfOk result (IsSalvageOf bytes.now) }
    ensures refusal { IfErr result
        (λ e. (e ≡ NoMemory) ⊎ ((e ≡ Damaged cause) × HasNothing bytes.now)) }
{
    let FoundFrames { table, generations } = find_frames(alloc, bytes)?;
    let found = find_rows(alloc, &table, bytes)?;
    let FoundObjects { rows, unlisted } = find_unlisted(
        alloc,
        &table,
        generations.as_slice(),
        found.as_slice(),
    )?;
    if found.is_empty() && unlisted.is_empty() {
        return Err(Refusal::Damaged(cause));
    }
    let missing = rows_missing(bytes, cause, found.len(), rows.len());
    Ok(SalvagedImage {
        fault: Some(cause),
        rows,
        missing,
        table,
        lost: Vec::new(alloc),
        unlisted,
    })
}

/// Whether the bytes are a whole image of an earlier version. NoMemory alone.
fn is_earlier(alloc: Global, bytes: &[u8]) -> Result<bool, Refusal>
    ensures earlier { IfOk result
        (λ is. MatchBool is (IsEarlier bytes.now) (IsEarlier bytes.now → ⊥)) }
    ensures refusal { IfErr result (λ e. e ≡ NoMemory) }
{
    what_has_a_fault_spells_nothing();
    match read_earlier(alloc, bytes) {
        Ok(_image) => Ok(true),
        Err(Refusal::Damaged(_)) => Ok(false),
        Err(refusal) => Err(refusal),
    }
}

/// What the bytes of an image still have, whatever became of them, and the first fault that
/// `verify` finds in them.
///
/// Where they have none, the blocks are those of the frames, and the rows are the image's. Else the
/// blocks are those of all frames that are found: a frame's summary has a digest of its own, so
/// that neither header nor words nor length are asked for where it is. The rows are the image's,
/// where its header is one and the parts fill the bytes, and else all that are found. A row by
/// itself is believed nothing: what it leads to must name its object and making, and be no older
/// than the newest block of its object. Then the objects are looked for that no row gives.
///
/// Damaged where the header is none, or the parts don't fill the bytes, and neither a row is found
/// nor an object without one; and with the cause Header where the bytes are a whole image of an
/// earlier version, which is no damage: it can be migrated. NoMemory where memory is refused.
pub fn salvage<R: Threads>(rt: &R, alloc: Global, bytes: &[u8]) -> Result<SalvagedImage, Refusal>
    ensures salvaged { IfOk result (IsSalvageOf bytes.now) }
    ensures earlier { OnOk result (IsEarlier bytes.now → ⊥) }
    ensures refusal { IfErr result
        (λ e. (e ≡ NoMemory)
        ⊎ (((e ≡ Damaged Header) × IsEarlier bytes.now)
        ⊎ ((cause : Found) × (e ≡ Damaged cause)
        × FirstSplitCause bytes.now (Some cause) × HasNothing bytes.now))) }
{
    if is_earlier(alloc, bytes)? {
        return Err(Refusal::Damaged(Cause::Header));
    }
    let parts = match split_parts(bytes) {
        Ok(parts) => parts,
        Err(cause) => return salvage_bytes(alloc, bytes, cause),
    };
    let fault = fault_of(rt, alloc, bytes)?;
    salvage_parts(alloc, bytes, &parts, fault)
}
