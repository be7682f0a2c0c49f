//! How a record is laid out in sectors.
ghost use Rattle.std.specs.Prelude.{◌≡◌, ◌++◌, ◌+◌, ◌*◌, ◌^◌, ◌<◌, ◌≤◌, length, OnOk};
ghost use Rattle.update_log.specs.Sectors.{further, further_count, further_in, laid, size_of};

use std::alloc::AllocError;

/// Bytes of a sector.
pub(crate) const SECTOR_BYTES: usize = 512;

// Bytes of a sector's content.
pub(crate) const CONTENT_BYTES: usize = 511;

/// Bytes of content in a record's first sector, after its mark and the record's count.
pub(crate) const FIRST_BYTES: usize = 507;

/// The mark of a record's first sector.
pub(crate) const RECORD_MARK: u8 = 1;

/// The mark of a further sector of a record.
pub(crate) const FURTHER_MARK: u8 = 2;

/// How many sectors a record has after its first one.
pub(crate) fn further_sectors(length: usize) -> usize
    requires { length < 2 ^ 32 }
    ensures { result ≡ further_count length }
{
    (55 + length) / CONTENT_BYTES
}

/// How many bytes a record has.
pub(crate) fn size_of_record(length: usize) -> usize
    requires { length < 2 ^ 32 }
    ensures { result ≡ size_of length }
{
    SECTOR_BYTES + SECTOR_BYTES * further_sectors(length)
}

/// Puts a content into sectors, the first of which has begun.
#[tactic(auto, unfolding(crate::specs::Sectors::laid))]
pub(crate) fn lay(out: &mut Vec<u8>, count: usize, content: &[u8]) -> Result<(), AllocError>
    requires { length content.now ≡ 507 + 511 * count }
    ensures { OnOk result (out.new.items ≡ out.old.items ++ laid count content.now) }
{
    let (first, rest) = content.split_at(FIRST_BYTES);
    out.extend_from_slice(first)?;
    lay_further(out, count, rest)
}

fn lay_further(out: &mut Vec<u8>, count: usize, content: &[u8]) -> Result<(), AllocError>
    requires { length content.now ≡ 511 * count }
    ensures { OnOk result (out.new.items ≡ out.old.items ++ further count content.now) }
{
    let mut rest = content;
    for _ in 0..count {
        let (sector, others) = rest.split_at(CONTENT_BYTES);
        out.push(FURTHER_MARK)?;
        out.extend_from_slice(sector)?;
        rest = others;
    }
    Ok(())
}

/// The content of further sectors, put after other bytes.
pub(crate) fn gather_further(
    out: &mut Vec<u8>,
    count: usize,
    bytes: &[u8],
) -> Result<(), AllocError>
    requires { 512 * count ≤ length bytes.now }
    ensures { OnOk result (out.new.items ≡ out.old.items ++ further_in count bytes.now) }
{
    let mut rest = bytes;
    for _ in 0..count {
        let (sector, others) = rest.split_at(SECTOR_BYTES);
        let (_, content) = sector.split_at(1);
        out.extend_from_slice(content)?;
        rest = others;
    }
    Ok(())
}
