//! Whole blocks, word by word. The highest byte of each word is first.
ghost use Rattle.std.specs.Prelude.{◌≡◌, ℕ, ◌+◌, ◌*◌, ◌/◌, ◌%◌, ◌^◌, ◌<◌, ◌≤◌, [], ◌∷◌, ◌-◌, ◌++◌};
ghost use Rattle.std.specs.Prelude.{length, take, drop, flat_map, OnOk, IfOk, IfErr};
ghost use mathlib.Core.Option.{some};
ghost use lib.ListN.{get_elem?};
ghost use Rattle.byteorder.specs.Endian.{big_bytes};
ghost use Rattle.s4_types.specs.declared.refusals.Refusal.TheVariants.{NoMemory};
ghost use Rattle.segment_word.specs.Frames.{Pinned};
ghost use Rattle.segment_word.specs.Frames.Phase.{Open};
ghost use Rattle.segment_word.specs.Layout.{frame_at, block_bytes, block_words, with_block};
ghost use Rattle.segment_word.specs.Counting.{pins_in};
ghost use Rattle.segment_word.specs.Steps.{with_frame, IsSameSeat};
ghost use Rattle.segment_word.specs.private.Pins.{GrowsByBlock, GrowsByPinned, HasWords};

use crate::layout::{BLOCK_WORDS, FRAME_WORDS, WORD_BYTES};
use crate::steps::{Place, Words, look, read, store};
use byteorder::{BigEndian, ByteOrder};
use s4_types::Refusal;
use s4_types::limits::BLOCK_BYTES;

/// The bytes that words give.
pub fn bytes_of(words: &[u64; 64]) -> [u8; 512]
    ensures { result ≡ flat_map (big_bytes 8) words.now }
{
    let mut bytes = [0; 512];
    BigEndian::write_u64_into(words, &mut bytes);
    bytes
}

/// The words of a block, and that they encode its bytes.
pub fn words_of(bytes: &[u8; 512]) -> [u64; 64]
    ensures words { result ≡ block_words bytes.now }
    ensures back { flat_map (big_bytes 8) result ≡ bytes.now }
{
    let mut words = [0; 64];
    BigEndian::read_u64_into(bytes, &mut words);
    words
}

/// Words that are moved at once where this many are whole: they stay in registers until then.
const RUN_WORDS: usize = 8;

/// Bytes of this many words.
const RUN_BYTES: usize = 64;

/// How often a block has this many words.
const BLOCK_RUNS: usize = 8;

/// Eight words of a block from that of an index on, as the drive's seat finds them.
fn load_words(
    words: &Words,
    seat: &mut Place,
    frame: usize,
    block: usize,
    index: usize,
) -> [u64; RUN_WORDS]
    requires table { seat.old.table_id ≡ words.now.table_id }
    requires drive { seat.old.id ≡ 0 }
    requires inside { (frame < length seat.old.me.0.frames) × (block < 16) }
    requires sized { (words.now.table_id.words ≡ 1025 * length seat.old.me.0.frames)
        × (length seat.old.me.0.frames ≤ 1024) }
    requires index { index ≤ 56 }
    ensures seat { IsSameSeat seat.old seat.new }
    ensures view { seat.new.me.0 ≡ seat.old.me.0 }
    ensures words { HasWords (frame_at seat.old.me.0.frames frame).contents block index result }
{
    let first = FRAME_WORDS * frame + 1 + BLOCK_WORDS * block + index;
    let mut found = [0; RUN_WORDS];
    for i in 0..RUN_WORDS {
        found[i] = look(words, seat, first + i);
    }
    found
}

/// These bytes become those of a block, as the drive's seat finds it. Eight words at a time go to
/// their place among them.
pub fn load_into(words: &Words, seat: &mut Place, frame: usize, block: usize, bytes: &mut [u8])
    requires table { seat.old.table_id ≡ words.now.table_id }
    requires drive { seat.old.id ≡ 0 }
    requires inside { (frame < length seat.old.me.0.frames) × (block < 16) }
    requires sized { (words.now.table_id.words ≡ 1025 * length seat.old.me.0.frames)
        × (length seat.old.me.0.frames ≤ 1024) }
    requires room { length bytes.old ≡ 512 }
    ensures seat { IsSameSeat seat.old seat.new }
    ensures view { seat.new.me.0 ≡ seat.old.me.0 }
    ensures full { length bytes.new ≡ 512 }
    ensures bytes { bytes.new ≡ block_bytes (frame_at seat.old.me.0.frames frame).contents block }
{
    for i in 0..BLOCK_RUNS {
        let found = load_words(words, seat, frame, block, RUN_WORDS * i);
        let start = RUN_BYTES * i;
        BigEndian::write_u64_into(&found, &mut bytes[start..start + RUN_BYTES]);
    }
}

/// A block, as the drive's seat finds it.
pub fn load_block(words: &Words, seat: &mut Place, frame: usize, block: usize) -> [u8; 512]
    requires table { seat.old.table_id ≡ words.now.table_id }
    requires drive { seat.old.id ≡ 0 }
    requires inside { (frame < length seat.old.me.0.frames) × (block < 16) }
    requires sized { (words.now.table_id.words ≡ 1025 * length seat.old.me.0.frames)
        × (length seat.old.me.0.frames ≤ 1024) }
    ensures seat { IsSameSeat seat.old seat.new }
    ensures view { seat.new.me.0 ≡ seat.old.me.0 }
    ensures bytes { result ≡ block_bytes (frame_at seat.old.me.0.frames frame).contents block }
{
    let mut bytes = [0; 512];
    load_into(words, seat, frame, block, &mut bytes);
    bytes
}

/// Eight words of a block from that of an index on, of a frame that the seat of a pin counts on.
fn read_words(
    words: &Words,
    seat: &mut Place,
    frame: usize,
    block: usize,
    index: usize,
) -> [u64; RUN_WORDS]
    requires table { seat.old.table_id ≡ words.now.table_id }
    requires inside { (1025 * frame + 1024 < words.now.table_id.words)
        × (words.now.table_id.words ≤ 1049600) × (block < 16) }
    requires index { index ≤ 56 }
    ensures seat { IsSameSeat seat.old seat.new }
    ensures view { seat.new.me.0 ≡ seat.old.me.0 }
    ensures words { (i : ℕ) (p : Pinned)
        → get_elem? seat.old.me.0.pins i ≡ some p → p.number ≡ frame
        → HasWords p.contents block index result }
{
    let first = FRAME_WORDS * frame + 1 + BLOCK_WORDS * block + index;
    let mut found = [0; RUN_WORDS];
    for i in 0..RUN_WORDS {
        found[i] = read(words, seat, first + i);
    }
    found
}

/// These bytes become those of a block of a frame that the seat of a pin counts on, as `load_into`
/// does it.
fn read_into(words: &Words, seat: &mut Place, frame: usize, block: usize, bytes: &mut [u8])
    requires table { seat.old.table_id ≡ words.now.table_id }
    requires inside { (1025 * frame + 1024 < words.now.table_id.words)
        × (words.now.table_id.words ≤ 1049600) × (block < 16) }
    requires room { length bytes.old ≡ 512 }
    ensures seat { IsSameSeat seat.old seat.new }
    ensures view { seat.new.me.0 ≡ seat.old.me.0 }
    ensures full { length bytes.new ≡ 512 }
    ensures bytes { (i : ℕ) (p : Pinned)
        → get_elem? seat.old.me.0.pins i ≡ some p → p.number ≡ frame
        → bytes.new ≡ block_bytes p.contents block }
{
    for i in 0..BLOCK_RUNS {
        let found = read_words(words, seat, frame, block, RUN_WORDS * i);
        let start = RUN_BYTES * i;
        BigEndian::write_u64_into(&found, &mut bytes[start..start + RUN_BYTES]);
    }
}

/// A block of a frame that the seat of a pin counts on.
pub fn read_block(words: &Words, seat: &mut Place, frame: usize, block: usize) -> [u8; 512]
    requires table { seat.old.table_id ≡ words.now.table_id }
    requires inside { (1025 * frame + 1024 < words.now.table_id.words)
        × (words.now.table_id.words ≤ 1049600) × (block < 16) }
    ensures seat { IsSameSeat seat.old seat.new }
    ensures view { seat.new.me.0 ≡ seat.old.me.0 }
    ensures bytes { (i : ℕ) (p : Pinned)
        → get_elem? seat.old.me.0.pins i ≡ some p → p.number ≡ frame
        → result ≡ block_bytes p.contents block }
{
    let mut bytes = [0; 512];
    read_into(words, seat, frame, block, &mut bytes);
    bytes
}

/// Adds the bytes of a word from one place on and up to another. A whole word is the common case.
fn append_word(word: u64, from: usize, to: usize, into: &mut Vec<u8>) -> Result<(), Refusal>
    requires range { (from ≤ to) × (to ≤ 8) }
    ensures bytes { OnOk result
        (into.new.items ≡ into.old.items ++ take (to - from) (drop from (big_bytes 8 word))) }
    ensures added { OnOk result (length into.new.items ≡ length into.old.items + (to - from)) }
    ensures refusal { IfErr result (λ e. e ≡ NoMemory) }
{
    let mut bytes = [0; 8];
    BigEndian::write_u64(&mut bytes, word);
    if to - from == 8 {
        into.extend_from_slice(&bytes)?;
    } else {
        into.extend_from_slice(&bytes[from..to])?;
    }
    Ok(())
}

/// Adds the bytes of eight words.
fn append_words(words: &[u64; RUN_WORDS], into: &mut Vec<u8>) -> Result<(), Refusal>
    ensures bytes { OnOk result
        (into.new.items ≡ into.old.items ++ flat_map (big_bytes 8) words.now) }
    ensures added { OnOk result (length into.new.items ≡ length into.old.items + 64) }
    ensures refusal { IfErr result (λ e. e ≡ NoMemory) }
{
    let mut bytes = [0; RUN_BYTES];
    BigEndian::write_u64_into(words, &mut bytes);
    into.extend_from_slice(&bytes)?;
    Ok(())
}

/// Adds the bytes of eight words of a block from that of an index on, of a frame that the seat of a
/// pin counts on.
fn append_run(
    words: &Words,
    seat: &mut Place,
    frame: usize,
    block: usize,
    index: usize,
    into: &mut Vec<u8>,
) -> Result<(), Refusal>
    requires table { seat.old.table_id ≡ words.now.table_id }
    requires inside { (1025 * frame + 1024 < words.now.table_id.words)
        × (words.now.table_id.words ≤ 1049600) × (block < 16) }
    requires index { index ≤ 56 }
    ensures seat { IsSameSeat seat.old seat.new }
    ensures view { seat.new.me.0 ≡ seat.old.me.0 }
    ensures bytes { OnOk result
        (GrowsByPinned seat.old.me.0.pins frame block (8 * index) (8 * index + 64) into.old.items
        into.new.items) }
    ensures added { OnOk result (length into.new.items ≡ length into.old.items + 64) }
    ensures refusal { IfErr result (λ e. e ≡ NoMemory) }
{
    let found = read_words(words, seat, frame, block, index);
    append_words(&found, into)?;
    Ok(())
}

/// Adds the bytes of a block from one place on, of a frame that the seat of a pin counts on: eight
/// words where this many are whole, and else those up to an end or to that of their word. Answers
/// where they end.
fn append_next(
    words: &Words,
    seat: &mut Place,
    frame: usize,
    block: usize,
    at: usize,
    to: usize,
    into: &mut Vec<u8>,
) -> Result<usize, Refusal>
    requires table { seat.old.table_id ≡ words.now.table_id }
    requires inside { (1025 * frame + 1024 < words.now.table_id.words)
        × (words.now.table_id.words ≤ 1049600) × (block < 16) }
    requires range { (at < to) × (to ≤ 512) }
    ensures seat { IsSameSeat seat.old seat.new }
    ensures view { seat.new.me.0 ≡ seat.old.me.0 }
    ensures later { IfOk result (λ next. at < next) }
    ensures within { IfOk result (λ next. next ≤ to) }
    ensures bytes { IfOk result
        (λ next. GrowsByPinned seat.old.me.0.pins frame block at next into.old.items
        into.new.items) }
    ensures added { IfOk result
        (λ next. length into.new.items ≡ length into.old.items + (next - at)) }
    ensures refusal { IfErr result (λ e. e ≡ NoMemory) }
{
    let index = at / WORD_BYTES;
    let start = at % WORD_BYTES;
    if start == 0 && to - at >= RUN_BYTES {
        append_run(words, seat, frame, block, index, into)?;
        return Ok(at + RUN_BYTES);
    }
    let first = FRAME_WORDS * frame + 1 + BLOCK_WORDS * block;
    let word = read(words, seat, first + index);
    let end = WORD_BYTES.min(start + (to - at));
    append_word(word, start, end, into)?;
    Ok(at + (end - start))
}

/// Adds all bytes of a block of a frame that the seat of a pin counts on. They are written where
/// they are to be.
fn append_block(
    words: &Words,
    seat: &mut Place,
    frame: usize,
    block: usize,
    into: &mut Vec<u8>,
) -> Result<(), Refusal>
    requires table { seat.old.table_id ≡ words.now.table_id }
    requires inside { (1025 * frame + 1024 < words.now.table_id.words)
        × (words.now.table_id.words ≤ 1049600) × (block < 16) }
    ensures seat { IsSameSeat seat.old seat.new }
    ensures view { seat.new.me.0 ≡ seat.old.me.0 }
    ensures bytes { OnOk result
        (GrowsByPinned seat.old.me.0.pins frame block 0 512 into.old.items into.new.items) }
    ensures added { OnOk result (length into.new.items ≡ length into.old.items + 512) }
    ensures refusal { IfErr result (λ e. e ≡ NoMemory) }
{
    let start = into.len();
    into.resize(start + BLOCK_BYTES, 0)?;
    read_into(words, seat, frame, block, &mut into[start..]);
    Ok(())
}

/// Adds the bytes of a block from one place on and up to another, of a frame that the seat of a pin
/// counts on.
pub fn append_bytes(
    words: &Words,
    seat: &mut Place,
    frame: usize,
    block: usize,
    from: usize,
    to: usize,
    into: &mut Vec<u8>,
) -> Result<(), Refusal>
    requires table { seat.old.table_id ≡ words.now.table_id }
    requires inside { (1025 * frame + 1024 < words.now.table_id.words)
        × (words.now.table_id.words ≤ 1049600) × (block < 16) }
    requires range { (from ≤ to) × (to ≤ 512) }
    ensures seat { IsSameSeat seat.old seat.new }
    ensures view { seat.new.me.0 ≡ seat.old.me.0 }
    ensures bytes { OnOk result
        (GrowsByPinned seat.old.me.0.pins frame block from to into.old.items into.new.items) }
    ensures added { OnOk result (length into.new.items ≡ length into.old.items + (to - from)) }
    ensures refusal { IfErr result (λ e. e ≡ NoMemory) }
{
    if to - from == BLOCK_BYTES {
        return append_block(words, seat, frame, block, into);
    }
    let mut at = from;
    while at < to {
        at = append_next(words, seat, frame, block, at, to, into)?;
    }
    Ok(())
}

/// Adds the bytes of eight words of a block from that of an index on, as the drive's seat finds
/// them.
fn load_run(
    words: &Words,
    seat: &mut Place,
    frame: usize,
    block: usize,
    index: usize,
    into: &mut Vec<u8>,
) -> Result<(), Refusal>
    requires table { seat.old.table_id ≡ words.now.table_id }
    requires drive { seat.old.id ≡ 0 }
    requires inside { (frame < length seat.old.me.0.frames) × (block < 16) }
    requires sized { (words.now.table_id.words ≡ 1025 * length seat.old.me.0.frames)
        × (length seat.old.me.0.frames ≤ 1024) }
    requires index { index ≤ 56 }
    ensures seat { IsSameSeat seat.old seat.new }
    ensures view { seat.new.me.0 ≡ seat.old.me.0 }
    ensures bytes { OnOk result
        (GrowsByBlock (frame_at seat.old.me.0.frames frame).contents block (8 * index)
        (8 * index + 64) into.old.items into.new.items) }
    ensures added { OnOk result (length into.new.items ≡ length into.old.items + 64) }
    ensures refusal { IfErr result (λ e. e ≡ NoMemory) }
{
    let found = load_words(words, seat, frame, block, index);
    append_words(&found, into)?;
    Ok(())
}

/// Adds the bytes of a block from one place on, as the drive's seat finds them: eight words where
/// this many are whole, and else those up to an end or to that of their word. Answers where they
/// end.
fn load_next(
    words: &Words,
    seat: &mut Place,
    frame: usize,
    block: usize,
    at: usize,
    to: usize,
    into: &mut Vec<u8>,
) -> Result<usize, Refusal>
    requires table { seat.old.table_id ≡ words.now.table_id }
    requires drive { seat.old.id ≡ 0 }
    requires inside { (frame < length seat.old.me.0.frames) × (block < 16) }
    requires sized { (words.now.table_id.words ≡ 1025 * length seat.old.me.0.frames)
        × (length seat.old.me.0.frames ≤ 1024) }
    requires range { (at < to) × (to ≤ 512) }
    ensures seat { IsSameSeat seat.old seat.new }
    ensures view { seat.new.me.0 ≡ seat.old.me.0 }
    ensures later { IfOk result (λ next. at < next) }
    ensures within { IfOk result (λ next. next ≤ to) }
    ensures bytes { IfOk result
        (λ next. GrowsByBlock (frame_at seat.old.me.0.frames frame).contents block at next
        into.old.items into.new.items) }
    ensures added { IfOk result
        (λ next. length into.new.items ≡ length into.old.items + (next - at)) }
    ensures refusal { IfErr result (λ e. e ≡ NoMemory) }
{
    let index = at / WORD_BYTES;
    let start = at % WORD_BYTES;
    if start == 0 && to - at >= RUN_BYTES {
        load_run(words, seat, frame, block, index, into)?;
        return Ok(at + RUN_BYTES);
    }
    let first = FRAME_WORDS * frame + 1 + BLOCK_WORDS * block;
    let word = look(words, seat, first + index);
    let end = WORD_BYTES.min(start + (to - at));
    append_word(word, start, end, into)?;
    Ok(at + (end - start))
}

/// Adds all bytes of a block, as the drive's seat finds them. They are written where they are to
/// be.
fn load_whole(
    words: &Words,
    seat: &mut Place,
    frame: usize,
    block: usize,
    into: &mut Vec<u8>,
) -> Result<(), Refusal>
    requires table { seat.old.table_id ≡ words.now.table_id }
    requires drive { seat.old.id ≡ 0 }
    requires inside { (frame < length seat.old.me.0.frames) × (block < 16) }
    requires sized { (words.now.table_id.words ≡ 1025 * length seat.old.me.0.frames)
        × (length seat.old.me.0.frames ≤ 1024) }
    ensures seat { IsSameSeat seat.old seat.new }
    ensures view { seat.new.me.0 ≡ seat.old.me.0 }
    ensures bytes { OnOk result
        (GrowsByBlock (frame_at seat.old.me.0.frames frame).contents block 0 512 into.old.items
        into.new.items) }
    ensures added { OnOk result (length into.new.items ≡ length into.old.items + 512) }
    ensures refusal { IfErr result (λ e. e ≡ NoMemory) }
{
    let start = into.len();
    into.resize(start + BLOCK_BYTES, 0)?;
    load_into(words, seat, frame, block, &mut into[start..]);
    Ok(())
}

/// Adds the bytes of a block from one place on and up to another, as the drive's seat finds them.
pub fn load_bytes(
    words: &Words,
    seat: &mut Place,
    frame: usize,
    block: usize,
    from: usize,
    to: usize,
    into: &mut Vec<u8>,
) -> Result<(), Refusal>
    requires table { seat.old.table_id ≡ words.now.table_id }
    requires drive { seat.old.id ≡ 0 }
    requires inside { (frame < length seat.old.me.0.frames) × (block < 16) }
    requires sized { (words.now.table_id.words ≡ 1025 * length seat.old.me.0.frames)
        × (length seat.old.me.0.frames ≤ 1024) }
    requires range { (from ≤ to) × (to ≤ 512) }
    ensures seat { IsSameSeat seat.old seat.new }
    ensures view { seat.new.me.0 ≡ seat.old.me.0 }
    ensures bytes { OnOk result
        (GrowsByBlock (frame_at seat.old.me.0.frames frame).contents block from to into.old.items
        into.new.items) }
    ensures added { OnOk result (length into.new.items ≡ length into.old.items + (to - from)) }
    ensures refusal { IfErr result (λ e. e ≡ NoMemory) }
{
    if to - from == BLOCK_BYTES {
        return load_whole(words, seat, frame, block, into);
    }
    let mut next = from;
    while next < to {
        next = load_next(words, seat, frame, block, next, to, into)?;
    }
    Ok(())
}

/// These bytes become a block of an open frame.
pub fn store_block(words: &Words, seat: &mut Place, frame: usize, block: usize, bytes: &[u8; 512])
    requires table { seat.old.table_id ≡ words.now.table_id }
    requires drive { seat.old.id ≡ 0 }
    requires inside { (frame < length seat.old.me.0.frames) × (block < 16) }
    requires sized { (words.now.table_id.words ≡ 1025 * length seat.old.me.0.frames)
        × (length seat.old.me.0.frames ≤ 1024) }
    requires phase { (frame_at seat.old.me.0.frames frame).phase ≡ Open }
    ensures seat { IsSameSeat seat.old seat.new }
    ensures view { seat.new.me.0
        ≡ with_frame seat.old.me.0 frame
        (with_block (frame_at seat.old.me.0.frames frame) block bytes.now) }
    ensures whole { length (frame_at seat.old.me.0.frames frame).contents ≡ 1024 }
    ensures back { flat_map (big_bytes 8) (block_words bytes.now) ≡ bytes.now }
{
    for i in 0..BLOCK_WORDS {
        let value = BigEndian::read_u64(&bytes[WORD_BYTES * i..]);
        store(words, seat, frame, BLOCK_WORDS * block + i, value);
    }
}
