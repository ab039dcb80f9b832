//! The image format, read from left to right.

ghost use Rattle.std.specs.Prelude.{◌≡◌, ◌+◌, ◌*◌, ◌/◌, ◌%◌, ◌≤◌, ◌<◌, length, IfOk, Ok, IsOk, IsErrOf};
ghost use Rattle.r3k_image.specs.Boot.{Boot, IsBoot};
ghost use Rattle.r3k_image.specs.Segments.{views, view, may_stand};
ghost use Rattle.r3k_image.specs.Spelling.{Spells};
ghost use Rattle.r3k_image.specs.Reading.{ReadsOrLacks, words_of, segment_at, segments_at, image_at, HasSegment};

use crate::fault::{ImageFault, ImageKind};
use crate::header::read_header;
use crate::image::Image;
use crate::segment::Segment;
use byteorder::{ByteOrder, LittleEndian};
use r3k_word::layout::{MAX_RAM_PAGES, PAGE_WORDS, ROM_BYTES, ROM_START};
use r3k_word::reading::{read_bytes, read_number};
use std::alloc::{AllocError, Global};

/// The words of the bytes, which are four for each word.
pub fn read_words(alloc: Global, bytes: &[u8]) -> Result<Vec<u32>, AllocError>
    requires { length bytes.now % 4 ≡ 0 }
    ensures { IfOk result (λ words. words.items ≡ words_of (length bytes.now / 4) bytes.now) }
{
    let mut words = vec![in alloc; 0; bytes.len() / 4]?;
    LittleEndian::read_u32_into(bytes, &mut words);
    Ok(words)
}

/// Whether `count` words may stand at an address, after a segment that ends at `start`.
fn is_place(start: u64, address: u32, count: u32) -> bool
    ensures { result ≡ may_stand start address count }
{
    let begin = u64::from(address);
    let end = begin + 4 * u64::from(count);
    let ram_end = u64::from(MAX_RAM_PAGES) * 4 * u64::from(PAGE_WORDS);
    let rom = u64::from(ROM_START);
    address % 4 == 0
        && count > 0
        && start <= begin
        && (end <= ram_end || (rom <= begin && end <= rom + u64::from(ROM_BYTES)))
}

/// A segment after one that ends at `start`, and the bytes after it.
#[tactic(auto, unfolding(crate::specs::Reading::segment_at))]
fn read_segment(alloc: Global, start: u64, bytes: &[u8]) -> Result<(Segment, &[u8]), ImageFault>
    ensures value { ReadsOrLacks (λ x. (view x.0, x.1.now)) result (segment_at start bytes.now) }
    ensures memory { IsErrOf result ImageFault.Memory → IsOk (segment_at start bytes.now) }
{
    let (address, rest) = read_number(ImageKind::Short, bytes)?;
    let (count, rest) = read_number(ImageKind::Short, rest)?;
    if !is_place(start, address, count) {
        return Err(ImageFault::Bad(ImageKind::Segment));
    }
    let (words, rest) = read_bytes(ImageKind::Short, 4 * count as usize, rest)?;
    let words = read_words(alloc, words)?;
    Ok((Segment { address, words }, rest))
}

/// `count` segments, and the bytes after them.
fn read_segments(
    alloc: Global,
    count: u32,
    bytes: &[u8],
) -> Result<(Vec<Segment>, &[u8]), ImageFault>
    ensures value { ReadsOrLacks (λ x. (views x.0.items, x.1.now)) result
        (segments_at count 0 bytes.now) }
    ensures memory { IsErrOf result ImageFault.Memory →
        (0 < count) × IsOk (segment_at 0 bytes.now) }
{
    let mut segments = Vec::new(alloc);
    let mut start = 0;
    let mut rest = bytes;
    for _ in 0..count {
        let (segment, after) = read_segment(alloc, start, rest)?;
        start = u64::from(segment.address) + 4 * segment.words.len() as u64;
        rest = after;
        segments.push(segment)?;
    }
    Ok((segments, rest))
}

/// The image that all of the bytes are.
#[tactic(auto, unfolding(crate::specs::Reading::image_at))]
fn read_all(alloc: Global, bytes: &[u8]) -> Result<Image, ImageFault>
    ensures exact { ReadsOrLacks (λ image. image) result (image_at bytes.now) }
    ensures memory { IsErrOf result ImageFault.Memory → HasSegment bytes.now }
{
    let (header, rest) = read_header(bytes)?;
    let (segments, rest) = read_segments(alloc, header.segment_count, rest)?;
    if !rest.is_empty() {
        return Err(ImageFault::Bad(ImageKind::Extra));
    }
    let clock_start = header.clock_start;
    Ok(Image {
        segments,
        byte_time: header.byte_time,
        unit: header.unit,
        clock_start,
    })
}

/// The image that all of the bytes spell: eight bytes of magic, the byte time, the unit, 12 registers of the
/// clock, the number of segments, and then each segment, as its address, the number of its words, and its words. Numbers
/// have 32 bits, little-endian.
pub fn read_image(alloc: Global, bytes: &[u8]) -> Result<Image, ImageFault>
    // What is read is spelled so, and keeps what each image keeps.
    ensures found { IfOk result (λ image. Spells bytes.now image × IsBoot image) }
    // What is spelled so is read, unless memory runs out.
    ensures only { (boot : Boot) → Spells bytes.now boot →
        ReadsOrLacks (λ image. image) result (Ok boot) }
    // Which fault it is: the first from left to right.
    ensures exact { ReadsOrLacks (λ image. image) result (image_at bytes.now) }
    // Memory is asked for only where a whole segment is there.
    ensures memory { IsErrOf result ImageFault.Memory → HasSegment bytes.now }
{
    read_all(alloc, bytes)
}
