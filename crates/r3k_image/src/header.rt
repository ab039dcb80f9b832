//! What stands before the segments of an image.

ghost use Rattle.r3k_word.specs.Reading.{ReadsAs};
ghost use Rattle.r3k_image.specs.Reading.{constant_at, header_at};

use crate::fault::ImageKind;
use r3k_word::reading::{read_bytes, read_number};

/// The first eight bytes of an image.
pub const MAGIC: [u8; 8] = *b"R3KIMG1\n";

/// What stands before the segments.
#[derive(Clone, Copy, Debug)]
pub struct Header {
    pub byte_time: u16,
    pub unit: u16,
    pub clock_start: [u8; 12],
    pub segment_count: u32,
}

/// A number from 1 to 65,535, and the bytes after it, or else this fault.
#[tactic(auto, unfolding(crate::specs::Reading::constant_at))]
fn read_constant(fault: ImageKind, bytes: &[u8]) -> Result<(u16, &[u8]), ImageKind>
    ensures { ReadsAs (λ x. (x.0, x.1.now)) result (constant_at fault bytes.now) }
{
    let (number, rest) = read_number(ImageKind::Short, bytes)?;
    if number == 0 || number > 0xFFFF {
        return Err(fault);
    }
    Ok((number as u16, rest))
}

/// What stands before the segments, and the bytes after it.
#[tactic(auto, unfolding(crate::specs::Reading::header_at))]
pub fn read_header(bytes: &[u8]) -> Result<(Header, &[u8]), ImageKind>
    ensures { ReadsAs (λ x. (x.0, x.1.now)) result (header_at bytes.now) }
{
    let (magic, rest) = read_bytes(ImageKind::Short, 8, bytes)?;
    if magic != MAGIC.as_slice() {
        return Err(ImageKind::Magic);
    }
    let (byte_time, rest) = read_constant(ImageKind::ByteTime, rest)?;
    let (unit, rest) = read_constant(ImageKind::Unit, rest)?;
    let (registers, rest) = read_bytes(ImageKind::Short, 12, rest)?;
    if registers[10] >= 0x80 || registers[11] % 2 != 0 {
        return Err(ImageKind::ClockStart);
    }
    let mut clock_start = [0; 12];
    clock_start.copy_from_slice(registers);
    let (segment_count, rest) = read_number(ImageKind::Short, rest)?;
    let header = Header {
        byte_time,
        unit,
        clock_start,
        segment_count,
    };
    Ok((header, rest))
}
