//! The image of a raw ROM.

ghost use Rattle.std.specs.Prelude.{◌≡◌, ◌<◌, ◌≤◌, ◌↔◌, length, IfOk, IsErrOf};
ghost use Rattle.r3k_image.specs.Boot.{IsBoot};
ghost use Rattle.r3k_image.specs.Reading.{ReadsOrLacks, rom_words, raw_rom_at};

use crate::constants::{PLAIN_BYTE_TIME, PLAIN_CLOCK_START, PLAIN_UNIT};
use crate::fault::{ImageFault, ImageKind};
use crate::image::Image;
use crate::reading::read_words;
use crate::segment::Segment;
use byteorder::{ByteOrder, LittleEndian};
use r3k_word::layout::{ROM_BYTES, ROM_START};
use std::alloc::{AllocError, Global};

/// The words of the bytes, the last part filled with zero bytes.
fn read_padded_words(alloc: Global, bytes: &[u8]) -> Result<Vec<u32>, AllocError>
    ensures { IfOk result (λ words. words.items ≡ rom_words bytes.now) }
{
    let (whole, part) = bytes.split_at(bytes.len() / 4 * 4);
    let mut words = read_words(alloc, whole)?;
    if !part.is_empty() {
        let mut last = [0; 4];
        last[..part.len()].copy_from_slice(part);
        words.push(LittleEndian::read_u32(&last))?;
    }
    Ok(words)
}

/// The image of a raw ROM: it sets the words of ROM that the bytes reach, the last part filled with zero bytes. Its
/// constants are the plain ones.
#[tactic(auto, unfolding(crate::specs::Reading::raw_rom_at))]
pub fn raw_rom(alloc: Global, bytes: &[u8]) -> Result<Image, ImageFault>
    // It is this image, or the fault that it has, unless memory runs out.
    ensures exact { ReadsOrLacks (λ image. image) result (raw_rom_at bytes.now) }
    ensures too_large { IsErrOf result (ImageFault.Bad ImageKind.RawSize) ↔
        (ROM_BYTES < length bytes.now) }
    // Memory is asked for only where there are bytes, and not too many.
    ensures memory { IsErrOf result ImageFault.Memory →
        (0 < length bytes.now) × (length bytes.now ≤ ROM_BYTES) }
    ensures boot { IfOk result IsBoot }
{
    if bytes.len() > ROM_BYTES as usize {
        return Err(ImageFault::Bad(ImageKind::RawSize));
    }
    let mut segments = Vec::new(alloc);
    if !bytes.is_empty() {
        let words = read_padded_words(alloc, bytes)?;
        segments.push(Segment {
            address: ROM_START,
            words,
        })?;
    }
    Ok(Image {
        segments,
        byte_time: PLAIN_BYTE_TIME,
        unit: PLAIN_UNIT,
        clock_start: PLAIN_CLOCK_START,
    })
}
