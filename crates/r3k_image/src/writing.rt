//! The image format, written.

ghost use Rattle.std.specs.Prelude.{◌≡◌, ◌<◌, ◌≤◌, ◌^◌, ◌++◌, ℕ, flat_map, length, Ok, IsSome, IfOk, OnOk};
ghost use Rattle.r3k_word.specs.Word.{bytes_of};
ghost use Rattle.r3k_word.specs.Layout.{place_of_word};
ghost use Rattle.r3k_word.specs.declared.layout.TheConstants.{MAX_RAM_PAGES};
ghost use Rattle.r3k_image.specs.Boot.{Boot, IsBoot, FitsRam};
ghost use Rattle.r3k_image.specs.Patch.{patched, patching};
ghost use Rattle.r3k_image.specs.Segments.{views, AreSegments};
ghost use Rattle.r3k_image.specs.Spelling.{segment};
ghost use Rattle.r3k_image.specs.Reading.{image_at};
ghost use Rattle.r3k_image.specs.Writing.{runs_in, bytes_of_image, AreLongest, words_in};
ghost use Rattle.std.specs.FinMap as map;

use crate::header::MAGIC;
use crate::image::Image;
use crate::runs::longest_runs;
use crate::segment::Segment;
use r3k_word::bytes::to_bytes;
use std::alloc::{AllocError, Global};

/// Appends a number of 32 bits.
fn push_number(bytes: &mut Vec<u8>, number: u32) -> Result<(), AllocError>
    ensures { OnOk result (bytes.new.items ≡ bytes.old.items ++ bytes_of number) }
{
    bytes.extend_from_slice(&to_bytes(number))
}

/// Appends words.
fn push_words(bytes: &mut Vec<u8>, words: &[u32]) -> Result<(), AllocError>
    ensures { OnOk result (bytes.new.items ≡ bytes.old.items ++ flat_map bytes_of words.now) }
{
    for word in words {
        push_number(bytes, *word)?;
    }
    Ok(())
}

/// Appends segments: of each its address, the number of its words, and its words.
fn push_segments(bytes: &mut Vec<u8>, segments: &[Segment]) -> Result<(), AllocError>
    requires { AreSegments 0 (views segments.now) }
    ensures { OnOk result (bytes.new.items ≡
        bytes.old.items ++ flat_map segment (views segments.now)) }
{
    for segment in segments {
        push_number(bytes, segment.address)?;
        push_number(bytes, segment.words.len() as u32)?;
        push_words(bytes, &segment.words)?;
    }
    Ok(())
}

/// The bytes of an image in the image format: its set words as the longest runs, in ascending order.
pub fn write_image(alloc: Global, image: &Image) -> Result<Vec<u8>, AllocError>
    ensures { IfOk result (λ bytes. bytes.items ≡ bytes_of_image image.now) }
{
    let runs = longest_runs(alloc, &image.segments)?;
    let mut bytes = Vec::from_slice(alloc, &MAGIC)?;
    push_number(&mut bytes, u32::from(image.byte_time))?;
    push_number(&mut bytes, u32::from(image.unit))?;
    bytes.extend_from_slice(&image.clock_start)?;
    push_number(&mut bytes, runs.len() as u32)?;
    push_segments(&mut bytes, &runs)?;
    Ok(bytes)
}

/// What is written is read again. What is written are the longest runs of the set words. A word that has a place can be patched,
/// and the image still fits where it did.
pub fn image_laws()
    ensures read { (boot : Boot) → IsBoot boot → image_at (bytes_of_image boot) ≡ Ok boot }
    ensures longest { (boot : Boot) → AreLongest (runs_in boot) }
    ensures words { (boot : Boot) → words_in (runs_in boot) ≡ map.entries boot.words }
    ensures patched { (address word : ℕ) (boot : Boot) → IsBoot boot → IsSome (place_of_word MAX_RAM_PAGES address) →
        word < 2 ^ 32 → IsBoot (patched address word boot) }
    ensures fits { (pages address word : ℕ) (boot : Boot) → IsSome (place_of_word pages address) →
        FitsRam pages boot → FitsRam pages (patched address word boot) }
    ensures taken { (pages address word : ℕ) (boot : Boot) → pages ≤ MAX_RAM_PAGES →
        IsSome (place_of_word pages address) →
        patching MAX_RAM_PAGES address word boot ≡ Ok (patched address word boot) }
{}
