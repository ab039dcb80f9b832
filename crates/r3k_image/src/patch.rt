//! A patch of an image: one word is set. A refused one leaves the image as it was.

ghost use Rattle.std.specs.Prelude.{◌≡◌, OnOk, OnErr};
ghost use Rattle.std.specs.Ordering.{nat_cmp};
ghost use Rattle.std.specs.FinMap.{put};
ghost use Rattle.r3k_image.specs.Entries.{IsPlaced};
ghost use Rattle.r3k_image.specs.Segments.{views, AreSegments};
ghost use Rattle.r3k_image.specs.Writing.{words_in};

use crate::image::Image;
use crate::segment::{Segment, count_up_to};
use r3k_word::layout::{MAX_RAM_PAGES, place_of};
use refusal::Fault;
use std::alloc::AllocError;

impl Image {
    ghost use Rattle.refusal.specs.Given.{ChangesOrLacks};
    ghost use Rattle.r3k_word.specs.declared.layout.TheConstants.{MAX_RAM_PAGES};
    ghost use Rattle.r3k_image.specs.Patch.{patching};

    /// Sets the word at a physical address, whether the image sets one there or not. `Unaligned` if the address is not a
    /// multiple of 4; else `NotMemory` if it is neither below 0x02000000 nor in ROM; else `Memory` if memory ran out.
    pub fn patch(&mut self, address: u32, word: u32) -> Result<(), Fault>
        ensures { ChangesOrLacks (patching MAX_RAM_PAGES address word self.old) self.old self.new result }
    {
        if address % 4 != 0 {
            return Err(Fault::Unaligned);
        }
        if place_of(MAX_RAM_PAGES, address).is_none() {
            return Err(Fault::NotMemory);
        }
        if put_word(&mut self.segments, address, word).is_err() {
            return Err(Fault::Memory);
        }
        Ok(())
    }
}

// Writes a word over the one at its address, or else appends it to the segment that ends there, or else makes a segment of
// it. Only that segment is touched, and if memory runs out none is.
fn put_word(segments: &mut Vec<Segment>, address: u32, word: u32) -> Result<(), AllocError>
    requires stand { AreSegments 0 (views segments.old.items) }
    requires placed { IsPlaced 0 address word }
    ensures words { OnOk result (words_in (views segments.new.items) ≡
        put nat_cmp address word (words_in (views segments.old.items))) }
    ensures stand { OnOk result (AreSegments 0 (views segments.new.items)) }
    ensures kept { OnErr result (views segments.new.items ≡ views segments.old.items) }
{
    let count = count_up_to(segments, address);
    if count > 0 {
        let segment = &mut segments[count - 1];
        let offset = (address - segment.address) as usize / 4;
        if offset < segment.words.len() {
            segment.words[offset] = word;
            return Ok(());
        }
        if offset == segment.words.len() {
            segment.words.push(word)?;
            return Ok(());
        }
    }
    let words = vec![in *segments.allocator(); word]?;
    segments.insert(count, Segment { address, words })?;
    Ok(())
}
