//! The boot image.

ghost use Rattle.std.specs.Prelude.{◌≡◌, ◌%◌, ◌<◌, ◌↔◌, IsTrue};
ghost use Rattle.std.specs.FinMap as map;
ghost use Rattle.r3k_image.specs.Boot.{IsBlank, IsBoot, FitsRam};

use crate::segment::{Segment, last_segment_at};
use r3k_word::layout::{PAGE_WORDS, ROM_START};
use std::marker::Model;

/// A boot image: the words that it sets, the byte time of the serial part, the unit of the clock, and the registers that
/// the clock starts with. Words that it does not set are 0.
// The segments stand in ascending order and apart, though they may touch, and none is empty.
#[derive(Debug, Drop)]
pub struct Image {
    pub(crate) segments: Vec<Segment>,
    pub(crate) byte_time: u16,
    pub(crate) unit: u16,
    pub(crate) clock_start: [u8; 12],
}

impl Model for Image {
    ghost use Rattle.r3k_image.specs.Boot.{Boot, boot_code};

    ghost Value = { Boot };

    ghost coded = { boot_code };

    ghost use Rattle.r3k_image.specs.Segments.{IsMadeOf, boot_of, views};

    ghost view = { λ i. boot_of (views i.segments.items) i.byte_time i.unit i.clock_start };

    ghost invariant = { λ i. IsMadeOf (views i.segments.items)
        (boot_of (views i.segments.items) i.byte_time i.unit i.clock_start) };
}

impl Image {
    /// The word that the image sets at a physical address, if it sets one there.
    pub fn word(&self, address: u32) -> Option<u32>
        ensures { result ≡ map.get self.now.words address }
    {
        let segment = last_segment_at(&self.segments, address)?;
        let offset = address - segment.address;
        if offset % 4 != 0 {
            return None;
        }
        segment.words.get(offset as usize / 4).copied()
    }

    /// Whether every set word of RAM lies in the first `ram_pages` pages of RAM.
    pub fn fits(&self, ram_pages: u32) -> bool
        ensures { IsTrue result ↔ FitsRam ram_pages self.now }
    {
        match last_segment_at(&self.segments, ROM_START - 1) {
            None => true,
            Some(segment) => {
                let end = u64::from(segment.address) + 4 * segment.words.len() as u64;
                end <= 4 * u64::from(PAGE_WORDS) * u64::from(ram_pages)
            }
        }
    }

    /// Whether it sets no word from one physical address on, that of a word, up to another one.
    pub fn is_blank(&self, start: u32, end: u32) -> bool
        requires some { start < end }
        requires aligned { start % 4 ≡ 0 }
        ensures { IsTrue result ↔ IsBlank start end self.now }
    {
        match last_segment_at(&self.segments, end - 1) {
            None => true,
            Some(segment) => {
                let last = u64::from(segment.address) + 4 * segment.words.len() as u64;
                last <= u64::from(start)
            }
        }
    }

    /// How many steps the serial part takes to send a byte, from 1 to 65,535.
    pub fn byte_time(&self) -> u16
        ensures value { result ≡ self.now.byte_time }
        ensures boot { IsBoot self.now }
    {
        self.byte_time
    }

    /// The unit of the clock, from 1 to 65,535: a second has 8192 times as many steps.
    pub fn unit(&self) -> u16
        ensures value { result ≡ self.now.unit }
        ensures boot { IsBoot self.now }
    {
        self.unit
    }

    /// What registers 0 to 11 of the clock start with.
    pub fn clock_start(&self) -> [u8; 12]
        ensures value { result ≡ self.now.clock_start }
        ensures boot { IsBoot self.now }
    {
        self.clock_start
    }
}
