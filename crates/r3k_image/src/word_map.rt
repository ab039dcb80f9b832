//! Words by their addresses, and the image that sets them.

ghost use Rattle.std.specs.Prelude.{◌≡◌, IfOk, OnOk};
ghost use Rattle.std.specs.Prelude.{not, IsSome, ◌^◌, ◌<◌};
ghost use Rattle.std.specs.FinMap as map;
ghost use Rattle.r3k_word.specs.Layout.{place_of_word};
ghost use Rattle.r3k_image.specs.Segments.{views, AreSegments};
ghost use Rattle.r3k_image.specs.Writing.{runs_of};

use crate::constants::{ClockStart, Constant};
use crate::image::Image;
use crate::runs::push_words;
use crate::segment::Segment;
use r3k_word::layout::{MAX_RAM_PAGES, place_of};
use std::alloc::{AllocError, Global};
use std::collections::BTreeMap;
use std::marker::Model;

/// The physical address of a word of RAM or ROM.
#[derive(Clone, Copy, Debug, PartialEq, Eq)]
pub struct WordAddress {
    address: u32,
}

impl Model for WordAddress {
    ghost use Rattle.std.specs.Prelude.{ℕ, ◌^◌, ◌<◌, IsSome};
    ghost use Rattle.r3k_word.specs.Layout.{place_of_word};
    ghost use Rattle.r3k_word.specs.declared.layout.TheConstants.{MAX_RAM_PAGES};

    ghost Value = { ℕ };

    ghost view = { λ a. a.address };

    ghost invariant = { λ a. IsSome (place_of_word MAX_RAM_PAGES a.address) };

    ghost inverse = { λ n. record { address = n } };
}

impl WordAddress {
    ghost use Rattle.std.specs.Option.{SomeIff};

    /// The address, if it is that of a word.
    pub fn new(address: u32) -> Option<WordAddress>
        ensures { SomeIff result (IsSome (place_of_word MAX_RAM_PAGES address)) address }
    {
        if place_of(MAX_RAM_PAGES, address).is_some() {
            Some(WordAddress { address })
        } else {
            None
        }
    }

    /// The address.
    pub fn get(self) -> u32
        ensures value { result ≡ self }
        ensures place { IsSome (place_of_word MAX_RAM_PAGES result) }
    {
        self.address
    }
}

/// Words of RAM and ROM by their physical addresses.
#[derive(Drop)]
pub struct WordMap {
    words: BTreeMap<u32, u32>,
}

impl Model for WordMap {
    ghost use Rattle.std.specs.Prelude.{ℕ};
    ghost use Rattle.std.specs.Ordering.{nat_cmp};
    ghost use Rattle.std.specs.Coded.{coded_ℕ};
    ghost use Rattle.std.specs.FinMap as map;
    ghost use Rattle.r3k_image.specs.Entries.{AreEntries};

    ghost Value = { map.FinMap nat_cmp ℕ };

    ghost coded = { map.code coded_ℕ coded_ℕ };

    ghost view = { λ w. map.from_entries w.words.entries };

    ghost invariant = { λ w. AreEntries 0 w.words.entries };
}

impl WordMap {
    /// No words.
    pub fn new(alloc: Global) -> WordMap
        ensures { result ≡ map.empty }
    {
        WordMap {
            words: BTreeMap::new(alloc),
        }
    }

    /// Sets a word, and reports whether there was none at its address.
    pub fn insert(&mut self, address: WordAddress, word: u32) -> Result<bool, AllocError>
        ensures new { IfOk result (λ new. new ≡ not (map.contains_key self.old address)) }
        ensures words { OnOk result (self.new ≡ map.insert self.old address word) }
    {
        let old = self.words.insert(address.get(), word)?;
        Ok(old.is_none())
    }

    /// The longest runs of the words.
    fn runs(&self, alloc: Global) -> Result<Vec<Segment>, AllocError>
        ensures runs { IfOk result (λ runs. views runs.items ≡ runs_of (map.entries self.now)) }
        ensures stand { IfOk result (λ runs. AreSegments 0 (views runs.items)) }
    {
        let mut runs = Vec::new(alloc);
        for (address, word) in &self.words {
            push_words(alloc, &mut runs, *address, &[*word])?;
        }
        Ok(runs)
    }

    /// The image that sets the words, with these constants.
    pub fn image(
        &self,
        alloc: Global,
        byte_time: Constant,
        unit: Constant,
        clock_start: ClockStart,
    ) -> Result<Image, AllocError>
        ensures { IfOk result (λ image. image ≡ record {
          words = self.now;
          byte_time = byte_time;
          unit = unit;
          clock_start = clock_start;
        }) }
    {
        let segments = self.runs(alloc)?;
        Ok(Image {
            segments,
            byte_time: byte_time.get(),
            unit: unit.get(),
            clock_start: clock_start.get(),
        })
    }
}
