//! The number of a word in a page that is run in.

ghost use Rattle.std.specs.Prelude.{◌≡◌, ◌+◌, ◌*◌, ◌^◌, ◌<◌, ◌≤◌};
ghost use Rattle.r3k_word.specs.Word.{sum_of};
ghost use Rattle.r3k_word.specs.declared.layout.TheConstants.{PAGE_BYTES, PAGE_WORDS};

use r3k_machine::CodePage;
use r3k_word::arithmetic::{add, subtract};
use r3k_word::layout::PAGE_BYTES;
use std::marker::Model;

/// The number of a word in a page, or of the one after the last. It is kept as the place of what is known of the word, so that a loop of
/// steps counts nothing else.
#[derive(Drop)]
pub(crate) struct WordIndex {
    // The places of what is known of the page's first word, and of this one.
    first: usize,
    place: usize,
}

impl Model for WordIndex {
    ghost use Rattle.std.specs.Prelude.{ℕ, ◌+◌, ◌-◌, ◌^◌, ◌<◌, ◌≤◌};
    ghost use Rattle.r3k_word.specs.declared.layout.TheConstants.{PAGE_WORDS};

    ghost Value = { ℕ };

    ghost view = { λ i. i.place - i.first };

    ghost invariant = { λ i. (i.first < 2 ^ 29) × (i.first ≤ i.place) × (i.place ≤ i.first + PAGE_WORDS) };
}

impl WordIndex {
    /// This number, in a page of which what is known begins at a place.
    #[inline(always)]
    pub(crate) fn new(first: usize, number: usize) -> WordIndex
        requires first { first < 2 ^ 29 }
        requires number { number ≤ PAGE_WORDS }
        ensures { result ≡ number }
    {
        WordIndex {
            first,
            place: first + number,
        }
    }

    /// The number.
    #[inline(always)]
    pub(crate) fn number(&self) -> usize
        ensures number { result ≡ self.now }
        ensures within { result ≤ PAGE_WORDS }
    {
        self.place - self.first
    }

    /// That of the next word.
    #[inline(always)]
    pub(crate) fn advance(&mut self)
        requires { self.old < PAGE_WORDS }
        ensures { self.new ≡ self.old + 1 }
    {
        self.place += 1;
    }

    /// The address of the word in a page.
    #[inline(always)]
    pub(crate) fn address(&self, page: CodePage) -> u32
        requires { page.number < 2 ^ 20 }
        ensures { result ≡ sum_of (page.number * PAGE_BYTES) (4 * self.now) }
    {
        let place = self.place as u32;
        // Four times the place. It is rotated, so that the compiler does not count addresses beside places.
        let bytes = place % 0x4000_0000 * 4 + place / 0x4000_0000;
        add(
            subtract(page.number * PAGE_BYTES, self.first as u32 * 4),
            bytes,
        )
    }
}
