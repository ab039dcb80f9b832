//! The words that steps stored into, each with its last step, and their pages.

ghost use Rattle.std.specs.Prelude.{◌≡◌, ◌+◌, ◌-◌, ◌*◌, ◌/◌, ◌^◌, ◌<◌, ◌≤◌, ◌||◌, ◌++◌, ℕ, [], All, Contains, IfOk, IfSome, IsFalse, IsTrue, false, length, nat_eq, slice_index, slice_index_or, slice_set, true};
ghost use Rattle.r3k_word.specs.Layout.{page_of_place};
ghost use Rattle.r3k_word.specs.declared.layout.TheConstants.{MAX_RAM_PAGES, PAGE_BYTES, PAGE_WORDS};
ghost use Rattle.r3k_pages.specs.Pages.{holds};
ghost use Rattle.r3k_machine.specs.Locality.{is_page};
ghost use Rattle.r3k_machine.specs.Reports.{IsRamWord};
ghost use Rattle.r3k_live.specs.Kept.{kept_step};
ghost use Rattle.r3k_live.specs.Recording.{page_of_store, with_writer};
ghost use Rattle.r3k_live.specs.Stores.{AreInBlocks, AreInPages, HaveTheirPages, writers_in};
ghost use Rattle.r3k_live.specs.Waiting.{IsHeld, IsPassedBy, come_later, held_at, is_among};
ghost use Rattle.r3k_live.specs.declared.stores.Held.{Held};
ghost use Rattle.r3k_pages.specs.declared.block.TheConstants.{BLOCK_WORDS};
ghost use Rattle.r3k_pages.specs.declared.page.TheConstants.{PAGE_BLOCKS};

use crate::destinations::step_of;
use crate::recorder::Written;
use arrayvec::ArrayVec;
use r3k_pages::{BLOCK_WORDS, PAGE_BLOCKS, PageMarks};
use r3k_word::layout::PAGE_WORDS;
use std::alloc::{AllocError, Global};
use std::marker::Model;

/// A word of RAM, by its place, with what it holds.
#[derive(Clone, Copy, Debug, Default, PartialEq, Eq)]
pub struct Held {
    pub place: u32,
    pub word: u32,
}

/// How many words are held at most.
pub const HELD: usize = 64;

/// For each word of RAM the last step that stored into it, and the pages that were stored into, on a machine with `PAGES` pages of RAM.
/// All room is taken when it is made.
#[derive(Drop)]
pub struct Stores<const PAGES: u32> {
    // For each word one more than its last step, or 0.
    last: Vec<u32>,
    // For each block of words whether a step stored into it, so that few words are looked at for those that have a step.
    blocks: Vec<bool>,
    dirty: PageMarks<PAGES>,
}

impl<const PAGES: u32> Model for Stores<PAGES> {
    ghost use Rattle.r3k_live.specs.Stores.{AreKept, Stores};

    ghost Value = { Stores };

    ghost view = { λ s. record { last = s.last.items; dirty = s.dirty } };

    ghost invariant = { λ s. AreKept PAGES s.last.items s.blocks.items s.dirty };
}

impl<const PAGES: u32> Stores<PAGES> {
    /// None. All its memory is taken here.
    pub fn new(alloc: Global) -> Result<Stores<PAGES>, AllocError>
        requires { PAGES ≤ MAX_RAM_PAGES }
        ensures long { IfOk result (λ stores. length stores.last ≡ PAGES * PAGE_WORDS) }
        ensures none { IfOk result (λ stores. (place : ℕ) → slice_index stores.last place ≡ 0) }
        ensures dirty { IfOk result (λ stores. stores.dirty ≡ []) }
    {
        Ok(Stores {
            last: vec![in alloc; 0; PAGES as usize * PAGE_WORDS as usize]?,
            blocks: vec![in alloc; false; PAGES as usize * PAGE_BLOCKS]?,
            dirty: PageMarks::new(alloc)?,
        })
    }

    /// Forgets all.
    pub fn clear(&mut self)
        ensures long { length self.new.last ≡ length self.old.last }
        ensures none { (place : ℕ) → slice_index self.new.last place ≡ 0 }
        ensures dirty { self.new.dirty ≡ [] }
    {
        forget::<PAGES>(&mut self.last, &mut self.blocks, self.dirty.pages());
        self.dirty.clear();
    }

    /// Notes with the word that a step stored into, if it did, that it was the last one. Says whether the page of that word may be
    /// new.
    #[inline(always)]
    pub fn note(&mut self, address: Option<u32>, step: u32) -> bool
        requires within { IfSome address (IsRamWord PAGES) }
        requires step { step < 2 ^ 32 - 1 }
        ensures last { self.new.last ≡ with_writer self.old.last step address }
        ensures dirty { (page : ℕ) → holds self.new.dirty page ≡ (holds self.old.dirty page || is_page page (page_of_store address)) }
        ensures again { IsFalse result → IfSome address (λ address. IsTrue (holds self.old.dirty (address / PAGE_BYTES))) }
    {
        let Some(address) = address else {
            return false;
        };
        let place = address as usize / 4;
        self.last[place] = step + 1;
        let block = place / BLOCK_WORDS;
        // The page of a marked block is marked, too.
        if self.blocks[block] {
            return false;
        }
        mark_block(&mut self.blocks, &mut self.dirty, block);
        true
    }

    /// The last step that stored into a word, given by its place, if one did.
    pub fn last(&self, place: u32) -> Option<u32>
        requires { place < PAGES * PAGE_WORDS }
        ensures { kept_step result ≡ slice_index self.now.last place }
    {
        step_of(self.last[place as usize])
    }

    /// The words that were stored into, in ascending order, each with its last step.
    pub fn written(&self, alloc: Global) -> Result<Vec<Written>, AllocError>
        ensures { IfOk result (λ written. written.items ≡ writers_in 0 (PAGES * PAGE_WORDS) self.now.last) }
    {
        let mut written = Vec::new(alloc);
        for page in &self.dirty.ascending(alloc)? {
            // No word of ROM is stored into.
            if *page < PAGES {
                add_of_page(&mut written, &self.last, &self.blocks, *page)?;
            }
        }
        Vec::from_slice(alloc, &written)
    }

    /// The words that steps after so many stored into, with what they hold of these words, if they are few.
    pub fn held(&self, since: u32, words: &[u32]) -> Option<ArrayVec<Held, HELD>>
        requires words { PAGES * PAGE_WORDS ≤ length words.now }
        ensures are { IfSome result (λ held. All (IsHeld since self.now.last words.now) held.items) }
        ensures all { IfSome result (λ held. (place : ℕ) → since < slice_index self.now.last place → Contains held.items (held_at words.now place)) }
    {
        let mut held = ArrayVec::new();
        for page in self.dirty.pages() {
            // No word of ROM is stored into.
            if *page < PAGES
                && !hold_page(&mut held, &self.last, &self.blocks, words, since, *page)
            {
                return None;
            }
        }
        Some(held)
    }

    /// The last steps of these words come later by as many as have passed, but for those after `steps`.
    pub fn pass(&mut self, passed: u32, steps: u32, held: &[Held])
        requires fits { steps + passed < 2 ^ 32 }
        requires held { All (IsPassedBy steps passed self.old.last) held.now }
        ensures last { (place : ℕ) → slice_index self.new.last place ≡ come_later (is_among held.now place) steps passed (slice_index self.old.last place) }
        ensures long { length self.new.last ≡ length self.old.last }
        ensures dirty { self.new.dirty ≡ self.old.dirty }
    {
        come_later(&mut self.last, passed, steps, held);
    }

    /// Marks for blocks of words. That of each word with a step has one.
    pub fn blocks(&self) -> &[bool]
        ensures marked { AreInBlocks self.now.last result.now }
        ensures whole { length result.now ≡ PAGES * PAGE_BLOCKS }
    {
        &self.blocks
    }

    /// The pages that were stored into.
    pub fn dirty(&self) -> &PageMarks<PAGES>
        ensures { result.now ≡ self.now.dirty }
    {
        &self.dirty
    }
}

// Adds the words of a page that have a step.
fn add_of_page(
    written: &mut Vec<Written>,
    last: &[u32],
    blocks: &[bool],
    page: u32,
) -> Result<(), AllocError>
    requires within { (page + 1) * PAGE_WORDS ≤ length last.now }
    requires few { length last.now < 2 ^ 32 }
    requires whole { length last.now ≡ length blocks.now * BLOCK_WORDS }
    requires marked { AreInBlocks last.now blocks.now }
    ensures { IfOk result (λ _. written.new.items ≡ written.old.items ++ writers_in (page * PAGE_WORDS) PAGE_WORDS last.now) }
{
    let first = page as usize * PAGE_BLOCKS;
    for block in first..first + PAGE_BLOCKS {
        if blocks[block] {
            add_of_block(written, last, block)?;
        }
    }
    Ok(())
}

// Adds the words of a block that have a step.
fn add_of_block(written: &mut Vec<Written>, last: &[u32], block: usize) -> Result<(), AllocError>
    requires within { (block + 1) * BLOCK_WORDS ≤ length last.now }
    requires few { length last.now < 2 ^ 32 }
    ensures { IfOk result (λ _. written.new.items ≡ written.old.items ++ writers_in (block * BLOCK_WORDS) BLOCK_WORDS last.now) }
{
    let first = block * BLOCK_WORDS;
    for place in first..first + BLOCK_WORDS {
        if let Some(step) = last[place].checked_sub(1) {
            written.push(Written {
                place: place as u32,
                step,
            })?;
        }
    }
    Ok(())
}

// Marks a block and its page. Most stores go to a block that is marked.
#[cold]
#[inline(never)]
fn mark_block<const PAGES: u32>(blocks: &mut Vec<bool>, dirty: &mut PageMarks<PAGES>, block: usize)
    requires whole { length blocks.old.items ≡ PAGES * PAGE_BLOCKS }
    requires within { block < PAGES * PAGE_BLOCKS }
    ensures blocks { blocks.new.items ≡ slice_set blocks.old.items block true }
    ensures dirty { (page : ℕ) → holds dirty.new page ≡ (holds dirty.old page || nat_eq (block / PAGE_BLOCKS) page) }
{
    blocks[block] = true;
    dirty.mark((block / PAGE_BLOCKS) as u32);
}

// Forgets the steps of all words and the marks of all blocks, which lie in these pages.
fn forget<const PAGES: u32>(last: &mut Vec<u32>, blocks: &mut Vec<bool>, pages: &[u32])
    requires long { length last.old.items ≡ PAGES * PAGE_WORDS }
    requires whole { length blocks.old.items ≡ PAGES * PAGE_BLOCKS }
    requires blocks { AreInBlocks last.old.items blocks.old.items }
    requires pages { AreInPages last.old.items pages.now }
    requires dirty { HaveTheirPages blocks.old.items pages.now }
    ensures long { length last.new.items ≡ length last.old.items }
    ensures whole { length blocks.new.items ≡ length blocks.old.items }
    ensures none { (place : ℕ) → slice_index last.new.items place ≡ 0 }
    ensures unmarked { (block : ℕ) → IsFalse (slice_index_or blocks.new.items block false) }
{
    for page in pages {
        // No word of ROM is stored into.
        if *page < PAGES {
            forget_page(last, blocks, *page);
        }
    }
}

// Forgets the steps of the words of a page and the marks of its blocks.
fn forget_page(last: &mut Vec<u32>, blocks: &mut Vec<bool>, page: u32)
    requires within { (page + 1) * PAGE_BLOCKS ≤ length blocks.old.items }
    requires whole { length last.old.items ≡ length blocks.old.items * BLOCK_WORDS }
    requires blocks { AreInBlocks last.old.items blocks.old.items }
    ensures long { length last.new.items ≡ length last.old.items }
    ensures whole { length blocks.new.items ≡ length blocks.old.items }
    ensures blocks { AreInBlocks last.new.items blocks.new.items }
    ensures none { (place : ℕ) → page_of_place place ≡ page → slice_index last.new.items place ≡ 0 }
    ensures fewer { (place : ℕ) → 0 < slice_index last.new.items place → 0 < slice_index last.old.items place }
    ensures unmarked { (block : ℕ) → block / PAGE_BLOCKS ≡ page → IsFalse (slice_index_or blocks.new.items block false) }
    ensures fewer_marked { (block : ℕ) → IsTrue (slice_index_or blocks.new.items block false) → IsTrue (slice_index_or blocks.old.items block false) }
{
    let first = page as usize * PAGE_BLOCKS;
    for block in first..first + PAGE_BLOCKS {
        if blocks[block] {
            blocks[block] = false;
            forget_block(last, block);
        }
    }
}

// Forgets the steps of the words of a block.
fn forget_block(last: &mut Vec<u32>, block: usize)
    requires { (block + 1) * BLOCK_WORDS ≤ length last.old.items }
    ensures long { length last.new.items ≡ length last.old.items }
    ensures none { (place : ℕ) → place / BLOCK_WORDS ≡ block → slice_index last.new.items place ≡ 0 }
    ensures others { (place : ℕ) → ¬ (place / BLOCK_WORDS ≡ block) → slice_index last.new.items place ≡ slice_index last.old.items place }
{
    let first = block * BLOCK_WORDS;
    for place in first..first + BLOCK_WORDS {
        last[place] = 0;
    }
}

// Adds the words of a page that have a step after so many. Says whether there was room.
fn hold_page(
    held: &mut ArrayVec<Held, HELD>,
    last: &[u32],
    blocks: &[bool],
    words: &[u32],
    since: u32,
    page: u32,
) -> bool
    requires within { (page + 1) * PAGE_WORDS ≤ length last.now }
    requires few { length last.now < 2 ^ 32 }
    requires whole { length last.now ≡ length blocks.now * BLOCK_WORDS }
    requires marked { AreInBlocks last.now blocks.now }
    requires words { length last.now ≤ length words.now }
    ensures are { All (IsHeld since last.now words.now) held.old.items → All (IsHeld since last.now words.now) held.new.items }
    ensures more { (word : Held) → Contains held.old.items word → Contains held.new.items word }
    ensures all { IsTrue result → (place : ℕ) → page_of_place place ≡ page → since < slice_index last.now place → Contains held.new.items (held_at words.now place) }
{
    let first = page as usize * PAGE_BLOCKS;
    for block in first..first + PAGE_BLOCKS {
        if blocks[block] && !hold_block(held, last, words, since, block) {
            return false;
        }
    }
    true
}

// Adds the words of a block that have a step after so many. Says whether there was room.
fn hold_block(
    held: &mut ArrayVec<Held, HELD>,
    last: &[u32],
    words: &[u32],
    since: u32,
    block: usize,
) -> bool
    requires within { (block + 1) * BLOCK_WORDS ≤ length last.now }
    requires few { length last.now < 2 ^ 32 }
    requires words { length last.now ≤ length words.now }
    ensures are { All (IsHeld since last.now words.now) held.old.items → All (IsHeld since last.now words.now) held.new.items }
    ensures more { (word : Held) → Contains held.old.items word → Contains held.new.items word }
    ensures all { IsTrue result → (place : ℕ) → place / BLOCK_WORDS ≡ block → since < slice_index last.now place → Contains held.new.items (held_at words.now place) }
{
    let first = block * BLOCK_WORDS;
    for place in first..first + BLOCK_WORDS {
        if last[place] > since {
            if held.is_full() {
                return false;
            }
            held.push(Held {
                place: place as u32,
                word: words[place],
            });
        }
    }
    true
}

// The last steps of these words come later by as many as have passed, but for those after `steps`.
fn come_later(last: &mut Vec<u32>, passed: u32, steps: u32, held: &[Held])
    requires fits { steps + passed < 2 ^ 32 }
    requires held { All (IsPassedBy steps passed last.old.items) held.now }
    ensures long { length last.new.items ≡ length last.old.items }
    ensures last { (place : ℕ) → slice_index last.new.items place ≡ come_later (is_among held.now place) steps passed (slice_index last.old.items place) }
{
    for word in held {
        let place = word.place as usize;
        if last[place] <= steps {
            last[place] += passed;
        }
    }
}
