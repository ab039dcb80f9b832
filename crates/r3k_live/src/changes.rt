//! What of memory may have changed since a state that was kept: pages, and blocks of words in them.

ghost use Rattle.std.specs.Prelude.{◌≡◌, ◌+◌, ◌*◌, ◌/◌, ◌<◌, ◌≤◌, ◌||◌, ℕ, [], All, IfOk, IsFalse, IsTrue, List, Some, false, length, slice_index_or};
ghost use Rattle.r3k_word.specs.declared.layout.TheConstants.{MAX_RAM_PAGES};
ghost use Rattle.r3k_pages.specs.Pages.{holds, page_count_of};
ghost use Rattle.r3k_pages.specs.declared.page.TheConstants.{PAGE_BLOCKS};
ghost use Rattle.r3k_machine.specs.Reports.{DifferAt, IsRamWord};
ghost use Rattle.r3k_live.specs.Changes.{AreChanges};

use r3k_pages::{BLOCK_WORDS, PAGE_BLOCKS, PageMarks};
use r3k_word::layout::PAGE_BYTES;
use std::alloc::{AllocError, Global};
use std::marker::Model;

/// Pages of a machine with `PAGES` pages of RAM, and marks for blocks of words. All room is taken when it is made.
#[derive(Drop)]
pub(crate) struct Changes<const PAGES: u32> {
    pages: PageMarks<PAGES>,
    blocks: Vec<bool>,
}

impl<const PAGES: u32> Model for Changes<PAGES> {
    ghost use Rattle.std.specs.Prelude.{◌≡◌, ◌*◌, ◌≤◌, length};
    ghost use Rattle.r3k_word.specs.declared.layout.TheConstants.{MAX_RAM_PAGES};
    ghost use Rattle.r3k_pages.specs.declared.page.TheConstants.{PAGE_BLOCKS};
    ghost use Rattle.r3k_live.specs.Changes.{Changes};

    ghost Value = { Changes };

    ghost view = { λ changes. record { pages = changes.pages; blocks = changes.blocks.items } };

    ghost invariant = { λ changes. (PAGES ≤ MAX_RAM_PAGES) × (length changes.blocks.items ≡ PAGES * PAGE_BLOCKS) };
}

impl<const PAGES: u32> Changes<PAGES> {
    /// None.
    pub(crate) fn new(alloc: Global) -> Result<Changes<PAGES>, AllocError>
        requires { PAGES ≤ MAX_RAM_PAGES }
        ensures { IfOk result (λ changes. changes.pages ≡ []) }
    {
        Ok(Changes {
            pages: PageMarks::new(alloc)?,
            blocks: vec![in alloc; false; PAGES as usize * PAGE_BLOCKS]?,
        })
    }

    /// The pages.
    pub(crate) fn pages(&self) -> &PageMarks<PAGES>
        ensures { result.now ≡ self.now.pages }
    {
        &self.pages
    }

    /// The marks of blocks.
    pub(crate) fn blocks(&self) -> &[bool]
        ensures { result.now ≡ self.now.blocks }
    {
        &self.blocks
    }

    /// Forgets all.
    pub(crate) fn clear(&mut self)
        ensures { self.new.pages ≡ [] }
    {
        unmark::<PAGES>(&mut self.blocks, self.pages.pages());
        self.pages.clear();
    }

    /// Adds a word that is stored into.
    pub(crate) fn mark(&mut self, address: u32)
        requires { IsRamWord PAGES address }
        ensures { (a b c : List ℕ) → AreChanges self.old a b → DifferAt (Some address) b c → AreChanges self.new a c }
    {
        self.blocks[address as usize / 4 / BLOCK_WORDS] = true;
        self.pages.mark(address / PAGE_BYTES);
    }

    /// Adds pages, and the marked blocks in them.
    pub(crate) fn add(&mut self, pages: &[u32], blocks: &[bool])
        requires within { All (λ page. page < page_count_of PAGES) pages.now }
        requires whole { length blocks.now ≡ PAGES * PAGE_BLOCKS }
        ensures pages { (page : ℕ) → holds self.new.pages page ≡ (holds self.old.pages page || holds pages.now page) }
        ensures kept { (block : ℕ) → IsFalse (slice_index_or self.new.blocks block false) → IsFalse (slice_index_or self.old.blocks block false) }
        ensures added { (block : ℕ) → IsTrue (holds pages.now (block / PAGE_BLOCKS)) → IsFalse (slice_index_or self.new.blocks block false) →
            IsFalse (slice_index_or blocks.now block false) }
    {
        self.pages.add(pages);
        mark_all::<PAGES>(&mut self.blocks, pages, blocks);
    }
}

// Marks the marked blocks of pages.
fn mark_all<const PAGES: u32>(marks: &mut Vec<bool>, pages: &[u32], more: &[bool])
    requires few { PAGES ≤ MAX_RAM_PAGES }
    requires long { length marks.old.items ≡ PAGES * PAGE_BLOCKS }
    requires whole { length more.now ≡ PAGES * PAGE_BLOCKS }
    ensures long { length marks.new.items ≡ length marks.old.items }
    ensures kept { (block : ℕ) → IsFalse (slice_index_or marks.new.items block false) → IsFalse (slice_index_or marks.old.items block false) }
    ensures added { (block : ℕ) → IsTrue (holds pages.now (block / PAGE_BLOCKS)) → IsFalse (slice_index_or marks.new.items block false) →
        IsFalse (slice_index_or more.now block false) }
{
    for page in pages {
        // No word of ROM is stored into.
        if *page < PAGES {
            mark_page(marks, *page, more);
        }
    }
}

// Marks the marked blocks of a page.
fn mark_page(marks: &mut Vec<bool>, page: u32, more: &[bool])
    requires within { (page + 1) * PAGE_BLOCKS ≤ length marks.old.items }
    requires whole { length more.now ≡ length marks.old.items }
    ensures long { length marks.new.items ≡ length marks.old.items }
    ensures kept { (block : ℕ) → IsFalse (slice_index_or marks.new.items block false) → IsFalse (slice_index_or marks.old.items block false) }
    ensures added { (block : ℕ) → block / PAGE_BLOCKS ≡ page → IsFalse (slice_index_or marks.new.items block false) → IsFalse (slice_index_or more.now block false) }
{
    let first = page as usize * PAGE_BLOCKS;
    for block in first..first + PAGE_BLOCKS {
        if more[block] {
            marks[block] = true;
        }
    }
}

// Takes the marks of pages away.
fn unmark<const PAGES: u32>(marks: &mut Vec<bool>, pages: &[u32])
    requires few { PAGES ≤ MAX_RAM_PAGES }
    requires long { length marks.old.items ≡ PAGES * PAGE_BLOCKS }
    ensures { length marks.new.items ≡ length marks.old.items }
{
    for page in pages {
        // No word of ROM is stored into.
        if *page < PAGES {
            let first = *page as usize * PAGE_BLOCKS;
            marks[first..first + PAGE_BLOCKS].fill(false);
        }
    }
}
