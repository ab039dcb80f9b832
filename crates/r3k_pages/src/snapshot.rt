//! A snapshot: the words of RAM and ROM at a time.

ghost use Rattle.std.specs.Prelude.{◌≡◌, ◌+◌, ◌*◌, ◌<◌, ◌≤◌, ◌↔◌, ℕ, IfOk, IfSome, IsFalse, IsTrue, [], length, map, slice_index, slice_index_or, slice_set};
ghost use Rattle.r3k_word.specs.Layout.{page_of_place, word_count_of};
ghost use Rattle.r3k_word.specs.declared.layout.TheConstants.{MAX_RAM_PAGES, PAGE_WORDS};
ghost use Rattle.r3k_pages.specs.Groups.{IsGroupOf, IsPageOf, group_count_of};
ghost use Rattle.r3k_pages.specs.Pages.{SameOutside, SameOutsideBlocks, SamePage, holds, overlaid, page_count_of};

use crate::group::{GROUP_PAGES, Group, group_of};
use crate::page::{Page, shared};
use crate::page_marks::{PageMarks, touches};
use r3k_word::layout::{PAGE_WORDS, ROM_PAGES, page_of};
use std::alloc::{AllocError, Global};
use std::marker::Model;
use std::rc::Rc;

/// The words of RAM and ROM at a time, on a machine with `PAGES` pages of RAM. Snapshots share pages, and groups of them, that are
/// known to be equal.
#[derive(Drop)]
pub struct Snapshot<const PAGES: u32> {
    groups: Vec<Rc<Group>>,
}

impl<const PAGES: u32> Model for Snapshot<PAGES> {
    ghost use Rattle.std.specs.Prelude.{◌≡◌, ◌≤◌, List, ℕ, length, map};
    ghost use Rattle.r3k_word.specs.declared.layout.TheConstants.{MAX_RAM_PAGES};
    ghost use Rattle.r3k_pages.specs.Groups.{group_count_of, words_in};

    ghost Value = { List ℕ };

    ghost view = { λ s. words_in PAGES (map (λ group. group.value) s.groups.items) };

    ghost invariant = { λ s. (length s.groups.items ≡ group_count_of PAGES) × (PAGES ≤ MAX_RAM_PAGES) };
}

/// How many pages RAM and ROM have together.
pub(crate) fn page_count(ram_pages: u32) -> usize
    ensures { result ≡ page_count_of ram_pages }
{
    ram_pages as usize + ROM_PAGES as usize
}

// How many groups these are in, the last one with room.
fn group_count(ram_pages: u32) -> usize
    ensures { result ≡ group_count_of ram_pages }
{
    page_count(ram_pages).div_ceil(GROUP_PAGES)
}

impl<const PAGES: u32> Snapshot<PAGES> {
    /// The snapshot of all words of a memory. With an earlier snapshot it shares that one's pages outside a set of pages, `dirty`,
    /// outside which both have the same words.
    pub fn capture(
        alloc: Global,
        words: &[u32],
        previous: Option<&Snapshot<PAGES>>,
        dirty: &PageMarks<PAGES>,
    ) -> Result<Snapshot<PAGES>, AllocError>
        requires pages { PAGES ≤ MAX_RAM_PAGES }
        requires whole { length words.now ≡ word_count_of PAGES }
        requires same { IfSome previous (λ previous. SameOutside dirty.now previous.now words.now) }
        ensures { IfOk result (λ s. s ≡ words.now) }
    {
        Snapshot::made(alloc, words, previous, dirty, None)
    }

    /// The snapshot of all words of a memory, which are those of this one but in a set of pages, `dirty`, and there in marked blocks. It
    /// shares the other pages, and of these looks at marked blocks alone.
    pub fn after(
        &self,
        alloc: Global,
        words: &[u32],
        dirty: &PageMarks<PAGES>,
        marks: &[bool],
    ) -> Result<Snapshot<PAGES>, AllocError>
        requires pages { PAGES ≤ MAX_RAM_PAGES }
        requires whole { length words.now ≡ word_count_of PAGES }
        requires same { SameOutside dirty.now self.now words.now }
        requires blocks { SameOutsideBlocks marks.now self.now words.now }
        ensures { IfOk result (λ s. s ≡ words.now) }
    {
        Snapshot::made(alloc, words, Some(self), dirty, Some(marks))
    }

    // The same, with marks or without.
    fn made(
        alloc: Global,
        words: &[u32],
        previous: Option<&Snapshot<PAGES>>,
        dirty: &PageMarks<PAGES>,
        marks: Option<&[bool]>,
    ) -> Result<Snapshot<PAGES>, AllocError>
        requires pages { PAGES ≤ MAX_RAM_PAGES }
        requires whole { length words.now ≡ word_count_of PAGES }
        requires same { IfSome previous (λ previous. SameOutside dirty.now previous.now words.now) }
        requires blocks { IfSome previous (λ previous. IfSome marks (λ marks. SameOutsideBlocks marks.now previous.now words.now)) }
        ensures { IfOk result (λ s. s ≡ words.now) }
    {
        let count = group_count(PAGES);
        let mut groups = Vec::with_capacity(alloc, count)?;
        for group in 0..count {
            groups.push(group_of(alloc, words, previous, dirty, marks, group)?)?;
        }
        Ok(Snapshot { groups })
    }

    /// The snapshot with the word at a place set. It shares all other pages, and all groups without that page.
    pub fn with_word(
        &self,
        alloc: Global,
        place: usize,
        word: u32,
    ) -> Result<Snapshot<PAGES>, AllocError>
        requires { place < word_count_of PAGES }
        ensures { IfOk result (λ s. s ≡ slice_set self.now place word) }
    {
        let page = page_of(place);
        let group = page / GROUP_PAGES;
        let at = place % PAGE_WORDS as usize;
        let mut groups = shared(alloc, &self.groups)?;
        groups[group] = groups[group].with_word(alloc, page % GROUP_PAGES, at, word)?;
        Ok(Snapshot { groups })
    }

    /// The snapshot with the pages of a set taken from another one. It shares the pages of both, and all groups without a page of
    /// the set: no words are copied.
    pub fn overlay(
        &self,
        alloc: Global,
        pages: &PageMarks<PAGES>,
        other: &Snapshot<PAGES>,
    ) -> Result<Snapshot<PAGES>, AllocError>
        ensures { IfOk result (λ s. s ≡ overlaid pages.now self.now other.now) }
    {
        let mut groups = Vec::with_capacity(alloc, self.groups.len())?;
        for group in 0..self.groups.len() {
            groups.push(self.overlaid_group(alloc, pages, other, group)?)?;
        }
        Ok(Snapshot { groups })
    }

    /// The list of all words has those of all pages. Nothing runs here.
    pub fn whole(&self)
        ensures { length self.now ≡ word_count_of PAGES }
    {
        // The groups are read, so that their number is known here.
        let _groups = &self.groups;
    }

    /// The word at a place in the list of all words.
    pub fn word(&self, place: usize) -> u32
        requires { place < word_count_of PAGES }
        ensures { result ≡ slice_index self.now place }
    {
        self.page(page_of(place)).word(place % PAGE_WORDS as usize)
    }

    /// Whether a page has the same words in both.
    pub fn same_page(&self, page: u32, other: &Snapshot<PAGES>) -> bool
        requires { page < page_count_of PAGES }
        ensures { IsTrue result ↔ SamePage page self.now other.now }
    {
        self.page(page as usize).is_same(other.page(page as usize))
    }

    /// Whether both have the same words, where those outside a set of pages, the differing ones, are the same.
    pub fn same_words(&self, other: &Snapshot<PAGES>, differing: &PageMarks<PAGES>) -> bool
        requires { SameOutside differing.now self.now other.now }
        ensures { IsTrue result ↔ (self.now ≡ other.now) }
    {
        // The groups are read, so that their number is known here.
        let _groups = &self.groups;
        let _others = &other.groups;
        for page in differing.pages() {
            if !self.same_page(*page, other) {
                return false;
            }
        }
        true
    }

    /// Whether both have the same words.
    pub fn equals(&self, other: &Snapshot<PAGES>) -> bool
        ensures { IsTrue result ↔ (self.now ≡ other.now) }
    {
        // The groups are read, so that their number is known here.
        let _groups = &self.groups;
        let _others = &other.groups;
        for page in 0..PAGES + ROM_PAGES {
            if !self.same_page(page, other) {
                return false;
            }
        }
        true
    }

    /// Makes a memory hold its words, which holds those of another snapshot but for a set of pages, `changed`. Outside the set it
    /// copies no page that is blank in both.
    pub fn copy_to(&self, words: &mut [u32], held: &Snapshot<PAGES>, changed: &PageMarks<PAGES>)
        requires whole { length words.old ≡ word_count_of PAGES }
        requires held { SameOutside changed.now held.now words.old }
        ensures { words.new ≡ self.now }
    {
        // The groups are read, so that their number is known here.
        let _groups = &self.groups;
        for page in 0..page_count(PAGES) {
            self.bring(page, words, held, changed);
        }
    }

    // Makes a page of a memory hold its words, unless it is known to hold them.
    fn bring(
        &self,
        page: usize,
        words: &mut [u32],
        held: &Snapshot<PAGES>,
        changed: &PageMarks<PAGES>,
    )
        requires page { page < page_count_of PAGES }
        requires whole { length words.old ≡ word_count_of PAGES }
        requires held { IsFalse (holds changed.now page) → SamePage page held.now words.old }
        ensures whole { length words.new ≡ word_count_of PAGES }
        ensures same { (place : ℕ) → page_of_place place ≡ page → slice_index words.new place ≡ slice_index self.now place }
        ensures others { (place : ℕ) → ¬ (page_of_place place ≡ page) → slice_index words.new place ≡ slice_index words.old place }
    {
        // The groups are read, so that their number is known here.
        let _groups = &self.groups;
        if !changed.holds(page as u32) && self.page(page).is_known_same(held.page(page)) {
            return;
        }
        self.copy_page(page, words);
    }

    // Makes a page of a memory hold its words.
    fn copy_page(&self, page: usize, words: &mut [u32])
        requires page { page < page_count_of PAGES }
        requires whole { length words.old ≡ word_count_of PAGES }
        ensures whole { length words.new ≡ word_count_of PAGES }
        ensures same { (place : ℕ) → page_of_place place ≡ page → slice_index words.new place ≡ slice_index self.now place }
        ensures others { (place : ℕ) → ¬ (page_of_place place ≡ page) → slice_index words.new place ≡ slice_index words.old place }
    {
        // The groups are read, so that their number is known here.
        let _groups = &self.groups;
        let start = page * PAGE_WORDS as usize;
        self.page(page)
            .copy_to(&mut words[start..start + PAGE_WORDS as usize]);
    }

    // A group with the pages of a set taken from another snapshot.
    fn overlaid_group(
        &self,
        alloc: Global,
        pages: &PageMarks<PAGES>,
        other: &Snapshot<PAGES>,
        group: usize,
    ) -> Result<Rc<Group>, AllocError>
        requires { group < group_count_of PAGES }
        ensures { IfOk result (λ result. IsGroupOf PAGES (overlaid pages.now self.now other.now) group result.value) }
    {
        // The groups are read, so that their number is known here.
        let _groups = &self.groups;
        let own = self.group(group);
        if !touches(pages, group) {
            return own.clone();
        }
        own.overlay(alloc, pages, other.group(group), group * GROUP_PAGES)
    }

    // A group of pages.
    pub(crate) fn group(&self, group: usize) -> &Rc<Group>
        requires { group < group_count_of PAGES }
        ensures { IsGroupOf PAGES self.now group result.now.value }
    {
        &self.groups[group]
    }

    // A page.
    pub(crate) fn page(&self, page: usize) -> &Rc<Page>
        requires { page < page_count_of PAGES }
        ensures { IsPageOf self.now page result.now.value }
    {
        self.group(page / GROUP_PAGES).page(page % GROUP_PAGES)
    }
}
