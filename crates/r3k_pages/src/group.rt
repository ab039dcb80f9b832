//! Pages by groups: a snapshot that changes one page shares all groups but that page's.

ghost use Rattle.std.specs.Prelude.{◌≡◌, ◌+◌, ◌/◌, ◌^◌, ◌<◌, ◌≤◌, ℕ, IfOk, IfSome, IsFalse, if◌then◌else◌, length, map, not, slice_index_or, slice_set, []};
ghost use Rattle.r3k_word.specs.Layout.{word_count_of};
ghost use Rattle.r3k_word.specs.declared.layout.TheConstants.{MAX_RAM_PAGES, PAGE_WORDS};
ghost use Rattle.r3k_pages.specs.Groups.{IsGroupOf, IsPageOf, group_count_of};
ghost use Rattle.r3k_pages.specs.Pages.{SameOutside, SameOutsideBlocks, holds, page_count_of};

use crate::page::{PAGE_BLOCKS, Page, shared};
use crate::page_marks::{PageMarks, touches};
use crate::snapshot::{Snapshot, page_count};
use r3k_word::layout::PAGE_WORDS;
use std::alloc::{AllocError, Global};
use std::marker::Model;
use std::rc::Rc;

/// How many pages a group has.
pub(crate) const GROUP_PAGES: usize = 32;

/// Pages one after another. After the last page of memory stand pages that nothing reads, up to the group's end.
#[derive(Drop)]
pub(crate) struct Group {
    pages: Vec<Rc<Page>>,
}

impl Model for Group {
    ghost use Rattle.std.specs.Prelude.{◌≡◌, List, ℕ, length, map};
    ghost use Rattle.r3k_pages.specs.declared.group.TheConstants.{GROUP_PAGES};

    ghost Value = { List (List ℕ) };

    ghost view = { λ group. map (λ page. page.value) group.pages.items };

    ghost invariant = { λ group. length group.pages.items ≡ GROUP_PAGES };
}

impl Group {
    ghost use Rattle.r3k_pages.specs.declared.group.TheConstants.{GROUP_PAGES};

    /// The group with the pages of a set taken from another one, where its own first page has this number. It copies no words.
    pub(crate) fn overlay<const PAGES: u32>(
        &self,
        alloc: Global,
        set: &PageMarks<PAGES>,
        other: &Group,
        first: usize,
    ) -> Result<Rc<Group>, AllocError>
        requires { first + GROUP_PAGES < 2 ^ 32 }
        ensures { IfOk result (λ group. (index : ℕ) → index < GROUP_PAGES →
            slice_index_or group.value index [] ≡ slice_index_or (if holds set.now (first + index) then other.now else self.now) index []) }
    {
        let mut pages = Vec::with_capacity(alloc, GROUP_PAGES)?;
        for index in 0..GROUP_PAGES {
            let page = if set.holds((first + index) as u32) {
                other.page(index)
            } else {
                self.page(index)
            };
            pages.push(page.clone()?)?;
        }
        Group::new(alloc, pages)
    }

    /// A group of these pages.
    fn new(alloc: Global, pages: Vec<Rc<Page>>) -> Result<Rc<Group>, AllocError>
        requires { length pages.items ≡ GROUP_PAGES }
        ensures { IfOk result (λ group. group.value ≡ map (λ page. page.value) pages.items) }
    {
        Rc::new(alloc, Group { pages }).map_err(|_| AllocError)
    }

    /// A page of the group.
    pub(crate) fn page(&self, index: usize) -> &Rc<Page>
        requires { index < GROUP_PAGES }
        ensures { result.now.value ≡ slice_index_or self.now index [] }
    {
        &self.pages[index]
    }

    /// The group with a word of one of its pages set.
    pub(crate) fn with_word(
        &self,
        alloc: Global,
        index: usize,
        place: usize,
        word: u32,
    ) -> Result<Rc<Group>, AllocError>
        requires index { index < GROUP_PAGES }
        requires place { place < PAGE_WORDS }
        ensures set { IfOk result (λ group. group.value ≡ slice_set self.now index (slice_set (slice_index_or self.now index []) place word)) }
        ensures pages { length self.now ≡ GROUP_PAGES }
        ensures words { IfOk result (λ _. length (slice_index_or self.now index []) ≡ PAGE_WORDS) }
    {
        let mut pages = shared(alloc, &self.pages)?;
        pages[index] = self.page(index).with_word(alloc, place, word)?;
        Group::new(alloc, pages)
    }
}

// A page of memory: the earlier one where it stayed, or else a copy, which shares the blocks that stayed. Where there is no earlier one, it
// shares those of the page before it that are the same, as most are blank.
fn page_of<const PAGES: u32>(
    alloc: Global,
    words: &[u32],
    previous: Option<&Snapshot<PAGES>>,
    dirty: &PageMarks<PAGES>,
    marks: Option<&[bool]>,
    page: usize,
    before: Option<&Rc<Page>>,
) -> Result<Rc<Page>, AllocError>
    requires pages { PAGES ≤ MAX_RAM_PAGES }
    requires whole { length words.now ≡ word_count_of PAGES }
    requires page { page < page_count_of PAGES }
    requires same { IfSome previous (λ previous. SameOutside dirty.now previous.now words.now) }
    requires blocks { IfSome previous (λ previous. IfSome marks (λ marks. SameOutsideBlocks marks.now previous.now words.now)) }
    ensures { IfOk result (λ result. IsPageOf words.now page result.value) }
{
    let start = page * PAGE_WORDS as usize;
    let words = &words[start..start + PAGE_WORDS as usize];
    match previous {
        None => Page::new(alloc, words, before),
        Some(previous) if dirty.holds(page as u32) => {
            let earlier = previous.page(page);
            match marks {
                None => Page::new(alloc, words, Some(earlier)),
                Some(marks) => earlier.after(alloc, words, marks, page * PAGE_BLOCKS),
            }
        }
        Some(previous) => previous.page(page).clone(),
    }
}

/// A group of the pages of memory: the earlier one where all its pages stayed, or else those pages that stayed and copies of the
/// others.
pub(crate) fn group_of<const PAGES: u32>(
    alloc: Global,
    words: &[u32],
    previous: Option<&Snapshot<PAGES>>,
    dirty: &PageMarks<PAGES>,
    marks: Option<&[bool]>,
    group: usize,
) -> Result<Rc<Group>, AllocError>
    requires pages { PAGES ≤ MAX_RAM_PAGES }
    requires whole { length words.now ≡ word_count_of PAGES }
    requires group { group < group_count_of PAGES }
    requires same { IfSome previous (λ previous. SameOutside dirty.now previous.now words.now) }
    requires blocks { IfSome previous (λ previous. IfSome marks (λ marks. SameOutsideBlocks marks.now previous.now words.now)) }
    ensures { IfOk result (λ result. IsGroupOf PAGES words.now group result.value) }
{
    match previous {
        Some(previous) if !touches(dirty, group) => previous.group(group).clone(),
        _ => copied_group(alloc, words, previous, dirty, marks, group),
    }
}

// The same where a page of it may have changed.
fn copied_group<const PAGES: u32>(
    alloc: Global,
    words: &[u32],
    previous: Option<&Snapshot<PAGES>>,
    dirty: &PageMarks<PAGES>,
    marks: Option<&[bool]>,
    group: usize,
) -> Result<Rc<Group>, AllocError>
    requires pages { PAGES ≤ MAX_RAM_PAGES }
    requires whole { length words.now ≡ word_count_of PAGES }
    requires group { group < group_count_of PAGES }
    requires same { IfSome previous (λ previous. SameOutside dirty.now previous.now words.now) }
    requires blocks { IfSome previous (λ previous. IfSome marks (λ marks. SameOutsideBlocks marks.now previous.now words.now)) }
    ensures { IfOk result (λ result. IsGroupOf PAGES words.now group result.value) }
{
    let last = page_count(PAGES) - 1;
    let mut pages = Vec::with_capacity(alloc, GROUP_PAGES)?;
    for index in 0..GROUP_PAGES {
        let page = (group * GROUP_PAGES + index).min(last);
        let made = page_of(alloc, words, previous, dirty, marks, page, pages.last())?;
        pages.push(made)?;
    }
    Group::new(alloc, pages)
}
