//! A set of pages with room for all of them, made once.

ghost use Rattle.std.specs.Prelude.{◌≡◌, ◌/◌, ◌^◌, ◌<◌, ◌≤◌, ◌||◌, ◌&&◌, ◌↔◌, ◌⊎◌, ℕ, [], All, IfOk, IsFalse, IsTrue, false, filter, length, nat_eq, not, slice_index_or, vec_capacity};
ghost use Rattle.std.specs.List.{IsDistinct};
ghost use Rattle.r3k_word.specs.declared.layout.TheConstants.{MAX_RAM_PAGES};
ghost use Rattle.r3k_pages.specs.declared.group.TheConstants.{GROUP_PAGES};
ghost use Rattle.r3k_pages.specs.Marking.{AreMarked};
ghost use Rattle.r3k_pages.specs.Pages.{IsPageSet, SameOutside, SamePage, holds, page_count_of, pages_where};

use crate::group::GROUP_PAGES;
use crate::snapshot::{Snapshot, page_count};
use r3k_word::layout::ROM_PAGES;
use std::alloc::{AllocError, Global};
use std::marker::Model;

/// A set of pages, on a machine with `PAGES` pages of RAM: the list of them, each once, in the order in which they were added. All
/// room is taken when it is made.
#[derive(Drop)]
pub struct PageMarks<const PAGES: u32> {
    marks: Vec<bool>,
    pages: Vec<u32>,
}

impl<const PAGES: u32> Model for PageMarks<PAGES> {
    ghost use Rattle.std.specs.Prelude.{List, ℕ, vec_capacity};
    ghost use Rattle.r3k_pages.specs.Marking.{AreMarked};

    ghost Value = { List ℕ };

    ghost view = { λ m. m.pages.items };

    ghost invariant = { λ m. AreMarked PAGES (vec_capacity m.pages) m.marks.items m.pages.items };
}

impl<const PAGES: u32> PageMarks<PAGES> {
    /// No page. All its memory is taken here.
    pub fn new(alloc: Global) -> Result<PageMarks<PAGES>, AllocError>
        requires { PAGES ≤ MAX_RAM_PAGES }
        ensures { IfOk result (λ m. m ≡ []) }
    {
        Ok(PageMarks {
            marks: vec![in alloc; false; page_count(PAGES)]?,
            pages: Vec::with_capacity(alloc, page_count(PAGES))?,
        })
    }

    /// Takes all pages out.
    pub fn clear(&mut self)
        ensures { self.new ≡ [] }
    {
        self.marks.fill(false);
        self.pages.clear();
    }

    /// Adds a page, which may be there.
    #[inline]
    pub fn mark(&mut self, page: u32)
        requires { page < page_count_of PAGES }
        ensures { (other : ℕ) → holds self.new other ≡ (holds self.old other || nat_eq page other) }
    {
        mark::<PAGES>(&mut self.marks, &mut self.pages, page);
    }

    /// Adds pages, of which some may be there.
    pub fn add(&mut self, pages: &[u32])
        requires { All (λ page. page < page_count_of PAGES) pages.now }
        ensures { (page : ℕ) → holds self.new page ≡ (holds self.old page || holds pages.now page) }
    {
        mark_all::<PAGES>(&mut self.marks, &mut self.pages, pages);
    }

    /// Adds the pages in which two memories differ.
    pub fn add_differing(&mut self, a: &Snapshot<PAGES>, b: &Snapshot<PAGES>)
        ensures same { SameOutside self.new a.now b.now }
        ensures exact { (page : ℕ) → IsTrue (holds self.new page) ↔ (IsTrue (holds self.old page) ⊎ ¬ SamePage page a.now b.now) }
    {
        mark_differing(&mut self.marks, &mut self.pages, a, b);
    }

    /// Takes pages out, of which some may not be there.
    pub fn remove(&mut self, pages: &[u32])
        requires { All (λ page. page < page_count_of PAGES) pages.now }
        ensures { (page : ℕ) → holds self.new page ≡ (holds self.old page && not (holds pages.now page)) }
    {
        unmark_all::<PAGES>(&mut self.marks, pages);
        keep_marked(&self.marks, &mut self.pages);
    }

    /// Whether a page is there.
    #[inline]
    pub fn holds(&self, page: u32) -> bool
        ensures { result ≡ holds self.now page }
    {
        is_marked(&self.marks, page as usize)
    }

    /// The pages in ascending order.
    pub fn ascending(&self, alloc: Global) -> Result<Vec<u32>, AllocError>
        ensures pages { IfOk result (λ pages. pages.items ≡ pages_where PAGES (holds self.now)) }
        ensures set { IfOk result (λ pages. IsPageSet PAGES pages.items) }
    {
        // The marks are read, so that the number of pages is known here.
        let _marks = &self.marks;
        let mut pages = Vec::new(alloc);
        let mut page = 0;
        while page < PAGES + ROM_PAGES {
            // Most groups have no page of the set.
            if page as usize % GROUP_PAGES == 0 && !touches(self, page as usize / GROUP_PAGES) {
                page += GROUP_PAGES as u32;
                continue;
            }
            let here = page;
            page += 1;
            if !self.holds(here) {
                continue;
            }
            pages.push(here)?;
        }
        Ok(pages)
    }

    /// The pages.
    pub fn pages(&self) -> &[u32]
        ensures pages { result.now ≡ self.now }
        ensures within { All (λ page. page < page_count_of PAGES) result.now }
        ensures once { IsDistinct nat_eq result.now }
    {
        &self.pages
    }
}

// Adds pages, of which some may be marked.
fn mark_all<const PAGES: u32>(marks: &mut Vec<bool>, pages: &mut Vec<u32>, added: &[u32])
    requires within { All (λ page. page < page_count_of PAGES) added.now }
    requires marked { AreMarked PAGES (vec_capacity pages.old) marks.old.items pages.old.items }
    ensures marked { AreMarked PAGES (vec_capacity pages.new) marks.new.items pages.new.items }
    ensures held { (page : ℕ) → holds pages.new.items page ≡ (holds pages.old.items page || holds added.now page) }
{
    for page in added {
        mark::<PAGES>(marks, pages, *page);
    }
}

// Adds a page, unless it is marked.
#[inline]
fn mark<const PAGES: u32>(marks: &mut Vec<bool>, pages: &mut Vec<u32>, page: u32)
    requires within { page < page_count_of PAGES }
    requires marked { AreMarked PAGES (vec_capacity pages.old) marks.old.items pages.old.items }
    ensures marked { AreMarked PAGES (vec_capacity pages.new) marks.new.items pages.new.items }
    ensures held { (other : ℕ) → holds pages.new.items other ≡ (holds pages.old.items other || nat_eq page other) }
{
    if marks[page as usize] {
        return;
    }
    marks[page as usize] = true;
    pages.push_reserved(page);
}

// Adds the pages in which two memories differ, of which some may be marked.
fn mark_differing<const PAGES: u32>(
    marks: &mut Vec<bool>,
    pages: &mut Vec<u32>,
    a: &Snapshot<PAGES>,
    b: &Snapshot<PAGES>,
)
    requires marked { AreMarked PAGES (vec_capacity pages.old) marks.old.items pages.old.items }
    ensures marked { AreMarked PAGES (vec_capacity pages.new) marks.new.items pages.new.items }
    ensures same { SameOutside pages.new.items a.now b.now }
    ensures exact { (page : ℕ) → IsTrue (holds pages.new.items page) ↔ (IsTrue (holds pages.old.items page) ⊎ ¬ SamePage page a.now b.now) }
{
    // Both memories are whole, so that no page after the last one differs.
    a.whole();
    b.whole();
    for page in 0..PAGES + ROM_PAGES {
        mark_where_differing(marks, pages, a, b, page);
    }
}

// Adds a page, if two memories differ in it and it is not marked.
fn mark_where_differing<const PAGES: u32>(
    marks: &mut Vec<bool>,
    pages: &mut Vec<u32>,
    a: &Snapshot<PAGES>,
    b: &Snapshot<PAGES>,
    page: u32,
)
    requires within { page < page_count_of PAGES }
    requires marked { AreMarked PAGES (vec_capacity pages.old) marks.old.items pages.old.items }
    ensures marked { AreMarked PAGES (vec_capacity pages.new) marks.new.items pages.new.items }
    ensures same { IsFalse (holds pages.new.items page) → SamePage page a.now b.now }
    ensures exact { IsTrue (holds pages.new.items page) ↔ (IsTrue (holds pages.old.items page) ⊎ ¬ SamePage page a.now b.now) }
    ensures others { (other : ℕ) → ¬ (other ≡ page) → holds pages.new.items other ≡ holds pages.old.items other }
{
    if !a.same_page(page, b) {
        mark::<PAGES>(marks, pages, page);
    }
}

// Takes the marks of pages away.
fn unmark_all<const PAGES: u32>(marks: &mut Vec<bool>, pages: &[u32])
    requires within { All (λ page. page < page_count_of PAGES) pages.now }
    requires long { length marks.old.items ≡ page_count_of PAGES }
    ensures long { length marks.new.items ≡ page_count_of PAGES }
    ensures marked { (page : ℕ) → slice_index_or marks.new.items page false ≡ (slice_index_or marks.old.items page false && not (holds pages.now page)) }
{
    for page in pages {
        marks[*page as usize] = false;
    }
}

// Keeps those pages that have a mark, in their order.
fn keep_marked(marks: &[bool], pages: &mut Vec<u32>)
    ensures kept { pages.new.items ≡ filter (λ page. slice_index_or marks.now page false) pages.old.items }
    ensures room { vec_capacity pages.new ≡ vec_capacity pages.old }
{
    pages.retain(|page| is_marked(marks, *page as usize));
}

/// Whether a page of a group is in a set of pages.
pub(crate) fn touches<const PAGES: u32>(set: &PageMarks<PAGES>, group: usize) -> bool
    requires { group < 2 ^ 26 }
    ensures { IsFalse result → (page : ℕ) → page / GROUP_PAGES ≡ group → IsFalse (holds set.now page) }
{
    let (groups, rest) = set.marks.as_chunks::<GROUP_PAGES>();
    match groups.get(group) {
        Some(marks) => marks.contains(&true),
        None => rest.contains(&true),
    }
}

/// Whether a page or a block has a mark.
pub(crate) fn is_marked(marks: &[bool], index: usize) -> bool
    ensures { result ≡ slice_index_or marks.now index false }
{
    marks.get(index).is_some_and(|it| *it)
}
