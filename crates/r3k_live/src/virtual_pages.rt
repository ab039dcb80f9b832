//! A set of virtual pages with room for all of them, made once.

ghost use Rattle.std.specs.Prelude.{◌≡◌, ◌^◌, ◌<◌, ◌||◌, ◌&&◌, ℕ, [], All, IfOk, false, length, nat_eq, not, slice_index_or, vec_capacity};
ghost use Rattle.r3k_pages.specs.Pages.{holds};
ghost use Rattle.r3k_live.specs.CodePages.{AreNoted};

use std::alloc::{AllocError, Global};
use std::marker::Model;

// How many virtual pages there are.
const COUNT: usize = 0x10_0000;

/// A set of virtual pages: the list of their numbers, each once, in the order in which they were added. All room is taken when it is
/// made.
#[derive(Drop)]
pub struct VirtualPages {
    marks: Vec<bool>,
    pages: Vec<u32>,
}

impl Model for VirtualPages {
    ghost use Rattle.std.specs.Prelude.{List, ℕ, vec_capacity};
    ghost use Rattle.r3k_live.specs.CodePages.{AreNoted};

    ghost Value = { List ℕ };

    ghost view = { λ v. v.pages.items };

    ghost invariant = { λ v. AreNoted (vec_capacity v.pages) v.marks.items v.pages.items };
}

impl VirtualPages {
    /// No page. All its memory is taken here.
    pub fn new(alloc: Global) -> Result<VirtualPages, AllocError>
        ensures { IfOk result (λ set. set ≡ []) }
    {
        Ok(VirtualPages {
            marks: unmarked(alloc, COUNT)?,
            pages: Vec::with_capacity(alloc, COUNT)?,
        })
    }

    /// Takes all pages out, in the time that it takes to go over those that are there.
    pub fn clear(&mut self)
        ensures { self.new ≡ [] }
    {
        unmark_all(&mut self.marks, &self.pages);
        self.pages.clear();
    }

    /// Adds a page, which may be there.
    #[inline(always)]
    pub fn mark(&mut self, page: u32)
        requires { page < 2 ^ 20 }
        ensures { (other : ℕ) → holds self.new other ≡ (holds self.old other || nat_eq page other) }
    {
        if self.marks[page as usize] {
            return;
        }
        add(&mut self.marks, &mut self.pages, page);
    }

    /// The pages.
    pub fn pages(&self) -> &[u32]
        ensures pages { result.now ≡ self.now }
        ensures within { All (λ page. page < 2 ^ 20) result.now }
    {
        &self.pages
    }
}

// This many pages without a mark.
fn unmarked(alloc: Global, count: usize) -> Result<Vec<bool>, AllocError>
    ensures long { IfOk result (λ marks. length marks.items ≡ count) }
    ensures none { IfOk result (λ marks. (page : ℕ) → slice_index_or marks.items page false ≡ false) }
{
    vec![in alloc; false; count]
}

// Adds a page that is not there.
#[cold]
#[inline(never)]
fn add(marks: &mut Vec<bool>, pages: &mut Vec<u32>, page: u32)
    requires within { page < 2 ^ 20 }
    requires free { slice_index_or marks.old.items page false ≡ false }
    requires noted { AreNoted (vec_capacity pages.old) marks.old.items pages.old.items }
    ensures noted { AreNoted (vec_capacity pages.new) marks.new.items pages.new.items }
    ensures held { (other : ℕ) → holds pages.new.items other ≡ (holds pages.old.items other || nat_eq page other) }
{
    marks[page as usize] = true;
    pages.push_reserved(page);
}

// Takes the marks of pages away.
fn unmark_all(marks: &mut Vec<bool>, pages: &[u32])
    requires { All (λ page. page < length marks.old.items) pages.now }
    ensures long { length marks.new.items ≡ length marks.old.items }
    ensures marked { (page : ℕ) → slice_index_or marks.new.items page false ≡ (slice_index_or marks.old.items page false && not (holds pages.now page)) }
{
    for page in pages {
        marks[*page as usize] = false;
    }
}
