//! A set of pages.

ghost use Rattle.std.specs.Prelude.{◌≡◌, ◌↔◌, IfOk, IsTrue, []};
ghost use Rattle.std.specs.List.Sorted.{IsStrictlyIncreasing};
ghost use Rattle.r3k_pages.specs.Pages.{holds};
ghost use Rattle.write_index.specs.Pages.{IsUnion};

use std::alloc::{AllocError, Global};
use std::marker::Model;

/// A set of pages, in ascending order.
#[derive(Drop)]
pub(crate) struct PageSet {
    pages: Vec<u32>,
}

impl Model for PageSet {
    ghost use Rattle.std.specs.Prelude.{List, ℕ};
    ghost use Rattle.std.specs.List.Sorted.{IsStrictlyIncreasing};

    ghost Value = { List ℕ };

    ghost view = { λ set. set.pages.items };

    ghost invariant = { λ set. IsStrictlyIncreasing set.pages.items };
}

impl PageSet {
    /// No pages. It takes no memory.
    pub(crate) fn empty(alloc: Global) -> PageSet
        ensures { result ≡ [] }
    {
        PageSet {
            pages: Vec::new(alloc),
        }
    }

    /// The set of these pages.
    pub(crate) fn new(alloc: Global, pages: &[u32]) -> Result<PageSet, AllocError>
        requires { IsStrictlyIncreasing pages.now }
        ensures { IfOk result (λ set. set ≡ pages.now) }
    {
        Ok(PageSet {
            pages: Vec::from_slice(alloc, pages)?,
        })
    }

    /// Whether the set has just these pages.
    pub(crate) fn is(&self, pages: &[u32]) -> bool
        ensures { IsTrue result ↔ (self.now ≡ pages.now) }
    {
        self.pages.as_slice() == pages
    }

    /// Whether a page is in the set.
    pub(crate) fn holds(&self, page: u32) -> bool
        ensures { result ≡ holds self.now page }
    {
        self.pages.binary_search(&page).is_ok()
    }

    /// The pages of both sets.
    pub(crate) fn union(&self, alloc: Global, other: &PageSet) -> Result<PageSet, AllocError>
        ensures { IfOk result (λ set. IsUnion self.now other.now set) }
    {
        Ok(PageSet {
            pages: merged(alloc, &self.pages, &other.pages)?,
        })
    }
}

// The pages of two ascending lists, each once.
fn merged(alloc: Global, a: &[u32], b: &[u32]) -> Result<Vec<u32>, AllocError>
    requires a { IsStrictlyIncreasing a.now }
    requires b { IsStrictlyIncreasing b.now }
    ensures ascending { IfOk result (λ pages. IsStrictlyIncreasing pages.items) }
    ensures union { IfOk result (λ pages. IsUnion a.now b.now pages.items) }
{
    let mut pages = Vec::with_capacity(alloc, a.len().max(b.len()))?;
    let mut i = 0;
    let mut j = 0;
    while i < a.len() && j < b.len() {
        let x = a[i];
        let y = b[j];
        pages.push(x.min(y))?;
        if x <= y {
            i += 1;
        }
        if y <= x {
            j += 1;
        }
    }
    // Of one of them nothing is left.
    pages.extend_from_slice(&a[i..])?;
    pages.extend_from_slice(&b[j..])?;
    Ok(pages)
}
