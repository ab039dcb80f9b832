//! A page of a snapshot: 1,024 words that stay as they are. It is a whole page, which others share, but for a few words.

ghost use Rattle.std.specs.Prelude.{◌≡◌, ◌+◌, ◌/◌, ◌^◌, ◌<◌, ◌≤◌, ◌↔◌, ℕ, IfOk, IfSome, IsFalse, IsTrue, false, length, map, slice_index, slice_index_or, slice_set};
ghost use Rattle.r3k_word.specs.declared.layout.TheConstants.{PAGE_WORDS};
ghost use Rattle.r3k_pages.specs.Blocks.{IsBlockOf, SameBlock};
ghost use Rattle.r3k_pages.specs.Changes.{with_changes};
ghost use Rattle.r3k_pages.specs.Groups.{is_blank};
ghost use Rattle.r3k_pages.specs.declared.block.TheConstants.{BLOCK_WORDS};
ghost use Rattle.r3k_pages.specs.declared.page.TheConstants.{PAGE_BLOCKS};

use crate::block::BLOCK_WORDS;
use crate::changes::{self, Change, FEW};
use crate::page_marks::is_marked;
use crate::whole::{Whole, is_blank};
use arrayvec::ArrayVec;
use r3k_word::layout::PAGE_WORDS;
use std::alloc::{AllocError, Global};
use std::marker::Model;
use std::rc::Rc;

/// How many blocks a page has.
pub const PAGE_BLOCKS: usize = 16;

/// The words of a page.
#[derive(Drop)]
pub(crate) struct Page {
    whole: Rc<Whole>,
    // The words that are others than in the whole page. Those of most pages that a guest stores into are few.
    few: ArrayVec<Change, FEW>,
}

impl Model for Page {
    ghost use Rattle.std.specs.Prelude.{List, ℕ};
    ghost use Rattle.r3k_pages.specs.Changes.{with_changes};

    ghost Value = { List ℕ };

    ghost view = { λ page. with_changes page.whole.value page.few.items };
}

impl Page {
    /// A page with these words: an earlier one that has them, or else one that shares that one's blocks that have the same ones.
    pub(crate) fn new(
        alloc: Global,
        words: &[u32],
        earlier: Option<&Rc<Page>>,
    ) -> Result<Rc<Page>, AllocError>
        requires { length words.now ≡ PAGE_WORDS }
        ensures { IfOk result (λ page. page.value ≡ words.now) }
    {
        match earlier {
            None => Page::plain(alloc, words, None),
            Some(earlier) if earlier.has(words) => earlier.clone(),
            Some(earlier) => Page::plain(alloc, words, Some(&earlier.whole)),
        }
    }

    // Whether it has these words, where it has no changes.
    fn has(&self, words: &[u32]) -> bool
        requires { length words.now ≡ PAGE_WORDS }
        ensures { IsTrue result → self.now ≡ words.now }
    {
        self.few.is_empty() && self.whole.has(words)
    }

    /// A page with these words, which are those of this one but in marked blocks, of which its own are those from `first` on. It shares
    /// the whole page where few words are others than there, and else the blocks that have the same words.
    pub(crate) fn after(
        &self,
        alloc: Global,
        words: &[u32],
        marks: &[bool],
        first: usize,
    ) -> Result<Rc<Page>, AllocError>
        requires words { length words.now ≡ PAGE_WORDS }
        requires first { first < 2 ^ 32 }
        requires same { (place : ℕ) → place < PAGE_WORDS → IsFalse (slice_index_or marks.now (first + place / BLOCK_WORDS) false) →
            slice_index self.now place ≡ slice_index words.now place }
        ensures { IfOk result (λ page. page.value ≡ words.now) }
    {
        match few_after(&self.whole, &self.few, words, marks, first) {
            Some(few) => Page::of(alloc, self.whole.clone()?, few),
            None => Page::plain(alloc, words, Some(&self.whole)),
        }
    }

    // A page with these words and no changes.
    fn plain(
        alloc: Global,
        words: &[u32],
        earlier: Option<&Rc<Whole>>,
    ) -> Result<Rc<Page>, AllocError>
        requires { length words.now ≡ PAGE_WORDS }
        ensures { IfOk result (λ page. page.value ≡ words.now) }
    {
        Page::of(alloc, Whole::new(alloc, words, earlier)?, ArrayVec::new())
    }

    // A whole page but for a few words.
    fn of(
        alloc: Global,
        whole: Rc<Whole>,
        few: ArrayVec<Change, FEW>,
    ) -> Result<Rc<Page>, AllocError>
        ensures { IfOk result (λ page. page.value ≡ with_changes whole.value few.items) }
    {
        Rc::new(alloc, Page { whole, few }).map_err(|_| AllocError)
    }

    /// The page with the word at a place of it set.
    pub(crate) fn with_word(
        &self,
        alloc: Global,
        place: usize,
        word: u32,
    ) -> Result<Rc<Page>, AllocError>
        requires { place < PAGE_WORDS }
        ensures set { IfOk result (λ page. page.value ≡ slice_set self.now place word) }
        ensures whole { length self.now ≡ PAGE_WORDS }
    {
        self.has_all();
        let mut few = changes::elsewhere(&self.few, place);
        if few.is_full() {
            let words = self.words_with(alloc, place, word)?;
            return Page::plain(alloc, &words, Some(&self.whole));
        }
        few.push(Change {
            place: place as u32,
            word,
        });
        Page::of(alloc, self.whole.clone()?, few)
    }

    // Its words with the one at a place set.
    fn words_with(&self, alloc: Global, place: usize, word: u32) -> Result<Vec<u32>, AllocError>
        requires { place < PAGE_WORDS }
        ensures { IfOk result (λ words. words.items ≡ slice_set self.now place word) }
    {
        self.has_all();
        let mut words = vec![in alloc; 0; PAGE_WORDS as usize]?;
        self.copy_to(&mut words);
        words[place] = word;
        Ok(words)
    }

    // The list of its words has all of a page. Nothing runs here.
    fn has_all(&self)
        ensures { length self.now ≡ PAGE_WORDS }
    {
        self.whole.has_all();
    }

    // The words of a block of the page.
    fn block(&self, index: usize) -> [u32; BLOCK_WORDS]
        requires { index < PAGE_BLOCKS }
        ensures words { IsBlockOf self.now index result }
        ensures whole { length result ≡ BLOCK_WORDS }
    {
        self.whole.has_all();
        let mut words = self.whole.block(index).copied();
        changes::make_in_block(&self.few, index, &mut words);
        words
    }

    /// Whether another page has the same words. Of blank ones it looks at no word.
    pub(crate) fn is_same(&self, other: &Page) -> bool
        ensures same { IsTrue result ↔ (self.now ≡ other.now) }
        ensures whole { (length self.now ≡ PAGE_WORDS) × (length other.now ≡ PAGE_WORDS) }
    {
        self.has_all();
        other.has_all();
        if self.is_known_same(other) {
            return true;
        }
        for index in 0..PAGE_BLOCKS {
            if !self.is_same_block(other, index) {
                return false;
            }
        }
        true
    }

    // Whether a block of another page has the same words. Most blocks have no change.
    fn is_same_block(&self, other: &Page, index: usize) -> bool
        requires { index < PAGE_BLOCKS }
        ensures { IsTrue result ↔ SameBlock index self.now other.now }
    {
        self.whole.has_all();
        other.whole.has_all();
        if changes::touch(&self.few, index) || changes::touch(&other.few, index) {
            self.block(index) == other.block(index)
        } else {
            self.whole.block(index).is_same(other.whole.block(index))
        }
    }

    // Whether it is known that all its words are 0.
    fn is_blank(&self) -> bool
        ensures { IsTrue result → IsTrue (is_blank self.now) }
    {
        self.few.is_empty() && self.whole.is_blank()
    }

    /// Whether it is known without a look at the words that another page has the same ones: both are blank.
    pub(crate) fn is_known_same(&self, other: &Page) -> bool
        ensures { IsTrue result → self.now ≡ other.now }
    {
        self.has_all();
        other.has_all();
        self.is_blank() && other.is_blank()
    }

    /// The word at a place of it.
    pub(crate) fn word(&self, place: usize) -> u32
        requires { place < PAGE_WORDS }
        ensures { result ≡ slice_index self.now place }
    {
        self.whole.has_all();
        changes::word_after(&self.few, place, self.whole.word(place))
    }

    /// Sets words to those of the page.
    pub(crate) fn copy_to(&self, words: &mut [u32])
        requires { length words.old ≡ PAGE_WORDS }
        ensures { words.new ≡ self.now }
    {
        self.whole.copy_to(words);
        changes::make(&self.few, words);
    }
}

// The words that are others than those of a whole page, if they are few. Outside marked blocks they are known: those are the changes
// so far.
fn few_after(
    whole: &Whole,
    changes: &[Change],
    words: &[u32],
    marks: &[bool],
    first: usize,
) -> Option<ArrayVec<Change, FEW>>
    requires few { length changes.now ≤ FEW }
    requires words { length words.now ≡ PAGE_WORDS }
    requires first { first < 2 ^ 32 }
    requires same { (place : ℕ) → place < PAGE_WORDS → IsFalse (slice_index_or marks.now (first + place / BLOCK_WORDS) false) →
        slice_index (with_changes whole.now changes.now) place ≡ slice_index words.now place }
    ensures { IfSome result (λ few. with_changes whole.now few.items ≡ words.now) }
{
    whole.has_all();
    let mut few = changes::unmarked(changes, marks, first);
    let (parts, _) = words.as_chunks::<BLOCK_WORDS>();
    for index in 0..PAGE_BLOCKS {
        if is_marked(marks, first + index)
            && !changes::add_differing(&mut few, index, whole.block(index).words(), &parts[index])
        {
            return None;
        }
    }
    // A page whose words are all 0 is to be known as blank.
    if !few.is_empty() && few.iter().all(|change| change.word == 0) && is_blank(words) {
        return None;
    }
    Some(few)
}

/// The same pointers once more.
pub(crate) fn shared<T: Drop>(
    alloc: Global,
    pointers: &Vec<Rc<T>>,
) -> Result<Vec<Rc<T>>, AllocError>
    ensures { IfOk result (λ same. map (λ pointer. pointer.value) same.items ≡ map (λ pointer. pointer.value) pointers.now.items) }
{
    let mut same = Vec::with_capacity(alloc, pointers.len())?;
    for pointer in pointers {
        same.push(pointer.clone()?)?;
    }
    Ok(same)
}
