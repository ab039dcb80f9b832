//! A page that is kept whole, in blocks. Such pages share blocks that have the same words.

ghost use Rattle.std.specs.Prelude.{◌≡◌, ◌<◌, IfOk, IsTrue, length, map, slice_index};
ghost use Rattle.r3k_word.specs.declared.layout.TheConstants.{PAGE_WORDS};
ghost use Rattle.r3k_pages.specs.Blocks.{IsBlockOf, words_of};
ghost use Rattle.r3k_pages.specs.declared.page.TheConstants.{PAGE_BLOCKS};
ghost use Rattle.r3k_pages.specs.Groups.{is_blank};

use crate::block::{BLOCK_WORDS, Block};
use crate::page::PAGE_BLOCKS;
use std::alloc::{AllocError, Global};
use std::array;
use std::marker::Model;
use std::rc::Rc;

/// The words of a page.
#[derive(Drop)]
pub(crate) struct Whole {
    blocks: [Rc<Block>; PAGE_BLOCKS],
    // Whether it is known that all of them are 0.
    blank: bool,
}

impl Model for Whole {
    ghost use Rattle.std.specs.Prelude.{◌≡◌, IsTrue, List, ℕ, length, map};
    ghost use Rattle.r3k_pages.specs.declared.page.TheConstants.{PAGE_BLOCKS};
    ghost use Rattle.r3k_pages.specs.Blocks.{words_of};
    ghost use Rattle.r3k_pages.specs.Groups.{is_blank};

    ghost Value = { List ℕ };

    ghost view = { λ page. words_of (map (λ block. block.value) page.blocks) };

    ghost invariant = { λ page. (length page.blocks ≡ PAGE_BLOCKS)
        × (IsTrue page.blank → IsTrue (is_blank (words_of (map (λ block. block.value) page.blocks)))) };
}

impl Whole {
    /// A page with these words. It shares the blocks of an earlier page that have the same ones.
    pub(crate) fn new(
        alloc: Global,
        words: &[u32],
        earlier: Option<&Rc<Whole>>,
    ) -> Result<Rc<Whole>, AllocError>
        requires { length words.now ≡ PAGE_WORDS }
        ensures { IfOk result (λ page. page.value ≡ words.now) }
    {
        let mut blocks = blocks_of(alloc, earlier)?;
        let (parts, _) = words.as_chunks::<BLOCK_WORDS>();
        for index in 0..PAGE_BLOCKS {
            if !blocks[index].has(&parts[index]) {
                blocks[index] = Block::new(alloc, parts[index])?;
            }
        }
        Whole::of(alloc, blocks, is_blank(words))
    }

    // A page of these blocks.
    fn of(
        alloc: Global,
        blocks: [Rc<Block>; PAGE_BLOCKS],
        blank: bool,
    ) -> Result<Rc<Whole>, AllocError>
        requires blocks { length blocks ≡ PAGE_BLOCKS }
        requires blank { IsTrue blank → IsTrue (is_blank (words_of (map (λ block. block.value) blocks))) }
        ensures { IfOk result (λ page. page.value ≡ words_of (map (λ block. block.value) blocks)) }
    {
        Rc::new(alloc, Whole { blocks, blank }).map_err(|_| AllocError)
    }

    /// The list of its words has all of a page. Nothing runs here.
    pub(crate) fn has_all(&self)
        ensures { length self.now ≡ PAGE_WORDS }
    {
        let _blocks = &self.blocks;
    }

    /// A block of the page.
    pub(crate) fn block(&self, index: usize) -> &Rc<Block>
        requires { index < PAGE_BLOCKS }
        ensures { IsBlockOf self.now index result.now.value }
    {
        &self.blocks[index]
    }

    /// Whether it has these words.
    pub(crate) fn has(&self, words: &[u32]) -> bool
        requires { length words.now ≡ PAGE_WORDS }
        ensures { IsTrue result → self.now ≡ words.now }
    {
        self.has_all();
        let (parts, _) = words.as_chunks::<BLOCK_WORDS>();
        for index in 0..PAGE_BLOCKS {
            if !self.block(index).has(&parts[index]) {
                return false;
            }
        }
        true
    }

    /// Whether it is known that all its words are 0.
    pub(crate) fn is_blank(&self) -> bool
        ensures { IsTrue result → IsTrue (is_blank self.now) }
    {
        self.blank
    }

    /// The word at a place of it.
    pub(crate) fn word(&self, place: usize) -> u32
        requires { place < PAGE_WORDS }
        ensures { result ≡ slice_index self.now place }
    {
        self.block(place / BLOCK_WORDS).words()[place % BLOCK_WORDS]
    }

    /// Sets words to those of the page.
    pub(crate) fn copy_to(&self, words: &mut [u32])
        requires { length words.old ≡ PAGE_WORDS }
        ensures { words.new ≡ self.now }
    {
        self.has_all();
        for index in 0..PAGE_BLOCKS {
            let start = index * BLOCK_WORDS;
            words[start..start + BLOCK_WORDS].copy_from_slice(self.block(index).words());
        }
    }
}

// The blocks of an earlier page, or else a blank one, as often as a page has blocks.
fn blocks_of(
    alloc: Global,
    earlier: Option<&Rc<Whole>>,
) -> Result<[Rc<Block>; PAGE_BLOCKS], AllocError>
    ensures { IfOk result (λ blocks. length blocks ≡ PAGE_BLOCKS) }
{
    if let Some(earlier) = earlier {
        return earlier.blocks.clone();
    }
    let blank = Block::new(alloc, [0; BLOCK_WORDS])?;
    array::try_from_fn(|_| blank.clone())
}

/// Whether all words are 0.
pub(crate) fn is_blank(words: &[u32]) -> bool
    ensures { result ≡ is_blank words.now }
{
    words.iter().all(|word| *word == 0)
}
