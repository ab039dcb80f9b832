//! A block of a page: 64 words that stay as they are.

ghost use Rattle.std.specs.Prelude.{◌≡◌, ◌↔◌, IfOk, IsTrue, length};
ghost use Rattle.r3k_pages.specs.declared.block.TheConstants.{BLOCK_WORDS};

use std::alloc::{AllocError, Global};
use std::marker::Model;
use std::rc::Rc;

/// How many words a block has.
pub const BLOCK_WORDS: usize = 64;

/// The words of a block.
#[derive(Drop)]
pub(crate) struct Block {
    words: [u32; BLOCK_WORDS],
}

impl Model for Block {
    ghost use Rattle.std.specs.Prelude.{◌≡◌, List, ℕ, length};
    ghost use Rattle.r3k_pages.specs.declared.block.TheConstants.{BLOCK_WORDS};

    ghost Value = { List ℕ };

    ghost view = { λ block. block.words };

    ghost invariant = { λ block. length block.words ≡ BLOCK_WORDS };
}

impl Block {
    /// A block with these words.
    pub(crate) fn new(alloc: Global, words: [u32; BLOCK_WORDS]) -> Result<Rc<Block>, AllocError>
        ensures { IfOk result (λ block. block.value ≡ words) }
    {
        Rc::new(alloc, Block { words }).map_err(|_| AllocError)
    }

    /// Whether it has these words.
    pub(crate) fn has(&self, words: &[u32; BLOCK_WORDS]) -> bool
        ensures { IsTrue result ↔ (self.now ≡ words.now) }
    {
        self.words == *words
    }

    /// Whether another block has the same words.
    pub(crate) fn is_same(&self, other: &Block) -> bool
        ensures same { IsTrue result ↔ (self.now ≡ other.now) }
        ensures whole { (length self.now ≡ BLOCK_WORDS) × (length other.now ≡ BLOCK_WORDS) }
    {
        self.words == other.words
    }

    /// Its words, for a change in them.
    pub(crate) fn copied(&self) -> [u32; BLOCK_WORDS]
        ensures { result ≡ self.now }
    {
        self.words
    }

    /// Its words.
    pub(crate) fn words(&self) -> &[u32]
        ensures words { result.now ≡ self.now }
        ensures whole { length result.now ≡ BLOCK_WORDS }
    {
        &self.words
    }
}
