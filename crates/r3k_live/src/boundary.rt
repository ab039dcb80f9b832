//! Where a run stood, to be gone back to.

ghost use Rattle.std.specs.Prelude.{◌≡◌, ◌<◌, ◌≤◌, IfOk, length, slice_set};
ghost use Rattle.r3k_word.specs.Layout.{word_count_of};
ghost use Rattle.r3k_word.specs.declared.layout.TheConstants.{MAX_RAM_PAGES};
ghost use Rattle.r3k_pages.specs.Pages.{overlaid};
ghost use Rattle.r3k_live.specs.Changes.{AreChanges};

use crate::changes::Changes;
use r3k_machine::{Core, KeptCore};
use r3k_pages::{PageMarks, Snapshot};
use std::alloc::{AllocError, Global};
use std::marker::Model;
use std::rc::Rc;

/// A state of the machine, kept: the core, and a snapshot of memory. It shares with earlier ones what is known to be equal.
#[derive(Drop)]
pub struct Boundary<const PAGES: u32> {
    core: KeptCore,
    memory: Snapshot<PAGES>,
}

impl<const PAGES: u32> Model for Boundary<PAGES> {
    ghost use Rattle.r3k_machine.specs.State.{State};

    ghost Value = { State };

    ghost view = { λ b. record { core = b.core; words = b.memory } };
}

impl<const PAGES: u32> Boundary<PAGES> {
    // A core and words. It shares nothing, and the set says nothing.
    pub(crate) fn new(
        alloc: Global,
        core: &mut Core,
        words: &[u32],
        none: &PageMarks<PAGES>,
    ) -> Result<Rc<Boundary<PAGES>>, AllocError>
        requires pages { PAGES ≤ MAX_RAM_PAGES }
        requires whole { length words.now ≡ word_count_of PAGES }
        ensures boundary { IfOk result (λ boundary. boundary.value ≡ record { core = core.old; words = words.now }) }
        ensures core { core.new ≡ core.old }
    {
        let boundary = Boundary {
            core: core.keep(alloc, None)?,
            memory: Snapshot::capture(alloc, words, None, none)?,
        };
        Rc::new(alloc, boundary).map_err(|_| AllocError)
    }

    // A core, and words that are those of this state but for some changes. It shares what did not change, and the cache arrays where they
    // are equal.
    pub(crate) fn after(
        &self,
        alloc: Global,
        core: &mut Core,
        words: &[u32],
        changed: &Changes<PAGES>,
    ) -> Result<Rc<Boundary<PAGES>>, AllocError>
        requires pages { PAGES ≤ MAX_RAM_PAGES }
        requires whole { length words.now ≡ word_count_of PAGES }
        requires changes { AreChanges changed.now self.now.words words.now }
        ensures boundary { IfOk result (λ boundary. boundary.value ≡ record { core = core.old; words = words.now }) }
        ensures core { core.new ≡ core.old }
    {
        let boundary = Boundary {
            core: core.keep(alloc, Some(&self.core))?,
            memory: self
                .memory
                .after(alloc, words, changed.pages(), changed.blocks())?,
        };
        Rc::new(alloc, boundary).map_err(|_| AllocError)
    }

    /// The core.
    pub fn core(&self) -> &KeptCore
        ensures { result.now ≡ self.now.core }
    {
        &self.core
    }

    /// The words of RAM and ROM.
    pub fn memory(&self) -> &Snapshot<PAGES>
        ensures words { result.now ≡ self.now.words }
        ensures whole { length result.now ≡ word_count_of PAGES }
    {
        self.memory.whole();
        &self.memory
    }

    /// The state with the word at a place set, and the same core. It shares all else.
    pub fn with_word(
        &self,
        alloc: Global,
        place: usize,
        word: u32,
    ) -> Result<Boundary<PAGES>, AllocError>
        requires { place < word_count_of PAGES }
        ensures { IfOk result (λ boundary. boundary ≡ record self.now { words = slice_set self.now.words place word }) }
    {
        Ok(Boundary {
            core: self.core.share()?,
            memory: self.memory.with_word(alloc, place, word)?,
        })
    }

    /// The state with the pages of a set taken from the memory of another one, and the same core. It copies no words.
    pub fn overlay(
        &self,
        alloc: Global,
        pages: &PageMarks<PAGES>,
        other: &Boundary<PAGES>,
    ) -> Result<Boundary<PAGES>, AllocError>
        ensures { IfOk result (λ boundary. boundary ≡ record self.now { words = overlaid pages.now self.now.words other.now.words }) }
    {
        Ok(Boundary {
            core: self.core.share()?,
            memory: self.memory.overlay(alloc, pages, &other.memory)?,
        })
    }
}
