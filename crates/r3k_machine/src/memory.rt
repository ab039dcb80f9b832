//! Memory as one list of words.

ghost use Rattle.std.specs.Prelude.{◌≡◌, ℕ, ◌+◌, ◌*◌, ◌<◌, ◌≤◌, Bool, IsTrue, List, length, slice_index, slice_set};
ghost use Rattle.r3k_word.specs.Layout.{word_count_of};
ghost use Rattle.r3k_word.specs.declared.layout.TheConstants.{MAX_RAM_PAGES, PAGE_WORDS};
ghost use Rattle.r3k_table.specs.Mnemonics.{number_of};
ghost use Rattle.r3k_decode.specs.Operation.{Operation};
ghost use Rattle.r3k_machine.specs.Known.{IsKnown, IsStop};
ghost use Rattle.r3k_machine.specs.Reports.{IsPage};

use r3k_decode::Insn;
use r3k_table::mnemonic::Mnemonic;

/// The words of RAM and ROM, seen as one list: RAM pages first, then those of ROM. A read gives the list's word, and a
/// write changes that word alone.
pub trait Mem {
    /// The words.
    ghost words: { Self → List ℕ };

    /// The number of RAM pages.
    ghost ram: { ℕ };

    /// The number of RAM pages.
    fn ram_pages(&self) -> u32
        ensures { result ≡ ram };

    /// The word at a place.
    fn word(&self, place: usize) -> u32
        requires { place < length (words self.now) }
        ensures { result ≡ slice_index (words self.now) place };

    /// Sets the word at a place.
    fn set_word(&mut self, place: usize, value: u32)
        requires { place < length (words self.old) }
        ensures set { words self.new ≡ slice_set (words self.old) place value }
        ensures opened { (page : ℕ) → is_open self.new page ≡ is_open self.old page };

    /// Whether a page is open: what is known of its words can be asked.
    ghost is_open: { Self → ℕ → Bool };

    /// Opens a page. Another page may be closed, and what was known of its words is lost.
    fn open_page(&mut self, page: u32)
        requires { IsPage ram page }
        ensures opened { IsTrue (is_open self.new page) }
        ensures words { words self.new ≡ words self.old };

    /// What is known of a word of an open page, by the numbers of page and word: its instruction, or one that traps.
    ghost known: { Self → ℕ → ℕ → Operation };

    /// What is known of a word of an open page, by its number in the page. After the last word stands one that traps.
    fn insn(&self, page: u32, index: usize) -> &Insn
        requires page { IsPage ram page }
        requires opened { IsTrue (is_open self.now page) }
        requires index { index ≤ PAGE_WORDS }
        ensures known { result.now ≡ known self.now page index }
        ensures right { index < PAGE_WORDS → IsKnown (slice_index (words self.now) (page * PAGE_WORDS + index)) result.now }
        ensures past { index ≡ PAGE_WORDS → IsStop result.now };

    /// The name of what is known of the next word, or of the stop after the last word. Where this is that stop, it is any name.
    fn name_after(&self, page: u32, index: usize) -> Mnemonic
        requires page { IsPage ram page }
        requires opened { IsTrue (is_open self.now page) }
        requires index { index ≤ PAGE_WORDS }
        ensures { index < PAGE_WORDS → number_of result ≡ (known self.now page (index + 1)).row };

    /// Decodes a word of an open page, so that its instruction is known until the word is stored into. The answer is whether it was
    /// not known, and can be. Only time depends on it.
    fn learn(&mut self, page: u32, index: usize) -> bool
        requires page { IsPage ram page }
        requires opened { IsTrue (is_open self.old page) }
        requires index { index < PAGE_WORDS }
        ensures words { words self.new ≡ words self.old }
        ensures opened { (other : ℕ) → is_open self.new other ≡ is_open self.old other };

    /// There are as many words as the pages hold.
    ghost whole: { (memory : Self) → length (words memory) ≡ word_count_of ram };

    /// There are not more pages of RAM than a machine may have.
    ghost range: { Self → ram ≤ MAX_RAM_PAGES };
}
