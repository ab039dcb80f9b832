//! A plain memory: all words in one vector, and those of some pages decoded.

ghost use Rattle.std.specs.Prelude.{◌≡◌, ◌+◌, ◌*◌, ◌/◌, ◌%◌, ◌^◌, ◌≤◌, ◌<◌, ℕ, IfOk, IsFalse, IsTrue, length, map, slice_index, slice_index_or, slice_set};
ghost use Rattle.std.specs.List.{range_with_len};
ghost use Rattle.r3k_decode.specs.Operation.{Operation};
ghost use Rattle.r3k_word.specs.Layout.{word_count_of};
ghost use Rattle.r3k_word.specs.declared.layout.TheConstants.{MAX_RAM_PAGES, PAGE_WORDS};
ghost use Rattle.r3k_pages.specs.Pages.{SameOutside};
ghost use Rattle.r3k_machine.specs.Known.{IsStop};
ghost use Rattle.r3k_machine.specs.Reset.{reset_word, reset_words};
ghost use Rattle.r3k_machine.specs.Reports.{IsPage};
ghost use Rattle.r3k_live.specs.Slots.{AreKnown, is_open, known_at, slot_of};
ghost use Rattle.r3k_live.specs.declared.flat.TheConstants.{SLOTS, SLOT_WORDS, UNUSED};

use r3k_decode::Insn;
use r3k_image::Image;
use r3k_machine::{Mem, decoded, stop};
use r3k_pages::{PageMarks, Snapshot};
use r3k_table::mnemonic::Mnemonic;
use r3k_word::layout::{PAGE_BYTES, PAGE_WORDS, ROM_PAGES, address_of, word_count};
use std::alloc::{AllocError, Global};

// How many pages of RAM may be open.
const RAM_SLOTS: u32 = 512;

// How many pages may be open.
const SLOTS: usize = 576;

// Words in a page.
const WORDS: usize = PAGE_WORDS as usize;

// What is kept of a slot: something for each word of its page, and after them one that traps, so that steps end there by themselves.
const SLOT_WORDS: usize = WORDS + 1;

// It stands for a page where none was open in a slot yet, so that nothing is known there.
const UNUSED: u32 = u32::MAX;

/// All words of RAM and ROM, in one vector. The words of some pages are kept decoded.
#[derive(Debug, Drop)]
pub struct FlatMemory<const PAGES: u32> {
    // The order of the fields decides how long instructions of quick steps are, and so where their branches stand (docs/DECISIONS.md).

    // For each slot one more than the page that is open in it, or 0, or `UNUSED`.
    opened: Vec<u32>,
    words: Vec<u32>,
    // What is known of the words of open pages, by slots. There is one more, so that one comes after each.
    known: Vec<Insn>,
    // It stands for a word of which nothing is known.
    stop: Insn,
    ghost whole: { length words.items ≡ word_count_of PAGES },
    ghost range: { PAGES ≤ MAX_RAM_PAGES },
    ghost stops: { IsStop stop },
    ghost kept: { AreKnown PAGES words.items known.items opened.items },
}

// The slot of a page.
#[inline(always)]
fn slot_of(ram_pages: u32, page: u32) -> usize
    requires { IsPage ram_pages page }
    ensures slot { result ≡ slot_of ram_pages page }
    ensures within { result < SLOTS }
{
    if page < ram_pages {
        (page % RAM_SLOTS) as usize
    } else {
        (RAM_SLOTS + (page - ram_pages)) as usize
    }
}

/// The place of what is known of the first word of a page. That of the others comes after it.
#[inline(always)]
pub(crate) fn first_known(ram_pages: u32, page: u32) -> usize
    requires { IsPage ram_pages page }
    ensures { result < 2 ^ 29 }
{
    slot_of(ram_pages, page) * SLOT_WORDS
}

// Slots of whose words nothing is known.
fn unknown(alloc: Global, stop: Insn) -> Result<Vec<Insn>, AllocError>
    ensures room { IfOk result (λ known. length known.items ≡ SLOTS * SLOT_WORDS + 1) }
    ensures nothing { IfOk result (λ known. (i : ℕ) (d : Operation) → i < SLOTS * SLOT_WORDS → slice_index_or known.items i d ≡ stop) }
{
    vec![in alloc; stop; SLOTS * SLOT_WORDS + 1]
}

// Slots in which no page was open yet.
fn unused(alloc: Global) -> Result<Vec<u32>, AllocError>
    ensures long { IfOk result (λ opened. length opened.items ≡ SLOTS) }
    ensures unused { IfOk result (λ opened. (slot : ℕ) → slot < SLOTS → slice_index opened.items slot ≡ UNUSED) }
{
    vec![in alloc; UNUSED; SLOTS]
}

// Nothing is known of the words of a slot any more. Where it was not used yet, nothing was.
fn forget(known: &mut Vec<Insn>, slot: usize, used: bool, stop: Insn)
    requires room { length known.old.items ≡ SLOTS * SLOT_WORDS + 1 }
    requires slot { slot < SLOTS }
    requires stop { IsStop stop }
    requires unused { IsFalse used → (index : ℕ) (d : Operation) → index < SLOT_WORDS → IsStop (slice_index_or known.old.items (slot * SLOT_WORDS + index) d) }
    ensures room { length known.new.items ≡ SLOTS * SLOT_WORDS + 1 }
    ensures there { (index : ℕ) (d : Operation) → index < SLOT_WORDS → IsStop (slice_index_or known.new.items (slot * SLOT_WORDS + index) d) }
    ensures others { (i : ℕ) (d : Operation) → ¬ (i / SLOT_WORDS ≡ slot) → slice_index_or known.new.items i d ≡ slice_index_or known.old.items i d }
{
    if !used {
        return;
    }
    for index in 0..SLOT_WORDS {
        known[slot * SLOT_WORDS + index] = stop;
    }
}

// Nothing is known any more of a word that is stored into. Most such words lie in pages that are not open, of which nothing is said.
#[inline(always)]
fn forget_word<const PAGES: u32>(known: &mut Vec<Insn>, opened: &Vec<u32>, place: usize, stop: Insn)
    requires range { PAGES ≤ MAX_RAM_PAGES }
    requires place { place < word_count_of PAGES }
    requires room { length known.old.items ≡ SLOTS * SLOT_WORDS + 1 }
    requires slots { length opened.now.items ≡ SLOTS }
    ensures opened { IsTrue (is_open PAGES opened.now.items (place / PAGE_WORDS)) →
        known.new.items ≡ slice_set known.old.items (slot_of PAGES (place / PAGE_WORDS) * SLOT_WORDS + place % PAGE_WORDS) stop }
    ensures closed { IsFalse (is_open PAGES opened.now.items (place / PAGE_WORDS)) → known.new.items ≡ known.old.items }
{
    let page = (place / WORDS) as u32;
    let slot = slot_of(PAGES, page);
    if opened[slot] == page + 1 {
        known[slot * SLOT_WORDS + place % WORDS] = stop;
    }
}

// Closes all pages.
fn close_all(opened: &mut Vec<u32>)
    ensures long { length opened.new.items ≡ length opened.old.items }
    ensures none { (slot : ℕ) → slot < length opened.old.items → slice_index opened.new.items slot ≡ 0 }
{
    for slot in 0..opened.len() {
        opened[slot] = 0;
    }
}

// Adds the words of a page at reset. Of most pages the image sets none.
fn add_page(
    words: &mut Vec<u32>,
    image: &Image,
    ram_pages: u32,
    page: u32,
) -> Result<(), AllocError>
    requires page { IsPage ram_pages page }
    requires range { ram_pages ≤ MAX_RAM_PAGES }
    requires so_far { words.old.items ≡ map (reset_word ram_pages image.now) (range_with_len 0 (page * PAGE_WORDS)) }
    ensures { IfOk result (λ _. words.new.items ≡ map (reset_word ram_pages image.now) (range_with_len 0 ((page + 1) * PAGE_WORDS))) }
{
    let first = page as usize * WORDS;
    let start = address_of(ram_pages, first);
    if image.is_blank(start, start + PAGE_BYTES) {
        words.resize(first + WORDS, 0)?;
        return Ok(());
    }
    for place in first..first + WORDS {
        words.push(image.word(address_of(ram_pages, place)).unwrap_or(0))?;
    }
    Ok(())
}

impl<const PAGES: u32> FlatMemory<PAGES> {
    /// The words at reset: those that the image sets, and all others 0.
    pub fn boot(alloc: Global, image: &Image) -> Result<FlatMemory<PAGES>, AllocError>
        requires { PAGES ≤ MAX_RAM_PAGES }
        ensures { IfOk result (λ memory. memory.words.items ≡ reset_words PAGES image.now) }
    {
        let stop = stop();
        let known = unknown(alloc, stop)?;
        let opened = unused(alloc)?;
        let mut words = Vec::with_capacity(alloc, word_count(PAGES))?;
        for page in 0..PAGES + ROM_PAGES {
            add_page(&mut words, image, PAGES, page)?;
        }
        Ok(FlatMemory {
            opened,
            words,
            known,
            stop,
        })
    }

    /// All words.
    pub fn words(&self) -> &[u32]
        ensures words { result.now ≡ self.now.words.items }
        ensures whole { length result.now ≡ word_count_of PAGES }
        ensures range { PAGES ≤ MAX_RAM_PAGES }
    {
        &self.words
    }

    // Makes it hold the words of a snapshot, where it holds those of another one but for a set of pages.
    pub(crate) fn load(
        &mut self,
        snapshot: &Snapshot<PAGES>,
        held: &Snapshot<PAGES>,
        changed: &PageMarks<PAGES>,
    )
        requires { SameOutside changed.now held.now self.old.words.items }
        ensures { self.new.words.items ≡ snapshot.now }
    {
        close_all(&mut self.opened);
        snapshot.copy_to(&mut self.words, held, changed);
    }

    // Opens a page that is not open.
    #[cold]
    #[inline(never)]
    fn take_slot(&mut self, slot: usize, page: u32)
        requires page { IsPage PAGES page }
        requires slot { slot ≡ slot_of PAGES page }
        ensures opened { IsTrue (is_open PAGES self.new.opened.items page) }
        ensures words { self.new.words.items ≡ self.old.words.items }
    {
        let used = self.opened[slot] != UNUSED;
        forget(&mut self.known, slot, used, self.stop);
        self.opened[slot] = page + 1;
    }
}

impl<const PAGES: u32> Mem for FlatMemory<PAGES> {
    ghost words = { λ memory. memory.words.items };

    ghost ram = { PAGES };

    ghost is_open = { λ memory page. is_open PAGES memory.opened.items page };

    ghost known = { λ memory. known_at PAGES memory.known.items memory.stop };

    #[inline]
    fn ram_pages(&self) -> u32 {
        PAGES
    }

    #[inline]
    fn word(&self, place: usize) -> u32 {
        self.words[place]
    }

    #[inline(always)]
    fn set_word(&mut self, place: usize, value: u32) {
        forget_word::<PAGES>(&mut self.known, &self.opened, place, self.stop);
        self.words[place] = value;
    }

    #[inline]
    fn open_page(&mut self, page: u32) {
        let slot = slot_of(PAGES, page);
        if self.opened[slot] != page + 1 {
            self.take_slot(slot, page);
        }
    }

    #[inline(always)]
    fn insn(&self, page: u32, index: usize) -> &Insn {
        &self.known[slot_of(PAGES, page) * SLOT_WORDS + index]
    }

    #[inline(always)]
    fn name_after(&self, page: u32, index: usize) -> Mnemonic {
        let place = slot_of(PAGES, page) * SLOT_WORDS + index;
        self.known[place + 1].mnemonic()
    }

    #[inline(always)]
    fn learn(&mut self, page: u32, index: usize) -> bool {
        let place = slot_of(PAGES, page) * SLOT_WORDS + index;
        if self.known[place].mnemonic() != Mnemonic::Break {
            return false;
        }
        let Some(insn) = decoded(self.words[page as usize * WORDS + index]) else {
            return false;
        };
        self.known[place] = insn;
        true
    }

    ghost whole = { λ memory. memory.whole };

    ghost range = { λ memory. memory.range };
}
