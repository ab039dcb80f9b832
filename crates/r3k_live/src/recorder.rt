//! A record of what steps reported: bytes sent, words stored into, registers written, and pages touched.

ghost use Rattle.std.specs.Prelude.{◌≡◌, ◌+◌, ◌^◌, ◌<◌, ◌≤◌, [], ◌∷◌, ◌++◌, ◌*◌, All, Contains, ◌||◌, IfOk, IfSome, IsTrue, List, length, nat_eq, slice_index, vec_capacity, vec_len, ℕ};
ghost use Rattle.std.specs.List.Sorted.{IsStrictlyIncreasing};
ghost use Rattle.r3k_word.specs.declared.layout.TheConstants.{MAX_RAM_PAGES, PAGE_WORDS};
ghost use Rattle.r3k_pages.specs.Pages.{IsPageSet, holds, page_count_of};
ghost use Rattle.r3k_machine.specs.declared.step.Done.{Done};
ghost use Rattle.r3k_machine.specs.declared.target.Target.TheVariants.{Memory};
ghost use Rattle.r3k_machine.specs.Core.{Core};
ghost use Rattle.r3k_machine.specs.Locality.{fetched_page, is_page};
ghost use Rattle.r3k_machine.specs.Quiet.{IsCodePage};
ghost use Rattle.r3k_machine.specs.Run.{last_writer};
ghost use Rattle.r3k_machine.specs.Reports.{IsPage, IsRamWord};
ghost use Rattle.r3k_pages.specs.declared.page.TheConstants.{PAGE_BLOCKS};
ghost use Rattle.r3k_live.specs.Marks.{marks_of};
ghost use Rattle.r3k_live.specs.Stores.{AreInBlocks};
ghost use Rattle.r3k_live.specs.Record.{AreDestinations, AreWriters, dirty_pages, sent_from, touched_pages, with_sent};
ghost use Rattle.r3k_live.specs.Recording.{IsNoted, IsReady, Records, TouchesStored};
ghost use Rattle.r3k_live.specs.Waiting.{HasPassed, IsHeld, held_at, is_among};

use crate::destinations::Destinations;
use crate::ready_pages::ReadyPages;
use crate::stores::{HELD, Held, Stores};
use crate::virtual_pages::VirtualPages;
use arrayvec::ArrayVec;
use dz_serial::{Sent, SerialLine};
use r3k_machine::{CodePage, Done, Target};
use r3k_pages::PageMarks;
use r3k_word::layout::PAGE_BYTES;
use std::alloc::{AllocError, Global};
use std::marker::Model;

/// A byte that a step sent, with the step's number in its run.
#[derive(Clone, Copy, Debug, PartialEq, Eq)]
pub struct SentAt {
    pub line: SerialLine,
    pub byte: u8,
    pub step: u32,
}

/// A word of RAM that was stored into, by its place, with the last step that did so.
#[derive(Clone, Copy, Debug, PartialEq, Eq)]
pub struct Written {
    pub place: u32,
    pub step: u32,
}

/// What the steps of a run reported, at most `SPAN` of them, on a machine with `PAGES` pages of RAM, and where the PC stood. All room is
/// taken when it is made.
#[derive(Drop)]
pub struct Recorder<const PAGES: u32, const SPAN: u32> {
    // The order of the fields decides how long instructions of quick steps are, and so where their branches stand (docs/DECISIONS.md).

    steps: u32,
    stores: Stores<PAGES>,
    destinations: Destinations,
    sent: Vec<SentAt>,
    // The virtual pages in which the PC was.
    code_pages: VirtualPages,
    touched: PageMarks<PAGES>,
    ready: ReadyPages,
}

impl<const PAGES: u32, const SPAN: u32> Model for Recorder<PAGES, SPAN> {
    ghost use Rattle.std.specs.Prelude.{vec_capacity};
    ghost use Rattle.r3k_live.specs.Recording.{IsRecording, Recording};

    ghost Value = { Recording };

    ghost view = { λ r. record {
      steps = r.steps;
      last = r.stores.last;
      dirty = r.stores.dirty;
      destinations = r.destinations;
      touched = r.touched;
      sent = r.sent.items;
      code_pages = r.code_pages;
    } };

    ghost invariant = { λ r. IsRecording PAGES SPAN (vec_capacity r.sent) r.ready (record {
      steps = r.steps;
      last = r.stores.last;
      dirty = r.stores.dirty;
      destinations = r.destinations;
      touched = r.touched;
      sent = r.sent.items;
      code_pages = r.code_pages;
    }) };
}

impl<const PAGES: u32, const SPAN: u32> Recorder<PAGES, SPAN> {
    /// A record of no step. All its memory is taken here.
    pub fn new(alloc: Global) -> Result<Recorder<PAGES, SPAN>, AllocError>
        requires { PAGES ≤ MAX_RAM_PAGES }
        ensures { IfOk result (Records PAGES []) }
    {
        Ok(Recorder {
            stores: Stores::new(alloc)?,
            sent: Vec::with_capacity(alloc, SPAN as usize)?,
            code_pages: VirtualPages::new(alloc)?,
            steps: 0,
            destinations: Destinations::none(),
            touched: PageMarks::new(alloc)?,
            ready: ReadyPages::new(alloc)?,
        })
    }

    /// Empties it, by no more than what was recorded.
    pub fn clear(&mut self)
        ensures empty { Records PAGES [] self.new }
        ensures code_pages { self.new.code_pages ≡ [] }
    {
        self.stores.clear();
        self.destinations = Destinations::none();
        self.touched.clear();
        self.sent.clear();
        self.ready.take_out(self.code_pages.pages());
        self.code_pages.clear();
        self.steps = 0;
    }

    /// How many steps it holds.
    #[inline(always)]
    pub(crate) fn steps(&self) -> u32
        ensures steps { result ≡ self.now.steps }
        ensures bound { result ≤ SPAN }
    {
        self.steps
    }

    /// The last step that wrote a word of RAM or a register, if one did.
    pub fn writer(&self, target: Target) -> Option<u32>
        ensures { (steps : List Done) → Records PAGES steps self.now → result ≡ last_writer target steps }
    {
        match target {
            Target::Memory(address) => self.word_writer(address),
            Target::Register(register) => self.destinations.writer(register),
        }
    }

    // The last step that stored into the word at a physical address, if one did.
    fn word_writer(&self, address: u32) -> Option<u32>
        ensures { (steps : List Done) → Records PAGES steps self.now → result ≡ last_writer (Memory address) steps }
    {
        if address % 4 != 0 || address / PAGE_BYTES >= PAGES {
            return None;
        }
        self.stores.last(address / 4)
    }

    /// The words of RAM that were stored into, in ascending order, each once and with the last step that did so.
    pub fn writers(&self, alloc: Global) -> Result<Vec<Written>, AllocError>
        ensures { (steps : List Done) → Records PAGES steps self.now → IfOk result (λ writers. AreWriters PAGES steps writers.items) }
    {
        self.stores.written(alloc)
    }

    /// The registers that were written, each with its last step.
    pub fn destinations(&self) -> Destinations
        ensures { (steps : List Done) → Records PAGES steps self.now → AreDestinations steps result }
    {
        self.destinations
    }

    /// The marks of all that was written, in ascending order: of words and then of registers.
    pub fn marks(&self, alloc: Global) -> Result<Vec<u32>, AllocError>
        ensures marks { (steps : List Done) → Records PAGES steps self.now → IfOk result (λ marks. marks.items ≡ marks_of PAGES steps) }
        ensures ascending { (steps : List Done) → Records PAGES steps self.now → IfOk result (λ marks. IsStrictlyIncreasing marks.items) }
    {
        let mut marks = self.dirty(alloc)?;
        self.destinations.add_marks(&mut marks)?;
        Vec::from_slice(alloc, &marks)
    }

    /// The bytes that were sent, in order.
    pub fn sent(&self) -> &[SentAt]
        ensures sent { (steps : List Done) → Records PAGES steps self.now → result.now ≡ sent_from 0 steps }
        ensures few { length result.now ≤ self.now.steps }
    {
        &self.sent
    }

    /// The pages that were stored into, in ascending order.
    pub fn dirty(&self, alloc: Global) -> Result<Vec<u32>, AllocError>
        ensures pages { (steps : List Done) → Records PAGES steps self.now → IfOk result (λ pages. pages.items ≡ dirty_pages PAGES steps) }
        ensures set { IfOk result (λ pages. IsPageSet PAGES pages.items) }
    {
        self.stores.dirty().ascending(alloc)
    }

    /// The pages that were touched, in ascending order: fetched from, loaded from or stored into.
    pub fn touched(&self, alloc: Global) -> Result<Vec<u32>, AllocError>
        ensures pages { (steps : List Done) → Records PAGES steps self.now → IfOk result (λ pages. pages.items ≡ touched_pages PAGES steps) }
        ensures set { IfOk result (λ pages. IsPageSet PAGES pages.items) }
    {
        self.touched.ascending(alloc)
    }

    /// The virtual pages in which the PC was, each once, by their numbers.
    pub fn code_pages(&self) -> &[u32]
        ensures { result.now ≡ self.now.code_pages }
    {
        self.code_pages.pages()
    }

    // Notes a virtual page in which the PC is.
    #[inline(always)]
    pub(crate) fn note_code_page(&mut self, page: u32)
        requires { page < 2 ^ 20 }
        ensures code_pages { (other : ℕ) → holds self.new.code_pages other ≡ (holds self.old.code_pages other || nat_eq page other) }
        ensures records { (steps : List Done) → Records PAGES steps self.old → Records PAGES steps self.new }
        ensures steps { self.new.steps ≡ self.old.steps }
    {
        self.code_pages.mark(page);
    }

    // Notes that quick steps may go on at once when they come to this page, if that lasts: in kseg0 and kseg1.
    #[inline(always)]
    pub(crate) fn note_ready(&mut self, page: CodePage)
        requires code { (core : Core) × IsCodePage PAGES core page }
        requires page { IsPage PAGES page.page }
        requires touched { IsTrue (holds self.old.touched page.page) }
        requires stood { IsTrue (holds self.old.code_pages page.number) }
        ensures { self.new ≡ self.old }
    {
        if page.goes_over_bus(page.number) {
            self.add_ready(page.number, page.page);
        }
    }

    // Adds a page of memory in which quick steps may go on at once when they come to a virtual page.
    #[cold]
    #[inline(never)]
    fn add_ready(&mut self, number: u32, page: u32)
        requires number { number < 2 ^ 20 }
        requires ready { IsReady PAGES number page self.old }
        ensures { self.new ≡ self.old }
    {
        self.ready.add(number, page);
    }

    /// The page of memory in which quick steps may go on at once when they come to a virtual page, if that was noted.
    #[inline(always)]
    pub(crate) fn ready(&self, number: u32) -> Option<u32>
        requires { number < 2 ^ 20 }
        ensures { IfSome result (λ page. IsReady PAGES number page self.now) }
    {
        self.ready.page(number)
    }

    /// Marks for blocks of words. That of each word that was stored into has one.
    pub(crate) fn blocks(&self) -> &[bool]
        ensures marked { AreInBlocks self.now.last result.now }
        ensures whole { length result.now ≡ PAGES * PAGE_BLOCKS }
    {
        self.stores.blocks()
    }

    /// The pages that were stored into.
    pub(crate) fn dirty_marks(&self) -> &PageMarks<PAGES>
        ensures { result.now ≡ self.now.dirty }
    {
        self.stores.dirty()
    }

    /// Whether a page was touched.
    #[inline]
    pub(crate) fn has_touched(&self, page: u32) -> bool
        ensures { result ≡ holds self.now.touched page }
    {
        self.touched.holds(page)
    }

    /// The words that steps after so many stored into, with what they hold of these words, if they are few.
    pub(crate) fn held(&self, since: u32, words: &[u32]) -> Option<ArrayVec<Held, HELD>>
        requires { PAGES * PAGE_WORDS ≤ length words.now }
        ensures are { IfSome result (λ held. All (IsHeld since self.now.last words.now) held.items) }
        ensures all { IfSome result (λ held. (place : ℕ) → since < slice_index self.now.last place → Contains held.items (held_at words.now place)) }
    {
        self.stores.held(since, words)
    }

    /// Some more steps have passed, in which all after `since` came again, some times. Those stored into these words.
    pub(crate) fn pass(&mut self, since: u32, passed: u32, held: &[Held])
        requires room { self.old.steps + passed ≤ SPAN }
        requires again { self.old.steps ≤ since + passed }
        requires are { All (λ word. (word.place < length self.old.last) × (since < slice_index self.old.last word.place)) held.now }
        requires all { (place : ℕ) → since < slice_index self.old.last place → IsTrue (is_among held.now place) }
        ensures { HasPassed PAGES since passed self.old self.new }
    {
        self.stores.pass(passed, self.steps, held);
        self.destinations.pass(since, passed, self.steps);
        self.steps += passed;
    }

    // The same as `note` for a step that fetched from a page that was touched before.
    #[inline(always)]
    pub(crate) fn note_again(&mut self, done: Done)
        requires room { self.old.steps < SPAN }
        requires stored { IfSome done.stored (IsRamWord PAGES) }
        requires touched { All (λ page. IfSome page (IsPage PAGES)) done.touched }
        requires pages { TouchesStored done }
        requires again { IfSome (fetched_page done) (λ page. IsTrue (holds self.old.touched page)) }
        ensures { IsNoted PAGES done self.old self.new }
    {
        note_sent(&mut self.sent, done.sent, self.steps);
        let is_new = self.stores.note(done.stored, self.steps);
        // A page that was stored into before was touched then.
        if is_new || done.stored.is_none() {
            mark(&mut self.touched, done.touched[1]);
        }
        self.destinations.note(done.wrote, self.steps);
        self.steps += 1;
    }

    // Records what one more step reported.
    #[inline]
    pub(crate) fn note(&mut self, done: Done)
        requires room { self.old.steps < SPAN }
        requires stored { IfSome done.stored (IsRamWord PAGES) }
        requires touched { All (λ page. IfSome page (IsPage PAGES)) done.touched }
        requires pages { TouchesStored done }
        ensures steps { self.new.steps ≡ self.old.steps + 1 }
        ensures records { (steps : List Done) → Records PAGES steps self.old → Records PAGES (steps ++ done ∷ []) self.new }
        ensures code_pages { self.new.code_pages ≡ self.old.code_pages }
    {
        note_sent(&mut self.sent, done.sent, self.steps);
        self.stores.note(done.stored, self.steps);
        mark(&mut self.touched, done.touched[0]);
        mark(&mut self.touched, done.touched[1]);
        self.destinations.note(done.wrote, self.steps);
        self.steps += 1;
    }
}

// Notes the byte that a step sent, if it did.
#[inline]
fn note_sent(sent: &mut Vec<SentAt>, byte: Option<Sent>, step: u32)
    requires { vec_len sent.old < vec_capacity sent.old }
    ensures items { sent.new.items ≡ sent.old.items ++ with_sent step byte [] }
    ensures long { length sent.new.items ≤ length sent.old.items + 1 }
    ensures room { vec_capacity sent.new ≡ vec_capacity sent.old }
{
    if let Some(byte) = byte {
        sent.push_reserved(SentAt {
            line: byte.line,
            byte: byte.byte,
            step,
        });
    }
}

// Marks a page, if there is one.
#[inline]
fn mark<const PAGES: u32>(marks: &mut PageMarks<PAGES>, page: Option<u32>)
    requires { IfSome page (λ page. page < page_count_of PAGES) }
    ensures { (other : ℕ) → holds marks.new other ≡ (holds marks.old other || is_page other page) }
{
    if let Some(page) = page {
        marks.mark(page);
    }
}
