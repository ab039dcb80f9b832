//! The record of a span: `SPAN` steps from a state, with the events of their times.

ghost use Rattle.std.specs.Prelude.{◌≡◌, ◌↔◌, ◌+◌, ◌*◌, ◌^◌, ◌<◌, ◌≤◌, ℕ, IfOk, IsTrue, List, length, map, slice_index_or};
ghost use Rattle.std.specs.List.Sorted.{IsNonDecreasingBy, IsStrictlyIncreasing};
ghost use Rattle.r3k_word.specs.Layout.{word_count_of};
ghost use Rattle.r3k_word.specs.declared.layout.TheConstants.{PAGE_WORDS};
ghost use Rattle.input_log.specs.Log.{AreInOrder, AreWithin};
ghost use Rattle.r3k_pages.specs.Pages.{IsPageSet, SameOutside};
ghost use Rattle.r3k_machine.specs.declared.step.Done.{Done};
ghost use Rattle.r3k_machine.specs.declared.target.Target.TheVariants.{Memory};
ghost use Rattle.r3k_machine.specs.Run.{last_writer};
ghost use Rattle.r3k_live.specs.Living.{counted};
ghost use Rattle.r3k_live.specs.Marks.{marks_of};
ghost use Rattle.r3k_live.specs.Record.{AreWriters, dirty_pages, sent_from, touched_pages};
ghost use Rattle.r3k_live.specs.declared.recorder.Written.{Written};
ghost use Rattle.span_fact.specs.Span.{SpanRunsIn, end_of, steps_of};

use input_log::Event;
use r3k_live::{Boundary, Destinations, Live, Recorder, SentAt, Written};
use r3k_machine::Target;
use r3k_word::layout::PAGE_BYTES;
use std::alloc::{AllocError, Global};
use std::marker::Model;
use std::rc::Rc;

/// What `SPAN` steps from a state, with the events of their times, leave and report, on a machine with `PAGES` pages of RAM.
#[derive(Drop)]
pub struct Fact<const PAGES: u32, const SPAN: u32> {
    index: u64,
    start: Rc<Boundary<PAGES>>,
    end: Rc<Boundary<PAGES>>,
    events: Vec<Event>,
    writers: Vec<Written>,
    destinations: Destinations,
    sent: Vec<SentAt>,
    dirty: Vec<u32>,
    marks: Vec<u32>,
    touched: Vec<u32>,
    code_pages: Vec<u32>,
}

impl<const PAGES: u32, const SPAN: u32> Model for Fact<PAGES, SPAN> {
    ghost use Rattle.span_fact.specs.Span.{Holds, Span};

    ghost Value = { Span };

    ghost view = { λ f. record { index = f.index; start = f.start.value; events = f.events.items } };

    ghost invariant = { λ f. Holds PAGES SPAN (record { index = f.index; start = f.start.value; events = f.events.items })
        f.end.value f.writers.items f.destinations f.sent.items f.dirty.items f.marks.items f.touched.items f.code_pages.items };
}

impl<const PAGES: u32, const SPAN: u32> Fact<PAGES, SPAN> {
    /// The record of the span of an index, made by running it. The machine stands at the span's start, which is handed in as kept,
    /// and then at its end. Where memory is refused, the machine may stand anywhere in the span, after at most `SPAN` steps.
    pub fn make(
        alloc: Global,
        live: &mut Live<PAGES>,
        recorder: &mut Recorder<PAGES, SPAN>,
        start: Rc<Boundary<PAGES>>,
        index: u64,
        events: &[Event],
    ) -> Result<Fact<PAGES, SPAN>, AllocError>
        requires stands { live.old.state ≡ start.value }
        requires in_order { AreInOrder events.now }
        requires within { AreWithin (index * SPAN) ((index + 1) * SPAN) events.now }
        requires time { (index + 1) * SPAN < 2 ^ 64 }
        ensures made { IfOk result (λ fact. fact ≡ record { index = index; start = start.entry.value; events = events.now }) }
        ensures stands { IfOk result (λ fact. live.new.state ≡ end_of PAGES SPAN fact) }
        ensures count { IfOk result (λ _. live.new.steps ≡ counted live.old.steps SPAN) }
        ensures least { live.old.steps ≤ live.new.steps }
        ensures most { live.new.steps ≤ counted live.old.steps SPAN }
    {
        recorder.clear();
        live.run(index * SPAN as u64, events, SPAN, recorder);
        Ok(Fact {
            index,
            start,
            end: live.keep(alloc)?,
            events: Vec::from_slice(alloc, events)?,
            writers: recorder.writers(alloc)?,
            destinations: recorder.destinations(),
            sent: Vec::from_slice(alloc, recorder.sent())?,
            dirty: recorder.dirty(alloc)?,
            marks: recorder.marks(alloc)?,
            touched: recorder.touched(alloc)?,
            code_pages: Vec::from_slice(alloc, recorder.code_pages())?,
        })
    }

    /// The number of the span in its run: its steps are those from `index * SPAN` on.
    pub fn index(&self) -> u64
        ensures { result ≡ self.now.index }
    {
        self.index
    }

    /// Where it starts.
    pub fn start(&self) -> &Rc<Boundary<PAGES>>
        ensures start { result.now.value ≡ self.now.start }
        ensures whole { length self.now.start.words ≡ word_count_of PAGES }
    {
        // Its memory is read, so that the number of words is known here.
        let _memory = self.start.memory();
        &self.start
    }

    /// Where it ends: where the run stands after its last step.
    pub fn end(&self) -> &Rc<Boundary<PAGES>>
        ensures { result.now.value ≡ end_of PAGES SPAN self.now }
    {
        &self.end
    }

    /// The events of its times.
    pub fn events(&self) -> &[Event]
        ensures events { result.now ≡ self.now.events }
        ensures in_order { AreInOrder result.now }
        ensures within { AreWithin (self.now.index * SPAN) ((self.now.index + 1) * SPAN) result.now }
    {
        &self.events
    }

    /// The last of its steps, counted from its start, that wrote a word of RAM or a register, if one did.
    pub fn writer(&self, target: Target) -> Option<u32>
        ensures { result ≡ last_writer target (steps_of PAGES SPAN self.now) }
    {
        match target {
            Target::Memory(address) => writer_in::<PAGES>(&self.writers, address),
            Target::Register(register) => self.destinations.writer(register),
        }
    }

    /// The bytes that its steps sent, in order, each with its line and its step, counted from its start.
    pub fn sent(&self) -> &[SentAt]
        ensures { result.now ≡ sent_from 0 (steps_of PAGES SPAN self.now) }
    {
        &self.sent
    }

    /// The pages that its steps stored into, in ascending order. All others have the same words at its end as at its start.
    pub fn dirty(&self) -> &[u32]
        ensures pages { result.now ≡ dirty_pages PAGES (steps_of PAGES SPAN self.now) }
        ensures set { IsPageSet PAGES result.now }
        ensures stayed { SameOutside result.now self.now.start.words (end_of PAGES SPAN self.now).words }
    {
        &self.dirty
    }

    /// The marks of all that its steps wrote, in ascending order: of words and then of registers.
    pub fn marks(&self) -> &[u32]
        ensures marks { result.now ≡ marks_of PAGES (steps_of PAGES SPAN self.now) }
        ensures ascending { IsStrictlyIncreasing result.now }
    {
        &self.marks
    }

    /// The pages that its steps touched, in ascending order: fetched from, loaded from or stored into.
    pub fn touched(&self) -> &[u32]
        ensures pages { result.now ≡ touched_pages PAGES (steps_of PAGES SPAN self.now) }
        ensures set { IsPageSet PAGES result.now }
    {
        &self.touched
    }

    /// Whether the PC is in a virtual page, given by its number, where the span starts or after one of its steps.
    pub fn runs_in(&self, page: u32) -> bool
        ensures { IsTrue result ↔ SpanRunsIn PAGES SPAN self.now page }
    {
        self.code_pages.contains(&page)
    }
}

// The last step that stored into the word at an address, from the list of all words of RAM that were stored into.
fn writer_in<const PAGES: u32>(writers: &[Written], address: u32) -> Option<u32>
    requires { IsStrictlyIncreasing (map (λ writer. writer.place) writers.now) }
    ensures { (steps : List Done) → AreWriters PAGES steps writers.now → result ≡ last_writer (Memory address) steps }
{
    if address % 4 != 0 {
        return None;
    }
    if address / PAGE_BYTES >= PAGES {
        return None;
    }
    let place = address / 4;
    let at = first_from(writers, place);
    if at == writers.len() {
        return None;
    }
    let writer = writers[at];
    if writer.place != place {
        return None;
    }
    Some(writer.step)
}

// The index in ascending order from which on words have at least this place.
fn first_from(writers: &[Written], place: u32) -> usize
    requires { IsNonDecreasingBy (λ writer. writer.place) writers.now }
    ensures bound { result ≤ length writers.now }
    ensures below { (k : ℕ) (d : Written) → k < result → (slice_index_or writers.now k d).place < place }
    ensures above { (k : ℕ) (d : Written) → result ≤ k → k < length writers.now → place ≤ (slice_index_or writers.now k d).place }
{
    writers.partition_point(|writer| writer.place < place)
}
