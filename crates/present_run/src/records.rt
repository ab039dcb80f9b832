//! What is kept of the spans of this run and of earlier ones.

ghost use Rattle.std.specs.Prelude.{◌≡◌, ◌↔◌, ◌∷◌, ◌⊎◌, ◌+◌, ◌-◌, ◌*◌, ◌^◌, ◌<◌, ◌≤◌, ℕ, IfOk, IsSome, IsTrue, List, MatchOption, OnErr, Some, length, slice_get, slice_set, take};
ghost use Rattle.input_log.specs.Event.{LogEvent};
ghost use Rattle.input_log.specs.Edits.{AreSameOutside};
ghost use Rattle.r3k_image.specs.Boot.{Boot};
ghost use Rattle.r3k_word.specs.Layout.{word_count_of};
ghost use Rattle.r3k_machine.specs.Reset.{reset};
ghost use Rattle.r3k_machine.specs.Run.{state_at};
ghost use Rattle.checkpoints.specs.Kept.{first_at, promoted, row_at};
ghost use Rattle.present_run.specs.Ends.{IsJoined};
ghost use Rattle.present_run.specs.Index.{max_spans};
ghost use Rattle.present_run.specs.Reuse.{HasServing, IsServing, span_of};
ghost use Rattle.present_run.specs.Runs.{AreRecords};

use crate::frontier::{Frontier, share};
use crate::index::SpanIndex;
use crate::inputs::Inputs;
use checkpoints::Kept;
use r3k_live::Boundary;
use span_fact::Fact;
use std::alloc::{AllocError, Global};
use std::rc::Rc;

/// What is kept of each span, and what is known over them.
#[derive(Drop)]
pub(crate) struct SpanRecords<const PAGES: u32, const SPAN: u32> {
    // By number: its records, and where the span of this run ends. Later spans have the ends of an earlier run.
    pub(crate) kept: Kept<PAGES, SPAN>,
    // What the first records reported, by page and by line.
    pub(crate) reports: SpanIndex,
    // Where the run starts, at reset.
    pub(crate) reset: Rc<Boundary<PAGES>>,
    // The first of the later spans from which on each goes on from where the one before it ended, with the events of the log.
    pub(crate) rejoin_from: u64,
    // What is known where the next span starts.
    pub(crate) frontier: Frontier<PAGES>,
}

impl<const PAGES: u32, const SPAN: u32> SpanRecords<PAGES, SPAN> {
    /// The events of the times from one to another have changed. The spans before these times stay joined. Once a later span ends
    /// where it ended before, those that go on from there are joined again.
    pub(crate) fn forget(&mut self, from: u64, last: u64)
        requires { 0 < SPAN }
        ensures of { (image : Boot) (log changed : List LogEvent) → AreRecords {pages = PAGES} {span = SPAN} image log self.old →
            AreSameOutside from last log changed → AreRecords {pages = PAGES} {span = SPAN} image changed self.new }
        ensures rows { self.new.kept.rows ≡ self.old.kept.rows }
        ensures pasts { self.new.kept.most ≡ self.old.kept.most }
    {
        let index = from / SPAN as u64;
        let last = last / SPAN as u64;
        let joined = self.kept.valid();
        self.rejoin_from = rejoin_after_edit(self.rejoin_from, last, joined, self.kept.end_count());
        self.kept.truncate_valid(index);
        self.frontier.cut(index);
    }

    /// Where the run starts once the image sets a word to this.
    pub(crate) fn reset_with(
        &self,
        alloc: Global,
        place: usize,
        word: u32,
    ) -> Result<Rc<Boundary<PAGES>>, AllocError>
        requires { place < word_count_of PAGES }
        ensures { IfOk result (λ reset. reset.value ≡ record { core = self.now.reset.value.core; words = slice_set self.now.reset.value.words place word }) }
    {
        share(alloc, self.reset.with_word(alloc, place, word)?)
    }

    /// The run starts anew, from another reset. No record is joined any more. The records stay.
    pub(crate) fn restart(&mut self, start: Rc<Boundary<PAGES>>)
        ensures of { (image changed : Boot) (log : List LogEvent) → AreRecords {pages = PAGES} {span = SPAN} image log self.old →
            start.entry.value ≡ reset PAGES changed → AreRecords {pages = PAGES} {span = SPAN} changed log self.new }
        ensures rows { self.new.kept.rows ≡ self.old.kept.rows }
        ensures pasts { self.new.kept.most ≡ self.old.kept.most }
    {
        self.reset = start;
        self.frontier.cut(0);
        self.kept.truncate_valid(0);
        self.kept.forget_ends();
    }

    /// Where a span starts, which is at most the first that is not joined.
    pub(crate) fn start_of(&self, inputs: &Inputs, index: u64) -> &Rc<Boundary<PAGES>>
        requires of { AreRecords {pages = PAGES} {span = SPAN} inputs.now.image inputs.now.log self.now }
        requires joined { index ≤ self.now.kept.valid }
        ensures { result.now.value ≡ state_at PAGES inputs.now.image inputs.now.log (index * SPAN) }
    {
        if index == 0 {
            return &self.reset;
        }
        match self.kept.end(index - 1) {
            Some(end) => end,
            None => &self.reset,
        }
    }

    /// The place of a record of the first span that is not joined which serves for this run: its steps report the same.
    pub(crate) fn serving(&self, inputs: &Inputs, start: &Boundary<PAGES>) -> Option<usize>
        requires of { AreRecords {pages = PAGES} {span = SPAN} inputs.now.image inputs.now.log self.now }
        requires start { start.now ≡ state_at PAGES inputs.now.image inputs.now.log (self.now.kept.valid * SPAN) }
        requires time { (self.now.kept.valid + 1) * SPAN < 2 ^ 64 }
        ensures { MatchOption result
            (¬ HasServing PAGES SPAN (record { image = inputs.now.image; log = inputs.now.log }) self.now.kept.valid (row_at self.now.kept.rows self.now.kept.valid))
            (λ place. IsServing PAGES SPAN (record { image = inputs.now.image; log = inputs.now.log }) self.now.kept.valid (slice_get (row_at self.now.kept.rows self.now.kept.valid) place)) }
    {
        let index = self.kept.valid();
        let events = inputs
            .log
            .window(index * SPAN as u64, (index + 1) * SPAN as u64);
        let differing = self.frontier.before(index);
        self.kept.serving(index, start, events, differing)
    }

    /// The record at a place of the next span comes first.
    pub(crate) fn promote(&mut self, inputs: &Inputs, place: usize) -> Result<(), AllocError>
        requires of { AreRecords {pages = PAGES} {span = SPAN} inputs.now.image inputs.now.log self.old }
        requires there { IsSome (slice_get (row_at self.old.kept.rows self.old.kept.valid) place) }
        requires few { self.old.kept.valid < max_spans }
        ensures of { AreRecords {pages = PAGES} {span = SPAN} inputs.now.image inputs.now.log self.new }
        ensures row { IfOk result (λ _. row_at self.new.kept.rows self.old.kept.valid ≡ promoted place (row_at self.old.kept.rows self.old.kept.valid)) }
        ensures others { (i : ℕ) → ¬ (i ≡ self.old.kept.valid) → row_at self.new.kept.rows i ≡ row_at self.old.kept.rows i }
        ensures same { OnErr result (self.new.kept.rows ≡ self.old.kept.rows) }
        ensures valid { self.new.kept.valid ≡ self.old.kept.valid }
        ensures pasts { self.new.kept.most ≡ self.old.kept.most }
    {
        if place == 0 {
            return Ok(());
        }
        let index = self.kept.valid();
        let Some(fact) = self.kept.fact(index, place) else {
            unreachable!();
        };
        self.reports.take_in(fact)?;
        self.kept.promote(index, place);
        self.frontier.cut(index);
        Ok(())
    }

    /// Joins the first record of the next span, which serves, and then those that go on from its end.
    pub(crate) fn join_first(
        &mut self,
        alloc: Global,
        inputs: &Inputs,
        start: &Boundary<PAGES>,
    ) -> Result<(), AllocError>
        requires of { AreRecords {pages = PAGES} {span = SPAN} inputs.now.image inputs.now.log self.old }
        requires start { start.now ≡ state_at PAGES inputs.now.image inputs.now.log (self.old.kept.valid * SPAN) }
        requires serves { IsServing PAGES SPAN (record { image = inputs.now.image; log = inputs.now.log }) self.old.kept.valid (first_at self.old.kept.rows self.old.kept.valid) }
        requires few { self.old.kept.valid < max_spans }
        ensures of { AreRecords {pages = PAGES} {span = SPAN} inputs.now.image inputs.now.log self.new }
        ensures joined { IfOk result (λ _. self.old.kept.valid < self.new.kept.valid) }
        ensures rows { self.new.kept.rows ≡ self.old.kept.rows }
        ensures grows { self.old.kept.valid ≤ self.new.kept.valid }
        ensures pasts { self.new.kept.most ≡ self.old.kept.most }
    {
        let end = self.carry_over(alloc, inputs, start)?;
        self.join(inputs, end);
        Ok(())
    }

    // Goes over the next span, whose first record serves, and gives where it ends.
    fn carry_over(
        &mut self,
        alloc: Global,
        inputs: &Inputs,
        start: &Boundary<PAGES>,
    ) -> Result<Rc<Boundary<PAGES>>, AllocError>
        requires of { AreRecords {pages = PAGES} {span = SPAN} inputs.now.image inputs.now.log self.old }
        requires start { start.now ≡ state_at PAGES inputs.now.image inputs.now.log (self.old.kept.valid * SPAN) }
        requires serves { IsServing PAGES SPAN (record { image = inputs.now.image; log = inputs.now.log }) self.old.kept.valid (first_at self.old.kept.rows self.old.kept.valid) }
        requires few { self.old.kept.valid < max_spans }
        ensures of { AreRecords {pages = PAGES} {span = SPAN} inputs.now.image inputs.now.log self.new }
        ensures there { IsJoined PAGES SPAN self.new.kept.valid (first_at self.new.kept.rows self.new.kept.valid)
            (span_of PAGES SPAN inputs.now.image inputs.now.log self.new.kept.valid) }
        ensures end { IfOk result (λ end. end.value ≡ state_at PAGES inputs.now.image inputs.now.log ((self.new.kept.valid + 1) * SPAN)) }
        ensures kept { self.new.kept ≡ self.old.kept }
    {
        self.frontier.carry_over(alloc, &mut self.kept, start)
    }

    /// Keeps the record of the next span, which was run, as the one that was used last. Room for it is reserved before anything changes.
    pub(crate) fn keep(
        &mut self,
        inputs: &Inputs,
        fact: Fact<PAGES, SPAN>,
    ) -> Result<(), AllocError>
        requires of { AreRecords {pages = PAGES} {span = SPAN} inputs.now.image inputs.now.log self.old }
        requires few { self.old.kept.valid < max_spans }
        requires fact { fact ≡ span_of PAGES SPAN inputs.now.image inputs.now.log self.old.kept.valid }
        ensures of { AreRecords {pages = PAGES} {span = SPAN} inputs.now.image inputs.now.log self.new }
        ensures row { IfOk result (λ _. row_at self.new.kept.rows self.old.kept.valid ≡
            fact.entry ∷ take (self.old.kept.most - 1) (row_at self.old.kept.rows self.old.kept.valid)) }
        ensures others { (i : ℕ) → ¬ (i ≡ self.old.kept.valid) → row_at self.new.kept.rows i ≡ row_at self.old.kept.rows i }
        ensures same { OnErr result (row_at self.new.kept.rows self.old.kept.valid ≡ row_at self.old.kept.rows self.old.kept.valid) }
        ensures valid { self.new.kept.valid ≡ self.old.kept.valid }
        ensures pasts { self.new.kept.most ≡ self.old.kept.most }
    {
        self.kept.reserve(fact.index())?;
        self.reports.take_in(&fact)?;
        self.frontier.run_over(&mut self.kept, fact);
        Ok(())
    }

    /// Joins the record of the next span. Where the span ends where it ended before, joins again all spans that go on from there.
    pub(crate) fn join(&mut self, inputs: &Inputs, end: Rc<Boundary<PAGES>>)
        requires of { AreRecords {pages = PAGES} {span = SPAN} inputs.now.image inputs.now.log self.old }
        requires there { IsJoined PAGES SPAN self.old.kept.valid (first_at self.old.kept.rows self.old.kept.valid)
            (span_of PAGES SPAN inputs.now.image inputs.now.log self.old.kept.valid) }
        requires end { end.value ≡ state_at PAGES inputs.now.image inputs.now.log ((self.old.kept.valid + 1) * SPAN) }
        requires few { self.old.kept.valid < max_spans }
        ensures of { AreRecords {pages = PAGES} {span = SPAN} inputs.now.image inputs.now.log self.new }
        ensures joined { self.old.kept.valid < self.new.kept.valid }
        ensures rows { self.new.kept.rows ≡ self.old.kept.rows }
        ensures pasts { self.new.kept.most ≡ self.old.kept.most }
    {
        let index = self.kept.valid();
        let count = joined_by(&self.kept, self.rejoin_from, index, &end);
        self.kept.set_end(index, end);
        join_up_to(&mut self.kept, count);
        self.reports.sum_up_to(count);
    }
}

// From which span on the ends that are there go on from each other, once the events of a span have changed.
fn rejoin_after_edit(rejoin_from: u64, last: u64, joined: u64, ends: u64) -> u64
    ensures last { last ≤ result }
    ensures rejoin_from { (joined ≡ ends) ⊎ ((rejoin_from ≤ result) × (joined ≤ result)) }
{
    if joined == ends {
        return last;
    }
    rejoin_from.max(joined).max(last)
}

// Joins all records up to a number.
fn join_up_to<const PAGES: u32, const SPAN: u32>(kept: &mut Kept<PAGES, SPAN>, count: u64)
    requires there { (i : ℕ) → i < count → IsSome (first_at kept.old.rows i) }
    requires more { kept.old.valid ≤ count }
    ensures { kept.new ≡ record kept.old { valid = count } }
{
    while kept.valid() < count {
        kept.join();
    }
}

// How many spans are joined once the next one ends there: one more, or all, if it is known to end where it ended before. The states
// are compared only if they are the same boundary, so it costs nothing if they differ.
fn joined_by<const PAGES: u32, const SPAN: u32>(
    kept: &Kept<PAGES, SPAN>,
    rejoin_from: u64,
    index: u64,
    end: &Rc<Boundary<PAGES>>,
) -> u64
    requires { index < 2 ^ 64 - 1 }
    ensures more { index < result }
    ensures met { (result ≡ index + 1) ⊎ ((rejoin_from ≤ index) × (result ≡ length kept.now.ends) × (slice_get kept.now.ends index ≡ Some end.now.value)) }
{
    if index < rejoin_from || index + 1 >= kept.end_count() {
        return index + 1;
    }
    match kept.end(index) {
        Some(before) if Rc::ptr_eq(before, end) && is_same(before, end) => kept.end_count(),
        _ => index + 1,
    }
}

// Whether two states are the same.
fn is_same<const PAGES: u32>(a: &Boundary<PAGES>, b: &Boundary<PAGES>) -> bool
    ensures { IsTrue result ↔ (a.now ≡ b.now) }
{
    a.core() == b.core() && a.memory().equals(b.memory())
}
