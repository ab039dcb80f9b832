//! What is known where the next span starts, the first that is not joined.

ghost use Rattle.std.specs.Prelude.{◌≡◌, ◌∷◌, ◌+◌, ◌-◌, ◌^◌, ◌<◌, ◌≤◌, [], ℕ, IfOk, IfSome, IsSomeAnd, IsTrue, List, None, Some, length, take};
ghost use Rattle.r3k_machine.specs.State.{State};
ghost use Rattle.r3k_pages.specs.Pages.{SameOutside, overlaid};
ghost use Rattle.r3k_word.specs.declared.layout.TheConstants.{MAX_RAM_PAGES};
ghost use Rattle.span_fact.specs.Span.{Span, end_of};
ghost use Rattle.checkpoints.specs.Kept.{Follows, NearlyApplies, first_at, row_at};
ghost use Rattle.present_run.specs.Runs.{EndsAt, IsKnown, IsKnownAfter};

use checkpoints::Kept;
use r3k_live::Boundary;
use r3k_pages::PageMarks;
use span_fact::Fact;
use std::alloc::{AllocError, Global};
use std::rc::Rc;

/// What is known of where the run stands after a record.
#[derive(Drop)]
pub(crate) struct Frontier<const PAGES: u32> {
    // The number of the record, if something is known.
    pub(crate) after: Option<u64>,
    // Pages in which the run may stand otherwise than the record ends.
    pub(crate) differing: PageMarks<PAGES>,
    // Whether the record ends where the run stands.
    pub(crate) exact: bool,
}

impl<const PAGES: u32> Frontier<PAGES> {
    /// Nothing is known.
    pub(crate) fn new(alloc: Global) -> Result<Frontier<PAGES>, AllocError>
        requires { PAGES ≤ MAX_RAM_PAGES }
        ensures { IfOk result (λ frontier. frontier.after ≡ None) }
    {
        Ok(Frontier {
            after: None,
            differing: PageMarks::new(alloc)?,
            exact: false,
        })
    }

    /// Where a span starts: the pages in which the run may stand otherwise than the record before it ends, if that is known.
    pub(crate) fn before(&self, index: u64) -> Option<&PageMarks<PAGES>>
        ensures { IfSome result (λ pages. (0 < index) × (self.now.after ≡ Some (index - 1)) × (pages.now ≡ self.now.differing)) }
    {
        if index == 0 || self.after != Some(index - 1) {
            return None;
        }
        Some(&self.differing)
    }

    /// Over the next span, which was run. Its record is put first, for which there is room.
    pub(crate) fn run_over<const SPAN: u32>(
        &mut self,
        kept: &mut Kept<PAGES, SPAN>,
        fact: Fact<PAGES, SPAN>,
    )
        requires number { fact.index ≡ kept.old.valid }
        requires room { kept.old.reserved ≡ Some fact.index }
        requires few { fact.index + 1 < 2 ^ 63 }
        requires known { (index : ℕ) → index + 1 ≡ kept.old.valid → self.old.after ≡ Some index → IsKnownAfter SPAN kept.old.rows index fact.start self.old }
        ensures row { row_at kept.new.rows kept.old.valid ≡ fact.entry ∷ take (kept.old.most - 1) (row_at kept.old.rows kept.old.valid) }
        ensures others { (i : ℕ) → ¬ (i ≡ kept.old.valid) → row_at kept.new.rows i ≡ row_at kept.old.rows i }
        ensures valid { kept.new.valid ≡ kept.old.valid }
        ensures most { kept.new.most ≡ kept.old.most }
        ensures ends { kept.new.ends ≡ kept.old.ends }
        ensures known { (starts : ℕ → State) → starts (kept.old.valid + 1) ≡ end_of PAGES SPAN fact.entry → IsKnown SPAN kept.new.rows starts self.new }
    {
        let index = fact.index();
        let follows = self.ends_before(index);
        let _there_is_room = kept.put(fact);
        link_if(kept, index, follows, true);
        self.differing.clear();
        self.exact = true;
        self.after = Some(index);
    }

    /// Over the next span, whose first record serves as it is. Gives where the span ends.
    pub(crate) fn carry_over<const SPAN: u32>(
        &mut self,
        alloc: Global,
        kept: &mut Kept<PAGES, SPAN>,
        start: &Boundary<PAGES>,
    ) -> Result<Rc<Boundary<PAGES>>, AllocError>
        requires near { IsSomeAnd (first_at kept.old.rows kept.old.valid) (λ s. NearlyApplies PAGES SPAN s start.now s.events) }
        requires few { kept.old.valid + 1 < 2 ^ 63 }
        requires known { (index : ℕ) → index + 1 ≡ kept.old.valid → self.old.after ≡ Some index → IsKnownAfter SPAN kept.old.rows index start.now self.old }
        ensures end { IfOk result (λ end. IfSome (first_at kept.old.rows kept.old.valid) (λ s. end.value ≡ end_of PAGES SPAN (record s { start = start.now }))) }
        ensures number { IfSome (first_at kept.old.rows kept.old.valid) (λ s. s.index ≡ kept.old.valid) }
        ensures long { IfSome (first_at kept.old.rows kept.old.valid) (λ s. length start.now.words ≡ length s.start.words) }
        ensures kept { kept.new ≡ kept.old }
        ensures known { (starts : ℕ → State) → IfOk result (λ end. starts (kept.old.valid + 1) ≡ end.value) → IsKnown SPAN kept.new.rows starts self.new }
    {
        let index = kept.valid();
        let follows = self.ends_before(index);
        self.find_differing(kept, start);
        let Some(fact) = kept.first(index) else {
            unreachable!();
        };
        let end = carry_to_end(alloc, fact, start, &mut self.differing)?;
        self.exact = self.differing.pages().is_empty();
        link_if(kept, index, follows, self.exact);
        self.after = Some(index);
        Ok(end)
    }

    /// The run and its records stay the same up to where the span of a number starts, and may differ after it.
    pub(crate) fn cut(&mut self, index: u64)
        ensures known { (span : ℕ) (rows changed : List (List Span)) (old new : ℕ → State) → ((i : ℕ) → i < index → row_at changed i ≡ row_at rows i) →
            ((n : ℕ) → 0 < n → n ≤ index → new n ≡ old n) → IsKnown span rows old self.old → IsKnown span changed new self.new }
    {
        match self.after {
            Some(after) if after < index => {}
            _ => self.after = None,
        }
    }

    // Whether the record before a span is known to end where the span starts.
    fn ends_before(&self, index: u64) -> bool
        ensures { IsTrue result → (0 < index) × (self.now.after ≡ Some (index - 1)) × IsTrue self.now.exact }
    {
        self.before(index).is_some() && self.exact
    }

    // Whether the record before a span is known to lead to the first one of its number.
    fn leads<const SPAN: u32>(&self, kept: &Kept<PAGES, SPAN>, index: u64) -> bool
        requires { index < 2 ^ 63 }
        ensures { IsTrue result → (0 < index) × (self.now.after ≡ Some (index - 1)) × Follows PAGES SPAN (first_at kept.now.rows (index - 1)) (first_at kept.now.rows (index - 1 + 1)) }
    {
        match self.before(index) {
            None => false,
            Some(_) => kept.next(index - 1) == Some(0),
        }
    }

    // The differing pages are now those in which the next span may start otherwise than its first record. Where the record before it
    // leads to that one, they stay. Else they are found by comparing both memories.
    fn find_differing<const SPAN: u32>(&mut self, kept: &Kept<PAGES, SPAN>, start: &Boundary<PAGES>)
        requires few { kept.now.valid < 2 ^ 63 }
        requires known { (index : ℕ) → index + 1 ≡ kept.now.valid → self.old.after ≡ Some index → IsKnownAfter SPAN kept.now.rows index start.now self.old }
        ensures differ { IfSome (first_at kept.now.rows kept.now.valid) (λ s. SameOutside self.new.differing s.start.words start.now.words) }
        ensures after { self.new.after ≡ None }
    {
        let index = kept.valid();
        let leads = self.leads(kept, index);
        self.after = None;
        if leads {
            return;
        }
        self.differing.clear();
        if let Some(fact) = kept.first(index) {
            self.differing
                .add_differing(fact.start().memory(), start.memory());
        }
    }
}

// Notes that the first record of a number starts where the first one before it ends. That is so if that one ends where the run stands,
// and this one starts just there.
fn link_if<const PAGES: u32, const SPAN: u32>(
    kept: &mut Kept<PAGES, SPAN>,
    index: u64,
    ends: bool,
    starts: bool,
)
    requires few { index < 2 ^ 63 }
    requires follows { IsTrue ends → IsTrue starts → (0 < index) × Follows PAGES SPAN (first_at kept.old.rows (index - 1)) (first_at kept.old.rows (index - 1 + 1)) }
    ensures { kept.new ≡ kept.old }
{
    if ends && starts {
        kept.link(index - 1);
    }
}

// Where a span ends whose record nearly applies: where the record ends, with the differing pages carried over from the start.
// Pages that the span touches do not differ any more.
fn carry_to_end<const PAGES: u32, const SPAN: u32>(
    alloc: Global,
    fact: &Fact<PAGES, SPAN>,
    start: &Boundary<PAGES>,
    differing: &mut PageMarks<PAGES>,
) -> Result<Rc<Boundary<PAGES>>, AllocError>
    requires near { NearlyApplies PAGES SPAN fact.now start.now fact.now.events }
    requires same { SameOutside differing.old fact.now.start.words start.now.words }
    ensures end { IfOk result (λ end. end.value ≡ end_of PAGES SPAN (record fact.now { start = start.now })) }
    ensures start { SameOutside differing.new fact.now.start.words start.now.words }
    ensures after { SameOutside differing.new (end_of PAGES SPAN fact.now).words (end_of PAGES SPAN (record fact.now { start = start.now })).words }
    ensures exact { differing.new ≡ [] → fact.now.start ≡ start.now }
    ensures long { length start.now.words ≡ length fact.now.start.words }
{
    // Both memories are read, so that their numbers of words are known here.
    let _kept = fact.start();
    let _memory = start.memory();
    differing.remove(fact.touched());
    end_with(alloc, fact, differing, start)
}

// Where a record ends, with the pages of a set taken from another state.
fn end_with<const PAGES: u32, const SPAN: u32>(
    alloc: Global,
    fact: &Fact<PAGES, SPAN>,
    pages: &PageMarks<PAGES>,
    other: &Boundary<PAGES>,
) -> Result<Rc<Boundary<PAGES>>, AllocError>
    ensures { IfOk result (λ end. end.value ≡
        record (end_of PAGES SPAN fact.now) { words = overlaid pages.now (end_of PAGES SPAN fact.now).words other.now.words }) }
{
    if pages.pages().is_empty() {
        return fact.end().clone();
    }
    let end = fact.end().overlay(alloc, pages, other)?;
    share(alloc, end)
}

/// A boundary that several spans can share.
pub(crate) fn share<const PAGES: u32>(
    alloc: Global,
    boundary: Boundary<PAGES>,
) -> Result<Rc<Boundary<PAGES>>, AllocError>
    ensures { IfOk result (λ shared. shared.value ≡ boundary.entry) }
{
    Rc::new(alloc, boundary).map_err(|_| AllocError)
}
