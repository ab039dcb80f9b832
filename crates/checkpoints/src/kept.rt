//! What is kept of each span: records of at most so many different pasts, and where it ends.

ghost use Rattle.std.specs.Prelude.{◌≡◌, ◌∷◌, ◌++◌, ◌+◌, ◌-◌, ◌^◌, ◌<◌, ◌≤◌, ◌↔◌, ◌⊎◌, ℕ, suc, [], All, Contains, IfOk, IfSome, IsOk, IsSome, IsSomeAnd, IsTrue, List, MatchOption, None, OnErr, Option, Some, drop, length, min, slice_get, slice_index_or, take};
ghost use Rattle.r3k_machine.specs.State.{State};
ghost use Rattle.r3k_pages.specs.Layout.{word_count_of};
ghost use Rattle.r3k_pages.specs.Pages.{SameOutside, SamePage, page_count_of};
ghost use Rattle.r3k_live.specs.Record.{touched_pages};
ghost use Rattle.span_fact.specs.Span.{Span, end_of, steps_of};
ghost use Rattle.checkpoints.specs.Kept.{AreFar, Follows, IsNear, NearlyApplies, SameOn, first_at, promoted, row_at};
ghost use Rattle.checkpoints.specs.Rows.{IsOwnName, IsRoom, ends_in, ends_of, records_of};

use crate::row::{Record, Row};
use input_log::{Event, same_events};
use r3k_live::Boundary;
use r3k_pages::{PageMarks, Snapshot};
use span_fact::Fact;
use std::alloc::{AllocError, Global};
use std::marker::Model;
use std::rc::Rc;

/// Records of spans by their numbers: of each number at most so many, the one that was used last first. The first ones of as many
/// numbers as are valid are those of the present run. All others may be of other runs. Of the first numbers it is noted where a
/// span ends.
#[derive(Drop)]
pub struct Kept<const PAGES: u32, const SPAN: u32> {
    alloc: Global,
    rows: Vec<Row<PAGES, SPAN>>,
    valid: u64,
    // How many records a row has at most.
    most: usize,
    // The name of the next record that is put. At its greatest value it stays.
    names: u64,
    // The number of which a record can be put without memory, if there is one.
    reserved: Option<u64>,
    // How many rows, from 0 on, have an end that counts. Later ones are forgotten.
    ended: u64,
}

impl<const PAGES: u32, const SPAN: u32> Model for Kept<PAGES, SPAN> {
    ghost use Rattle.std.specs.Prelude.{◌≡◌, ◌<◌, ◌⊎◌, IfSome, length};
    ghost use Rattle.checkpoints.specs.Kept.{Kept, row_at};
    ghost use Rattle.checkpoints.specs.Rows.{AreRows, IsRoom, ends_in, ends_of, records_of, rows_of};

    ghost Value = { Kept };

    ghost view = { λ k. record { rows = rows_of k.rows.items; valid = k.valid; most = k.most; reserved = k.reserved; ends = ends_of k.ended (ends_in k.rows.items) } };

    ghost invariant = { λ k. AreRows PAGES SPAN (records_of k.rows.items) k.valid k.most k.names × IfSome k.reserved (IsRoom k.rows.items k.most) × (length (ends_of k.ended (ends_in k.rows.items)) ≡ k.ended) };
}

impl<const PAGES: u32, const SPAN: u32> Kept<PAGES, SPAN> {
    /// No records, and at most so many of each number. It takes no memory.
    #[tactic(auto, unfolding(crate::specs::Rows::ends_of))]
    pub fn new(alloc: Global, most: usize) -> Kept<PAGES, SPAN>
        requires { 0 < most }
        ensures { result ≡ record { rows = []; valid = 0; most = most; reserved = None; ends = [] } }
    {
        Kept {
            alloc,
            rows: Vec::new(alloc),
            valid: 0,
            most,
            names: 0,
            reserved: None,
            ended: 0,
        }
    }

    /// How many records are kept of a number.
    pub fn count(&self, index: u64) -> usize
        ensures { result ≡ length (row_at self.now.rows index) }
    {
        match self.rows.get(index as usize) {
            Some(row) => row.len(),
            None => 0,
        }
    }

    /// The record of a span that was used last, if one is kept.
    pub fn first(&self, index: u64) -> Option<&Fact<PAGES, SPAN>>
        ensures fact { MatchOption result (first_at self.now.rows index ≡ None) (λ fact. first_at self.now.rows index ≡ Some fact.now) }
        ensures index { IfSome result (λ fact. fact.now.index ≡ index) }
        ensures whole { IfSome result (λ fact. length fact.now.start.words ≡ word_count_of PAGES) }
    {
        self.fact(index, 0)
    }

    /// The record of a span at a place, counted from the one that was used last.
    pub fn fact(&self, index: u64, place: usize) -> Option<&Fact<PAGES, SPAN>>
        ensures fact { MatchOption result (slice_get (row_at self.now.rows index) place ≡ None) (λ fact. slice_get (row_at self.now.rows index) place ≡ Some fact.now) }
        ensures index { IfSome result (λ fact. fact.now.index ≡ index) }
        ensures whole { IfSome result (λ fact. length fact.now.start.words ≡ word_count_of PAGES) }
    {
        let fact = &record_at(&self.rows, index, place)?.fact;
        // Its start is read, so that the number of words is known here.
        let _start = fact.start();
        Some(fact)
    }

    /// Whether a record is kept of the span of a number with this start and these events. If a set of differing pages is given, the
    /// starts of all records of the number have the words of this one outside them.
    pub fn applies(
        &self,
        index: u64,
        start: &Boundary<PAGES>,
        events: &[Event],
        differing: Option<&PageMarks<PAGES>>,
    ) -> bool
        requires { IfSome differing (λ pages. (s : Span) → Contains (row_at self.now.rows index) s → SameOutside pages.now s.start.words start.now.words) }
        ensures { IsTrue result ↔ Contains (row_at self.now.rows index) (record { index = index; start = start.now; events = events.now }) }
    {
        for place in 0..self.count(index) {
            match self.fact(index, place) {
                Some(fact) if is_span(fact, start, events, differing) => return true,
                _ => {}
            }
        }
        false
    }

    /// Whether a record is kept of the span of a number with these events. Its start may differ from this one only in words of
    /// pages that the span does not touch. Outside the differing pages all records of the number start with the same words as this.
    pub fn nearly(
        &self,
        index: u64,
        start: &Boundary<PAGES>,
        events: &[Event],
        differing: &PageMarks<PAGES>,
    ) -> bool
        requires { (s : Span) → Contains (row_at self.now.rows index) s → SameOutside differing.now s.start.words start.now.words }
        ensures { IsTrue result ↔ ¬ AreFar PAGES SPAN (row_at self.now.rows index) start.now events.now }
    {
        self.near_place(index, start, events, Some(differing))
            .is_some()
    }

    /// The place of a record that nearly applies, if there is one. Where the record before it is known to end like this but for some
    /// pages, these are handed in, and the record that follows it is looked at first.
    pub fn serving(
        &self,
        index: u64,
        start: &Boundary<PAGES>,
        events: &[Event],
        differing: Option<&PageMarks<PAGES>>,
    ) -> Option<usize>
        requires { IfSome differing (λ pages. 0 < index × IfSome (first_at self.now.rows (index - 1)) (λ s.
            ((end_of PAGES SPAN s).core ≡ start.now.core) × SameOutside pages.now (end_of PAGES SPAN s).words start.now.words)) }
        ensures { MatchOption result (AreFar PAGES SPAN (row_at self.now.rows index) start.now events.now)
            (λ place. IsNear PAGES SPAN (slice_get (row_at self.now.rows index) place) start.now events.now) }
    {
        if let Some(pages) = differing {
            if let Some(place) = self.following(index, start, events, pages) {
                return Some(place);
            }
        }
        self.near_place(index, start, events, None)
    }

    /// Where the record stands in the next row that is known to start where the first one of this row ends.
    pub fn next(&self, index: u64) -> Option<usize>
        requires { index < 2 ^ 64 - 1 }
        ensures { IfSome result (λ place. Follows PAGES SPAN (first_at self.now.rows index) (slice_get (row_at self.now.rows (index + 1)) place)) }
    {
        let name = record_at(&self.rows, index, 0)?.next?;
        place_in(&self.rows, index + 1, name)
    }

    /// Notes that the first record of the next number starts where the first one of this number ends. Nothing that is seen changes.
    pub fn link(&mut self, index: u64)
        requires room { index < 2 ^ 63 }
        requires follows { Follows PAGES SPAN (first_at self.old.rows index) (first_at self.old.rows (index + 1)) }
        ensures { self.new ≡ self.old }
    {
        let Some(name) = own_name(&self.rows, index as usize + 1) else {
            return;
        };
        if name < self.names {
            self.rows[index as usize].note_next(name);
        }
    }

    /// The record at a place of a number was used: it comes first, and the others follow in their order.
    pub fn promote(&mut self, index: u64, place: usize)
        requires { place < length (row_at self.old.rows index) }
        ensures row { row_at self.new.rows index ≡ promoted place (row_at self.old.rows index) }
        ensures others { (i : ℕ) → ¬ (i ≡ index) → row_at self.new.rows i ≡ row_at self.old.rows i }
        ensures valid { self.new.valid ≡ self.old.valid }
        ensures most { self.new.most ≡ self.old.most }
        ensures reserved { self.new.reserved ≡ self.old.reserved }
        ensures ends { self.new.ends ≡ self.old.ends }
    {
        self.rows[index as usize].promote(place);
    }

    /// Makes room for one more record of a number, so that it can be put without memory. All records stay.
    pub fn reserve(&mut self, index: u64) -> Result<(), AllocError>
        ensures reserved { IfOk result (λ _. self.new.reserved ≡ Some index) }
        ensures rows { (i : ℕ) → row_at self.new.rows i ≡ row_at self.old.rows i }
        ensures valid { self.new.valid ≡ self.old.valid }
        ensures most { self.new.most ≡ self.old.most }
        ensures ends { self.new.ends ≡ self.old.ends }
        ensures free { self.old.reserved ≡ Some index → IsOk result }
    {
        if self.reserved == Some(index) {
            return Ok(());
        }
        self.reserved = None;
        make_room(self.alloc, &mut self.rows, index as usize, self.most)?;
        self.reserved = Some(index);
        Ok(())
    }

    /// Keeps a record as the one of its number that was used last. Where there are as many as there may be, the one that was used
    /// least recently is dropped. Where memory is refused this record is dropped, and all is as it was.
    pub fn put(&mut self, fact: Fact<PAGES, SPAN>) -> Result<(), AllocError>
        ensures there { IfOk result (λ _. row_at self.new.rows fact.entry.index ≡ fact.entry ∷ take (self.old.most - 1) (row_at self.old.rows fact.entry.index)) }
        ensures others { IfOk result (λ _. (i : ℕ) → ¬ (i ≡ fact.entry.index) → row_at self.new.rows i ≡ row_at self.old.rows i) }
        ensures same { OnErr result ((i : ℕ) → row_at self.new.rows i ≡ row_at self.old.rows i) }
        ensures valid { self.new.valid ≡ self.old.valid }
        ensures most { self.new.most ≡ self.old.most }
        ensures ends { self.new.ends ≡ self.old.ends }
        ensures free { self.old.reserved ≡ Some fact.entry.index → IsOk result }
    {
        let index = fact.index();
        self.reserve(index)?;
        let record = Record {
            fact,
            name: self.names,
            next: None,
        };
        self.rows[index as usize].put(record, self.most);
        self.names = self.names.saturating_add(1);
        self.reserved = None;
        Ok(())
    }

    /// How many numbers, from 0 on, have a first record that is of the present run.
    pub fn valid(&self) -> u64
        ensures { result ≡ self.now.valid }
    {
        self.valid
    }

    /// The first record of the next number is of the present run too.
    pub fn join(&mut self)
        requires kept { IsSome (first_at self.old.rows self.old.valid) }
        requires room { self.old.valid < 2 ^ 64 - 1 }
        ensures { self.new ≡ record self.old { valid = self.old.valid + 1 } }
    {
        self.valid += 1;
    }

    /// From this number on, records may be of another run. They stay.
    pub fn truncate_valid(&mut self, index: u64)
        ensures { self.new ≡ record self.old { valid = min self.old.valid index } }
    {
        self.valid = self.valid.min(index);
    }

    /// Where the span of a number ends, or ended in an earlier run, if that is noted.
    pub fn end(&self, index: u64) -> Option<&Rc<Boundary<PAGES>>>
        ensures { MatchOption result (slice_get self.now.ends index ≡ None) (λ end. slice_get self.now.ends index ≡ Some end.now.value) }
    {
        if index >= self.ended {
            return None;
        }
        self.rows[index as usize].end()
    }

    /// Of how many numbers, from 0 on, it is noted where a span ends.
    pub fn end_count(&self) -> u64
        ensures { result ≡ length self.now.ends }
    {
        self.ended
    }

    /// Notes that the span of a number ends there. It is the first number without an end, or one before it. It takes no memory.
    pub fn set_end(&mut self, index: u64, end: Rc<Boundary<PAGES>>)
        requires there { IsSome (first_at self.old.rows index) }
        requires next { index ≤ length self.old.ends }
        ensures { self.new ≡ record self.old { ends = take index self.old.ends ++ end.entry.value ∷ drop (suc index) self.old.ends } }
    {
        self.rows[index as usize].set_end(end);
        self.ended = self.ended.max(index + 1);
    }

    /// No number has an end any more. Each row drops its own once another is set.
    #[tactic(auto, unfolding(crate::specs::Rows::ends_of))]
    pub fn forget_ends(&mut self)
        ensures { self.new ≡ record self.old { ends = [] } }
    {
        self.ended = 0;
    }

    // The place of the record that is known to start where the one before it ends, if it nearly applies. The cores are not compared:
    // they are known to be the same.
    fn following(
        &self,
        index: u64,
        start: &Boundary<PAGES>,
        events: &[Event],
        differing: &PageMarks<PAGES>,
    ) -> Option<usize>
        requires later { 0 < index }
        requires ends { IfSome (first_at self.now.rows (index - 1)) (λ s.
            ((end_of PAGES SPAN s).core ≡ start.now.core) × SameOutside differing.now (end_of PAGES SPAN s).words start.now.words) }
        ensures { IfSome result (λ place. IsNear PAGES SPAN (slice_get (row_at self.now.rows index) place) start.now events.now) }
    {
        let place = self.next(index - 1)?;
        let fact = self.fact(index, place)?;
        if !is_near_from_core(fact, start, events, differing) {
            return None;
        }
        Some(place)
    }

    // The place of the first record of a number that nearly applies.
    fn near_place(
        &self,
        index: u64,
        start: &Boundary<PAGES>,
        events: &[Event],
        differing: Option<&PageMarks<PAGES>>,
    ) -> Option<usize>
        requires { IfSome differing (λ pages. (s : Span) → Contains (row_at self.now.rows index) s → SameOutside pages.now s.start.words start.now.words) }
        ensures { MatchOption result (AreFar PAGES SPAN (row_at self.now.rows index) start.now events.now)
            (λ place. IsNear PAGES SPAN (slice_get (row_at self.now.rows index) place) start.now events.now) }
    {
        for place in 0..self.count(index) {
            match self.fact(index, place) {
                Some(fact) if is_near(fact, start, events, differing) => return Some(place),
                _ => {}
            }
        }
        None
    }
}

// The record at a place of a number.
fn record_at<const PAGES: u32, const SPAN: u32>(
    rows: &[Row<PAGES, SPAN>],
    index: u64,
    place: usize,
) -> Option<&Record<PAGES, SPAN>>
    ensures { MatchOption result (slice_get (row_at (records_of rows.now) index) place ≡ None) (λ r. slice_get (row_at (records_of rows.now) index) place ≡ Some r.now) }
{
    rows.get(index as usize)?.get(place)
}

// Where the record of a name stands in the row of a number.
fn place_in<const PAGES: u32, const SPAN: u32>(
    rows: &[Row<PAGES, SPAN>],
    index: u64,
    name: u64,
) -> Option<usize>
    ensures { IfSome result (λ place. IsSomeAnd (slice_get (row_at (records_of rows.now) index) place) (λ r. r.name ≡ name)) }
{
    rows.get(index as usize)?.place_of(name)
}

// The name of the first record of a number, if no other one of the number has it.
fn own_name<const PAGES: u32, const SPAN: u32>(
    rows: &[Row<PAGES, SPAN>],
    index: usize,
) -> Option<u64>
    ensures { IfSome result (λ name. IsOwnName (row_at (records_of rows.now) index) name) }
{
    rows.get(index)?.own_name()
}

// Makes room for one more record of a number, of which there may be so many.
fn make_room<const PAGES: u32, const SPAN: u32>(
    alloc: Global,
    rows: &mut Vec<Row<PAGES, SPAN>>,
    index: usize,
    most: usize,
) -> Result<(), AllocError>
    ensures rows { (i : ℕ) → row_at (records_of rows.new.items) i ≡ row_at (records_of rows.old.items) i }
    ensures room { IfOk result (λ _. IsRoom rows.new.items most index) }
    ensures ends { (n : ℕ) → ends_of n (ends_in rows.new.items) ≡ ends_of n (ends_in rows.old.items) }
{
    while rows.len() <= index {
        rows.push(Row::new(alloc))?;
    }
    rows[index].make_room(most)
}

// Whether a record is that of a span with this start and these events.
fn is_span<const PAGES: u32, const SPAN: u32>(
    fact: &Fact<PAGES, SPAN>,
    start: &Boundary<PAGES>,
    events: &[Event],
    differing: Option<&PageMarks<PAGES>>,
) -> bool
    requires { IfSome differing (λ pages. SameOutside pages.now fact.now.start.words start.now.words) }
    ensures { IsTrue result ↔ (fact.now ≡ record { index = fact.now.index; start = start.now; events = events.now }) }
{
    if !has_events_and_core(fact, start, events) {
        return false;
    }
    same_words(fact.start().memory(), start.memory(), differing)
}

// Whether a record is that of a span with these events, from a state with this core.
fn has_events_and_core<const PAGES: u32, const SPAN: u32>(
    fact: &Fact<PAGES, SPAN>,
    start: &Boundary<PAGES>,
    events: &[Event],
) -> bool
    ensures { IsTrue result ↔ ((fact.now.events ≡ events.now) × (fact.now.start.core ≡ start.now.core)) }
{
    if !same_events(fact.events(), events) {
        return false;
    }
    let kept = fact.start();
    kept.core() == start.core()
}

// Whether a record is that of a span with these events. Its start may differ from this one only in words of pages that the span
// does not touch.
fn is_near<const PAGES: u32, const SPAN: u32>(
    fact: &Fact<PAGES, SPAN>,
    start: &Boundary<PAGES>,
    events: &[Event],
    differing: Option<&PageMarks<PAGES>>,
) -> bool
    requires { IfSome differing (λ pages. SameOutside pages.now fact.now.start.words start.now.words) }
    ensures { IsTrue result ↔ NearlyApplies PAGES SPAN fact.now start.now events.now }
{
    if !has_events_and_core(fact, start, events) {
        return false;
    }
    same_touched(fact, start, differing)
}

// The same where the cores are known to be equal.
fn is_near_from_core<const PAGES: u32, const SPAN: u32>(
    fact: &Fact<PAGES, SPAN>,
    start: &Boundary<PAGES>,
    events: &[Event],
    differing: &PageMarks<PAGES>,
) -> bool
    requires core { fact.now.start.core ≡ start.now.core }
    requires same { SameOutside differing.now fact.now.start.words start.now.words }
    ensures { IsTrue result ↔ NearlyApplies PAGES SPAN fact.now start.now events.now }
{
    if !same_events(events, fact.events()) {
        return false;
    }
    same_touched(fact, start, Some(differing))
}

// Whether the start of a record has the words of this one on the pages that its span touches.
fn same_touched<const PAGES: u32, const SPAN: u32>(
    fact: &Fact<PAGES, SPAN>,
    start: &Boundary<PAGES>,
    differing: Option<&PageMarks<PAGES>>,
) -> bool
    requires { IfSome differing (λ pages. SameOutside pages.now fact.now.start.words start.now.words) }
    ensures { IsTrue result ↔ SameOn (touched_pages PAGES (steps_of PAGES SPAN fact.now)) fact.now.start.words start.now.words }
{
    same_on(
        fact.start().memory(),
        start.memory(),
        fact.touched(),
        differing,
    )
}

// Whether two memories have the same words on the pages of a set, which may be known to be the same outside some pages.
fn same_on<const PAGES: u32>(
    a: &Snapshot<PAGES>,
    b: &Snapshot<PAGES>,
    set: &[u32],
    differing: Option<&PageMarks<PAGES>>,
) -> bool
    requires pages { All (λ page. page < page_count_of PAGES) set.now }
    requires same { IfSome differing (λ pages. SameOutside pages.now a.now b.now) }
    ensures { IsTrue result ↔ SameOn set.now a.now b.now }
{
    for page in set {
        if !same_page(a, b, *page, differing) {
            return false;
        }
    }
    true
}

// Whether a page has the same words in two memories, which may be known to be the same outside some pages.
fn same_page<const PAGES: u32>(
    a: &Snapshot<PAGES>,
    b: &Snapshot<PAGES>,
    page: u32,
    differing: Option<&PageMarks<PAGES>>,
) -> bool
    requires page { page < page_count_of PAGES }
    requires same { IfSome differing (λ pages. SameOutside pages.now a.now b.now) }
    ensures { IsTrue result ↔ SamePage page a.now b.now }
{
    match differing {
        Some(pages) if !pages.holds(page) => true,
        _ => a.same_page(page, b),
    }
}

// Whether two memories have the same words. They may be known to be the same outside a set of pages.
fn same_words<const PAGES: u32>(
    a: &Snapshot<PAGES>,
    b: &Snapshot<PAGES>,
    differing: Option<&PageMarks<PAGES>>,
) -> bool
    requires { IfSome differing (λ pages. SameOutside pages.now a.now b.now) }
    ensures { IsTrue result ↔ (a.now ≡ b.now) }
{
    match differing {
        Some(pages) => a.same_words(b, pages),
        None => a.equals(b),
    }
}
