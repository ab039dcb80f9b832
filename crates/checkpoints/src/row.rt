//! The records of a number.

ghost use Rattle.std.specs.Prelude.{◌≡◌, ◌∷◌, ◌-◌, ◌≤◌, ◌<◌, [], IfOk, IfSome, IsSomeAnd, MatchOption, None, Some, length, slice_get, take};
ghost use Rattle.checkpoints.specs.Kept.{promoted};
ghost use Rattle.checkpoints.specs.Rows.{IsOwnName, with_next};

use r3k_live::Boundary;
use span_fact::Fact;
use std::alloc::{AllocError, Global};
use std::marker::Model;
use std::rc::Rc;

/// A record of a span.
#[derive(Drop)]
pub(crate) struct Record<const PAGES: u32, const SPAN: u32> {
    pub(crate) fact: Fact<PAGES, SPAN>,
    // Its name in its row.
    pub(crate) name: u64,
    // The name of the record of the next number that is known to start where this one ends.
    pub(crate) next: Option<u64>,
}

impl<const PAGES: u32, const SPAN: u32> Model for Record<PAGES, SPAN> {
    ghost use Rattle.checkpoints.specs.Rows.{Linked};

    ghost Value = { Linked };

    ghost view = { λ r. record { span = r.fact; name = r.name; next = r.next } };
}

/// What is kept of one number: records, the one that was used last first, and where a span of it ends.
#[derive(Drop)]
pub(crate) struct Row<const PAGES: u32, const SPAN: u32> {
    records: Vec<Record<PAGES, SPAN>>,
    // Where the span of the present run ends, or ended in an earlier one.
    end: Option<Rc<Boundary<PAGES>>>,
}

impl<const PAGES: u32, const SPAN: u32> Model for Row<PAGES, SPAN> {
    ghost use Rattle.std.specs.Prelude.{vec_capacity};
    ghost use Rattle.std.specs.Option.{option_map};
    ghost use Rattle.checkpoints.specs.Rows.{Places};

    ghost Value = { Places };

    ghost view = { λ r. record { records = r.records.items; room = vec_capacity r.records; end = option_map (λ end. end.value) r.end } };
}

impl<const PAGES: u32, const SPAN: u32> Row<PAGES, SPAN> {
    /// No records, and no end. It takes no memory.
    pub(crate) fn new(alloc: Global) -> Row<PAGES, SPAN>
        ensures records { result.records ≡ [] }
        ensures end { result.end ≡ None }
    {
        Row {
            records: Vec::new(alloc),
            end: None,
        }
    }

    /// How many there are.
    pub(crate) fn len(&self) -> usize
        ensures { result ≡ length self.now.records }
    {
        self.records.len()
    }

    /// The record at a place.
    pub(crate) fn get(&self, place: usize) -> Option<&Record<PAGES, SPAN>>
        ensures { MatchOption result (slice_get self.now.records place ≡ None) (λ r. slice_get self.now.records place ≡ Some r.now) }
    {
        self.records.get(place)
    }

    /// Makes room for one more, unless there are as many as there may be.
    pub(crate) fn make_room(&mut self, most: usize) -> Result<(), AllocError>
        ensures records { self.new.records ≡ self.old.records }
        ensures room { IfOk result (λ _. ¬ (length self.new.records ≡ most) → length self.new.records < self.new.room) }
        ensures end { self.new.end ≡ self.old.end }
    {
        if self.records.len() == most {
            return Ok(());
        }
        self.records.reserve_exact(1)
    }

    /// Puts a record first. Where there are as many as there may be, the last one is dropped.
    pub(crate) fn put(&mut self, first: Record<PAGES, SPAN>, most: usize)
        requires some { 0 < most }
        requires few { length self.old.records ≤ most }
        requires room { ¬ (length self.old.records ≡ most) → length self.old.records < self.old.room }
        ensures records { self.new.records ≡ first.entry ∷ take (most - 1) self.old.records }
        ensures end { self.new.end ≡ self.old.end }
    {
        if self.records.len() == most {
            drop(self.records.pop());
        }
        let Ok(()) = self.records.insert(0, first) else {
            unreachable!();
        };
    }

    /// The record at a place comes first, and the others follow in their order.
    pub(crate) fn promote(&mut self, place: usize)
        requires { place < length self.old.records }
        ensures records { self.new.records ≡ promoted place self.old.records }
        ensures room { self.new.room ≡ self.old.room }
        ensures end { self.new.end ≡ self.old.end }
    {
        let used = self.records.remove(place);
        let Ok(()) = self.records.insert(0, used) else {
            unreachable!();
        };
    }

    /// Where the record of a name stands.
    pub(crate) fn place_of(&self, name: u64) -> Option<usize>
        ensures { IfSome result (λ place. IsSomeAnd (slice_get self.now.records place) (λ r. r.name ≡ name)) }
    {
        for place in 0..self.records.len() {
            if self.records[place].name == name {
                return Some(place);
            }
        }
        None
    }

    /// The name of the first record, if no other one has it.
    pub(crate) fn own_name(&self) -> Option<u64>
        ensures { IfSome result (λ name. IsOwnName self.now.records name) }
    {
        let name = self.records.first()?.name;
        for place in 1..self.records.len() {
            if self.records[place].name == name {
                return None;
            }
        }
        Some(name)
    }

    /// Notes the name of the record that starts where the first one ends.
    pub(crate) fn note_next(&mut self, name: u64)
        ensures records { self.new.records ≡ with_next name self.old.records }
        ensures room { self.new.room ≡ self.old.room }
        ensures end { self.new.end ≡ self.old.end }
    {
        if let Some(first) = self.records.first_mut() {
            first.next = Some(name);
        }
    }

    /// Where the span ends, if that was set.
    pub(crate) fn end(&self) -> Option<&Rc<Boundary<PAGES>>>
        ensures { MatchOption result (self.now.end ≡ None) (λ end. self.now.end ≡ Some end.now.value) }
    {
        self.end.as_ref()
    }

    /// The span ends there.
    pub(crate) fn set_end(&mut self, end: Rc<Boundary<PAGES>>)
        ensures records { self.new.records ≡ self.old.records }
        ensures room { self.new.room ≡ self.old.room }
        ensures end { self.new.end ≡ Some end.entry.value }
    {
        self.end = Some(end);
    }
}
