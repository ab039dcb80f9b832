//! The index: which pages each span stored into.

ghost use Rattle.std.specs.Prelude.{◌≡◌, ◌≢◌, ◌+◌, ◌-◌, ◌*◌, ◌^◌, ◌<◌, ◌≤◌, ℕ, IfOk, IfSome, IsTrue, OnErr, [], length, max, min};
ghost use Rattle.std.specs.List.Sorted.{IsStrictlyIncreasing};
ghost use Rattle.write_index.specs.Pages.{HasDigits, IsLast, pages_at};
ghost use Rattle.write_index.specs.declared.tree.TheConstants.{MAX_SPANS};

use crate::level::Level;
use crate::page_set::PageSet;
use crate::search::{Asked, last_in};
use crate::tree::{deepen, update};
use std::alloc::{AllocError, Global};
use std::marker::Model;

/// Which pages each span stored into, seen as a list of these sets by span.
#[derive(Drop)]
pub struct WriteIndex {
    alloc: Global,
    levels: Vec<Level>,
    count: usize,
}

impl Model for WriteIndex {
    ghost use Rattle.std.specs.Prelude.{List, ℕ, take};
    ghost use Rattle.write_index.specs.Tree.{IsIndex, bottom};

    ghost Value = { List (List ℕ) };

    ghost view = { λ index. take index.count (bottom index.levels.items) };

    ghost invariant = { λ index. IsIndex index.count index.levels.items };
}

impl WriteIndex {
    /// No spans. It takes no memory.
    pub fn new(alloc: Global) -> WriteIndex
        ensures { result ≡ [] }
    {
        WriteIndex {
            alloc,
            levels: Vec::new(alloc),
            count: 0,
        }
    }

    /// Puts the pages of a span, an ascending set. Where memory is refused, all is as it was.
    pub fn replace(&mut self, index: u64, pages: &[u32]) -> Result<(), AllocError>
        requires index { index < MAX_SPANS }
        requires pages { IsStrictlyIncreasing pages.now }
        ensures there { IfOk result (λ _. pages_at self.new index ≡ pages.now) }
        ensures others { IfOk result (λ _. (i : ℕ) → i ≢ index → pages_at self.new i ≡ pages_at self.old i) }
        ensures held { IfOk result (λ _. length self.new ≡ max (length self.old) (index + 1)) }
        ensures same { OnErr result (self.new ≡ self.old) }
    {
        let index = index as usize;
        if self.has(index, pages) {
            return Ok(());
        }
        let set = PageSet::new(self.alloc, pages)?;
        let count = self.count.max(index + 1);
        deepen(self.alloc, &mut self.levels)?;
        update(self.alloc, &mut self.levels, self.count, index, set)?;
        self.count = count;
        Ok(())
    }

    // Whether a span is there and has just these pages.
    fn has(&self, index: usize, pages: &[u32]) -> bool
        ensures { IsTrue result → (index < length self.now) × (pages_at self.now index ≡ pages.now) }
    {
        if index >= self.count {
            return false;
        }
        match self.levels.first() {
            Some(level) => level.node(index).is(pages),
            None => false,
        }
    }

    /// The last span below one that stored into a page. It looks at the pages of at most two nodes for each binary digit of the
    /// number of spans, and of none where there is no span.
    pub fn last_span(&self, page: u32, before: u64, asked: &mut Asked) -> Option<u64>
        ensures last { IsLast self.now page before result }
        ensures asked { (digits : ℕ) → HasDigits (length self.now) digits → asked.new.nodes ≤ asked.old.nodes + 2 * digits }
        ensures counted { asked.old.nodes ≤ asked.new.nodes }
        // No span is found without a look.
        ensures found { IfSome result (λ _. min (asked.old.nodes + 1) (2 ^ 64 - 1) ≤ asked.new.nodes) }
    {
        let end = self.count.min(before as usize);
        let span = last_in(&self.levels, end, page, asked)?;
        Some(span as u64)
    }
}
