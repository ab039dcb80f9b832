//! The index: what each line sent in each span.

ghost use Rattle.std.specs.Prelude.{◌≡◌, ◌≢◌, ◌+◌, ◌<◌, ◌≤◌, ℕ, All, IfOk, IsOk, MatchOption, OnErr, OnOk, [], length, max, slice_index_or};
ghost use Rattle.console_index.specs.Counts.{IsPlace, count_at, total};
ghost use Rattle.console_index.specs.declared.index.TheConstants.{MAX_SPANS};

use crate::span::{Span, sum_up, total_below, whole_before};
use dz_serial::SerialLine;
use std::alloc::{AllocError, Global};
use std::marker::Model;

/// How many spans there may be: those of all positions up to 2^40 - 1, where a span has 64 steps.
pub const MAX_SPANS: u64 = 1 << 34;

/// How many bytes each of four lines sent in each span, seen as a list of these counts by span.
#[derive(Drop)]
pub struct ConsoleIndex {
    spans: Vec<Span>,
    // How many of the first spans have their totals.
    summed: usize,
}

impl Model for ConsoleIndex {
    ghost use Rattle.std.specs.Prelude.{List, ℕ};
    ghost use Rattle.console_index.specs.Totals.{IsIndex, counts_of};

    ghost Value = { List (List ℕ) };

    ghost view = { λ index. counts_of index.spans.items };

    ghost invariant = { λ index. IsIndex index.summed index.spans.items };
}

impl ConsoleIndex {
    /// No spans. It takes no memory.
    pub fn new(alloc: Global) -> ConsoleIndex
        ensures { result ≡ [] }
    {
        ConsoleIndex {
            spans: Vec::new(alloc),
            summed: 0,
        }
    }

    /// Puts the counts of a span. Where memory is refused, all is as it was. Where they are others than before, the totals of the span
    /// and of all after it are no longer there.
    pub fn replace(&mut self, index: u64, counts: [u32; 4]) -> Result<(), AllocError>
        requires index { index < MAX_SPANS }
        requires counts { All (λ count. count ≤ 1048576) counts }
        ensures there { IfOk result (λ _. slice_index_or self.new index [] ≡ counts) }
        ensures others { IfOk result (λ _. (i : ℕ) → i ≢ index → (line : ℕ) → count_at self.new line i ≡ count_at self.old line i) }
        ensures held { IfOk result (λ _. length self.new ≡ max (length self.old) (index + 1)) }
        ensures same { OnErr result (self.new ≡ self.old) }
        ensures free { index < length self.old → IsOk result }
    {
        let index = index as usize;
        self.extend_to(index)?;
        if self.spans[index].counts == counts {
            return Ok(());
        }
        self.summed = self.summed.min(index);
        self.spans[index].counts = counts;
        Ok(())
    }

    /// Makes room for the counts of a span, so that they can be put without memory. All spans keep their counts.
    pub fn reserve(&mut self, index: u64) -> Result<(), AllocError>
        requires { index < MAX_SPANS }
        ensures room { IfOk result (λ _. index < length self.new) }
        ensures counts { (i line : ℕ) → count_at self.new line i ≡ count_at self.old line i }
    {
        self.extend_to(index as usize)
    }

    /// Makes the totals of the spans below one that do not have them.
    pub fn sum_up_to(&mut self, before: u64)
        ensures { self.new ≡ self.old }
    {
        let end = self.spans.len().min(before as usize);
        if self.summed < end {
            sum_up(&mut self.spans, self.summed, end);
            self.summed = end;
        }
    }

    /// How many bytes of a line the spans below one have together. It looks at one span, and at each one below that has no total.
    pub fn count(&self, line: SerialLine, before: u64) -> u64
        ensures { result ≡ total self.now line before }
    {
        let end = self.spans.len().min(before as usize);
        total_below(&self.spans, self.summed.min(end), line, end)
    }

    /// The span of the byte at a place in the line's whole console, and its place in that span: a binary search among the spans that
    /// have totals, and then one by one.
    pub fn find(&self, line: SerialLine, place: u64) -> Option<(u64, u64)>
        ensures { MatchOption result (total self.now line (length self.now) ≤ place) (λ found. IsPlace self.now line place (found.0) (found.1)) }
    {
        let first = whole_before(&self.spans[..self.summed], line, place);
        let mut left = place - self.count(line, first as u64);
        for span in first..self.spans.len() {
            let count = u64::from(self.spans[span].counts[line.index()]);
            if left < count {
                return Some((span as u64, left));
            }
            left -= count;
        }
        None
    }

    // Adds spans with no bytes up to and with one, unless it is there.
    fn extend_to(&mut self, index: usize) -> Result<(), AllocError>
        requires { index < MAX_SPANS }
        ensures counts { (i line : ℕ) → count_at self.new line i ≡ count_at self.old line i }
        ensures held { OnOk result (length self.new ≡ max (length self.old) (index + 1)) }
        ensures same { OnErr result (self.new ≡ self.old) }
        ensures free { index < length self.old → IsOk result }
    {
        let held = self.spans.len();
        if index < held {
            return Ok(());
        }
        let empty = Span {
            counts: [0; 4],
            totals: [0; 4],
        };
        self.spans.resize(index + 1, empty)
    }
}
