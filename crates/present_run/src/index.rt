//! The index of the records that are kept.

ghost use Rattle.std.specs.Prelude.{◌≡◌, ◌≢◌, ◌^◌, ◌<◌, ◌≤◌, ℕ, All, IfOk, List, None, OnErr, Option, Some, [], length, slice_index, slice_index_or};
ghost use Rattle.std.specs.List.Sorted.{IsStrictlyIncreasing};
ghost use Rattle.r3k_machine.specs.Run.{last_writer};
ghost use Rattle.span_fact.specs.Span.{Span};
ghost use Rattle.write_index.specs.Pages.{pages_at};
ghost use Rattle.console_index.specs.Counts.{count_at};
ghost use Rattle.present_run.specs.Sent.{bytes_on};
ghost use Rattle.present_run.specs.Index.{Agrees, Has, IsLastWriter, IsSender, max_spans, sent_below, steps_at};

use checkpoints::Kept;
use console_index::ConsoleIndex;
use dz_serial::SerialLine;
use r3k_live::{SentAt, mark};
use r3k_machine::Target;
use span_fact::Fact;
use std::alloc::{AllocError, Global};
use std::marker::Model;
use write_index::{Asked, WriteIndex};

/// The marks of what each kept record of a span wrote, and how many bytes of each line it sent.
#[derive(Drop)]
pub(crate) struct SpanIndex {
    writes: WriteIndex,
    consoles: ConsoleIndex,
}

impl Model for SpanIndex {
    ghost use Rattle.present_run.specs.Index.{Index};

    ghost Value = { Index };

    ghost view = { λ index. record { writes = index.writes; consoles = index.consoles } };
}

impl SpanIndex {
    /// The index of no records. It takes no memory.
    pub(crate) fn new(alloc: Global) -> SpanIndex
        ensures empty { result ≡ record { writes = []; consoles = [] } }
        ensures agrees { (pages span : ℕ) → Agrees pages span result [] }
    {
        SpanIndex {
            writes: WriteIndex::new(alloc),
            consoles: ConsoleIndex::new(alloc),
        }
    }

    /// Takes in the record of a span, in place of the one of its number. Where memory is refused, nothing changes.
    pub(crate) fn take_in<const PAGES: u32, const SPAN: u32>(
        &mut self,
        fact: &Fact<PAGES, SPAN>,
    ) -> Result<(), AllocError>
        requires number { fact.now.index < max_spans }
        requires span { SPAN ≤ 1048576 }
        ensures there { IfOk result (λ _. Has PAGES SPAN self.new fact.now.index (Some fact.now)) }
        ensures others { IfOk result (λ _. (i : ℕ) (s : Option Span) → i ≢ fact.now.index → Has PAGES SPAN self.old i s → Has PAGES SPAN self.new i s) }
        ensures same { OnErr result ((i : ℕ) (s : Option Span) → Has PAGES SPAN self.old i s → Has PAGES SPAN self.new i s) }
    {
        self.replace(fact.index(), fact.marks(), counts_of(fact.sent()))
    }

    // Puts the marks and the counts of a number into both trees. Room is reserved first, so where memory is refused, both have what
    // they had.
    fn replace(&mut self, index: u64, marks: &[u32], counts: [u32; 4]) -> Result<(), AllocError>
        requires index { index < max_spans }
        requires marks { IsStrictlyIncreasing marks.now }
        requires counts { All (λ count. count ≤ 1048576) counts }
        ensures marks { IfOk result (λ _. pages_at self.new.writes index ≡ marks.now) }
        ensures counts { IfOk result (λ _. slice_index_or self.new.consoles index [] ≡ counts) }
        ensures other_marks { (i : ℕ) → i ≢ index → pages_at self.new.writes i ≡ pages_at self.old.writes i }
        ensures other_counts { (i : ℕ) → i ≢ index → (line : ℕ) → count_at self.new.consoles line i ≡ count_at self.old.consoles line i }
        ensures same_marks { OnErr result (self.new.writes ≡ self.old.writes) }
        ensures same_counts { OnErr result ((i line : ℕ) → count_at self.new.consoles line i ≡ count_at self.old.consoles line i) }
    {
        self.consoles.reserve(index)?;
        self.writes.replace(index, marks)?;
        self.consoles.replace(index, counts)?;
        Ok(())
    }

    /// The last of the first `count` records of which a step wrote a word or a register, and its last step that did, counted from
    /// its start.
    pub(crate) fn last_writer<const PAGES: u32, const SPAN: u32>(
        &self,
        kept: &Kept<PAGES, SPAN>,
        count: u64,
        target: Target,
    ) -> Option<(u64, u32)>
        requires { Agrees PAGES SPAN self.now kept.now.rows }
        ensures { IsLastWriter PAGES SPAN kept.now.rows count target result }
    {
        let mark = mark(target);
        let mut asked = Asked { nodes: 0 };
        let mut before = count;
        while let Some(index) = self.writes.last_span(mark, before, &mut asked) {
            if let Some(step) = writer_in(kept, index, target) {
                return Some((index, step));
            }
            before = index;
        }
        None
    }

    /// Sums up what the first `count` records sent, so that `count` and `find` need not.
    pub(crate) fn sum_up_to(&mut self, count: u64)
        ensures { self.new ≡ self.old }
    {
        self.consoles.sum_up_to(count);
    }

    /// How many bytes of a line the first `count` records sent.
    pub(crate) fn count(&self, line: SerialLine, count: u64) -> u64
        ensures { (pages span : ℕ) (rows : List (List Span)) → Agrees pages span self.now rows →
            result ≡ sent_below pages span rows line count }
    {
        self.consoles.count(line, count)
    }

    /// Which of the first `count` records sent the byte at a place of a line's console, or `count` where they sent fewer.
    pub(crate) fn find(&self, line: SerialLine, place: u64, count: u64) -> u64
        ensures { (pages span : ℕ) (rows : List (List Span)) → Agrees pages span self.now rows →
            IsSender pages span rows line place count result }
    {
        if self.count(line, count) <= place {
            return count;
        }
        match self.consoles.find(line, place) {
            Some((index, _)) => index,
            None => count,
        }
    }
}

// The last step of a record that wrote a word or a register, counted from its start.
fn writer_in<const PAGES: u32, const SPAN: u32>(
    kept: &Kept<PAGES, SPAN>,
    index: u64,
    target: Target,
) -> Option<u32>
    ensures { result ≡ last_writer target (steps_at PAGES SPAN kept.now.rows index) }
{
    kept.first(index)?.writer(target)
}

// How many of the bytes that were sent are those of each line.
fn counts_of(sent: &[SentAt]) -> [u32; 4]
    requires { length sent.now < 2 ^ 32 }
    ensures each { (line : ℕ) → line ≤ 3 → slice_index result line ≡ length (bytes_on line sent.now) }
    ensures few { All (λ count. count ≤ length sent.now) result }
{
    let mut counts = [0; 4];
    for one in sent {
        counts[one.line.index()] += 1;
    }
    counts
}
