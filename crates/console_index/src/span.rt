//! Spans with running totals.

ghost use Rattle.std.specs.Prelude.{◌≡◌, ◌+◌, ◌<◌, ◌≤◌, ◌^◌, ℕ, length, slice_index, slice_set};
ghost use Rattle.console_index.specs.Counts.{total};
ghost use Rattle.console_index.specs.Totals.{HasTotals, IsIndex, counts_of};

use dz_serial::SerialLine;
use std::array;

/// What each line sent in a span, and, where it is summed up, in all spans up to and with this one.
#[derive(Clone, Copy)]
pub(crate) struct Span {
    pub(crate) counts: [u32; 4],
    pub(crate) totals: [u64; 4],
}

// What each line sent in the spans below one.
#[tactic(auto, using(crate::proofs::Spans::totals_at, crate::proofs::Spans::zeros), unfolding(crate::specs::Counts::total))]
fn totals_below(spans: &[Span], end: usize) -> [u64; 4]
    requires within { end ≤ length spans.now }
    requires totals { HasTotals end spans.now }
    ensures { (line : ℕ) → line ≤ 3 → slice_index result line ≡ total (counts_of spans.now) line end }
{
    if end == 0 {
        return [0; 4];
    }
    spans[end - 1].totals
}

/// How many spans lie whole before the byte at a place of a line's console.
pub(crate) fn whole_before(spans: &[Span], line: SerialLine, place: u64) -> usize
    requires { HasTotals (length spans.now) spans.now }
    ensures passed { result ≤ length spans.now }
    ensures before { total (counts_of spans.now) line result ≤ place }
    ensures within { result < length spans.now → place < total (counts_of spans.now) line (result + 1) }
{
    let line = line.index();
    spans.partition_point(|span| span.totals[line] <= place)
}

/// What a line sent in the spans below one, where the first `summed` ones have their totals.
#[tactic(auto, using(crate::proofs::Spans::counts_at, crate::proofs::Sums::total_next, crate::proofs::Sums::total_small))]
pub(crate) fn total_below(spans: &[Span], summed: usize, line: SerialLine, end: usize) -> u64
    requires within { end ≤ length spans.now }
    requires summed { summed ≤ end }
    requires spans { IsIndex summed spans.now }
    ensures { result ≡ total (counts_of spans.now) line end }
{
    let mut total = totals_below(spans, summed)[line.index()];
    for span in summed..end {
        total += u64::from(spans[span].counts[line.index()]);
    }
    total
}

/// Makes the totals of the spans from one up to another.
pub(crate) fn sum_up(spans: &mut [Span], from: usize, end: usize)
    requires within { end ≤ length spans.old }
    requires from { from ≤ end }
    requires spans { IsIndex from spans.old }
    ensures counts { counts_of spans.new ≡ counts_of spans.old }
    ensures spans { IsIndex end spans.new }
{
    for span in from..end {
        spans[span].totals = sums(totals_below(spans, span), spans[span].counts);
    }
}

// What each line sent in the spans below one and in that one.
fn sums(below: [u64; 4], counts: [u32; 4]) -> [u64; 4]
    requires { (line : ℕ) → line ≤ 3 → slice_index below line + slice_index counts line < 2 ^ 64 }
    ensures { (line : ℕ) → line ≤ 3 → slice_index result line ≡ slice_index below line + slice_index counts line }
{
    array::from_fn(|line| below[line] + u64::from(counts[line]))
}
