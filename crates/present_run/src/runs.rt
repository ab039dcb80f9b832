//! What is kept of runs: the machine, and the records of spans. A span for which no record serves is run.

ghost use Rattle.std.specs.Prelude.{◌≡◌, ◌+◌, ◌*◌, ◌^◌, ◌<◌, ◌≤◌, ℕ, [], IfOk, slice_get};
ghost use Rattle.r3k_machine.specs.Run.{state_at};
ghost use Rattle.r3k_live.specs.Living.{counted};
ghost use Rattle.checkpoints.specs.Kept.{row_at};
ghost use Rattle.present_run.specs.Index.{max_spans};
ghost use Rattle.present_run.specs.Reuse.{IsServing, Reaches, Serves, Spends, Turns};
ghost use Rattle.present_run.specs.Runs.{BelongTo, held};
ghost use Rattle.present_run.specs.Sizes.{AreSizes};

use crate::frontier::Frontier;
use crate::index::SpanIndex;
use crate::inputs::Inputs;
use crate::machine::Machine;
use crate::records::SpanRecords;
use checkpoints::Kept;
use r3k_live::{Boundary, Live, Recorder};
use std::alloc::{AllocError, Global};
use std::rc::Rc;

/// The machine that runs, and the records of spans, of this run and of earlier ones.
#[derive(Drop)]
pub(crate) struct Runs<const PAGES: u32, const SPAN: u32> {
    pub(crate) machine: Machine<PAGES, SPAN>,
    pub(crate) records: SpanRecords<PAGES, SPAN>,
}

impl<const PAGES: u32, const SPAN: u32> Runs<PAGES, SPAN> {
    /// The run at reset. Records of each span are to be kept of at most so many pasts.
    pub(crate) fn boot(
        alloc: Global,
        inputs: &Inputs,
        pasts: usize,
    ) -> Result<Runs<PAGES, SPAN>, AllocError>
        requires sizes { AreSizes PAGES SPAN }
        requires pasts { 0 < pasts }
        ensures of { IfOk result (BelongTo {pages = PAGES} {span = SPAN} inputs.now.image inputs.now.log) }
        ensures rows { IfOk result (λ runs. runs.records.kept.rows ≡ []) }
        ensures pasts { IfOk result (λ runs. runs.records.kept.most ≡ pasts) }
        ensures steps { IfOk result (λ runs. runs.machine.live.steps ≡ 0) }
    {
        let mut live = Live::new(alloc, &inputs.image)?;
        let reset = live.keep(alloc)?;
        let machine = Machine {
            live,
            recorder: Recorder::new(alloc)?,
            at: Some(0),
            recorded: None,
        };
        let records = SpanRecords {
            kept: Kept::new(alloc, pasts),
            reports: SpanIndex::new(alloc),
            reset,
            rejoin_from: 0,
            frontier: Frontier::new(alloc)?,
        };
        Ok(Runs { machine, records })
    }

    // Joins one more span, and then those that go on from its end. A span for which no record serves is run.
    fn extend(&mut self, alloc: Global, inputs: &Inputs) -> Result<(), AllocError>
        requires of { BelongTo {pages = PAGES} {span = SPAN} inputs.now.image inputs.now.log self.old }
        requires time { (self.old.records.kept.valid + 1) * SPAN < 2 ^ 64 }
        requires few { self.old.records.kept.valid < max_spans }
        ensures of { BelongTo {pages = PAGES} {span = SPAN} inputs.now.image inputs.now.log self.new }
        ensures pasts { self.new.records.kept.most ≡ self.old.records.kept.most }
        ensures grows { self.old.records.kept.valid ≤ self.new.records.kept.valid }
        ensures joined { IfOk result (λ _. self.old.records.kept.valid < self.new.records.kept.valid) }
        ensures others { (i : ℕ) → ¬ (i ≡ self.old.records.kept.valid) → row_at self.new.records.kept.rows i ≡ row_at self.old.records.kept.rows i }
        ensures turns { Turns PAGES SPAN (held inputs.now.image inputs.now.log self.old) self.old.records.kept.valid (row_at self.new.records.kept.rows self.old.records.kept.valid) }
        ensures free { Serves PAGES SPAN (held inputs.now.image inputs.now.log self.old) self.old.records.kept.valid →
            self.new.machine.live.steps ≡ self.old.machine.live.steps }
        ensures count { IfOk result (λ _. ¬ Serves PAGES SPAN (held inputs.now.image inputs.now.log self.old) self.old.records.kept.valid →
            self.new.machine.live.steps ≡ counted self.old.machine.live.steps SPAN) }
        ensures least { self.old.machine.live.steps ≤ self.new.machine.live.steps }
        ensures most { self.new.machine.live.steps ≤ self.old.machine.live.steps + SPAN }
    {
        let index = self.records.kept.valid();
        let start = self.records.start_of(inputs, index).clone()?;
        match self.records.serving(inputs, &start) {
            Some(place) => self.join_kept(alloc, inputs, &start, place),
            None => self.run_span(alloc, inputs, start),
        }
    }

    // Joins a record of the next span that serves, and then those that go on from its end.
    fn join_kept(
        &mut self,
        alloc: Global,
        inputs: &Inputs,
        start: &Boundary<PAGES>,
        place: usize,
    ) -> Result<(), AllocError>
        requires of { BelongTo {pages = PAGES} {span = SPAN} inputs.now.image inputs.now.log self.old }
        requires start { start.now ≡ state_at PAGES inputs.now.image inputs.now.log (self.old.records.kept.valid * SPAN) }
        requires serves { IsServing PAGES SPAN (record { image = inputs.now.image; log = inputs.now.log }) self.old.records.kept.valid (slice_get (row_at self.old.records.kept.rows self.old.records.kept.valid) place) }
        requires few { self.old.records.kept.valid < max_spans }
        ensures of { BelongTo {pages = PAGES} {span = SPAN} inputs.now.image inputs.now.log self.new }
        ensures pasts { self.new.records.kept.most ≡ self.old.records.kept.most }
        ensures grows { self.old.records.kept.valid ≤ self.new.records.kept.valid }
        ensures joined { IfOk result (λ _. self.old.records.kept.valid < self.new.records.kept.valid) }
        ensures others { (i : ℕ) → ¬ (i ≡ self.old.records.kept.valid) → row_at self.new.records.kept.rows i ≡ row_at self.old.records.kept.rows i }
        ensures turns { Turns PAGES SPAN (held inputs.now.image inputs.now.log self.old) self.old.records.kept.valid (row_at self.new.records.kept.rows self.old.records.kept.valid) }
        ensures steps { self.new.machine.live.steps ≡ self.old.machine.live.steps }
    {
        self.records.promote(inputs, place)?;
        self.records.join_first(alloc, inputs, start)
    }

    // Runs the next span, keeps its record and joins it, and then those that go on from its end.
    fn run_span(
        &mut self,
        alloc: Global,
        inputs: &Inputs,
        start: Rc<Boundary<PAGES>>,
    ) -> Result<(), AllocError>
        requires of { BelongTo {pages = PAGES} {span = SPAN} inputs.now.image inputs.now.log self.old }
        requires start { start.value ≡ state_at PAGES inputs.now.image inputs.now.log (self.old.records.kept.valid * SPAN) }
        requires lacks { ¬ Serves PAGES SPAN (held inputs.now.image inputs.now.log self.old) self.old.records.kept.valid }
        requires time { (self.old.records.kept.valid + 1) * SPAN < 2 ^ 64 }
        requires few { self.old.records.kept.valid < max_spans }
        ensures of { BelongTo {pages = PAGES} {span = SPAN} inputs.now.image inputs.now.log self.new }
        ensures pasts { self.new.records.kept.most ≡ self.old.records.kept.most }
        ensures grows { self.old.records.kept.valid ≤ self.new.records.kept.valid }
        ensures joined { IfOk result (λ _. self.old.records.kept.valid < self.new.records.kept.valid) }
        ensures others { (i : ℕ) → ¬ (i ≡ self.old.records.kept.valid) → row_at self.new.records.kept.rows i ≡ row_at self.old.records.kept.rows i }
        ensures turns { Turns PAGES SPAN (held inputs.now.image inputs.now.log self.old) self.old.records.kept.valid (row_at self.new.records.kept.rows self.old.records.kept.valid) }
        ensures count { IfOk result (λ _. self.new.machine.live.steps ≡ counted self.old.machine.live.steps SPAN) }
        ensures least { self.old.machine.live.steps ≤ self.new.machine.live.steps }
        ensures most { self.new.machine.live.steps ≤ self.old.machine.live.steps + SPAN }
    {
        let fact = self
            .machine
            .run_span(alloc, inputs, start, self.records.kept.valid())?;
        let end = fact.end().clone()?;
        self.records.keep(inputs, fact)?;
        self.records.join(inputs, end);
        Ok(())
    }

    /// Joins all spans before one.
    pub(crate) fn join_before(
        &mut self,
        alloc: Global,
        inputs: &Inputs,
        index: u64,
    ) -> Result<(), AllocError>
        requires of { BelongTo {pages = PAGES} {span = SPAN} inputs.now.image inputs.now.log self.old }
        requires time { (index + 1) * SPAN < 2 ^ 64 }
        requires few { index ≤ max_spans }
        ensures of { BelongTo {pages = PAGES} {span = SPAN} inputs.now.image inputs.now.log self.new }
        ensures grows { self.old.records.kept.valid ≤ self.new.records.kept.valid }
        ensures joined { IfOk result (λ _. index ≤ self.new.records.kept.valid) }
        ensures spends { Spends PAGES SPAN index 0 (held inputs.now.image inputs.now.log self.old) (held inputs.now.image inputs.now.log self.new) }
        ensures reaches { IfOk result (λ _. Reaches PAGES SPAN index (held inputs.now.image inputs.now.log self.old) (held inputs.now.image inputs.now.log self.new)) }
    {
        while self.records.kept.valid() < index {
            self.extend(alloc, inputs)?;
        }
        Ok(())
    }
}
