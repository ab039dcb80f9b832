//! The machine goes along the present run, over spans that are joined.

ghost use Rattle.std.specs.Prelude.{◌≡◌, ◌↔◌, ◌+◌, ◌-◌, ◌*◌, ◌/◌, ◌%◌, ◌^◌, ◌<◌, ◌≤◌, IfOk, IfSome, IsTrue, Some};
ghost use Rattle.r3k_machine.specs.Run.{next_visit, state_at};
ghost use Rattle.r3k_live.specs.Recording.{Records};
ghost use Rattle.r3k_live.specs.CodePages.{RunsIn};
ghost use Rattle.input_log.specs.Limits.{max_position};
ghost use Rattle.present_run.specs.Index.{max_spans};
ghost use Rattle.present_run.specs.Reuse.{Reaches, Spends};
ghost use Rattle.present_run.specs.Runs.{steps_between};
ghost use Rattle.present_run.specs.Shown.{Stays, holding_of};

use crate::present::Present;
use r3k_word::layout::PAGE_BYTES;
use std::alloc::AllocError;

impl<const PAGES: u32, const SPAN: u32> Present<PAGES, SPAN> {
    // Joins all spans before one.
    fn join_before(&mut self, index: u64) -> Result<(), AllocError>
        requires time { (index + 1) * SPAN < 2 ^ 64 }
        requires few { index ≤ max_spans }
        ensures stays { Stays self.old self.new }
        ensures joined { IfOk result (λ _. index ≤ self.new.runs.records.kept.valid) }
        ensures spends { Spends PAGES SPAN index 0 (holding_of self.old) (holding_of self.new) }
        ensures reaches { IfOk result (λ _. Reaches PAGES SPAN index (holding_of self.old) (holding_of self.new)) }
    {
        self.runs.join_before(self.alloc, &self.inputs, index)
    }

    /// The machine goes to a position.
    pub(crate) fn go_to(&mut self, position: u64) -> Result<(), AllocError>
        requires position { position ≤ max_position }
        ensures stays { Stays self.old self.new }
        ensures stands { IfOk result (λ _. self.new.runs.machine.at ≡ Some position) }
        ensures joined { IfOk result (λ _. position / SPAN ≤ self.new.runs.records.kept.valid) }
        ensures spends { Spends PAGES SPAN (position / SPAN) (position % SPAN)
            (holding_of self.old) (holding_of self.new) }
        ensures reaches { IfOk result (λ _. Reaches PAGES SPAN (position / SPAN)
            (holding_of self.old) (holding_of self.new)) }
    {
        let index = position / SPAN as u64;
        self.join_before(index)?;
        self.go_in_span(index, position)
    }

    // The machine goes to a position of a span. All spans before that are joined, unless the machine is there.
    fn go_in_span(&mut self, index: u64, position: u64) -> Result<(), AllocError>
        requires joined { ¬ (self.old.runs.machine.at ≡ Some position) → index ≤ self.old.runs.records.kept.valid }
        requires in_span { index * SPAN ≤ position }
        requires near { position ≤ index * SPAN + SPAN }
        requires time { position < 2 ^ 64 }
        ensures stays { Stays self.old self.new }
        ensures stands { IfOk result (λ _. self.new.runs.machine.at ≡ Some position) }
        ensures valid { self.new.runs.records.kept.valid ≡ self.old.runs.records.kept.valid }
        ensures rows { self.new.runs.records.kept.rows ≡ self.old.runs.records.kept.rows }
        ensures count { self.new.runs.machine.live.steps ≤ self.old.runs.machine.live.steps + (position - index * SPAN) }
        ensures least { self.old.runs.machine.live.steps ≤ self.new.runs.machine.live.steps }
    {
        if self.runs.machine.at == Some(position) {
            return Ok(());
        }
        let time = self.load_nearest(index, position)?;
        self.runs.machine.go_on(&self.inputs, time, position);
        Ok(())
    }

    // Brings the machine into a span, at a position or before it, and gives the time there: it stays where it is or loads a kept
    // state, whichever is nearer, or else the start of the span.
    fn load_nearest(&mut self, index: u64, position: u64) -> Result<u64, AllocError>
        requires joined { index ≤ self.old.runs.records.kept.valid }
        requires in_span { index * SPAN ≤ position }
        requires time { position < 2 ^ 64 }
        ensures stays { Stays self.old self.new }
        ensures stands { IfOk result (λ time. self.new.runs.machine.at ≡ Some time) }
        ensures in_span { IfOk result (λ time. index * SPAN ≤ time) }
        ensures before { IfOk result (λ time. time ≤ position) }
        ensures valid { self.new.runs.records.kept.valid ≡ self.old.runs.records.kept.valid }
        ensures rows { self.new.runs.records.kept.rows ≡ self.old.runs.records.kept.rows }
        ensures steps { self.new.runs.machine.live.steps ≡ self.old.runs.machine.live.steps }
    {
        let start = index * SPAN as u64;
        let near = self.recent_states.nearest(start, position);
        let from = match near {
            Some((time, _)) => time,
            None => start,
        };
        if let Some(time) = self.runs.machine.at {
            if from <= time && time <= position {
                return Ok(time);
            }
        }
        let Some((time, state)) = near else {
            let state = self.runs.records.start_of(&self.inputs, index);
            self.runs.machine.load_at(&self.inputs, state, start)?;
            return Ok(start);
        };
        self.runs.machine.load_at(&self.inputs, state, time)?;
        Ok(time)
    }

    /// Makes the recorder hold what the steps reported from the start of the position's span up to the position. Gives the span's
    /// number.
    pub(crate) fn record(&mut self, position: u64) -> Result<u64, AllocError>
        requires position { position ≤ max_position }
        ensures stays { Stays self.old self.new }
        ensures before { IfOk result (λ index. index * SPAN ≤ position) }
        ensures joined { IfOk result (λ index. index ≤ self.new.runs.records.kept.valid) }
        ensures recorded { IfOk result (λ index. Records PAGES
            (steps_between PAGES self.new.inputs.image self.new.inputs.log (index * SPAN) position) self.new.runs.machine.recorder) }
        ensures spends { Spends PAGES SPAN (position / SPAN) (position % SPAN)
            (holding_of self.old) (holding_of self.new) }
        ensures reaches { IfOk result (λ _. Reaches PAGES SPAN (position / SPAN)
            (holding_of self.old) (holding_of self.new)) }
    {
        let index = position / SPAN as u64;
        self.join_before(index)?;
        if self.runs.machine.recorded == Some(position) {
            return Ok(index);
        }
        let start = self.runs.records.start_of(&self.inputs, index);
        self.runs.machine.record(&self.inputs, start, position)?;
        Ok(index)
    }

    // Whether a span is joined, and the PC stands in no address of a virtual page from its start to its end.
    fn stays_out(&self, index: u64, page: u32) -> bool
        ensures { IsTrue result ↔ ((index < self.now.runs.records.kept.valid) × ¬ RunsIn PAGES self.now.inputs.log (index * SPAN)
            (state_at PAGES self.now.inputs.image self.now.inputs.log (index * SPAN)) SPAN page) }
    {
        match self.runs.records.kept.first(index) {
            Some(fact) if index < self.runs.records.kept.valid() => !fact.runs_in(page),
            _ => false,
        }
    }

    // The next position after one at which the PC holds an address, if there is one up to a last one. It runs no step of a joined
    // span in which the PC stands nowhere in the page of the address.
    fn visit(&mut self, position: u64, address: u32, last: u64) -> Result<Option<u64>, AllocError>
        requires joined { position / SPAN ≤ self.old.runs.records.kept.valid }
        requires before { position ≤ last }
        requires bound { last ≤ max_position }
        ensures stays { Stays self.old self.new }
        ensures found { IfOk result (λ found. found ≡ next_visit PAGES self.old.inputs.image self.old.inputs.log address position (last - position)) }
        ensures bound { IfOk result (λ found. IfSome found (λ found. found ≤ last)) }
        ensures rows { self.new.runs.records.kept.rows ≡ self.old.runs.records.kept.rows }
        ensures count { self.new.runs.machine.live.steps ≤ self.old.runs.machine.live.steps + (position % SPAN + (last - position)) }
        ensures least { self.old.runs.machine.live.steps ≤ self.new.runs.machine.live.steps }
    {
        let mut time = position;
        while time < last {
            let index = time / SPAN as u64;
            let to = last.min((index + 1) * SPAN as u64);
            if !self.stays_out(index, address / PAGE_BYTES) {
                self.go_in_span(index, time)?;
                let found = self.runs.machine.visit(&self.inputs, time, address, to);
                if let Some(found) = found {
                    return Ok(Some(found));
                }
            }
            time = to;
        }
        Ok(None)
    }

    /// The next position after one at which the PC holds an address, if there is one up to a last one.
    pub fn next_visit(
        &mut self,
        position: u64,
        address: u32,
        last: u64,
    ) -> Result<Option<u64>, AllocError>
        requires before { position ≤ last }
        requires bound { last ≤ max_position }
        ensures stays { Stays self.old self.new }
        ensures found { IfOk result (λ found. found ≡ next_visit PAGES self.old.inputs.image self.old.inputs.log address position (last - position)) }
        ensures bound { IfOk result (λ found. IfSome found (λ found. found ≤ last)) }
        ensures spends { Spends PAGES SPAN (position / SPAN) (position % SPAN + (last - position))
            (holding_of self.old) (holding_of self.new) }
        ensures reaches { IfOk result (λ _. Reaches PAGES SPAN (position / SPAN)
            (holding_of self.old) (holding_of self.new)) }
    {
        self.join_before(position / SPAN as u64)?;
        self.visit(position, address, last)
    }
}
