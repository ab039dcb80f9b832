//! The machine that goes along the run.

ghost use Rattle.std.specs.Prelude.{◌≡◌, ◌+◌, ◌-◌, ◌*◌, ◌/◌, ◌%◌, ◌^◌, ◌<◌, ◌≤◌, ℕ, IfOk, List, Some, unwrap_or};
ghost use Rattle.input_log.specs.Event.{LogEvent};
ghost use Rattle.input_log.specs.Limits.{max_position};
ghost use Rattle.r3k_image.specs.Boot.{Boot};
ghost use Rattle.r3k_machine.specs.Run.{next_visit, state_at};
ghost use Rattle.r3k_machine.specs.Jumps.{jumps_from};
ghost use Rattle.r3k_machine.specs.Traced.{traced_at, traces_at};
ghost use Rattle.r3k_live.specs.Living.{counted};
ghost use Rattle.r3k_live.specs.Recording.{Records};
ghost use Rattle.present_run.specs.Jumps.{jumping_of};
ghost use Rattle.present_run.specs.Reuse.{span_of};
ghost use Rattle.present_run.specs.Runs.{IsRunning, steps_between};

use crate::inputs::Inputs;
use crate::jumps::Jumps;
use arrayvec::ArrayVec;
use r3k_live::{Boundary, Live, Recorder};
use r3k_machine::{Jump, Traced};
use span_fact::Fact;
use std::alloc::{AllocError, Global};
use std::rc::Rc;

/// The machine that runs, and a recorder of its steps.
#[derive(Drop)]
pub(crate) struct Machine<const PAGES: u32, const SPAN: u32> {
    pub(crate) live: Live<PAGES>,
    pub(crate) recorder: Recorder<PAGES, SPAN>,
    // Where it is in the run, if it is.
    pub(crate) at: Option<u64>,
    // If some: the recorder holds what the run reports up to there, from the start of that position's span on.
    pub(crate) recorded: Option<u64>,
}

impl<const PAGES: u32, const SPAN: u32> Machine<PAGES, SPAN> {
    /// The run is another one, in which it stands nowhere.
    pub(crate) fn forget(&mut self)
        ensures of { (image : Boot) (log : List LogEvent) → IsRunning {pages = PAGES} {span = SPAN} image log self.new }
        ensures steps { self.new.live.steps ≡ self.old.live.steps }
    {
        self.at = None;
        self.recorded = None;
    }

    /// Loads the state of a position.
    pub(crate) fn load_at(
        &mut self,
        inputs: &Inputs,
        state: &Rc<Boundary<PAGES>>,
        position: u64,
    ) -> Result<(), AllocError>
        requires of { IsRunning {pages = PAGES} {span = SPAN} inputs.now.image inputs.now.log self.old }
        requires state { state.now.value ≡ state_at PAGES inputs.now.image inputs.now.log position }
        ensures of { IsRunning {pages = PAGES} {span = SPAN} inputs.now.image inputs.now.log self.new }
        ensures stands { IfOk result (λ _. self.new.at ≡ Some position) }
        ensures steps { self.new.live.steps ≡ self.old.live.steps }
    {
        if self.at == Some(position) {
            return Ok(());
        }
        self.live.load(state.clone()?);
        self.at = Some(position);
        Ok(())
    }

    /// Goes on to a position, at most a span's steps away. The recorder then holds what these steps reported.
    pub(crate) fn go_on(&mut self, inputs: &Inputs, time: u64, position: u64)
        requires of { IsRunning {pages = PAGES} {span = SPAN} inputs.now.image inputs.now.log self.old }
        requires stands { self.old.at ≡ Some time }
        requires before { time ≤ position }
        requires near { position ≤ time + SPAN }
        ensures of { IsRunning {pages = PAGES} {span = SPAN} inputs.now.image inputs.now.log self.new }
        ensures stands { self.new.at ≡ Some position }
        ensures recorded { Records PAGES (steps_between PAGES inputs.now.image inputs.now.log time position) self.new.recorder }
        ensures count { self.new.live.steps ≡ counted self.old.live.steps (position - time) }
        ensures least { self.old.live.steps ≤ self.new.live.steps }
    {
        self.recorded = None;
        self.recorder.clear();
        self.live.run(
            time,
            inputs.log.window(time, position),
            (position - time) as u32,
            &mut self.recorder,
        );
        self.at = Some(position);
    }

    /// Makes the recorder hold what the steps reported from the start of a position's span, whose state is given, up to the
    /// position.
    pub(crate) fn record(
        &mut self,
        inputs: &Inputs,
        start: &Rc<Boundary<PAGES>>,
        position: u64,
    ) -> Result<(), AllocError>
        requires of { IsRunning {pages = PAGES} {span = SPAN} inputs.now.image inputs.now.log self.old }
        requires start { start.now.value ≡ state_at PAGES inputs.now.image inputs.now.log (position / SPAN * SPAN) }
        requires some { 0 < SPAN }
        ensures of { IsRunning {pages = PAGES} {span = SPAN} inputs.now.image inputs.now.log self.new }
        ensures recorded { IfOk result (λ _. Records PAGES
            (steps_between PAGES inputs.now.image inputs.now.log (position / SPAN * SPAN) position) self.new.recorder) }
        ensures count { self.new.live.steps ≤ self.old.live.steps + position % SPAN }
        ensures least { self.old.live.steps ≤ self.new.live.steps }
    {
        let from = position / SPAN as u64 * SPAN as u64;
        self.load_at(inputs, start, from)?;
        self.go_on(inputs, from, position);
        self.recorded = Some(position);
        Ok(())
    }

    /// Goes on to the next position at which the PC holds an address, or to a position, at most a span's steps away.
    pub(crate) fn visit(
        &mut self,
        inputs: &Inputs,
        time: u64,
        address: u32,
        last: u64,
    ) -> Option<u64>
        requires of { IsRunning {pages = PAGES} {span = SPAN} inputs.now.image inputs.now.log self.old }
        requires stands { self.old.at ≡ Some time }
        requires before { time ≤ last }
        requires near { last ≤ time + SPAN }
        ensures of { IsRunning {pages = PAGES} {span = SPAN} inputs.now.image inputs.now.log self.new }
        ensures stands { self.new.at ≡ Some (unwrap_or result last) }
        ensures found { result ≡ next_visit PAGES inputs.now.image inputs.now.log address time (last - time) }
        ensures bound { unwrap_or result last ≤ last }
        ensures count { self.new.live.steps ≤ self.old.live.steps + (last - time) }
        ensures least { self.old.live.steps ≤ self.new.live.steps }
    {
        self.recorded = None;
        self.recorder.clear();
        let found = self.live.visit(
            time,
            inputs.log.window(time, last),
            (last - time) as u32,
            address,
            &mut self.recorder,
        );
        match found {
            Some(steps) => {
                self.at = Some(time + steps as u64);
                Some(time + steps as u64)
            }
            None => {
                self.at = Some(last);
                None
            }
        }
    }

    // Makes the step at a position, where it stands.
    fn follow_one(&mut self, inputs: &Inputs, position: u64) -> Traced
        requires of { IsRunning {pages = PAGES} {span = SPAN} inputs.now.image inputs.now.log self.old }
        requires stands { self.old.at ≡ Some position }
        requires near { position < max_position }
        ensures of { IsRunning {pages = PAGES} {span = SPAN} inputs.now.image inputs.now.log self.new }
        ensures stands { self.new.at ≡ Some (position + 1) }
        ensures traced { result ≡ traced_at PAGES inputs.now.image inputs.now.log position }
        ensures count { self.new.live.steps ≤ self.old.live.steps + 1 }
        ensures least { self.old.live.steps ≤ self.new.live.steps }
    {
        let events = inputs.log.window(position, position + 1);
        let traced = self.live.follow(events);
        self.at = Some(position + 1);
        traced
    }

    /// Makes `count` steps from a position on, where it stands, and gives what each of them does.
    pub(crate) fn follow(
        &mut self,
        inputs: &Inputs,
        position: u64,
        count: u64,
    ) -> ArrayVec<Traced, 64>
        requires of { IsRunning {pages = PAGES} {span = SPAN} inputs.now.image inputs.now.log self.old }
        requires stands { self.old.at ≡ Some position }
        requires few { count ≤ 64 }
        requires near { position + count ≤ max_position }
        ensures of { IsRunning {pages = PAGES} {span = SPAN} inputs.now.image inputs.now.log self.new }
        ensures traced { result.items ≡ traces_at PAGES inputs.now.image inputs.now.log position count }
        ensures count { self.new.live.steps ≤ self.old.live.steps + count }
        ensures least { self.old.live.steps ≤ self.new.live.steps }
    {
        let mut steps = ArrayVec::new();
        for made in 0..count {
            steps.push(self.follow_one(inputs, position + made));
        }
        steps
    }

    /// Makes the steps from a position on, where the machine stands, until `count` of them are jumps, or up to a last position. Returns the
    /// jumps and the position that was reached.
    pub(crate) fn jumps(
        &mut self,
        inputs: &Inputs,
        position: u64,
        local: bool,
        count: u64,
        last: u64,
    ) -> Jumps
        requires of { IsRunning {pages = PAGES} {span = SPAN} inputs.now.image inputs.now.log self.old }
        requires stands { self.old.at ≡ Some position }
        requires few { count ≤ 64 }
        requires before { position ≤ last }
        requires near { last ≤ max_position }
        ensures of { IsRunning {pages = PAGES} {span = SPAN} inputs.now.image inputs.now.log self.new }
        ensures jumps { jumping_of result ≡ jumps_from PAGES inputs.now.image inputs.now.log local position count (last - position) }
        ensures within { (position ≤ result.next) × (result.next ≤ last) }
        ensures count { self.new.live.steps ≤ self.old.live.steps + (result.next - position) }
        ensures least { self.old.live.steps ≤ self.new.live.steps }
    {
        let mut jumps = ArrayVec::new();
        let mut next = position;
        while next < last && (jumps.len() as u64) < count {
            let traced = self.follow_one(inputs, next);
            if let Some(jump) = Jump::of(local, next, &traced) {
                jumps.push(jump);
            }
            next += 1;
        }
        Jumps { jumps, next }
    }

    /// Runs a span, whose start is given, and gives its record.
    pub(crate) fn run_span(
        &mut self,
        alloc: Global,
        inputs: &Inputs,
        start: Rc<Boundary<PAGES>>,
        index: u64,
    ) -> Result<Fact<PAGES, SPAN>, AllocError>
        requires of { IsRunning {pages = PAGES} {span = SPAN} inputs.now.image inputs.now.log self.old }
        requires start { start.value ≡ state_at PAGES inputs.now.image inputs.now.log (index * SPAN) }
        requires time { (index + 1) * SPAN < 2 ^ 64 }
        requires some { 0 < SPAN }
        ensures of { IsRunning {pages = PAGES} {span = SPAN} inputs.now.image inputs.now.log self.new }
        ensures made { IfOk result (λ fact. fact ≡ span_of PAGES SPAN inputs.now.image inputs.now.log index) }
        ensures count { IfOk result (λ _. self.new.live.steps ≡ counted self.old.live.steps SPAN) }
        ensures least { self.old.live.steps ≤ self.new.live.steps }
        ensures most { self.new.live.steps ≤ self.old.live.steps + SPAN }
    {
        let from = index * SPAN as u64;
        let to = (index + 1) * SPAN as u64;
        self.load_at(inputs, &start, from)?;
        self.at = None;
        self.recorded = None;
        let fact = Fact::make(
            alloc,
            &mut self.live,
            &mut self.recorder,
            start,
            index,
            inputs.log.window(from, to),
        )?;
        self.at = Some(to);
        Ok(fact)
    }
}
