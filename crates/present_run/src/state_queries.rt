//! Queries of the state at a position: from the state kept there, or by going there from the nearest kept one.

ghost use Rattle.std.specs.Prelude.{◌≡◌, ◌⊎◌, ◌∷◌, ◌/◌, ◌%◌, ◌<◌, ◌≤◌, ℕ, Contains, IfOk, Some, slice_index, take};
ghost use Rattle.r3k_word.specs.Layout.{word_count_of};
ghost use Rattle.r3k_machine.specs.Run.{state_at};
ghost use Rattle.present_run.specs.RecentStates.{positions_of};
ghost use Rattle.input_log.specs.Limits.{max_position};
ghost use Rattle.present_run.specs.Reuse.{Reaches, Spends};
ghost use Rattle.present_run.specs.TimelineView.{KeepsState};
ghost use Rattle.present_run.specs.Shown.{holding_of, view_of};

use crate::present::Present;
use r3k_machine::{Core, KeptCore};
use std::alloc::{AllocError, Global};

impl<const PAGES: u32, const SPAN: u32> Present<PAGES, SPAN> {
    /// The processor at a position.
    pub fn core_at(&mut self, position: u64) -> Result<Box<Core>, AllocError>
        requires { position ≤ max_position }
        ensures core { IfOk result (λ core. core.value ≡ (state_at PAGES self.old.inputs.image self.old.inputs.log position).core) }
        ensures spends { Spends PAGES SPAN (position / SPAN) (position % SPAN) (holding_of self.old) (holding_of self.new) }
        ensures reaches { IfOk result (λ _. Reaches PAGES SPAN (position / SPAN) (holding_of self.old) (holding_of self.new)) }
        ensures keeps_state { KeepsState SPAN position (view_of self.old) (view_of self.new) result }
    {
        if let Some((_, state)) = self.recent_states.nearest(position, position) {
            let core = restored(self.alloc, self.runs.machine.live.core(), state.core())?;
            self.recent_states.touch(position);
            return Ok(core);
        }
        self.go_to(position)?;
        let core = copied(self.alloc, self.runs.machine.live.core())?;
        self.keep_state(position);
        Ok(core)
    }

    /// The word at a place in the list of all words, at a position.
    pub fn word_at(&mut self, position: u64, place: usize) -> Result<u32, AllocError>
        requires position { position ≤ max_position }
        requires place { place < word_count_of PAGES }
        ensures word { IfOk result (λ word. word ≡ slice_index (state_at PAGES self.old.inputs.image self.old.inputs.log position).words place) }
        ensures spends { Spends PAGES SPAN (position / SPAN) (position % SPAN) (holding_of self.old) (holding_of self.new) }
        ensures reaches { IfOk result (λ _. Reaches PAGES SPAN (position / SPAN) (holding_of self.old) (holding_of self.new)) }
        ensures keeps_state { KeepsState SPAN position (view_of self.old) (view_of self.new) result }
    {
        if let Some((_, state)) = self.recent_states.nearest(position, position) {
            let word = state.memory().word(place);
            self.recent_states.touch(position);
            return Ok(word);
        }
        self.go_to(position)?;
        let word = self.runs.machine.live.word(place);
        self.keep_state(position);
        Ok(word)
    }

    // Keeps the state at which the machine stands, if that is inside a span. Where memory for it is refused, it is not kept.
    fn keep_state(&mut self, position: u64)
        requires stands { self.old.runs.machine.at ≡ Some position }
        requires none { ¬ Contains (positions_of self.old.recent_states) position }
        requires joined { position / SPAN ≤ self.old.runs.records.kept.valid }
        ensures same { holding_of self.new ≡ holding_of self.old }
        ensures start { position % SPAN ≡ 0 → self.new.recent_states ≡ self.old.recent_states }
        ensures positions { (positions_of self.new.recent_states ≡ take 8 (position ∷ positions_of self.old.recent_states)) ⊎ (self.new.recent_states ≡ self.old.recent_states) }
    {
        if position % SPAN as u64 == 0 {
            return;
        }
        if let Ok(state) = self.runs.machine.live.keep(self.alloc) {
            let _refused = self.recent_states.add(position, state);
        }
    }
}

// A kept core, as a core of the other form.
fn restored(alloc: Global, core: &Core, kept: &KeptCore) -> Result<Box<Core>, AllocError>
    ensures { IfOk result (λ core. core.value ≡ kept.now) }
{
    let mut core = core.copy(alloc)?;
    core.restore(kept);
    Box::new(alloc, core).map_err(|_| AllocError)
}

// A core of its own.
fn copied(alloc: Global, core: &Core) -> Result<Box<Core>, AllocError>
    ensures { IfOk result (λ copy. copy.value ≡ core.now) }
{
    let core = core.copy(alloc)?;
    Box::new(alloc, core).map_err(|_| AllocError)
}
