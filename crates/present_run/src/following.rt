//! The machine is followed along the present run: what each step did.

ghost use Rattle.std.specs.Prelude.{◌≡◌, ◌+◌, ◌/◌, ◌%◌, ◌≤◌, IfOk};
ghost use Rattle.r3k_machine.specs.Traced.{traces_at};
ghost use Rattle.input_log.specs.Limits.{max_position};
ghost use Rattle.present_run.specs.Reuse.{Reaches, Spends};
ghost use Rattle.present_run.specs.Shown.{Stays, holding_of};

use crate::present::Present;
use arrayvec::ArrayVec;
use r3k_machine::Traced;
use std::alloc::AllocError;

impl<const PAGES: u32, const SPAN: u32> Present<PAGES, SPAN> {
    /// What each of `count` steps from a position on does.
    pub fn follow(&mut self, position: u64, count: u64) -> Result<ArrayVec<Traced, 64>, AllocError>
        requires few { count ≤ 64 }
        requires near { position + count ≤ max_position }
        ensures stays { Stays self.old self.new }
        ensures traced { IfOk result (λ steps. steps.items ≡ traces_at PAGES self.old.inputs.image self.old.inputs.log position count) }
        ensures spends { Spends PAGES SPAN (position / SPAN) (position % SPAN + count) (holding_of self.old) (holding_of self.new) }
        ensures reaches { IfOk result (λ _. Reaches PAGES SPAN (position / SPAN) (holding_of self.old) (holding_of self.new)) }
    {
        self.go_to(position)?;
        Ok(self.runs.machine.follow(&self.inputs, position, count))
    }
}
