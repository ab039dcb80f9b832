//! The next jumps along the present run.

ghost use Rattle.std.specs.Prelude.{◌≡◌, ℕ, ◌+◌, ◌-◌, ◌/◌, ◌%◌, ◌≤◌, Bool, IfOk, List};
ghost use Rattle.input_log.specs.Event.{LogEvent};
ghost use Rattle.r3k_image.specs.Boot.{Boot};
ghost use Rattle.r3k_machine.specs.Jumps.{jumps_from};
ghost use Rattle.input_log.specs.Limits.{max_position};
ghost use Rattle.present_run.specs.Jumps.{jumping_of, steps_followed};
ghost use Rattle.present_run.specs.Reuse.{Reaches, Spends};
ghost use Rattle.present_run.specs.Shown.{Stays, holding_of};

use crate::present::Present;
use arrayvec::ArrayVec;
use r3k_machine::Jump;
use std::alloc::AllocError;

/// Jumps of the run, and the position from which to ask for later ones.
#[derive(Debug, Drop)]
pub struct Jumps {
    pub jumps: ArrayVec<Jump, 64>,
    pub next: u64,
}

impl Jumps {
    /// Returns no jumps, for a position after which no step is left.
    pub fn none_after(position: u64) -> Jumps
        ensures { (pages : ℕ) (image : Boot) (log : List LogEvent) (local : Bool) (count : ℕ) →
            jumping_of result ≡ jumps_from pages image log local position count 0 }
    {
        Jumps {
            jumps: ArrayVec::new(),
            next: position,
        }
    }
}

impl<const PAGES: u32, const SPAN: u32> Present<PAGES, SPAN> {
    /// Returns the next jumps from a position on, at most `count` of those up to a last position. Local jumps are returned only if `local`
    /// is set. No step is run after the last jump that is asked for.
    pub fn jumps(
        &mut self,
        position: u64,
        local: bool,
        count: u64,
        last: u64,
    ) -> Result<Jumps, AllocError>
        requires few { count ≤ 64 }
        requires before { position ≤ last }
        requires near { last ≤ max_position }
        ensures stays { Stays self.old self.new }
        ensures jumps { IfOk result (λ found. jumping_of found
            ≡ jumps_from PAGES self.old.inputs.image self.old.inputs.log local position count (last - position)) }
        ensures within { IfOk result (λ found. (position ≤ found.next) × (found.next ≤ last)) }
        ensures spends { Spends PAGES SPAN (position / SPAN) (position % SPAN + steps_followed position result) (holding_of self.old) (holding_of self.new) }
        ensures reaches { IfOk result (λ _. Reaches PAGES SPAN (position / SPAN) (holding_of self.old) (holding_of self.new)) }
    {
        self.go_to(position)?;
        Ok(
            self.runs
                .machine
                .jumps(&self.inputs, position, local, count, last),
        )
    }
}
