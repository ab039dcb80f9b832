//! The registers that steps wrote, each with its last step.

ghost use Rattle.std.specs.Prelude.{◌≡◌, ◌+◌, ◌-◌, ◌^◌, ◌<◌, ◌≤◌, ◌++◌, ℕ, All, IfOk, List, length, slice_index, slice_set};
ghost use Rattle.std.specs.List.Sorted.{IsStrictlyIncreasing};
ghost use Rattle.r3k_machine.specs.declared.step.Done.{Done};
ghost use Rattle.r3k_machine.specs.declared.target.Target.TheVariants.{Register};
ghost use Rattle.r3k_machine.specs.Run.{last_writer};
ghost use Rattle.r3k_live.specs.Kept.{kept_step};
ghost use Rattle.r3k_live.specs.Marks.{mark_of, registers_below};
ghost use Rattle.r3k_live.specs.Record.{AreDestinations};
ghost use Rattle.r3k_live.specs.Waiting.{passed_by};

use r3k_machine::{Destination, Target};
use r3k_word::layout::PAGE_BYTES;
use std::alloc::AllocError;
use std::marker::Model;

/// For each destination, by its number, one more than the last step that had it, or 0. They are wider than a step's number, and so than
/// a register: where a step writes both, the compiler then scales the register's number within both addresses, with no shift before.
#[derive(Clone, Copy)]
pub struct Destinations {
    last: [u64; 35],
}

impl Model for Destinations {
    ghost use Rattle.std.specs.Prelude.{◌≡◌, ◌^◌, ◌<◌, ℕ, List, length, slice_index};

    ghost Value = { List ℕ };

    ghost view = { λ destinations. destinations.last };

    ghost invariant = { λ destinations. (length destinations.last ≡ 35) × ((number : ℕ) → slice_index destinations.last number < 2 ^ 32) };

    ghost inverse = { λ last. record { last = last } };
}

impl Destinations {
    /// None.
    pub(crate) fn none() -> Destinations
        ensures { (number : ℕ) → slice_index result number ≡ 0 }
    {
        Destinations { last: [0; 35] }
    }

    /// Notes that a step was the last one with its destination.
    #[inline(always)]
    pub(crate) fn note(&mut self, wrote: Destination, step: u32)
        requires { step < 2 ^ 32 - 1 }
        ensures last { self.new ≡ slice_set self.old wrote (step + 1) }
        ensures long { length self.old ≡ 35 }
    {
        self.last[wrote.index()] = u64::from(step + 1);
    }

    /// The last steps after so many come later by as many as have passed, but for those after `steps`.
    pub(crate) fn pass(&mut self, since: u32, passed: u32, steps: u32)
        requires fits { steps + passed < 2 ^ 32 }
        ensures { (number : ℕ) → number ≤ 34 → slice_index self.old number ≤ steps → slice_index self.new number ≡ passed_by since passed (slice_index self.old number) }
    {
        for number in 0..35 {
            let last = self.last[number];
            if u64::from(since) < last && last <= u64::from(steps) {
                self.last[number] = last + u64::from(passed);
            }
        }
    }

    /// The last step that wrote a register, if one did: 1 to 31, 32 for HI, 33 for LO.
    pub fn writer(&self, register: u8) -> Option<u32>
        ensures { (steps : List Done) → AreDestinations steps self.now → result ≡ last_writer (Register register) steps }
    {
        if register == 0 || register > 33 {
            return None;
        }
        let own = self.last[register as usize];
        if register < 32 {
            return step_of(own as u32);
        }
        step_of(own.max(self.last[34]) as u32)
    }

    /// Adds the marks of the registers that were written.
    pub(crate) fn add_marks(&self, marks: &mut Vec<u32>) -> Result<(), AllocError>
        ensures { (steps : List Done) → AreDestinations steps self.now →
            IfOk result (λ _. marks.new.items ≡ marks.old.items ++ registers_below steps 34) }
    {
        for register in 0..34 {
            if self.writer(register).is_some() {
                marks.push(mark(Target::Register(register)))?;
            }
        }
        Ok(())
    }
}

/// The step that is kept so.
pub(crate) fn step_of(kept: u32) -> Option<u32>
    ensures { kept_step result ≡ kept }
{
    kept.checked_sub(1)
}

/// The mark of what a step may write: the page of a word, or a number above those of all pages for a register.
pub fn mark(target: Target) -> u32
    ensures { result ≡ mark_of target }
{
    match target {
        Target::Memory(address) => address / PAGE_BYTES,
        Target::Register(register) => (1 << 20) + register as u32,
    }
}
