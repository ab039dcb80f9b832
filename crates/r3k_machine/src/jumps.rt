//! The steps that transferred control.

ghost use Rattle.std.specs.Prelude.{◌≡◌};
ghost use Rattle.r3k_machine.specs.Jumps.{jump_of};

use crate::traced::Traced;
use cop0::ExcCode;

/// A step that transferred control.
#[derive(Clone, Copy, Debug, PartialEq, Eq)]
pub struct Jump {
    pub step: u64,
    /// The PC before the step.
    pub pc: u32,
    /// The word that was fetched, if one was.
    pub word: Option<u32>,
    /// The target, for an exception its vector, for `rfe` the PC after the step.
    pub to: u32,
    /// The interrupt or the exception that was taken in place of the instruction.
    pub exception: Option<ExcCode>,
}

impl Jump {
    /// Returns the jump of a step with a trace, if the step transferred control. A local transfer counts only if `local` is set.
    #[inline]
    pub fn of(local: bool, step: u64, traced: &Traced) -> Option<Jump>
        ensures { result ≡ jump_of local step traced.now }
    {
        let transfer = traced.transfer?;
        if transfer.local && !local {
            return None;
        }
        Some(Jump {
            step,
            pc: traced.pc,
            word: traced.word,
            to: transfer.to,
            exception: traced.exception,
        })
    }
}

impl Default for Jump {
    /// A jump of no step, which fills places that are not used.
    fn default() -> Jump {
        Jump {
            step: 0,
            pc: 0,
            word: None,
            to: 0,
            exception: None,
        }
    }
}
