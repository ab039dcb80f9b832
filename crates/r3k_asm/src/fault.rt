//! Why source makes no image.

ghost use Rattle.std.specs.Prelude.{◌≡◌};
ghost use Rattle.r3k_asm.specs.declared.fault.AsmFault.TheVariants.{Memory, Bad};

use asm_line::kind::AsmKind;
use std::alloc::{AllocError, AllocFailed};
use thiserror::Error;

/// Why source makes no image.
#[derive(Clone, Copy, Debug, PartialEq, Eq, Error)]
pub enum AsmFault {
    /// Memory ran out.
    #[error("out of memory")]
    Memory,
    /// A line is wrong: its number, from 1, and what is wrong with it.
    #[error("bad source: line {line}: {kind}")]
    Bad { line: u64, kind: AsmKind },
}

impl From<AllocError> for AsmFault {
    ghost from_gives = { λ _ fault. fault ≡ Memory };

    fn from(_error: AllocError) -> AsmFault {
        AsmFault::Memory
    }
}

impl<T: Drop> From<AllocFailed<T>> for AsmFault {
    ghost from_gives = { λ _ fault. fault ≡ Memory };

    fn from(_error: AllocFailed<T>) -> AsmFault {
        AsmFault::Memory
    }
}
