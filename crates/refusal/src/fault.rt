//! The refusals.

ghost use Rattle.std.specs.Prelude.{◌≡◌};
ghost use Rattle.refusal.specs.declared.fault.Fault.TheVariants.{Memory};

use std::alloc::AllocError;
use thiserror::Error;

/// Why a call is refused, in the order of the numbers. Each prints as the reply of a command, without a line feed.
#[derive(Clone, Copy, Debug, PartialEq, Eq, Error)]
pub enum Fault {
    /// The memory for the answer, or for the change, was refused.
    #[error("error 1 Memory")]
    Memory,
    /// The line is no command.
    #[error("error 2 Syntax")]
    Syntax,
    /// A number is out of its range, or the log is full.
    #[error("error 3 Range")]
    Range,
    /// The log has no event of that number.
    #[error("error 4 NoEvent")]
    NoEvent,
    /// The address is not a multiple of 4.
    #[error("error 5 Unaligned")]
    Unaligned,
    /// The address is not one of RAM or ROM.
    #[error("error 6 NotMemory")]
    NotMemory,
    /// The position is above the greatest one.
    #[error("error 7 TooFar")]
    TooFar,
    /// The whole search found nothing.
    #[error("error 8 NotFound")]
    NotFound,
}

impl From<AllocError> for Fault {
    ghost from_gives = { λ _ fault. fault ≡ Memory };

    fn from(_error: AllocError) -> Fault {
        Fault::Memory
    }
}
