//! Why bytes are no log.

ghost use Rattle.std.specs.Prelude.{◌≡◌};
ghost use Rattle.input_log.specs.declared.fault.LogFault.TheVariants.{Memory, Bad};

use std::alloc::{AllocError, AllocFailed};
use thiserror::Error;

/// What is wrong with a log: the first fault from left to right.
#[derive(Clone, Copy, Debug, PartialEq, Eq, Error)]
pub enum LogKind {
    /// The first eight bytes aren't those of a version of the format.
    #[error("Magic")]
    Magic,
    /// There are more than 1,048,576 events.
    #[error("Count")]
    Count,
    /// A time is above the greatest of the version, or less than the one before.
    #[error("Time")]
    Time,
    /// A kind is above 2.
    #[error("Kind")]
    Kind,
    /// A line is above 3, or an external line above 2.
    #[error("Line")]
    Line,
    /// The level of an external line is above 1.
    #[error("Value")]
    Value,
    /// Too few bytes are left for a field.
    #[error("Short")]
    Short,
    /// Bytes stand after the last event.
    #[error("Extra")]
    Extra,
}

/// Why there is no log.
#[derive(Clone, Copy, Debug, PartialEq, Eq, Error)]
pub enum LogFault {
    /// Memory ran out.
    #[error("out of memory")]
    Memory,
    /// The bytes are no log.
    #[error("bad log: {0}")]
    Bad(LogKind),
}

impl From<AllocError> for LogFault {
    ghost from_gives = { λ _ fault. fault ≡ Memory };

    fn from(_error: AllocError) -> LogFault {
        LogFault::Memory
    }
}

impl<T: Drop> From<AllocFailed<T>> for LogFault {
    ghost from_gives = { λ _ fault. fault ≡ Memory };

    fn from(_error: AllocFailed<T>) -> LogFault {
        LogFault::Memory
    }
}

impl From<LogKind> for LogFault {
    ghost from_gives = { λ kind fault. fault ≡ Bad kind };

    fn from(kind: LogKind) -> LogFault {
        LogFault::Bad(kind)
    }
}
