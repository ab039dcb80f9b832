//! Why bytes are no image.

ghost use Rattle.std.specs.Prelude.{◌≡◌};
ghost use Rattle.r3k_image.specs.declared.fault.ImageFault.TheVariants.{Memory, Bad};

use std::alloc::{AllocError, AllocFailed};
use thiserror::Error;

/// What is wrong with an image: the first fault from left to right.
#[derive(Clone, Copy, Debug, PartialEq, Eq, Error)]
pub enum ImageKind {
    /// The first eight bytes aren't those of the format.
    #[error("Magic")]
    Magic,
    /// The byte time isn't from 1 to 65,535.
    #[error("ByteTime")]
    ByteTime,
    /// The unit of the clock isn't from 1 to 65,535.
    #[error("Unit")]
    Unit,
    /// Bit 7 of the clock's register A or bit 0 of its register B is 1.
    #[error("ClockStart")]
    ClockStart,
    /// A segment is empty, misaligned, not wholly in RAM or ROM, or begins before the end of the one before.
    #[error("Segment")]
    Segment,
    /// Too few bytes are left for a field.
    #[error("Short")]
    Short,
    /// Bytes stand after the last segment.
    #[error("Extra")]
    Extra,
    /// A raw ROM is longer than the ROM.
    #[error("RawSize")]
    RawSize,
    /// A set word of RAM lies past the machine's RAM.
    #[error("Pages")]
    Pages,
}

/// Why there is no image.
#[derive(Clone, Copy, Debug, PartialEq, Eq, Error)]
pub enum ImageFault {
    /// Memory ran out.
    #[error("out of memory")]
    Memory,
    /// The bytes are no image.
    #[error("bad image: {0}")]
    Bad(ImageKind),
}

impl From<AllocError> for ImageFault {
    ghost from_gives = { λ _ fault. fault ≡ Memory };

    fn from(_error: AllocError) -> ImageFault {
        ImageFault::Memory
    }
}

impl<T: Drop> From<AllocFailed<T>> for ImageFault {
    ghost from_gives = { λ _ fault. fault ≡ Memory };

    fn from(_error: AllocFailed<T>) -> ImageFault {
        ImageFault::Memory
    }
}

impl From<ImageKind> for ImageFault {
    ghost from_gives = { λ kind fault. fault ≡ Bad kind };

    fn from(kind: ImageKind) -> ImageFault {
        ImageFault::Bad(kind)
    }
}
