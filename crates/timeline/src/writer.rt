//! Who wrote a word last.

/// Who wrote a word last before a position.
#[derive(Clone, Copy, Debug, PartialEq, Eq)]
pub enum Writer {
    /// The step of this number stored into it, by any width, also with an equal value.
    Step(u64),
    /// No step did, and the boot image sets it.
    Image,
    /// No step did, and the boot image does not set it.
    Never,
}
