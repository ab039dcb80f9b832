//! What the program's line asks for.
ghost use Rattle.std.specs.Prelude.{◌≤◌};
ghost use Rattle.wb_options.specs.Options.{max_size};

/// What the input begins with.
#[derive(Clone, Copy, Debug, PartialEq, Eq)]
pub enum Kind {
    /// A raw ROM.
    Rom,
    /// An image of this project's format.
    Image,
    /// Assembler source.
    Source,
}

/// The greatest `--size` and `--log`.
pub const MAX_SIZE: u32 = 67_108_864;

/// What the program's line asks for.
#[derive(Clone, Copy, Debug, PartialEq, Eq)]
pub struct Options {
    /// What the input begins with.
    pub kind: Kind,
    /// How many bytes of the input that takes.
    pub size: u32,
    /// How many bytes after them the log takes. No bytes are the empty log.
    pub log_size: u32,
    ghost in_range: { size ≤ max_size },
    ghost log_in_range: { log_size ≤ max_size },
}
