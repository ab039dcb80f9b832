//! The text of the workbench: script lines to commands, and replies to text.
#![tactic(auto)]

pub mod bounded;
pub mod command;
pub mod devices;
mod jumps;
pub mod lists;
pub mod memory;
mod number;
pub mod reply;
mod text;
mod trace;
mod words;

pub use bounded::{
    Address, Bounded, ByteCount, ByteValue, Distance, EntryNumber, EventCount, EventTime,
    FindCount, JumpCount, JumpKind, Level, LineNumber, PositionCount, RegisterNumber, StepCount,
    StoreCount, TraceCount, WireNumber, WordCount, WordValue, WrittenNumber,
};
pub use command::{Command, parse_line};
pub use devices::Devices;
pub use lists::Timed;
pub use memory::Words;
pub use reply::{ControlRegisters, Load, Registers, Reply, Where, Writer, reply_text};
pub use text::decimal_digits;
