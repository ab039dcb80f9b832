//! The program's line: the options that it asks for, and the faults with which a run may end.
#![tactic(auto)]

mod arguments;
mod command_line;
mod fault;

pub use arguments::{Kind, MAX_SIZE, Options};
pub use command_line::{not_text, options};
pub use fault::{RunFault, fault_line, status};
