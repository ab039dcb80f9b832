//! The log of what comes from outside: with its image it determines a run. It is read from the log format and written in it.
#![tactic(auto)]

mod cursor;
mod edit;
mod edits;
mod event;
mod fault;
mod format;
mod laws;
mod limits;
mod log;
mod numbers;
mod reading;
mod writing;

pub use cursor::Cursor;
pub use edit::Edit;
pub use event::{Event, Kind, same_events};
pub use fault::{LogFault, LogKind};
pub use laws::log_laws;
pub use limits::{MAX_EVENTS, MAX_POSITION, MAX_TIME};
pub use log::Log;
pub use numbers::log_numbers;
pub use reading::read_log;
pub use writing::write_log;
