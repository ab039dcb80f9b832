//! The workbench: scripts run on a session, the program's loop over a reader and a writer, and the
//! program itself.
#![tactic(auto)]

mod line_buffer;
mod program;
mod script;
mod serving;

pub use program::{NoWords, r3kwb, serve_words};
pub use script::run;
pub use serving::serve;
pub use wb_io::{Failed, FromRead, Order, Plan, Sink, Source, ToWrite, Upset};
pub use wb_options::{Kind, MAX_SIZE, Options, RunFault, fault_line, options, status};
pub use wb_session::{MAX_POSITION, Session};
