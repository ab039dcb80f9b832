//! A session over a boot image and an input log: the answer to each command.
#![tactic(auto)]

mod lists;
mod session;
mod showing;
mod words;

pub use session::Session;
pub use timeline::MAX_POSITION;
