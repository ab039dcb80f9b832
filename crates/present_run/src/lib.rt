//! The run from reset that an image and a log determine, by spans of which records are kept: what it holds and reports up to a
//! position.
#![tactic(auto)]

mod edits;
mod following;
mod frontier;
mod going;
mod index;
mod inputs;
mod jumps;
mod laws;
mod machine;
mod present;
mod recent_states;
mod records;
mod reporting;
mod runs;
mod sent;
mod state_queries;

pub use jumps::Jumps;
pub use laws::lacking_laws;
pub use present::Present;
pub use sent::Shown;
