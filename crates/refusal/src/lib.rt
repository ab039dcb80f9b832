//! Why a call on an image, a log, a run or a session is refused, and what the answer of such a call may be.
#![tactic(auto)]

pub mod fault;

pub use fault::Fault;
