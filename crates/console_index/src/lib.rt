//! What each line sent in each span: sums of counts, and places among the bytes.
#![tactic(auto)]

mod index;
mod span;

pub use index::{ConsoleIndex, MAX_SPANS};
