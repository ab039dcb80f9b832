//! Which pages each span stored into: the last span before one that has a page.
#![tactic(auto)]

mod index;
mod level;
mod page_set;
mod search;
mod tree;

pub use index::WriteIndex;
pub use search::Asked;
pub use tree::MAX_SPANS;
