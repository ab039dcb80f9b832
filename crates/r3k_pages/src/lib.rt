//! Snapshots of memory that share their pages.
#![tactic(auto)]

mod block;
mod changes;
mod group;
mod laws;
mod page;
mod page_marks;
mod snapshot;
mod whole;

pub use block::BLOCK_WORDS;
pub use laws::page_laws;
pub use page::PAGE_BLOCKS;
pub use page_marks::PageMarks;
pub use snapshot::Snapshot;
