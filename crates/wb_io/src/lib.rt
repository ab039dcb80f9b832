//! Where the bytes of a run come from and where they go: readers and writers that report what they have done.
#![tactic(auto)]

mod calls;
mod order;
mod plan;
mod sink;
mod source;
mod whole;

pub use order::Order;
pub use plan::{Plan, Upset};
pub use sink::{Sink, ToWrite};
pub use source::{Failed, FromRead, PIECE_BYTES, Source};
pub use whole::write_whole;
