//! The machine that runs: one flat memory, a record of what its steps reported, and boundaries to go back to.
#![tactic(auto)]

mod boundary;
mod changes;
mod destinations;
mod flat;
mod index;
mod laws;
mod live;
mod ready_pages;
mod recorder;
mod stores;
mod stretch;
mod virtual_pages;
mod waiting;

pub use boundary::Boundary;
pub use destinations::{Destinations, mark};
pub use flat::FlatMemory;
pub use laws::run_locality;
pub use live::{Live, counted};
pub use recorder::{Recorder, SentAt, Written};
