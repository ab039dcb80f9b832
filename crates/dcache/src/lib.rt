//! The isolated cache of the R3000: two arrays of slots that loads and stores reach in place of
//! memory.
#![tactic(auto)]

pub mod caches;
mod numbers;
pub mod slot;

pub use caches::Caches;
pub use numbers::cache_numbers;
pub use slot::Slot;
