//! The 64 translation entries of the R3000 and the lookup of a virtual address in them.
#![tactic(auto)]

pub mod entry;
mod kept;
mod numbers;
mod sets;
pub mod tlb;

pub use entry::{Entry, Found};
pub use numbers::tlb_numbers;
pub use tlb::Tlb;
