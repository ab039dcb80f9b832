//! The control registers of the R3000, coprocessor 0.
#![tactic(auto)]

mod cop0;
mod exception;
pub mod number;
mod numbers;
mod status;

pub use cop0::Cop0;
pub use exception::{Coprocessor, Exc, ExcCode};
pub use numbers::cop0_numbers;
