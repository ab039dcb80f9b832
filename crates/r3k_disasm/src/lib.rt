//! Instructions as text: the name of a word's row and its operands.
#![tactic(auto)]

mod instruction;
mod number;
mod operand;

pub use instruction::text;
