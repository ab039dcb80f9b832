//! The instruction table: one row for each instruction, in code and in `specs/`, proved equal and pairwise apart.
#![tactic(auto)]

pub mod laws;
pub mod mnemonic;
pub mod operand;
pub mod row;
pub mod rows;
