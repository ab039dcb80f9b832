//! One line of assembler source: what it says, or why it says nothing.
#![tactic(auto)]

mod clock;
pub mod kind;
pub mod name;
pub mod number;
pub mod operand;
pub mod span;
pub mod statement;
pub mod target;
