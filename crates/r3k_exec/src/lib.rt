//! What each instruction of the table does with the values that it reads.
#![tactic(auto)]

mod access;
mod arithmetic;
mod branches;
mod control;
mod dispatch;
mod immediate;
mod logic;
mod moves;
mod operands;
mod shifts;
mod transfers;

pub use access::{Covered, LoadKind, StoreKind};
pub use dispatch::{effect, effect_by_name};
pub use operands::{Effect, Operands, Trap};
