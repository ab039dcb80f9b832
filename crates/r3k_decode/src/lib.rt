//! Words to instructions and back, over the instruction table.
#![tactic(auto)]

mod codec;
mod insn;
mod laws;
mod register;
pub mod target;

pub use codec::{decode, encode};
pub use insn::Insn;
pub use laws::word_laws;
pub use register::Register;
