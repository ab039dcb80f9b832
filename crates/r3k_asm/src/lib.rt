//! Assembler source to an image, in two passes.
#![tactic(auto)]

mod fault;
mod labels;
mod lines;
mod passes;
mod reference;
mod source;

pub use fault::AsmFault;
pub use passes::assemble;
