//! Records of spans that are kept, of the present run and of earlier ones.
#![tactic(auto)]

mod kept;
mod laws;
mod row;

pub use kept::Kept;
pub use laws::near_laws;
