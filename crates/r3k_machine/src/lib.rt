//! The machine: state, the meaning of an address, loads and stores, exceptions, one step, and the run.
#![tactic(auto)]

mod address;
mod caches;
mod devices;
mod exception;
mod execute;
mod flow;
mod isolated;
mod jumps;
mod kept;
mod known;
mod laws;
mod load_store;
mod memory;
mod numbers;
mod quick;
mod state;
pub mod step;
mod target;
mod traced;
mod translation;

pub use address::Where;
pub use flow::{DelayedLoad, Flow};
pub use jumps::Jump;
pub use kept::KeptCore;
pub use known::{decoded, stop};
pub use laws::{destination_laws, locality, quiet_laws, run_laws, trace_laws};
pub use memory::Mem;
pub use numbers::address_numbers;
pub use quick::{CodePage, Next, Quick, code_page, learn, quick_step, quiet_step};
pub use state::{Core, Processor};
pub use step::Done;
pub use target::{Destination, Target};
pub use traced::{Access, AccessKind, Reach, RegisterWrite, Traced, Transfer, follow};
